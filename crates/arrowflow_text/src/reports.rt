//! Streams reported as they come: their messages, or their rows.

ghost use Rattle.std.specs.Prelude.{◌≡◌, ◌<◌, ◌-◌, ◌^◌, ◌⊎◌, ℕ, IfErr, None, Some, OnOk};
ghost use Rattle.arrow_csv.specs.Layouts.{usual};
ghost use Rattle.arrowflow_input.specs.Blame.{BlamesOnly};
ghost use Rattle.arrowflow_text.specs.ColumnsBlame.{ColumnsBlameOnly};
ghost use Rattle.arrowflow_text.specs.Chosen.{AreRows, choice_of, form_of};
ghost use Rattle.arrowflow_text.specs.Columns.{LacksInput, ShowsSelection};
ghost use Rattle.arrowflow_text.specs.Windows.{ShowsWindowOf};
ghost use Rattle.arrowflow_text.specs.declared.window.Window.{Window};
ghost use Rattle.arrowflow_input.specs.Quiet.{ChecksInput};
ghost use Rattle.arrowflow_text.specs.Reports.{ReportsInput};
ghost use Rattle.arrowflow_text.specs.declared.report.ReportKind.TheVariants.{Messages, Rows};

use crate::columns::{ColumnsFault, Selection, answer_by_lack};
use crate::null_sink::NullSink;
use crate::report::ReportKind;
use crate::report_writer::ReportWriter;
use crate::window::Window;
use arrow_csv::Layout;
use arrow_sink::Sink;
use arrow_stream_reader::StreamReader;
use arrow_types::Limits;
use arrowflow_input::{Input, ToolFault, drive};
use std::alloc::Global;

/// Writes a line for each message of a stream, and returns the output.
///
/// `at P: schema, K columns`, `at P: dictionary ID, now N values`, `at P: batch B, N rows`, and
/// last `at P: end marker` or `at P: end of input`, where `P` is the offset of the message's first
/// byte and batches are counted from 0. If the stream is rejected, or ends too early, the lines of
/// the complete messages are written, and no last one (`specs/Lines.antt`). This contract says of
/// the number of values that a line prints for a dictionary only that some dictionaries had as
/// many; the contract of the line itself says that it is that of the dictionary with that id, as it
/// is then.
///
/// The input is read, and the call ends, as for [`show`].
pub fn check<R: Input, S: Sink>(
    alloc: Global,
    input: &mut R,
    output: S,
    limits: &Limits,
) -> (S, Result<(), ToolFault>)
    requires { S.failed output < 2 ^ 64 - 1 }
    ensures written { ReportsInput Messages limits.now (R.remaining input.old)
        (R.remaining input.new) (S.contents output) (S.failed output) result.1
        (S.contents result.0) (S.failed result.0) }
    ensures passed { OnOk result.1 (S.is_passed_on result.0) }
    ensures blameless { IfErr result.1 (BlamesOnly (R.has_failed input.new)) }
{
    let writer = ReportWriter::new(alloc, ReportKind::Messages, None, output);
    let (output, _, answer) = report(alloc, input, writer, limits);
    (output, answer)
}

/// Reads a whole stream as [`check`] does, and writes nothing: only the answer reports.
///
/// `Ok` if the stream ends well, with an end marker or with the input at the end of a message after
/// its schema. `Stream` if it is rejected or ends elsewhere, with the fault that [`check`] returns
/// too; `Input(0)` if a read failed, including an interrupted one; `Memory` if an allocation
/// failed. `Output` never.
#[tactic(auto, using(crate::proofs::Quiet::checked))]
pub fn check_quietly<R: Input>(
    alloc: Global,
    input: &mut R,
    limits: &Limits,
) -> Result<(), ToolFault>
    ensures checked { ChecksInput limits.now (R.remaining input.old) (R.remaining input.new) result }
    ensures blameless { IfErr result (BlamesOnly (R.has_failed input.new)) }
{
    let writer = ReportWriter::new(alloc, ReportKind::Messages, None, NullSink);
    let (_, _, answer) = report(alloc, input, writer, limits);
    answer
}

/// Writes the rows of a stream as records of comma-separated values, and returns the output.
///
/// A record of the word `batch` and the names of the columns comes first, then one for each row:
/// the number of its batch, counted from 0, and the texts of its values, with indices looked up
/// (`arrow_csv`); the text of a floating-point number reads back as this number. Rows are written
/// as their batches come, so that memory is bounded by a message, whatever the stream's length.
///
/// The input is read in pieces of 65,536 bytes up to an end marker, or to its end; the output is
/// flushed once, before `Ok`. `Stream` if the stream is rejected, or if it ends without being at
/// the end of a message after its schema; `Input(0)` if a read failed, including an interrupted
/// one: then the rows of the complete messages are written. `Output` if the output failed, and
/// `Memory` if an allocation failed: then a prefix of them is.
pub fn show<R: Input, S: Sink>(
    alloc: Global,
    input: &mut R,
    output: S,
    limits: &Limits,
) -> (S, Result<(), ToolFault>)
    requires { S.failed output < 2 ^ 64 - 1 }
    ensures written { ReportsInput (Rows usual) limits.now (R.remaining input.old)
        (R.remaining input.new) (S.contents output) (S.failed output) result.1
        (S.contents result.0) (S.failed result.0) }
    ensures passed { OnOk result.1 (S.is_passed_on result.0) }
    ensures blameless { IfErr result.1 (BlamesOnly (R.has_failed input.new)) }
{
    let writer = ReportWriter::new(alloc, ReportKind::Rows(Layout::usual()), None, output);
    let (output, _, answer) = report(alloc, input, writer, limits);
    (output, answer)
}

/// Writes the rows of a stream that a selection has, and returns the output.
///
/// The record of the names comes first. Of the rows that [`show`] would write, or of those of the
/// one batch that is asked for, the first `skip` are left out; then come `rows` rows, or all. They
/// are written in the layout of the selection: with some of the columns, with another text for a
/// null, or without numbers.
///
/// The call ends well once the last of these rows is written, or the batch that is asked for has
/// come; if no rows are asked for, once the schema has come. Then nothing after that message is
/// read, and no piece of the input after the one with its last byte. If a stream ends or is
/// rejected before, the call ends as [`show`] does.
///
/// If the schema lacks one of the columns, the call returns `Lacks` once the schema came: nothing
/// was written then, and no piece was read after the one with the schema's last byte.
pub fn show_selection<R: Input, S: Sink>(
    alloc: Global,
    input: &mut R,
    output: S,
    selection: &Selection,
    limits: &Limits,
) -> (S, Result<(), ColumnsFault>)
    requires { S.failed output < 2 ^ 64 - 1 }
    ensures written { ShowsSelection selection.now limits.now (R.remaining input.old)
        (R.remaining input.new) (S.contents output) (S.failed output) result.1
        (S.contents result.0) (S.failed result.0) }
    ensures passed { OnOk result.1 (S.is_passed_on result.0) }
    ensures blameless { IfErr result.1 (ColumnsBlameOnly (R.has_failed input.new)) }
{
    let window = Window {
        batch: selection.batch,
        skip: selection.skip,
        rows: selection.rows,
    };
    let rows = ReportKind::Rows(selection.layout);
    let writer = ReportWriter::new(alloc, rows, Some(window), output);
    let (output, lacks, answer) = report(alloc, input, writer, limits);
    (output, answer_by_lack(lacks, answer))
}

/// Reports a stream from its beginning, with the rows that the report writer is to write; returns
/// the output, and the index of the first column asked for that the schema lacks.
fn report<R: Input, S: Sink>(
    alloc: Global,
    input: &mut R,
    writer: ReportWriter<S>,
    limits: &Limits,
) -> (S, Option<usize>, Result<(), ToolFault>)
    requires failed { S.failed writer.output < 2 ^ 64 - 1 }
    requires none { writer.number ≡ 0 }
    requires has { writer.lacks ≡ None }
    requires limited { (writer.window ≡ None) ⊎ AreRows writer.report }
    ensures written { result.1 ≡ None → writer.entry.window ≡ None
        → ReportsInput writer.entry.report limits.now
        (R.remaining input.old) (R.remaining input.new) (S.contents writer.entry.output)
        (S.failed writer.entry.output) result.2 (S.contents result.0) (S.failed result.0) }
    ensures first { result.1 ≡ None → AreRows writer.entry.report → (w : Window)
        → writer.entry.window ≡ Some w
        → ShowsWindowOf (form_of writer.entry.report) (choice_of writer.entry.report) w limits.now
        (R.remaining input.old) (R.remaining input.new) (S.contents writer.entry.output)
        (S.failed writer.entry.output) result.2 (S.contents result.0) (S.failed result.0) }
    ensures lacks { (k : ℕ) → result.1 ≡ Some k → LacksInput (choice_of writer.entry.report) limits.now
        (R.remaining input.old) (R.remaining input.new) (S.contents writer.entry.output)
        (S.failed writer.entry.output) k (S.contents result.0) (S.failed result.0) }
    ensures all { choice_of writer.entry.report ≡ None → result.1 ≡ None }
    ensures passed { result.1 ≡ None → OnOk result.2 (S.is_passed_on result.0) }
    ensures blameless { IfErr result.2 (BlamesOnly (R.has_failed input.new)) }
{
    let mut reader = StreamReader::new(alloc, *limits);
    let (writer, answer) = drive(alloc, &mut reader, input, writer);
    let (output, lacks) = writer.into_parts();
    (output, lacks, answer)
}
