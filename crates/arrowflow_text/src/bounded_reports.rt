//! Streams with bounds, reported as they come.

ghost use Rattle.std.specs.Prelude.{◌≡◌, ◌<◌, ◌-◌, ◌^◌, ◌⊎◌, ℕ, Err, IfErr, IfSome, None, OnOk, Some};
ghost use Rattle.arrowflow_input.specs.Blame.{BlamesOnly};
ghost use Rattle.arrowflow_text.specs.ColumnsBlame.{ColumnsBlameOnly};
ghost use Rattle.arrowflow_text.specs.Chosen.{AreRows, choice_of, form_of};
ghost use Rattle.arrowflow_text.specs.Columns.{LacksInput};
ghost use Rattle.arrowflow_input.specs.Within.{IsToBlame, left_of};
ghost use Rattle.arrowflow_text.specs.WithinCalls.{ChecksWithin, ReportsWithin, ShowsWithin};
ghost use Rattle.arrowflow_text.specs.WithinCalls.{ShowsWindowWithin};
ghost use Rattle.arrowflow_text.specs.declared.columns.ColumnsFault.TheVariants.{Tool};
ghost use Rattle.arrowflow_text.specs.declared.report.ReportKind.TheVariants.{Messages};
ghost use Rattle.arrowflow_input.specs.declared.tool_fault.ToolFault.TheVariants.{Input as Unread};
ghost use Rattle.arrowflow_text.specs.declared.window.Window.{Window};

use crate::columns::{ColumnsFault, Selection, answer_by_lack};
use crate::null_sink::NullSink;
use crate::report::ReportKind;
use crate::report_writer::ReportWriter;
use crate::window::Window;
use arrow_sink::Sink;
use arrow_stream_reader::StreamReader;
use arrow_types::Limits;
use arrowflow_input::{Bounded, Input, ToolFault, drive_within};
use std::alloc::Global;

/// Writes a line for each message of a stream as [`check`](crate::check) does, as long as it keeps
/// the bounds of its input, and returns the output.
///
/// If the stream passes a bound, the call returns `Input(0)`, and [`Bounded::excess`] has the bound
/// and the offset: the lines of the messages before it are written. Otherwise the answer and what
/// is written are those of [`check`](crate::check).
pub fn check_within<R: Input, S: Sink>(
    alloc: Global,
    input: &mut Bounded<R>,
    output: S,
    limits: &Limits,
) -> (S, Result<(), ToolFault>)
    requires { S.failed output < 2 ^ 64 - 1 }
    ensures written { ReportsWithin Messages input.old.whole limits.now
        (left_of R.remaining input.old) (left_of R.remaining input.new) input.new.excess
        (S.contents output) (S.failed output) result.1 (S.contents result.0) (S.failed result.0) }
    ensures excess { IfSome input.new.excess (λ _. result.1 ≡ Err (Unread 0)) }
    ensures passed { OnOk result.1 (S.is_passed_on result.0) }
    ensures blameless { IfErr result.1 (BlamesOnly (IsToBlame R.has_failed input.new)) }
{
    let writer = ReportWriter::new(alloc, ReportKind::Messages, None, output);
    let (output, _, answer) = report_within(alloc, input, writer, limits);
    (output, answer)
}

/// Reads a whole stream as [`check_within`] does, and writes nothing.
#[tactic(auto, using(crate::proofs::Quiet::checked_within))]
pub fn check_quietly_within<R: Input>(
    alloc: Global,
    input: &mut Bounded<R>,
    limits: &Limits,
) -> Result<(), ToolFault>
    ensures checked { ChecksWithin input.old.whole limits.now (left_of R.remaining input.old)
        (left_of R.remaining input.new) input.new.excess result }
    ensures excess { IfSome input.new.excess (λ _. result ≡ Err (Unread 0)) }
    ensures blameless { IfErr result (BlamesOnly (IsToBlame R.has_failed input.new)) }
{
    let writer = ReportWriter::new(alloc, ReportKind::Messages, None, NullSink);
    let (_, _, answer) = report_within(alloc, input, writer, limits);
    answer
}

/// Writes the rows of a stream that a selection has, as [`show_selection`](crate::show_selection)
/// does, as long as it keeps the bounds of its input, and returns the output. What comes after the
/// last message that is needed passes no bound.
///
/// If the stream passes a bound, the call returns `Tool(Input(0))`, and [`Bounded::excess`] has the
/// bound and the offset: the rows of the messages before it are written. Otherwise the answer and
/// what is written are those of [`show_selection`](crate::show_selection).
pub fn show_within<R: Input, S: Sink>(
    alloc: Global,
    input: &mut Bounded<R>,
    output: S,
    selection: &Selection,
    limits: &Limits,
) -> (S, Result<(), ColumnsFault>)
    requires { S.failed output < 2 ^ 64 - 1 }
    ensures written { ShowsWithin selection.now input.old.whole limits.now
        (left_of R.remaining input.old) (left_of R.remaining input.new) input.new.excess
        (S.contents output) (S.failed output) result.1 (S.contents result.0) (S.failed result.0) }
    ensures excess { IfSome input.new.excess (λ _. result.1 ≡ Err (Tool (Unread 0))) }
    ensures passed { OnOk result.1 (S.is_passed_on result.0) }
    ensures blameless { IfErr result.1 (ColumnsBlameOnly (IsToBlame R.has_failed input.new)) }
{
    let window = Window {
        batch: selection.batch,
        skip: selection.skip,
        rows: selection.rows,
    };
    let writer = ReportWriter::new(
        alloc,
        ReportKind::Rows(selection.layout),
        Some(window),
        output,
    );
    let (output, lacks, answer) = report_within(alloc, input, writer, limits);
    (output, answer_by_lack(lacks, answer))
}

/// Reports a stream from its beginning as long as it keeps its bounds, with the rows that the
/// report writer is to write; returns the output, and the index of the first column asked for that
/// the schema lacks.
fn report_within<R: Input, S: Sink>(
    alloc: Global,
    input: &mut Bounded<R>,
    writer: ReportWriter<S>,
    limits: &Limits,
) -> (S, Option<usize>, Result<(), ToolFault>)
    requires failed { S.failed writer.output < 2 ^ 64 - 1 }
    requires none { writer.number ≡ 0 }
    requires has { writer.lacks ≡ None }
    requires limited { (writer.window ≡ None) ⊎ AreRows writer.report }
    ensures written { result.1 ≡ None → writer.entry.window ≡ None
        → ReportsWithin writer.entry.report input.old.whole limits.now
        (left_of R.remaining input.old) (left_of R.remaining input.new) input.new.excess
        (S.contents writer.entry.output) (S.failed writer.entry.output) result.2
        (S.contents result.0) (S.failed result.0) }
    ensures first { result.1 ≡ None → (w : Window) → writer.entry.window ≡ Some w
        → ShowsWindowWithin (form_of writer.entry.report) (choice_of writer.entry.report) w
        input.old.whole limits.now (left_of R.remaining input.old)
        (left_of R.remaining input.new) input.new.excess (S.contents writer.entry.output)
        (S.failed writer.entry.output) result.2 (S.contents result.0) (S.failed result.0) }
    ensures lacks { (k : ℕ) → result.1 ≡ Some k → LacksInput (choice_of writer.entry.report) limits.now
        (left_of R.remaining input.old) (left_of R.remaining input.new)
        (S.contents writer.entry.output) (S.failed writer.entry.output) k (S.contents result.0)
        (S.failed result.0) × (input.new.excess ≡ None) }
    ensures all { choice_of writer.entry.report ≡ None → result.1 ≡ None }
    ensures excess { IfSome input.new.excess (λ _. result.2 ≡ Err (Unread 0)) }
    ensures passed { result.1 ≡ None → OnOk result.2 (S.is_passed_on result.0) }
    ensures blameless { IfErr result.2 (BlamesOnly (IsToBlame R.has_failed input.new)) }
{
    let mut reader = StreamReader::new(alloc, *limits);
    let (writer, answer) = drive_within(alloc, &mut reader, input, writer);
    let (output, lacks) = writer.into_parts();
    (output, lacks, answer)
}
