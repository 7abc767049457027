//! The lines that report connections.

ghost use Rattle.std.specs.Prelude.{◌≡◌, ◌++◌, IfOk, OnOk, length, string_bytes};
ghost use Rattle.std.specs.List.{flat_map};
ghost use Rattle.arrowflow_input.specs.Faults.{refusal_name};
ghost use Rattle.arrowflow_session.specs.Asked.{asked_of};
ghost use Rattle.arrowflow_session.specs.Report.{reported_by};
ghost use Rattle.arrowflow_drill.specs.Counts.{bytes_in, rows_in};
ghost use Rattle.arrowflow_drill.specs.Lines.{call_name, connection_lines, dictionaries_line};
ghost use Rattle.arrowflow_drill.specs.Lines.{ending_line, ending_text, entries_text, entry_text};
ghost use Rattle.arrowflow_drill.specs.Lines.{handed_line, refusal_line, written_line};

use arrow_data::{Batch, Dictionary};
use arrow_sink::WriteFault;
use arrowflow_input::session::Ending;
use arrowflow_session::session::{Connection, Refusal, RefusedItem, Report};
use std::alloc::AllocError;
use std::fmt::Write;

/// A connection that was run, and its result.
#[derive(Clone, Copy)]
pub(crate) struct Outcome<'a> {
    pub(crate) connection: &'a Connection,
    pub(crate) report: &'a Report,
}

/// Appends the lines of the connection of this number, delivered in pieces of this length.
pub(crate) fn push_connection(
    text: &mut String,
    number: usize,
    outcome: Outcome,
    piece: u64,
) -> Result<(), AllocError>
    ensures { OnOk result (string_bytes text.new ≡ string_bytes text.old
        ++ connection_lines piece number (asked_of outcome.entry.connection.now)
        (reported_by outcome.entry.report.now)) }
{
    let Outcome { connection, report } = outcome;
    push_written(text, number, report, (connection.deliver, piece))?;
    push_refusals(text, number, report)?;
    push_handed(text, number, report, &connection.batches)?;
    push_dictionaries(text, number, report)?;
    push_ending(text, number, report.received.ending)
}

/// Appends how much was written, how much of it was delivered, and in pieces of which length.
fn push_written(
    text: &mut String,
    number: usize,
    report: &Report,
    delivery: (u64, u64),
) -> Result<(), AllocError>
    ensures { OnOk result (string_bytes text.new ≡ string_bytes text.old
        ++ written_line number (reported_by report.now).parts delivery.0 delivery.1) }
{
    let size = size_of(&report.parts)?;
    let parts = report.parts.len();
    let delivered = delivery.0.min(size);
    let piece = delivery.1;
    write!(
        text,
        "connection {number}: wrote {size} bytes in {parts} parts, "
    )?;
    write!(text, "delivered {delivered} in pieces of {piece}\n")
}

/// The total number of bytes.
pub(crate) fn size_of(parts: &[Vec<u8>]) -> Result<u64, AllocError>
    ensures { IfOk result (λ size. size ≡ bytes_in parts.now) }
{
    let mut size = 0u64;
    for part in parts {
        let Some(next) = size.checked_add(part.len() as u64) else {
            return Err(AllocError);
        };
        size = next;
    }
    Ok(size)
}

/// Appends a line for each rejection.
fn push_refusals(text: &mut String, number: usize, report: &Report) -> Result<(), AllocError>
    ensures { OnOk result (string_bytes text.new ≡ string_bytes text.old
        ++ flat_map (refusal_line number) (reported_by report.now).refused) }
{
    for refusal in &report.refused {
        push_refusal(text, number, *refusal)?;
    }
    Ok(())
}

/// Appends what the writer rejected.
fn push_refusal(text: &mut String, number: usize, refusal: Refusal) -> Result<(), AllocError>
    ensures { OnOk result (string_bytes text.new ≡ string_bytes text.old
        ++ refusal_line number refusal) }
{
    write!(text, "connection {number}: ")?;
    push_call(text, refusal.what)?;
    write!(text, " refused: {}\n", refusal_name(refusal.kind))
}

/// Appends which of the writer's calls was rejected.
fn push_call(text: &mut String, what: RefusedItem) -> Result<(), AllocError>
    ensures { OnOk result (string_bytes text.new ≡ string_bytes text.old ++ call_name what) }
{
    match what {
        RefusedItem::Start => text.push_str("start"),
        RefusedItem::Batch(batch) => write!(text, "batch {batch}"),
        RefusedItem::Finish => text.push_str("end"),
    }
}

/// The name of a writer's rejection.
fn refusal_name(kind: WriteFault) -> &'static str
    ensures { result.now ≡ refusal_name kind }
{
    match kind {
        WriteFault::SchemaDiffers => "SchemaDiffers",
        WriteFault::TooLarge => "TooLarge",
        WriteFault::DictionariesDiffer => "DictionariesDiffer",
        WriteFault::Sink => "Sink",
        WriteFault::Broken => "Broken",
        WriteFault::Finished => "Finished",
        WriteFault::Memory => "Memory",
    }
}

/// Appends how much the reader delivered of these batches.
fn push_handed(
    text: &mut String,
    number: usize,
    report: &Report,
    batches: &[Batch],
) -> Result<(), AllocError>
    ensures { OnOk result (string_bytes text.new ≡ string_bytes text.old
        ++ handed_line number (reported_by report.now).handed (length batches.now)) }
{
    let rows = rows_of(&report.received.handed)?;
    let handed = report.received.handed.len();
    let count = batches.len();
    write!(
        text,
        "connection {number}: handed out {handed} of {count} batches, "
    )?;
    write!(text, "{rows} rows\n")
}

/// The total number of rows.
fn rows_of(batches: &[Batch]) -> Result<u64, AllocError>
    ensures { IfOk result (λ rows. rows ≡ rows_in batches.now) }
{
    let mut rows = 0u64;
    for batch in batches {
        let Some(next) = rows.checked_add(batch.rows() as u64) else {
            return Err(AllocError);
        };
        rows = next;
    }
    Ok(rows)
}

/// Appends the dictionaries of both ends.
fn push_dictionaries(text: &mut String, number: usize, report: &Report) -> Result<(), AllocError>
    ensures { OnOk result (string_bytes text.new ≡ string_bytes text.old
        ++ dictionaries_line number (reported_by report.now).reader_dictionaries
        (reported_by report.now).writer_dictionaries) }
{
    write!(text, "connection {number}: dictionaries reader ")?;
    push_entries(text, &report.received.reader_dictionaries)?;
    text.push_str(", writer ")?;
    push_entries(text, &report.writer_dictionaries)?;
    write!(text, "\n")
}

/// Appends the ids of dictionaries with their lengths.
fn push_entries(text: &mut String, entries: &[(i64, Dictionary)]) -> Result<(), AllocError>
    ensures { OnOk result (string_bytes text.new ≡ string_bytes text.old
        ++ entries_text entries.now) }
{
    let Some((first, rest)) = entries.split_first() else {
        return text.push_str("none");
    };
    push_entry(text, first)?;
    for entry in rest {
        text.push_str(";")?;
        push_entry(text, entry)?;
    }
    Ok(())
}

/// Appends the id of a dictionary with its length.
fn push_entry(text: &mut String, entry: &(i64, Dictionary)) -> Result<(), AllocError>
    ensures { OnOk result (string_bytes text.new ≡ string_bytes text.old ++ entry_text entry.now) }
{
    let (id, values) = entry;
    write!(text, "{id}={}", values.len())
}

/// Appends the line of how the delivered bytes ended.
fn push_ending(text: &mut String, number: usize, ending: Ending) -> Result<(), AllocError>
    ensures { OnOk result (string_bytes text.new ≡ string_bytes text.old
        ++ ending_line number ending) }
{
    write!(text, "connection {number}: ending ")?;
    push_how_it_ended(text, ending)?;
    write!(text, "\n")
}

/// Appends how they ended.
fn push_how_it_ended(text: &mut String, ending: Ending) -> Result<(), AllocError>
    ensures { OnOk result (string_bytes text.new ≡ string_bytes text.old ++ ending_text ending) }
{
    match ending {
        Ending::Clean => text.push_str("clean"),
        Ending::Fault(fault) => write!(text, "{} at {}", fault.kind, fault.place),
    }
}
