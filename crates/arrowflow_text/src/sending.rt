//! Texts on their way to an output.

ghost use Rattle.std.specs.Prelude.{◌<◌, ◌≤◌, ◌-◌, ◌^◌, [], OnOk};
ghost use Rattle.arrow_csv.specs.Records.{AreBatchRows};
ghost use Rattle.arrowflow_input.specs.Endings.{SendsSome, SendsText};

use arrow_csv::BatchRows;
use arrow_sink::{Sink, send};
use arrowflow_input::ToolFault;
use std::ops::Range;

/// How many rows are turned into text at once.
const ROWS: usize = 1_024;

/// Sends a text.
pub(crate) fn send_text<S: Sink>(output: &mut S, text: &[u8]) -> Result<(), ToolFault>
    requires { S.failed output.old < 2 ^ 64 - 1 }
    ensures { SendsText (S.contents output.old) (S.failed output.old) text.now result
        (S.contents output.new) (S.failed output.new) }
{
    send(output, text)?;
    Ok(())
}

/// Sends the records of these rows, some of them at a time, which are made in the buffer of a text.
pub(crate) fn send_rows<S: Sink>(
    text: &mut Vec<u8>,
    rows: &BatchRows,
    range: Range<usize>,
    output: &mut S,
) -> Result<(), ToolFault>
    requires failed { S.failed output.old < 2 ^ 64 - 1 }
    requires order { range.start ≤ range.end }
    requires within { range.end ≤ rows.now.batch.rows }
    ensures { SendsSome (AreBatchRows rows.now.form rows.now.number rows.now.batch
        range.start range.end)
        (S.contents output.old) (S.failed output.old) result (S.contents output.new)
        (S.failed output.new) }
{
    let mut start = range.start;
    while start < range.end {
        let next = start + ROWS.min(range.end - start);
        text.clear();
        rows.push(text, start..next)?;
        send_text(output, text)?;
        start = next;
    }
    Ok(())
}

/// Passes on what was sent.
pub(crate) fn flush<S: Sink>(output: &mut S) -> Result<(), ToolFault>
    requires { S.failed output.old < 2 ^ 64 - 1 }
    ensures kept { SendsText (S.contents output.old) (S.failed output.old) [] result
        (S.contents output.new) (S.failed output.new) }
    ensures passed { OnOk result (S.is_passed_on output.new) }
{
    output.flush()?;
    Ok(())
}
