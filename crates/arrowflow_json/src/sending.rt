//! Lines of rows on their way to an output.

ghost use Rattle.std.specs.Prelude.{◌<◌, ◌≤◌, ◌-◌, ◌^◌, [], OnOk};
ghost use Rattle.arrow_json.specs.Lines.{rows_between};
ghost use Rattle.arrowflow_input.specs.Endings.{SendsText};
ghost use Rattle.arrowflow_json.specs.Showing.{SendsLines};

use arrow_data::Batch;
use arrow_json::lines_of;
use arrow_sink::{Sink, send};
use arrowflow_input::ToolFault;
use std::alloc::Global;
use std::ops::Range;

/// The number of rows that are formatted at once.
const ROWS: usize = 1_024;

/// Sends the lines of all rows of a batch, some of them at a time.
pub(crate) fn send_batch<S: Sink>(
    alloc: Global,
    batch: &Batch,
    output: &mut S,
) -> Result<(), ToolFault>
    requires { S.failed output.old < 2 ^ 64 - 1 }
    ensures { SendsLines (rows_between batch.now 0 batch.now.rows) (S.contents output.old)
        (S.failed output.old) result (S.contents output.new) (S.failed output.new) }
{
    let end = batch.rows();
    let mut start = 0;
    while start < end {
        let next = start + ROWS.min(end - start);
        send_rows(alloc, batch, start..next, output)?;
        start = next;
    }
    Ok(())
}

/// Sends the lines of these rows of a batch.
fn send_rows<S: Sink>(
    alloc: Global,
    batch: &Batch,
    rows: Range<usize>,
    output: &mut S,
) -> Result<(), ToolFault>
    requires failed { S.failed output.old < 2 ^ 64 - 1 }
    requires order { rows.start ≤ rows.end }
    requires inside { rows.end ≤ batch.now.rows }
    ensures { SendsLines (rows_between batch.now rows.start rows.end) (S.contents output.old)
        (S.failed output.old) result (S.contents output.new) (S.failed output.new) }
{
    let text = lines_of(alloc, batch, rows)?;
    send_text(output, &text)
}

/// Sends a text.
pub(crate) fn send_text<S: Sink>(output: &mut S, text: &[u8]) -> Result<(), ToolFault>
    requires { S.failed output.old < 2 ^ 64 - 1 }
    ensures { SendsText (S.contents output.old) (S.failed output.old) text.now result
        (S.contents output.new) (S.failed output.new) }
{
    send(output, text)?;
    Ok(())
}

/// Flushes what was sent.
pub(crate) fn flush<S: Sink>(output: &mut S) -> Result<(), ToolFault>
    requires { S.failed output.old < 2 ^ 64 - 1 }
    ensures kept { SendsText (S.contents output.old) (S.failed output.old) [] result
        (S.contents output.new) (S.failed output.new) }
    ensures passed { OnOk result (S.is_passed_on output.new) }
{
    output.flush()?;
    Ok(())
}
