//! The lines of rows.

ghost use Rattle.std.specs.Prelude.{◌≡◌, ◌≤◌, ◌<◌, ◌++◌, IfOk};
ghost use Rattle.arrow_json.specs.Lines.{AddsLine, AreLines, as_row, rows_between};

use crate::pen::Pen;
use crate::values::write_parts;
use arrow_data::Batch;
use json::Writer;
use std::alloc::{AllocError, Global};
use std::ops::Range;

/// The lines of these rows of a batch: for each an object with a member for each column, and a line
/// feed.
pub fn lines_of(alloc: Global, batch: &Batch, rows: Range<usize>) -> Result<Vec<u8>, AllocError>
    requires order { rows.start ≤ rows.end }
    requires inside { rows.end ≤ batch.now.rows }
    ensures { IfOk result (λ text. AreLines (rows_between batch.now rows.start rows.end) text.items) }
{
    let mut text = Vec::new(alloc);
    let mut room = Vec::new(alloc);
    for i in rows.start..rows.end {
        (text, room) = with_line(text, room, batch, i)?;
    }
    Ok(text)
}

/// A text with the line of a row appended, and the scratch buffer in which the texts of its values
/// were made.
fn with_line(
    text: Vec<u8>,
    room: Vec<u8>,
    batch: &Batch,
    i: usize,
) -> Result<(Vec<u8>, Vec<u8>), AllocError>
    requires { i < batch.now.rows }
    ensures { IfOk result (λ made. AddsLine (as_row batch.now i) text.items made.0.items) }
{
    let writer = Writer::new(text);
    let mut pen = Pen { writer, room };
    write_parts(&mut pen, batch.schema().fields(), batch.columns(), i)?;
    let Pen { writer, room } = pen;
    let mut text = writer.into_inner();
    text.push(b'\n')?;
    Ok((text, room))
}
