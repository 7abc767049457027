//! Streams that come in pieces.

ghost use Rattle.std.specs.Borrow.{sem};
ghost use Rattle.std.specs.Prelude.{◌≡◌, None, option_map};
ghost use Rattle.arrowflow_c.specs.Cells.{CellIf};
ghost use Rattle.arrowflow_c.specs.Columns.{ColumnIf};
ghost use Rattle.arrowflow_calls.specs.Fields.{FieldIf};
ghost use Rattle.arrowflow_c.specs.Lending.{KeepsReader};
ghost use Rattle.arrowflow_calls.specs.Reading.{Ends, Opens, ReadsIf};

use crate::cells::{CellC, cell_at};
use crate::columns::{ColumnC, column_at};
use crate::handle::ReaderC;
use arrowflow_calls::{
    BAD_LIMITS, FaultC, FieldC, LimitsC, MEMORY, NO_HANDLE, Reading, StepC, report_field,
};
use std::alloc::Global;
use std::mem::replace;

/// Makes a reader of a new stream, in place of the one that the handle has. Returns 0; or 19 if an
/// allocation failed, 20 if a limit is above its ceiling or no such types exist; then it is empty.
#[unsafe(no_mangle)]
pub extern "C" fn arrowflow_reader_open(alloc: Global, limits: LimitsC, reader: &mut ReaderC) -> u32
    ensures { Opens limits result reader.new.slot.value }
{
    arrowflow_reader_close(alloc, reader);
    let Some(limits) = limits.limits() else {
        return BAD_LIMITS;
    };
    match Box::new(alloc, Reading::new(alloc, limits)) {
        Ok(reading) => {
            *reader = ReaderC::of(reading);
            0
        }
        Err(_) => MEMORY,
    }
}

/// Gives the reader a piece, and returns what came. The reader takes the bytes up to the end of one
/// message, or all of them if none of its messages is complete. The bytes that it did not take must
/// be given again. The batch that a call gives is the reader's until the next call; if an
/// allocation failed, nothing has changed.
#[unsafe(no_mangle)]
pub extern "C" fn arrowflow_reader_read(alloc: Global, reader: &mut ReaderC, piece: &[u8]) -> StepC
    ensures { ReadsIf reader.old.slot.value piece.now result reader.new.slot.value }
{
    match replace(reader, ReaderC::none()).into_box(alloc) {
        Some(mut reading) => {
            let step = reading.read(piece);
            *reader = ReaderC::of(reading);
            step
        }
        None => StepC::fault(NO_HANDLE, 0),
    }
}

/// Returns the result of a stream that ends here.
#[unsafe(no_mangle)]
pub extern "C" fn arrowflow_reader_end(alloc: Global, reader: &mut ReaderC) -> FaultC
    ensures { Ends reader.old.slot.value result reader.new.slot.value }
{
    match replace(reader, ReaderC::none()).into_box(alloc) {
        Some(reading) => {
            let fault = reading.end();
            *reader = ReaderC::of(reading);
            fault
        }
        None => FaultC {
            kind: NO_HANDLE,
            place: 0,
        },
    }
}

/// Returns the value in a row and a column of the reader's batch, both counted from 0, with indices
/// looked up. As much of a byte string or a text as fits is put into the output buffer, and its
/// length is returned.
#[unsafe(no_mangle)]
pub extern "C" fn arrowflow_reader_cell(
    alloc: Global,
    reader: &mut ReaderC,
    column: usize,
    row: usize,
    room: &mut [u8],
) -> CellC
    ensures { CellIf reader.old.slot.value column row room.old result room.new
        reader.new.slot.value }
{
    match replace(reader, ReaderC::none()).into_box(alloc) {
        Some(reading) => {
            let cell = cell_at(&reading.batch, column, row, room);
            *reader = ReaderC::of(reading);
            cell
        }
        None => CellC::none(),
    }
}

/// Gives a column of the reader's batch: where its buffers lie. They stay there until the handle is
/// used again. The path is the number of the column, and then, from level to level, what is below:
/// 0 for lists, the number of a field for structs, and for indices the number of a value of the
/// dictionary, which leads to the array that holds this value. All are counted from 0. The previous
/// contents of the struct are not read, but its references must be valid ones.
#[unsafe(no_mangle)]
pub extern "C" fn arrowflow_reader_column<'a>(
    reader: &'a mut ReaderC,
    path: &[usize],
    column: &mut ColumnC<'a>,
)
    ensures* kept { sem 𝓛 (KeepsReader reader.entry) }
    ensures column { ColumnIf reader.old.slot.value path.now column.new }
{
    show_column(reader.reading(), path, column)
}

/// Gives the column of a reader's batch that a path leads to.
fn show_column<'a>(reading: Option<&'a Reading>, path: &[usize], column: &mut ColumnC<'a>)
    ensures { ColumnIf (option_map (λ r. r.now) reading.entry) path.now column.new }
{
    *column = match reading {
        Some(reading) => column_at(&reading.batch, path),
        None => ColumnC::none(),
    };
}

/// Returns the reader's schema, or the field that a path leads to: the number of the column, and
/// after it, from level to level, that of a child; below a dictionary-encoded field 0 leads to the
/// field of the dictionary's values, which has its type and its children. All are counted from 0.
/// The name, the format string and the metadata, as the Arrow C data interface writes them, are put
/// into the output buffer one after another, as much of their beginning as fits, and their lengths
/// are returned.
#[unsafe(no_mangle)]
pub extern "C" fn arrowflow_reader_field(
    alloc: Global,
    reader: &mut ReaderC,
    path: &[usize],
    room: &mut [u8],
) -> FieldC
    ensures { FieldIf reader.old.slot.value path.now room.old result room.new
        reader.new.slot.value }
{
    match replace(reader, ReaderC::none()).into_box(alloc) {
        Some(reading) => {
            let field = report_field(reading.reader.schema(), path, room);
            *reader = ReaderC::of(reading);
            field
        }
        None => FieldC::none(),
    }
}

/// Ends the reader, if there is one, and frees what it holds.
#[unsafe(no_mangle)]
pub extern "C" fn arrowflow_reader_close(alloc: Global, reader: &mut ReaderC)
    ensures { reader.new.slot.value ≡ None }
{
    let _ = replace(reader, ReaderC::none()).into_box(alloc);
}
