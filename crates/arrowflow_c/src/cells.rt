//! Single values of a batch.

ghost use Rattle.std.specs.Prelude.{◌≡◌};
ghost use Rattle.arrow_types.specs.View.{type_view};
ghost use Rattle.arrowflow_c.specs.Cells.{CellAt, GivesShown, InColumn, bare_cell, int_cell};
ghost use Rattle.arrowflow_c.specs.Cells.{no_cell, number_cell};

use arrow_data::{Array, Batch, SlotValue};
use arrow_layout::floats::number_of;
use arrow_types::DataType;
use arrowflow_calls::fill;

/// A value of a batch.
#[repr(C)]
#[derive(Clone, Copy)]
pub struct CellC {
    /// 0 null, 1 a truth value, 2 a number, 3 a byte string, 4 a text, 5 a list, 6 a struct, 7 a
    /// number above 2^63 - 1, 8 no cell of the batch, 9 a number of more than 64 bits, 10 a
    /// floating-point number.
    pub what: u32,
    /// The truth value.
    pub truth: bool,
    /// The number; for a date, a time, a timestamp or a duration the number of its units, for an
    /// interval in months the number of its months. (Any other interval is a byte string.)
    pub number: i64,
    /// The number, if it is above 2^63 - 1.
    pub large: u64,
    /// The floating-point number, widened if it has 16 or 32 bits; some NaN if it is not a number.
    pub real: f64,
    /// How many bytes the byte string or the text has, also if the output buffer is shorter.
    pub size: u64,
}

impl CellC {
    /// No cell.
    pub(crate) fn none() -> CellC
        ensures { result ≡ no_cell }
    {
        CellC::bare(8)
    }

    /// A cell with only this kind.
    fn bare(what: u32) -> CellC
        ensures { result ≡ bare_cell what }
    {
        CellC {
            what,
            truth: false,
            number: 0,
            large: 0,
            real: 0.0,
            size: 0,
        }
    }

    /// A number.
    fn of_number(number: i128) -> CellC
        ensures { result ≡ number_cell number }
    {
        match i64::try_from(number) {
            Ok(small) => CellC {
                number: small,
                ..CellC::bare(2)
            },
            Err(_) => match u64::try_from(number) {
                Ok(large) => CellC {
                    large,
                    ..CellC::bare(7)
                },
                Err(_) => CellC::bare(9),
            },
        }
    }

    /// The number that a value of this type is, for floating point the one that its bits encode.
    fn of_int(data_type: &DataType, number: i128) -> CellC
        ensures { result ≡ int_cell (type_view data_type.now).tag number }
    {
        match data_type {
            DataType::FloatingPoint(precision) => CellC {
                real: number_of(*precision, number),
                ..CellC::bare(10)
            },
            _ => CellC::of_number(number),
        }
    }

    /// A value of this type; of a byte string or a text, as much as fits is put into the output.
    fn of(data_type: &DataType, value: SlotValue<'_>, room: &mut [u8]) -> CellC
        ensures { GivesShown (type_view data_type.now).tag value.entry room.old result room.new }
    {
        match value {
            SlotValue::Null => CellC::bare(0),
            SlotValue::Bool(truth) => CellC {
                truth,
                ..CellC::bare(1)
            },
            SlotValue::Int(number) => CellC::of_int(data_type, number),
            SlotValue::Bytes(bytes) => CellC {
                size: fill(room, bytes),
                ..CellC::bare(3)
            },
            SlotValue::Text(text) => CellC {
                size: fill(room, text.as_bytes()),
                ..CellC::bare(4)
            },
            SlotValue::List(_, _, _) => CellC::bare(5),
            SlotValue::Struct(_, _) => CellC::bare(6),
        }
    }
}

/// The value in a row of a column.
fn cell_in(column: &Array, row: usize, room: &mut [u8]) -> CellC
    ensures { InColumn column.now row room.old result room.new }
{
    if row < column.len() {
        CellC::of(column.data_type(), column.slot(row), room)
    } else {
        CellC::none()
    }
}

/// The value in a row and a column of a batch, if there is one.
pub(crate) fn cell_at(batch: &Option<Batch>, column: usize, row: usize, room: &mut [u8]) -> CellC
    ensures { CellAt batch.now column row room.old result room.new }
{
    match batch {
        Some(batch) => match batch.columns().get(column) {
            Some(column) => cell_in(column, row, room),
            None => CellC::none(),
        },
        None => CellC::none(),
    }
}
