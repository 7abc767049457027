//! The JSON of values.

ghost use Rattle.std.specs.Prelude.{◌≡◌, ◌≤◌, ◌<◌, OnOk, length};
ghost use Rattle.arrow_data.specs.Column.{AreOf, resolved_row_of, values_from};
ghost use Rattle.arrow_layout.specs.PlainValue.{value_at};
ghost use Rattle.arrow_data.specs.Same.{HaveSlot};
ghost use Rattle.arrow_data.specs.Shown.{HoldsValue};
ghost use Rattle.arrow_types.specs.View.{fields_view};
ghost use Rattle.arrow_json.specs.Values.{IsArrayOf, IsJson, IsObjectOf};
ghost use Rattle.arrow_json.specs.Written.{Adds};

use crate::kind::JsonKind;
use crate::pen::Pen;
use crate::scalars::{write_bytes, write_int};
use arrow_data::{Array, SlotValue};
use arrow_types::Field;
use std::alloc::AllocError;

/// Writes the value in slot `i`, passed as `value`.
#[cycle(value)]
fn write_value(
    pen: &mut Pen,
    column: &Array,
    i: usize,
    value: SlotValue<'_>,
) -> Result<(), AllocError>
    requires inside { i < length column.now.raw }
    requires holds { HoldsValue column.now i value }
    ensures { OnOk result (Adds
        (IsJson column.now.data_type (value_at column.now.resolved i))
        pen.old.writer pen.new.writer) }
{
    match value {
        SlotValue::Null => pen.writer.null(),
        SlotValue::Bool(truth) => pen.writer.boolean(truth),
        SlotValue::Int(number) => write_int(pen, JsonKind::of(column.data_type()), number),
        SlotValue::Bytes(bytes) => write_bytes(pen, JsonKind::of(column.data_type()), bytes),
        SlotValue::Text(text) => pen.writer.string(text),
        SlotValue::List(start, end, items) => write_items(pen, items, start, end),
        SlotValue::Struct(children, place) => {
            write_parts(pen, column.data_type().children(), children, place)
        }
    }
}

/// Writes the items in a range of slots as an array.
#[cycle(value)]
fn write_items(pen: &mut Pen, items: &Array, start: usize, end: usize) -> Result<(), AllocError>
    requires order { start ≤ end }
    requires inside { end ≤ length items.now.raw }
    requires long { length items.now.resolved ≡ length items.now.raw }
    ensures { OnOk result (Adds
        (IsArrayOf items.now.data_type (values_from items.now.resolved start end))
        pen.old.writer pen.new.writer) }
{
    pen.writer.begin_array()?;
    for k in start..end {
        write_value(pen, items, k, items.slot(k))?;
    }
    pen.writer.end_array()
}

/// Writes the values that some fields have in one slot of their arrays as an object.
#[cycle(value)]
pub(crate) fn write_parts(
    pen: &mut Pen,
    fields: &[Field],
    children: &[Array],
    place: usize,
) -> Result<(), AllocError>
    requires typed { AreOf (fields_view fields.now) children.now }
    requires inside { HaveSlot place children.now }
    ensures { OnOk result (Adds
        (IsObjectOf (fields_view fields.now) (resolved_row_of children.now place))
        pen.old.writer pen.new.writer) }
{
    pen.writer.begin_object()?;
    for k in 0..children.len() {
        pen.writer.key(&fields[k].name)?;
        write_value(pen, &children[k], place, children[k].slot(place))?;
    }
    pen.writer.end_object()
}
