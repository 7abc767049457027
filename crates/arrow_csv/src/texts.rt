//! The texts of values.

ghost use Rattle.std.specs.Prelude.{◌≡◌, ◌≤◌, ◌<◌, ◌+◌, OnOk, length};
ghost use Rattle.arrow_data.specs.Column.{AreOf, resolved_row_of, values_from};
ghost use Rattle.arrow_layout.specs.PlainValue.{value_at};
ghost use Rattle.arrow_data.specs.Same.{HaveSlot};
ghost use Rattle.arrow_data.specs.Shown.{HoldsValue};
ghost use Rattle.arrow_types.specs.View.{fields_view};
ghost use Rattle.arrow_csv.specs.Texts.{Appends, IsItemText, IsListOf, IsStructOf};

use crate::floats::push_int;
use crate::intervals::push_binary;
use arrow_data::{Array, SlotValue};
use arrow_types::Field;
use std::alloc::AllocError;

/// Appends the text of the value in slot `i`, passed as `value`, as it shows inside a list or a
/// struct.
#[cycle(text)]
#[inline(always)]
pub(crate) fn push_value(
    out: &mut Vec<u8>,
    column: &Array,
    i: usize,
    value: SlotValue<'_>,
) -> Result<(), AllocError>
    requires inside { i < length column.now.raw }
    requires holds { HoldsValue column.now i value }
    ensures { OnOk result (Appends
        (IsItemText column.now.data_type (value_at column.now.resolved i))
        out.old.items out.new.items) }
{
    match value {
        SlotValue::Null => out.extend_from_slice(b"null"),
        SlotValue::Bool(true) => out.extend_from_slice(b"true"),
        SlotValue::Bool(false) => out.extend_from_slice(b"false"),
        SlotValue::Int(number) => push_int(out, column.data_type(), number),
        SlotValue::Bytes(bytes) => push_binary(out, column.data_type(), bytes),
        SlotValue::Text(text) => out.extend_from_slice(text.as_bytes()),
        SlotValue::List(start, end, items) => push_items(out, items, start, end),
        SlotValue::Struct(children, place) => {
            push_parts(out, column.data_type().children(), children, place)
        }
    }
}

/// Appends the text of a list whose items are in a range of slots.
#[cycle(text)]
#[inline(never)]
pub(crate) fn push_items(
    out: &mut Vec<u8>,
    items: &Array,
    start: usize,
    end: usize,
) -> Result<(), AllocError>
    requires order { start ≤ end }
    requires inside { end ≤ length items.now.raw }
    requires long { length items.now.resolved ≡ length items.now.raw }
    ensures { OnOk result (Appends
        (IsListOf items.now.data_type (values_from items.now.resolved start end))
        out.old.items out.new.items) }
{
    out.push(b'[')?;
    for k in start..end {
        if k > start {
            out.push(b';')?;
        }
        push_value(out, items, k, items.slot(k))?;
    }
    out.push(b']')?;
    Ok(())
}

/// Appends the text of a struct whose fields have their values in one slot of their arrays.
#[cycle(text)]
#[inline(never)]
pub(crate) fn push_parts(
    out: &mut Vec<u8>,
    fields: &[Field],
    children: &[Array],
    place: usize,
) -> Result<(), AllocError>
    requires typed { AreOf (fields_view fields.now) children.now }
    requires inside { HaveSlot place children.now }
    ensures { OnOk result (Appends
        (IsStructOf (fields_view fields.now) (resolved_row_of children.now place))
        out.old.items out.new.items) }
{
    out.push(b'{')?;
    for k in 0..children.len() {
        if k > 0 {
            out.push(b';')?;
        }
        out.extend_from_slice(fields[k].name.as_bytes())?;
        out.push(b'=')?;
        push_value(out, &children[k], place, children[k].slot(place))?;
    }
    out.push(b'}')?;
    Ok(())
}
