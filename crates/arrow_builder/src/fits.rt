//! Whether a value fits a column.

ghost use Rattle.std.specs.Prelude.{◌↔◌, IsTrue, length};
ghost use Rattle.arrow_layout.specs.Fits.{HoldsBinary, HoldsInt, HoldsUtf8, ItemsFit, PartsFit};
ghost use Rattle.arrow_layout.specs.Form.{HoldsList, int_width};
ghost use Rattle.arrow_layout.specs.PlainValue.{list_of_values, values_of};
ghost use Rattle.arrow_layout.specs.Value.{value_view, values_view};
ghost use Rattle.arrow_bits.specs.Numbers.{FitsInt};
ghost use Rattle.arrow_builder.specs.Fields.{FitsField};
ghost use Rattle.arrow_types.specs.View.{field_view, fields_view};
ghost use Rattle.std.specs.String.{string_bytes};

use arrow_layout::Value;
use arrow_layout::form::{Form, ListForm, NumberForm, node_form};
use arrow_types::{BitWidth, Field};

/// Whether a slot of the field's column can hold the value.
///
/// Null fits every field. For a dictionary-encoded field any other value must be an index.
#[cycle(fits)]
pub(crate) fn fits(value: &Value, field: &Field) -> bool
    ensures { IsTrue result ↔ FitsField (field_view field.now) (value_view value.now) }
{
    let form = node_form(&field.data_type, field.dictionary);
    match value {
        Value::Null => true,
        Value::Bool(_) => matches!(form, Form::Bits),
        Value::Int(number) => holds_int(form, *number),
        Value::Bytes(bytes) => holds_binary(form, bytes),
        Value::Text(text) => holds_text(form, text),
        Value::List(items) => { holds_list(form, items) && items_fit(items, field.children()) }
        Value::Struct(parts) => {
            matches!(form, Form::Structs) && parts_fit(parts, field.children())
        }
    }
}

/// Whether each of the items fits the first field; if there is no field, whether there are no items.
#[cycle(fits)]
fn items_fit(items: &[Value], fields: &[Field]) -> bool
    ensures { IsTrue result
        ↔ ItemsFit (fields_view fields.now) (values_of (values_view items.now)) }
{
    for item in items {
        if fields.is_empty() || !fits(item, &fields[0]) {
            return false;
        }
    }
    true
}

/// Whether there is one value for each field, and each fits its field.
#[cycle(fits)]
fn parts_fit(parts: &[Value], fields: &[Field]) -> bool
    ensures { IsTrue result
        ↔ PartsFit (fields_view fields.now) (values_of (values_view parts.now)) }
{
    if fields.len() != parts.len() {
        return false;
    }
    for i in 0..fields.len() {
        if !fits(&parts[i], &fields[i]) {
            return false;
        }
    }
    true
}

/// Whether slots of the form hold lists, and can hold one of this many items.
fn holds_list(form: Form, items: &[Value]) -> bool
    ensures { IsTrue result ↔ HoldsList form
        (length (list_of_values (values_of (values_view items.now)))) }
{
    match form {
        Form::Lists(ListForm::Offsets(_)) => true,
        Form::Lists(ListForm::Fixed(size)) => items.len() == size as usize,
        _ => false,
    }
}

/// Whether slots of the form hold the number.
fn holds_int(form: Form, number: i128) -> bool
    ensures { IsTrue result ↔ HoldsInt form number }
{
    match form {
        Form::Numbers(NumberForm::Int { bits, signed }) => is_in_range(bits, signed, number),
        // every number that a value can have
        Form::Numbers(NumberForm::Int128) => true,
        _ => false,
    }
}

/// Whether the number lies in the range of the width and the sign.
fn is_in_range(bits: BitWidth, signed: bool, number: i128) -> bool
    ensures { IsTrue result ↔ FitsInt (int_width bits) signed number }
{
    match (bits, signed) {
        (BitWidth::Eight, true) => i8::try_from(number).is_ok(),
        (BitWidth::Sixteen, true) => i16::try_from(number).is_ok(),
        (BitWidth::ThirtyTwo, true) => i32::try_from(number).is_ok(),
        (BitWidth::SixtyFour, true) => i64::try_from(number).is_ok(),
        (BitWidth::Eight, false) => u8::try_from(number).is_ok(),
        (BitWidth::Sixteen, false) => u16::try_from(number).is_ok(),
        (BitWidth::ThirtyTwo, false) => u32::try_from(number).is_ok(),
        (BitWidth::SixtyFour, false) => u64::try_from(number).is_ok(),
    }
}

/// Whether slots of the form hold the byte string.
fn holds_binary(form: Form, bytes: &[u8]) -> bool
    ensures { IsTrue result ↔ HoldsBinary form bytes.now }
{
    match form {
        Form::Bytes(_) => true,
        Form::FixedBytes(width) => bytes.len() == width as usize,
        _ => false,
    }
}

/// Whether slots of the form hold the text.
fn holds_text(form: Form, text: &String) -> bool
    ensures { IsTrue result ↔ HoldsUtf8 form (string_bytes text.now) }
{
    text.as_str();
    matches!(form, Form::Texts(_))
}
