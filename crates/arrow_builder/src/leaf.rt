//! Slots put after the first ones of a node of any form without children.

ghost use Rattle.std.specs.Prelude.{◌≡◌, ◌+◌, OnErr, OnOk, List, [], option_map};
ghost use Rattle.arrow_layout.specs.Fits.{Fits};
ghost use Rattle.arrow_data.specs.Parts.{value_slot};
ghost use Rattle.arrow_layout.specs.PlainValue.{PlainValue, binary_in, bool_in, int_in, utf8_in};
ghost use Rattle.arrow_layout.specs.Value.{value_view};
ghost use Rattle.arrow_builder.specs.Buffers.{IsLeaf, buffers_in};
ghost use Rattle.arrow_builder.specs.Kept.{Keeps};
ghost use Rattle.arrow_builder.specs.Puts.{PutsSlot, StaySlots};
ghost use Rattle.arrow_types.specs.Field.{none};

use crate::slots::{SlotBuffers, put_bool, put_bytes, put_fixed, put_number};
use arrow_layout::Value;
use arrow_layout::form::Form;
use std::alloc::AllocError;

/// The truth value, if it is one.
fn truth_in(value: &Value) -> Option<bool>
    ensures { result ≡ bool_in (value_view value.now) }
{
    match value {
        Value::Bool(truth) => Some(*truth),
        _ => None,
    }
}

/// The number, if it is one.
fn number_in(value: &Value) -> Option<i128>
    ensures { result ≡ int_in (value_view value.now) }
{
    match value {
        Value::Int(number) => Some(*number),
        _ => None,
    }
}

/// The byte string, if it is one.
fn binary_in(value: &Value) -> Option<&[u8]>
    ensures { option_map (λ b. b.now) result ≡ binary_in (value_view value.now) }
{
    match value {
        Value::Bytes(bytes) => Some(bytes.as_slice()),
        _ => None,
    }
}

/// The bytes of the text, if it is one.
fn text_in(value: &Value) -> Option<&[u8]>
    ensures { option_map (λ b. b.now) result ≡ utf8_in (value_view value.now) }
{
    match value {
        Value::Text(text) => Some(text.as_bytes()),
        _ => None,
    }
}

/// Puts a value that fits into slot `at`.
pub(crate) fn put_leaf(
    buffers: &mut SlotBuffers,
    form: Form,
    at: usize,
    value: &Value,
) -> Result<(), AllocError>
    requires leaf { IsLeaf form }
    requires fits { Fits form none (value_view value.now) }
    requires kept { Keeps form at (buffers_in buffers.old) [] }
    ensures kept { OnOk result (Keeps form (at + 1) (buffers_in buffers.new) []) }
    ensures put { OnOk result ((children : List (List PlainValue))
        → PutsSlot at (value_view value.now)
        (value_slot form (buffers_in buffers.old) children)
        (value_slot form (buffers_in buffers.new) children)) }
    ensures held { OnErr result (Keeps form at (buffers_in buffers.new) []) }
    ensures stay { OnErr result ((children : List (List PlainValue)) → StaySlots at
        (value_slot form (buffers_in buffers.old) children)
        (value_slot form (buffers_in buffers.new) children)) }
{
    match form {
        // Nulls have no buffers, and lists and structs have children.
        Form::Nulls | Form::Lists(_) | Form::Structs => Ok(()),
        Form::Bits => put_bool(buffers, at, truth_in(value)),
        Form::Numbers(form) => put_number(buffers, form.width(), at, number_in(value)),
        Form::FixedBytes(width) => put_fixed(buffers, width as usize, at, binary_in(value)),
        Form::Bytes(width) => put_bytes(buffers, width, at, binary_in(value)),
        Form::Texts(width) => put_bytes(buffers, width, at, text_in(value)),
    }
}
