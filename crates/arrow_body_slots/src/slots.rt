//! What a single slot adds to each buffer of its node.

ghost use Rattle.std.specs.Prelude.{◌≡◌, ◌≤◌, ◌<◌, [], ◌++◌, IfSome, IsTrue, MatchOption, OnOk};
ghost use Rattle.std.specs.Prelude.{length};
ghost use Rattle.std.specs.List.{flat_map};
ghost use Rattle.arrow_bits.specs.Numbers.{FitsWidth, IsAnyWidth, int_bytes};
ghost use Rattle.arrow_data.specs.Column.{IsColumn};
ghost use Rattle.arrow_layout.specs.Form.{node_form, number_width};
ghost use Rattle.arrow_data.specs.FullSlots.{AreFull};
ghost use Rattle.arrow_layout.specs.PlainValue.{value_at};
ghost use Rattle.arrow_body_laws.specs.Raws.{bytes_in_value, fixed_in, items_in_value};
ghost use Rattle.arrow_body_laws.specs.Raws.{number_in, truth_in};
ghost use Rattle.arrow_body_laws.specs.Stored.{number_buffer};
ghost use Rattle.arrow_layout.specs.declared.form.Form.TheVariants as forms;
ghost use Rattle.arrow_body_slots.specs.Runs.{HasItems, HasNoItems, are_strings};
ghost use Rattle.arrow_body_slots.specs.Slice.{IsFull, IsSlice, values_in};

use crate::slice::{ColumnSlice, is_full};
use arrow_bits::put_int;
use arrow_data::Array;
use arrow_layout::form::{Form, NumberForm, node_form};
use std::alloc::AllocError;

/// The truth value of the slot, false under a null.
#[tactic(auto, using(crate::proofs::Shown::shown))]
pub(crate) fn truth(array: &Array, i: usize) -> bool
    requires { i < length array.now.raw }
    ensures { result ≡ truth_in (value_at array.now.raw i) }
{
    array.bool_at(i).unwrap_or(false)
}

/// The number of the slot, 0 under a null.
#[tactic(auto, using(crate::proofs::Shown::shown))]
pub(crate) fn number(array: &Array, i: usize) -> i128
    requires { i < length array.now.raw }
    ensures { result ≡ number_in (value_at array.now.raw i) }
{
    array.int_at(i).unwrap_or(0)
}

/// The bytes of the slot's byte string or text, none under a null.
#[tactic(auto, using(crate::proofs::Shown::shown))]
pub(crate) fn string(array: &Array, i: usize) -> &[u8]
    requires { i < length array.now.raw }
    ensures { result.now ≡ bytes_in_value (value_at array.now.raw i) }
{
    match (array.bytes_at(i), array.text_at(i)) {
        (Some(bytes), _) => bytes,
        (None, Some(text)) => text.as_bytes(),
        (None, None) => &[],
    }
}

/// The number of items of the slot's list, 0 under a null.
pub(crate) fn span(array: &Array, i: usize) -> usize
    requires { i < length array.now.raw }
    ensures { result ≡ length (items_in_value 0 (value_at array.now.raw i)) }
{
    match array.list_at(i) {
        Some((start, end, _)) => end - start,
        None => 0,
    }
}

/// The form of the array's own node.
pub(crate) fn own_form(array: &Array) -> Form
    ensures form { result ≡ node_form array.now.data_type.tag array.now.encoding }
    ensures known { IsColumn array.now }
{
    // Calls a function whose contract gives the invariant of every array, so that the proof has it.
    let _slots = array.len();
    node_form(array.data_type(), array.encoding().copied())
}

/// The form of the array's own node, if no slot is null.
pub fn full_form(array: &Array) -> Option<Form>
    ensures form { IfSome result (λ form.
        form ≡ node_form array.now.data_type.tag array.now.encoding) }
    ensures known { IfSome result (λ form. IsColumn array.now) }
    ensures full { IfSome result (λ form. AreFull array.now 0 (length array.now.raw)) }
{
    let form = own_form(array);
    if is_full(array) { Some(form) } else { None }
}

/// Whether slots of the form hold byte strings or texts.
fn holds_strings(form: Form) -> bool
    ensures { result ≡ are_strings form }
{
    matches!(form, Form::Bytes(_) | Form::Texts(_) | Form::FixedBytes(_))
}

/// Whether slots of the form hold these numbers.
fn holds_numbers(form: Form, numbers: NumberForm) -> bool
    ensures { IsTrue result → form ≡ forms.Numbers numbers }
{
    match form {
        Form::Numbers(own) => own == numbers,
        _ => false,
    }
}

/// Whether slots of the form hold byte strings of this width.
fn holds_fixed(form: Form, width: u32) -> bool
    ensures { IsTrue result → form ≡ forms.FixedBytes width }
{
    match form {
        Form::FixedBytes(own) => own == width,
        _ => false,
    }
}

/// The bytes of the byte strings or texts of a slice, of which none is null.
pub(crate) fn strings(slice: ColumnSlice<'_>) -> &[u8]
    requires slots { IsSlice slice }
    requires full { IsFull slice }
    ensures { result.now ≡ flat_map bytes_in_value (values_in slice.entry) }
{
    let form = own_form(slice.array);
    if holds_strings(form) {
        slice.array.value_bytes(slice.start, slice.stop)
    } else {
        &[]
    }
}

/// The bytes of the numbers of a slice, of which none is null. None if they are not of this form.
pub(crate) fn numbers(slice: ColumnSlice<'_>, form: NumberForm) -> Option<&[u8]>
    requires slots { IsSlice slice }
    requires full { IsFull slice }
    ensures { IfSome result (λ bytes. bytes.now
        ≡ number_buffer (number_width form) (values_in slice.entry)) }
{
    if holds_numbers(own_form(slice.array), form) {
        Some(slice.array.value_bytes(slice.start, slice.stop))
    } else {
        None
    }
}

/// The byte strings of a slice, of which none is null. None if they do not have this width.
pub(crate) fn fixed(slice: ColumnSlice<'_>, width: u32) -> Option<&[u8]>
    requires slots { IsSlice slice }
    requires full { IsFull slice }
    ensures { IfSome result (λ bytes. bytes.now
        ≡ flat_map (fixed_in width) (values_in slice.entry)) }
{
    let form = own_form(slice.array);
    if holds_fixed(form, width) {
        Some(slice.array.value_bytes(slice.start, slice.stop))
    } else {
        None
    }
}

/// The items of the lists of a slice, of which none is null, one after another: the corresponding
/// slots of the child. None if there is no list.
pub fn items(slice: ColumnSlice<'_>) -> Option<ColumnSlice<'_>>
    requires slots { IsSlice slice }
    requires full { IsFull slice }
    ensures { MatchOption result
        (HasNoItems slice.entry)
        (HasItems slice.entry) }
{
    let ColumnSlice { array, start, stop } = slice;
    if start == stop {
        return None;
    }
    // Calls a function whose contract gives the invariant of every array, so that the proof has it.
    let _slots = array.len();
    let Some(child) = array.items() else {
        return None;
    };
    let (first, _, _) = array.list_at(start)?;
    let (_, end, _) = array.list_at(stop - 1)?;
    Some(ColumnSlice {
        array: child,
        start: first,
        stop: end,
    })
}

/// Appends the number of the slot.
pub(crate) fn put_number(
    out: &mut Vec<u8>,
    width: usize,
    array: &Array,
    i: usize,
) -> Result<(), AllocError>
    requires inside { i < length array.now.raw }
    requires width { IsAnyWidth width }
    requires fits { FitsWidth width (number_in (value_at array.now.raw i)) }
    ensures { OnOk result (out.new.items
        ≡ out.old.items ++ int_bytes width (number_in (value_at array.now.raw i))) }
{
    put_int(out, width, number(array, i))
}

/// Appends the bytes of the slot's byte string or text.
pub(crate) fn put_string(out: &mut Vec<u8>, array: &Array, i: usize) -> Result<(), AllocError>
    requires { i < length array.now.raw }
    ensures { OnOk result (out.new.items
        ≡ out.old.items ++ bytes_in_value (value_at array.now.raw i)) }
{
    out.extend_from_slice(string(array, i))
}
