//! Slots put after the first ones of a node without children.
//!
//! The buffers may hold more than the first slots; what follows these is overwritten. If an
//! allocation fails, the first slots are unchanged.

ghost use Rattle.std.specs.Prelude.{◌≡◌, ◌+◌, ◌++◌, IfSome, OnErr, OnOk, Bool, length, take};
ghost use Rattle.arrow_layout.specs.PlainValue.{binary_value, bool_value, int_value};
ghost use Rattle.arrow_layout.specs.Slots.{bool_slot, fixed_slot, int_slot};
ghost use Rattle.arrow_bits.specs.Numbers.{FitsInt, FitsWidth, IsAnyWidth};
ghost use Rattle.std.specs.Prelude.{◌*◌, ◌≤◌, ◌<◌, ◌↔◌, ℕ, IsTrue, List};
ghost use Rattle.arrow_layout.specs.Form.{offset_bytes};
ghost use Rattle.arrow_layout.specs.PlainValue.{PlainValue};
ghost use Rattle.arrow_layout.specs.Slots.{place_of};
ghost use Rattle.arrow_builder.specs.Kept.{KeepsBools, KeepsFixed, KeepsParts, KeepsRanges};
ghost use Rattle.arrow_builder.specs.Kept.{offset_bound};
ghost use Rattle.arrow_builder.specs.Puts.{PutsSlot, PutsValid, StayPlaces, StaySlots, part_slot};
ghost use Rattle.arrow_builder.specs.Puts.{value_or_null};

use arrow_bits::{int_at, put_bit, put_int, put_zeros};
use arrow_layout::form::OffsetWidth;
use std::alloc::AllocError;

/// The buffers of a node, in the order of the format (Columnar Format, "Buffer Listing for Each
/// Layout"): the validity bitmap; the numbers, the truth values, the byte strings of a fixed width,
/// or the offsets; and the data that offsets of byte strings refer to.
#[derive(Drop)]
pub(crate) struct SlotBuffers {
    pub(crate) validity: Vec<u8>,
    pub(crate) values: Vec<u8>,
    pub(crate) bytes: Vec<u8>,
}

/// Puts a truth value, or null, into slot `at`.
pub(crate) fn put_bool(
    buffers: &mut SlotBuffers,
    at: usize,
    truth: Option<bool>,
) -> Result<(), AllocError>
    requires { KeepsBools at buffers.old.validity.items buffers.old.values.items }
    ensures kept { OnOk result
        (KeepsBools (at + 1) buffers.new.validity.items buffers.new.values.items) }
    ensures put { OnOk result (PutsSlot at (value_or_null bool_value truth)
        (bool_slot buffers.old.validity.items buffers.old.values.items)
        (bool_slot buffers.new.validity.items buffers.new.values.items)) }
    ensures held { OnErr result
        (KeepsBools at buffers.new.validity.items buffers.new.values.items) }
    ensures stay { OnErr result (StaySlots at
        (bool_slot buffers.old.validity.items buffers.old.values.items)
        (bool_slot buffers.new.validity.items buffers.new.values.items)) }
{
    put_bit(&mut buffers.values, at, truth.unwrap_or(false))?;
    put_bit(&mut buffers.validity, at, truth.is_some())
}

/// Puts a number of this width, or null, into slot `at`.
pub(crate) fn put_number(
    buffers: &mut SlotBuffers,
    width: usize,
    at: usize,
    number: Option<i128>,
) -> Result<(), AllocError>
    requires width { IsAnyWidth width }
    requires fits { IfSome number (FitsWidth width) }
    requires kept { KeepsFixed at width buffers.old.validity.items buffers.old.values.items }
    ensures kept { OnOk result
        (KeepsFixed (at + 1) width buffers.new.validity.items buffers.new.values.items) }
    ensures put { OnOk result ((signed : Bool) → IfSome number (FitsInt width signed)
        → PutsSlot at (value_or_null int_value number)
        (int_slot width signed buffers.old.validity.items buffers.old.values.items)
        (int_slot width signed buffers.new.validity.items buffers.new.values.items)) }
    ensures held { OnErr result
        (KeepsFixed at width buffers.new.validity.items buffers.new.values.items) }
    ensures stay { OnErr result ((signed : Bool) → StaySlots at
        (int_slot width signed buffers.old.validity.items buffers.old.values.items)
        (int_slot width signed buffers.new.validity.items buffers.new.values.items)) }
{
    buffers.values.truncate(width * at);
    put_int(&mut buffers.values, width, stored_number(width, number))?;
    put_bit(&mut buffers.validity, at, number.is_some())
}

/// The number that is stored in the slot of a number or of null.
fn stored_number(width: usize, number: Option<i128>) -> i128
    requires width { IsAnyWidth width }
    requires fits { IfSome number (FitsWidth width) }
    ensures same { IfSome number (λ z. result ≡ z) }
    ensures fits { FitsWidth width result }
{
    match number {
        Some(number) => number,
        None => 0,
    }
}

/// Puts a byte string of this width, or null, into slot `at`.
pub(crate) fn put_fixed(
    buffers: &mut SlotBuffers,
    width: usize,
    at: usize,
    bytes: Option<&[u8]>,
) -> Result<(), AllocError>
    requires fits { IfSome bytes (λ b. length b.now ≡ width) }
    requires kept { KeepsFixed at width buffers.old.validity.items buffers.old.values.items }
    ensures kept { OnOk result
        (KeepsFixed (at + 1) width buffers.new.validity.items buffers.new.values.items) }
    ensures put { OnOk result (PutsSlot at (value_or_null (λ b. binary_value b.now) bytes.entry)
        (fixed_slot width buffers.old.validity.items buffers.old.values.items)
        (fixed_slot width buffers.new.validity.items buffers.new.values.items)) }
    ensures held { OnErr result
        (KeepsFixed at width buffers.new.validity.items buffers.new.values.items) }
    ensures stay { OnErr result (StaySlots at
        (fixed_slot width buffers.old.validity.items buffers.old.values.items)
        (fixed_slot width buffers.new.validity.items buffers.new.values.items)) }
{
    buffers.values.truncate(width * at);
    append_fixed(&mut buffers.values, width, bytes)?;
    put_bit(&mut buffers.validity, at, bytes.is_some())
}

/// Appends the bytes of a slot, zeros for null.
fn append_fixed(values: &mut Vec<u8>, width: usize, bytes: Option<&[u8]>) -> Result<(), AllocError>
    requires { IfSome bytes (λ b. length b.now ≡ width) }
    ensures start { take (length values.old.items) values.new.items ≡ values.old.items }
    ensures long { OnOk result (length values.new.items ≡ length values.old.items + width) }
    ensures same { OnOk result
        (IfSome bytes.entry (λ b. values.new.items ≡ values.old.items ++ b.now)) }
{
    match bytes {
        Some(bytes) => values.extend_from_slice(bytes),
        None => put_zeros(values, width),
    }
}

/// The offset at which the first `at` slots end.
pub(crate) fn place_at(width: OffsetWidth, offsets: &[u8], at: usize) -> usize
    requires there { offset_bytes width * (at + 1) ≤ length offsets.now }
    requires low { place_of width offsets.now at < offset_bound width }
    ensures { result ≡ place_of width offsets.now at }
{
    int_at(offsets, width.bytes(), false, at) as usize
}

/// The slot of the child at which the items of `at` fixed-size lists end (Columnar Format,
/// "Fixed-Size List Layout").
pub(crate) fn sized_place(size: u32, at: usize) -> usize
    requires { at ≤ 2147483647 }
    ensures { result ≡ size * at }
{
    size as usize * at
}

/// Whether the number fits a signed offset.
fn is_offset(width: OffsetWidth, place: usize) -> bool
    ensures { IsTrue result ↔ (place < offset_bound width) }
{
    match width {
        OffsetWidth::Small => i32::try_from(place).is_ok(),
        OffsetWidth::Large => i64::try_from(place).is_ok(),
    }
}

/// Where the range of a slot ends, and whether the slot is valid. The range begins where that of
/// the previous slot ends.
#[derive(Clone, Copy)]
pub(crate) struct SlotEnd {
    pub(crate) end: usize,
    pub(crate) valid: bool,
}

/// Puts a range into slot `at`. The bytes that ranges refer to are unchanged.
pub(crate) fn put_range(
    buffers: &mut SlotBuffers,
    width: OffsetWidth,
    at: usize,
    slot: SlotEnd,
) -> Result<(), AllocError>
    requires kept { KeepsRanges width at buffers.old.validity.items buffers.old.values.items }
    requires order { place_of width buffers.old.values.items at ≤ slot.end }
    ensures kept { OnOk result
        (KeepsRanges width (at + 1) buffers.new.validity.items buffers.new.values.items) }
    ensures end { OnOk result (place_of width buffers.new.values.items (at + 1) ≡ slot.end) }
    ensures places { StayPlaces width at buffers.old.values.items buffers.new.values.items }
    ensures valid { OnOk result
        (PutsValid at slot.valid buffers.old.validity.items buffers.new.validity.items) }
    ensures held { OnErr result
        (KeepsRanges width at buffers.new.validity.items buffers.new.values.items) }
    ensures same { OnErr result (buffers.new.validity.items ≡ buffers.old.validity.items) }
    ensures bytes { buffers.new.bytes.items ≡ buffers.old.bytes.items }
{
    if !is_offset(width, slot.end) {
        return Err(AllocError);
    }
    let bytes = width.bytes();
    buffers.values.truncate(bytes * (at + 1));
    put_int(&mut buffers.values, bytes, slot.end as i128)?;
    put_bit(&mut buffers.validity, at, slot.valid)
}

/// Puts a byte string, or null, into slot `at`.
pub(crate) fn put_bytes(
    buffers: &mut SlotBuffers,
    width: OffsetWidth,
    at: usize,
    part: Option<&[u8]>,
) -> Result<(), AllocError>
    requires kept { KeepsParts width at (length buffers.old.bytes.items)
        buffers.old.validity.items buffers.old.values.items }
    ensures kept { OnOk result (KeepsParts width (at + 1) (length buffers.new.bytes.items)
        buffers.new.validity.items buffers.new.values.items) }
    ensures put { OnOk result ((value : List ℕ → PlainValue)
        → PutsSlot at (value_or_null (λ b. value b.now) part.entry)
        (part_slot value width buffers.old.validity.items buffers.old.values.items
        buffers.old.bytes.items)
        (part_slot value width buffers.new.validity.items buffers.new.values.items
        buffers.new.bytes.items)) }
    ensures held { OnErr result (KeepsParts width at (length buffers.new.bytes.items)
        buffers.new.validity.items buffers.new.values.items) }
    ensures stay { OnErr result ((value : List ℕ → PlainValue) → StaySlots at
        (part_slot value width buffers.old.validity.items buffers.old.values.items
        buffers.old.bytes.items)
        (part_slot value width buffers.new.validity.items buffers.new.values.items
        buffers.new.bytes.items)) }
{
    let start = place_at(width, &buffers.values, at);
    buffers.bytes.truncate(start);
    append_part(&mut buffers.bytes, part)?;
    let slot = SlotEnd {
        end: buffers.bytes.len(),
        valid: part.is_some(),
    };
    put_range(buffers, width, at, slot)
}

/// Appends the bytes, nothing for null.
fn append_part(bytes: &mut Vec<u8>, part: Option<&[u8]>) -> Result<(), AllocError>
    ensures start { take (length bytes.old.items) bytes.new.items ≡ bytes.old.items }
    ensures long { length bytes.old.items ≤ length bytes.new.items }
    ensures same { OnOk result
        (IfSome part.entry (λ b. bytes.new.items ≡ bytes.old.items ++ b.now)) }
{
    match part {
        Some(part) => bytes.extend_from_slice(part),
        None => Ok(()),
    }
}
