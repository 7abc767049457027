//! Whether buffers hold the slots of a node: exact tests of what is required when an array is made.
//!
//! A buffer is given by its bytes. An empty validity bitmap means that there is none, and if there
//! are no slots, the offsets may be left out. Nothing here allocates. The tests of offsets, texts
//! and indices read each slot, the others only the lengths.

ghost use Rattle.std.specs.Prelude.{◌≡◌, ◌↔◌, ◌≤◌, ◌<◌, ◌*◌, ◌^◌, ℕ, pos, [], length, map};
ghost use Rattle.std.specs.Prelude.{if◌then◌else◌, IsTrue};
ghost use Rattle.arrow_bits.specs.Numbers.{IsWidth, twos_complement};
ghost use Rattle.arrow_bits.specs.Offsets.{AreOffsetsOf};
ghost use Rattle.std.specs.List.{AllByRecursion};
ghost use Rattle.arrow_types.specs.View.{type_view};
ghost use Rattle.arrow_layout.specs.Layout.{HasBools, HasFixed, HasLists, HasStrings, IsLaid};
ghost use Rattle.arrow_layout.specs.Layout.{buffer, buffer_count, list_offsets};
ghost use Rattle.arrow_layout.specs.Form.{list_buffers, offset_bytes};
ghost use Rattle.arrow_layout.specs.ByteRanges.{bytes_of, IsInside};
ghost use Rattle.arrow_layout.specs.Slots.{HasBits, HasItemPlaces, HasOffsets, AreIndices};
ghost use Rattle.arrow_layout.specs.Slots.{AreTexts, IsIndex};

use crate::byte_range::{ByteRange, bytes_in, hold_bytes};
use crate::form::{Form, ListForm, OffsetWidth, node_form};
use crate::node_buffers::NodeBuffers;
use crate::offsets::{ItemPlaces, OffsetBuffer};
use crate::slot_buffers::{NumberBuffers, StringBuffers};
use crate::texts::are_slots_utf8;
use arrow_bits::{LargeOffsets, Offsets, are_at_most};
use arrow_types::{DataType, Encoding};

/// Whether there is no bitmap, or it has a bit for each of `len` slots.
#[inline(always)]
pub fn has_bits(len: usize, validity: &[u8]) -> bool
    ensures { IsTrue result ↔ HasBits len validity.now }
{
    validity.is_empty() || len.div_ceil(8) <= validity.len()
}

/// Whether there is a truth value for each of `len` slots.
#[inline(always)]
pub fn has_bools(len: usize, validity: &[u8], values: &[u8]) -> bool
    ensures { IsTrue result ↔ HasBools len validity.now values.now }
{
    has_bits(len, validity) && len.div_ceil(8) <= values.len()
}

/// Whether there are `width` bytes for each of `len` slots.
#[inline(always)]
pub fn has_fixed(len: usize, width: usize, validity: &[u8], values: &[u8]) -> bool
    ensures { IsTrue result ↔ HasFixed len width validity.now values.now }
{
    has_bits(len, validity)
        && match width.checked_mul(len) {
            Some(bytes) => bytes <= values.len(),
            None => false,
        }
}

/// Whether the offsets give a range of the bytes for each of `len` slots.
#[inline(always)]
pub fn has_strings(len: usize, strings: StringBuffers<'_>) -> bool
    ensures { IsTrue result ↔ HasStrings strings.entry.width len strings.entry.validity.now
        strings.entry.offsets.now strings.entry.bytes.now }
{
    has_bits(len, strings.validity) && has_offsets(strings.ranges(len))
}

/// Whether there is a range of the child's slots for each list.
#[inline(always)]
pub fn has_lists(validity: &[u8], places: ItemPlaces<'_>) -> bool
    ensures { IsTrue result ↔ HasLists places.entry.form places.entry.len validity.now
        places.entry.offsets.now places.entry.top }
{
    has_bits(places.len, validity) && has_item_places(places)
}

/// Whether the items of all lists lie inside the child.
#[inline(always)]
fn has_item_places(places: ItemPlaces<'_>) -> bool
    ensures { IsTrue result ↔ HasItemPlaces places.entry.form places.entry.len places.entry.top
        places.entry.offsets.now }
{
    match places.form {
        ListForm::Offsets(width) => has_offsets(places.of_width(width)),
        ListForm::Fixed(size) => match (size as usize).checked_mul(places.len) {
            Some(items) => items <= places.top,
            None => false,
        },
    }
}

/// Whether there are offsets for each of the slots, none of which passes the top.
#[inline(always)]
pub fn has_offsets(offsets: OffsetBuffer<'_>) -> bool
    ensures { IsTrue result ↔ HasOffsets offsets.entry.width offsets.entry.len offsets.entry.top
        offsets.entry.bytes.now }
{
    (offsets.len == 0 && offsets.bytes.is_empty()) || are_offsets(offsets)
}

/// The same if the offsets are not left out.
fn are_offsets(offsets: OffsetBuffer<'_>) -> bool
    ensures { IsTrue result ↔ AreOffsetsOf (offset_bytes offsets.entry.width)
        offsets.entry.bytes.now offsets.entry.len offsets.entry.top }
{
    let top = offsets.top as u64;
    match offsets.width {
        OffsetWidth::Small => Offsets::check(offsets.bytes, offsets.len, top),
        OffsetWidth::Large => LargeOffsets::check(offsets.bytes, offsets.len, top),
    }
}

/// Whether each valid slot of `len` is UTF-8, if the buffers hold that many slots (`has_strings`).
pub fn are_texts(len: usize, strings: StringBuffers<'_>) -> bool
    requires { HasStrings strings.width len strings.validity.now strings.offsets.now
        strings.bytes.now }
    ensures { IsTrue result ↔ AreTexts strings.entry.width len strings.entry.validity.now
        strings.entry.offsets.now strings.entry.bytes.now }
{
    are_slots_utf8(strings, len)
}

/// Whether each valid slot of `len` has an index to one of `count` values, if the buffers hold that
/// many slots (`has_fixed`).
///
/// All slots are tested first, 64 bytes of indices at once, as if none were null: null slots mostly
/// hold an index too, such as 0. Only if that fails and there is a bitmap are the valid slots
/// tested one after another.
pub fn are_indices(len: usize, indices: NumberBuffers<'_>, count: usize) -> bool
    requires width { IsWidth indices.width }
    requires laid { HasFixed len indices.width indices.validity.now indices.values.now }
    ensures { IsTrue result ↔ AreIndices len indices.entry.width indices.entry.signed
        indices.entry.validity.now indices.entry.values.now count }
{
    are_all_indices(len, indices, count)
        || (!indices.validity.is_empty() && are_indices_one_by_one(len, indices, count))
}

/// The same for `len` indices, one slot after another.
fn are_indices_one_by_one(len: usize, indices: NumberBuffers<'_>, count: usize) -> bool
    requires width { IsWidth indices.width }
    requires laid { HasFixed len indices.width indices.validity.now indices.values.now }
    ensures { IsTrue result ↔ AreIndices len indices.entry.width indices.entry.signed
        indices.entry.validity.now indices.entry.values.now count }
{
    for j in 0..len {
        let Some(index) = indices.number_at(j) else {
            continue;
        };
        if index < 0 || index >= count as i128 {
            return false;
        }
    }
    true
}

/// The same for `len` indices, testing all of them, including those of null slots. They are compared
/// without a sign, so that a negative one is above the others.
fn are_all_indices(len: usize, indices: NumberBuffers<'_>, count: usize) -> bool
    requires width { IsWidth indices.width }
    requires inside { indices.width * len ≤ length indices.values.now }
    ensures { IsTrue result ↔ AreIndices len indices.entry.width indices.entry.signed []
        indices.entry.values.now count }
{
    if count == 0 {
        return len == 0;
    }
    // Called for its guarantee about every slice of bytes.
    hold_bytes(indices.values);
    let last = last_index(indices.width, indices.signed, count);
    are_at_most(indices.values, indices.width, len, last)
}

/// The last index of this width to one of `count` values. A number of the width, with or without a
/// sign, is an index exactly if it is not above this one, both read without a sign.
fn last_index(width: usize, signed: bool, count: usize) -> u64
    requires width { IsWidth width }
    requires some { 0 < count }
    ensures { (n : ℕ) → n < 256 ^ width → (n ≤ result)
        ↔ IsIndex count (if signed then twos_complement width n else pos n) }
{
    let greatest = match width {
        1 => u8::MAX as u64,
        2 => u16::MAX as u64,
        4 => u32::MAX as u64,
        // 8, the remaining width
        _ => u64::MAX,
    };
    let top = if signed { greatest / 2 } else { greatest };
    (count as u64 - 1).min(top)
}

/// Whether the buffers of a node of this type and encoding, and children with that many slots, hold
/// its slots.
#[inline(always)]
pub fn is_laid(
    data_type: &DataType,
    encoding: Option<Encoding>,
    node: NodeBuffers<'_>,
    counts: &[usize],
) -> bool
    requires count { buffer_count (type_view data_type.now).tag encoding
        ≤ length node.ranges.now }
    requires inside { AllByRecursion (IsInside node.body.now) node.ranges.now }
    ensures { IsTrue result ↔ IsLaid (type_view data_type.now).tag encoding node.entry.len
        (map (bytes_of node.entry.body.now) node.entry.ranges.now) counts.now }
{
    let len = node.len;
    let (body, buffers) = (node.body.as_slice(), node.ranges);
    match node_form(data_type, encoding) {
        Form::Nulls => true,
        Form::Bits => has_bools(len, buffer(body, buffers, 0), buffer(body, buffers, 1)),
        Form::Numbers(form) => has_fixed(
            len,
            form.width(),
            buffer(body, buffers, 0),
            buffer(body, buffers, 1),
        ),
        Form::FixedBytes(width) => has_fixed(
            len,
            width as usize,
            buffer(body, buffers, 0),
            buffer(body, buffers, 1),
        ),
        Form::Bytes(width) | Form::Texts(width) => has_strings(
            len,
            StringBuffers {
                width,
                validity: buffer(body, buffers, 0),
                offsets: buffer(body, buffers, 1),
                bytes: buffer(body, buffers, 2),
            },
        ),
        Form::Lists(form) => has_lists(
            buffer(body, buffers, 0),
            ItemPlaces {
                form,
                len,
                top: counts.first().copied().unwrap_or(0),
                offsets: offsets_of(form, body, buffers),
            },
        ),
        Form::Structs => has_bits(len, buffer(body, buffers, 0)) && are_longer(len, counts),
    }
}

/// Whether no count is below `len`.
fn are_longer(len: usize, counts: &[usize]) -> bool
    ensures { IsTrue result ↔ AllByRecursion (λ count. len ≤ count) counts.now }
{
    for count in counts {
        if *count < len {
            return false;
        }
    }
    true
}

/// The bytes of buffer `k`.
#[inline(always)]
fn buffer<'a>(body: &'a [u8], buffers: &[ByteRange], k: usize) -> &'a [u8]
    requires there { k < length buffers.now }
    requires inside { AllByRecursion (IsInside body.now) buffers.now }
    ensures { result.now ≡ buffer (map (bytes_of body.now) buffers.now) k }
{
    bytes_in(body, buffers[k])
}

/// The offsets of a node of lists, empty if none are stored.
#[inline(always)]
fn offsets_of<'a>(form: ListForm, body: &'a [u8], buffers: &[ByteRange]) -> &'a [u8]
    requires there { list_buffers form ≤ length buffers.now }
    requires inside { AllByRecursion (IsInside body.now) buffers.now }
    ensures { result.now ≡ list_offsets form (map (bytes_of body.now) buffers.now) }
{
    match form {
        ListForm::Offsets(_) => buffer(body, buffers, 1),
        ListForm::Fixed(_) => &[],
    }
}
