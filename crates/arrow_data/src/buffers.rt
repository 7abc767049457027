//! The buffers of the layouts without children, each as its range of the body.

ghost use Rattle.std.specs.Prelude.{◌≡◌, ◌≤◌, ◌<◌, ◌*◌, MatchOption, length, slice_range};
ghost use Rattle.std.specs.List.Sorted.{IsNonDecreasing};
ghost use Rattle.arrow_bits.specs.Offsets.{plain_list};
ghost use Rattle.arrow_layout.specs.Form.{offset_bytes};
ghost use Rattle.arrow_data.specs.Node.{AreBools, AreInts, AreStrings, bool_at, int_at, binary_at};
ghost use Rattle.arrow_data.specs.Node.{AreFixed, fixed_at, utf8_at};
ghost use Rattle.arrow_layout.specs.ByteRanges.{bytes_of, IsInside};
ghost use Rattle.arrow_layout.specs.PlainValue.{null_value, bool_value, int_value, binary_value};
ghost use Rattle.arrow_layout.specs.PlainValue.{utf8_value};
ghost use Rattle.arrow_layout.specs.Slots.{AreTexts, place_of};

use arrow_layout::form::OffsetWidth;
use arrow_layout::{ByteRange, NumberBuffers, StringBuffers, bytes_in, slot};

/// The slots from `start` up to `stop`.
#[derive(Clone, Copy)]
pub(crate) struct SlotRange {
    pub(crate) start: usize,
    pub(crate) stop: usize,
}

/// The bytes of a range of `len` slots that have `width` bytes each.
#[tactic(auto, using(arrow_layout::proofs::Widths::parts_inside))]
fn cells(values: &[u8], width: usize, len: usize, slots: SlotRange) -> &[u8]
    requires order { slots.start ≤ slots.stop }
    requires inside { slots.stop ≤ len }
    requires long { width * len ≤ length values.now }
    ensures { result.now ≡ slice_range values.now (width * slots.start) (width * slots.stop) }
{
    &values[width * slots.start..width * slots.stop]
}

/// Truth values: bit j is that of slot j.
#[derive(Clone, Copy)]
pub(crate) struct Bools {
    pub(crate) validity: ByteRange,
    pub(crate) values: ByteRange,
}

impl Bools {
    /// The truth value of slot `i` of `len`, if it is valid.
    pub(crate) fn at(self, body: &[u8], len: usize, i: usize) -> Option<bool>
        requires slot { i < len }
        requires lies { AreBools len body.now self }
        ensures { MatchOption result (bool_at body.now self i ≡ null_value)
            (λ b. bool_at body.now self i ≡ bool_value b) }
    {
        slot::bool_at(
            bytes_in(body, self.validity),
            bytes_in(body, self.values),
            i,
        )
    }
}

/// Numbers of `width` bytes: those of a column of numbers, or of indices into a dictionary. Width
/// and sign lie in one word: with the sign in a word of its own, seven bytes are moved with the
/// array in two parts that overlap, and each such move waits for the one before.
#[derive(Clone, Copy)]
pub(crate) struct Ints {
    pub(crate) width: u32,
    pub(crate) signed: bool,
    pub(crate) validity: ByteRange,
    pub(crate) values: ByteRange,
}

#[tactic(auto, using(crate::proofs::Shown::shown))]
impl Ints {
    /// The numbers as slices of the body.
    #[inline(always)]
    pub(crate) fn slices(self, body: &[u8]) -> NumberBuffers<'_>
        requires validity { IsInside body.now self.validity }
        requires values { IsInside body.now self.values }
        ensures width { result.width ≡ self.width }
        ensures signed { result.signed ≡ self.signed }
        ensures validity { result.validity.now ≡ bytes_of body.now self.validity }
        ensures values { result.values.now ≡ bytes_of body.now self.values }
    {
        NumberBuffers {
            width: self.width as usize,
            signed: self.signed,
            validity: bytes_in(body, self.validity),
            values: bytes_in(body, self.values),
        }
    }

    /// The number of slot `i` of `len`, if it is valid.
    pub(crate) fn at(self, body: &[u8], len: usize, i: usize) -> Option<i128>
        requires slot { i < len }
        requires lies { AreInts len body.now self }
        ensures { MatchOption result (int_at body.now self i ≡ null_value)
            (λ z. int_at body.now self i ≡ int_value z) }
    {
        self.slices(body).number_at(i)
    }

    /// The bytes of the numbers of a range of the `len` slots.
    pub(crate) fn part(self, body: &[u8], len: usize, slots: SlotRange) -> &[u8]
        requires order { slots.start ≤ slots.stop }
        requires inside { slots.stop ≤ len }
        requires lies { AreInts len body.now self }
        ensures { result.now ≡ slice_range (bytes_of body.now self.values)
            (self.width * slots.start) (self.width * slots.stop) }
    {
        cells(bytes_in(body, self.values), self.width as usize, len, slots)
    }
}

/// Byte strings of `width` bytes each.
#[derive(Clone, Copy)]
pub(crate) struct Fixed {
    pub(crate) width: usize,
    pub(crate) validity: ByteRange,
    pub(crate) values: ByteRange,
}

#[tactic(auto, using(crate::proofs::Shown::shown))]
impl Fixed {
    /// The byte string of slot `i` of `len`, if it is valid.
    pub(crate) fn at(self, body: &[u8], len: usize, i: usize) -> Option<&[u8]>
        requires slot { i < len }
        requires lies { AreFixed len body.now self }
        ensures { MatchOption result (fixed_at body.now self i ≡ null_value)
            (λ b. fixed_at body.now self i ≡ binary_value b.now) }
    {
        slot::fixed_at(
            bytes_in(body, self.validity),
            bytes_in(body, self.values),
            self.width,
            i,
        )
    }

    /// The byte strings of a range of the `len` slots.
    pub(crate) fn part(self, body: &[u8], len: usize, slots: SlotRange) -> &[u8]
        requires order { slots.start ≤ slots.stop }
        requires inside { slots.stop ≤ len }
        requires lies { AreFixed len body.now self }
        ensures { result.now ≡ slice_range (bytes_of body.now self.values)
            (self.width * slots.start) (self.width * slots.stop) }
    {
        cells(bytes_in(body, self.values), self.width, len, slots)
    }
}

/// Byte strings or texts, given by offsets of a width: slot j is `bytes` from offset j up to offset
/// j + 1.
#[derive(Clone, Copy)]
pub(crate) struct Strings {
    pub(crate) width: OffsetWidth,
    pub(crate) validity: ByteRange,
    pub(crate) offsets: ByteRange,
    pub(crate) bytes: ByteRange,
}

impl Strings {
    /// The byte strings as slices of the body.
    #[inline(always)]
    pub(crate) fn slices(self, body: &[u8]) -> StringBuffers<'_>
        requires validity { IsInside body.now self.validity }
        requires offsets { IsInside body.now self.offsets }
        requires bytes { IsInside body.now self.bytes }
        ensures width { result.width ≡ self.width }
        ensures validity { result.validity.now ≡ bytes_of body.now self.validity }
        ensures offsets { result.offsets.now ≡ bytes_of body.now self.offsets }
        ensures bytes { result.bytes.now ≡ bytes_of body.now self.bytes }
    {
        StringBuffers {
            width: self.width,
            validity: bytes_in(body, self.validity),
            offsets: bytes_in(body, self.offsets),
            bytes: bytes_in(body, self.bytes),
        }
    }

    /// The byte string of slot `i` of `len`, if it is valid.
    pub(crate) fn binary_at(self, body: &[u8], len: usize, i: usize) -> Option<&[u8]>
        requires slot { i < len }
        requires lies { AreStrings len body.now self }
        ensures { MatchOption result (binary_at body.now self i ≡ null_value)
            (λ b. binary_at body.now self i ≡ binary_value b.now) }
    {
        self.slices(body).binary_at(len, i)
    }

    /// The text of slot `i` of `len`, if it is valid.
    pub(crate) fn text_at(self, body: &[u8], len: usize, i: usize) -> Option<&str>
        requires slot { i < len }
        requires lies { AreStrings len body.now self }
        requires texts { AreTexts self.width len (bytes_of body.now self.validity)
            (bytes_of body.now self.offsets) (bytes_of body.now self.bytes) }
        ensures { MatchOption result (utf8_at body.now self i ≡ null_value)
            (λ t. utf8_at body.now self i ≡ utf8_value t.now) }
    {
        self.slices(body).text_at(len, i)
    }

    /// The bytes of a range of the `len` slots, one slot after another, regardless of nulls.
    pub(crate) fn part(self, body: &[u8], len: usize, slots: SlotRange) -> &[u8]
        requires order { slots.start < slots.stop }
        requires inside { slots.stop ≤ len }
        requires lies { AreStrings len body.now self }
        ensures bytes { result.now ≡ slice_range (bytes_of body.now self.bytes)
            (place_of self.width (bytes_of body.now self.offsets) slots.start)
            (place_of self.width (bytes_of body.now self.offsets) slots.stop) }
        ensures rising { IsNonDecreasing (plain_list (offset_bytes self.width) len
            (bytes_of body.now self.offsets)) }
    {
        let strings = self.slices(body);
        let (first, end) = strings.ranges(len).places_at(slots.start, slots.stop);
        &strings.bytes[first..end]
    }
}
