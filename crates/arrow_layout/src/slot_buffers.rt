//! Numbers, byte strings and texts as slices of a body, and the value of each slot.

ghost use Rattle.std.specs.Prelude.{◌≡◌, ◌+◌, ◌*◌, ◌<◌, ◌≤◌, length, MatchOption, true, false};
ghost use Rattle.arrow_bits.specs.Numbers.{IsIntWidth};
ghost use Rattle.arrow_layout.specs.PlainValue.{null_value, int_value};
ghost use Rattle.arrow_layout.specs.Slots.{is_valid_at, range_of, HasBits, HasOffsets, AreTexts};
ghost use Rattle.arrow_layout.specs.Slots.{int_slot};

use crate::form::OffsetWidth;
use crate::offsets::OffsetBuffer;
use crate::slot::is_valid;
use arrow_bits::int_at;

/// Numbers of one width: that of slot i begins at byte `width * i` ("Fixed-size Primitive Layout").
#[derive(Clone, Copy)]
pub struct NumberBuffers<'a> {
    /// How many bytes a number takes: 1, 2, 4, 8 or, for numbers with a sign, 16.
    pub width: usize,
    /// Whether the numbers have a sign, as two's complement.
    pub signed: bool,
    /// A bit for each slot, or empty.
    pub validity: &'a [u8],
    /// The numbers.
    pub values: &'a [u8],
}

impl NumberBuffers<'_> {
    /// The number of slot `i`, if it is valid.
    #[inline(always)]
    pub fn number_at(self, i: usize) -> Option<i128>
        requires bits { HasBits (i + 1) self.validity.now }
        requires width { IsIntWidth self.width self.signed }
        requires long { self.width * i + self.width ≤ length self.values.now }
        ensures { MatchOption result
            (int_slot self.entry.width self.entry.signed self.entry.validity.now
            self.entry.values.now i ≡ null_value)
            (λ z. int_slot self.entry.width self.entry.signed self.entry.validity.now
            self.entry.values.now i
            ≡ int_value z) }
    {
        if is_valid(self.validity, i) {
            Some(int_at(self.values, self.width, self.signed, i))
        } else {
            None
        }
    }
}

/// Byte strings or texts: that of slot i is `bytes` from offset i up to offset i + 1 ("Variable-size
/// Binary Layout").
#[derive(Clone, Copy)]
pub struct StringBuffers<'a> {
    /// How wide an offset is.
    pub width: OffsetWidth,
    /// A bit for each slot, or empty.
    pub validity: &'a [u8],
    /// The offsets, one more than there are slots; if there is no slot, it may be empty.
    pub offsets: &'a [u8],
    /// The bytes.
    pub bytes: &'a [u8],
}

impl<'a> StringBuffers<'a> {
    /// The offsets of `len` slots.
    #[inline(always)]
    pub fn ranges(self, len: usize) -> OffsetBuffer<'a>
        ensures width { result.width ≡ self.entry.width }
        ensures len { result.len ≡ len }
        ensures top { result.top ≡ length self.entry.bytes.now }
        ensures bytes { result.bytes.now ≡ self.entry.offsets.now }
    {
        OffsetBuffer {
            width: self.width,
            len,
            top: self.bytes.len(),
            bytes: self.offsets,
        }
    }

    /// The byte string of slot `i` of `len`, if it is valid.
    #[inline(always)]
    pub fn binary_at(self, len: usize, i: usize) -> Option<&'a [u8]>
        requires slot { i < len }
        requires bits { HasBits len self.validity.now }
        requires offsets { HasOffsets self.width len (length self.bytes.now) self.offsets.now }
        ensures { MatchOption result (is_valid_at self.entry.validity.now i ≡ false)
            (λ b. (is_valid_at self.entry.validity.now i ≡ true)
            × (b.now ≡ range_of self.entry.width self.entry.offsets.now self.entry.bytes.now i)) }
    {
        let (start, end) = self.ranges(len).range_at(self.validity, i)?;
        Some(&self.bytes[start..end])
    }

    /// The text of slot `i` of `len`, if it is valid.
    #[inline(always)]
    pub fn text_at(self, len: usize, i: usize) -> Option<&'a str>
        requires slot { i < len }
        requires bits { HasBits len self.validity.now }
        requires offsets { HasOffsets self.width len (length self.bytes.now) self.offsets.now }
        requires texts { AreTexts self.width len self.validity.now self.offsets.now
            self.bytes.now }
        ensures { MatchOption result (is_valid_at self.entry.validity.now i ≡ false)
            (λ t. (is_valid_at self.entry.validity.now i ≡ true)
            × (t.now ≡ range_of self.entry.width self.entry.offsets.now self.entry.bytes.now i)) }
    {
        let bytes = self.binary_at(len, i)?;
        Some(unsafe { std::str::from_utf8_unchecked(bytes) })
    }
}
