//! The offsets of a node, as stored in a buffer, and where the items of lists lie.

ghost use Rattle.std.specs.Prelude.{◌≡◌, ◌+◌, ◌*◌, ◌<◌, ◌≤◌, MatchOption, true, false};
ghost use Rattle.std.specs.List.Sorted.{IsNonDecreasing};
ghost use Rattle.arrow_bits.specs.Offsets.{plain_list};
ghost use Rattle.arrow_layout.specs.Form.{offset_bytes};
ghost use Rattle.arrow_layout.specs.Slots.{is_valid_at, item_place, place_of, HasBits};
ghost use Rattle.arrow_layout.specs.Slots.{HasItemPlaces, HasOffsets};

use crate::form::{ListForm, OffsetWidth};
use crate::slot::is_valid;
use arrow_bits::{LargeOffsets, Offsets};

/// The offsets of the slots of a node: the content of slot j lies from offset j up to offset j + 1,
/// in the bytes of the node or the slots of its child (Columnar Format, "Variable-size Binary
/// Layout").
#[derive(Clone, Copy)]
pub struct OffsetBuffer<'a> {
    /// How wide an offset is.
    pub width: OffsetWidth,
    /// How many slots there are.
    pub len: usize,
    /// The greatest offset allowed: how many bytes, or slots of the child, there are.
    pub top: usize,
    /// The offsets, one more than there are slots; if there is no slot, it may be empty.
    pub bytes: &'a [u8],
}

impl OffsetBuffer<'_> {
    /// Offset `i` and offset `k`.
    #[inline(always)]
    #[tactic(auto, using(crate::proofs::Cuts::offsets))]
    pub fn places_at(self, i: usize, k: usize) -> (usize, usize)
        requires some { 0 < self.len }
        requires order { i ≤ k }
        requires slots { k ≤ self.len }
        requires offsets { HasOffsets self.width self.len self.top self.bytes.now }
        ensures start { result.0 ≡ place_of self.entry.width self.entry.bytes.now i }
        ensures stop { result.1 ≡ place_of self.entry.width self.entry.bytes.now k }
        ensures ordered { result.0 ≤ result.1 }
        ensures within { result.1 ≤ self.entry.top }
        ensures rising { IsNonDecreasing (plain_list (offset_bytes self.entry.width) self.entry.len
            self.entry.bytes.now) }
    {
        match self.width {
            OffsetWidth::Small => {
                let places = Offsets::new_unchecked(self.bytes, self.len, self.top as u64);
                (places.at(i), places.at(k))
            }
            OffsetWidth::Large => {
                let places = LargeOffsets::new_unchecked(self.bytes, self.len, self.top as u64);
                (places.at(i), places.at(k))
            }
        }
    }

    /// Where the content of slot `i` begins and ends, if the slot is valid.
    #[inline(always)]
    pub(crate) fn range_at(self, validity: &[u8], i: usize) -> Option<(usize, usize)>
        requires slot { i < self.len }
        requires bits { HasBits self.len validity.now }
        requires offsets { HasOffsets self.width self.len self.top self.bytes.now }
        ensures { MatchOption result (is_valid_at validity.now i ≡ false)
            (λ r. (is_valid_at validity.now i ≡ true)
            × (r.0 ≡ place_of self.entry.width self.entry.bytes.now i)
            × (r.1 ≡ place_of self.entry.width self.entry.bytes.now (i + 1)) × (r.0 ≤ r.1)
            × (r.1 ≤ self.entry.top)) }
    {
        if is_valid(validity, i) {
            Some(self.places_at(i, i + 1))
        } else {
            None
        }
    }
}

/// Where the items of lists lie among the slots of their child (Columnar Format, "Variable-size List
/// Layout", "Fixed-Size List Layout").
#[derive(Clone, Copy)]
pub struct ItemPlaces<'a> {
    /// Whether offsets give this, or each list has the same number of items.
    pub form: ListForm,
    /// How many lists there are.
    pub len: usize,
    /// How many slots the child has.
    pub top: usize,
    /// The offsets; for fixed-size lists they are not read.
    pub offsets: &'a [u8],
}

impl<'a> ItemPlaces<'a> {
    /// The offsets, if they have this width.
    #[inline(always)]
    pub(crate) fn of_width(self, width: OffsetWidth) -> OffsetBuffer<'a>
        ensures width { result.width ≡ width }
        ensures len { result.len ≡ self.entry.len }
        ensures top { result.top ≡ self.entry.top }
        ensures bytes { result.bytes.now ≡ self.entry.offsets.now }
    {
        OffsetBuffer {
            width,
            len: self.len,
            top: self.top,
            bytes: self.offsets,
        }
    }

    /// Where the items of list `i` begin and end, if the slot is valid.
    #[inline(always)]
    pub fn range_at(self, validity: &[u8], i: usize) -> Option<(usize, usize)>
        requires slot { i < self.len }
        requires bits { HasBits self.len validity.now }
        requires places { HasItemPlaces self.form self.len self.top self.offsets.now }
        ensures { MatchOption result (is_valid_at validity.now i ≡ false)
            (λ r. (is_valid_at validity.now i ≡ true)
            × (r.0 ≡ item_place self.entry.form self.entry.offsets.now i)
            × (r.1 ≡ item_place self.entry.form self.entry.offsets.now (i + 1)) × (r.0 ≤ r.1)
            × (r.1 ≤ self.entry.top)) }
    {
        match self.form {
            ListForm::Offsets(width) => self.of_width(width).range_at(validity, i),
            ListForm::Fixed(size) if is_valid(validity, i) => {
                Some(fixed_range(size as usize, i, self.len, self.top))
            }
            ListForm::Fixed(_) => None,
        }
    }
}

/// Where the items of list `i` of `len` begin and end, if each list has `size` items.
#[inline(always)]
#[tactic(auto, using(crate::proofs::Widths::items_inside))]
fn fixed_range(size: usize, i: usize, len: usize, top: usize) -> (usize, usize)
    requires slot { i < len }
    requires inside { size * len ≤ top }
    ensures start { result.0 ≡ size * i }
    ensures stop { result.1 ≡ size * (i + 1) }
    ensures ordered { result.0 ≤ result.1 }
    ensures within { result.1 ≤ top }
{
    (size * i, size * (i + 1))
}
