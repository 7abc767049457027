//! Offsets of columns of variable size in their large variants.

ghost use Rattle.std.specs.Prelude.{◌≡◌, ◌+◌, ◌*◌, ◌≤◌, ◌<◌, ◌↔◌, ◌==◌, length, map, pos};
ghost use Rattle.std.specs.Prelude.{All, IfSome, IsSome, IsTrue, slice_index};
ghost use Rattle.std.specs.List.Sorted.{IsNonDecreasing};
ghost use Rattle.arrow_bits.specs.Offsets.{AreLargeOffsets, large_offsets_of};
ghost use Rattle.arrow_bits.specs.Offsets.{signed_large_offsets_of};

use crate::large_lanes::{LANES, never_fall};
use crate::numbers::u64_at;
use crate::plain::check_large_offsets;
use std::marker::Model;

/// The offsets of a column of variable size in its large variant: one more than it has slots, and
/// none below the one before it.
///
/// Slot `j` of the column is the range from offset `j` up to offset `j + 1` (Columnar Format,
/// "Variable-size Binary Layout" and "Variable-size List Layout", the large variants). Each offset
/// is a signed number of 64 bits in the bytes, which are borrowed and are not copied. Bytes after
/// the last offset may hold anything. `Offsets` is the same with 32 bits.
#[derive(Debug, Drop)]
pub struct LargeOffsets<'a> {
    bytes: &'a [u8],
    len: usize,
}

impl<'a> Model for LargeOffsets<'a> {
    ghost use Rattle.std.specs.Prelude.{ℕ, List};
    ghost use Rattle.arrow_bits.specs.Offsets.{large_offsets_of, HoldsOffsets};

    ghost Value = { List ℕ };

    ghost view = { λ o. large_offsets_of o.len o.bytes.now };

    ghost invariant = { λ o. HoldsOffsets 8 o.bytes.now o.len };
}

#[tactic(auto, using(crate::proofs::Rising::length_large_offsets, crate::proofs::Rising::large_offset_found))]
impl<'a> LargeOffsets<'a> {
    /// Whether there are `len + 1` signed offsets of 64 bits that begin at 0 or above, do not fall
    /// and stay within `top`.
    ///
    /// `len` counts slots. `top` counts the elements that the offsets refer to, bytes or slots of a
    /// child, and may be more than an offset can hold. Neighbours are compared eight at a time.
    pub fn check(bytes: &[u8], len: usize, top: u64) -> bool
        ensures { IsTrue result ↔ AreLargeOffsets bytes.now len top }
    {
        if len < LANES {
            check_large_offsets(bytes, len, top)
        } else {
            check_lanes(bytes, len, top)
        }
    }

    /// The `len + 1` offsets in the bytes, or None if `check` is false.
    pub fn new(bytes: &'a [u8], len: usize, top: u64) -> Option<LargeOffsets<'a>>
        ensures found { IsSome result ↔ AreLargeOffsets bytes.now len top }
        ensures value { IfSome result (λ o. o ≡ large_offsets_of len bytes.now) }
        ensures signed { IfSome result (λ o. map pos o ≡ signed_large_offsets_of len bytes.now) }
        ensures order { IfSome result IsNonDecreasing }
        ensures inside { IfSome result (All (λ x. x ≤ top)) }
    {
        if LargeOffsets::check(bytes, len, top) {
            Some(LargeOffsets::new_unchecked(bytes, len, top))
        } else {
            None
        }
    }

    /// The `len + 1` offsets in bytes that are known to pass `check`, without checking them.
    ///
    /// For a column that was tested when it was made: the call takes the same time for every
    /// length.
    pub fn new_unchecked(bytes: &'a [u8], len: usize, top: u64) -> LargeOffsets<'a>
        requires { AreLargeOffsets bytes.now len top }
        ensures value { result ≡ large_offsets_of len bytes.now }
        ensures signed { map pos result ≡ signed_large_offsets_of len bytes.now }
        ensures order { IsNonDecreasing result }
        ensures inside { All (λ x. x ≤ top) result }
    {
        LargeOffsets { bytes, len }
    }

    /// The number of slots that the offsets bound: one less than there are offsets.
    pub fn len(&self) -> usize
        ensures { result + 1 ≡ length self.now }
    {
        self.len
    }

    /// Whether the offsets bound no slot.
    pub fn is_empty(&self) -> bool
        ensures { result ≡ (length self.now == 1) }
    {
        self.len == 0
    }

    /// Offset `i`, counted from 0, which has to be `len()` or less.
    pub fn at(&self, i: usize) -> usize
        requires { i < length self.now }
        ensures value { result ≡ slice_index self.now i }
        ensures order { IsNonDecreasing self.now }
    {
        u64_at(self.bytes, 8 * i) as usize
    }
}

/// The result of `check`, computed with unsigned numbers: if they never fall and the last has no
/// sign bit, none has one.
fn check_lanes(bytes: &[u8], len: usize, top: u64) -> bool
    ensures { IsTrue result ↔ AreLargeOffsets bytes.now len top }
{
    if len >= bytes.len() / 8 {
        return false;
    }
    if u64_at(bytes, 8 * len) > top.min(i64::MAX as u64) {
        return false;
    }
    never_fall(bytes, len)
}
