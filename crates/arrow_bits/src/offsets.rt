//! Offsets of columns of variable size.

ghost use Rattle.std.specs.Prelude.{◌≡◌, ◌+◌, ◌*◌, ◌≤◌, ◌<◌, ◌↔◌, ◌==◌, length, map, pos};
ghost use Rattle.std.specs.Prelude.{All, IfSome, IsSome, IsTrue, slice_index};
ghost use Rattle.std.specs.List.Sorted.{IsNonDecreasing};
ghost use Rattle.arrow_bits.specs.Offsets.{AreOffsets, offsets_of, signed_offsets_of};

use crate::lanes::{LANES, never_fall};
use crate::numbers::u32_at;
use crate::plain::check_offsets;
use std::marker::Model;

/// The offsets of a column of variable size: one more than it has slots, and none below the one
/// before it.
///
/// Slot `j` of the column is the range from offset `j` up to offset `j + 1` (Columnar Format,
/// "Variable-size Binary Layout" and "Variable-size List Layout"). Each offset is a signed number
/// of 32 bits in the bytes, which are borrowed and are not copied. Bytes after the last offset may
/// hold anything.
#[derive(Debug, Drop)]
pub struct Offsets<'a> {
    bytes: &'a [u8],
    len: usize,
}

impl<'a> Model for Offsets<'a> {
    ghost use Rattle.std.specs.Prelude.{ℕ, List};
    ghost use Rattle.arrow_bits.specs.Offsets.{offsets_of, HoldsOffsets};

    ghost Value = { List ℕ };

    ghost view = { λ o. offsets_of o.len o.bytes.now };

    ghost invariant = { λ o. HoldsOffsets 4 o.bytes.now o.len };
}

#[tactic(auto, using(crate::proofs::Rising::length_offsets, crate::proofs::Rising::offset_found))]
impl<'a> Offsets<'a> {
    /// Whether there are `len + 1` signed offsets of 32 bits that begin at 0 or above, do not fall
    /// and stay within `top`.
    ///
    /// `len` counts slots. `top` counts the elements that the offsets refer to, bytes or slots of a
    /// child, and may be more than an offset can hold. Neighbours are compared sixteen at a time.
    pub fn check(bytes: &[u8], len: usize, top: u64) -> bool
        ensures { IsTrue result ↔ AreOffsets bytes.now len top }
    {
        if len < LANES {
            check_offsets(bytes, len, top)
        } else {
            check_lanes(bytes, len, top)
        }
    }

    /// The `len + 1` offsets in the bytes, or None if `check` is false.
    pub fn new(bytes: &'a [u8], len: usize, top: u64) -> Option<Offsets<'a>>
        ensures found { IsSome result ↔ AreOffsets bytes.now len top }
        ensures value { IfSome result (λ o. o ≡ offsets_of len bytes.now) }
        ensures signed { IfSome result (λ o. map pos o ≡ signed_offsets_of len bytes.now) }
        ensures order { IfSome result IsNonDecreasing }
        ensures inside { IfSome result (All (λ x. x ≤ top)) }
    {
        if Offsets::check(bytes, len, top) {
            Some(Offsets::new_unchecked(bytes, len, top))
        } else {
            None
        }
    }

    /// The `len + 1` offsets in bytes that are known to pass `check`, without checking them.
    ///
    /// For a column that was tested when it was made: the call takes the same time for every
    /// length.
    pub fn new_unchecked(bytes: &'a [u8], len: usize, top: u64) -> Offsets<'a>
        requires { AreOffsets bytes.now len top }
        ensures value { result ≡ offsets_of len bytes.now }
        ensures signed { map pos result ≡ signed_offsets_of len bytes.now }
        ensures order { IsNonDecreasing result }
        ensures inside { All (λ x. x ≤ top) result }
    {
        Offsets { bytes, len }
    }

    /// The number of slots that the offsets bound: one less than there are offsets.
    pub fn len(&self) -> usize
        ensures { result + 1 ≡ length self.now }
    {
        self.len
    }

    /// Whether the offsets bound no slot.
    pub fn is_empty(&self) -> bool
        ensures { result ≡ (length self.now == 1) }
    {
        self.len == 0
    }

    /// Offset `i`, counted from 0, which has to be `len()` or less.
    pub fn at(&self, i: usize) -> usize
        requires { i < length self.now }
        ensures value { result ≡ slice_index self.now i }
        ensures order { IsNonDecreasing self.now }
    {
        u32_at(self.bytes, 4 * i) as usize
    }
}

/// The result of `check`, computed with unsigned numbers: if they never fall and the last has no
/// sign bit, none has one.
fn check_lanes(bytes: &[u8], len: usize, top: u64) -> bool
    ensures { IsTrue result ↔ AreOffsets bytes.now len top }
{
    if len >= bytes.len() / 4 {
        return false;
    }
    if u64::from(u32_at(bytes, 4 * len)) > top.min(i32::MAX as u64) {
        return false;
    }
    never_fall(bytes, len)
}
