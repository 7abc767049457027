//! The definitions as loops, one bit or one offset at a time.
//!
//! They have the contracts of `Bits::count_zero`, `Offsets::check` and `LargeOffsets::check`, which
//! work on many at once. The tests compare the two forms at every length, and the two checks use the
//! loops for the shortest inputs.
ghost use Rattle.std.specs.Prelude.{◌≡◌, ◌+◌, ◌*◌, ◌≤◌, ◌↔◌, length, not, count_by, IsTrue};
ghost use Rattle.arrow_bits.specs.Bitmap.{bits_of};
ghost use Rattle.arrow_bits.specs.Offsets.{AreLargeOffsets, AreOffsets, large_offset_at, offset_at};

use crate::bitmap::bit;
use crate::numbers::{u32_at, u64_at};

/// How many of the first `len` bits are 0.
///
/// Condition: the bytes have that many bits, as `Bits::new` tests for the list that it makes: a
/// number of bits that are not there would mean nothing.
#[tactic(auto, using(crate::proofs::Listed::more_zeros))]
pub fn count_zero(bytes: &[u8], len: usize) -> usize
    requires { len ≤ 8 * length bytes.now }
    ensures { result ≡ count_by not (bits_of len bytes.now) }
{
    let mut zeros = 0;
    for j in 0..len {
        if !bit(bytes, j) {
            zeros += 1;
        }
    }
    zeros
}

/// Whether there are `len + 1` offsets of 32 bits that begin at 0 or above, never fall and end at
/// `top` or below.
pub fn check_offsets(bytes: &[u8], len: usize, top: u64) -> bool
    ensures { IsTrue result ↔ AreOffsets bytes.now len top }
{
    if len >= bytes.len() / 4 {
        return false;
    }
    let mut last = offset(bytes, 0);
    if last < 0 {
        return false;
    }
    for i in 0..len {
        let next = offset(bytes, i + 1);
        if next < last {
            return false;
        }
        last = next;
    }
    last as u64 <= top
}

/// Whether there are `len + 1` offsets of 64 bits that begin at 0 or above, never fall and end at
/// `top` or below.
pub fn check_large_offsets(bytes: &[u8], len: usize, top: u64) -> bool
    ensures { IsTrue result ↔ AreLargeOffsets bytes.now len top }
{
    if len >= bytes.len() / 8 {
        return false;
    }
    let mut last = large_offset(bytes, 0);
    if last < 0 {
        return false;
    }
    for i in 0..len {
        let next = large_offset(bytes, i + 1);
        if next < last {
            return false;
        }
        last = next;
    }
    last as u64 <= top
}

/// Offset `i` of the bytes, read as signed.
fn offset(bytes: &[u8], i: usize) -> i32
    requires { 4 * i + 4 ≤ length bytes.now }
    ensures { result ≡ offset_at bytes.now i }
{
    u32_at(bytes, 4 * i).cast_signed()
}

/// Offset `i` of the bytes, read as signed.
fn large_offset(bytes: &[u8], i: usize) -> i64
    requires { 8 * i + 8 ≤ length bytes.now }
    ensures { result ≡ large_offset_at bytes.now i }
{
    u64_at(bytes, 8 * i).cast_signed()
}
