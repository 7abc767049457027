//! Numbers of 64 bits, compared eight at a time.

ghost use Rattle.std.specs.Prelude.{◌≡◌, ◌+◌, ◌*◌, ◌≤◌, ◌<◌, ◌↔◌, ℕ, length, slice_index, IsTrue};
ghost use Rattle.arrow_bits.specs.Numbers.{number_at};
ghost use Rattle.arrow_bits.specs.Offsets.{NeverFall};

use crate::numbers::u64_at;
use std::simd::prelude::*;

/// The number of numbers compared at once.
pub(crate) const LANES: usize = 8;

/// Whether none of the first `len` numbers of 64 bits is above the next one: eight at a time, then
/// the remaining ones.
pub(crate) fn never_fall(bytes: &[u8], len: usize) -> bool
    requires { 8 * (len + 1) ≤ length bytes.now }
    ensures { IsTrue result ↔ NeverFall 8 bytes.now 0 len }
{
    let mut i = 0;
    while i + LANES <= len {
        if !eight_rise(bytes, i) {
            return false;
        }
        i += LANES;
    }
    rest_rises(bytes, i, len)
}

/// The same for the numbers from number `from` on, one at a time.
fn rest_rises(bytes: &[u8], from: usize, len: usize) -> bool
    requires order { from ≤ len }
    requires inside { 8 * (len + 1) ≤ length bytes.now }
    ensures { IsTrue result ↔ NeverFall 8 bytes.now from len }
{
    for i in from..len {
        if u64_at(bytes, 8 * i) > u64_at(bytes, 8 * (i + 1)) {
            return false;
        }
    }
    true
}

/// Whether none of the eight numbers from number `i` on is above the next one.
fn eight_rise(bytes: &[u8], i: usize) -> bool
    requires { 8 * (i + 9) ≤ length bytes.now }
    ensures { IsTrue result ↔ NeverFall 8 bytes.now i (i + 8) }
{
    let low = eight_at(bytes, 8 * i);
    let high = eight_at(bytes, 8 * (i + 1));
    low.simd_le(high).all()
}

/// The eight numbers at offset `at`.
pub(crate) fn eight_at(bytes: &[u8], at: usize) -> u64x8
    requires { at + 64 ≤ length bytes.now }
    ensures long { length result ≡ 8 }
    ensures lanes { (k : ℕ) → k < 8 → slice_index result k ≡ number_at bytes.now (at + 8 * k) 8 }
{
    u64x8::from_le_bytes(u8x64::from_slice(&bytes[at..]))
}
