//! Numbers of 32 bits, compared sixteen at a time.

ghost use Rattle.std.specs.Prelude.{◌≡◌, ◌+◌, ◌*◌, ◌≤◌, ◌<◌, ◌↔◌, ℕ, length, slice_index, IsTrue};
ghost use Rattle.arrow_bits.specs.Numbers.{number_at};
ghost use Rattle.arrow_bits.specs.Offsets.{NeverFall};

use crate::numbers::u32_at;
use std::simd::prelude::*;

/// The number of numbers compared at once.
pub(crate) const LANES: usize = 16;

/// Whether none of the first `len` numbers of 32 bits is above the next one: sixteen at a time, then
/// the remaining ones.
pub(crate) fn never_fall(bytes: &[u8], len: usize) -> bool
    requires { 4 * (len + 1) ≤ length bytes.now }
    ensures { IsTrue result ↔ NeverFall 4 bytes.now 0 len }
{
    let mut i = 0;
    while i + LANES <= len {
        if !sixteen_rise(bytes, i) {
            return false;
        }
        i += LANES;
    }
    rest_rises(bytes, i, len)
}

/// The same for the numbers from number `from` on, one at a time.
fn rest_rises(bytes: &[u8], from: usize, len: usize) -> bool
    requires order { from ≤ len }
    requires inside { 4 * (len + 1) ≤ length bytes.now }
    ensures { IsTrue result ↔ NeverFall 4 bytes.now from len }
{
    for i in from..len {
        if u32_at(bytes, 4 * i) > u32_at(bytes, 4 * (i + 1)) {
            return false;
        }
    }
    true
}

/// Whether none of the sixteen numbers from number `i` on is above the next one.
fn sixteen_rise(bytes: &[u8], i: usize) -> bool
    requires { 4 * (i + 17) ≤ length bytes.now }
    ensures { IsTrue result ↔ NeverFall 4 bytes.now i (i + 16) }
{
    let low = sixteen_at(bytes, 4 * i);
    let high = sixteen_at(bytes, 4 * (i + 1));
    low.simd_le(high).all()
}

/// The sixteen numbers at offset `at`.
pub(crate) fn sixteen_at(bytes: &[u8], at: usize) -> u32x16
    requires { at + 64 ≤ length bytes.now }
    ensures long { length result ≡ 16 }
    ensures lanes { (k : ℕ) → k < 16 → slice_index result k ≡ number_at bytes.now (at + 4 * k) 4 }
{
    u32x16::from_le_bytes(u8x64::from_slice(&bytes[at..]))
}
