//! Numbers of a fixed width, compared with a bound, 64 bytes of them at a time.

ghost use Rattle.std.specs.Prelude.{◌≡◌, ◌+◌, ◌*◌, ◌/◌, ◌≤◌, ◌<◌, ◌↔◌, ℕ, length, slice_index, IsTrue};
ghost use Rattle.arrow_bits.specs.AtMost.{AreAtMost};
ghost use Rattle.arrow_bits.specs.Numbers.{IsWidth, number_at};

use crate::lanes::sixteen_at;
use crate::large_lanes::eight_at;
use crate::numbers::read_unsigned;
use std::simd::prelude::*;

/// Whether none of the first `len` numbers of `width` bytes each, read as unsigned, is above `top`:
/// 64 bytes of them are compared at once, and the remaining ones one at a time.
///
/// `width` is 1, 2, 4 or 8, `len` counts numbers, and `top` may be more than a number of the width
/// can be. Condition: the bytes have room for the `len` numbers. The result is only about the size
/// of the numbers, so that it has one meaning; callers test before that a buffer is long enough for
/// its slots, for columns of every type. No call fails, and none allocates.
pub fn are_at_most(bytes: &[u8], width: usize, len: usize, top: u64) -> bool
    requires width { IsWidth width }
    requires inside { width * len ≤ length bytes.now }
    ensures { IsTrue result ↔ AreAtMost width bytes.now 0 len top }
{
    // one copy of the loop for each width
    match width {
        1 => all_are_at_most(bytes, 1, len, top),
        2 => all_are_at_most(bytes, 2, len, top),
        4 => all_are_at_most(bytes, 4, len, top),
        // 8, the remaining width
        _ => all_are_at_most(bytes, 8, len, top),
    }
}

/// The same: 64 bytes at a time, then the remaining numbers.
#[inline(always)]
fn all_are_at_most(bytes: &[u8], width: usize, len: usize, top: u64) -> bool
    requires width { IsWidth width }
    requires inside { width * len ≤ length bytes.now }
    ensures { IsTrue result ↔ AreAtMost width bytes.now 0 len top }
{
    let lanes = 64 / width;
    let mut i = 0;
    while lanes <= len - i {
        if !block_is_at_most(bytes, width, i, top) {
            return false;
        }
        i += lanes;
    }
    rest_is_at_most(bytes, width, i, len, top)
}

/// The same for the numbers from number `from` on, one at a time.
#[inline(always)]
fn rest_is_at_most(bytes: &[u8], width: usize, from: usize, len: usize, top: u64) -> bool
    requires width { IsWidth width }
    requires order { from ≤ len }
    requires inside { width * len ≤ length bytes.now }
    ensures { IsTrue result ↔ AreAtMost width bytes.now from len top }
{
    for i in from..len {
        if read_unsigned(bytes, width, width * i) > top {
            return false;
        }
    }
    true
}

/// Whether none of the numbers in the 64 bytes from number `i` on is above `top`.
#[inline(always)]
fn block_is_at_most(bytes: &[u8], width: usize, i: usize, top: u64) -> bool
    requires width { IsWidth width }
    requires inside { width * i + 64 ≤ length bytes.now }
    ensures { IsTrue result ↔ AreAtMost width bytes.now i (i + 64 / width) top }
{
    let place = width * i;
    match width {
        1 => {
            let tops = u8x64::splat(top.min(u8::MAX as u64) as u8);
            sixty_four_at(bytes, place).simd_le(tops).all()
        }
        2 => {
            let tops = u16x32::splat(top.min(u16::MAX as u64) as u16);
            thirty_two_at(bytes, place).simd_le(tops).all()
        }
        4 => {
            let tops = u32x16::splat(top.min(u32::MAX as u64) as u32);
            sixteen_at(bytes, place).simd_le(tops).all()
        }
        // 8, the remaining width
        _ => eight_at(bytes, place).simd_le(u64x8::splat(top)).all(),
    }
}

/// The sixty-four numbers of 8 bits at offset `at`.
fn sixty_four_at(bytes: &[u8], at: usize) -> u8x64
    requires { at + 64 ≤ length bytes.now }
    ensures long { length result ≡ 64 }
    ensures lanes { (k : ℕ) → k < 64 → slice_index result k ≡ number_at bytes.now (at + 1 * k) 1 }
{
    u8x64::from_slice(&bytes[at..])
}

/// The thirty-two numbers of 16 bits at offset `at`.
fn thirty_two_at(bytes: &[u8], at: usize) -> u16x32
    requires { at + 64 ≤ length bytes.now }
    ensures long { length result ≡ 32 }
    ensures lanes { (k : ℕ) → k < 32 → slice_index result k ≡ number_at bytes.now (at + 2 * k) 2 }
{
    u16x32::from_le_bytes(u8x64::from_slice(&bytes[at..]))
}
