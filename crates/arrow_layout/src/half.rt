//! Numbers of 16 bits (IEEE 754, "binary16"), which no type of the language holds.

ghost use Rattle.std.specs.Prelude.{◌≡◌, ◌<◌, ◌≤◌, ◌==◌, if◌then◌else◌};
ghost use Rattle.std.specs.Float.{inf, nan};
ghost use Rattle.std.specs.Float.Ieee.{odd};
ghost use Rattle.arrow_layout.specs.Half.{IsNearestHalf, IsNearestSize, half_middle, half_number};
ghost use Rattle.arrow_layout.specs.Half.{is_past};

use std::num::f32_from_bits_with_nan;

/// The number with these bits: a sign, five bits of an exponent and ten of digits. Each such number
/// is one of 32 bits.
pub fn to_single(bits: u16) -> f32
    ensures { result ≡ half_number bits }
{
    let negative = bits >= 0x8000;
    let exponent = u32::from(bits % 0x8000 / 1024);
    let digits = u32::from(bits % 1024);
    match exponent {
        0 => scaled(negative, 2 * digits, 0),
        31 => special(negative, digits),
        _ => scaled(negative, 2 * (1024 + digits), exponent - 1),
    }
}

/// The bits of the number that is nearest to this one, of two the even one, with its sign; from the
/// middle after the greatest finite number on, the infinite one. For NaN they are 0x7e00.
pub fn nearest(number: f64) -> u16
    ensures { IsNearestHalf number result }
{
    if number.is_nan() {
        return 0x7e00;
    }
    let size = nearest_size(number.abs());
    if number.is_sign_negative() {
        0x8000 + size
    } else {
        size
    }
}

/// The pattern without a sign that is nearest to a size.
fn nearest_size(size: f64) -> u16
    ensures { IsNearestSize size result }
{
    let (mut low, mut high) = (0, 0x7c00);
    while low < high {
        let middle = (low + high) / 2;
        if is_past(size, middle) {
            low = middle + 1;
        } else {
            high = middle;
        }
    }
    low
}

/// Whether a size is nearer to a later number than to that of this pattern.
fn is_past(size: f64, bits: u16) -> bool
    requires { bits < 0x7c00 }
    ensures { result ≡ is_past size bits }
{
    let middle = middle(bits);
    middle < size || middle == size && bits % 2 == 1
}

/// The number in the middle between that of this pattern and the next.
fn middle(bits: u16) -> f64
    requires { bits < 0x7c00 }
    ensures { result ≡ half_middle bits }
{
    let digits = u32::from(bits % 1024);
    f64::from(match u32::from(bits / 1024) {
        0 => scaled(false, 2 * digits + 1, 0),
        exponent => scaled(false, 2 * (1024 + digits) + 1, exponent - 1),
    })
}

/// An infinite number or NaN.
fn special(negative: bool, digits: u32) -> f32
    ensures { result ≡ (if digits == 0 then inf negative else nan) }
{
    if digits > 0 {
        f32::NAN
    } else if negative {
        f32::NEG_INFINITY
    } else {
        f32::INFINITY
    }
}

/// `digits * 2^(exponent - 25)`, with a sign.
fn scaled(negative: bool, digits: u32, exponent: u32) -> f32
    requires digits { digits < 4096 }
    requires exponent { exponent ≤ 30 }
    ensures { result ≡ odd 12 negative digits exponent 25 }
{
    if digits == 0 {
        return if negative { -0.0 } else { 0.0 };
    }
    // the first digit goes to bit 23, where it adds one to the exponent
    let shift = digits.leading_zeros() - 8;
    let size = ((exponent + 124 - shift) << 23) + (digits << shift);
    f32_from_bits_with_nan(if negative { 0x8000_0000 + size } else { size })
}
