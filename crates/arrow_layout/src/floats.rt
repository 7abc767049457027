//! Floating-point numbers, which columns store as bits.

ghost use Rattle.std.specs.Prelude.{◌≡◌};
ghost use Rattle.arrow_layout.specs.Floats.{bits_in, number_of};

use crate::half;
use arrow_types::Precision;
use std::num::{f32_from_bits_with_nan, f64_from_bits_with_nan};

/// The number with these bits, widened if it has 16 or 32 bits; a NaN for a NaN.
pub fn number_of(precision: Precision, bits: i128) -> f64
    ensures { result ≡ number_of precision (bits_in bits) }
{
    let bits = bits_in(bits);
    match precision {
        Precision::Half => f64::from(half::to_single((bits % 65_536) as u16)),
        Precision::Single => f64::from(f32_from_bits_with_nan((bits % 4_294_967_296) as u32)),
        Precision::Double => f64_from_bits_with_nan(bits),
    }
}

/// A number as at most 64 bits.
pub fn bits_in(number: i128) -> u64
    ensures { result ≡ bits_in number }
{
    u64::try_from(number).unwrap_or(0)
}
