//! Decimal numbers, which columns store as whole numbers or as bytes.

ghost use Rattle.std.specs.Prelude.{◌≡◌, length, Some, None, if◌then◌else◌};
ghost use Rattle.arrow_bits.specs.Numbers.{number_at};
ghost use Rattle.arrow_layout.specs.Decimals.{decimal_of_bytes, decimal_of_number, has_128_bits};
ghost use Rattle.arrow_layout.specs.Decimals.{unscaled_of};

use arrow_bits::int_at;

/// A decimal number (`Schema.fbs`, table `Decimal`): the whole number `high * 2^128 + low` times 10
/// to the power of minus `scale`. 1.25 is the whole number 125 and the scale 2.
#[derive(Debug, Clone, Copy, PartialEq, Eq)]
pub struct Decimal {
    /// The whole number without its lowest 128 bits; negative if the number is.
    pub high: i128,
    /// Its lowest 128 bits.
    pub low: u128,
    /// How many of its digits are after the point; if negative, how many zeros follow the digits.
    pub scale: i8,
}

impl Decimal {
    /// The whole number that is to be scaled, if it fits into 128 bits with a sign.
    pub fn unscaled(self) -> Option<i128>
        ensures { result
            ≡ (if has_128_bits (unscaled_of self) then Some (unscaled_of self) else None) }
    {
        let number = self.low.cast_signed();
        if (self.high == 0 && number >= 0) || (self.high == -1 && number < 0) {
            Some(number)
        } else {
            None
        }
    }
}

/// The decimal of this scale whose whole number has at most 128 bits, as in columns of 32, 64 and
/// 128 bits.
pub fn of_number(scale: i8, number: i128) -> Decimal
    ensures { result ≡ decimal_of_number scale number }
{
    Decimal {
        high: if number < 0 { -1 } else { 0 },
        low: number.cast_unsigned(),
        scale,
    }
}

/// The decimal of this scale whose whole number is given by its 32 bytes, as in columns of 256
/// bits. None if there are not 32 bytes.
pub fn of_bytes(scale: i8, bytes: &[u8]) -> Option<Decimal>
    ensures { result ≡ decimal_of_bytes scale bytes.now }
{
    if bytes.len() == 32 {
        Some(Decimal {
            high: int_at(bytes, 16, true, 1),
            low: low_bits(bytes),
            scale,
        })
    } else {
        None
    }
}

/// The number of the first sixteen bytes, without a sign.
fn low_bits(bytes: &[u8]) -> u128
    requires { length bytes.now ≡ 32 }
    ensures { result ≡ number_at bytes.now 0 16 }
{
    int_at(bytes, 16, true, 0).cast_unsigned()
}
