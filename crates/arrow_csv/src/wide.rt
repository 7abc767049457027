//! Numbers of 256 bits, and their decimal digits.

ghost use Rattle.std.specs.Prelude.{◌≡◌, ◌<◌, ◌≤◌, ◌+◌, ◌*◌, ◌^◌, ◌++◌, drop, length, unsigned_abs};
ghost use Rattle.arrow_layout.specs.Decimals.{unscaled_of};
ghost use Rattle.arrow_csv.specs.Wide.{last_digits, wide_number, without_zeros};

use arrow_layout::Decimal;

/// The size of a chunk: ten to the power of 19, the highest power of ten that fits 64 bits.
const CHUNK: u128 = 10_000_000_000_000_000_000;

/// The number of digits of a chunk.
const CHUNK_DIGITS: usize = 19;

/// The number of chunks that hold all digits of 256 bits.
const CHUNKS: usize = 5;

/// The number of digits of these chunks.
const DIGITS: usize = 95;

/// A number of 256 bits, without a sign.
#[derive(Clone, Copy)]
pub(crate) struct Wide {
    /// The number without its lowest 128 bits.
    pub(crate) high: u128,
    /// Its lowest 128 bits.
    pub(crate) low: u128,
}

impl Wide {
    /// The whole number of a decimal without its sign.
    pub(crate) fn magnitude(decimal: Decimal) -> Wide
        ensures { wide_number result ≡ unsigned_abs (unscaled_of decimal) }
    {
        let high = decimal.high.unsigned_abs();
        if decimal.high >= 0 {
            Wide {
                high,
                low: decimal.low,
            }
        } else if decimal.low == 0 {
            Wide { high, low: 0 }
        } else {
            Wide {
                high: high - 1,
                low: u128::MAX - decimal.low + 1,
            }
        }
    }

    /// The number divided by the size of a chunk, and the remainder.
    fn divided(self) -> (Wide, u64)
        ensures whole { wide_number result.0 * 10 ^ 19 + result.1 ≡ wide_number self }
        ensures rest { result.1 < 10 ^ 19 }
    {
        let (upper, rest) = divided_limb(self.high % CHUNK, (self.low >> 64) as u64);
        let (lower, rest) = divided_limb(rest, (self.low % (1 << 64)) as u64);
        let quotient = Wide {
            high: self.high / CHUNK,
            low: (upper << 64) + lower,
        };
        (quotient, rest as u64)
    }

    /// The digits of the number, with leading zeros.
    pub(crate) fn digits(self) -> [u8; DIGITS]
        ensures { result ≡ last_digits 95 (wide_number self) }
    {
        let mut digits = [b'0'; DIGITS];
        let mut left = self;
        for turn in 0..CHUNKS {
            let (quotient, rest) = left.divided();
            put_digits(rest, &mut digits, DIGITS - CHUNK_DIGITS * (turn + 1));
            left = quotient;
        }
        digits
    }
}

/// The next 64 bits of a long division: they and the remainder of the bits above them, divided by
/// the size of a chunk, and the remainder.
#[inline(always)]
fn divided_limb(rest: u128, limb: u64) -> (u128, u128)
    requires { rest < 10 ^ 19 }
    ensures whole { result.0 * 10 ^ 19 + result.1 ≡ rest * 2 ^ 64 + limb }
    ensures rest { result.1 < 10 ^ 19 }
    ensures short { result.0 < 2 ^ 64 }
{
    let number = (rest << 64) + u128::from(limb);
    (number / CHUNK, number % CHUNK)
}

/// Writes the last nineteen digits of a number at index `place`.
fn put_digits(number: u64, digits: &mut [u8], place: usize)
    requires { place + 19 ≤ length digits.old }
    ensures { drop place digits.new ≡ last_digits 19 number ++ drop (place + 19) digits.old }
{
    let mut left = number;
    for k in 0..CHUNK_DIGITS {
        digits[place + CHUNK_DIGITS - (k + 1)] = b'0' + (left % 10) as u8;
        left /= 10;
    }
}

/// The index of the first digit that is not a leading zero.
pub(crate) fn first_digit(digits: &[u8]) -> usize
    ensures within { result ≤ length digits.now }
    ensures rest { drop result digits.now ≡ without_zeros digits.now }
{
    for (i, digit) in digits.iter().enumerate() {
        if *digit != b'0' {
            return i;
        }
    }
    digits.len()
}
