//! The texts of decimals.

ghost use Rattle.std.specs.Prelude.{◌≡◌, ◌+◌, ◌++◌, OnOk};
ghost use Rattle.std.specs.Fmt.{sign_text};
ghost use Rattle.arrow_layout.specs.Decimals.{unscaled_of};
ghost use Rattle.arrow_csv.specs.Decimals.{decimal_text, numeral, scaled, with_point, zero_filled};
ghost use Rattle.arrow_csv.specs.Texts.{Appends, IsPlain};
ghost use Rattle.arrow_csv.specs.Wide.{wide_number};

use crate::digit_texts::push_number;
use crate::wide::{Wide, first_digit};
use arrow_layout::Decimal;
use itoa::Buffer;
use std::alloc::AllocError;

/// Appends the text of a decimal: a whole number of at most 128 bits divided by 10 to the power of
/// the scale.
///
/// It has the digits of the number with a point before the last ones, as many as the scale says
/// (`-0.50`), and none if the scale is 0; if it is below 0, an exponent (`12e3`). It needs no
/// quotes in a record. If an allocation fails, the vector may have a beginning of the text.
#[inline(never)]
pub fn push_decimal(out: &mut Vec<u8>, scale: i8, number: i128) -> Result<(), AllocError>
    ensures { OnOk result (Appends (IsPlain (λ text. text ≡ decimal_text scale number))
        out.old.items out.new.items) }
{
    push_short(out, scale, number < 0, number.unsigned_abs())
}

/// Appends the text of a decimal whose whole number has 256 bits, as [`push_decimal`] does.
#[inline(never)]
pub fn push_wide_decimal(out: &mut Vec<u8>, decimal: Decimal) -> Result<(), AllocError>
    ensures { OnOk result (Appends
        (IsPlain (λ text. text ≡ decimal_text decimal.scale (unscaled_of decimal)))
        out.old.items out.new.items) }
{
    push_wide(
        out,
        decimal.scale,
        decimal.high < 0,
        Wide::magnitude(decimal),
    )
}

/// Appends the text of a decimal whose whole number is of 256 bits, below 0 or not.
fn push_wide(out: &mut Vec<u8>, scale: i8, negative: bool, number: Wide) -> Result<(), AllocError>
    ensures { OnOk result (out.new.items
        ≡ out.old.items ++ (sign_text negative ++ scaled scale (numeral (wide_number number)))) }
{
    if number.high == 0 {
        push_short(out, scale, negative, number.low)
    } else {
        let digits = number.digits();
        push_scaled(out, scale, negative, &digits[first_digit(&digits)..])
    }
}

/// Appends the text of a decimal whose whole number is of 128 bits, below 0 or not.
fn push_short(out: &mut Vec<u8>, scale: i8, negative: bool, number: u128) -> Result<(), AllocError>
    ensures { OnOk result (out.new.items
        ≡ out.old.items ++ (sign_text negative ++ scaled scale (numeral number))) }
{
    let mut buffer = Buffer::new();
    push_scaled(out, scale, negative, buffer.format(number).as_bytes())
}

/// Appends the text of a decimal whose whole number has these digits, below 0 or not.
fn push_scaled(
    out: &mut Vec<u8>,
    scale: i8,
    negative: bool,
    digits: &[u8],
) -> Result<(), AllocError>
    ensures { OnOk result (out.new.items
        ≡ out.old.items ++ (sign_text negative ++ scaled scale digits.now)) }
{
    if negative {
        out.push(b'-')?;
    }
    push_places(out, scale, digits)
}

/// Appends digits with the point or the exponent that the scale gives them.
fn push_places(out: &mut Vec<u8>, scale: i8, digits: &[u8]) -> Result<(), AllocError>
    ensures { OnOk result (out.new.items ≡ out.old.items ++ scaled scale digits.now) }
{
    let places = scale.unsigned_abs();
    if scale > 0 {
        push_pointed(out, places, digits)
    } else if scale == 0 {
        out.extend_from_slice(digits)
    } else {
        out.extend_from_slice(digits)?;
        out.push(b'e')?;
        push_number(out, i128::from(places))
    }
}

/// Appends digits with a point before the last `places` of them, and leading zeros if they are too
/// few.
fn push_pointed(out: &mut Vec<u8>, places: u8, digits: &[u8]) -> Result<(), AllocError>
    ensures { OnOk result (out.new.items
        ≡ out.old.items ++ with_point places (zero_filled (places + 1) digits.now)) }
{
    let places = usize::from(places);
    let count = digits.len();
    if places < count {
        let (whole, part) = digits.split_at(count - places);
        out.extend_from_slice(whole)?;
        out.push(b'.')?;
        out.extend_from_slice(part)
    } else {
        out.extend_from_slice(b"0.")?;
        out.resize(out.len() + (places - count), b'0')?;
        out.extend_from_slice(digits)
    }
}
