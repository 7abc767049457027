//! The digits of numbers and of bytes.

ghost use Rattle.std.specs.Prelude.{◌≡◌, ◌+◌, ◌*◌, ◌++◌, IfSome, OnOk, false};
ghost use Rattle.std.specs.Fmt.{signed_decimal};
ghost use Rattle.hex.specs.Hex.{encode_lower};
ghost use Rattle.csv.specs.Writing.{default_writer, needs_quotes};

use itoa::{Buffer, Integer};
use std::alloc::AllocError;

/// Appends the decimal digits of a whole number, after a sign if it is below 0.
///
/// They need no quotes in a record. If an allocation fails, the vector may have a beginning of
/// them. A single digit is appended as a byte, and a number of 64 bits is divided in 64 bits.
#[inline(always)]
#[tactic(auto, using(crate::proofs::Digits::number_plain))]
pub fn push_number(out: &mut Vec<u8>, number: i128) -> Result<(), AllocError>
    ensures text { OnOk result (out.new.items ≡ out.old.items ++ signed_decimal number) }
    ensures plain { needs_quotes default_writer (signed_decimal number) ≡ false }
{
    match i64::try_from(number) {
        Ok(digit) if 0 <= digit && digit < 10 => {
            out.push(b'0' + digit as u8)?;
            Ok(())
        }
        Ok(number) => push_digits(out, number),
        Err(_) => push_digits(out, number),
    }
}

/// Appends a number of any integer type.
#[inline(never)]
fn push_digits<I: Integer>(out: &mut Vec<u8>, number: I) -> Result<(), AllocError>
    ensures { OnOk result (out.new.items ≡ out.old.items ++ I.text number) }
{
    let mut buffer = Buffer::new();
    out.extend_from_slice(buffer.format(number).as_bytes())
}

/// Appends the hexadecimal digits of bytes, two for each, in lower case.
///
/// They need no quotes in a record. If an allocation fails, the vector may have more bytes than
/// before.
pub fn push_bytes(out: &mut Vec<u8>, bytes: &[u8]) -> Result<(), AllocError>
    ensures text { OnOk result (out.new.items ≡ out.old.items ++ encode_lower bytes.now) }
    ensures plain { needs_quotes default_writer (encode_lower bytes.now) ≡ false }
{
    let place = out.len();
    let Some(end) = end_of_digits(place, bytes.len()) else {
        return Err(AllocError);
    };
    out.resize(end, 0)?;
    hex::encode_to_slice(bytes, &mut out[place..]).map_err(|_| AllocError)
}

/// The end of the hexadecimal digits of `count` bytes that begin at index `place`; `None` if that
/// exceeds 64 bits.
fn end_of_digits(place: usize, count: usize) -> Option<usize>
    ensures { IfSome result (λ end. end ≡ place + 2 * count) }
{
    place.checked_add(count.checked_mul(2)?)
}
