//! The texts of numbers by the type of the value: floating-point numbers are given by their bits,
//! decimals by whole numbers, some intervals by their months.

ghost use Rattle.std.specs.Prelude.{◌≡◌, OnOk, Some};
ghost use Rattle.ryu.specs.Parse.{parse_float};
ghost use Rattle.arrow_types.specs.View.{type_view};
ghost use Rattle.arrow_csv.specs.Floats.{IsFloatText, IsNumberText};
ghost use Rattle.arrow_csv.specs.Texts.{Appends, IsPlain};

use crate::decimals::push_decimal;
use crate::digit_texts::push_number;
use crate::intervals::push_months;
use arrow_layout::floats::bits_in;
use arrow_layout::half;
use arrow_types::{DataType, Precision};
use ryu::{Buffer, Float};
use std::alloc::AllocError;
use std::num::{f32_from_bits_with_nan, f64_from_bits_with_nan};

/// Appends a text of a number as a value of this type. It needs no quotes.
#[inline(always)]
pub(crate) fn push_int(
    out: &mut Vec<u8>,
    data_type: &DataType,
    number: i128,
) -> Result<(), AllocError>
    ensures { OnOk result (Appends (IsPlain (IsNumberText (type_view data_type.now).tag number))
        out.old.items out.new.items) }
{
    match data_type {
        DataType::FloatingPoint(precision) => push_float(out, *precision, bits_in(number)),
        DataType::Decimal { scale, .. } => push_decimal(out, *scale, number),
        DataType::Interval(_) => push_months(out, number),
        _ => push_number(out, number),
    }
}

/// Appends a text of the number of these bits: for 16 bits, that of the equal number of 32 bits.
#[inline(never)]
fn push_float(out: &mut Vec<u8>, precision: Precision, bits: u64) -> Result<(), AllocError>
    ensures { OnOk result (Appends (IsPlain (IsFloatText precision bits))
        out.old.items out.new.items) }
{
    match precision {
        Precision::Half => push_short(out, half::to_single((bits % 65_536) as u16)),
        Precision::Single => push_short(out, f32_from_bits_with_nan((bits % 4_294_967_296) as u32)),
        Precision::Double => push_short(out, f64_from_bits_with_nan(bits)),
    }
}

/// Appends a short text of a number that parses as the same number.
#[inline(never)]
fn push_short<F: Float>(out: &mut Vec<u8>, number: F) -> Result<(), AllocError>
    ensures { OnOk result (Appends
        (IsPlain (λ text. parse_float F.format text ≡ Some (F.value number)))
        out.old.items out.new.items) }
{
    let mut buffer = Buffer::new();
    out.extend_from_slice(buffer.format(number).as_bytes())
}
