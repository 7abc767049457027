//! The JSON of numbers and of bytes, by their kind.

ghost use Rattle.std.specs.Prelude.{◌≡◌, OnOk, pos};
ghost use Rattle.std.specs.Float.{float_is_finite};
ghost use Rattle.hex.specs.Hex.{encode_lower};
ghost use Rattle.json.specs.Json.{number, string};
ghost use Rattle.arrow_types.specs.declared.data_type.Precision.TheVariants.{Single};
ghost use Rattle.arrow_layout.specs.Decimals.{unscaled_of};
ghost use Rattle.arrow_layout.specs.Floats.{number_of};
ghost use Rattle.arrow_csv.specs.Decimals.{decimal_text};
ghost use Rattle.arrow_csv.specs.Floats.{text_format};
ghost use Rattle.arrow_csv.specs.Intervals.{interval_text, months_text};
ghost use Rattle.arrow_json.specs.Scalars.{IsFloatJson, IsNumberJson, bytes_json};
ghost use Rattle.arrow_json.specs.Written.{Adds};

use crate::kind::JsonKind;
use crate::pen::Pen;
use arrow_csv::{push_bytes, push_decimal, push_interval, push_months, push_wide_decimal};
use arrow_layout::floats::bits_in;
use arrow_layout::{Decimal, Interval, decimals, half, intervals};
use arrow_types::Precision;
use ryu::Float;
use std::alloc::AllocError;
use std::num::{f32_from_bits_with_nan, f64_from_bits_with_nan};

/// Writes a number of this kind.
pub(crate) fn write_int(pen: &mut Pen, kind: JsonKind, number: i128) -> Result<(), AllocError>
    ensures { OnOk result (Adds (IsNumberJson kind number) pen.old.writer pen.new.writer) }
{
    match kind {
        JsonKind::Float(precision) => write_float(pen, precision, bits_in(number)),
        JsonKind::Decimal(scale) => write_decimal(pen, scale, number),
        JsonKind::Interval(_) => write_months(pen, number),
        JsonKind::Plain => write_number(pen, number),
    }
}

/// Writes bytes of this kind.
pub(crate) fn write_bytes(pen: &mut Pen, kind: JsonKind, bytes: &[u8]) -> Result<(), AllocError>
    ensures { OnOk result (Adds (λ json. json ≡ bytes_json kind bytes.now)
        pen.old.writer pen.new.writer) }
{
    match kind {
        JsonKind::Decimal(scale) => match decimals::of_bytes(scale, bytes) {
            Some(decimal) => write_wide_decimal(pen, decimal),
            None => write_hex(pen, bytes),
        },
        JsonKind::Interval(unit) => match intervals::of_bytes(unit, bytes) {
            Some(interval) => write_interval(pen, interval),
            None => write_hex(pen, bytes),
        },
        JsonKind::Float(_) | JsonKind::Plain => write_hex(pen, bytes),
    }
}

/// Writes a whole number.
fn write_number(pen: &mut Pen, whole: i128) -> Result<(), AllocError>
    ensures { OnOk result (Adds (λ json. json ≡ number (decimal_text (pos 0) whole))
        pen.old.writer pen.new.writer) }
{
    match i64::try_from(whole) {
        Ok(short) => pen.writer.i64(short),
        Err(_) => write_decimal(pen, 0, whole),
    }
}

/// Writes the decimal of this scale whose whole number has at most 128 bits.
fn write_decimal(pen: &mut Pen, scale: i8, unscaled: i128) -> Result<(), AllocError>
    ensures { OnOk result (Adds (λ json. json ≡ number (decimal_text scale unscaled))
        pen.old.writer pen.new.writer) }
{
    pen.room.clear();
    push_decimal(&mut pen.room, scale, unscaled)?;
    pen.number()
}

/// Writes a decimal whose whole number is of 256 bits.
fn write_wide_decimal(pen: &mut Pen, decimal: Decimal) -> Result<(), AllocError>
    ensures { OnOk result
        (Adds (λ json. json ≡ number (decimal_text decimal.scale (unscaled_of decimal)))
        pen.old.writer pen.new.writer) }
{
    pen.room.clear();
    push_wide_decimal(&mut pen.room, decimal)?;
    pen.number()
}

/// Writes a number of months.
fn write_months(pen: &mut Pen, months: i128) -> Result<(), AllocError>
    ensures { OnOk result (Adds (λ json. json ≡ string (months_text months))
        pen.old.writer pen.new.writer) }
{
    pen.room.clear();
    push_months(&mut pen.room, months)?;
    pen.string()
}

/// Writes an interval.
fn write_interval(pen: &mut Pen, interval: Interval) -> Result<(), AllocError>
    ensures { OnOk result (Adds (λ json. json ≡ string (interval_text interval))
        pen.old.writer pen.new.writer) }
{
    pen.room.clear();
    push_interval(&mut pen.room, interval)?;
    pen.string()
}

/// Writes the hexadecimal digits of bytes.
fn write_hex(pen: &mut Pen, bytes: &[u8]) -> Result<(), AllocError>
    ensures { OnOk result (Adds (λ json. json ≡ string (encode_lower bytes.now))
        pen.old.writer pen.new.writer) }
{
    pen.room.clear();
    push_bytes(&mut pen.room, bytes)?;
    pen.string()
}

/// Writes the number of these bits: for 16 bits the equal number of 32 bits.
fn write_float(pen: &mut Pen, precision: Precision, bits: u64) -> Result<(), AllocError>
    ensures { OnOk result
        (Adds (IsFloatJson (text_format precision) (number_of precision bits))
        pen.old.writer pen.new.writer) }
{
    match precision {
        Precision::Half => write_single(pen, half::to_single((bits % 65_536) as u16)),
        Precision::Single => write_single(
            pen,
            f32_from_bits_with_nan((bits % 4_294_967_296) as u32),
        ),
        Precision::Double => {
            let number = f64_from_bits_with_nan(bits);
            write_real(pen, number, number.is_finite())
        }
    }
}

/// Writes a number of 32 bits.
fn write_single(pen: &mut Pen, number: f32) -> Result<(), AllocError>
    ensures { OnOk result (Adds (IsFloatJson (text_format Single) number)
        pen.old.writer pen.new.writer) }
{
    write_real(pen, number, number.is_finite())
}

/// Writes a floating-point number, as a number if it is finite.
fn write_real<F: Float>(pen: &mut Pen, number: F, is_finite: bool) -> Result<(), AllocError>
    requires { is_finite ≡ float_is_finite (F.value number) }
    ensures { OnOk result (Adds (IsFloatJson F.format (F.value number))
        pen.old.writer pen.new.writer) }
{
    if is_finite {
        pen.writer.float(number)
    } else {
        let mut buffer = ryu::Buffer::new();
        pen.writer.string(buffer.format(number))
    }
}
