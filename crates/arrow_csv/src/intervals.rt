//! The texts of intervals, and of bytes by the type of the value.

ghost use Rattle.std.specs.Prelude.{◌≡◌, ◌++◌, OnOk, false};
ghost use Rattle.csv.specs.Writing.{default_writer, needs_quotes};
ghost use Rattle.arrow_types.specs.View.{type_view};
ghost use Rattle.arrow_csv.specs.Intervals.{bytes_text, counted, interval_text, months_text};
ghost use Rattle.arrow_csv.specs.Texts.{Appends, IsPlain};

use crate::decimals::push_wide_decimal;
use crate::digit_texts::{push_bytes, push_number};
use arrow_layout::{Interval, decimals, intervals};
use arrow_types::DataType;
use std::alloc::AllocError;

/// Appends the text of bytes as a value of this type. It needs no quotes.
#[inline(always)]
pub(crate) fn push_binary(
    out: &mut Vec<u8>,
    data_type: &DataType,
    bytes: &[u8],
) -> Result<(), AllocError>
    ensures { OnOk result (Appends
        (IsPlain (λ text. text ≡ bytes_text (type_view data_type.now).tag bytes.now))
        out.old.items out.new.items) }
{
    match data_type {
        DataType::Decimal { scale, .. } => match decimals::of_bytes(*scale, bytes) {
            Some(decimal) => push_wide_decimal(out, decimal),
            None => push_bytes(out, bytes),
        },
        DataType::Interval(unit) => match intervals::of_bytes(*unit, bytes) {
            Some(interval) => push_interval(out, interval),
            None => push_bytes(out, bytes),
        },
        _ => push_bytes(out, bytes),
    }
}

/// Appends the text of an interval: all its numbers, also those that are 0, each with its unit
/// (`14M`, `2d500ms`, `1M2d3ns`).
///
/// It needs no quotes in a record. If an allocation fails, the vector may have a beginning of the
/// text.
#[inline(never)]
pub fn push_interval(out: &mut Vec<u8>, interval: Interval) -> Result<(), AllocError>
    ensures { OnOk result (Appends (IsPlain (λ text. text ≡ interval_text interval))
        out.old.items out.new.items) }
{
    match interval {
        Interval::YearMonth { months } => push_months(out, i128::from(months)),
        Interval::DayTime { days, milliseconds } => {
            push_counted(out, i128::from(days), b"d")?;
            push_counted(out, i128::from(milliseconds), b"ms")
        }
        Interval::MonthDayNano {
            months,
            days,
            nanoseconds,
        } => {
            push_months(out, i128::from(months))?;
            push_counted(out, i128::from(days), b"d")?;
            push_counted(out, i128::from(nanoseconds), b"ns")
        }
    }
}

/// Appends the text of a number of months (`14M`), as [`push_interval`] does.
#[inline(never)]
pub fn push_months(out: &mut Vec<u8>, months: i128) -> Result<(), AllocError>
    ensures { OnOk result (Appends (IsPlain (λ text. text ≡ months_text months))
        out.old.items out.new.items) }
{
    push_counted(out, months, b"M")
}

/// Appends a number, then its unit.
fn push_counted(out: &mut Vec<u8>, number: i128, unit: &[u8]) -> Result<(), AllocError>
    requires { needs_quotes default_writer unit.now ≡ false }
    ensures { OnOk result (Appends (IsPlain (λ text. text ≡ counted number unit.now))
        out.old.items out.new.items) }
{
    push_number(out, number)?;
    out.extend_from_slice(unit)
}
