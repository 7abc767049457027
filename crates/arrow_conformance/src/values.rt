//! Values in the text of a vector.

use arrow_data::{Array, Batch, Dictionary, SlotValue};
use arrow_layout::{Decimal, Interval, floats, half};
use arrow_types::{DataType, Field, Precision};
use ryu::{Buffer, Float};
use std::alloc::AllocError;
use std::num::{f32_from_bits_with_nan, f64_from_bits_with_nan};

/// More levels than a type has.
const LEVELS: u32 = 40;

/// The number of bytes in 256 bits.
const BYTES: usize = 32;

/// The number of decimal digits of 256 bits.
const DIGITS: usize = 78;

/// Appends `batch of K`, and a line for each row.
pub(crate) fn push_batch(text: &mut String, batch: &Batch) -> Result<(), AllocError> {
    write!(text, "batch of {}\n", batch.rows())?;
    for at in 0..batch.rows() {
        text.push_str("  row")?;
        push_row(text, batch.columns(), at)?;
        text.push('\n')?;
    }
    Ok(())
}

fn push_row(text: &mut String, columns: &[Array], at: usize) -> Result<(), AllocError> {
    for (number, column) in columns.iter().enumerate() {
        text.push_str(if number == 0 { " " } else { ", " })?;
        push_value(text, column, at, LEVELS)?;
    }
    Ok(())
}

/// Appends `dictionary ID of K`, and a line for each value.
pub(crate) fn push_dictionary(
    text: &mut String,
    id: i64,
    dictionary: &Dictionary,
) -> Result<(), AllocError> {
    write!(text, "dictionary {id} of {}\n", dictionary.len())?;
    for at in 0..dictionary.len() {
        let (values, place) = dictionary.value(at);
        text.push_str("  value ")?;
        push_value(text, values, place, LEVELS)?;
        text.push('\n')?;
    }
    Ok(())
}

/// Appends the value of a slot: for an encoded column the index, and the value to which it refers.
#[cycle(value)]
fn push_value(text: &mut String, column: &Array, at: usize, levels: u32) -> Result<(), AllocError> {
    if levels == 0 || at >= column.len() {
        return text.push_str("no value");
    }
    match (column.int_at(at), column.resolved(at)) {
        (Some(index), Some((values, place))) => {
            write!(text, "{index} -> ")?;
            push_value(text, values, place, levels - 1)
        }
        _ => push_plain(text, column, at, levels - 1),
    }
}

/// Appends the value of a slot that has no index.
#[cycle(value)]
fn push_plain(text: &mut String, column: &Array, at: usize, levels: u32) -> Result<(), AllocError> {
    if at >= column.len() {
        return text.push_str("no value");
    }
    match column.slot(at) {
        SlotValue::Null => text.push_str("null"),
        SlotValue::Bool(truth) => write!(text, "{truth}"),
        SlotValue::Int(number) => {
            push_number(text, column.data_type(), number)?;
            push_decimal(text, column.decimal_at(at))?;
            push_interval(text, column.interval_at(at))
        }
        SlotValue::Bytes(bytes) => {
            push_bytes(text, bytes)?;
            push_decimal(text, column.decimal_at(at))?;
            push_interval(text, column.interval_at(at))
        }
        SlotValue::Text(words) => push_text(text, words),
        SlotValue::List(start, end, items) => push_list(text, items, (start, end), levels),
        SlotValue::Struct(parts, place) => {
            push_struct(text, column.data_type().children(), parts, (place, levels))
        }
    }
}

/// Appends a number: a floating-point one is given by its bits.
fn push_number(text: &mut String, data_type: &DataType, number: i128) -> Result<(), AllocError> {
    match data_type {
        DataType::FloatingPoint(precision) => {
            push_float(text, *precision, floats::bits_in(number))
        }
        _ => write!(text, "{number}"),
    }
}

/// Appends the text of an interval after the number or the bytes that encode it.
fn push_interval(text: &mut String, interval: Option<Interval>) -> Result<(), AllocError> {
    match interval {
        None => Ok(()),
        Some(Interval::YearMonth { months }) => write!(text, "={months}M"),
        Some(Interval::DayTime { days, milliseconds }) => {
            write!(text, "={days}d{milliseconds}ms")
        }
        Some(
            Interval::MonthDayNano {
                months,
                days,
                nanoseconds,
            },
        ) => write!(text, "={months}M{days}d{nanoseconds}ns"),
    }
}

/// Appends the text of a decimal after the number or the bytes that encode it.
fn push_decimal(text: &mut String, decimal: Option<Decimal>) -> Result<(), AllocError> {
    let Some(decimal) = decimal else {
        return Ok(());
    };
    text.push_str(if decimal.high < 0 { "=-" } else { "=" })?;
    let digits = digits_of(decimal);
    let places = decimal.scale.max(0) as usize;
    let mut is_shown = false;
    for at in 0..DIGITS {
        if places > 0 && at + places == DIGITS {
            text.push('.')?;
        }
        is_shown = is_shown || digits[at] > 0 || at + places + 1 >= DIGITS;
        if is_shown {
            write!(text, "{}", digits[at])?;
        }
    }
    if decimal.scale < 0 {
        write!(text, "e{}", decimal.scale.unsigned_abs())?;
    }
    Ok(())
}

/// The digits of the whole number of a decimal, without its sign and with zeros in front.
fn digits_of(decimal: Decimal) -> [u8; DIGITS] {
    let mut number = magnitude(decimal);
    let mut digits = [0; DIGITS];
    for at in 0..DIGITS {
        digits[DIGITS - 1 - at] = divide_by_ten(&mut number);
    }
    digits
}

/// The whole number of a decimal without its sign, the least significant byte first.
fn magnitude(decimal: Decimal) -> [u8; BYTES] {
    let high = decimal.high.unsigned_abs();
    let (high, low) = if decimal.high >= 0 {
        (high, decimal.low)
    } else if decimal.low == 0 {
        (high, 0)
    } else {
        (high - 1, u128::MAX - decimal.low + 1)
    };
    let mut number = [0; BYTES];
    number[..BYTES / 2].copy_from_slice(&low.to_le_bytes());
    number[BYTES / 2..].copy_from_slice(&high.to_le_bytes());
    number
}

/// Divides a number by ten, and returns the remainder.
fn divide_by_ten(number: &mut [u8; BYTES]) -> u8 {
    let mut rest = 0;
    for at in 0..BYTES {
        let (tenth, left) = tenth_of(rest, number[BYTES - 1 - at]);
        number[BYTES - 1 - at] = tenth;
        rest = left;
    }
    rest
}

/// The next byte of a long division by ten: the quotient of the byte and the remainder of the bytes
/// above it, and the new remainder.
fn tenth_of(rest: u8, byte: u8) -> (u8, u8) {
    let part = u16::from(rest) * 256 + u16::from(byte);
    ((part / 10 % 256) as u8, (part % 10) as u8)
}

/// Appends the bits of a floating-point number in hexadecimal, and its text.
fn push_float(text: &mut String, precision: Precision, bits: u64) -> Result<(), AllocError> {
    match precision {
        Precision::Half => {
            write!(text, "0x{bits:04x}=")?;
            push_short(text, half::to_single((bits % 65_536) as u16))
        }
        Precision::Single => {
            write!(text, "0x{bits:08x}=")?;
            let bits = (bits % 4_294_967_296) as u32;
            push_short(text, f32_from_bits_with_nan(bits))
        }
        Precision::Double => {
            write!(text, "0x{bits:016x}=")?;
            push_short(text, f64_from_bits_with_nan(bits))
        }
    }
}

/// Appends the shortest text of a number.
fn push_short<F: Float>(text: &mut String, number: F) -> Result<(), AllocError> {
    let mut buffer = Buffer::new();
    text.push_str(buffer.format(number))
}

#[cycle(value)]
fn push_list(
    text: &mut String,
    items: &Array,
    span: (usize, usize),
    levels: u32,
) -> Result<(), AllocError> {
    text.push('[')?;
    for at in span.0..span.1 {
        if at > span.0 {
            text.push_str(", ")?;
        }
        push_value(text, items, at, levels)?;
    }
    text.push(']')
}

#[cycle(value)]
fn push_struct(
    text: &mut String,
    fields: &[Field],
    parts: &[Array],
    slot: (usize, u32),
) -> Result<(), AllocError> {
    text.push('{')?;
    for (number, (field, part)) in fields.iter().zip(parts.iter()).enumerate() {
        if number > 0 {
            text.push_str(", ")?;
        }
        push_text(text, &field.name)?;
        text.push_str(": ")?;
        push_value(text, part, slot.0, slot.1)?;
    }
    text.push('}')
}

/// Appends bytes in hexadecimal.
pub(crate) fn push_bytes(text: &mut String, bytes: &[u8]) -> Result<(), AllocError> {
    text.push_str("x\"")?;
    for byte in bytes {
        write!(text, "{byte:02x}")?;
    }
    text.push('"')
}

/// Appends a text in JSON's quotes.
fn push_text(text: &mut String, words: &str) -> Result<(), AllocError> {
    text.push('"')?;
    for ch in words.chars() {
        push_char(text, ch)?;
    }
    text.push('"')
}

fn push_char(text: &mut String, ch: char) -> Result<(), AllocError> {
    match ch {
        '"' => text.push_str("\\\""),
        '\\' => text.push_str("\\\\"),
        '\n' => text.push_str("\\n"),
        '\r' => text.push_str("\\r"),
        '\t' => text.push_str("\\t"),
        '\u{8}' => text.push_str("\\b"),
        '\u{c}' => text.push_str("\\f"),
        _ if ch < ' ' => write!(text, "\\u{:04x}", ch as u32),
        _ => text.push(ch),
    }
}
