//! Values that hold no others.

use super::columns::{MEMORY, are_shown, bytes, text};
use arrow_layout::{Decimal, Interval, Value};
use arrow_types::{BitWidth, DataType, DateUnit, DecimalWidth, IntervalUnit, Precision, TimeUnit};
use std::process::Abort;

/// Whole numbers of 64 bits.
const fn int64(signed: bool) -> DataType {
    DataType::Int {
        bits: BitWidth::SixtyFour,
        signed,
    }
}

#[test]
fn nulls_and_truth_values(rt: HostRuntime) {
    are_shown(
        &rt,
        DataType::Null,
        &[Value::Null, Value::Null],
        "{\"x\":null}\n{\"x\":null}\n",
    );
    let values = [Value::Bool(true), Value::Null, Value::Bool(false)];
    let expected = "{\"x\":true}\n{\"x\":null}\n{\"x\":false}\n";
    are_shown(&rt, DataType::Bool, &values, expected);
}

#[test]
fn whole_numbers_of_64_bits(rt: HostRuntime) {
    let values = [
        Value::Int(-9_223_372_036_854_775_808),
        Value::Int(9_223_372_036_854_775_807),
        Value::Int(0),
        Value::Int(-1),
    ];
    let expected =
        "{\"x\":-9223372036854775808}\n{\"x\":9223372036854775807}\n{\"x\":0}\n{\"x\":-1}\n";
    are_shown(&rt, int64(true), &values, expected);
    let values = [
        Value::Int(18_446_744_073_709_551_615),
        Value::Int(9_223_372_036_854_775_808),
    ];
    let expected = "{\"x\":18446744073709551615}\n{\"x\":9223372036854775808}\n";
    are_shown(&rt, int64(false), &values, expected);
}

#[test]
fn numbers_of_units(rt: HostRuntime) {
    let values = [Value::Int(-719_162), Value::Int(20_000)];
    let expected = "{\"x\":-719162}\n{\"x\":20000}\n";
    are_shown(&rt, DataType::Date(DateUnit::Day), &values, expected);
    are_shown(
        &rt,
        DataType::Duration(TimeUnit::Nanosecond),
        &values,
        expected,
    );
    are_shown(
        &rt,
        DataType::Timestamp(TimeUnit::Second, None),
        &values,
        expected,
    );
    let times = [Value::Int(0), Value::Int(86_399_999)];
    let expected = "{\"x\":0}\n{\"x\":86399999}\n";
    are_shown(&rt, DataType::Time(TimeUnit::Millisecond), &times, expected);
}

#[test]
fn floating_point_numbers(rt: HostRuntime) {
    let double = Precision::Double;
    let values = [
        Value::float(double, 1.0),
        Value::float(double, -0.0),
        Value::float(double, 1e30),
        Value::float(double, 0.1),
        Value::float(double, 5e-324),
        Value::float(double, f64::NAN),
        Value::float(double, f64::INFINITY),
        Value::float(double, f64::NEG_INFINITY),
    ];
    let expected = "{\"x\":1.0}\n{\"x\":-0.0}\n{\"x\":1e30}\n{\"x\":0.1}\n{\"x\":5e-324}\n\
        {\"x\":\"NaN\"}\n{\"x\":\"inf\"}\n{\"x\":\"-inf\"}\n";
    are_shown(&rt, DataType::FloatingPoint(double), &values, expected);
}

#[test]
fn floating_point_numbers_of_fewer_bits(rt: HostRuntime) {
    let single = Precision::Single;
    let values = [
        Value::float(single, 0.1),
        Value::float(single, 3.4028234663852886e38),
        Value::float(single, f64::NAN),
    ];
    let expected = "{\"x\":0.1}\n{\"x\":3.4028235e38}\n{\"x\":\"NaN\"}\n";
    are_shown(&rt, DataType::FloatingPoint(single), &values, expected);
    let half = Precision::Half;
    let values = [
        Value::float(half, 1.5),
        Value::float(half, 65_504.0),
        Value::float(half, f64::NEG_INFINITY),
    ];
    let expected = "{\"x\":1.5}\n{\"x\":65504.0}\n{\"x\":\"-inf\"}\n";
    are_shown(&rt, DataType::FloatingPoint(half), &values, expected);
}

/// Decimals of this width and scale.
fn decimals(width: DecimalWidth, scale: i8) -> DataType {
    DataType::Decimal {
        width,
        precision: 1,
        scale,
    }
}

#[test]
fn decimals_of_128_bits(rt: HostRuntime) {
    let width = DecimalWidth::OneHundredTwentyEight;
    let values = [
        Value::Int(5),
        Value::Int(-5),
        Value::Int(-12_345),
        Value::Int(0),
        Value::Int(170_141_183_460_469_231_731_687_303_715_884_105_727),
    ];
    let expected = "{\"x\":0.05}\n{\"x\":-0.05}\n{\"x\":-123.45}\n{\"x\":0.00}\n\
        {\"x\":1701411834604692317316873037158841057.27}\n";
    are_shown(&rt, decimals(width, 2), &values, expected);
    let values = [Value::Int(99_999_999_999_999_999_999_999_999_999_999_999_999)];
    let expected = "{\"x\":99999999999999999999999999999999999999}\n";
    are_shown(&rt, decimals(width, 0), &values, expected);
    let values = [Value::Int(12), Value::Int(0), Value::Int(-7)];
    let expected = "{\"x\":12e3}\n{\"x\":0e3}\n{\"x\":-7e3}\n";
    are_shown(&rt, decimals(width, -3), &values, expected);
}

/// A decimal of 256 bits by its halves.
fn wide(rt: &(impl Abort + AllocGlobal), high: i128, low: u128) -> Value {
    let decimal = Decimal {
        high,
        low,
        scale: 0,
    };
    Value::wide_decimal(rt.alloc(), decimal).expect(rt, MEMORY)
}

#[test]
fn decimals_of_256_bits(rt: HostRuntime) {
    let values = [
        wide(&rt, 1, 0),
        wide(&rt, -1, u128::MAX),
        wide(&rt, i128::MIN, 0),
        Value::Null,
    ];
    let expected = "{\"x\":3402823669209384634633746074317682114.56}\n{\"x\":-0.01}\n\
        {\"x\":-578960446186580977117854925043439539266349923328202820197287920039565648199.68}\n\
        {\"x\":null}\n";
    are_shown(
        &rt,
        decimals(DecimalWidth::TwoHundredFiftySix, 2),
        &values,
        expected,
    );
}

#[test]
fn intervals_are_strings(rt: HostRuntime) {
    let months = [Value::Int(14), Value::Int(-1)];
    let expected = "{\"x\":\"14M\"}\n{\"x\":\"-1M\"}\n";
    are_shown(
        &rt,
        DataType::Interval(IntervalUnit::YearMonth),
        &months,
        expected,
    );
    let interval = Interval::MonthDayNano {
        months: 1,
        days: -2,
        nanoseconds: 3,
    };
    let nano = Value::interval(rt.alloc(), interval).expect(&rt, MEMORY);
    let expected = "{\"x\":\"1M-2d3ns\"}\n";
    are_shown(
        &rt,
        DataType::Interval(IntervalUnit::MonthDayNano),
        &[nano],
        expected,
    );
    let day_time = bytes(&rt, &[2, 0, 0, 0, 244, 1, 0, 0]);
    let expected = "{\"x\":\"2d500ms\"}\n";
    are_shown(
        &rt,
        DataType::Interval(IntervalUnit::DayTime),
        &[day_time],
        expected,
    );
}

#[test]
fn texts_are_escaped(rt: HostRuntime) {
    let values = [
        text(&rt, ""),
        text(&rt, "say \"x\""),
        text(&rt, "a\\b/c"),
        text(&rt, "two\nlines\tand\r"),
        text(&rt, "\u{8}\u{c}\u{1}\u{1f}\u{7f}"),
        text(&rt, "é€😀"),
    ];
    let expected = "{\"x\":\"\"}\n{\"x\":\"say \\\"x\\\"\"}\n{\"x\":\"a\\\\b/c\"}\n\
        {\"x\":\"two\\nlines\\tand\\r\"}\n{\"x\":\"\\b\\f\\u0001\\u001f\u{7f}\"}\n{\"x\":\"é€😀\"}\n";
    are_shown(&rt, DataType::Utf8, &values, expected);
}

#[test]
fn bytes_are_hexadecimal(rt: HostRuntime) {
    let values = [bytes(&rt, &[0xab, 0x0c]), bytes(&rt, &[]), Value::Null];
    let expected = "{\"x\":\"ab0c\"}\n{\"x\":\"\"}\n{\"x\":null}\n";
    are_shown(&rt, DataType::Binary, &values, expected);
    are_shown(&rt, DataType::LargeBinary, &values, expected);
    let values = [bytes(&rt, &[0, 255])];
    are_shown(
        &rt,
        DataType::FixedSizeBinary(2),
        &values,
        "{\"x\":\"00ff\"}\n",
    );
}
