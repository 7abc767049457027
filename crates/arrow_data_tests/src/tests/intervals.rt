//! Intervals, by bytes that are written out.

use super::making::{column, dictionary, listed, plain};
use arrow_data::Array;
use arrow_layout::{Interval, Value};
use arrow_types::IntervalUnit;
use std::process::Abort;

const MEMORY: &str = "memory";

fn months(months: i32) -> Interval {
    Interval::YearMonth { months }
}

fn day_time(days: i32, milliseconds: i32) -> Interval {
    Interval::DayTime { days, milliseconds }
}

fn nano(months: i32, days: i32, nanoseconds: i64) -> Interval {
    Interval::MonthDayNano {
        months,
        days,
        nanoseconds,
    }
}

/// Asserts that the first slot has the interval, which is the value that is made of it.
fn is_interval(rt: &(impl Abort + AllocGlobal), text: &str, expected: Interval) {
    let column = plain(rt, text);
    assert!(rt; column.len() > 0);
    assert_eq!(rt; column.interval_at(0), Some(expected), "{text}");
    assert!(rt; column.len() > 0);
    match Value::interval(rt.alloc(), expected).expect(rt, MEMORY) {
        Value::Int(number) => assert_eq!(rt; column.int_at(0), Some(number), "{text}"),
        Value::Bytes(bytes) => {
            assert_eq!(rt; column.bytes_at(0), Some(bytes.as_slice()), "{text}");
        }
        _ => panic!(rt; "{text}"),
    }
}

#[test]
fn months_of_numbers(rt: HostRuntime) {
    let rows = [
        ("interval[year_month]; 1; / 14 0 0 0", 14),
        ("interval[year_month]; 1; / 0 0 0 0", 0),
        ("interval[year_month]; 1; / 242 255 255 255", -14),
        ("interval[year_month]; 1; / 255 255 255 127", i32::MAX),
        ("interval[year_month]; 1; / 0 0 0 128", i32::MIN),
    ];
    for (text, expected) in &rows {
        is_interval(&rt, text, months(*expected));
    }
    assert!(rt; months(1).unit() == IntervalUnit::YearMonth);
}

#[test]
fn days_and_milliseconds_of_bytes(rt: HostRuntime) {
    let rows = [
        ("2 0 0 0 244 1 0 0", (2, 500)),
        ("0 0 0 0 0 0 0 0", (0, 0)),
        ("255 255 255 255 12 254 255 255", (-1, -500)),
        ("1 2 3 4 5 6 7 8", (67_305_985, 134_678_021)),
        ("0 0 0 128 255 255 255 127", (i32::MIN, i32::MAX)),
        ("255 255 255 127 0 0 0 128", (i32::MAX, i32::MIN)),
    ];
    for (bytes, (days, milliseconds)) in &rows {
        let text = format!(in rt.alloc(); "interval[day_time]; 1; / {bytes}");
        let text = text.expect(&rt, MEMORY);
        is_interval(&rt, &text, day_time(*days, *milliseconds));
    }
    assert!(rt; day_time(1, 2).unit() == IntervalUnit::DayTime);
}

#[test]
fn months_days_and_nanoseconds_of_bytes(rt: HostRuntime) {
    let rows = [
        ("1 0 0 0 2 0 0 0 3 0 0 0 0 0 0 0", nano(1, 2, 3)),
        (
            "255 255 255 255 254 255 255 255 253 255 255 255 255 255 255 255",
            nano(-1, -2, -3),
        ),
        ("0 0 0 0 0 0 0 0 0 0 0 0 1 0 0 0", nano(0, 0, 4_294_967_296)),
        (
            "0 0 0 128 255 255 255 127 0 0 0 0 0 0 0 128",
            nano(i32::MIN, i32::MAX, i64::MIN),
        ),
        (
            "255 255 255 127 0 0 0 128 255 255 255 255 255 255 255 127",
            nano(i32::MAX, i32::MIN, i64::MAX),
        ),
    ];
    for (bytes, expected) in &rows {
        let text = format!(in rt.alloc(); "interval[month_day_nano]; 1; / {bytes}");
        let text = text.expect(&rt, MEMORY);
        is_interval(&rt, &text, *expected);
    }
    assert!(rt; nano(1, 2, 3).unit() == IntervalUnit::MonthDayNano);
}

/// Columns whose first slot has no interval.
static OTHERS: [&str; 9] = [
    "interval[year_month]; 1; 254 / 14 0 0 0",
    "interval[day_time]; 1; 254 / 2 0 0 0 244 1 0 0",
    "interval[month_day_nano]; 1; 254 / 1 0 0 0 2 0 0 0 3 0 0 0 0 0 0 0",
    "int32; 1; / 14 0 0 0",
    "duration[ms]; 1; / l 14",
    "fixed_size_binary[8]; 1; / 2 0 0 0 244 1 0 0",
    "binary; 1; / i 0 8 / 2 0 0 0 244 1 0 0",
    "null; 1",
    "struct[1] interval[year_month]; 1 1; / / 14 0 0 0",
];

fn first_interval(rt: &impl Abort, column: &Array) -> Option<Interval> {
    assert!(rt; column.len() > 0);
    column.interval_at(0)
}

#[test]
fn slots_without_an_interval(rt: HostRuntime) {
    for text in &OTHERS {
        assert!(rt; first_interval(&rt, &plain(&rt, text)).is_none(), "{text}");
    }
}

#[test]
fn intervals_of_a_dictionary(rt: HostRuntime) {
    let texts = ["interval[day_time]; 2; / 1 0 0 0 0 0 0 0 2 0 0 0 244 1 0 0"];
    let values = dictionary(&rt, &texts);
    let words = "by:0:uint64 interval[day_time]; 1; / l 1";
    let column = column(&rt, words, &listed(&rt, values)).expect(&rt, "a column");
    assert!(rt; first_interval(&rt, &column).is_none());
    assert!(rt; column.len() > 0);
    let (values, place) = column.resolved(0).expect(&rt, "a value");
    assert!(rt; values.interval_at(place) == Some(day_time(2, 500)));
}
