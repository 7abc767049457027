//! Intervals as records: each number with its sign, then its unit.

use super::columns::{MEMORY, field};
use super::nested::{are_shown, list, lists};
use arrow_layout::{Interval, Value};
use arrow_types::{DataType, IntervalUnit};
use std::process::Abort;

const MONTHS: DataType = DataType::Interval(IntervalUnit::YearMonth);

const DAY_TIME: DataType = DataType::Interval(IntervalUnit::DayTime);

const NANO: DataType = DataType::Interval(IntervalUnit::MonthDayNano);

fn months(rt: &(impl Abort + AllocGlobal), months: i32) -> Value {
    Value::interval(rt.alloc(), Interval::YearMonth { months }).expect(rt, MEMORY)
}

fn day_time(rt: &(impl Abort + AllocGlobal), days: i32, milliseconds: i32) -> Value {
    let interval = Interval::DayTime { days, milliseconds };
    Value::interval(rt.alloc(), interval).expect(rt, MEMORY)
}

fn nano(rt: &(impl Abort + AllocGlobal), months: i32, days: i32, nanoseconds: i64) -> Value {
    let interval = Interval::MonthDayNano {
        months,
        days,
        nanoseconds,
    };
    Value::interval(rt.alloc(), interval).expect(rt, MEMORY)
}

fn bytes(rt: &(impl Abort + AllocGlobal), bytes: &[u8]) -> Value {
    Value::Bytes(Vec::from_slice(rt.alloc(), bytes).expect(rt, MEMORY))
}

#[test]
fn months_show_as_such(rt: HostRuntime) {
    let values = [
        Value::Int(14),
        Value::Int(-14),
        months(&rt, 0),
        months(&rt, i32::MAX),
        months(&rt, i32::MIN),
        Value::Null,
    ];
    let expected = "7,14M\n7,-14M\n7,0M\n7,2147483647M\n7,-2147483648M\n7,\n";
    are_shown(&rt, MONTHS, &values, expected);
}

#[test]
fn days_and_milliseconds(rt: HostRuntime) {
    let values = [
        bytes(&rt, &[2, 0, 0, 0, 244, 1, 0, 0]),
        day_time(&rt, -1, -500),
        day_time(&rt, 0, 0),
        day_time(&rt, i32::MIN, i32::MAX),
        day_time(&rt, i32::MAX, i32::MIN),
        Value::Null,
    ];
    let expected = "7,2d500ms\n7,-1d-500ms\n7,0d0ms\n7,-2147483648d2147483647ms\n\
        7,2147483647d-2147483648ms\n7,\n";
    are_shown(&rt, DAY_TIME, &values, expected);
}

#[test]
fn months_days_and_nanoseconds(rt: HostRuntime) {
    let values = [
        bytes(&rt, &[1, 0, 0, 0, 2, 0, 0, 0, 3, 0, 0, 0, 0, 0, 0, 0]),
        nano(&rt, -1, 2, -3),
        nano(&rt, 0, 0, 0),
        nano(&rt, i32::MIN, i32::MAX, i64::MIN),
        nano(&rt, i32::MAX, i32::MIN, i64::MAX),
        Value::Null,
    ];
    let expected = "7,1M2d3ns\n7,-1M2d-3ns\n7,0M0d0ns\n\
        7,-2147483648M2147483647d-9223372036854775808ns\n\
        7,2147483647M-2147483648d9223372036854775807ns\n7,\n";
    are_shown(&rt, NANO, &values, expected);
}

#[test]
fn lists_of_intervals(rt: HostRuntime) {
    let values = [list(&rt, day_time(&rt, 2, -500), day_time(&rt, 0, 1))];
    let expected = "7,[2d-500ms;null;0d1ms]\n";
    are_shown(&rt, lists(&rt, DAY_TIME), &values, expected);
    let values = [list(&rt, months(&rt, 12), months(&rt, -1))];
    are_shown(&rt, lists(&rt, MONTHS), &values, "7,[12M;null;-1M]\n");
}

#[test]
fn structs_of_intervals(rt: HostRuntime) {
    let fields = vec![in rt.alloc();
        field(&rt, "m", MONTHS),
        field(&rt, "t", DAY_TIME),
        field(&rt, "n", NANO),
    ];
    let parts = vec![in rt.alloc(); months(&rt, -7), day_time(&rt, 3, 4), nano(&rt, 5, -6, 7)];
    let values = [Value::Struct(parts.expect(&rt, MEMORY))];
    let expected = "7,{m=-7M;t=3d4ms;n=5M-6d7ns}\n";
    are_shown(
        &rt,
        DataType::Struct(fields.expect(&rt, MEMORY)),
        &values,
        expected,
    );
}

#[test]
fn bytes_of_another_type_are_hexadecimal(rt: HostRuntime) {
    let values = [day_time(&rt, 2, 500)];
    are_shown(
        &rt,
        DataType::FixedSizeBinary(8),
        &values,
        "7,02000000f4010000\n",
    );
}
