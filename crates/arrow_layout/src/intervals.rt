//! Intervals of the calendar, which columns store as numbers of months or as bytes.

ghost use Rattle.std.specs.Prelude.{◌≡◌, ◌+◌, ◌*◌, ◌≤◌, length};
ghost use Rattle.arrow_bits.specs.Numbers.{signed_at};
ghost use Rattle.arrow_layout.specs.Intervals.{day_time_in, interval_of_bytes, interval_of_number};
ghost use Rattle.arrow_layout.specs.Intervals.{month_day_nano_in, unit_of};

use arrow_bits::int_at;
use arrow_types::IntervalUnit;

/// An interval of the calendar (`Schema.fbs`, enum `IntervalUnit`). Each of its numbers has its own
/// sign, and none is converted into another's unit: months and days have no fixed length.
#[derive(Debug, Clone, Copy, PartialEq, Eq)]
pub enum Interval {
    /// A number of months.
    YearMonth {
        months: i32,
    },
    /// A number of days and a number of milliseconds.
    DayTime {
        days: i32,
        milliseconds: i32,
    },
    /// A number of months, a number of days and a number of nanoseconds.
    MonthDayNano {
        months: i32,
        days: i32,
        nanoseconds: i64,
    },
}

impl Interval {
    /// The unit of the columns that have such values.
    pub fn unit(self) -> IntervalUnit
        ensures { result ≡ unit_of self }
    {
        match self {
            Interval::YearMonth { .. } => IntervalUnit::YearMonth,
            Interval::DayTime { .. } => IntervalUnit::DayTime,
            Interval::MonthDayNano { .. } => IntervalUnit::MonthDayNano,
        }
    }
}

/// The interval of a number in a column of this unit: that many months. None in the units whose
/// intervals are bytes, and for a number that does not fit into 32 bits, which no column holds.
pub fn of_number(unit: IntervalUnit, number: i128) -> Option<Interval>
    ensures { result ≡ interval_of_number unit number }
{
    match unit {
        IntervalUnit::YearMonth => {
            let months = i32::try_from(number).ok()?;
            Some(Interval::YearMonth { months })
        }
        IntervalUnit::DayTime | IntervalUnit::MonthDayNano => None,
    }
}

/// The interval that bytes encode in a column of this unit: 8 bytes of days and milliseconds, or 16
/// of months, days and nanoseconds. None for another number of bytes, and for the unit that has
/// only months.
pub fn of_bytes(unit: IntervalUnit, bytes: &[u8]) -> Option<Interval>
    ensures { result ≡ interval_of_bytes unit bytes.now }
{
    match unit {
        IntervalUnit::YearMonth => None,
        IntervalUnit::DayTime if bytes.len() == 8 => Some(day_time(bytes)),
        IntervalUnit::MonthDayNano if bytes.len() == 16 => Some(month_day_nano(bytes)),
        IntervalUnit::DayTime | IntervalUnit::MonthDayNano => None,
    }
}

/// Days, then milliseconds.
fn day_time(bytes: &[u8]) -> Interval
    requires { length bytes.now ≡ 8 }
    ensures { result ≡ day_time_in bytes.now }
{
    Interval::DayTime {
        days: i32_at(bytes, 0),
        milliseconds: i32_at(bytes, 1),
    }
}

/// Months, then days, then nanoseconds.
fn month_day_nano(bytes: &[u8]) -> Interval
    requires { length bytes.now ≡ 16 }
    ensures { result ≡ month_day_nano_in bytes.now }
{
    Interval::MonthDayNano {
        months: i32_at(bytes, 0),
        days: i32_at(bytes, 1),
        nanoseconds: i64_at(bytes, 1),
    }
}

/// The signed number in slot `i` of numbers of 32 bits.
fn i32_at(bytes: &[u8], i: usize) -> i32
    requires { 4 * i + 4 ≤ length bytes.now }
    ensures { result ≡ signed_at bytes.now (4 * i) 4 }
{
    int_at(bytes, 4, true, i) as i32
}

/// The signed number in slot `i` of numbers of 64 bits.
fn i64_at(bytes: &[u8], i: usize) -> i64
    requires { 8 * i + 8 ≤ length bytes.now }
    ensures { result ≡ signed_at bytes.now (8 * i) 8 }
{
    int_at(bytes, 8, true, i) as i64
}
