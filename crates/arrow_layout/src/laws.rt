//! Laws of the definitions, which no code implements. Each is the contract of a function that does
//! nothing.

ghost use Rattle.std.specs.Prelude.{◌≡◌, ℕ, Some};
ghost use Rattle.arrow_types.specs.DataType as tags;
ghost use Rattle.arrow_types.specs.declared.data_type.DecimalWidth.TheVariants.{TwoHundredFiftySix};
ghost use Rattle.arrow_types.specs.declared.data_type.IntervalUnit.TheVariants as units;
ghost use Rattle.arrow_layout.specs.declared.intervals.Interval.TheVariants.{DayTime, MonthDayNano};
ghost use Rattle.arrow_layout.specs.declared.intervals.Interval.TheVariants.{YearMonth};
ghost use Rattle.arrow_layout.specs.Decimals.{decimal_in, decimal_of_number, unscaled_of};
ghost use Rattle.arrow_layout.specs.Decimals.{wide_decimal_value};
ghost use Rattle.arrow_layout.specs.Intervals.{interval_in, interval_value};
ghost use Rattle.arrow_layout.specs.declared.decimals.Decimal.{Decimal as DecimalShape};

/// For a number of months, the value that `Value::interval` makes is read as the same interval, as
/// `Array::interval_at` of `arrow_data` reads it.
pub fn months_come_back(months: i32)
    ensures same { let interval = YearMonth months
        in interval_in (tags.interval units.YearMonth) (interval_value interval) ≡ Some interval }
{}

/// The same for days and milliseconds.
pub fn day_time_comes_back(days: i32, milliseconds: i32)
    ensures same { let interval = DayTime days milliseconds
        in interval_in (tags.interval units.DayTime) (interval_value interval) ≡ Some interval }
{}

/// The same for months, days and nanoseconds.
pub fn month_day_nano_comes_back(months: i32, days: i32, nanoseconds: i64)
    ensures same { let interval = MonthDayNano months days nanoseconds
        in interval_in (tags.interval units.MonthDayNano) (interval_value interval) ≡ Some interval }
{}

/// The value that `Value::wide_decimal` makes of a decimal is read as the same decimal, in a column
/// of its scale, whatever the precision, as `Array::decimal_at` of `arrow_data` reads it.
pub fn decimal_comes_back(high: i128, low: u128, scale: i8)
    ensures same { let d : DecimalShape = record { high = high; low = low; scale = scale }
        in (precision : ℕ) → decimal_in (tags.decimal TwoHundredFiftySix precision scale)
        (wide_decimal_value d) ≡ Some d }
{}

/// The decimal made of a number has that whole number.
pub fn number_comes_back(scale: i8, number: i128)
    ensures same { unscaled_of (decimal_of_number scale number) ≡ number }
{}
