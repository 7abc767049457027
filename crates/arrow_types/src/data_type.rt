//! What types are made of: widths, units and precisions of values (`Schema.fbs`).

ghost use Rattle.std.specs.Prelude.{◌≡◌};
ghost use Rattle.arrow_types.specs.DataType.{bits_of, time_width_of, date_width_of, float_width_of};
ghost use Rattle.arrow_types.specs.DataType.{decimal_bits_of, digits_of, is_decimal};

/// How many bits a whole number takes (`Schema.fbs`, table `Int`, field `bitWidth`).
#[derive(Clone, Copy, Debug, PartialEq, Eq)]
pub enum BitWidth {
    /// 8 bits.
    Eight,
    /// 16 bits.
    Sixteen,
    /// 32 bits.
    ThirtyTwo,
    /// 64 bits.
    SixtyFour,
}

impl BitWidth {
    /// The width in bits: 8, 16, 32 or 64.
    pub fn bits(self) -> u8
        ensures { result ≡ bits_of self }
    {
        match self {
            BitWidth::Eight => 8,
            BitWidth::Sixteen => 16,
            BitWidth::ThirtyTwo => 32,
            BitWidth::SixtyFour => 64,
        }
    }
}

/// The unit of a date, counted from 1970-01-01 (`Schema.fbs`, enum `DateUnit`).
#[derive(Clone, Copy, Debug, PartialEq, Eq)]
pub enum DateUnit {
    /// Days, in signed numbers of 32 bits.
    Day,
    /// Milliseconds, in signed numbers of 64 bits.
    Millisecond,
}

impl DateUnit {
    /// The width of one date: 32 bits for days, 64 for milliseconds.
    pub fn width(self) -> BitWidth
        ensures { result ≡ date_width_of self }
    {
        match self {
            DateUnit::Day => BitWidth::ThirtyTwo,
            DateUnit::Millisecond => BitWidth::SixtyFour,
        }
    }
}

/// The unit of a time of day, a timestamp or a duration (`Schema.fbs`, enum `TimeUnit`).
#[derive(Clone, Copy, Debug, PartialEq, Eq)]
pub enum TimeUnit {
    /// Seconds.
    Second,
    /// Thousandths of a second.
    Millisecond,
    /// Millionths of a second.
    Microsecond,
    /// Thousand-millionths of a second.
    Nanosecond,
}

impl TimeUnit {
    /// The width of one time of day in this unit: 32 bits for seconds and milliseconds, 64 for the
    /// finer units. A timestamp and a duration have 64 bits in every unit.
    pub fn time_width(self) -> BitWidth
        ensures { result ≡ time_width_of self }
    {
        match self {
            TimeUnit::Second | TimeUnit::Millisecond => BitWidth::ThirtyTwo,
            TimeUnit::Microsecond | TimeUnit::Nanosecond => BitWidth::SixtyFour,
        }
    }
}

/// How wide a floating-point number is (`Schema.fbs`, enum `Precision`; IEEE 754, "Binary interchange
/// format").
#[derive(Clone, Copy, Debug, PartialEq, Eq)]
pub enum Precision {
    /// 16 bits.
    Half,
    /// 32 bits.
    Single,
    /// 64 bits.
    Double,
}

impl Precision {
    /// The width of one number: 16, 32 or 64 bits.
    pub fn width(self) -> BitWidth
        ensures { result ≡ float_width_of self }
    {
        match self {
            Precision::Half => BitWidth::Sixteen,
            Precision::Single => BitWidth::ThirtyTwo,
            Precision::Double => BitWidth::SixtyFour,
        }
    }
}

/// The unit of a calendar interval (`Schema.fbs`, enum `IntervalUnit`).
#[derive(Clone, Copy, Debug, PartialEq, Eq)]
pub enum IntervalUnit {
    /// Months, in signed numbers of 32 bits.
    YearMonth,
    /// Days, then milliseconds, each in a signed number of 32 bits.
    DayTime,
    /// Months, then days, each in a signed number of 32 bits, then nanoseconds in one of 64 bits.
    MonthDayNano,
}

/// How many bits a decimal number takes (`Schema.fbs`, table `Decimal`, field `bitWidth`).
#[derive(Clone, Copy, Debug, PartialEq, Eq)]
pub enum DecimalWidth {
    /// 32 bits.
    ThirtyTwo,
    /// 64 bits.
    SixtyFour,
    /// 128 bits.
    OneHundredTwentyEight,
    /// 256 bits.
    TwoHundredFiftySix,
}

impl DecimalWidth {
    /// The width in bits: 32, 64, 128 or 256.
    pub fn bits(self) -> u16
        ensures { result ≡ decimal_bits_of self }
    {
        match self {
            DecimalWidth::ThirtyTwo => 32,
            DecimalWidth::SixtyFour => 64,
            DecimalWidth::OneHundredTwentyEight => 128,
            DecimalWidth::TwoHundredFiftySix => 256,
        }
    }

    /// The greatest precision: the greatest number of digits such that each number of that many
    /// digits fits into the width.
    pub fn digits(self) -> u8
        ensures { result ≡ digits_of self }
    {
        match self {
            DecimalWidth::ThirtyTwo => 9,
            DecimalWidth::SixtyFour => 18,
            DecimalWidth::OneHundredTwentyEight => 38,
            DecimalWidth::TwoHundredFiftySix => 76,
        }
    }

    /// Whether decimals of this width may have this precision and this scale (the number of digits,
    /// and of those after the point): a precision from 1 up to the greatest, and a scale from -76
    /// to 76.
    pub fn allows(self, precision: u8, scale: i8) -> bool
        ensures { result ≡ is_decimal self precision scale }
    {
        1 <= precision && precision <= self.digits() && -76 <= scale && scale <= 76
    }
}
