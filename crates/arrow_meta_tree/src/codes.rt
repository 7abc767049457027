//! The numbers of headers, types, widths and units (`Message.fbs`, `Schema.fbs`).
ghost use Rattle.std.specs.Prelude.{◌≡◌};
ghost use Rattle.arrow_meta_tree.specs.Codes.{header_kind};
ghost use Rattle.arrow_meta_tree.specs.Codes.{bit_width, byte_width, date_unit, decimal_scale, decimal_width};
ghost use Rattle.arrow_meta_tree.specs.Codes.{interval_unit, precision, time_unit};
ghost use Rattle.arrow_meta_tree.specs.Types.{taken, type_code};

use arrow_types::{
    BitWidth, DateUnit, DecimalWidth, IntervalUnit, Precision, Schema, TimeUnit, TypeSet,
};

/// A header of this project's profile (`Message.fbs`, union `MessageHeader`).
#[derive(Clone, Copy, Debug, PartialEq, Eq)]
pub enum HeaderKind {
    Schema,
    DictionaryBatch,
    RecordBatch,
}

/// The header that a code names, None outside the profile: 0 means that there is none, 4 is a
/// Tensor and 5 a SparseTensor.
pub fn header_kind(code: u64) -> Option<HeaderKind>
    ensures kind { result ≡ header_kind code }
{
    match code {
        1 => Some(HeaderKind::Schema),
        2 => Some(HeaderKind::DictionaryBatch),
        3 => Some(HeaderKind::RecordBatch),
        // a number that is not a header's of the profile
        _ => None,
    }
}

/// A type of this project's profile (`Schema.fbs`, union `Type`).
#[derive(Clone, Copy, Debug, PartialEq, Eq)]
pub enum TypeCode {
    Null,
    Int,
    FloatingPoint,
    Binary,
    Utf8,
    Bool,
    Decimal,
    Date,
    Time,
    Timestamp,
    Interval,
    List,
    Struct,
    FixedSizeBinary,
    FixedSizeList,
    Map,
    Duration,
    LargeBinary,
    LargeUtf8,
    LargeList,
}

/// The type that a number names, None outside the profile.
pub fn type_code(number: u64) -> Option<TypeCode>
    ensures code { result ≡ type_code number }
{
    Some(match number {
        1 => TypeCode::Null,
        2 => TypeCode::Int,
        3 => TypeCode::FloatingPoint,
        4 => TypeCode::Binary,
        5 => TypeCode::Utf8,
        6 => TypeCode::Bool,
        7 => TypeCode::Decimal,
        8 => TypeCode::Date,
        9 => TypeCode::Time,
        10 => TypeCode::Timestamp,
        11 => TypeCode::Interval,
        12 => TypeCode::List,
        13 => TypeCode::Struct,
        15 => TypeCode::FixedSizeBinary,
        16 => TypeCode::FixedSizeList,
        17 => TypeCode::Map,
        18 => TypeCode::Duration,
        19 => TypeCode::LargeBinary,
        20 => TypeCode::LargeUtf8,
        21 => TypeCode::LargeList,
        // a number that is not a type's of the profile
        _ => return None,
    })
}

/// The type, if the set has it.
pub fn taken(types: TypeSet, code: Option<TypeCode>) -> Option<TypeCode>
    ensures code { result ≡ taken types code }
{
    match (code, types) {
        (
            Some(
                TypeCode::FloatingPoint
                | TypeCode::Decimal
                | TypeCode::Interval
                | TypeCode::FixedSizeList
                | TypeCode::Map,
            ),
            TypeSet::Core,
        ) => None,
        (code, _) => code,
    }
}

/// The precision of a floating-point number.
pub fn precision(number: u64) -> Option<Precision>
    ensures precision { result ≡ precision number }
{
    match number {
        0 => Some(Precision::Half),
        1 => Some(Precision::Single),
        2 => Some(Precision::Double),
        // a number that is not a precision's
        _ => None,
    }
}

/// The width of this many bits.
pub fn bit_width(bits: u64) -> Option<BitWidth>
    ensures width { result ≡ bit_width bits }
{
    match bits {
        8 => Some(BitWidth::Eight),
        16 => Some(BitWidth::Sixteen),
        32 => Some(BitWidth::ThirtyTwo),
        64 => Some(BitWidth::SixtyFour),
        // a number that is not a width
        _ => None,
    }
}

/// The width of this many bytes, and the size of this many values, None for a negative number: one
/// above the greatest signed number of 32 bits.
pub fn byte_width(bytes: u64) -> Option<u32>
    ensures width { result ≡ byte_width bytes }
{
    if bytes <= u64::from(Schema::MAX_WIDTH) {
        Some(bytes as u32)
    } else {
        None
    }
}

/// The width of a decimal of this many bits.
pub fn decimal_width(bits: u64) -> Option<DecimalWidth>
    ensures width { result ≡ decimal_width bits }
{
    match bits {
        32 => Some(DecimalWidth::ThirtyTwo),
        64 => Some(DecimalWidth::SixtyFour),
        128 => Some(DecimalWidth::OneHundredTwentyEight),
        256 => Some(DecimalWidth::TwoHundredFiftySix),
        // a number that is not a decimal's width
        _ => None,
    }
}

/// The scale of a decimal: 32 bits with a sign. No field of 4 bytes has more bits.
pub fn decimal_scale(bits: u64) -> i32
    ensures scale { result ≡ decimal_scale bits }
{
    ((bits % 4_294_967_296) as u32).cast_signed()
}

/// The unit of a date.
pub fn date_unit(unit: u64) -> Option<DateUnit>
    ensures unit { result ≡ date_unit unit }
{
    match unit {
        0 => Some(DateUnit::Day),
        1 => Some(DateUnit::Millisecond),
        // a number that is not a date's unit
        _ => None,
    }
}

/// The unit of a time, a timestamp or a duration.
pub fn time_unit(unit: u64) -> Option<TimeUnit>
    ensures unit { result ≡ time_unit unit }
{
    match unit {
        0 => Some(TimeUnit::Second),
        1 => Some(TimeUnit::Millisecond),
        2 => Some(TimeUnit::Microsecond),
        3 => Some(TimeUnit::Nanosecond),
        // a number that is not a time's unit
        _ => None,
    }
}

/// The unit of an interval.
pub fn interval_unit(unit: u64) -> Option<IntervalUnit>
    ensures unit { result ≡ interval_unit unit }
{
    match unit {
        0 => Some(IntervalUnit::YearMonth),
        1 => Some(IntervalUnit::DayTime),
        2 => Some(IntervalUnit::MonthDayNano),
        // a number that is not an interval's unit
        _ => None,
    }
}
