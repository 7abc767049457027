//! The words for types: their names and their format strings, side by side.

ghost use Rattle.std.specs.Prelude.{◌≡◌, ℕ, ℤ};
ghost use Rattle.arrow_types.specs.DataType.{decimal, int};
ghost use Rattle.arrow_types.specs.View.{type_view};
ghost use Rattle.arrowflow_text.specs.TypeWords.{format_width, words_of};

use arrow_types::{BitWidth, DataType, DateUnit, DecimalWidth, IntervalUnit, Precision, TimeUnit};

/// The fixed texts of a type: complete, or up to the width of a FixedSizeBinary, the size of a
/// FixedSizeList, the time zone of a Timestamp or the precision of a Decimal.
#[derive(Clone, Copy, Debug)]
pub struct TypeWords {
    /// The name in the text of a schema.
    pub name: &'static str,
    /// The format string (Arrow C data interface, "Data type description -- format strings").
    pub format: &'static str,
}

/// The words for a type without its children. The width of a FixedSizeBinary follows them, and so
/// do the size of a FixedSizeList and the time zone of a Timestamp if it has one, in the name after
/// `, `; these names end with `]`. The precision and the scale of a Decimal follow them, in the
/// name with `, ` between and `)` after them, in the format string with `,` between them and its
/// [`format_width`] after them.
pub fn words_of(data_type: &DataType) -> TypeWords
    ensures name { result.name.now ≡ (words_of (type_view data_type.now).tag).name }
    ensures format { result.format.now ≡ (words_of (type_view data_type.now).tag).format }
{
    match data_type {
        DataType::Null => words("null", "n"),
        DataType::Bool => words("bool", "b"),
        DataType::Int { bits, signed } => int_words(*bits, *signed),
        DataType::FloatingPoint(Precision::Half) => words("halffloat", "e"),
        DataType::FloatingPoint(Precision::Single) => words("float", "f"),
        DataType::FloatingPoint(Precision::Double) => words("double", "g"),
        DataType::Decimal { width, .. } => decimal_words(*width),
        DataType::Binary => words("binary", "z"),
        DataType::LargeBinary => words("large_binary", "Z"),
        DataType::FixedSizeBinary(_) => words("fixed_size_binary[", "w:"),
        DataType::Utf8 => words("utf8", "u"),
        DataType::LargeUtf8 => words("large_utf8", "U"),
        DataType::Date(DateUnit::Day) => words("date[day]", "tdD"),
        DataType::Date(DateUnit::Millisecond) => words("date[ms]", "tdm"),
        DataType::Time(TimeUnit::Second) => words("time[s]", "tts"),
        DataType::Time(TimeUnit::Millisecond) => words("time[ms]", "ttm"),
        DataType::Time(TimeUnit::Microsecond) => words("time[us]", "ttu"),
        DataType::Time(TimeUnit::Nanosecond) => words("time[ns]", "ttn"),
        DataType::Timestamp(TimeUnit::Second, _) => words("timestamp[s", "tss:"),
        DataType::Timestamp(TimeUnit::Millisecond, _) => words("timestamp[ms", "tsm:"),
        DataType::Timestamp(TimeUnit::Microsecond, _) => words("timestamp[us", "tsu:"),
        DataType::Timestamp(TimeUnit::Nanosecond, _) => words("timestamp[ns", "tsn:"),
        DataType::Duration(TimeUnit::Second) => words("duration[s]", "tDs"),
        DataType::Duration(TimeUnit::Millisecond) => words("duration[ms]", "tDm"),
        DataType::Duration(TimeUnit::Microsecond) => words("duration[us]", "tDu"),
        DataType::Duration(TimeUnit::Nanosecond) => words("duration[ns]", "tDn"),
        DataType::Interval(IntervalUnit::YearMonth) => words("month_interval", "tiM"),
        DataType::Interval(IntervalUnit::DayTime) => words("day_time_interval", "tiD"),
        DataType::Interval(IntervalUnit::MonthDayNano) => words("month_day_nano_interval", "tin"),
        DataType::List(_) => words("list", "+l"),
        DataType::LargeList(_) => words("large_list", "+L"),
        DataType::FixedSizeList(..) => words("fixed_size_list[", "+w:"),
        DataType::Map(_, false) => words("map", "+m"),
        DataType::Map(_, true) => words("map[sorted]", "+m"),
        DataType::Struct(_) => words("struct", "+s"),
    }
}

/// The words for integers of this width, signed or unsigned.
pub fn int_words(bits: BitWidth, signed: bool) -> TypeWords
    ensures name { result.name.now ≡ (words_of (int bits signed)).name }
    ensures format { result.format.now ≡ (words_of (int bits signed)).format }
{
    match (bits, signed) {
        (BitWidth::Eight, true) => words("int8", "c"),
        (BitWidth::Sixteen, true) => words("int16", "s"),
        (BitWidth::ThirtyTwo, true) => words("int32", "i"),
        (BitWidth::SixtyFour, true) => words("int64", "l"),
        (BitWidth::Eight, false) => words("uint8", "C"),
        (BitWidth::Sixteen, false) => words("uint16", "S"),
        (BitWidth::ThirtyTwo, false) => words("uint32", "I"),
        (BitWidth::SixtyFour, false) => words("uint64", "L"),
    }
}

/// The words for decimals of this width.
fn decimal_words(width: DecimalWidth) -> TypeWords
    ensures name { (precision : ℕ) (scale : ℤ)
        → result.name.now ≡ (words_of (decimal width precision scale)).name }
    ensures format { (precision : ℕ) (scale : ℤ)
        → result.format.now ≡ (words_of (decimal width precision scale)).format }
{
    match width {
        DecimalWidth::ThirtyTwo => words("decimal32(", "d:"),
        DecimalWidth::SixtyFour => words("decimal64(", "d:"),
        DecimalWidth::OneHundredTwentyEight => words("decimal128(", "d:"),
        DecimalWidth::TwoHundredFiftySix => words("decimal256(", "d:"),
    }
}

/// What follows the precision and the scale in the format string of decimals of this width.
pub fn format_width(width: DecimalWidth) -> &'static str
    ensures { result.now ≡ format_width width }
{
    match width {
        DecimalWidth::ThirtyTwo => ",32",
        DecimalWidth::SixtyFour => ",64",
        DecimalWidth::OneHundredTwentyEight => "",
        DecimalWidth::TwoHundredFiftySix => ",256",
    }
}

/// A row of the table.
fn words(name: &'static str, format: &'static str) -> TypeWords
    ensures name { result.name.now ≡ name.now }
    ensures format { result.format.now ≡ format.now }
{
    TypeWords { name, format }
}
