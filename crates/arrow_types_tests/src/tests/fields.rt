//! Fields that are built from a description in words.

use arrow_types::{
    BitWidth, DataType, DateUnit, DecimalWidth, Encoding, Field, IndexType, IntervalUnit,
    Precision, Schema, SchemaFault, TimeUnit,
};
use std::process::Abort;

pub(super) const MEMORY: &str = "memory";

/// A field that may be null.
pub(super) fn field(rt: &(impl Abort + AllocGlobal), name: &str, data_type: DataType) -> Field {
    let name = String::from_str(rt.alloc(), name).expect(rt, MEMORY);
    Field::new(rt.alloc(), name, data_type, true)
}

fn last(rt: &impl Abort, fields: &mut Vec<Field>) -> Field {
    fields.pop().expect(rt, "a field that is not there")
}

fn boxed(rt: &(impl Abort + AllocGlobal), fields: &mut Vec<Field>) -> Box<Field> {
    Box::new(rt.alloc(), last(rt, fields)).expect(rt, MEMORY)
}

fn last_fields(rt: &impl Abort, fields: &mut Vec<Field>, count: u32) -> Vec<Field> {
    assert!(rt; count as usize <= fields.len());
    let start = fields.len() - count as usize;
    fields.split_off(start).expect(rt, MEMORY)
}

fn zoned(rt: &(impl Abort + AllocGlobal), name: &str) -> Option<String> {
    if name.is_empty() {
        return None;
    }
    Some(String::from_str(rt.alloc(), name).expect(rt, MEMORY))
}

fn count_in(rt: &impl Abort, digits: &str) -> u32 {
    digits.parse::<u32>().ok().expect(rt, "a count")
}

fn unit_in(rt: &impl Abort, word: &str) -> TimeUnit {
    match word {
        "s" => TimeUnit::Second,
        "ms" => TimeUnit::Millisecond,
        "us" => TimeUnit::Microsecond,
        "ns" => TimeUnit::Nanosecond,
        _ => panic!(rt; "{word} is no unit"),
    }
}

fn interval_unit_in(rt: &impl Abort, word: &str) -> IntervalUnit {
    match word {
        "year_month" => IntervalUnit::YearMonth,
        "day_time" => IntervalUnit::DayTime,
        "month_day_nano" => IntervalUnit::MonthDayNano,
        _ => panic!(rt; "{word} is no unit of intervals"),
    }
}

fn decimal_width_in(rt: &impl Abort, bits: &str) -> DecimalWidth {
    match bits {
        "32" => DecimalWidth::ThirtyTwo,
        "64" => DecimalWidth::SixtyFour,
        "128" => DecimalWidth::OneHundredTwentyEight,
        "256" => DecimalWidth::TwoHundredFiftySix,
        _ => panic!(rt; "{bits} is no width of decimals"),
    }
}

/// Decimals of these bits, this precision and this scale, as `128,38,-2`.
fn decimals_of(rt: &impl Abort, numbers: &str) -> DataType {
    let (bits, more) = numbers.split_once(',').expect(rt, "a width");
    let (precision, scale) = more.split_once(',').expect(rt, "a precision and a scale");
    DataType::Decimal {
        width: decimal_width_in(rt, bits),
        precision: precision.parse::<u8>().ok().expect(rt, "a precision"),
        scale: scale.parse::<i8>().ok().expect(rt, "a scale"),
    }
}

/// The type that a word names. A dot is followed by the width of byte strings, the unit of times,
/// the zone of timestamps in microseconds, the numbers of decimals, the size of fixed-size lists,
/// how many fields before it a struct takes, or that the keys of a map are sorted; each list and a
/// map take one field.
fn data_type(rt: &(impl Abort + AllocGlobal), before: &mut Vec<Field>, word: &str) -> DataType {
    let (name, more) = word.split_once('.').unwrap_or((word, ""));
    match name {
        "list" => DataType::List(boxed(rt, before)),
        "large_list" => DataType::LargeList(boxed(rt, before)),
        "fixed_list" => DataType::FixedSizeList(boxed(rt, before), count_in(rt, more)),
        "struct" => DataType::Struct(last_fields(rt, before, count_in(rt, more))),
        "map" => DataType::Map(boxed(rt, before), more == "sorted"),
        "null" => DataType::Null,
        "bool" => DataType::Bool,
        "int" => DataType::Int {
            bits: BitWidth::ThirtyTwo,
            signed: true,
        },
        "binary" => DataType::Binary,
        "large_binary" => DataType::LargeBinary,
        "fixed" => DataType::FixedSizeBinary(count_in(rt, more)),
        "halffloat" => DataType::FloatingPoint(Precision::Half),
        "float" => DataType::FloatingPoint(Precision::Single),
        "double" => DataType::FloatingPoint(Precision::Double),
        "decimal" => decimals_of(rt, more),
        "utf8" => DataType::Utf8,
        "large_utf8" => DataType::LargeUtf8,
        "date" => DataType::Date(DateUnit::Day),
        "time" => DataType::Time(unit_in(rt, more)),
        "duration" => DataType::Duration(unit_in(rt, more)),
        "interval" => DataType::Interval(interval_unit_in(rt, more)),
        "timestamp" => DataType::Timestamp(TimeUnit::Microsecond, zoned(rt, more)),
        _ => panic!(rt; "{name} is no type"),
    }
}

/// Signed 32-bit indices into the dictionary of this id.
pub(super) fn encoding(id: i64) -> Encoding {
    Encoding {
        id,
        index: IndexType {
            bits: BitWidth::ThirtyTwo,
            signed: true,
        },
        ordered: id % 2 != 0,
    }
}

/// Appends `count` fields `NAME:TYPE` or `NAME@ID:TYPE` to others. A dictionary is ordered if its id
/// is odd.
fn push_fields(rt: &(impl Abort + AllocGlobal), fields: &mut Vec<Field>, word: &str, count: u32) {
    let (named, of) = word.split_once(':').expect(rt, "a name and a type");
    let (name, id) = named.split_once('@').unwrap_or((named, ""));
    let dictionary = id.parse::<i64>().ok().map(encoding);
    for _ in 0..count {
        let of = data_type(rt, fields, of);
        let mut field = field(rt, name, of);
        field.dictionary = dictionary;
        fields.push(field).expect(rt, MEMORY);
    }
}

/// The columns of consecutive fields, each of which takes the fields below it from the end of those
/// before it. `:bool*3` is three times `:bool`.
pub(super) fn columns(rt: &(impl Abort + AllocGlobal), words: &str) -> Vec<Field> {
    let mut columns = Vec::new(rt.alloc());
    for word in words.split_whitespace() {
        let (word, times) = word.split_once('*').unwrap_or((word, "1"));
        push_fields(rt, &mut columns, word, count_in(rt, times));
    }
    columns
}

pub(super) fn column(rt: &(impl Abort + AllocGlobal), words: &str) -> Field {
    last(rt, &mut columns(rt, words))
}

/// The field, with one above it of this name and this type.
pub(super) fn below(rt: &(impl Abort + AllocGlobal), name: &str, of: &str, child: Field) -> Field {
    let mut fields = vec![in rt.alloc(); child].expect(rt, MEMORY);
    let above = data_type(rt, &mut fields, of);
    field(rt, name, above)
}

/// Appends `count` empty pairs to others.
pub(super) fn add_empty(
    rt: &(impl Abort + AllocGlobal),
    pairs: &mut Vec<(Vec<u8>, Vec<u8>)>,
    count: usize,
) {
    for _ in 0..count {
        let pair = (Vec::new(rt.alloc()), Vec::new(rt.alloc()));
        pairs.push(pair).expect(rt, MEMORY);
    }
}

/// The number of a fault, 0 if there is none.
pub(super) fn number(made: Result<Schema, SchemaFault>) -> u8 {
    match made {
        Ok(_) => 0,
        Err(fault) => fault.number(),
    }
}
