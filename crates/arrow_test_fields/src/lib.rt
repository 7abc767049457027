//! Makes fields from text, for tests of several crates: a word for each node that they take, with
//! those below a field after it, as in `list struct[2] int8! by:7:uint8 utf8~a`: an int8 that is
//! declared not nullable, and texts with a pair of the key `a`, encoded by dictionary 7. Fields
//! have no names.
//!
//! Each call returns `None` if a word is none of these, or an allocation fails.
#![tactic(auto)]

use arrow_types::{
    BitWidth, DataType, DateUnit, DecimalWidth, Encoding, Field, IndexType, IntervalUnit,
    Precision, Schema, TimeUnit,
};
use std::alloc::Global;

/// The fields of these words.
pub fn fields_of(alloc: Global, words: &str) -> Option<Vec<Field>> {
    let mut fields = Vec::new(alloc);
    if words.is_empty() {
        return Some(fields);
    }
    for word in words.rsplit(' ') {
        let field = field_of(alloc, word, &mut fields)?;
        fields.push(field).ok()?;
    }
    fields.reverse();
    Some(fields)
}

/// The schema of the fields of these words.
pub fn schema_of(alloc: Global, words: &str) -> Option<Schema> {
    Schema::new(alloc, fields_of(alloc, words)?).ok()
}

/// The field of a word, which takes its children from the end of the fields after it.
fn field_of(alloc: Global, word: &str, after: &mut Vec<Field>) -> Option<Field> {
    match word.strip_prefix("by:") {
        Some(words) => Some(after.pop()?.with_dictionary(encoding(words)?)),
        None => plain(alloc, word, after),
    }
}

fn plain(alloc: Global, word: &str, after: &mut Vec<Field>) -> Option<Field> {
    let (word, key) = word.split_once('~').unwrap_or((word, ""));
    let required = word.strip_suffix('!');
    let data_type = data_type(alloc, required.unwrap_or(word), after)?;
    let field = Field::new(alloc, String::new(alloc), data_type, required.is_none());
    Some(field.with_metadata(noted(alloc, key)?))
}

/// A pair of this key, and none if it is empty.
fn noted(alloc: Global, key: &str) -> Option<Vec<(Vec<u8>, Vec<u8>)>> {
    let mut pairs = Vec::new(alloc);
    if !key.is_empty() {
        let key = Vec::from_slice(alloc, key.as_bytes()).ok()?;
        pairs.push((key, Vec::new(alloc))).ok()?;
    }
    Some(pairs)
}

/// The encoding of an id and the type of its indices, optionally followed by a word for an ordered
/// dictionary.
fn encoding(words: &str) -> Option<Encoding> {
    let (id, index) = words.split_once(':')?;
    let plain = index.strip_suffix(":ordered");
    Some(Encoding {
        id: id.parse::<i64>().ok()?,
        index: integer(plain.unwrap_or(index))?,
        ordered: plain.is_some(),
    })
}

/// The type of a word, as `arrowflow schema` prints it.
fn data_type(alloc: Global, word: &str, after: &mut Vec<Field>) -> Option<DataType> {
    let (name, rest) = word.split_once('[').unwrap_or((word, ""));
    let unit = rest.strip_suffix(']').unwrap_or("");
    Some(match name {
        "null" => DataType::Null,
        "bool" => DataType::Bool,
        "binary" => DataType::Binary,
        "large_binary" => DataType::LargeBinary,
        "fixed_size_binary" => DataType::FixedSizeBinary(count(unit)?),
        "halffloat" => DataType::FloatingPoint(Precision::Half),
        "float" => DataType::FloatingPoint(Precision::Single),
        "double" => DataType::FloatingPoint(Precision::Double),
        "decimal" => decimal(unit)?,
        "utf8" => DataType::Utf8,
        "large_utf8" => DataType::LargeUtf8,
        "date" if unit == "day" => DataType::Date(DateUnit::Day),
        "date" => DataType::Date(DateUnit::Millisecond),
        "time" => DataType::Time(time_unit(unit)?),
        "timestamp" => DataType::Timestamp(time_unit(unit)?, None),
        "duration" => DataType::Duration(time_unit(unit)?),
        "interval" => DataType::Interval(interval_unit(unit)?),
        "list" => DataType::List(item(alloc, after)?),
        "large_list" => DataType::LargeList(item(alloc, after)?),
        "fixed_size_list" => DataType::FixedSizeList(item(alloc, after)?, count(unit)?),
        "struct" => DataType::Struct(parts(alloc, count(unit)?, after)?),
        _ => {
            let IndexType { bits, signed } = integer(name)?;
            DataType::Int { bits, signed }
        }
    })
}

/// A width in bits, a precision and a scale, with colons between them.
fn decimal(words: &str) -> Option<DataType> {
    let (width, digits) = words.split_once(':')?;
    let (precision, scale) = digits.split_once(':')?;
    let width = match width {
        "32" => DecimalWidth::ThirtyTwo,
        "64" => DecimalWidth::SixtyFour,
        "128" => DecimalWidth::OneHundredTwentyEight,
        "256" => DecimalWidth::TwoHundredFiftySix,
        _ => return None,
    };
    Some(DataType::Decimal {
        width,
        precision: precision.parse::<u8>().ok()?,
        scale: scale.parse::<i8>().ok()?,
    })
}

fn count(word: &str) -> Option<u32> {
    word.parse::<u32>().ok()
}

fn integer(word: &str) -> Option<IndexType> {
    let plain = word.strip_prefix('u');
    let bits = match plain.unwrap_or(word) {
        "int8" => BitWidth::Eight,
        "int16" => BitWidth::Sixteen,
        "int32" => BitWidth::ThirtyTwo,
        "int64" => BitWidth::SixtyFour,
        _ => return None,
    };
    Some(IndexType {
        bits,
        signed: plain.is_none(),
    })
}

fn time_unit(word: &str) -> Option<TimeUnit> {
    match word {
        "s" => Some(TimeUnit::Second),
        "ms" => Some(TimeUnit::Millisecond),
        "us" => Some(TimeUnit::Microsecond),
        "ns" => Some(TimeUnit::Nanosecond),
        _ => None,
    }
}

fn interval_unit(word: &str) -> Option<IntervalUnit> {
    match word {
        "year_month" => Some(IntervalUnit::YearMonth),
        "day_time" => Some(IntervalUnit::DayTime),
        "month_day_nano" => Some(IntervalUnit::MonthDayNano),
        _ => None,
    }
}

fn item(alloc: Global, after: &mut Vec<Field>) -> Option<Box<Field>> {
    Box::new(alloc, after.pop()?).ok()
}

fn parts(alloc: Global, count: u32, after: &mut Vec<Field>) -> Option<Vec<Field>> {
    let mut parts = Vec::new(alloc);
    for _ in 0..count {
        parts.push(after.pop()?).ok()?;
    }
    Some(parts)
}
