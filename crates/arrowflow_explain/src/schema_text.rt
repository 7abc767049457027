//! The text about a schema that is rejected.

use crate::dump::Mark;
use arrow_meta_tree::codes::decimal_scale;
use arrow_meta_tree::slots;
use arrowflow_contents::push_quoted;
use arrowflow_diagnosis::{FieldCondition, SchemaCondition, Spot, field_at, header_table};
use std::alloc::AllocError;
use std::fmt::Write;
use std::str;

/// Appends the finding in a schema, with the path to the field, and no line feed.
pub(crate) fn push_schema(
    text: &mut String,
    message: &[u8],
    fault: &SchemaCondition,
) -> Result<(), AllocError> {
    match fault {
        SchemaCondition::Endianness { number } => {
            write!(text, "endianness {number}: only Little (0) is read")
        }
        SchemaCondition::Field { path, fault } => {
            push_path(text, message, path)?;
            text.push_str("\n")?;
            push_field(text, *fault)
        }
        SchemaCondition::Nested { path, above } => push_nested(text, message, path, *above),
    }
}

/// Appends which dictionary-encoded field is below which other dictionary-encoded field.
fn push_nested(
    text: &mut String,
    message: &[u8],
    path: &[u32],
    above: usize,
) -> Result<(), AllocError> {
    push_path(text, message, path)?;
    text.push_str("\ndictionary-encoded below a dictionary-encoded field, ")?;
    push_path(text, message, path.get(..above).unwrap_or(&[]))
}

/// Appends the indices that lead to a field, with the names of the fields on the way.
pub(crate) fn push_path(text: &mut String, message: &[u8], path: &[u32]) -> Result<(), AllocError> {
    let Some(schema) = header_table(message) else {
        return Ok(());
    };
    for (level, index) in path.iter().enumerate() {
        text.push_str(if level == 0 { "column " } else { " > child " })?;
        write!(text, "{}", *index)?;
        if let Some(field) = field_at(&schema, &path[..level + 1]) {
            push_name(text, &field)?;
        }
    }
    Ok(())
}

/// Appends the name of a field, if it has a readable one.
fn push_name(text: &mut String, field: &Spot) -> Result<(), AllocError> {
    let name = field.text(slots::field::NAME).unwrap_or(&[]);
    match str::from_utf8(name) {
        Ok(name) => push_quoted(text, name),
        Err(_) => Ok(()),
    }
}

/// Appends the finding in a field.
fn push_field(text: &mut String, fault: FieldCondition) -> Result<(), AllocError> {
    match fault {
        FieldCondition::TypeNotRead { code } => {
            push_type(text, code)?;
            text.push_str(" is not among the types that are read")
        }
        FieldCondition::DictionaryKind { number } => {
            write!(text, "dictionaryKind {number}: only DenseArray (0) is read")
        }
        FieldCondition::Children { code, count } => {
            push_type(text, code)?;
            write!(text, " with {count} children: it must have ")?;
            text.push_str(children_of(code))
        }
        FieldCondition::BitWidth { bits } => {
            write!(text, "Int of bitWidth {bits}: must be 8, 16, 32 or 64")
        }
        FieldCondition::Precision { number } => {
            write!(text, "FloatingPoint of precision {number}: must be 0 to 2")
        }
        FieldCondition::Unit { code, number } => push_unit(text, code, number),
        FieldCondition::Size { code, number } => {
            push_type(text, code)?;
            let size = decimal_scale(number);
            write!(text, " of size {size}: must be 0 or more")
        }
        FieldCondition::TimeWidth { unit, bits } => push_time(text, unit, bits),
        FieldCondition::Decimal {
            bits,
            precision,
            scale,
        } => push_decimal(text, bits, precision, decimal_scale(scale)),
        FieldCondition::TypeTable { code } => push_table(text, code),
        FieldCondition::Entries => {
            text.push_str("Map: its child must be a struct of two fields without a dictionary")
        }
    }
}

/// Appends the units that a type has.
fn push_unit(text: &mut String, code: u64, number: u64) -> Result<(), AllocError> {
    push_type(text, code)?;
    write!(text, " of unit {number}: must be 0 to ")?;
    text.push_str(greatest_unit(code))
}

/// Appends that the table of a type is not there.
fn push_table(text: &mut String, code: u64) -> Result<(), AllocError> {
    push_type(text, code)?;
    text.push_str(": the type's table is required: it is absent, ")?;
    text.push_str("or does not lie inside the metadata")
}

/// Appends the widths in bits that a time in this unit has.
fn push_time(text: &mut String, unit: u64, bits: u64) -> Result<(), AllocError> {
    write!(text, "Time of unit {unit}, {bits} bits: ")?;
    text.push_str("must be 32 for units 0 and 1, 64 for 2 and 3")
}

/// Appends the decimal type that there is not, and which precisions and scales there are.
fn push_decimal(
    text: &mut String,
    bits: u64,
    precision: u64,
    scale: i32,
) -> Result<(), AllocError> {
    write!(text, "Decimal of bitWidth {bits}, ")?;
    writeln!(text, "precision {precision}, scale {scale}")?;
    text.push_str("precision: 1 to 9, 18, 38, 76 for 32, 64, 128, 256 bits; scale: -76 to 76")
}

/// The number of children of a type with this code.
fn children_of(code: u64) -> &'static str {
    match code {
        12 | 16 | 17 | 21 => "one",
        13 => "any number",
        // a type without children
        _ => "none",
    }
}

/// The number of the last unit of a type with this code.
fn greatest_unit(code: u64) -> &'static str {
    match code {
        8 => "1",
        11 => "2",
        // a Time, a Timestamp or a Duration
        _ => "3",
    }
}

/// Appends the type with this code.
fn push_type(text: &mut String, code: u64) -> Result<(), AllocError> {
    write!(text, "{} (type {code})", type_name(code))
}

/// The name of the type with this code (`Schema.fbs`, union `Type`).
fn type_name(code: u64) -> &'static str {
    match code {
        0 => "no type",
        1 => "Null",
        2 => "Int",
        3 => "FloatingPoint",
        4 => "Binary",
        5 => "Utf8",
        6 => "Bool",
        7 => "Decimal",
        8 => "Date",
        9 => "Time",
        10 => "Timestamp",
        11 => "Interval",
        12 => "List",
        13 => "Struct",
        14 => "Union",
        15 => "FixedSizeBinary",
        16 => "FixedSizeList",
        17 => "Map",
        18 => "Duration",
        19 => "LargeBinary",
        20 => "LargeUtf8",
        21 => "LargeList",
        22 => "RunEndEncoded",
        23 => "BinaryView",
        24 => "Utf8View",
        25 => "ListView",
        26 => "LargeListView",
        // a number that no type has
        _ => "unknown type",
    }
}

/// The bytes in which a fault of a schema lies, if they are there.
pub(crate) fn schema_mark(message: &[u8], fault: &SchemaCondition) -> Option<Mark> {
    let schema = header_table(message)?;
    match fault {
        SchemaCondition::Endianness { .. } => {
            Some(Mark::in_metadata(schema.field(slots::schema::ENDIANNESS)?, 2))
        }
        SchemaCondition::Field { path, fault } => field_mark(&field_at(&schema, path)?, *fault),
        SchemaCondition::Nested { path, .. } => {
            let dictionary = field_at(&schema, path)?.field(slots::field::DICTIONARY)?;
            Some(Mark::in_metadata(dictionary, 4))
        }
    }
}

/// The bytes in which a fault of a field lies, if they are there.
fn field_mark(field: &Spot, fault: FieldCondition) -> Option<Mark> {
    let (place, count) = match fault {
        FieldCondition::TypeNotRead { .. } => (field.field(slots::field::TYPE_TYPE)?, 1),
        FieldCondition::DictionaryKind { .. } => {
            let dictionary = field.table(slots::field::DICTIONARY)?;
            (
                dictionary.field(slots::dictionary_encoding::DICTIONARY_KIND)?,
                2,
            )
        }
        FieldCondition::Children { .. } | FieldCondition::Entries => {
            (field.field(slots::field::CHILDREN)?, 4)
        }
        FieldCondition::BitWidth { .. } | FieldCondition::Size { .. } => {
            (field.table(slots::field::TYPE)?.field(0)?, 4)
        }
        FieldCondition::Precision { .. } | FieldCondition::Unit { .. } => {
            (field.table(slots::field::TYPE)?.field(0)?, 2)
        }
        FieldCondition::TimeWidth { .. } => (field.table(slots::field::TYPE)?.field(1)?, 4),
        FieldCondition::Decimal { .. } | FieldCondition::TypeTable { .. } => {
            (field.field(slots::field::TYPE)?, 4)
        }
    };
    Some(Mark::in_metadata(place, count))
}
