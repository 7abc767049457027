//! Schemas in the text of a vector.

use crate::values::push_bytes;
use arrow_types::{Field, Schema};
use arrowflow_text::schema_lines_of;
use std::alloc::{AllocError, Global};

/// More levels than a type has.
const LEVELS: u32 = 40;

/// Appends `schema`, a line for each column, and below the line of a column its custom metadata.
pub(crate) fn push_schema(
    alloc: Global,
    text: &mut String,
    schema: &Schema,
) -> Result<(), AllocError> {
    let lines = schema_lines_of(alloc, schema)?;
    let mut fields = Vec::new(alloc);
    gather(&mut fields, schema.fields(), 0)?;
    text.push_str("schema\n")?;
    push_metadata(text, 0, schema.metadata())?;
    for (line, (level, field)) in lines.split('\n').zip(fields.iter()) {
        push_column(text, line, *level)?;
        push_metadata(text, level.saturating_add(1), &field.metadata)?;
    }
    Ok(())
}

/// Gathers fields with those below them, each with its level.
fn gather<'a>(
    found: &mut Vec<(u32, &'a Field)>,
    fields: &'a [Field],
    level: u32,
) -> Result<(), AllocError> {
    if level < LEVELS {
        for field in fields {
            found.push((level, field))?;
            gather(found, field.children(), level + 1)?;
        }
    }
    Ok(())
}

/// Appends the line of a column of this level, which is indented by two spaces for each.
fn push_column(text: &mut String, line: &str, level: u32) -> Result<(), AllocError> {
    let mut column = line;
    text.push_str("  ")?;
    for _ in 0..level {
        text.push_str("  ")?;
        column = column.strip_prefix("  ").unwrap_or("not indented");
    }
    write!(text, "column {column}\n")
}

fn push_metadata(
    text: &mut String,
    level: u32,
    pairs: &[(Vec<u8>, Vec<u8>)],
) -> Result<(), AllocError> {
    if pairs.is_empty() {
        return Ok(());
    }
    for _ in 0..level {
        text.push_str("  ")?;
    }
    text.push_str("  metadata")?;
    for (key, value) in pairs {
        text.push(' ')?;
        push_bytes(text, key)?;
        text.push('=')?;
        push_bytes(text, value)?;
    }
    text.push('\n')
}
