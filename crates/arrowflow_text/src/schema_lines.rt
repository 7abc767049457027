//! The lines of a schema.

ghost use Rattle.std.specs.Prelude.{◌≡◌, ◌+◌, ◌≤◌, ◌++◌, OnOk, IfOk, string_bytes};
ghost use Rattle.arrow_types.specs.Field.{levels, field_levels};
ghost use Rattle.arrow_types.specs.View.{field_view, fields_view};
ghost use Rattle.arrowflow_text.specs.SchemaText.{indentation, field_line, fields_text, schema_lines};

use crate::escapes::push_escaped;
use crate::type_names::push_column_type;
use arrow_types::{Field, Schema};
use std::alloc::{AllocError, Global};

/// The text of a schema: one line per field, each with its line feed.
pub fn schema_lines_of(alloc: Global, schema: &Schema) -> Result<String, AllocError>
    ensures { IfOk result (λ s. string_bytes s ≡ schema_lines schema.now) }
{
    let mut text = String::new(alloc);
    push_fields(&mut text, schema.fields(), 0)?;
    Ok(text)
}

/// Appends the lines of the fields of a level, and of the fields below them.
#[cycle(lines)]
fn push_fields(text: &mut String, fields: &[Field], level: u32) -> Result<(), AllocError>
    requires { level + levels (fields_view fields.now) ≤ 32 }
    ensures { OnOk result (string_bytes text.new
        ≡ string_bytes text.old ++ fields_text level (fields_view fields.now)) }
{
    for field in fields {
        push_field(text, field, level)?;
    }
    Ok(())
}

/// Appends a field's line, and the lines of the fields below it.
#[cycle(lines)]
fn push_field(text: &mut String, field: &Field, level: u32) -> Result<(), AllocError>
    requires { level + field_levels (field_view field.now) ≤ 32 }
    ensures { OnOk result (string_bytes text.new
        ≡ string_bytes text.old ++ field_line level (field_view field.now).head
        ++ fields_text (level + 1) (field_view field.now).children) }
{
    push_line(text, field, level)?;
    push_fields(text, field.children(), level + 1)
}

/// Appends a field's line, without those of its children.
fn push_line(text: &mut String, field: &Field, level: u32) -> Result<(), AllocError>
    ensures { OnOk result (string_bytes text.new
        ≡ string_bytes text.old ++ field_line level (field_view field.now).head) }
{
    push_indentation(text, level)?;
    push_escaped(text, &field.name)?;
    text.push_str(": ")?;
    push_column_type(text, &field.data_type, field.dictionary)?;
    if !field.nullable {
        text.push_str(" not null")?;
    }
    text.push('\n')
}

/// Appends two spaces for each level.
#[tactic(auto, using(crate::proofs::Indented::indentation_more))]
fn push_indentation(text: &mut String, level: u32) -> Result<(), AllocError>
    ensures { OnOk result (string_bytes text.new ≡ string_bytes text.old ++ indentation level) }
{
    for at in 0..level {
        text.push_str("  ")?;
    }
    Ok(())
}
