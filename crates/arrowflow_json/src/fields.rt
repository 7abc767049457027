//! The lines of a schema's columns.

ghost use Rattle.std.specs.Prelude.{◌≡◌, ◌++◌, None, OnOk, IfOk};
ghost use Rattle.std.specs.List.{flat_map};
ghost use Rattle.json.specs.Tree.{json_tokens};
ghost use Rattle.arrow_types.specs.View.{field_notes, field_view, fields_view, notes_view};
ghost use Rattle.arrow_types.specs.View.{type_view};
ghost use Rattle.arrow_json.specs.Lines.{line_of};
ghost use Rattle.arrowflow_json.specs.Fields.{field_json, fields_json, name_by, schema_lines};
ghost use Rattle.arrowflow_json.specs.Tokens.{Adds, head_tokens, type_tokens};

use crate::members::{write_dictionary, write_file, write_pairs, write_text};
use crate::type_texts::format_string;
use arrow_types::{DataType, Field, Schema};
use arrowflow_text::push_type_name;
use json::Writer;
use std::alloc::{AllocError, Global};

/// The lines of the columns of a schema: for each an object, and a line feed. If a file is named,
/// its name is the first member of each object.
pub fn schema_json_lines(
    alloc: Global,
    schema: &Schema,
    file: Option<&str>,
) -> Result<Vec<u8>, AllocError>
    ensures { IfOk result (λ text. text.items ≡ schema_lines (name_by file.entry) schema.now) }
{
    let mut text = Vec::new(alloc);
    for field in schema.fields() {
        text = with_line(alloc, text, field, file)?;
    }
    Ok(text)
}

/// A text with the line of a column after it.
fn with_line(
    alloc: Global,
    text: Vec<u8>,
    field: &Field,
    file: Option<&str>,
) -> Result<Vec<u8>, AllocError>
    ensures { IfOk result (λ new. new.items ≡ text.items
        ++ line_of (field_json (name_by file.entry) (field_view field.now).head
        (field_notes field.now).pairs (fields_json None (field_view field.now).children
        (field_notes field.now).below))) }
{
    let mut writer = Writer::new(text);
    write_field(alloc, &mut writer, field, file)?;
    let mut text = writer.into_inner();
    text.push(b'\n')?;
    Ok(text)
}

/// Writes a field as an object, and those below it.
#[cycle(fields)]
fn write_field(
    alloc: Global,
    writer: &mut Writer,
    field: &Field,
    file: Option<&str>,
) -> Result<(), AllocError>
    ensures { OnOk result (Adds (json_tokens (field_json (name_by file.entry)
        (field_view field.now).head (field_notes field.now).pairs (fields_json None
        (field_view field.now).children (field_notes field.now).below))) writer.old writer.new) }
{
    writer.begin_object()?;
    write_file(writer, file)?;
    write_head(alloc, writer, field)?;
    writer.key("children")?;
    writer.begin_array()?;
    write_fields(alloc, writer, field.children())?;
    writer.end_array()?;
    writer.end_object()
}

/// Writes fields, one after another.
#[cycle(fields)]
fn write_fields(alloc: Global, writer: &mut Writer, fields: &[Field]) -> Result<(), AllocError>
    ensures { OnOk result (Adds (flat_map json_tokens (fields_json None (fields_view fields.now)
        (notes_view fields.now))) writer.old writer.new) }
{
    for field in fields {
        write_field(alloc, writer, field, None)?;
    }
    Ok(())
}

/// Writes the members of a field before its children.
fn write_head(alloc: Global, writer: &mut Writer, field: &Field) -> Result<(), AllocError>
    ensures { OnOk result (Adds (head_tokens (field_view field.now).head
        (field_notes field.now).pairs) writer.old writer.new) }
{
    write_text(writer, "name", &field.name)?;
    write_type(alloc, writer, &field.data_type)?;
    writer.key("nullable")?;
    writer.boolean(field.nullable)?;
    writer.key("dictionary")?;
    write_dictionary(writer, field.dictionary)?;
    writer.key("metadata")?;
    write_pairs(alloc, writer, &field.metadata)
}

/// Writes the name and the format string of a type.
fn write_type(alloc: Global, writer: &mut Writer, data_type: &DataType) -> Result<(), AllocError>
    ensures { OnOk result (Adds (type_tokens (type_view data_type.now).tag) writer.old writer.new) }
{
    let mut name = String::new(alloc);
    push_type_name(&mut name, data_type)?;
    write_text(writer, "type", &name)?;
    let format = format_string(alloc, data_type)?;
    write_text(writer, "format", &format)
}
