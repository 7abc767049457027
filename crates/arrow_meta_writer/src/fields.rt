//! Schemas and fields as they are written (`Schema.fbs`, tables `Schema` and `Field`).
//!
//! A vector of fields is its count, an offset to the table of each field, and then for each field
//! its table, its name, its type, its encoding, its children and its metadata, with all that
//! belongs to them.
ghost use Rattle.std.specs.Prelude.{◌≡◌, ◌≤◌, ◌+◌, ◌++◌, length, take, OnOk};
ghost use Rattle.arrow_flatbuf.specs.Nodes.{after, cells_place, count, slots, laid, laid_all};
ghost use Rattle.arrow_flatbuf.specs.Nodes.{tables, table as table_node};
ghost use Rattle.arrow_meta_writer.specs.Appends.{HasRoom, Appends, Begins};
ghost use Rattle.arrow_meta_writer.specs.Appends.{field_node, head_cells, children_cells};
ghost use Rattle.arrow_meta_writer.specs.Layouts.{field_nodes, schema_cells};
ghost use Rattle.arrow_meta_writer.specs.Writable.{HasItsChildren, IsField, IsHeader, AreNotedFields};
ghost use Rattle.arrow_meta_reader.specs.Means.{schema as schema_header};
ghost use Rattle.arrow_types.specs.View.{field_notes, field_view, fields_view, notes_view};

use crate::encodings::{encoding_slot, write_encoding};
use crate::metadata::{metadata_end, metadata_fields, write_metadata};
use crate::sizes::{encoding_end, field_head_end, fields_end};
use crate::table_slots::{FIELD_FIELDS, SCHEMA_FIELDS, schema_table};
use crate::tables::{field_table_end, offsets_end, schema_table_end, text_after};
use crate::types::{bit, type_code, type_end, type_fields, write_type};
use arrow_flatbuf::{FieldValue, TableWriter, Width, aligned, table_place};
use arrow_types::{Field, Schema};
use std::alloc::AllocError;

/// Appends a schema.
pub(crate) fn write_schema(writer: &mut TableWriter, schema: &Schema) -> Result<(), AllocError>
    requires room { HasRoom writer.old (table_node (schema_cells schema.now)) }
    ensures bytes { OnOk result
        (Appends writer.old (table_node (schema_cells schema.now)) writer.new) }
    ensures typed { OnOk result (IsHeader (schema_header schema.now)) }
{
    let pairs = schema.metadata();
    let slots = schema_slots(writer.place(), schema);
    writer.table(&slots[..SCHEMA_FIELDS + metadata_fields(pairs)])?;
    write_fields(writer, schema.fields())?;
    write_metadata(writer, pairs)?;
    Ok(())
}

/// The fields of a schema's table that is laid out from `place` on, and one more if it has no
/// metadata.
fn schema_slots(place: usize, schema: &Schema) -> [FieldValue; 3]
    requires room { after place (table_node (schema_cells schema.now)) ≤ 1073741824 }
    ensures slots { let cells = schema_cells schema.now
        in take (count cells) result ≡ slots (cells_place place cells) cells }
{
    let fields = schema_table_end(place, metadata_fields(schema.metadata()));
    let metadata = fields_end(fields, schema.fields());
    schema_table(aligned(fields, Width::Four), aligned(metadata, Width::Four))
}

/// Appends a vector of fields, with all that belongs to them.
#[cycle(write)]
fn write_fields(writer: &mut TableWriter, fields: &[Field]) -> Result<(), AllocError>
    requires room { HasRoom writer.old
        (tables (field_nodes (fields_view fields.now) (notes_view fields.now))) }
    ensures bytes { OnOk result (Appends writer.old
        (tables (field_nodes (fields_view fields.now) (notes_view fields.now))) writer.new) }
    ensures typed { OnOk result (AreNotedFields (fields_view fields.now) (notes_view fields.now)) }
{
    write_offsets(writer, fields)?;
    for field in fields {
        write_field_head(writer, field)?;
        write_fields(writer, field.children())?;
        write_metadata(writer, &field.metadata)?;
    }
    Ok(())
}

/// Appends the count of a vector of fields, and the offsets to their tables.
fn write_offsets(writer: &mut TableWriter, fields: &[Field]) -> Result<(), AllocError>
    requires room { HasRoom writer.old
        (tables (field_nodes (fields_view fields.now) (notes_view fields.now))) }
    ensures bytes { let nodes = field_nodes (fields_view fields.now) (notes_view fields.now) in
        OnOk result (writer.new ++ laid_all (length writer.new) nodes
        ≡ writer.old ++ laid (length writer.old) (tables nodes)) }
{
    let mut end = offsets_end(writer.place(), fields.len());
    writer.count(fields.len())?;
    for field in fields {
        writer.offset(table_place(end, field_fields(field)))?;
        let head = field_head_end(end, field);
        let below = fields_end(head, field.children());
        end = metadata_end(below, &field.metadata);
    }
    Ok(())
}

/// The number of fields of a field's table.
fn field_fields(field: &Field) -> usize
    ensures count { result ≡ count (head_cells (field_view field.now) (field_notes field.now)) }
    ensures few { result ≤ 7 }
{
    FIELD_FIELDS + metadata_fields(&field.metadata)
}

/// Appends a field's table, its name, its type and its encoding.
fn write_field_head(writer: &mut TableWriter, field: &Field) -> Result<(), AllocError>
    requires room { HasRoom writer.old
        (field_node (field_view field.now) (field_notes field.now)) }
    ensures bytes { OnOk result
        (Begins writer.old (children_cells (field_view field.now) (field_notes field.now))
        (field_node (field_view field.now) (field_notes field.now)) writer.new) }
    ensures typed { OnOk result
        (IsField (field_view field.now).head (field_view field.now).children) }
{
    let slots = field_slots(writer.place(), field);
    writer.table(&slots[..field_fields(field)])?;
    writer.text(&field.name)?;
    write_type(writer, &field.data_type)?;
    write_encoding(writer, field.dictionary)?;
    Ok(())
}

/// The fields of a field's table that is laid out from `place` on, and one more if it has no
/// metadata.
fn field_slots(place: usize, field: &Field) -> [FieldValue; 7]
    requires room { after place (field_node (field_view field.now) (field_notes field.now))
        ≤ 1073741824 }
    ensures slots { let cells = head_cells (field_view field.now) (field_notes field.now)
        in take (count cells) result ≡ slots (cells_place place cells) cells }
    ensures fits { HasItsChildren (field_view field.now).head (field_view field.now).children }
{
    let table = field_table_end(
        place,
        field.dictionary.is_some(),
        metadata_fields(&field.metadata),
    );
    let name = text_after(table, &field.name);
    let data_type = type_end(name, &field.data_type);
    let children = encoding_end(data_type, field.dictionary);
    let metadata = fields_end(children, field.children());
    [
        FieldValue::Target(aligned(table, Width::Four)),
        FieldValue::Scalar(Width::One, bit(field.nullable)),
        FieldValue::Scalar(Width::One, type_code(&field.data_type)),
        FieldValue::Target(table_place(name, type_fields(&field.data_type))),
        encoding_slot(data_type, field.dictionary),
        FieldValue::Target(aligned(children, Width::Four)),
        FieldValue::Target(aligned(metadata, Width::Four)),
    ]
}
