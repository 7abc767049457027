//! The number of bytes of metadata, without allocating: the position where each of its pieces ends.
//!
//! Each function takes the position from which a piece is laid out, in bytes from the first byte of
//! the metadata, and returns the first position after the piece and all that belongs to it
//! (`specs/Layouts.antt`). Positions over the greatest size of metadata are all counted as that
//! size plus one, so no sum wraps, however long names are, and no function returns an error.
ghost use Rattle.std.specs.Prelude.{◌≡◌, ◌≤◌, ◌+◌, ◌*◌};
ghost use Rattle.arrow_flatbuf.specs.Layout.{gap};
ghost use Rattle.arrow_flatbuf.specs.Nodes.{Nodes, after, after_cells, offset, table, tables, count};
ghost use Rattle.arrow_meta_reader.specs.Means.{batch_view, header_view, message_view};
ghost use Rattle.arrow_meta_writer.specs.Appends.{after_encoding};
ghost use Rattle.arrow_meta_writer.specs.Capped.{capped};
ghost use Rattle.arrow_meta_writer.specs.Layouts.{field_cells, field_nodes, batch_cells};
ghost use Rattle.arrow_meta_writer.specs.Layouts.{header_cells, message_node, metadata_cells, schema_cells};
ghost use Rattle.arrow_meta_writer.specs.Metadata.{size_of};
ghost use Rattle.arrow_types.specs.View.{field_notes, field_view, fields_view, notes_view};

use crate::metadata::{metadata_end, metadata_fields};
use crate::tables::{
    START, TOP, batch_table_end, capped, dictionary_table_end, encoding_table_end, field_table_end,
    message_table_end, offsets_end, schema_table_end, text_after,
};
use crate::types::{int_end, type_end};
use arrow_flatbuf::{Width, aligned};
use arrow_meta_reader::{Header, Message, MetadataVersion, RecordBatch};
use arrow_types::{Encoding, Field, Limits, Schema};

/// The number of bytes that [`crate::encode`] returns for a message: a multiple of 8. Does not
/// allocate.
///
/// None if it is more than 2^30, if the version is not V5, or if the body has more than 2^40 bytes.
pub fn encoded_size(message: &Message) -> Option<u64>
    ensures size { result ≡ size_of (message_view message.now) }
{
    if message.version != MetadataVersion::V5 {
        return None;
    }
    if message.body_len > Limits::BODY_CEILING {
        return None;
    }
    let size = aligned(message_end(message), Width::Eight) as u64;
    if size <= Limits::METADATA_CEILING {
        Some(size)
    } else {
        None
    }
}

/// The first position after a message.
fn message_end(message: &Message) -> usize
    ensures end { result ≡ capped (after 4 (message_node (message_view message.now))) }
{
    header_end(message_table_end(START), &message.header)
}

/// The first position after the header's table and all that belongs to it.
fn header_end(place: usize, header: &Header) -> usize
    requires { place ≤ 1073741825 }
    ensures end { result ≡ capped (after place (table (header_cells (header_view header.now)))) }
    ensures near { result ≤ 1073741825 }
{
    match header {
        Header::Schema(schema) => schema_end(place, schema),
        Header::Dictionary(_, _, batch) => batch_end(dictionary_table_end(place), batch),
        Header::Batch(batch) => batch_end(place, batch),
    }
}

/// The first position after a schema's table, its fields and its metadata.
fn schema_end(place: usize, schema: &Schema) -> usize
    requires { place ≤ 1073741825 }
    ensures end { result ≡ capped (after place (table (schema_cells schema.now))) }
    ensures near { result ≤ 1073741825 }
{
    let pairs = schema.metadata();
    let table = schema_table_end(place, metadata_fields(pairs));
    metadata_end(fields_end(table, schema.fields()), pairs)
}

/// The first position after a record batch's table and its vectors.
fn batch_end(place: usize, batch: &RecordBatch) -> usize
    requires { place ≤ 1073741825 }
    ensures end { result ≡ capped (after place (table (batch_cells (batch_view batch.now)))) }
    ensures near { result ≤ 1073741825 }
{
    let nodes = pairs_end(batch_table_end(place), batch.nodes.as_slice().len());
    pairs_end(nodes, batch.buffers.as_slice().len())
}

/// The first position after a vector of `count` pairs.
pub(crate) fn pairs_end(place: usize, count: usize) -> usize
    requires { place ≤ 1073741825 }
    ensures end { result ≡ capped (place + gap 8 (place + 4) + 4 + 16 * count) }
    ensures near { result ≤ 1073741825 }
{
    capped(aligned(place + 4, Width::Eight) + 16 * count.min(TOP))
}

/// The first position after a vector of fields and all that belongs to them.
#[cycle(sizes)]
pub(crate) fn fields_end(place: usize, fields: &[Field]) -> usize
    requires { place ≤ 1073741825 }
    ensures end { result ≡ capped (after place
        (tables (field_nodes (fields_view fields.now) (notes_view fields.now)))) }
    ensures near { result ≤ 1073741825 }
{
    let mut end = offsets_end(place, fields.len());
    for field in fields {
        let head = field_head_end(end, field);
        let below = fields_end(head, field.children());
        end = metadata_end(below, &field.metadata);
    }
    end
}

/// The first position after a field's table, its name, its type and its encoding: its children are
/// laid out from there.
pub(crate) fn field_head_end(place: usize, field: &Field) -> usize
    requires { place ≤ 1073741825 }
    ensures end { (children : Nodes) → let pairs = (field_notes field.now).pairs in
        capped (after_cells result (offset (tables children) (metadata_cells pairs)))
        ≡ capped (after place (table (field_cells (field_view field.now).head pairs children))) }
    ensures near { result ≤ 1073741825 }
{
    let name = text_after(
        field_table_end(
            place,
            field.dictionary.is_some(),
            metadata_fields(&field.metadata),
        ),
        &field.name,
    );
    encoding_end(type_end(name, &field.data_type), field.dictionary)
}

/// The first position after the tables of an encoding, if there is one.
pub(crate) fn encoding_end(place: usize, encoding: Option<Encoding>) -> usize
    requires { place ≤ 1073741825 }
    ensures end { result ≡ capped (after_encoding place encoding) }
    ensures near { result ≤ 1073741825 }
{
    match encoding {
        None => place,
        Some(encoding) => {
            let index = encoding.index;
            int_end(encoding_table_end(place), index.bits, index.signed)
        }
    }
}
