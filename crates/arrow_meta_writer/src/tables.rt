//! The positions where the tables of a message end, without what belongs to them (`Message.fbs`,
//! `Schema.fbs`).
//!
//! Positions are those of `sizes`: in bytes, with all above the greatest size counted as the same.
//! Each list here has the widths of a table's fields by number; the numbers and the positions in
//! them do not matter.
ghost use Rattle.std.specs.Prelude.{◌≡◌, ◌≤◌, ◌+◌, ◌*◌, ℤ, Bool, List, length, is_some};
ghost use Rattle.arrow_flatbuf.specs.Layout.{table_end, up};
ghost use Rattle.arrow_flatbuf.specs.Nodes.{Nodes, after, cells_place, text as text_node, byte_string};
ghost use Rattle.arrow_meta_reader.specs.Means.{PlainBatch, PlainMessage};
ghost use Rattle.arrow_meta_writer.specs.Capped.{capped};
ghost use Rattle.arrow_meta_writer.specs.Layouts.{encoding_cells, field_cells};
ghost use Rattle.arrow_meta_writer.specs.Layouts.{schema_cells, batch_cells, dictionary_cells};
ghost use Rattle.arrow_meta_writer.specs.Layouts.{message_cells, metadata_cells, pair_cells};
ghost use Rattle.arrow_flatbuf.specs.Nodes.{count};
ghost use Rattle.arrow_types.specs.Field.{FieldHeader};
ghost use Rattle.arrow_types.specs.Notes.{KeyValue, SchemaShape};
ghost use Rattle.arrow_types.specs.declared.field.Encoding.{Encoding};

use crate::table_slots::{
    FIELD_FIELDS, SCHEMA_FIELDS, batch_table, dictionary_table, encoding_table, message_table,
    pair_table, schema_table,
};
use arrow_flatbuf::{FieldValue, Width, aligned, bytes_end, table_end, text_end};

/// One more than the greatest number of bytes that metadata have.
pub(crate) const TOP: usize = 1_073_741_825;

/// The first position after the offset to the root's table, from which a message is laid out.
pub(crate) const START: usize = 4;

/// The first position after a message's table.
pub(crate) fn message_table_end(place: usize) -> usize
    requires { place ≤ 1073741825 }
    ensures end { (m : PlainMessage) → result ≡ capped (cells_place place (message_cells m)) }
    ensures near { result ≤ 1073741825 }
{
    table_after(place, &message_table(0, 0, 0, 0))
}

/// The first position after a schema's table, which has `metadata` fields for its metadata: 1 or
/// none.
pub(crate) fn schema_table_end(place: usize, metadata: usize) -> usize
    requires low { place ≤ 1073741825 }
    requires few { metadata ≤ 1 }
    ensures end { (s : SchemaShape) → count (metadata_cells s.pairs) ≡ metadata
        → result ≡ capped (cells_place place (schema_cells s)) }
    ensures near { result ≤ 1073741825 }
{
    let slots = schema_table(0, 0);
    table_after(place, &slots[..SCHEMA_FIELDS + metadata])
}

/// The first position after a field's table, which has an encoding or none, and `metadata` fields
/// for its metadata: 1 or none.
pub(crate) fn field_table_end(place: usize, has_encoding: bool, metadata: usize) -> usize
    requires low { place ≤ 1073741825 }
    requires few { metadata ≤ 1 }
    ensures end { (head : FieldHeader) (ps : List KeyValue) (children : Nodes)
        → is_some head.encoding ≡ has_encoding → count (metadata_cells ps) ≡ metadata
        → result ≡ capped (cells_place place (field_cells head ps children)) }
    ensures near { result ≤ 1073741825 }
{
    let byte = FieldValue::Scalar(Width::One, 0);
    let target = FieldValue::Target(0);
    let encoding = if has_encoding {
        target
    } else {
        FieldValue::Absent
    };
    let slots = [target, byte, byte, target, encoding, target, target];
    table_after(place, &slots[..FIELD_FIELDS + metadata])
}

/// The first position after the table of a pair of metadata.
pub(crate) fn pair_table_end(place: usize) -> usize
    requires { place ≤ 1073741825 }
    ensures end { (p : KeyValue) → result ≡ capped (cells_place place (pair_cells p)) }
    ensures near { result ≤ 1073741825 }
{
    table_after(place, &pair_table(0, 0))
}

/// The first position after an encoding's table.
pub(crate) fn encoding_table_end(place: usize) -> usize
    requires { place ≤ 1073741825 }
    ensures end { (e : Encoding) → result ≡ capped (cells_place place (encoding_cells e)) }
    ensures near { result ≤ 1073741825 }
{
    table_after(place, &encoding_table(0, 0, 0))
}

/// The first position after a dictionary batch's table.
pub(crate) fn dictionary_table_end(place: usize) -> usize
    requires { place ≤ 1073741825 }
    ensures end { (id : ℤ) (delta : Bool) (b : PlainBatch)
        → result ≡ capped (cells_place place (dictionary_cells id delta b)) }
    ensures near { result ≤ 1073741825 }
{
    table_after(place, &dictionary_table(0, 0, 0))
}

/// The first position after a record batch's table.
pub(crate) fn batch_table_end(place: usize) -> usize
    requires { place ≤ 1073741825 }
    ensures end { (b : PlainBatch) → result ≡ capped (cells_place place (batch_cells b)) }
    ensures near { result ≤ 1073741825 }
{
    table_after(place, &batch_table(0, 0, 0))
}

/// The first position after a table of these fields, without what belongs to it.
pub(crate) fn table_after(place: usize, slots: &[FieldValue]) -> usize
    requires low { place ≤ 1073741825 }
    requires few { length slots.now ≤ 1000 }
    ensures end { result ≡ capped (table_end place slots.now) }
    ensures near { result ≤ 1073741825 }
{
    capped(table_end(place, slots))
}

/// The first position after the offsets of a vector of `count` tables.
pub(crate) fn offsets_end(place: usize, count: usize) -> usize
    requires { place ≤ 1073741825 }
    ensures end { result ≡ capped (up 4 place + 4 + 4 * count) }
    ensures near { result ≤ 1073741825 }
{
    capped(aligned(place, Width::Four) + 4 + 4 * count.min(TOP))
}

/// The first position after a text.
pub(crate) fn text_after(place: usize, text: &str) -> usize
    requires { place ≤ 1073741825 }
    ensures end { result ≡ capped (after place (text_node text.now)) }
    ensures near { result ≤ 1073741825 }
{
    capped(text_end(place, text))
}

/// The first position after a string of these bytes.
pub(crate) fn bytes_after(place: usize, bytes: &[u8]) -> usize
    requires { place ≤ 1073741825 }
    ensures end { result ≡ capped (after place (byte_string bytes.now)) }
    ensures near { result ≤ 1073741825 }
{
    capped(bytes_end(place, bytes))
}

/// A position, or `TOP` if it is beyond that.
pub(crate) fn capped(place: usize) -> usize
    ensures end { result ≡ capped place }
    ensures near { result ≤ 1073741825 }
{
    place.min(TOP)
}
