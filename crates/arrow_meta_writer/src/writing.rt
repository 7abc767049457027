//! Messages as the bytes of their metadata, front to back (`Message.fbs`; Columnar Format,
//! "Encapsulated message format").
//!
//! Positions count in bytes from the first byte of the metadata. An offset is written before what
//! it names, so the position of that is computed first (`sizes`, `tables`), and nothing that was
//! written is changed. Each function appends a piece from the first free position on, with all that
//! belongs to it. The only error is `AllocError`, if an allocation failed.
ghost use Rattle.std.specs.Prelude.{◌≡◌, ◌≤◌, ◌<◌, ◌↔◌, length, Some, IsSome, OnOk, IfOk};
ghost use Rattle.arrow_flatbuf.specs.Nodes.{after, cells_place, slots, count, table as table_node};
ghost use Rattle.arrow_meta_reader.specs.Versions.{number_of_version};
ghost use Rattle.arrow_meta_reader.specs.Judges.{MetadataMeans};
ghost use Rattle.arrow_meta_reader.specs.Means.{header_view, message_view};
ghost use Rattle.arrow_meta_writer.specs.Aligned.{LiesAligned};
ghost use Rattle.arrow_meta_writer.specs.Appends.{HasRoom, Appends};
ghost use Rattle.arrow_meta_writer.specs.Layouts.{header_cells, message_cells, message_node, header_code};
ghost use Rattle.arrow_meta_writer.specs.Metadata.{size_of, metadata};
ghost use Rattle.arrow_meta_writer.specs.Writable.{IsHeader, Allows};
ghost use Rattle.arrow_meta_writer.specs.Written.{message_tree};
ghost use Rattle.arrow_types.specs.Limits.{LimitNumbers};
ghost use Rattle.arrow_types.specs.declared.type_set.TypeSet.{TypeSet};

use crate::batches::{write_batch, write_dictionary};
use crate::fields::write_schema;
use crate::metadata::metadata_fields;
use crate::sizes::encoded_size;
use crate::table_slots::{
    DICTIONARY_BATCH_FIELDS, MESSAGE_FIELDS, RECORD_BATCH_FIELDS, SCHEMA_FIELDS, message_table,
};
use crate::tables::{START, message_table_end};
use arrow_flatbuf::{FieldValue, TableWriter, Width, table_place};
use arrow_meta_reader::{Header, Message, MetadataVersion};
use std::alloc::{AllocError, Global};

/// The bytes of a message's metadata (Columnar Format, "Encapsulated message format"), padded with
/// zero bytes to a multiple of 8.
///
/// Condition: [`encoded_size`] returns a number for it, which is the number of the bytes. They mean
/// the message to every reader whose limits it keeps to; each number is at a multiple of its size,
/// and a 0 byte follows every name and zone. The bytes are allocated once, with their size;
/// `AllocError` if that failed. They keep their meaning with any bytes after them: the header meets
/// the condition under which [`crate::laws::written`] states this.
pub fn encode(alloc: Global, message: &Message) -> Result<Vec<u8>, AllocError>
    requires { IsSome (size_of (message_view message.now)) }
    ensures bytes { IfOk result (λ v. v.items ≡ metadata (message_view message.now)) }
    ensures lies { IfOk result
        (λ v. (types : TypeSet)
        → LiesAligned types (message_tree types (message_view message.now)) v.items) }
    ensures means { IfOk result
        (λ v. (limits : LimitNumbers)
        → MetadataMeans limits v.items (message_view message.now)
        ↔ Allows limits (message_view message.now)) }
    ensures size { IfOk result (λ v. Some (length v.items) ≡ size_of (message_view message.now)) }
    ensures typed { IfOk result (λ v. IsHeader (header_view message.now.header)) }
{
    let size = encoded_size(message).unwrap_or(0);
    encode_in(Vec::with_capacity(alloc, size as usize)?, message)
}

/// The bytes that [`encode`] returns, reusing the room of a list: if they fit in it, nothing is
/// allocated. The contents of the list are dropped, and its room too if an allocation failed.
pub fn encode_in(room: Vec<u8>, message: &Message) -> Result<Vec<u8>, AllocError>
    requires { IsSome (size_of (message_view message.now)) }
    ensures bytes { IfOk result (λ v. v.items ≡ metadata (message_view message.now)) }
    ensures lies { IfOk result
        (λ v. (types : TypeSet)
        → LiesAligned types (message_tree types (message_view message.now)) v.items) }
    ensures means { IfOk result
        (λ v. (limits : LimitNumbers)
        → MetadataMeans limits v.items (message_view message.now)
        ↔ Allows limits (message_view message.now)) }
    ensures size { IfOk result (λ v. Some (length v.items) ≡ size_of (message_view message.now)) }
    ensures typed { IfOk result (λ v. IsHeader (header_view message.now.header)) }
{
    let mut writer = TableWriter::in_room(room);
    writer.offset(table_place(START, MESSAGE_FIELDS))?;
    write_message(&mut writer, message)?;
    writer.pad(Width::Eight)?;
    Ok(writer.into_bytes())
}

/// Appends a message.
fn write_message(writer: &mut TableWriter, message: &Message) -> Result<(), AllocError>
    requires room { HasRoom writer.old (message_node (message_view message.now)) }
    requires body { message.now.body_len ≤ 1099511627776 }
    ensures bytes { OnOk result
        (Appends writer.old (message_node (message_view message.now)) writer.new) }
    ensures typed { OnOk result (IsHeader (header_view message.now.header)) }
{
    let slots = message_slots(writer.place(), message);
    writer.table(&slots)?;
    write_header(writer, &message.header)?;
    Ok(())
}

/// The fields of a message's table that is laid out from `place` on.
fn message_slots(place: usize, message: &Message) -> [FieldValue; MESSAGE_FIELDS]
    requires room { after place (message_node (message_view message.now)) ≤ 1073741824 }
    ensures slots { let cells = message_cells (message_view message.now)
        in result ≡ slots (cells_place place cells) cells }
{
    let end = message_table_end(place);
    message_table(
        version_number(message.version),
        header_code(&message.header),
        table_place(end, header_fields(&message.header)),
        message.body_len,
    )
}

/// The number of a version (`Schema.fbs`, enum `MetadataVersion`).
fn version_number(version: MetadataVersion) -> u64
    ensures number { result ≡ number_of_version version }
{
    match version {
        MetadataVersion::V4 => 3,
        MetadataVersion::V5 => 4,
    }
}

/// The code of a header (`Message.fbs`, union `MessageHeader`).
fn header_code(header: &Header) -> u64
    ensures code { result ≡ header_code (header_view header.now) }
    ensures small { result < 256 }
{
    match header {
        Header::Schema(_) => 1,
        Header::Dictionary(..) => 2,
        Header::Batch(_) => 3,
    }
}

/// The number of fields of a header's table.
fn header_fields(header: &Header) -> usize
    ensures count { result ≡ count (header_cells (header_view header.now)) }
    ensures few { result ≤ 3 }
{
    match header {
        Header::Schema(schema) => SCHEMA_FIELDS + metadata_fields(schema.metadata()),
        Header::Dictionary(..) => DICTIONARY_BATCH_FIELDS,
        Header::Batch(_) => RECORD_BATCH_FIELDS,
    }
}

/// Appends a header.
fn write_header(writer: &mut TableWriter, header: &Header) -> Result<(), AllocError>
    requires room { HasRoom writer.old (table_node (header_cells (header_view header.now))) }
    ensures bytes { OnOk result
        (Appends writer.old (table_node (header_cells (header_view header.now))) writer.new) }
    ensures typed { OnOk result (IsHeader (header_view header.now)) }
{
    match header {
        Header::Schema(schema) => write_schema(writer, schema),
        Header::Dictionary(id, delta, batch) => write_dictionary(writer, *id, *delta, batch),
        Header::Batch(batch) => write_batch(writer, batch),
    }
}
