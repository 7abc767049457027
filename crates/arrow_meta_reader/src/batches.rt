//! Batches, read straight from their tables.
//!
//! Nearly all messages of a stream are batches without a fault. These are made without a tree;
//! everything else, a schema, a fault or a failed allocation, is left to the tree.
ghost use Rattle.std.specs.Prelude.{◌≡◌, ◌≤◌, ℕ, List, IfOk, IfSome, Some, map};
ghost use Rattle.arrow_meta_tree.specs.Codes.{header_kind};
ghost use Rattle.arrow_meta_tree.specs.Lies.{pairs_from};
ghost use Rattle.arrow_meta_reader.specs.Means.{batch, batch_view, buffer_of, header_view, message_view};
ghost use Rattle.arrow_meta_reader.specs.Means.{node_of};
ghost use Rattle.arrow_meta_tree.specs.Slots as slots;
ghost use Rattle.arrow_meta_reader.specs.Straight.{HasNumber, HasPairs, IsHeader, MeansBare};
ghost use Rattle.arrow_meta_tree.specs.declared.codes.HeaderKind.{HeaderKind as Kind};
ghost use Rattle.arrow_meta_tree.specs.declared.codes.HeaderKind.TheVariants as headers;

use crate::message::{Header, Message, RecordBatch};
use crate::versions::metadata_version;
use arrow_flatbuf::{Root, Table, Vector};
use arrow_meta_tree::codes::{HeaderKind, header_kind};
use arrow_meta_tree::{PAIR, slots};
use arrow_types::{Buffer, FieldNode, Limits};
use std::alloc::AllocError;

/// The message if the metadata are those of a batch that has no fault, None if they are not, or if
/// an allocation fails. The batch is put into the memory of another one.
pub(crate) fn batch_message(bytes: &[u8], limits: &Limits, memory: RecordBatch) -> Option<Message>
    ensures means { IfSome result (λ m. MeansBare limits.now bytes.now (message_view m)) }
    ensures length { IfSome result (λ m. m.body_len ≤ limits.now.max_body) }
{
    let table = Root::open(bytes)?;
    let number = number_in(&table, slots::message::VERSION, 2)?;
    let version = metadata_version(number)?;
    let code = number_in(&table, slots::message::HEADER_TYPE, 1)?;
    let body_len = number_in(&table, slots::message::BODY_LENGTH, 8)?;
    if body_len > limits.max_body() {
        return None;
    }
    let Ok(Some(inner)) = table.table(slots::message::HEADER) else {
        return None;
    };
    Some(Message {
        version,
        header: batch_header(code, &inner, memory)?,
        body_len,
    })
}

/// The header that this code opens, if it is a batch.
fn batch_header(code: u64, table: &Table, memory: RecordBatch) -> Option<Header>
    ensures { IfSome result (λ h. (kind : Kind) × (header_kind code ≡ Some kind)
        × IsHeader kind table.now (header_view h)) }
{
    match header_kind(code) {
        Some(HeaderKind::RecordBatch) => Some(Header::Batch(batch_in(table, memory)?)),
        Some(HeaderKind::DictionaryBatch) => dictionary_in(table, memory),
        Some(HeaderKind::Schema) | None => None,
    }
}

/// The dictionary batch that a DictionaryBatch table describes.
fn dictionary_in(table: &Table, memory: RecordBatch) -> Option<Header>
    ensures { IfSome result (λ h. IsHeader headers.DictionaryBatch table.now (header_view h)) }
{
    let id = number_in(table, slots::dictionary_batch::ID, 8)?.cast_signed();
    let is_delta = number_in(table, slots::dictionary_batch::IS_DELTA, 1)? != 0;
    let Ok(Some(data)) = table.table(slots::dictionary_batch::DATA) else {
        return None;
    };
    Some(Header::Dictionary(id, is_delta, batch_in(&data, memory)?))
}

/// The record batch that a RecordBatch table describes, if it is not compressed.
fn batch_in(table: &Table, memory: RecordBatch) -> Option<RecordBatch>
    ensures { IfSome result
        (λ b. IsHeader headers.RecordBatch table.now (batch (batch_view b))) }
{
    if table.has(slots::record_batch::COMPRESSION) {
        return None;
    }
    let length = number_in(table, slots::record_batch::LENGTH, 8)?.cast_signed();
    let nodes = nodes_in(table, memory.nodes)?;
    let buffers = buffers_in(table, memory.buffers)?;
    Some(RecordBatch {
        length,
        nodes,
        buffers,
    })
}

/// The number of `width` bytes in a field, 0 if it is absent, None if it is not readable.
#[inline(always)]
fn number_in(table: &Table, field: u16, width: usize) -> Option<u64>
    requires low { 1 ≤ width }
    requires high { width ≤ 8 }
    ensures { IfSome result (λ n. HasNumber width table.now field n) }
{
    match table.scalar(field, width) {
        Ok(Some(number)) => Some(number),
        Ok(None) => Some(0),
        Err(_) => None,
    }
}

/// The field nodes of a RecordBatch table.
fn nodes_in(table: &Table, mut memory: Vec<FieldNode>) -> Option<Vec<FieldNode>>
    ensures { IfSome result
        (λ v. (ps : List (ℕ × ℕ)) × HasPairs table.now slots.record_batch_nodes ps
        × (v.items ≡ map node_of ps)) }
{
    match table.vector(slots::record_batch::NODES, PAIR) {
        Ok(Some(vector)) => nodes_of(&vector, memory).ok(),
        Ok(None) => {
            memory.clear();
            Some(memory)
        }
        Err(_) => None,
    }
}

/// The buffers of a RecordBatch table.
fn buffers_in(table: &Table, mut memory: Vec<Buffer>) -> Option<Vec<Buffer>>
    ensures { IfSome result
        (λ v. (ps : List (ℕ × ℕ)) × HasPairs table.now slots.record_batch_buffers ps
        × (v.items ≡ map buffer_of ps)) }
{
    match table.vector(slots::record_batch::BUFFERS, PAIR) {
        Ok(Some(vector)) => buffers_of(&vector, memory).ok(),
        Ok(None) => {
            memory.clear();
            Some(memory)
        }
        Err(_) => None,
    }
}

/// The field nodes of a vector of pairs of numbers.
fn nodes_of(vector: &Vector, memory: Vec<FieldNode>) -> Result<Vec<FieldNode>, AllocError>
    requires pairs { vector.now.size ≡ 16 }
    ensures nodes { IfOk result (λ v. v.items
        ≡ map node_of (pairs_from vector.now.bytes vector.now.place vector.now.count)) }
{
    let mut nodes = memory;
    nodes.clear();
    nodes.reserve(vector.len())?;
    for index in 0..vector.len() {
        let (length, null_count) = vector.pair(index);
        nodes.push(FieldNode {
            length: length.cast_signed(),
            null_count: null_count.cast_signed(),
        })?;
    }
    Ok(nodes)
}

/// The buffers of a vector of pairs of numbers.
fn buffers_of(vector: &Vector, memory: Vec<Buffer>) -> Result<Vec<Buffer>, AllocError>
    requires pairs { vector.now.size ≡ 16 }
    ensures buffers { IfOk result (λ v. v.items
        ≡ map buffer_of (pairs_from vector.now.bytes vector.now.place vector.now.count)) }
{
    let mut buffers = memory;
    buffers.clear();
    buffers.reserve(vector.len())?;
    for index in 0..vector.len() {
        let (offset, length) = vector.pair(index);
        buffers.push(Buffer {
            offset: offset.cast_signed(),
            length: length.cast_signed(),
        })?;
    }
    Ok(buffers)
}
