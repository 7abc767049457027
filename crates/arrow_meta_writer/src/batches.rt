//! Dictionary batches and record batches as they are written (`Message.fbs`, tables
//! `DictionaryBatch` and `RecordBatch`, structs `FieldNode` and `Buffer`).
//!
//! A signed number is written as its bits. The numbers of nodes and of buffers are pairs of eight
//! bytes each, which follow their count at a multiple of 8.
ghost use Rattle.std.specs.Prelude.{◌≡◌, ◌≤◌, ◌+◌, ◌++◌, ◌∷◌, [], map, OnOk};
ghost use Rattle.arrow_flatbuf.specs.Nodes.{after, cells_place, slots, pair_bytes, pairs as pairs_node, table as table_node};
ghost use Rattle.arrow_meta_reader.specs.Means.{batch_view};
ghost use Rattle.arrow_meta_writer.specs.Appends.{HasRoom, Appends};
ghost use Rattle.arrow_meta_writer.specs.Layouts.{batch_cells, dictionary_cells, node_pair};
ghost use Rattle.arrow_meta_writer.specs.Layouts.{buffer_pair};
ghost use Rattle.arrow_meta_writer.specs.Writable.{IsLong, AreNodes, AreBuffers, IsBatch};

use crate::sizes::pairs_end;
use crate::table_slots::{RECORD_BATCH_FIELDS, batch_table, dictionary_table};
use crate::tables::{batch_table_end, dictionary_table_end};
use crate::types::bit;
use arrow_flatbuf::{FieldValue, TableWriter, Width, aligned, table_place};
use arrow_meta_reader::RecordBatch;
use arrow_types::{Buffer, FieldNode};
use std::alloc::AllocError;

/// Appends a dictionary batch.
pub(crate) fn write_dictionary(
    writer: &mut TableWriter,
    id: i64,
    delta: bool,
    batch: &RecordBatch,
) -> Result<(), AllocError>
    requires room { HasRoom writer.old
        (table_node (dictionary_cells id delta (batch_view batch.now))) }
    ensures bytes { OnOk result
        (Appends writer.old (table_node (dictionary_cells id delta (batch_view batch.now)))
        writer.new) }
    ensures typed { OnOk result (IsLong id × IsBatch (batch_view batch.now)) }
{
    let end = dictionary_table_end(writer.place());
    writer.table(&dictionary_table(
        id.cast_unsigned(),
        table_place(end, RECORD_BATCH_FIELDS),
        bit(delta),
    ))?;
    write_batch(writer, batch)?;
    Ok(())
}

/// Appends a record batch.
pub(crate) fn write_batch(writer: &mut TableWriter, batch: &RecordBatch) -> Result<(), AllocError>
    requires room { HasRoom writer.old (table_node (batch_cells (batch_view batch.now))) }
    ensures bytes { OnOk result
        (Appends writer.old (table_node (batch_cells (batch_view batch.now))) writer.new) }
    ensures typed { OnOk result (IsBatch (batch_view batch.now)) }
{
    let slots = batch_slots(writer.place(), batch);
    writer.table(&slots)?;
    write_nodes(writer, batch.nodes.as_slice())?;
    write_buffers(writer, batch.buffers.as_slice())?;
    Ok(())
}

/// The fields of a record batch's table that is laid out from `place` on.
fn batch_slots(place: usize, batch: &RecordBatch) -> [FieldValue; RECORD_BATCH_FIELDS]
    requires room { after place (table_node (batch_cells (batch_view batch.now))) ≤ 1073741824 }
    ensures slots { let cells = batch_cells (batch_view batch.now)
        in result ≡ slots (cells_place place cells) cells }
    ensures long { IsLong batch.now.length }
{
    let nodes = batch_table_end(place);
    let buffers = pairs_end(nodes, batch.nodes.as_slice().len());
    batch_table(
        batch.length.cast_unsigned(),
        aligned(nodes + 4, Width::Eight) - 4,
        aligned(buffers + 4, Width::Eight) - 4,
    )
}

/// Appends a vector of field nodes.
fn write_nodes(writer: &mut TableWriter, nodes: &[FieldNode]) -> Result<(), AllocError>
    requires room { HasRoom writer.old (pairs_node (map node_pair nodes.now)) }
    ensures bytes { OnOk result
        (Appends writer.old (pairs_node (map node_pair nodes.now)) writer.new) }
    ensures typed { OnOk result (AreNodes nodes.now) }
{
    writer.count_pairs(nodes.len())?;
    for node in nodes {
        write_node(writer, node)?;
    }
    Ok(())
}

/// Appends a field node.
fn write_node(writer: &mut TableWriter, node: &FieldNode) -> Result<(), AllocError>
    ensures bytes { OnOk result (writer.new ≡ writer.old ++ pair_bytes (node_pair node.now ∷ [])) }
    ensures typed { OnOk result (IsLong node.now.length × IsLong node.now.null_count) }
{
    writer.pair(node.length.cast_unsigned(), node.null_count.cast_unsigned())?;
    Ok(())
}

/// Appends a vector of buffers.
fn write_buffers(writer: &mut TableWriter, buffers: &[Buffer]) -> Result<(), AllocError>
    requires room { HasRoom writer.old (pairs_node (map buffer_pair buffers.now)) }
    ensures bytes { OnOk result
        (Appends writer.old (pairs_node (map buffer_pair buffers.now)) writer.new) }
    ensures typed { OnOk result (AreBuffers buffers.now) }
{
    writer.count_pairs(buffers.len())?;
    for buffer in buffers {
        write_buffer(writer, buffer)?;
    }
    Ok(())
}

/// Appends a buffer.
fn write_buffer(writer: &mut TableWriter, buffer: &Buffer) -> Result<(), AllocError>
    ensures bytes { OnOk result
        (writer.new ≡ writer.old ++ pair_bytes (buffer_pair buffer.now ∷ [])) }
    ensures typed { OnOk result (IsLong buffer.now.offset × IsLong buffer.now.length) }
{
    writer.pair(buffer.offset.cast_unsigned(), buffer.length.cast_unsigned())?;
    Ok(())
}
