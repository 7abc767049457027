//! Custom metadata as they are written (`Schema.fbs`, table `KeyValue`).
//!
//! A table has the field if there are pairs, as its last one. A vector of pairs is its count, an
//! offset to the table of each pair, and then for each pair its table, its key and its value.
ghost use Rattle.std.specs.Prelude.{◌≡◌, ◌≤◌, ◌+◌, ◌++◌, length, OnOk};
ghost use Rattle.arrow_flatbuf.specs.Layout.{up};
ghost use Rattle.arrow_flatbuf.specs.Nodes.{after, after_cells, count, laid, laid_all, laid_cells};
ghost use Rattle.arrow_flatbuf.specs.Nodes.{cells_place, slots, tables, table as table_node};
ghost use Rattle.arrow_meta_writer.specs.Appends.{HasRoom, Appends};
ghost use Rattle.arrow_meta_writer.specs.Capped.{capped};
ghost use Rattle.arrow_meta_writer.specs.Layouts.{metadata_cells, pair_cells, pair_nodes};
ghost use Rattle.arrow_types.specs.Notes.{pair_view, pairs_view};

use crate::table_slots::{KEY_VALUE_FIELDS, pair_table};
use crate::tables::{bytes_after, offsets_end, pair_table_end};
use arrow_flatbuf::{FieldValue, TableWriter, Width, aligned, table_place};
use std::alloc::AllocError;

/// The number of fields of a table for its metadata: 1, or 0 if there are no pairs.
pub(crate) fn metadata_fields(pairs: &[(Vec<u8>, Vec<u8>)]) -> usize
    ensures count { result ≡ count (metadata_cells (pairs_view pairs.now)) }
    ensures few { result ≤ 1 }
{
    if pairs.is_empty() { 0 } else { 1 }
}

/// The first position after the metadata of a table, if there are any.
pub(crate) fn metadata_end(place: usize, pairs: &[(Vec<u8>, Vec<u8>)]) -> usize
    requires { place ≤ 1073741825 }
    ensures end { result ≡ capped (after_cells place (metadata_cells (pairs_view pairs.now))) }
    ensures near { result ≤ 1073741825 }
{
    if pairs.is_empty() {
        return place;
    }
    pairs_end(place, pairs)
}

/// The first position after a vector of pairs and all that belongs to them.
fn pairs_end(place: usize, pairs: &[(Vec<u8>, Vec<u8>)]) -> usize
    requires { place ≤ 1073741825 }
    ensures end { result ≡ capped (after place (tables (pair_nodes (pairs_view pairs.now)))) }
    ensures near { result ≤ 1073741825 }
{
    let mut end = offsets_end(place, pairs.len());
    for pair in pairs {
        end = pair_end(end, pair);
    }
    end
}

/// The first position after the table of a pair, its key and its value.
fn pair_end(place: usize, pair: &(Vec<u8>, Vec<u8>)) -> usize
    requires { place ≤ 1073741825 }
    ensures end { result ≡ capped (after place (table_node (pair_cells (pair_view pair.now)))) }
    ensures near { result ≤ 1073741825 }
{
    let key = bytes_after(pair_table_end(place), &pair.0);
    bytes_after(key, &pair.1)
}

/// Appends the metadata of a table, if there are any.
pub(crate) fn write_metadata(
    writer: &mut TableWriter,
    pairs: &[(Vec<u8>, Vec<u8>)],
) -> Result<(), AllocError>
    requires room { after_cells (length writer.old) (metadata_cells (pairs_view pairs.now))
        ≤ 1073741824 }
    ensures { OnOk result (writer.new ≡ writer.old
        ++ laid_cells (length writer.old) (metadata_cells (pairs_view pairs.now))) }
{
    if pairs.is_empty() {
        return Ok(());
    }
    write_pairs(writer, pairs)
}

/// Appends a vector of pairs, with all that belongs to them.
fn write_pairs(writer: &mut TableWriter, pairs: &[(Vec<u8>, Vec<u8>)]) -> Result<(), AllocError>
    requires room { HasRoom writer.old (tables (pair_nodes (pairs_view pairs.now))) }
    ensures { OnOk result
        (Appends writer.old (tables (pair_nodes (pairs_view pairs.now))) writer.new) }
{
    write_pair_offsets(writer, pairs)?;
    for pair in pairs {
        write_pair(writer, pair)?;
    }
    Ok(())
}

/// Appends the count of a vector of pairs, and the offsets to their tables.
fn write_pair_offsets(
    writer: &mut TableWriter,
    pairs: &[(Vec<u8>, Vec<u8>)],
) -> Result<(), AllocError>
    requires room { HasRoom writer.old (tables (pair_nodes (pairs_view pairs.now))) }
    ensures { OnOk result
        (writer.new ++ laid_all (length writer.new) (pair_nodes (pairs_view pairs.now))
        ≡ writer.old ++ laid (length writer.old) (tables (pair_nodes (pairs_view pairs.now)))) }
{
    let mut end = offsets_end(writer.place(), pairs.len());
    writer.count(pairs.len())?;
    for pair in pairs {
        writer.offset(table_place(end, KEY_VALUE_FIELDS))?;
        end = pair_end(end, pair);
    }
    Ok(())
}

/// Appends the table of a pair, its key and its value.
fn write_pair(writer: &mut TableWriter, pair: &(Vec<u8>, Vec<u8>)) -> Result<(), AllocError>
    requires room { HasRoom writer.old (table_node (pair_cells (pair_view pair.now))) }
    ensures { OnOk result
        (Appends writer.old (table_node (pair_cells (pair_view pair.now))) writer.new) }
{
    let slots = pair_slots(writer.place(), pair);
    writer.table(&slots)?;
    writer.bytes(&pair.0)?;
    writer.bytes(&pair.1)?;
    Ok(())
}

/// The fields of the table of a pair that is laid out from `place` on.
fn pair_slots(place: usize, pair: &(Vec<u8>, Vec<u8>)) -> [FieldValue; KEY_VALUE_FIELDS]
    requires room { after place (table_node (pair_cells (pair_view pair.now))) ≤ 1073741824 }
    ensures slots { let cells = pair_cells (pair_view pair.now)
        in result ≡ slots (cells_place place cells) cells }
{
    let key = pair_table_end(place);
    let value = bytes_after(key, &pair.0);
    pair_table(aligned(key, Width::Four), aligned(value, Width::Four))
}
