//! Arrays out of the buffers of nodes.

ghost use Rattle.std.specs.Prelude.{◌≡◌, ◌≤◌, IfOk, map, length};
ghost use Rattle.std.specs.List.{AllByRecursion};
ghost use Rattle.arrow_data.specs.Column.{counts_of};
ghost use Rattle.arrow_layout.specs.Form.{node_form};
ghost use Rattle.arrow_layout.specs.Layout.{IsIndexed, IsText};
ghost use Rattle.arrow_layout.specs.ByteRanges.{IsInside, bytes_of};
ghost use Rattle.arrow_data.specs.Parts.{AreChildren, IsOfType, node_column, values_in};
ghost use Rattle.arrow_builder.specs.Buffers.{buffers_in};
ghost use Rattle.arrow_builder.specs.Built.{HaveSlots, cut_to};
ghost use Rattle.arrow_builder.specs.Finished.{AreArraysOf, AreIndexed, AreTyped, IsArrayOf};
ghost use Rattle.arrow_builder.specs.Kept.{Keeps};
ghost use Rattle.arrow_types.specs.View.{type_view};

use crate::node::Node;
use crate::slots::SlotBuffers;
use arrow_data::{Array, ChildData, DictionaryMap};
use arrow_layout::{ByteRange, NodeBuffers, SharedBody};
use arrow_types::Field;
use bytes::Bytes;
use std::alloc::{AllocError, Global};

/// The array of the first `len` slots of a column, with the dictionaries that are listed for its
/// fields. The caller ensures that each dictionary has the type of the field's values and a value
/// for each index.
#[cycle(finish)]
pub(crate) fn finish(
    alloc: Global,
    node: &Node,
    len: usize,
    dictionaries: DictionaryMap<'_>,
) -> Result<Array, AllocError>
    requires inside { len ≤ length node.now.raw }
    requires typed { AreTyped dictionaries.entries.now node.now.field }
    requires indexed { AreIndexed dictionaries.entries.now (cut_to len node.now) }
    ensures { IfOk result (λ a. IsArrayOf dictionaries.entry.entries.now (cut_to len node.now) a) }
{
    let children = finish_all(alloc, &node.children, node.shown(len), dictionaries)?;
    let dictionary = dictionaries.copy_for(alloc, node.field.dictionary)?;
    let slots = FirstSlots {
        len,
        buffers: &node.buffers,
    };
    let below = ChildData {
        children,
        dictionary,
    };
    array_of(alloc, &node.field, slots, below)
}

/// The arrays of the first `len` slots of the columns.
#[cycle(finish)]
fn finish_all(
    alloc: Global,
    nodes: &[Node],
    len: usize,
    dictionaries: DictionaryMap<'_>,
) -> Result<Vec<Array>, AllocError>
    requires inside { HaveSlots len nodes.now }
    requires typed { AllByRecursion (λ b. AreTyped dictionaries.entries.now b.field) nodes.now }
    requires indexed { AllByRecursion (λ b. AreIndexed dictionaries.entries.now (cut_to len b)) nodes.now }
    ensures { IfOk result
        (λ v. AreArraysOf dictionaries.entry.entries.now (map (cut_to len) nodes.now) v.items) }
{
    let mut arrays = Vec::with_capacity(alloc, nodes.len())?;
    for node in nodes {
        arrays.push(finish(alloc, node, len, dictionaries)?)?;
    }
    Ok(arrays)
}

/// The first slots of a node; its buffers may hold more.
#[derive(Clone, Copy)]
struct FirstSlots<'a> {
    len: usize,
    buffers: &'a SlotBuffers,
}

/// The array of the first slots of a node, made of copies of its buffers, the arrays of its children
/// and, if it is dictionary-encoded, the dictionary.
fn array_of(
    alloc: Global,
    field: &Field,
    slots: FirstSlots<'_>,
    below: ChildData,
) -> Result<Array, AllocError>
    requires few { slots.len ≤ 2147483647 }
    requires children { AreChildren (type_view field.now.data_type) field.now.dictionary
        below.children.items }
    requires dictionary { IsOfType (type_view field.now.data_type) below.dictionary }
    requires kept { Keeps (node_form (type_view field.now.data_type).tag field.now.dictionary)
        slots.len (buffers_in slots.buffers.now) (counts_of below.children.items) }
    requires text { IsText (type_view field.now.data_type).tag field.now.dictionary
        slots.len (buffers_in slots.buffers.now) }
    requires index { IsIndexed field.now.dictionary
        slots.len (buffers_in slots.buffers.now) (values_in below.dictionary) }
    ensures { IfOk result (λ a. a ≡ node_column (type_view field.now.data_type)
        field.now.dictionary slots.entry.len (buffers_in slots.entry.buffers.now)
        below.children.items (values_in below.dictionary)) }
{
    let (body, ranges) = body_of(alloc, slots.buffers)?;
    let buffers = NodeBuffers {
        len: slots.len,
        body: &body,
        ranges: &ranges,
    };
    Array::from_parts(alloc, field, buffers, below)
}

/// The bytes of the buffers one after another, and the range of each.
fn body_of(alloc: Global, buffers: &SlotBuffers) -> Result<(SharedBody, [ByteRange; 3]), AllocError>
    ensures inside { IfOk result (λ r. AllByRecursion (IsInside r.0) r.1) }
    ensures same { IfOk result (λ r. map (bytes_of r.0) r.1 ≡ buffers_in buffers.now) }
{
    let mut body = Vec::from_slice(alloc, &buffers.validity)?;
    let validity = range(0, body.len());
    body.extend_from_slice(&buffers.values)?;
    let values = range(validity.end, body.len());
    body.extend_from_slice(&buffers.bytes)?;
    let bytes = range(values.end, body.len());
    Ok((shared(alloc, body)?, [validity, values, bytes]))
}

/// The range from one offset up to another.
fn range(start: usize, end: usize) -> ByteRange
    ensures start { result.start ≡ start }
    ensures end { result.end ≡ end }
{
    ByteRange { start, end }
}

/// The bytes as a body that arrays can share.
fn shared(alloc: Global, body: Vec<u8>) -> Result<SharedBody, AllocError>
    ensures { IfOk result (λ b. b ≡ body.items) }
{
    let bytes = Bytes::from_vec(body).map_err(|_| AllocError)?;
    SharedBody::new(alloc, bytes)
}
