//! The nodes and buffers that fields take.

ghost use Rattle.std.specs.Prelude.{◌≡◌, ◌≤◌, length, drop};
ghost use Rattle.arrow_types.specs.View.{field_view, fields_view};
ghost use Rattle.arrow_body_reader.specs.Taken.{below};

use arrow_layout::SharedType;
use arrow_types::{Buffer, Field, FieldNode};

/// Nodes and buffers that are left to be taken, and the types of these nodes if arrays are made.
#[derive(Clone, Copy)]
pub(crate) struct Left<'a> {
    pub(crate) nodes: &'a [FieldNode],
    pub(crate) buffers: &'a [Buffer],
    pub(crate) types: &'a [SharedType],
}

/// The fields whose nodes and buffers follow those of the field.
#[inline(always)]
pub(crate) fn below(field: &Field) -> &[Field]
    ensures { fields_view result.now
        ≡ below (field_view field.now).head.encoding (field_view field.now).children }
{
    if field.dictionary.is_some() {
        &[]
    } else {
        field.data_type.children()
    }
}

/// What is left after a node with that many own buffers.
#[inline(always)]
pub(crate) fn inside<'a>(own: usize, left: Left<'a>) -> Left<'a>
    requires node { 1 ≤ length left.nodes.now }
    requires own { own ≤ length left.buffers.now }
    ensures nodes { result.nodes.now ≡ drop 1 left.entry.nodes.now }
    ensures buffers { result.buffers.now ≡ drop own left.entry.buffers.now }
    ensures types { result.types.now ≡ drop 1 left.entry.types.now }
{
    Left {
        nodes: &left.nodes[1..],
        buffers: &left.buffers[own..],
        types: without_first(left.types),
    }
}

/// The types after the first.
#[inline(always)]
fn without_first(types: &[SharedType]) -> &[SharedType]
    ensures { result.now ≡ drop 1 types.now }
{
    match types.split_first() {
        Some((_, rest)) => rest,
        None => types,
    }
}
