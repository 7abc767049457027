//! The arrays of nodes and buffers that were checked and are valid.

ghost use Rattle.std.specs.Prelude.{◌≡◌, ◌++◌, IfOk, IfSome, IsTrue, MatchOption, Some, ⊤};
ghost use Rattle.std.specs.Prelude.{slice_get, [], ◌∷◌};
ghost use Rattle.arrow_data.specs.Listed.{IsNodeFit};
ghost use Rattle.arrow_layout.specs.Shared.{node_type};
ghost use Rattle.arrow_body_reader.specs.Leaf.{IsLeafNode};
ghost use Rattle.arrow_body_reader.specs.Place.{AreRangesAt, IsIndexedAt, IsLaidAt, IsTextAt};
ghost use Rattle.arrow_body_reader.specs.Place.{children_at, column_at, columns_below, head_at};
ghost use Rattle.arrow_body_reader.specs.Place.{len_at};

use crate::own_node::OwnNode;
use crate::place::{CheckedNode, NodePlace};
use arrow_data::{Array, ChildData};
use arrow_layout::form::has_own_fields;
use arrow_layout::{NodeBuffers, SharedBody};
use std::alloc::Global;

/// Makes the arrays of fields from ranges of a body, which they share.
#[derive(Drop)]
pub(crate) struct Builder<'a> {
    alloc: Global,
    body: &'a SharedBody,
    /// The arrays of the fields so far.
    pub(crate) arrays: Vec<Array>,
}

impl<'a> Builder<'a> {
    /// A builder with capacity for the arrays of that many fields, None if the allocation fails.
    pub(crate) fn new(alloc: Global, body: &'a SharedBody, count: usize) -> Option<Builder<'a>>
        ensures { IfSome result (λ b. (b.body.now ≡ body.now) × (b.arrays.items ≡ [])) }
    {
        match Vec::with_capacity(alloc, count) {
            Ok(arrays) => Some(Builder {
                alloc,
                body,
                arrays,
            }),
            Err(_) => None,
        }
    }
}

/// A builder for the fields below a field, if there is still a builder.
#[inline(always)]
pub(crate) fn builder_below<'a>(builder: &Option<Builder<'a>>, count: usize) -> Option<Builder<'a>>
    ensures { MatchOption result ⊤ (λ inner. MatchOption builder.now ⊥
        (λ b. (inner.body.now ≡ b.body.now) × (inner.arrays.items ≡ []))) }
{
    match builder {
        Some(builder) => Builder::new(builder.alloc, builder.body, count),
        None => None,
    }
}

/// The builder with the array of the place's node. None if there is none so far or none for the
/// fields below, if the node's texts or indices are invalid, or if an allocation fails.
#[inline(always)]
pub(crate) fn with_node<'a>(
    builder: Option<Builder<'a>>,
    inner: Option<Builder<'a>>,
    place: NodePlace<'_>,
    node: &OwnNode,
) -> Option<Builder<'a>>
    requires laid { IsLaidAt place }
    requires texts { IsTrue node.now.seen.texts → IsTextAt place }
    requires indices { IsTrue node.now.seen.indices → IsIndexedAt place }
    requires len { node.now.laid.len ≡ len_at place }
    requires lies { AreRangesAt place node.now.laid.ranges }
    requires building { IfSome builder (λ b. (b.body.now ≡ place.source.body.now)
        × (slice_get place.left.types.now 0 ≡ Some (node_type (head_at place) (children_at place)))
        × IsNodeFit place.source.dictionaries.entries.now (head_at place) (children_at place)) }
    requires children { IfSome inner (λ b. b.arrays.items ≡ columns_below place) }
    ensures { MatchOption result ⊤ (λ new. MatchOption builder.entry ⊥
        (λ b. (new.body.now ≡ b.body.now)
        × (new.arrays.items ≡ b.arrays.items ++ column_at place.entry ∷ []))) }
{
    let Some(builder) = builder else {
        return None;
    };
    let Some(inner) = inner else {
        return None;
    };
    if !node.seen.texts || !node.seen.indices {
        return None;
    }
    if place.is_leaf() {
        with_leaf(builder, place, &node.laid)
    } else {
        with_array(builder, inner, place, &node.laid)
    }
}

impl NodePlace<'_> {
    /// Whether the field's node has neither children nor a dictionary.
    #[inline(always)]
    fn is_leaf(self) -> bool
        ensures { IsTrue result → IsLeafNode (head_at self.entry) (children_at self.entry) }
    {
        has_own_fields(&self.field.data_type);
        self.field.dictionary.is_none() && self.form.is_leaf()
    }
}

/// The same for a node whose texts are valid, and which has neither children nor a dictionary.
#[inline(always)]
fn with_leaf<'a>(
    builder: Builder<'a>,
    place: NodePlace<'_>,
    laid: &CheckedNode,
) -> Option<Builder<'a>>
    requires leaf { IsLeafNode (head_at place) (children_at place) }
    requires laid { IsLaidAt place }
    requires text { IsTextAt place }
    requires len { laid.now.len ≡ len_at place }
    requires lies { AreRangesAt place laid.now.ranges }
    requires same { builder.body.now ≡ place.source.body.now }
    requires typed { slice_get place.left.types.now 0
        ≡ Some (node_type (head_at place) (children_at place)) }
    ensures { IfSome result (λ new. (new.body.now ≡ builder.entry.body.now)
        × (new.arrays.items ≡ builder.entry.arrays.items ++ column_at place.entry ∷ [])) }
{
    let shared = place.left.types.first().unwrap();
    let buffers = NodeBuffers {
        len: laid.len,
        body: builder.body,
        ranges: &laid.ranges[..place.own],
    };
    let Ok(array) = Array::from_leaf_parts(shared, place.form, buffers) else {
        return None;
    };
    let mut arrays = builder.arrays;
    if arrays.push(array).is_err() {
        return None;
    }
    Some(Builder {
        alloc: builder.alloc,
        body: builder.body,
        arrays,
    })
}

/// The same for a node whose texts and indices are valid.
#[inline(always)]
fn with_array<'a>(
    builder: Builder<'a>,
    inner: Builder<'a>,
    place: NodePlace<'_>,
    laid: &CheckedNode,
) -> Option<Builder<'a>>
    requires laid { IsLaidAt place }
    requires text { IsTextAt place }
    requires indexed { IsIndexedAt place }
    requires len { laid.now.len ≡ len_at place }
    requires lies { AreRangesAt place laid.now.ranges }
    requires same { builder.body.now ≡ place.source.body.now }
    requires typed { slice_get place.left.types.now 0
        ≡ Some (node_type (head_at place) (children_at place)) }
    requires fit { IsNodeFit place.source.dictionaries.entries.now
        (head_at place) (children_at place) }
    requires children { inner.arrays.items ≡ columns_below place }
    ensures { IfSome result (λ new. (new.body.now ≡ builder.entry.body.now)
        × (new.arrays.items ≡ builder.entry.arrays.items ++ column_at place.entry ∷ [])) }
{
    let shared = place.left.types.first().unwrap();
    let encoding = place.field.dictionary;
    let dictionary = place
        .source
        .dictionaries
        .copy_for(builder.alloc, encoding)
        .ok()?;
    let buffers = NodeBuffers {
        len: laid.len,
        body: builder.body,
        ranges: &laid.ranges[..place.own],
    };
    let below = ChildData {
        children: inner.arrays,
        dictionary,
    };
    let array = Array::from_shared_parts(builder.alloc, shared, buffers, below).ok()?;
    let mut arrays = builder.arrays;
    arrays.push(array).ok()?;
    Some(Builder {
        alloc: builder.alloc,
        body: builder.body,
        arrays,
    })
}
