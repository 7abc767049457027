//! Checks a field's own node, at its position in a batch.

ghost use Rattle.std.specs.Prelude.{◌≡◌, ◌↔◌, IfSome, IsTrue, MatchOption, length, take, [], ◌∷◌};
ghost use Rattle.arrow_types.specs.Field.{fields_of};
ghost use Rattle.arrow_types.specs.View.{field_view};
ghost use Rattle.arrow_body_reader.specs.Held.{AreRangesOf};
ghost use Rattle.arrow_body_reader.specs.Least.{IsLeast};
ghost use Rattle.arrow_body_reader.specs.Place.{AreRangesAt, IsIndexedAt, IsLaidAt, IsTextAt};
ghost use Rattle.arrow_body_reader.specs.Place.{head_at, len_at, lengths_below};
ghost use Rattle.arrow_body_reader.specs.Taken.{AreThere, own_buffers};

use crate::held::BufferRanges;
use crate::indexed::have_values;
use crate::place::{CheckedNode, NodePlace};
use crate::text::are_texts_in;
use arrow_layout::form::Form;

/// What was found in nodes and buffers that lie in the body as their fields require.
#[derive(Clone, Copy)]
pub(crate) struct NodeChecks {
    /// Whether the texts are UTF-8.
    pub(crate) texts: bool,
    /// Whether the indices have their values.
    pub(crate) indices: bool,
}

impl NodeChecks {
    /// What was found in both.
    #[inline(always)]
    pub(crate) fn and(self, other: NodeChecks) -> NodeChecks
        ensures texts { IsTrue result.texts ↔ IsTrue self.texts × IsTrue other.texts }
        ensures indices { IsTrue result.indices ↔ IsTrue self.indices × IsTrue other.indices }
    {
        NodeChecks {
            texts: self.texts && other.texts,
            indices: self.indices && other.indices,
        }
    }
}

/// A field's own node: how many slots it has, where its own buffers lie, and what was found in them.
#[derive(Clone, Copy)]
pub(crate) struct OwnNode {
    pub(crate) laid: CheckedNode,
    pub(crate) seen: NodeChecks,
}

impl NodePlace<'_> {
    /// Whether the valid slots of the node, if it is one of texts, are UTF-8.
    #[inline(always)]
    fn has_texts(self, len: usize, held: BufferRanges<'_>) -> bool
        requires laid { IsLaidAt self }
        requires len { len ≡ len_at self }
        requires body { held.body.now ≡ self.source.body.now }
        requires lies { AreRangesOf self.source.body.now
            (take (own_buffers (head_at self)) self.left.buffers.now) held.ranges.now }
        requires count { own_buffers (head_at self) ≡ length held.ranges.now }
        ensures { IsTrue result ↔ IsTextAt self.entry }
    {
        let Form::Texts(width) = self.form else {
            return true;
        };
        are_texts_in(width, len, held)
    }

    /// Whether the valid slots of the node, if it is dictionary-encoded, have their values.
    #[inline(always)]
    fn has_values(self, len: usize, held: BufferRanges<'_>) -> bool
        requires laid { IsLaidAt self }
        requires len { len ≡ len_at self }
        requires body { held.body.now ≡ self.source.body.now }
        requires lies { AreRangesOf self.source.body.now
            (take (own_buffers (head_at self)) self.left.buffers.now) held.ranges.now }
        requires count { own_buffers (head_at self) ≡ length held.ranges.now }
        ensures { IsTrue result ↔ IsIndexedAt self.entry }
    {
        match self.field.dictionary {
            Some(encoding) => have_values(encoding, len, held, self.source.dictionaries),
            None => true,
        }
    }

    /// Checks the node: None if it does not lie in the body as its type requires. The shortest of
    /// the fields below it has `least` slots.
    #[inline(always)]
    pub(crate) fn node(self, least: usize) -> Option<OwnNode>
        requires there { AreThere (fields_of (field_view self.field.now ∷ []))
            self.left.nodes.now self.left.buffers.now }
        requires least { IsLeast least (lengths_below self) }
        ensures seen { MatchOption result (IsLaidAt self.entry → ⊥) (λ node. IsLaidAt self.entry
            × (IsTrue node.seen.texts ↔ IsTextAt self.entry)
            × (IsTrue node.seen.indices ↔ IsIndexedAt self.entry)) }
        ensures len { IfSome result (λ node. node.laid.len ≡ len_at self.entry) }
        ensures lies { IfSome result (λ node. AreRangesAt self.entry node.laid.ranges) }
    {
        let laid = self.laid(least)?;
        let held = BufferRanges {
            body: self.source.body,
            ranges: &laid.ranges[..self.own],
        };
        let seen = NodeChecks {
            texts: self.has_texts(laid.len, held),
            indices: self.has_values(laid.len, held),
        };
        Some(OwnNode { laid, seen })
    }
}
