//! Whether nodes and buffers lie in the body as the types of their fields require.

ghost use Rattle.std.specs.Prelude.{◌≡◌, ◌≤◌, ◌↔◌, IsTrue, MatchOption, length, [], ◌∷◌};
ghost use Rattle.std.specs.List.{AllByRecursion};
ghost use Rattle.arrow_layout.specs.Form.{buffers_of};
ghost use Rattle.arrow_layout.specs.Layout.{IsLaid, buffer};
ghost use Rattle.arrow_layout.specs.ByteRanges.{IsInside};
ghost use Rattle.arrow_layout.specs.Slots.{HasBits};
ghost use Rattle.arrow_types.specs.Field.{fields_of};
ghost use Rattle.arrow_types.specs.View.{field_view};
ghost use Rattle.arrow_body_reader.specs.Held.{count_of};
ghost use Rattle.arrow_body_reader.specs.Least.{IsLeast};
ghost use Rattle.arrow_body_reader.specs.Place.{AreRangesAt, IsLaidAt, buffers_in, head_at};
ghost use Rattle.arrow_body_reader.specs.Place.{len_at, lengths_below};
ghost use Rattle.arrow_body_reader.specs.Sound.{IsCount, IsCountOf, slots_at};
ghost use Rattle.arrow_body_reader.specs.Taken.{AreThere, own_buffers};

use crate::held::{BufferRanges, own_ranges};
use crate::place::{CheckedNode, NodePlace};
use arrow_bits::Bits;
use arrow_layout::form::Form;
use arrow_layout::layout::{has_bits, has_bools, has_fixed, has_lists, has_strings};
use arrow_layout::{ItemPlaces, StringBuffers};
use arrow_types::FieldNode;

/// How many slots the first node has, 0 if its length is not a valid number.
#[inline(always)]
pub(crate) fn slots(nodes: &[FieldNode]) -> usize
    ensures { result ≡ slots_at nodes.now }
{
    match nodes.first() {
        Some(node) if node.length > 0 => node.length as usize,
        Some(_) | None => 0,
    }
}

/// Whether the number of nulls is that of the bitmap, or is not given.
#[inline(always)]
fn is_count(node: FieldNode, len: usize, validity: &[u8]) -> bool
    requires slots { len ≡ count_of node.length }
    requires bits { HasBits len validity.now }
    ensures { IsTrue result ↔ IsCount node validity.now }
{
    if node.null_count == -1 {
        return true;
    }
    if validity.is_empty() {
        return node.null_count == 0;
    }
    match Bits::new(validity, len) {
        Some(bits) => node.null_count >= 0 && node.null_count as usize == bits.count_zero(),
        None => false,
    }
}

impl NodePlace<'_> {
    /// How many slots the node has and where its own buffers lie, None if they do not lie in the
    /// body as its type requires. The shortest of the fields below it has `least` slots.
    #[inline(always)]
    pub(crate) fn laid(self, least: usize) -> Option<CheckedNode>
        requires there { AreThere (fields_of (field_view self.field.now ∷ []))
            self.left.nodes.now self.left.buffers.now }
        requires least { IsLeast least (lengths_below self) }
        ensures { MatchOption result (IsLaidAt self.entry → ⊥) (λ laid. IsLaidAt self.entry
            × (laid.len ≡ len_at self.entry) × AreRangesAt self.entry laid.ranges) }
    {
        let node = self.left.nodes[0];
        if node.length < 0 || node.length > 2147483647 {
            return None;
        }
        let len = node.length as usize;
        let body = self.source.body;
        let ranges = own_ranges(body, self.left.buffers, self.own)?;
        let held = BufferRanges {
            body,
            ranges: &ranges[..self.own],
        };
        if self.check_layout(len, held, least) && is_counted(self.form, node, len, held) {
            Some(CheckedNode { len, ranges })
        } else {
            None
        }
    }

    /// Whether the buffers, and the nodes below, of which the shortest has `least` slots, hold `len`
    /// slots of the field.
    #[inline(always)]
    fn check_layout(self, len: usize, held: BufferRanges<'_>, least: usize) -> bool
        requires node { 1 ≤ length self.left.nodes.now }
        requires few { len ≤ 2147483647 }
        requires count { own_buffers (head_at self) ≡ length held.ranges.now }
        requires inside { AllByRecursion (IsInside held.body.now) held.ranges.now }
        requires least { IsLeast least (lengths_below self) }
        ensures { IsTrue result
            ↔ IsLaid (head_at self.entry).tag (head_at self.entry).encoding
            len (buffers_in held.entry) (lengths_below self.entry) }
    {
        match self.form {
            Form::Nulls => true,
            Form::Bits => has_bools(len, held.bytes(0), held.bytes(1)),
            Form::Numbers(form) => { has_fixed(len, form.width(), held.bytes(0), held.bytes(1)) }
            Form::FixedBytes(width) => {
                has_fixed(len, width as usize, held.bytes(0), held.bytes(1))
            }
            Form::Bytes(width) | Form::Texts(width) => has_strings(
                len,
                StringBuffers {
                    width,
                    validity: held.bytes(0),
                    offsets: held.bytes(1),
                    bytes: held.bytes(2),
                },
            ),
            Form::Lists(form) => has_lists(
                held.bytes(0),
                ItemPlaces {
                    form,
                    len,
                    top: slots(&self.left.nodes[1..]),
                    offsets: held.offsets(form),
                },
            ),
            Form::Structs => has_bits(len, held.bytes(0)) && len <= least,
        }
    }
}

/// Whether the number of nulls of a node of the form is that of its bitmap; for a node without
/// buffers any number is accepted.
#[inline(always)]
fn is_counted(form: Form, node: FieldNode, len: usize, held: BufferRanges<'_>) -> bool
    requires count { buffers_of form ≡ length held.ranges.now }
    requires inside { AllByRecursion (IsInside held.body.now) held.ranges.now }
    requires slots { len ≡ count_of node.length }
    requires bits { HasBits len (buffer (buffers_in held) 0) }
    ensures { IsTrue result ↔ IsCountOf form node (buffer (buffers_in held.entry) 0) }
{
    matches!(form, Form::Nulls) || is_count(node, len, held.bytes(0))
}
