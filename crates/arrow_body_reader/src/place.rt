//! A field's own node at its position in a batch.

ghost use Rattle.std.specs.Prelude.{◌≡◌};
ghost use Rattle.arrow_layout.specs.Form.{node_form};
ghost use Rattle.arrow_types.specs.View.{field_view};
ghost use Rattle.arrow_body_reader.specs.Taken.{own_buffers};

use crate::body_context::BodyContext;
use crate::taken::Left;
use arrow_layout::ByteRange;
use arrow_layout::form::{Form, node_form};
use arrow_types::Field;

/// A field, the nodes and buffers from its own on, and what they refer to.
#[derive(Clone, Copy)]
pub(crate) struct NodePlace<'a> {
    pub(crate) field: &'a Field,
    /// The form of its node.
    pub(crate) form: Form,
    /// How many buffers its own node has.
    pub(crate) own: usize,
    pub(crate) left: Left<'a>,
    pub(crate) source: BodyContext<'a>,
    ghost formed: { form
        ≡ node_form (field_view field.now).head.tag (field_view field.now).head.encoding },
    ghost counted: { own ≡ own_buffers (field_view field.now).head },
}

/// How many slots a node has, and where its own buffers lie. Only `NodePlace::laid` makes and tests the
/// ranges; others receive them.
#[derive(Clone, Copy)]
pub(crate) struct CheckedNode {
    pub(crate) len: usize,
    pub(crate) ranges: [ByteRange; 3],
}

impl<'a> NodePlace<'a> {
    /// The place of the next field.
    #[inline(always)]
    pub(crate) fn new(field: &'a Field, left: Left<'a>, source: BodyContext<'a>) -> NodePlace<'a>
        ensures field { result.field.now ≡ field.now }
        ensures left { result.left ≡ left.entry }
        ensures source { result.source ≡ source.entry }
    {
        let form = node_form(&field.data_type, field.dictionary);
        NodePlace {
            field,
            form,
            own: form.buffers(),
            left,
            source,
        }
    }
}
