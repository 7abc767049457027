//! Nodes without slots.

ghost use Rattle.std.specs.Prelude.{◌≡◌, IfOk, ℕ, List, false, map};
ghost use Rattle.arrow_builder.specs.Buffers.{buffers_in};
ghost use Rattle.arrow_builder.specs.Built.{AreBelow, no_values_of};
ghost use Rattle.arrow_builder.specs.Kept.{Keeps, KeepsRanges};
ghost use Rattle.arrow_types.specs.Schema.{field_is_nested, is_nested};
ghost use Rattle.arrow_types.specs.View.{field_view, fields_view};

use crate::node::Node;
use crate::slots::SlotBuffers;
use arrow_layout::form::{Form, ListForm, OffsetWidth, has_own_fields, node_form};
use arrow_types::Field;
use std::alloc::{AllocError, Global};

/// The node of a field without values, and those below it. A dictionary-encoded field has none
/// below it.
#[cycle(begin)]
pub(crate) fn begin(alloc: Global, field: &Field) -> Result<Node, AllocError>
    requires { field_is_nested (field_view field.now) ≡ false }
    ensures { IfOk result (λ b. b ≡ no_values_of (field_view field.now)) }
{
    let children = begin_below(alloc, field)?;
    // Called for what its contract says of every type.
    has_own_fields(&field.data_type);
    let form = node_form(&field.data_type, field.dictionary);
    Ok(Node {
        field: field.copy(alloc)?,
        len: 0,
        buffers: no_slots(alloc, form)?,
        children,
    })
}

/// The nodes below that of a field: those of its child fields, none if it is dictionary-encoded.
#[cycle(begin)]
fn begin_below(alloc: Global, field: &Field) -> Result<Vec<Node>, AllocError>
    requires { field_is_nested (field_view field.now) ≡ false }
    ensures { IfOk result (λ v. AreBelow (field_view field.now).head.encoding
        (field_view field.now).children v.items) }
{
    match field.dictionary {
        Some(_) => Ok(Vec::new(alloc)),
        None => begin_all(alloc, field.children()),
    }
}

/// The nodes of the fields without values.
#[cycle(begin)]
fn begin_all(alloc: Global, fields: &[Field]) -> Result<Vec<Node>, AllocError>
    requires { is_nested (fields_view fields.now) ≡ false }
    ensures { IfOk result (λ v. v.items ≡ map (λ f. no_values_of (field_view f)) fields.now) }
{
    let mut nodes = Vec::with_capacity(alloc, fields.len())?;
    for field in fields {
        nodes.push(begin(alloc, field)?)?;
    }
    Ok(nodes)
}

/// The buffers of no slots: offsets begin with a 0.
fn no_slots(alloc: Global, form: Form) -> Result<SlotBuffers, AllocError>
    ensures { IfOk result (λ b. (counts : List ℕ) → Keeps form 0 (buffers_in b) counts) }
{
    Ok(SlotBuffers {
        validity: Vec::new(alloc),
        values: match form {
            Form::Bytes(width) | Form::Texts(width) | Form::Lists(ListForm::Offsets(width)) =>
                first_offset(alloc, width)?,
            _ => Vec::new(alloc),
        },
        bytes: Vec::new(alloc),
    })
}

/// The offset of no slots.
fn first_offset(alloc: Global, width: OffsetWidth) -> Result<Vec<u8>, AllocError>
    ensures { IfOk result (λ v. (validity : List ℕ) → KeepsRanges width 0 validity v.items) }
{
    let mut offsets = Vec::new(alloc);
    offsets.resize(width.bytes(), 0)?;
    Ok(offsets)
}
