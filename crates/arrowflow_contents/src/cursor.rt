//! Which nodes and buffers of a batch belong to a field: in pre-order, depth first (Columnar
//! Format, "RecordBatch message").

use arrow_layout::form::node_form;
use arrow_types::Field;
use std::alloc::Global;
use std::slice;

/// More than the greatest number of fields of a schema.
const FIELDS: u32 = 65_537;

/// Where the nodes and the buffers of the first field begin.
pub(crate) const START: Cursor = Cursor { node: 0, buffer: 0 };

/// Where the nodes and the buffers of a field begin.
#[derive(Clone, Copy)]
pub(crate) struct Cursor {
    pub(crate) node: usize,
    pub(crate) buffer: usize,
}

/// The fields below a field whose nodes follow its own: none for a dictionary-encoded field.
pub(crate) fn children_of(field: &Field) -> &[Field] {
    match field.dictionary {
        Some(_) => &[],
        None => field.children(),
    }
}

/// Where the nodes and buffers of the children of a field begin.
pub(crate) fn inside(field: &Field, cursor: Cursor) -> Cursor {
    let own = node_form(&field.data_type, field.dictionary).buffers();
    Cursor {
        node: cursor.node.saturating_add(1),
        buffer: cursor.buffer.saturating_add(own),
    }
}

/// Where the nodes and buffers after those of a field begin; `None` if an allocation failed.
pub(crate) fn after(alloc: Global, field: &Field, start: Cursor) -> Option<Cursor> {
    let mut waiting = Vec::new(alloc);
    waiting.push(slice::from_ref(field)).ok()?;
    let mut cursor = start;
    for _ in 0..FIELDS {
        let Some(fields) = waiting.pop() else {
            return Some(cursor);
        };
        cursor = over_level(fields, cursor, &mut waiting)?;
    }
    None
}

/// Advances past the fields' own nodes and buffers, and pushes the fields below onto `waiting`.
fn over_level<'f>(
    fields: &'f [Field],
    start: Cursor,
    waiting: &mut Vec<&'f [Field]>,
) -> Option<Cursor> {
    let mut cursor = start;
    for field in fields {
        cursor = inside(field, cursor);
        let children = children_of(field);
        if !children.is_empty() {
            waiting.push(children).ok()?;
        }
    }
    Some(cursor)
}
