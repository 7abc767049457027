//! Which nodes fields take, and how many slots their own nodes have.

ghost use Rattle.std.specs.Prelude.{◌≡◌, ◌↔◌, IsTrue, drop, take};
ghost use Rattle.std.specs.List.{AllByRecursion};
ghost use Rattle.arrow_types.specs.View.{field_view, fields_view};
ghost use Rattle.arrow_body_reader.specs.Sound.{lengths_of};
ghost use Rattle.arrow_body_reader.specs.Taken.{below, taken_nodes};

use crate::checked_node::slots;
use crate::taken::below;
use arrow_types::{Field, FieldNode};

/// The nodes that the fields take, one for each field on each level, as far as they are there
/// (Columnar Format, "RecordBatch message": nodes are in pre-order). A dictionary-encoded field
/// takes one node, and none for the fields below it. Nothing is allocated.
pub fn nodes_of<'a>(fields: &[Field], nodes: &'a [FieldNode]) -> &'a [FieldNode]
    ensures { result.now ≡ take (taken_nodes (fields_view fields.now)) nodes.now }
{
    &nodes[..nodes.len() - past(fields, nodes).len()]
}

/// Whether the own node of each of these fields has `rows` slots, as the fields of a record batch
/// have. Nodes of fields below are not inspected. A node that is missing, or whose length is
/// negative, has 0 slots. Nothing is allocated.
pub fn check_row_count(fields: &[Field], nodes: &[FieldNode], rows: usize) -> bool
    ensures { IsTrue result
        ↔ AllByRecursion (λ n. n ≡ rows) (lengths_of (fields_view fields.now) nodes.now) }
{
    let mut rest = nodes;
    for field in fields {
        if slots(rest) != rows {
            return false;
        }
        rest = after_one(field, rest);
    }
    true
}

/// The nodes after those that the fields take, empty if there are no more.
#[cycle(past)]
fn past<'a>(fields: &[Field], nodes: &'a [FieldNode]) -> &'a [FieldNode]
    ensures { result.now ≡ drop (taken_nodes (fields_view fields.now)) nodes.now }
{
    let mut rest = nodes;
    for field in fields {
        rest = after_one(field, rest);
    }
    rest
}

/// The nodes after those that one field takes. Mostly there are no fields below it, and nothing is
/// called.
#[inline(always)]
#[cycle(past)]
fn after_one<'a>(field: &Field, nodes: &'a [FieldNode]) -> &'a [FieldNode]
    ensures { result.now
        ≡ drop (taken_nodes (below (field_view field.now).head.encoding
        (field_view field.now).children)) (drop 1 nodes.now) }
{
    let rest = without_first(nodes);
    let under = below(field);
    if under.is_empty() {
        rest
    } else {
        past(under, rest)
    }
}

/// The nodes after the first.
#[inline(always)]
fn without_first(nodes: &[FieldNode]) -> &[FieldNode]
    ensures { result.now ≡ drop 1 nodes.now }
{
    match nodes.split_first() {
        Some((_, rest)) => rest,
        None => nodes,
    }
}
