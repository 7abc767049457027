//! Drops fields that may be nested deeper than the stack allows.

ghost use Rattle.std.specs.Prelude.{◌+◌, ◌≤◌};
ghost use Rattle.arrow_types.specs.Field.{count, field_count};
ghost use Rattle.arrow_types.specs.View.{field_view, fields_view};

use crate::field::{DataType, Field};

/// Drops the fields, one after another, without recursing into their levels. Only fields for which
/// the list of pending fields cannot be extended are dropped level by level.
#[tactic(auto, using(crate::proofs::Counts::count_append))]
pub(crate) fn drop_iteratively(fields: Vec<Field>) {
    let mut pending = fields;
    while let Some(field) = pending.pop() {
        add_children(&mut pending, field);
    }
}

/// Moves the children of the field to the end of the list.
fn add_children(pending: &mut Vec<Field>, field: Field)
    ensures { count (fields_view pending.new.items)
        ≤ count (fields_view pending.old.items) + count ((field_view field).children) }
{
    let Field { data_type, .. } = field;
    match data_type {
        DataType::List(item) => add_field(pending, Box::into_inner(item)),
        DataType::LargeList(item) => add_field(pending, Box::into_inner(item)),
        DataType::FixedSizeList(item, _) => add_field(pending, Box::into_inner(item)),
        DataType::Struct(fields) => add_fields(pending, fields),
        DataType::Map(entries, _) => add_field(pending, Box::into_inner(entries)),
        _ => {}
    }
}

/// Moves the field to the end of the list, or drops it if there is no room.
#[tactic(auto, using(crate::proofs::Counts::count_pushed))]
fn add_field(pending: &mut Vec<Field>, field: Field)
    ensures { count (fields_view pending.new.items)
        ≤ count (fields_view pending.old.items) + field_count (field_view field) }
{
    let _ = pending.push(field);
}

/// Moves the fields to the end of the list, or drops them if there is no room.
#[tactic(auto, using(crate::proofs::Counts::count_appended))]
fn add_fields(pending: &mut Vec<Field>, mut fields: Vec<Field>)
    ensures { count (fields_view pending.new.items)
        ≤ count (fields_view pending.old.items) + count (fields_view fields.items) }
{
    let _ = pending.append(&mut fields);
}
