//! The number of levels and of fields.

ghost use Rattle.std.specs.Prelude.{◌≡◌, ◌≤◌, ◌↔◌, IsTrue};
ghost use Rattle.arrow_types.specs.Field.{levels, field_levels, count, field_count};
ghost use Rattle.arrow_types.specs.Room.{left_of};
ghost use Rattle.arrow_types.specs.View.{field_view, fields_view};

use crate::field::Field;

/// Whether the fields have at most `most` levels. No level below that is visited, however deep they
/// are.
#[cycle(levels)]
pub(crate) fn have_levels(fields: &[Field], most: u32) -> bool
    ensures { IsTrue result ↔ (levels (fields_view fields.now) ≤ most) }
{
    for field in fields {
        if !has_levels(field, most) {
            return false;
        }
    }
    true
}

/// Whether the field has at most `most` levels, including its own.
#[cycle(levels)]
fn has_levels(field: &Field, most: u32) -> bool
    ensures { IsTrue result ↔ (field_levels (field_view field.now) ≤ most) }
{
    if most == 0 {
        return false;
    }
    have_levels(field.children(), most - 1)
}

/// The rest of `most` after the fields on all levels are counted, `None` if there are more.
#[cycle(counting)]
pub(crate) fn after_fields(fields: &[Field], most: u32) -> Option<u32>
    ensures { result ≡ left_of most (count (fields_view fields.now)) }
{
    let mut left = most;
    for field in fields {
        left = after_field(field, left)?;
    }
    Some(left)
}

/// The rest of `most` after the field and all below it are counted, `None` if there are more.
#[cycle(counting)]
fn after_field(field: &Field, most: u32) -> Option<u32>
    ensures { result ≡ left_of most (field_count (field_view field.now)) }
{
    let most = most.checked_sub(1)?;
    after_fields(field.children(), most)
}
