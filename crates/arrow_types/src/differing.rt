//! Whether two fields share a dictionary and have unequal value types, determined without
//! allocating.

ghost use Rattle.std.specs.Prelude.{◌≡◌};
ghost use Rattle.arrow_types.specs.Dictionaries.{some_clash, field_clashes, head_clashes};
ghost use Rattle.arrow_types.specs.Dictionaries.{some_differ, field_differs};
ghost use Rattle.arrow_types.specs.Schema.{types_differ as two_differ, dictionary_fields};
ghost use Rattle.arrow_types.specs.View.{field_view, fields_view, type_view};

use crate::field::{DataType, Field};

/// Whether two of the fields share a dictionary and have unequal value types. The time grows with
/// the square of the number of dictionary-encoded fields, so this is for the case that the memory
/// for [`crate::dictionaries`] cannot be allocated.
pub(crate) fn types_differ(fields: &[Field]) -> bool
    ensures { result ≡ two_differ (dictionary_fields (fields_view fields.now)) }
{
    some_differ(fields, fields)
}

/// Whether one of the fields, on any level, clashes with one of all fields.
#[cycle(differing)]
fn some_differ(fields: &[Field], all: &[Field]) -> bool
    ensures { result ≡ some_differ (fields_view all.now) (fields_view fields.now) }
{
    for field in fields {
        if differs(field, all) {
            return true;
        }
    }
    false
}

/// The same for one field and those below it.
#[cycle(differing)]
fn differs(field: &Field, all: &[Field]) -> bool
    ensures { result ≡ field_differs (fields_view all.now) (field_view field.now) }
{
    if let Some(encoding) = field.dictionary
        && some_clash(all, encoding.id, &field.data_type)
    {
        return true;
    }
    some_differ(field.children(), all)
}

/// Whether one of the fields, on any level, has this dictionary and another value type.
#[cycle(clashing)]
fn some_clash(fields: &[Field], id: i64, value_type: &DataType) -> bool
    ensures { result ≡ some_clash (record { id = id; value_type = type_view value_type.now })
        (fields_view fields.now) }
{
    for field in fields {
        if clashes(field, id, value_type) {
            return true;
        }
    }
    false
}

/// The same for one field and those below it.
#[cycle(clashing)]
fn clashes(field: &Field, id: i64, value_type: &DataType) -> bool
    ensures { result ≡ field_clashes (record { id = id; value_type = type_view value_type.now })
        (field_view field.now) }
{
    is_other(field, id, value_type) || some_clash(field.children(), id, value_type)
}

/// Whether the field itself has this dictionary and another value type.
fn is_other(field: &Field, id: i64, value_type: &DataType) -> bool
    ensures { result ≡ head_clashes (record { id = id; value_type = type_view value_type.now })
        ((field_view field.now).head) ((field_view field.now).children) }
{
    match field.dictionary {
        Some(encoding) => id == encoding.id && !value_type.same(&field.data_type),
        None => false,
    }
}
