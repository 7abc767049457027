//! Which dictionaries the fields refer to, and that each has one value type.

ghost use Rattle.std.specs.Prelude.{◌≡◌, ◌++◌, true, OnOk, IfOk, IfErr};
ghost use Rattle.arrow_types.specs.Dictionaries.{encoded_views, GivesIds};
ghost use Rattle.arrow_types.specs.Schema.{has_encoding, dictionary_fields, field_dictionaries};
ghost use Rattle.arrow_types.specs.View.{field_view, fields_view};

use crate::field::{DataType, Field};
use crate::nesting::have_encoding;
use std::alloc::{AllocError, Global};
use std::collections::BTreeMap;

/// What a dictionary-encoded field says of its dictionary.
#[derive(Clone, Copy)]
struct Encoded<'a> {
    id: i64,
    value_type: &'a DataType,
}

/// The ids of the dictionaries of the fields, each once in the order of their first fields, or
/// `None` if two fields share an id and have unequal value types. Nothing is allocated if no field
/// is dictionary-encoded.
pub(crate) fn ids_of(alloc: Global, fields: &[Field]) -> Result<Option<Vec<i64>>, AllocError>
    ensures gives { IfOk result (λ ids. GivesIds ids (dictionary_fields (fields_view fields.now))) }
    ensures encoded { IfErr result (λ _. has_encoding (fields_view fields.now) ≡ true) }
{
    if !have_encoding(fields) {
        return Ok(Some(Vec::new(alloc)));
    }
    let mut found = Vec::new(alloc);
    add_fields(fields, &mut found)?;
    ids_of_one_type(alloc, &found)
}

/// Adds the dictionary-encoded fields of a list, on all levels, in pre-order.
#[cycle(encoded)]
fn add_fields<'a>(fields: &'a [Field], found: &mut Vec<Encoded<'a>>) -> Result<(), AllocError>
    ensures { OnOk result (encoded_views found.new.items
        ≡ encoded_views found.old.items ++ dictionary_fields (fields_view fields.now)) }
{
    for field in fields {
        add_field(field, found)?;
    }
    Ok(())
}

/// Adds the field if it is dictionary-encoded, and then those below it.
#[cycle(encoded)]
fn add_field<'a>(field: &'a Field, found: &mut Vec<Encoded<'a>>) -> Result<(), AllocError>
    ensures { OnOk result (encoded_views found.new.items
        ≡ encoded_views found.old.items ++ field_dictionaries (field_view field.now)) }
{
    if let Some(encoding) = field.dictionary {
        found.push(Encoded {
            id: encoding.id,
            value_type: &field.data_type,
        })?;
    }
    add_fields(field.children(), found)
}

/// The ids of the dictionaries, each once in the order of their first fields, or `None` if two
/// fields share an id and have unequal value types. The time grows as n log n.
fn ids_of_one_type(alloc: Global, fields: &[Encoded]) -> Result<Option<Vec<i64>>, AllocError>
    ensures { IfOk result (λ ids. GivesIds ids (encoded_views fields.now)) }
{
    let mut ids = Vec::new(alloc);
    let mut places = BTreeMap::new(alloc);
    for i in 0..fields.len() {
        let field = &fields[i];
        match places.get(&field.id) {
            Some(first) => {
                let earlier = &fields[*first];
                if !earlier.value_type.same(field.value_type) {
                    return Ok(None);
                }
            }
            None => {
                places.insert(field.id, i)?;
                ids.push(field.id)?;
            }
        }
    }
    Ok(Some(ids))
}
