//! Whether dictionaries have the types of the fields that refer to them.

ghost use Rattle.std.specs.Prelude.{◌↔◌, IsTrue};
ghost use Rattle.arrow_types.specs.View.{field_view, fields_view};
ghost use Rattle.arrow_data.specs.Listed.{IsNodeFit};
ghost use Rattle.arrow_body_reader.specs.Sound.{AreFit};

use crate::taken::below;
use arrow_data::{Dictionary, DictionaryMap};
use arrow_types::Field;

/// Whether the dictionary that is listed first for the id of a field has the type of its values,
/// for each dictionary-encoded field on every level, and no field below such a field is
/// dictionary-encoded: the precondition of `load`. Nothing is allocated.
pub fn are_fit(fields: &[Field], dictionaries: &[(i64, Dictionary)]) -> bool
    ensures { IsTrue result ↔ AreFit dictionaries.now (fields_view fields.now) }
{
    all_fit(fields, DictionaryMap::new(dictionaries))
}

/// The same, if it is known whether the ids rise.
#[cycle(fit)]
fn all_fit(fields: &[Field], dictionaries: DictionaryMap<'_>) -> bool
    ensures { IsTrue result ↔ AreFit dictionaries.entry.entries.now (fields_view fields.now) }
{
    for field in fields {
        if !is_node_fit(field, dictionaries) {
            return false;
        }
        if !all_below_fit(below(field), dictionaries) {
            return false;
        }
    }
    true
}

/// The same for the fields below a field. Mostly there are none; then nothing is called.
#[inline(always)]
#[cycle(fit)]
fn all_below_fit(fields: &[Field], dictionaries: DictionaryMap<'_>) -> bool
    ensures { IsTrue result ↔ AreFit dictionaries.entry.entries.now (fields_view fields.now) }
{
    fields.is_empty() || all_fit(fields, dictionaries)
}

/// The same for only the field itself.
#[inline(always)]
fn is_node_fit(field: &Field, dictionaries: DictionaryMap<'_>) -> bool
    ensures { IsTrue result
        ↔ IsNodeFit dictionaries.entry.entries.now (field_view field.now).head
        (field_view field.now).children }
{
    let Some(encoding) = field.dictionary else {
        return true;
    };
    if field.data_type.has_encoding_below() {
        return false;
    }
    match dictionaries.find(encoding.id) {
        Some(dictionary) => dictionary.data_type().same(&field.data_type),
        None => true,
    }
}
