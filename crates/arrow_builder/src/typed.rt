//! Whether dictionaries have the types of the fields that refer to them.

ghost use Rattle.std.specs.Prelude.{◌↔◌, IsTrue};
ghost use Rattle.std.specs.List.{AllByRecursion};
ghost use Rattle.arrow_builder.specs.Finished.{AreTyped, IsTyped};
ghost use Rattle.arrow_types.specs.Schema.{dictionary_fields, dictionary_of};
ghost use Rattle.arrow_types.specs.View.{field_view, fields_view};

use arrow_data::DictionaryMap;
use arrow_types::Field;

/// Whether the dictionary that is listed for the id of the field, and of each field below it, has
/// the type of that field's values. Allocates nothing.
#[cycle(typed)]
pub(crate) fn are_typed(field: &Field, dictionaries: DictionaryMap<'_>) -> bool
    ensures { IsTrue result ↔ AreTyped dictionaries.entry.entries.now (field_view field.now) }
{
    is_typed(field, dictionaries) && all_typed(field.children(), dictionaries)
}

/// The same for some fields.
#[cycle(typed)]
fn all_typed(fields: &[Field], dictionaries: DictionaryMap<'_>) -> bool
    ensures { IsTrue result ↔ AllByRecursion (IsTyped dictionaries.entry.entries.now)
        (dictionary_fields (fields_view fields.now)) }
{
    for field in fields {
        if !are_typed(field, dictionaries) {
            return false;
        }
    }
    true
}

/// The same for only the field itself.
fn is_typed(field: &Field, dictionaries: DictionaryMap<'_>) -> bool
    ensures { IsTrue result ↔ AllByRecursion (IsTyped dictionaries.entry.entries.now)
        (dictionary_of (field_view field.now).head (field_view field.now).children) }
{
    let Some(encoding) = field.dictionary else {
        return true;
    };
    match dictionaries.find(encoding.id) {
        Some(dictionary) => dictionary.data_type().same(&field.data_type),
        None => true,
    }
}
