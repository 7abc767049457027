//! The types of the values of a schema's dictionaries.

ghost use Rattle.std.specs.Prelude.{◌≡◌, ◌++◌, IfOk, OnOk, [], ◌∷◌, option_map};
ghost use Rattle.arrow_types.specs.Schema.{IsSchema, dictionary_fields, dictionary_of};
ghost use Rattle.arrow_types.specs.View.{field_view, fields_view, type_view};
ghost use Rattle.arrow_dict.specs.ValueTypes.{NameSame, value_field, value_type_of};

use crate::value_field::ValueField;
use arrow_types::{DataType, Field, Schema};
use std::alloc::{AllocError, Global};
use std::collections::BTreeMap;
use std::marker::Model;

/// For each dictionary id that the fields of a schema give, a field of the type of the dictionary's
/// values, as the message of a dictionary has one (Message.fbs, table `DictionaryBatch`).
#[derive(Drop)]
pub struct ValueFields {
    fields: BTreeMap<i64, ValueField>,
}

impl Model for ValueFields {
    ghost use Rattle.std.specs.Prelude.{List};
    ghost use Rattle.arrow_types.specs.Schema.{DictionaryField};
    ghost use Rattle.arrow_dict.specs.ValueTypes.{value_types_code};

    ghost Value = { List DictionaryField };

    ghost coded = { value_types_code };

    ghost use Rattle.arrow_dict.specs.ValueFields.{named_types, AreValueFields};

    ghost view = { named_types };

    ghost invariant = { AreValueFields };
}

impl ValueFields {
    /// The fields of the values of all dictionaries that the schema's fields refer to, on every
    /// level. If several fields share an id, the first one's type is taken, which in a schema is
    /// that of all. The time grows as n log n with the number of fields, and the type of each id is
    /// copied once.
    pub fn of(alloc: Global, schema: &Schema) -> Result<ValueFields, AllocError>
        ensures names { IfOk result (λ fields. NameSame fields (dictionary_fields schema.now.fields)) }
        ensures known { IfOk result (λ _. IsSchema schema.now.fields) }
    {
        let mut found = ValueFields {
            fields: BTreeMap::new(alloc),
        };
        add_fields(alloc, schema.fields(), &mut found)?;
        Ok(found)
    }

    /// The field of the values of the id's dictionary: of their type, without a name or an
    /// encoding, and nullable. None if no field of the schema gives the id. Allocates nothing.
    pub fn get(&self, id: i64) -> Option<&ValueField>
        ensures { option_map (λ f. f.now) result
            ≡ option_map value_field (value_type_of self.now id) }
    {
        self.fields.get(&id)
    }

    /// Takes the type for the id, unless there is one already.
    fn add(&mut self, alloc: Global, id: i64, data_type: &DataType) -> Result<(), AllocError>
        ensures { OnOk result (NameSame self.new
            (self.old ++ record { id = id; value_type = type_view data_type.now } ∷ [])) }
    {
        if self.fields.contains_key(&id) {
            return Ok(());
        }
        self.fields.insert(id, ValueField::of(alloc, data_type)?)?;
        Ok(())
    }
}

/// Adds the id and type of the field itself, if it is dictionary-encoded.
fn add_own(alloc: Global, field: &Field, found: &mut ValueFields) -> Result<(), AllocError>
    ensures { OnOk result (NameSame found.new
        (found.old ++ dictionary_of (field_view field.now).head (field_view field.now).children)) }
{
    match field.dictionary {
        Some(encoding) => found.add(alloc, encoding.id, &field.data_type),
        None => Ok(()),
    }
}

/// Adds those of the fields, on all levels, in pre-order.
#[cycle(named)]
fn add_fields(alloc: Global, fields: &[Field], found: &mut ValueFields) -> Result<(), AllocError>
    ensures { OnOk result
        (NameSame found.new (found.old ++ dictionary_fields (fields_view fields.now))) }
{
    for field in fields {
        add_own(alloc, field, found)?;
        add_fields(alloc, field.children(), found)?;
    }
    Ok(())
}
