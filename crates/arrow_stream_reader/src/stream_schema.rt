//! A stream's schema, with the fields of its dictionaries' values and the types that its columns
//! share.

ghost use Rattle.std.specs.Prelude.{◌≡◌, IfOk, option_map};
ghost use Rattle.arrow_layout.specs.Shared.{node_types};
ghost use Rattle.arrow_types.specs.Schema.{IsSchema, dictionary_fields};
ghost use Rattle.arrow_dict.specs.ValueTypes.{value_field, value_type_of};

use arrow_dict::{ValueField, ValueFields};
use arrow_layout::{SharedType, shared_types};
use arrow_types::Schema;
use std::alloc::{AllocError, Global};
use std::marker::Model;
use std::rc::Rc;

/// The schema of a stream, the types of the nodes of its fields, which the columns of all batches
/// share, and for each dictionary id a field of the dictionary's values. Contracts see the schema.
#[derive(Drop)]
pub(crate) struct StreamSchema {
    schema: Rc<Schema>,
    types: Vec<SharedType>,
    value_fields: ValueFields,
}

impl Model for StreamSchema {
    ghost use Rattle.std.specs.Prelude.{◌≡◌};
    ghost use Rattle.arrow_layout.specs.Shared.{node_types};
    ghost use Rattle.arrow_types.specs.Notes.{SchemaShape};
    ghost use Rattle.arrow_types.specs.Stored.{schema_code};
    ghost use Rattle.arrow_dict.specs.ValueTypes.{NameSame};
    ghost use Rattle.arrow_types.specs.Schema.{IsSchema, dictionary_fields};

    ghost Value = { SchemaShape };

    ghost coded = { schema_code };

    ghost view = { λ c. c.schema.value };

    ghost invariant = { λ c. IsSchema c.schema.value.fields
        × (c.types.items ≡ node_types c.schema.value.fields)
        × NameSame c.value_fields (dictionary_fields c.schema.value.fields) };
}

impl StreamSchema {
    /// The stream schema of this schema, or `AllocError` if an allocation failed.
    pub(crate) fn of(alloc: Global, schema: Schema) -> Result<StreamSchema, AllocError>
        ensures same { IfOk result (λ c. c ≡ schema) }
    {
        let value_fields = ValueFields::of(alloc, &schema)?;
        let types = shared_types(alloc, schema.fields())?;
        Ok(StreamSchema {
            schema: Rc::new(alloc, schema)?,
            types,
            value_fields,
        })
    }

    /// The schema, which batches share.
    pub(crate) fn shared(&self) -> &Rc<Schema>
        ensures same { result.now.value ≡ self.now }
        ensures known { IsSchema self.now.fields }
    {
        &self.schema
    }

    /// The types of the nodes of its fields.
    pub(crate) fn types(&self) -> &[SharedType]
        ensures same { result.now ≡ node_types self.now.fields }
    {
        &self.types
    }

    /// The field of the values of the dictionary with this id, if a field gives the id.
    pub(crate) fn value_field(&self, id: i64) -> Option<&ValueField>
        ensures field { option_map (λ f. f.now) result
            ≡ option_map value_field (value_type_of (dictionary_fields self.now.fields) id) }
        ensures known { IsSchema self.now.fields }
    {
        self.value_fields.get(id)
    }
}
