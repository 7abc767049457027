//! The field of a dictionary's values.

ghost use Rattle.std.specs.Prelude.{◌≡◌, IfOk, [], ◌∷◌};
ghost use Rattle.arrow_layout.specs.Shared.{node_types};
ghost use Rattle.arrow_dict.specs.ValueTypes.{value_field};
ghost use Rattle.arrow_types.specs.Field.{fields_of};
ghost use Rattle.arrow_types.specs.View.{fields_view, type_view};

use arrow_layout::{SharedType, shared_types};
use arrow_types::{DataType, Field};
use std::alloc::{AllocError, Global};
use std::marker::Model;
use std::slice;

/// A field of the type of a dictionary's values, as the message of a dictionary has one
/// (Message.fbs, table `DictionaryBatch`), and the types of the nodes that it takes, which the
/// values of all messages share. Contracts see the field.
#[derive(Drop)]
pub struct ValueField {
    field: Field,
    types: Vec<SharedType>,
}

impl Model for ValueField {
    ghost use Rattle.std.specs.Prelude.{◌≡◌, [], ◌∷◌};
    ghost use Rattle.arrow_layout.specs.Shared.{node_types};
    ghost use Rattle.arrow_types.specs.Field.{FieldShape, fields_of};
    ghost use Rattle.arrow_types.specs.Stored.{field_code};
    ghost use Rattle.arrow_types.specs.View.{field_view};

    ghost Value = { FieldShape };

    ghost coded = { field_code };

    ghost view = { λ v. field_view v.field };

    ghost invariant = { λ v. v.types.items ≡ node_types (fields_of (field_view v.field ∷ [])) };
}

impl ValueField {
    /// The field of values of the type.
    pub(crate) fn of(alloc: Global, data_type: &DataType) -> Result<ValueField, AllocError>
        ensures { IfOk result (λ f. f ≡ value_field (type_view data_type.now)) }
    {
        let field = Field {
            name: String::new(alloc),
            nullable: true,
            data_type: data_type.copy(alloc)?,
            dictionary: None,
            metadata: Vec::new(alloc),
        };
        let types = shared_types(alloc, slice::from_ref(&field))?;
        Ok(ValueField { field, types })
    }

    /// The field, as a list of one. Allocates nothing.
    pub fn fields(&self) -> &[Field]
        ensures { fields_view result.now ≡ fields_of (self.now ∷ []) }
    {
        slice::from_ref(&self.field)
    }

    /// The types of the nodes that the field takes. Allocates nothing.
    pub fn types(&self) -> &[SharedType]
        ensures { result.now ≡ node_types (fields_of (self.now ∷ [])) }
    {
        &self.types
    }
}
