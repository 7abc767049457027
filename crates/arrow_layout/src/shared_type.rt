//! Types in memory that columns share.

ghost use Rattle.std.specs.Prelude.{◌≡◌, ◌++◌, IfOk, OnOk};
ghost use Rattle.arrow_types.specs.View.{field_view, fields_view, type_view};
ghost use Rattle.arrow_layout.specs.Shared.{node_type, node_types};

use arrow_types::{DataType, Encoding, Field};
use std::alloc::{AllocError, Global};
use std::marker::Model;
use std::rc::Rc;

/// The type of a field, and how it refers to a dictionary, in a form that its columns can share.
///
/// A reader makes it once for each field of a schema, at every level, so that no batch has its own
/// copy.
#[derive(Drop)]
pub struct SharedType {
    data_type: Rc<DataType>,
    encoding: Option<Encoding>,
}

impl Model for SharedType {
    ghost use Rattle.arrow_types.specs.View.{type_view};
    ghost use Rattle.arrow_layout.specs.Shared.{NodeType, node_type_code};

    ghost Value = { NodeType };

    ghost coded = { node_type_code };

    ghost view = { λ t.
        record { data_type = type_view t.data_type.value; encoding = t.encoding } };
}

impl SharedType {
    /// The shared type of the field. `AllocError` if an allocation failed.
    pub fn of(alloc: Global, field: &Field) -> Result<SharedType, AllocError>
        ensures { IfOk result
            (λ t. t ≡ node_type (field_view field.now).head (field_view field.now).children) }
    {
        Ok(SharedType {
            data_type: Rc::new(alloc, field.data_type.copy(alloc)?)?,
            encoding: field.dictionary,
        })
    }

    /// The type of the values.
    pub fn data_type(&self) -> &Rc<DataType>
        ensures { type_view result.now.value ≡ self.now.data_type }
    {
        &self.data_type
    }

    /// How slots refer to a dictionary.
    pub fn encoding(&self) -> Option<Encoding>
        ensures { result ≡ self.now.encoding }
    {
        self.encoding
    }
}

/// The types of the nodes that the fields take, one for each node, in the order of the nodes: depth
/// first, and none below a dictionary-encoded field. `AllocError` if an allocation failed.
pub fn shared_types(alloc: Global, fields: &[Field]) -> Result<Vec<SharedType>, AllocError>
    ensures { IfOk result (λ types. types.items ≡ node_types (fields_view fields.now)) }
{
    let mut types = Vec::new(alloc);
    push_types(alloc, fields, &mut types)?;
    Ok(types)
}

/// Adds the types of the nodes that the fields take.
#[cycle(types)]
fn push_types(
    alloc: Global,
    fields: &[Field],
    types: &mut Vec<SharedType>,
) -> Result<(), AllocError>
    ensures { OnOk result
        (types.new.items ≡ types.old.items ++ node_types (fields_view fields.now)) }
{
    for field in fields {
        types.push(SharedType::of(alloc, field)?)?;
        if field.dictionary.is_none() {
            push_types(alloc, field.children(), types)?;
        }
    }
    Ok(())
}
