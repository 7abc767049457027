//! Which types are read and written.

ghost use Rattle.std.specs.Prelude.{◌≡◌};
ghost use Rattle.arrow_types.specs.TypeSet.{field_leaves_out, is_core, is_late, leaves_out};
ghost use Rattle.arrow_types.specs.TypeSet.{leaves_some_out};
ghost use Rattle.arrow_types.specs.View.{field_view, fields_view, type_view};

use crate::field::{DataType, Field};

/// A set of types. A reader rejects a schema that has a type outside its set, and reports it as not
/// supported; a writer does not write it.
#[derive(Clone, Copy, Debug, PartialEq, Eq)]
pub enum TypeSet {
    /// The types that were supported from the beginning: Null, Bool, Int, Binary, LargeBinary,
    /// FixedSizeBinary, Utf8, LargeUtf8, Date, Time, Timestamp, Duration, List, LargeList and
    /// Struct.
    Core,
    /// These, and FloatingPoint, Decimal, Interval, FixedSizeList and Map.
    All,
}

impl TypeSet {
    /// Whether the set leaves out the type of one of the fields, on any level. Allocates nothing.
    #[cycle(types_left)]
    pub fn leaves_some_out(self, fields: &[Field]) -> bool
        ensures { result ≡ leaves_some_out self (fields_view fields.now) }
    {
        for field in fields {
            if self.leaves_field_out(field) {
                return true;
            }
        }
        false
    }

    /// The same for one field and those below it.
    #[cycle(types_left)]
    fn leaves_field_out(self, field: &Field) -> bool
        ensures { result ≡ field_leaves_out self (field_view field.now) }
    {
        self.leaves_out(&field.data_type) || self.leaves_some_out(field.children())
    }

    /// Whether the set leaves the type itself out.
    fn leaves_out(self, data_type: &DataType) -> bool
        ensures { result ≡ leaves_out self (type_view data_type.now).tag }
    {
        is_late(data_type) && self.is_core()
    }

    /// Whether the set has only the core.
    fn is_core(self) -> bool
        ensures { result ≡ is_core self }
    {
        match self {
            TypeSet::Core => true,
            TypeSet::All => false,
        }
    }
}

/// Whether the type is outside the core.
fn is_late(data_type: &DataType) -> bool
    ensures { result ≡ is_late (type_view data_type.now).tag }
{
    matches!(
        data_type,
        DataType::FloatingPoint(_)
            | DataType::Decimal { .. }
            | DataType::Interval(_)
            | DataType::FixedSizeList(..)
            | DataType::Map(..)
    )
}
