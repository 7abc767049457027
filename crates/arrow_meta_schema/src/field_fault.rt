//! Why fields are not built.

use std::alloc::{AllocError, AllocFailed};

/// Why there are no fields.
#[derive(Clone, Copy)]
pub enum FieldFault {
    /// The number of children does not fit the type.
    Misfit,
    /// An allocation failed.
    Memory,
}

/// A failed allocation: `Memory`.
impl From<AllocError> for FieldFault {
    ghost use Rattle.std.specs.Prelude.{◌≡◌};
    ghost use Rattle.arrow_meta_schema.specs.declared.field_fault.FieldFault.TheVariants.{Memory};

    ghost from_gives = { λ _ fault. fault ≡ Memory };

    fn from(_refused: AllocError) -> FieldFault {
        FieldFault::Memory
    }
}

/// The same, for a value that was to be kept.
impl<T: Drop> From<AllocFailed<T>> for FieldFault {
    ghost use Rattle.std.specs.Prelude.{◌≡◌};
    ghost use Rattle.arrow_meta_schema.specs.declared.field_fault.FieldFault.TheVariants.{Memory};

    ghost from_gives = { λ _ fault. fault ≡ Memory };

    fn from(_refused: AllocFailed<T>) -> FieldFault {
        FieldFault::Memory
    }
}
