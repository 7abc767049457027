//! Why a body is not stored.

ghost use Rattle.std.specs.Prelude.{◌≡◌};

use std::alloc::AllocError;
use std::error::Error;
use std::fmt;

/// Why columns are not stored.
#[derive(Clone, Copy, Debug, PartialEq, Eq)]
pub enum BodyStoreFault {
    /// A node has more than 2,147,483,647 slots, or an offset cannot be represented by a number of
    /// its width; or a column has 2^64 - 1 nodes or more, which do not fit into memory.
    TooLarge,
    /// An allocation failed.
    Memory,
}

/// A failed allocation becomes `Memory`.
impl From<AllocError> for BodyStoreFault {
    ghost use Rattle.arrow_body_writer.specs.declared.store_fault.BodyStoreFault.TheVariants.{Memory};

    ghost from_gives = { λ refused fault. fault ≡ Memory };

    fn from(_refused: AllocError) -> BodyStoreFault {
        BodyStoreFault::Memory
    }
}

impl fmt::Display for BodyStoreFault {
    ghost use Rattle.std.specs.Prelude.{Some};
    ghost use Rattle.arrow_body_writer.specs.Storing.{words_of};

    ghost output = { λ f. Some (words_of f) };

    fn fmt<W: fmt::Write>(&self, f: &mut fmt::Formatter<W>) -> fmt::Result {
        match self {
            BodyStoreFault::TooLarge => f.write_str("too many slots or bytes in a column"),
            BodyStoreFault::Memory => f.write_str("out of memory"),
        }
    }
}

impl Error for BodyStoreFault {}
