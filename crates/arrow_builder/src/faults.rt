//! Why a value is not pushed, and why no array can be made of a column.

ghost use Rattle.std.specs.Prelude.{◌≡◌};
ghost use Rattle.arrow_builder.specs.Faults.{array_number, push_number};

use std::alloc::AllocError;
use std::error::Error;
use std::fmt;

/// Why a value is not pushed, in the order of the faults' numbers.
#[derive(Clone, Copy, Debug, PartialEq, Eq)]
pub enum PushFault {
    /// The value does not belong to the field: it is of another type, or a number, a byte string,
    /// an item or a part of it does not fit.
    DoesNotFit,
    /// A column, the field's own or one below it, would have more slots or more bytes of data than a
    /// column can have. The value fits.
    TooLong,
    /// An allocation failed. None of the faults before it applies.
    Memory,
}

impl PushFault {
    /// The fault's number, from 1.
    pub fn number(self) -> u8
        ensures { result ≡ push_number self }
    {
        match self {
            PushFault::DoesNotFit => 1,
            PushFault::TooLong => 2,
            PushFault::Memory => 3,
        }
    }
}

impl fmt::Display for PushFault {
    ghost use Rattle.std.specs.Prelude.{Some};
    ghost use Rattle.arrow_builder.specs.Faults.{push_words};

    ghost output = { λ f. Some (push_words f) };

    fn fmt<W: fmt::Write>(&self, f: &mut fmt::Formatter<W>) -> fmt::Result {
        match self {
            PushFault::DoesNotFit => f.write_str("a value that does not fit the field"),
            PushFault::TooLong => f.write_str("more slots or bytes than a column can have"),
            PushFault::Memory => f.write_str("out of memory"),
        }
    }
}

impl Error for PushFault {}

impl From<AllocError> for PushFault {
    ghost use Rattle.std.specs.Prelude.{◌≡◌};
    ghost use Rattle.arrow_builder.specs.declared.faults.PushFault.TheVariants.{Memory};

    ghost from_gives = { λ _ f. f ≡ Memory };

    fn from(_error: AllocError) -> PushFault {
        PushFault::Memory
    }
}

/// Why no array can be made of a column, in the order of the faults' numbers.
#[derive(Clone, Copy, Debug, PartialEq, Eq)]
pub enum ArrayFault {
    /// The dictionary that is listed for the id of a field has another type than the field's
    /// values.
    DictionaryType,
    /// An index has no value in its dictionary.
    IndexRange,
    /// An allocation failed. None of the faults before it applies.
    Memory,
}

impl ArrayFault {
    /// The fault's number, from 1.
    pub fn number(self) -> u8
        ensures { result ≡ array_number self }
    {
        match self {
            ArrayFault::DictionaryType => 1,
            ArrayFault::IndexRange => 2,
            ArrayFault::Memory => 3,
        }
    }
}

impl fmt::Display for ArrayFault {
    ghost use Rattle.std.specs.Prelude.{Some};
    ghost use Rattle.arrow_builder.specs.Faults.{array_words};

    ghost output = { λ f. Some (array_words f) };

    fn fmt<W: fmt::Write>(&self, f: &mut fmt::Formatter<W>) -> fmt::Result {
        match self {
            ArrayFault::DictionaryType => f.write_str(
                "a dictionary of another type than the field's values",
            ),
            ArrayFault::IndexRange => f.write_str("an index without a value"),
            ArrayFault::Memory => f.write_str("out of memory"),
        }
    }
}

impl Error for ArrayFault {}

impl From<AllocError> for ArrayFault {
    ghost use Rattle.std.specs.Prelude.{◌≡◌};
    ghost use Rattle.arrow_builder.specs.declared.faults.ArrayFault.TheVariants.{Memory};

    ghost from_gives = { λ _ f. f ≡ Memory };

    fn from(_error: AllocError) -> ArrayFault {
        ArrayFault::Memory
    }
}
