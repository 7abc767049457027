//! Why fields make no schema.

ghost use Rattle.std.specs.Prelude.{◌≡◌};

use std::error::Error;
use std::fmt;

/// Why fields make no schema, in the order of the faults' numbers.
#[derive(Clone, Copy, Debug, PartialEq, Eq)]
pub enum SchemaFault {
    /// There are more than 32 levels of fields, where a column is level 1.
    TooDeep,
    /// There are more than 65,536 fields on all levels together.
    TooManyFields,
    /// A dictionary-encoded field is below a dictionary-encoded field.
    NestedDictionary,
    /// Two fields have the same dictionary id and unequal value types.
    SharedIdTypesDiffer,
    /// An allocation failed. None of the faults before it applies, and a field, on some level, is
    /// dictionary-encoded.
    Memory,
    /// Fixed-size byte strings would have more than 2,147,483,647 bytes each, or fixed-size lists
    /// more than that many values.
    ByteWidth,
    /// There are more than 65,536 pairs of custom metadata in the whole schema.
    TooManyPairs,
    /// The child of a map is not a struct of two fields, or it is dictionary-encoded.
    MapEntries,
    /// The precision of a decimal is 0 or more than the number of digits that its width has, or its
    /// scale is not from -76 to 76.
    DecimalRange,
}

impl SchemaFault {
    ghost use Rattle.arrow_types.specs.Schema.{number_of};

    /// The fault's number, from 1.
    pub fn number(self) -> u8
        ensures { result ≡ number_of self }
    {
        match self {
            SchemaFault::TooDeep => 1,
            SchemaFault::TooManyFields => 2,
            SchemaFault::NestedDictionary => 3,
            SchemaFault::SharedIdTypesDiffer => 4,
            SchemaFault::Memory => 5,
            SchemaFault::ByteWidth => 6,
            SchemaFault::TooManyPairs => 7,
            SchemaFault::MapEntries => 8,
            SchemaFault::DecimalRange => 9,
        }
    }
}

impl fmt::Display for SchemaFault {
    ghost use Rattle.std.specs.Prelude.{Some};
    ghost use Rattle.arrow_types.specs.Schema.{words_of};

    ghost output = { λ f. Some (words_of f) };

    fn fmt<W: fmt::Write>(&self, f: &mut fmt::Formatter<W>) -> fmt::Result {
        match self {
            SchemaFault::TooDeep => f.write_str("more than 32 levels of fields"),
            SchemaFault::TooManyFields => f.write_str("more than 65,536 fields"),
            SchemaFault::NestedDictionary => f.write_str("a dictionary below a dictionary"),
            SchemaFault::SharedIdTypesDiffer => f.write_str(
                "two value types for one dictionary id",
            ),
            SchemaFault::Memory => f.write_str("out of memory"),
            SchemaFault::ByteWidth => f.write_str("a fixed size of more than 2,147,483,647"),
            SchemaFault::TooManyPairs => f.write_str("more than 65,536 pairs of metadata"),
            SchemaFault::MapEntries => f.write_str(
                "a map whose child is not a struct of two fields",
            ),
            SchemaFault::DecimalRange => f.write_str(
                "a decimal of a precision or a scale out of range",
            ),
        }
    }
}

impl Error for SchemaFault {}
