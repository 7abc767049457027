//! Why the metadata of a message are rejected.

use arrow_flatbuf::Unreadable;
use std::alloc::{AllocError, AllocFailed};
use thiserror::Error;

/// Which message holds a record batch.
#[derive(Clone, Copy, Debug, PartialEq, Eq)]
pub enum BatchKind {
    /// A dictionary batch, in its `data`.
    Dictionary,
    /// A record batch.
    Record,
}

/// Why the bytes of a metadata mean no message, in the order of the faults' numbers. If several
/// hold, the one with the least number is returned.
///
/// Faults that depend on what was read before, such as a second schema, have numbers between these.
/// So the variants from `Unsupported` on report the kind of message, and how many bytes of body
/// follow: a number that is not negative and keeps to the limit. Only a schema is `Unsupported` or
/// `Schema`.
#[derive(Clone, Copy, Debug, PartialEq, Eq, Error)]
pub enum MetaFault {
    /// Something that is read is not readable, a limit of the tree is exceeded, or a table that
    /// must be present is absent: that of an Int, a FloatingPoint, a Date, a Time, a Timestamp, a
    /// FixedSizeBinary or a Duration, or the data of a dictionary batch.
    #[error("the metadata are not readable")]
    Metadata,
    /// The version is neither V4 nor V5.
    #[error("the version is neither V4 nor V5")]
    Version,
    /// The header is not a schema, a dictionary batch or a record batch, or it is absent.
    #[error("the header is none of a schema, a dictionary batch and a record batch")]
    Header,
    /// The body's length is negative or over the limit.
    #[error("the body's length is negative or over the limit")]
    BodyLength,
    /// A schema is big-endian, or has a type outside the set of the limits, a dictionary of an unknown
    /// kind, or a dictionary below a dictionary.
    #[error("the schema has something that is not supported")]
    Unsupported { body_len: u64 },
    /// A schema has a width, a precision or a unit outside its list, a negative number for a fixed
    /// size, a time whose width does not fit its unit, a type with a number of children that it
    /// does not have, or one dictionary id with unequal value types.
    #[error("the schema contradicts itself")]
    Schema { body_len: u64 },
    /// The body of a batch is compressed.
    #[error("the body is compressed")]
    Compressed { batch: BatchKind, body_len: u64 },
    /// An allocation failed. Of the metadata it says only that reading them requests memory.
    #[error("out of memory")]
    Memory,
}

impl MetaFault {
    ghost use Rattle.std.specs.Prelude.{◌≡◌};
    ghost use Rattle.arrow_meta_tree.specs.FaultNumbers.{number_of};

    /// The fault's number among the faults of a stream.
    pub fn number(self) -> u8
        ensures number { result ≡ number_of self }
    {
        match self {
            MetaFault::Metadata => 3,
            MetaFault::Version => 4,
            MetaFault::Header => 5,
            MetaFault::BodyLength => 6,
            MetaFault::Unsupported { body_len: _ } => 8,
            MetaFault::Schema { body_len: _ } => 9,
            MetaFault::Compressed {
                batch: _,
                body_len: _,
            } => 10,
            MetaFault::Memory => 19,
        }
    }
}

/// Something that is not readable: `Metadata`.
impl From<Unreadable> for MetaFault {
    ghost use Rattle.std.specs.Prelude.{◌≡◌};
    ghost use Rattle.arrow_meta_tree.specs.declared.fault.MetaFault.TheVariants.{Metadata};

    ghost from_gives = { λ _ fault. fault ≡ Metadata };

    fn from(_unreadable: Unreadable) -> MetaFault {
        MetaFault::Metadata
    }
}

/// A failed allocation: `Memory`.
impl From<AllocError> for MetaFault {
    ghost use Rattle.std.specs.Prelude.{◌≡◌};
    ghost use Rattle.arrow_meta_tree.specs.declared.fault.MetaFault.TheVariants.{Memory};

    ghost from_gives = { λ _ fault. fault ≡ Memory };

    fn from(_refused: AllocError) -> MetaFault {
        MetaFault::Memory
    }
}

/// The same, for a value that was to be kept.
impl<T: Drop> From<AllocFailed<T>> for MetaFault {
    ghost use Rattle.std.specs.Prelude.{◌≡◌};
    ghost use Rattle.arrow_meta_tree.specs.declared.fault.MetaFault.TheVariants.{Memory};

    ghost from_gives = { λ _ fault. fault ≡ Memory };

    fn from(_refused: AllocFailed<T>) -> MetaFault {
        MetaFault::Memory
    }
}
