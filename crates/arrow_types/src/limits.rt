//! The limits of a reader and a writer.

ghost use Rattle.std.specs.Prelude.{◌≡◌, ◌≤◌, ◌^◌, SomeIff};
ghost use Rattle.arrow_types.specs.Limits.{AreWithinCeilings, limit_numbers, limits_with};
ghost use Rattle.arrow_types.specs.Limits.{standard_numbers};

use crate::type_set::TypeSet;
use std::marker::Model;

/// How much an untrusted stream may ask of a reader, and how much a writer may write.
///
/// The standard sets no such limits. Each number has a ceiling, and every `Limits` keeps to the
/// ceilings. Numbers that no caller chooses are constants here.
#[derive(Clone, Copy, Debug, PartialEq, Eq)]
pub struct Limits {
    max_metadata: u64,
    max_body: u64,
    max_rows: u64,
    types: TypeSet,
}

impl Model for Limits {
    ghost use Rattle.arrow_types.specs.Limits.{LimitNumbers, AreWithinCeilings, limits_of};

    ghost Value = { LimitNumbers };

    ghost view = { λ l. limits_of l.max_metadata l.max_body l.max_rows l.types };

    ghost invariant = { λ l.
        AreWithinCeilings (limits_of l.max_metadata l.max_body l.max_rows l.types) };

    ghost inverse = { λ n. record {
      max_metadata = n.max_metadata;
      max_body = n.max_body;
      max_rows = n.max_rows;
      types = n.types;
    } };
}

impl Limits {
    /// The ceiling of `max_metadata`: 1 GiB.
    pub const METADATA_CEILING: u64 = 1_073_741_824;

    /// The ceiling of `max_body`: 1 TiB.
    pub const BODY_CEILING: u64 = 1_099_511_627_776;

    /// The ceiling of `max_rows`: the greatest signed 32-bit number, because list and text offsets
    /// have 32 bits.
    pub const ROWS_CEILING: u64 = 2_147_483_647;

    /// The offset, in bytes from a stream's beginning, past which no frame may end.
    pub const LAST_PLACE: u64 = 4_611_686_018_427_387_904;

    /// These three limits with the core of the types, or `None` if one is above its ceiling.
    ///
    /// `max_metadata` counts the bytes of one message's metadata, and those of all names and time
    /// zones of one schema together. `max_body` counts the bytes of one message's body. `max_rows`
    /// counts the rows of a batch, the slots of a column and the values of a dictionary.
    pub fn new(max_metadata: u64, max_body: u64, max_rows: u64) -> Option<Limits>
        ensures { let numbers = limit_numbers max_metadata max_body max_rows
            in SomeIff result (AreWithinCeilings numbers) numbers }
    {
        if max_metadata <= Limits::METADATA_CEILING
            && max_body <= Limits::BODY_CEILING
            && max_rows <= Limits::ROWS_CEILING
        {
            Some(Limits {
                max_metadata,
                max_body,
                max_rows,
                types: TypeSet::Core,
            })
        } else {
            None
        }
    }

    /// The defaults: 67,108,864 bytes of metadata, 68,719,476,736 bytes of body, 2,147,483,647
    /// rows, the core of the types.
    pub fn standard() -> Limits
        ensures { result ≡ standard_numbers }
    {
        Limits {
            max_metadata: 67_108_864,
            max_body: 68_719_476_736,
            max_rows: 2_147_483_647,
            types: TypeSet::Core,
        }
    }

    /// The same limits with this set of types.
    pub fn with_types(self, types: TypeSet) -> Limits
        ensures { result ≡ limits_with self types }
    {
        Limits {
            max_metadata: self.max_metadata,
            max_body: self.max_body,
            max_rows: self.max_rows,
            types,
        }
    }

    /// The greatest number of bytes of one message's metadata, and of all names, zones, keys and
    /// values of one schema.
    pub fn max_metadata(&self) -> u64
        ensures value { result ≡ self.now.max_metadata }
        ensures ceiling { result ≤ 2 ^ 30 }
    {
        self.max_metadata
    }

    /// The greatest number of bytes of one message's body.
    pub fn max_body(&self) -> u64
        ensures value { result ≡ self.now.max_body }
        ensures ceiling { result ≤ 2 ^ 40 }
    {
        self.max_body
    }

    /// The greatest number of rows of a batch, of slots of a column, and of values of a dictionary.
    pub fn max_rows(&self) -> u64
        ensures value { result ≡ self.now.max_rows }
        ensures ceiling { result ≤ 2147483647 }
    {
        self.max_rows
    }

    /// The types that are read and written.
    pub fn types(&self) -> TypeSet
        ensures { result ≡ self.now.types }
    {
        self.types
    }
}
