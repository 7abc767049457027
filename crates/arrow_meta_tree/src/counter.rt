//! The amount read so far, within the limits.
ghost use Rattle.std.specs.Prelude.{◌≤◌};

use crate::decode_cost::DecodeCost;

/// Counts what is read, and never counts past the limits.
#[derive(Drop)]
pub(crate) struct Counter {
    /// How many bytes of names, zones, keys and values may be copied in all.
    pub(crate) max_bytes: u64,
    /// The amount read so far.
    pub(crate) work: DecodeCost,
    ghost fields_within: { work.fields ≤ 65536 },
    ghost pairs_within: { work.pairs ≤ 65536 },
    ghost bytes_within: { work.bytes ≤ max_bytes },
}
