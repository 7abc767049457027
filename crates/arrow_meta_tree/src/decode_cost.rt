//! How much of the bytes of a metadata was read.

/// The work of reading a metadata: how many Field tables and KeyValue tables it opened, and how
/// many bytes of names, zones, keys and values it copied. One that several offsets point to counts
/// each time.
#[derive(Clone, Copy, Debug, PartialEq, Eq)]
pub struct DecodeCost {
    /// Field tables.
    pub fields: u64,
    /// KeyValue tables: pairs of metadata.
    pub pairs: u64,
    /// Bytes of names, zones, keys and values.
    pub bytes: u64,
}

impl DecodeCost {
    /// No work.
    pub const NONE: DecodeCost = DecodeCost {
        fields: 0,
        pairs: 0,
        bytes: 0,
    };
}
