//! Field nodes and buffers: how a batch's metadata describe where its columns lie in the body.

/// The number of slots of a field, and how many of them are null (`Message.fbs`, struct
/// `FieldNode`).
#[derive(Clone, Copy, Debug, PartialEq, Eq)]
pub struct FieldNode {
    /// The number of slots.
    pub length: i64,
    /// The number of null slots; -1 if that is not given.
    pub null_count: i64,
}

/// Where a buffer lies in the body (`Schema.fbs`, struct `Buffer`).
#[derive(Clone, Copy, Debug, PartialEq, Eq)]
pub struct Buffer {
    /// Its first byte, counted from the body's first byte.
    pub offset: i64,
    /// The number of its bytes. Padding need not be counted.
    pub length: i64,
}
