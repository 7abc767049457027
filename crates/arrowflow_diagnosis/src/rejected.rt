//! A message that a reader rejected, or that its input cut off.

use arrow_stream_reader::StreamReader;
use arrow_types::Limits;

/// A message that a reader rejected, or that its input cut off.
#[derive(Clone, Copy)]
pub struct Rejected<'a> {
    /// The limits of the reader.
    pub limits: &'a Limits,
    /// The reader after the fault. Its offset is that of the message's first byte, and its schema
    /// and dictionaries are those after the messages before it.
    pub reader: &'a StreamReader,
    /// The bytes of the message, from the first one, as far as they were read; other bytes may
    /// follow.
    pub message: &'a [u8],
}
