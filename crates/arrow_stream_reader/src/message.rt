//! What a message announces.

use crate::stream_schema::StreamSchema;
use arrow_meta_reader::RecordBatch;

/// The content of a message, by its header.
#[derive(Drop)]
pub(crate) enum MessageBody {
    /// The schema of the stream.
    Schema(StreamSchema),
    /// Values for the dictionary of this id: with true they are appended to it, with false they
    /// replace it.
    Dictionary(i64, bool, RecordBatch),
    /// Rows.
    Batch(RecordBatch),
}

/// What the metadata of a message announce.
#[derive(Drop)]
pub(crate) struct Message {
    pub(crate) content: MessageBody,
    /// The number of bytes of the body after the metadata.
    pub(crate) body_len: u64,
}

/// Values for the dictionary of an id, appended to those that are there or replacing them
/// (Message.fbs, table "DictionaryBatch").
#[derive(Clone, Copy)]
pub(crate) struct DictionaryUpdate<'a> {
    pub(crate) id: i64,
    pub(crate) is_delta: bool,
    pub(crate) record_batch: &'a RecordBatch,
}
