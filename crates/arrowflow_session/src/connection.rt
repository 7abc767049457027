//! What is asked of a connection.

use arrow_data::Batch;
use arrow_stream_writer::Options;
use arrow_types::Schema;

/// What is written to one connection, and how much of it is delivered.
#[derive(Drop)]
pub struct Connection {
    /// The schema, with which the connection begins.
    pub schema: Schema,
    /// How the writer sends.
    pub options: Options,
    /// The batches, in the order in which they are written.
    pub batches: Vec<Batch>,
    /// Whether the end marker is written after them.
    pub finish: bool,
    /// How many of the bytes are delivered; all, if there are fewer.
    pub deliver: u64,
    /// The lengths of the pieces, in bytes, in which they are delivered. The bytes after the last
    /// piece are one more piece; a length past the end takes all remaining bytes, and 0 gives an
    /// empty piece.
    pub cuts: Vec<usize>,
}
