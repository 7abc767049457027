//! Which of a writer's calls was rejected.

/// Which of a writer's calls was rejected.
#[derive(Clone, Copy, Debug, PartialEq, Eq)]
pub enum RefusedItem {
    /// The start, with the schema.
    Start,
    /// The batch with this number, counted from 0 among all batches of the stream.
    Batch(usize),
    /// The end marker.
    Finish,
}
