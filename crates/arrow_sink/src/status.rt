//! Whether a writer takes more.

/// Whether a writer takes more.
#[derive(Clone, Copy, Debug, PartialEq, Eq)]
pub enum Status {
    /// It takes batches, and the end marker.
    Writing,
    /// The end marker was sent.
    Finished,
    /// The sink failed, and nothing more is sent.
    Broken,
}
