//! An output that keeps nothing.

use arrow_sink::{Sink, SinkFault};

/// An output that takes all that it is given, and keeps none of it.
#[derive(Drop)]
pub(crate) struct NullSink;

impl Sink for NullSink {
    ghost failed = { λ _. 0 };

    fn put(&mut self, piece: &[u8]) -> Result<usize, SinkFault> {
        Ok(piece.len())
    }

    fn flush(&mut self) -> Result<(), SinkFault> {
        Ok(())
    }

    fn failures(&self) -> u64 {
        0
    }
}
