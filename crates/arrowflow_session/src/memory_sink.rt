//! A sink in memory.

ghost use Rattle.std.specs.Prelude.{◌≡◌, []};

use arrow_sink::{Sink, SinkFault};
use std::alloc::Global;

/// A sink that keeps all that it accepts, one piece after another. It fails if an allocation fails.
#[derive(Drop)]
pub(crate) struct MemorySink {
    bytes: Vec<u8>,
    count: u64,
}

impl MemorySink {
    /// A sink that has accepted nothing and not failed yet. Allocates nothing.
    pub(crate) fn new(alloc: Global) -> MemorySink
        ensures bytes { result.bytes.items ≡ [] }
        ensures count { result.count ≡ 0 }
    {
        MemorySink {
            bytes: Vec::new(alloc),
            count: 0,
        }
    }

    /// The bytes that it accepted. Allocates nothing.
    pub(crate) fn bytes(&self) -> &[u8]
        ensures { result.now ≡ self.now.bytes.items }
    {
        &self.bytes
    }
}

impl Sink for MemorySink {
    ghost use Rattle.std.specs.Prelude.{Some};

    ghost contents = { λ s. Some s.bytes.items };

    ghost failed = { λ s. s.count };

    fn put(&mut self, piece: &[u8]) -> Result<usize, SinkFault> {
        match self.bytes.extend_from_slice(piece) {
            Ok(()) => Ok(piece.len()),
            Err(_) => {
                self.count += 1;
                Err(SinkFault)
            }
        }
    }

    fn flush(&mut self) -> Result<(), SinkFault> {
        Ok(())
    }

    fn failures(&self) -> u64 {
        self.count
    }
}
