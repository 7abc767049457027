//! Written bytes that wait until they are taken.

ghost use Rattle.std.specs.Prelude.{◌≡◌, ◌≤◌, [], length};

use arrow_sink::{Sink, SinkFault};
use std::alloc::Global;

/// A sink that keeps the bytes it accepts until they are taken. Its memory is reused once all of
/// them are.
#[derive(Drop)]
pub(crate) struct Outbox {
    written: Vec<u8>,
    /// How many of the bytes in memory were taken.
    start: usize,
    failures: u64,
    ghost within: { start ≤ length written.items },
}

impl Sink for Outbox {
    ghost use Rattle.arrowflow_copy.specs.Outbox.{contents_of, failed_of};

    ghost contents = { contents_of };

    ghost failed = { failed_of };

    fn put(&mut self, piece: &[u8]) -> Result<usize, SinkFault> {
        match self.written.extend_from_slice(piece) {
            Ok(()) => Ok(piece.len()),
            Err(_) => {
                self.failures += 1;
                Err(SinkFault)
            }
        }
    }

    fn flush(&mut self) -> Result<(), SinkFault> {
        Ok(())
    }

    fn failures(&self) -> u64 {
        self.failures
    }
}

impl Outbox {
    ghost use Rattle.arrowflow_copy.specs.Outbox.{Moves, waiting_in};

    /// A sink that has accepted nothing yet. It allocates no memory.
    pub(crate) fn new(alloc: Global) -> Outbox
        ensures waiting { waiting_in result ≡ [] }
        ensures failures { result.failures ≡ 0 }
    {
        Outbox {
            written: Vec::new(alloc),
            start: 0,
            failures: 0,
        }
    }

    /// How many bytes wait to be taken.
    pub(crate) fn len(&self) -> usize
        ensures { result ≡ length (waiting_in self.now) }
    {
        self.written.len() - self.start
    }

    /// Moves the first bytes that wait into the buffer `room`, as many as fit.
    pub(crate) fn take(&mut self, room: &mut [u8]) -> usize
        ensures { Moves self.old room.old result self.new room.new }
    {
        let count = self.len().min(room.len());
        room[..count].copy_from_slice(&self.written[self.start..self.start + count]);
        self.start += count;
        if self.start == self.written.len() {
            self.written.clear();
            self.start = 0;
        }
        count
    }
}
