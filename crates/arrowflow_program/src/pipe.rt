//! A writer that remembers whether its reader has gone.

use std::io;
use std::io::{ErrorKind, Write};

/// A writer, and whether a write found that it no longer has a reader.
#[derive(Drop)]
pub(crate) struct Pipe<W: Write> {
    writer: W,
    closed: bool,
}

impl<W: Write> Pipe<W> {
    pub(crate) fn new(writer: W) -> Pipe<W> {
        Pipe {
            writer,
            closed: false,
        }
    }

    /// Whether the reader of the output has gone.
    pub(crate) fn is_closed(&self) -> bool {
        self.closed
    }
}

impl<W: Write> Write for Pipe<W> {
    fn write(&mut self, bytes: &[u8]) -> io::Result<usize> {
        let written = self.writer.write(bytes);
        if let Err(error) = &written {
            self.closed = error.kind() == ErrorKind::BrokenPipe;
        }
        written
    }

    fn flush(&mut self) -> io::Result<()> {
        self.writer.flush()
    }
}
