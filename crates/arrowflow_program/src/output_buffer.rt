//! An output whose bytes are buffered until there are enough of them, or until its command reads
//! on.

ghost use Rattle.std.specs.Prelude.{◌≡◌};
ghost use Rattle.std.specs.Io.{WritesAtMost};

use crate::pipe::Pipe;
use arrowflow_input::ToolFault;
use std::alloc::Global;
use std::cell::{Cell, RefCell};
use std::io;
use std::io::{BufWriter, ErrorKind, Read, Write};
use std::rc::Rc;

/// How many bytes may be buffered: as many as an input is asked for at once.
const ROOM: usize = 65_536;

/// The continuation word of a message and the size of its metadata; no byte of the metadata
/// follows.
const BEGINNING: [u8; 8] = [0xff, 0xff, 0xff, 0xff, 8, 0, 0, 0];

/// An output whose bytes are buffered until there are enough of them, or until its command reads
/// on: the output for one piece of an input is written together, and no output waits for a slow
/// input.
#[derive(Drop)]
pub(crate) struct OutputBuffer<W: Write + Drop> {
    writer: RefCell<BufWriter<Pipe<W>>>,
    has_failed: Cell<bool>,
}

impl<W: Write + Drop> OutputBuffer<W> {
    /// The output, with nothing buffered.
    pub(crate) fn new(alloc: Global, output: W) -> io::Result<OutputBuffer<W>> {
        let writer = BufWriter::with_capacity(alloc, ROOM, Pipe::new(output))?;
        Ok(OutputBuffer {
            writer: RefCell::new(writer),
            has_failed: Cell::new(false),
        })
    }

    /// Records if a call of the output failed.
    fn watched<T>(&self, answer: io::Result<T>) -> io::Result<T>
        ensures { result ≡ answer }
    {
        if answer.is_err() {
            self.has_failed.set(true);
        }
        answer
    }

    /// Takes bytes, and writes the buffered ones if there is no room for them.
    fn write(&self, bytes: &[u8]) -> io::Result<usize>
        ensures { WritesAtMost result bytes.now }
    {
        let written = match self.writer.try_borrow_mut() {
            Ok(mut writer) => writer.write(bytes),
            Err(_) => Err(io::Error::from(ErrorKind::ResourceBusy)),
        };
        self.watched(written)
    }

    /// Writes the buffered bytes.
    fn flush(&self) -> io::Result<()> {
        let written = match self.writer.try_borrow_mut() {
            Ok(mut writer) => writer.flush(),
            Err(_) => Err(io::Error::from(ErrorKind::ResourceBusy)),
        };
        self.watched(written)
    }

    /// Takes the beginning of a message that has no end, for readers that read on. If it cannot be
    /// written, that is recorded as a failure.
    pub(crate) fn cut(&self) {
        let written = match self.writer.try_borrow_mut() {
            Ok(mut writer) => writer.write_all(&BEGINNING),
            Err(_) => Err(io::Error::from(ErrorKind::ResourceBusy)),
        };
        let _ = self.watched(written);
    }

    /// Writes the buffered bytes. `Output` if they cannot be written, or if an earlier call failed.
    pub(crate) fn finish(&self) -> Result<(), ToolFault> {
        match self.flush() {
            Ok(()) if !self.has_failed.get() => Ok(()),
            _ => Err(ToolFault::Output),
        }
    }

    /// Whether the reader of the output has gone.
    pub(crate) fn is_closed(&self) -> bool {
        match self.writer.try_borrow() {
            Ok(writer) => writer.get_ref().is_closed(),
            Err(_) => false,
        }
    }
}

/// The end of an output that takes bytes.
#[derive(Drop)]
pub(crate) struct BufferedOutput<W: Write + Drop> {
    held: Rc<OutputBuffer<W>>,
}

impl<W: Write + Drop> BufferedOutput<W> {
    pub(crate) fn new(held: Rc<OutputBuffer<W>>) -> BufferedOutput<W> {
        BufferedOutput { held }
    }
}

impl<W: Write + Drop> Write for BufferedOutput<W> {
    fn write(&mut self, bytes: &[u8]) -> io::Result<usize> {
        self.held.write(bytes)
    }

    fn flush(&mut self) -> io::Result<()> {
        self.held.flush()
    }
}

/// An input. Before it is read again, the buffered bytes of an output are written. Its bytes are
/// those of the input.
#[derive(Drop)]
pub(crate) struct FlushBeforeRead<I: Read + Drop, W: Write + Drop> {
    input: I,
    held: Rc<OutputBuffer<W>>,
}

impl<I: Read + Drop, W: Write + Drop> FlushBeforeRead<I, W> {
    pub(crate) fn new(input: I, held: Rc<OutputBuffer<W>>) -> FlushBeforeRead<I, W> {
        FlushBeforeRead { input, held }
    }

    /// The input.
    pub(crate) fn into_inner(self) -> I {
        let FlushBeforeRead { input, held: _ } = self;
        input
    }
}

impl<I: Read + Drop, W: Write + Drop> Read for FlushBeforeRead<I, W> {
    ghost remaining = { λ p. I.remaining p.input };

    fn read(&mut self, piece: &mut [u8]) -> io::Result<usize> {
        self.held.flush()?;
        self.input.read(piece)
    }
}
