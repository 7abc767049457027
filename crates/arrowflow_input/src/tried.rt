//! An input that reports whether its last read failed.

ghost use Rattle.std.specs.Prelude.{◌≡◌, OnErr, OnOk, false, true};
ghost use Rattle.std.specs.Io.{ReadsAtMost};
ghost use Rattle.std.specs.Io.KnownBytes.{ReadConsumes};

use arrow_stream_reader::{Input, ReadFailed};
use std::io::Read;

/// An input over a reader, which reports whether its last read failed.
#[derive(Drop)]
pub struct Tried<R: Read> {
    reader: R,
    failed: bool,
}

impl<R: Read> Tried<R> {
    /// An input over this reader, of which no read failed yet. It allocates nothing.
    pub fn new(reader: R) -> Tried<R>
        ensures reader { result.reader ≡ reader }
        ensures failed { result.failed ≡ false }
    {
        Tried {
            reader,
            failed: false,
        }
    }

    /// Whether its last read failed. It allocates nothing.
    pub fn has_failed(&self) -> bool
        ensures { result ≡ self.now.failed }
    {
        self.failed
    }

    /// The reader. It allocates nothing.
    pub fn into_inner(self) -> R
        ensures { result ≡ self.reader }
    {
        let Tried { reader, failed: _ } = self;
        reader
    }
}

impl<R: Read> Input for Tried<R> {
    ghost use Rattle.std.specs.Prelude.{◌≡◌, true};

    ghost remaining = { λ tried. R.remaining tried.reader };

    ghost has_failed = { λ tried. tried.failed ≡ true };

    fn read_piece(&mut self, room: &mut [u8]) -> Result<usize, ReadFailed>
        ensures bound { ReadsAtMost result room.new }
        ensures bytes { ReadConsumes (R.remaining self.old.reader) (R.remaining self.new.reader)
            result room.new }
        ensures failed { OnErr result (self.new.failed ≡ true) }
        ensures fine { OnOk result (self.new.failed ≡ false) }
    {
        let answer = self.reader.read_piece(room);
        self.failed = answer.is_err();
        answer
    }
}
