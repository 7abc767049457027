//! What a stream is read from, and why bytes of it could not be read.

ghost use Rattle.std.specs.Prelude.{◌≡◌, ℕ, List, None, OnErr, Option, ⊤, MatchResult, IsErr, Ok};
ghost use Rattle.std.specs.Io.{ReadsAtMost};
ghost use Rattle.std.specs.Io.KnownBytes.{ReadConsumes};

use std::alloc::AllocError;
use std::io;
use std::io::Read;

/// How many bytes one read asks for at most.
pub const PIECE: usize = 65_536;

/// A read that failed. An [`Input`] returns it.
#[derive(Drop)]
pub struct ReadFailed(());

impl ReadFailed {
    /// A read that failed. It allocates nothing.
    pub fn new() -> ReadFailed {
        ReadFailed(())
    }
}

/// What a stream is read from, piece by piece. Each [`Read`] is one.
///
/// If a call returns that its input could not be read, a read did fail (`has_failed`). A `Read`
/// does not report its failures.
pub trait Input {
    // The bytes that reads will give from here on, if they are known.
    ghost remaining: { Self → Option (List ℕ) } = { λ _. None };

    // That its last read failed, if it reports failures.
    ghost has_failed: { Self → Type 0 } = { λ _. ⊤ };

    /// Reads a piece: writes its bytes at the start of the buffer and returns how many they are;
    /// none only at the end of the input. `ReadFailed` if the read failed, including an interrupted
    /// one: then nothing was taken.
    fn read_piece(&mut self, room: &mut [u8]) -> Result<usize, ReadFailed>
        ensures bound { ReadsAtMost result room.new }
        ensures bytes { ReadConsumes (remaining self.old) (remaining self.new) result room.new }
        ensures failed { OnErr result (has_failed self.new) };
}

impl<R: Read> Input for R {
    ghost remaining = { R.remaining };

    fn read_piece(&mut self, room: &mut [u8]) -> Result<usize, ReadFailed> {
        took(self.read(room))
    }
}

/// What a read returned, without its error: the end is no failure.
fn took(read: io::Result<usize>) -> Result<usize, ReadFailed>
    ensures { MatchResult read (λ count. result ≡ Ok count) (λ _. IsErr result) }
{
    read.map_err(|_| ReadFailed(()))
}

/// Why no bytes of a body were read from an input.
#[derive(Clone, Copy, Debug, PartialEq, Eq)]
pub enum BodyReadFault {
    /// A read of the input failed.
    Input,
    /// An allocation failed.
    Memory,
}

/// A failed allocation: `Memory`.
impl From<AllocError> for BodyReadFault {
    ghost use Rattle.arrow_stream_reader.specs.declared.input.BodyReadFault.TheVariants.{Memory};

    ghost from_gives = { λ refused fault. fault ≡ Memory };

    fn from(_refused: AllocError) -> BodyReadFault {
        BodyReadFault::Memory
    }
}
