//! The pieces in which an input is read.

ghost use Rattle.std.specs.Prelude.{◌≡◌, IfErr, IfOk, length, vec_len};
ghost use Rattle.arrow_stream_reader.specs.declared.reader.Verdict.TheVariants.{Open};
ghost use Rattle.arrowflow_input.specs.Blame.{BlamesOnly};
ghost use Rattle.arrowflow_input.specs.Pieces.{FailsToRead, Reads};

use crate::tool_fault::ToolFault;
use arrow_stream_reader::{BodyReadFault, Input, PIECE, StreamReader};
use std::alloc::{AllocError, Global};

/// A buffer for a piece, filled with zero bytes.
pub fn room_for_a_piece(alloc: Global) -> Result<Vec<u8>, AllocError>
    ensures { IfOk result (λ v. vec_len v ≡ 65536) }
{
    Vec::from_elem(alloc, 0u8, PIECE)
}

/// Where the bytes are that one read gave.
#[derive(Clone, Copy)]
pub(crate) enum Piece {
    /// At the start of the buffer, this many.
    InBuffer(usize),
    /// In the reader, which has taken them.
    InReader,
    /// There are none: the input has ended.
    End,
}

/// Reads a piece of an input: bytes of a long body straight into the reader, others into the
/// buffer.
pub(crate) fn read_piece<R: Input>(
    reader: &mut StreamReader,
    input: &mut R,
    room: &mut [u8],
) -> Result<Piece, ToolFault>
    requires room { length room.old ≡ 65536 }
    ensures reads { IfOk result (Reads reader.old (R.remaining input.old) (R.remaining input.new)
        room.new reader.new) }
    ensures fails { IfErr result (FailsToRead reader.old (R.remaining input.old)
        (R.remaining input.new) reader.new) }
    ensures blameless { IfErr result (BlamesOnly (R.has_failed input.new)) }
    ensures limits { reader.new.limits ≡ reader.old.limits }
{
    match reader.read_body(input) {
        Ok(Some(0)) => Ok(Piece::End),
        Ok(Some(_)) => Ok(Piece::InReader),
        Ok(None) => match input.read_piece(room) {
            Ok(0) => Ok(Piece::End),
            Ok(count) => Ok(Piece::InBuffer(count)),
            Err(_) => Err(ToolFault::Input(0)),
        },
        Err(BodyReadFault::Input) => Err(ToolFault::Input(0)),
        Err(BodyReadFault::Memory) => Err(ToolFault::Memory),
    }
}
