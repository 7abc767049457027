//! A session: what one side of a connection receives.

ghost use Rattle.std.specs.Prelude.{◌≡◌, Err, IfOk, MatchBool, OnErr, OnOk};
ghost use Rattle.arrowflow_input.specs.Pieces.{Feeds, FeedsInside, HandsOut};
ghost use Rattle.arrowflow_input.specs.Session.{Receives, IsReaderAfter, IsReaderInside, ending_by};
ghost use Rattle.arrowflow_input.specs.declared.tool_fault.ToolFault.TheVariants.{Memory};

use crate::driver::{Progress, take_piece};
use crate::tool_fault::ToolFault;
use arrow_data::{Batch, Dictionary};
use arrow_stream_reader::{Fault, StreamReader};
use std::alloc::{AllocError, Global};

/// How a connection ended: what [`StreamReader::end`] returns after its last byte.
#[derive(Clone, Copy, Debug, PartialEq, Eq)]
pub enum Ending {
    /// At the end of a message after the schema, or with the end marker.
    Clean,
    /// With a message that is rejected or cut off, or without a schema.
    Fault(Fault),
}

/// What a reader returned.
#[derive(Drop)]
pub struct Received {
    /// The batches, in the order of their messages.
    pub handed: Vec<Batch>,
    /// The ids and their dictionaries as the complete messages left them, by rising id. They share
    /// their values with the reader's.
    pub reader_dictionaries: Vec<(i64, Dictionary)>,
    /// How the connection ended.
    pub ending: Ending,
}

/// Gives a reader the bytes of one stream from its beginning, in pieces, and collects what it
/// returns (Columnar Format, "IPC Streaming Format").
///
/// The reader is restarted. The pieces have the lengths in `cuts`, in bytes; the bytes after the
/// last cut are one more piece. A cut past the end takes the remaining bytes, and a cut of 0 gives
/// an empty piece. The bytes of a piece that a reader does not take are given again, so that all of
/// it is taken, except for the bytes after an end marker or a rejection.
///
/// `Receives` (`specs/Session.antt`) specifies the result in terms of the whole list of bytes, and
/// mentions no cut.
///
/// `AllocError` if an allocation failed, in the reader or here: the reader has then read some
/// prefix of the bytes.
pub fn receive(
    alloc: Global,
    reader: &mut StreamReader,
    bytes: &[u8],
    cuts: &[usize],
) -> Result<Received, AllocError>
    ensures received { IfOk result (λ r. Receives reader.old.limits bytes.now r.handed.items
        r.reader_dictionaries.items r.ending) }
    ensures limits { reader.new.limits ≡ reader.old.limits }
    ensures whole { OnOk result (IsReaderAfter bytes.now reader.new) }
    ensures inside { OnErr result (IsReaderInside bytes.now reader.new) }
{
    let handed = hand_out(alloc, reader, bytes, cuts)?;
    let reader_dictionaries = copies(alloc, reader.dictionaries().entries())?;
    let ending = ending_of(reader.end());
    Ok(Received {
        handed,
        reader_dictionaries,
        ending,
    })
}

/// Gives a reader the bytes of one stream from its beginning, in pieces of these lengths, and
/// collects the batches.
fn hand_out(
    alloc: Global,
    reader: &mut StreamReader,
    bytes: &[u8],
    cuts: &[usize],
) -> Result<Vec<Batch>, AllocError>
    ensures handed { IfOk result (λ v. HandsOut bytes.now v.items reader.new) }
    ensures limits { reader.new.limits ≡ reader.old.limits }
    ensures inside { OnErr result (IsReaderInside bytes.now reader.new) }
{
    reader.restart();
    let mut handed = Vec::new(alloc);
    let mut rest = bytes;
    for cut in cuts {
        let end = rest.len().min(*cut);
        handed = feed(reader, handed, &rest[..end])?;
        rest = &rest[end..];
    }
    feed(reader, handed, rest)
}

/// Gives the reader a piece, and collects the batches of its messages.
fn feed(
    reader: &mut StreamReader,
    handed: Vec<Batch>,
    piece: &[u8],
) -> Result<Vec<Batch>, AllocError>
    ensures feeds { IfOk result (λ v. Feeds reader.old handed.items piece.now reader.new v.items) }
    ensures limits { reader.new.limits ≡ reader.old.limits }
    ensures inside { OnErr result (FeedsInside reader.old handed.items piece.now reader.new) }
{
    let (handed, answer) = take_piece(reader, handed, piece);
    if needs_memory(&answer) {
        return Err(AllocError);
    }
    Ok(handed)
}

/// Whether an allocation failed with a piece.
fn needs_memory(answer: &Result<Progress, ToolFault>) -> bool
    ensures { MatchBool result (answer.now ≡ Err Memory) (answer.now ≡ Err Memory → ⊥) }
{
    match answer {
        Err(ToolFault::Memory) => true,
        Err(ToolFault::Stream(_) | ToolFault::Input(_)) => false,
        Err(ToolFault::Output | ToolFault::Refused(_, _)) => false,
        Ok(Progress::GoesOn | Progress::Marker | Progress::Stopped) => false,
    }
}

/// The ids with copies of their dictionaries.
fn copies(
    alloc: Global,
    entries: &[(i64, Dictionary)],
) -> Result<Vec<(i64, Dictionary)>, AllocError>
    ensures { IfOk result (λ v. v.items ≡ entries.now) }
{
    let mut copies = Vec::with_capacity(alloc, entries.len())?;
    for (id, dictionary) in entries {
        copies.push((*id, dictionary.copy(alloc)?))?;
    }
    Ok(copies)
}

/// The ending that a reader's answer reports.
fn ending_of(answer: Result<(), Fault>) -> Ending
    ensures { result ≡ ending_by answer }
{
    match answer {
        Ok(()) => Ending::Clean,
        Err(fault) => Ending::Fault(fault),
    }
}
