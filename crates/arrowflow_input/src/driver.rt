//! An input read to its end, whose messages are passed to a consumer as they come.

ghost use Rattle.std.specs.Prelude.{◌≡◌, ◌++◌, ℕ, List, [], IfErr, MatchBool, Ok, length};
ghost use Rattle.arrow_stream_reader.specs.declared.item.Item.TheVariants.{End};
ghost use Rattle.arrow_stream_reader.specs.Stream.{IsReaderAt};
ghost use Rattle.arrow_stream_reader.specs.declared.reader.Verdict.TheVariants.{Open};
ghost use Rattle.arrowflow_input.specs.Blame.{BlamesNone, BlamesOnly};
ghost use Rattle.arrowflow_input.specs.Driver.{Drives, TakesPiece};
ghost use Rattle.arrowflow_input.specs.Session.{IsReaderAfter};
ghost use Rattle.arrowflow_input.specs.declared.driver.Progress.TheVariants.{GoesOn, Marker};

use crate::consumer::Consumer;
use crate::pieces::{Piece, read_piece, room_for_a_piece};
use crate::tool_fault::ToolFault;
use arrow_stream_reader::{Input, Item, StreamReader};
use std::alloc::Global;
use std::ops::ControlFlow;

/// What came of a piece.
#[derive(Clone, Copy)]
pub enum Progress {
    /// The stream goes on.
    GoesOn,
    /// It ended with its end marker.
    Marker,
    /// The consumer has all that it needs.
    Stopped,
}

/// Reads a stream from its beginning, passes its messages to a consumer, and returns the consumer.
///
/// The reader is restarted. The input is read in pieces of 65,536 bytes, those of a long body
/// straight into the reader, up to an end marker, to its end, or to the piece with which the
/// consumer has enough. Nothing after an end marker, or after the consumer's last message, is
/// parsed.
///
/// The answer is the consumer's, if it stopped or the stream ended well; `Stream` if the stream is
/// rejected, or if it ends without being at the end of a message after its schema; `Input(0)` if a
/// read failed, including an interrupted one; `Memory` if an allocation failed.
pub fn drive<R: Input, C: Consumer>(
    alloc: Global,
    reader: &mut StreamReader,
    input: &mut R,
    consumer: C,
) -> (C, Result<(), ToolFault>)
    requires ready { C.is_ready consumer }
    ensures driven { Drives C.keeps C.answers consumer reader.old.limits
        (R.remaining input.old) (R.remaining input.new) result.1 result.0 reader.new }
    ensures limits { reader.new.limits ≡ reader.old.limits }
    ensures blameless { IfErr result.1 (BlamesOnly (R.has_failed input.new)) }
{
    reader.restart();
    let Ok(mut room) = room_for_a_piece(alloc) else {
        return (consumer, Err(ToolFault::Memory));
    };
    drive_pieces(reader, input, consumer, &mut room)
}

/// Gives the pieces of an input to a consumer, one by one. No stream is longer than the last offset
/// allows, so this terminates.
fn drive_pieces<R: Input, C: Consumer>(
    reader: &mut StreamReader,
    input: &mut R,
    mut consumer: C,
    room: &mut [u8],
) -> (C, Result<(), ToolFault>)
    requires ready { C.is_ready consumer }
    requires start { IsReaderAt reader.old [] [] }
    requires open { reader.old.at.verdict ≡ Open }
    requires room { length room.old ≡ 65536 }
    ensures driven { Drives C.keeps C.answers consumer reader.old.limits
        (R.remaining input.old) (R.remaining input.new) result.1 result.0 reader.new }
    ensures limits { reader.new.limits ≡ reader.old.limits }
    ensures blameless { IfErr result.1 (BlamesOnly (R.has_failed input.new)) }
{
    loop {
        let count = match read_piece(reader, input, room) {
            Ok(Piece::InBuffer(count)) => count,
            Ok(Piece::InReader) => continue,
            Ok(Piece::End) => return match reader.end() {
                Ok(()) => consumer.end(reader, false),
                Err(fault) => (consumer, Err(ToolFault::from(fault))),
            },
            Err(fault) => return (consumer, Err(fault)),
        };
        let (next, progress) = take_piece(reader, consumer, &room[..count]);
        match progress {
            Ok(Progress::GoesOn) => consumer = next,
            Ok(Progress::Marker) => return next.end(reader, true),
            Ok(Progress::Stopped) => return (next, Ok(())),
            Err(fault) => return (next, Err(fault)),
        }
    }
}

/// Gives the reader a piece of its stream, passes the messages that are complete with it to a
/// consumer, and returns the consumer.
///
/// For a caller that has its stream in pieces: this is what [`drive`] does with each piece of an
/// input. After `GoesOn` the caller may give the next piece, or notify the consumer of the end,
/// which it also does after `Marker`; after `Stopped` and after a fault the consumer is done. A
/// fault is the consumer's; or `Stream` if the stream is rejected, and `Memory` if an allocation
/// failed: some messages of the piece may have been given before.
pub fn take_piece<C: Consumer>(
    reader: &mut StreamReader,
    mut consumer: C,
    piece: &[u8],
) -> (C, Result<Progress, ToolFault>)
    requires ready { C.is_ready consumer }
    ensures takes { TakesPiece C.keeps C.answers consumer reader.old piece.now result.1 result.0
        reader.new }
    ensures position { (t : List ℕ) → IsReaderAfter t reader.old → result.1 ≡ Ok GoesOn
        → IsReaderAfter (t ++ piece.now) reader.new }
    ensures limits { reader.new.limits ≡ reader.old.limits }
    ensures open { reader.old.at.verdict ≡ Open → result.1 ≡ Ok GoesOn
        → reader.new.at.verdict ≡ Open }
    ensures goes_on { result.1 ≡ Ok GoesOn → C.is_ready result.0 }
    ensures marker { result.1 ≡ Ok Marker → C.is_ready result.0 }
    ensures blameless { IfErr result.1 BlamesNone }
{
    let mut rest = piece;
    loop {
        let place = reader.place();
        match reader.read(rest) {
            Ok((taken, Some(item))) => {
                let is_last = is_end(&item);
                let (next, wants) = consumer.item(reader, place, item);
                match wants {
                    Ok(ControlFlow::Continue(())) if is_last => return (next, Ok(Progress::Marker)),
                    Ok(ControlFlow::Continue(())) => {
                        consumer = next;
                        rest = &rest[taken..];
                    }
                    Ok(ControlFlow::Break(())) => return (next, Ok(Progress::Stopped)),
                    Err(fault) => return (next, Err(fault)),
                }
            }
            Ok((_, None)) => return (consumer, Ok(Progress::GoesOn)),
            Err(fault) => return (consumer, Err(ToolFault::from(fault))),
        }
    }
}

/// Whether an item is the end marker.
fn is_end(item: &Item) -> bool
    ensures { MatchBool result (item.now ≡ End) (item.now ≡ End → ⊥) }
{
    matches!(item, Item::End)
}
