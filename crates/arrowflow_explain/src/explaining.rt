//! Reads an input to its end or up to a fault, and explains the fault.

ghost use Rattle.std.specs.Prelude.{◌≡◌, ◌≤◌, [], IfErr, OnOk, drop, length};
ghost use Rattle.arrow_stream_reader.specs.Stream.{IsReaderAt};
ghost use Rattle.arrow_stream_reader.specs.declared.reader.Verdict.TheVariants.{Open};
ghost use Rattle.arrowflow_input.specs.Blame.{BlamesOnly};
ghost use Rattle.arrowflow_explain.specs.Explains.{ExplainsInput, IsKept, IsMadeOf, KeepsOn};

use crate::explanation::{Explanation, RejectedMessage};
use arrow_stream_reader::{Fault, StreamReader};
use arrow_types::Limits;
use arrowflow_contents::{CountedMessages, MessageCounter, Summary, spot_of};
use arrowflow_diagnosis::{Rejected, diagnose};
use arrowflow_input::{Input, Progress, ToolFault, room_for_a_piece, take_piece};
use std::alloc::{AllocError, Global};

/// Reads a stream, and reports why it is rejected, or what it contains.
///
/// The input is read as by a check that writes nothing: in pieces of 65,536 bytes, up to an end
/// marker, to its end or to the piece in which the stream is rejected. Only the bytes of the
/// current message are kept, and each batch is laid out as a copy would write it: so memory is
/// bounded by a message, the dictionaries, and a count for each column and dictionary.
///
/// `Rejected` if a check returns `Stream`, with the same fault; `Sound` if it returns `Ok`.
/// `Input(0)` if a read failed, including an interrupted one; `Memory` if an allocation failed.
pub fn explain<R: Input>(
    alloc: Global,
    input: &mut R,
    limits: &Limits,
) -> Result<Explanation, ToolFault>
    ensures explains { ExplainsInput limits.now (R.remaining input.old) (R.remaining input.new)
        result }
    ensures blameless { IfErr result (BlamesOnly (R.has_failed input.new)) }
{
    let Ok(mut room) = room_for_a_piece(alloc) else {
        return Err(ToolFault::Memory);
    };
    let work = Work {
        alloc,
        reader: StreamReader::new(alloc, *limits),
        kept: Vec::new(alloc),
        limits: *limits,
    };
    explain_pieces(input, work, MessageCounter::new(alloc, *limits), &mut room)
}

/// Reads the pieces of an input one by one, which ends, since a stream has a last offset.
fn explain_pieces<R: Input>(
    input: &mut R,
    mut work: Work,
    mut counter: MessageCounter,
    room: &mut [u8],
) -> Result<Explanation, ToolFault>
    requires start { IsReaderAt work.reader [] [] }
    requires limits { work.reader.limits ≡ work.limits }
    requires open { work.reader.at.verdict ≡ Open }
    requires kept { IsKept [] work.reader work.kept.items }
    requires room { length room.old ≡ 65536 }
    ensures explains { ExplainsInput work.limits (R.remaining input.old)
        (R.remaining input.new) result }
    ensures blameless { IfErr result (BlamesOnly (R.has_failed input.new)) }
{
    loop {
        let count = match input.read_piece(room) {
            Ok(count) => count,
            Err(_) => return Err(ToolFault::Input(0)),
        };
        if count == 0 {
            return match work.reader.end() {
                Ok(()) => Ok(Explanation::Sound(counter.ended())),
                Err(fault) => Ok(Explanation::Rejected(work.refusal(fault, counter.so_far()))),
            };
        }
        let (next, progress) = work.take(counter, &room[..count]);
        match progress {
            Ok(Progress::GoesOn) => counter = next,
            Ok(Progress::Marker) => return Ok(Explanation::Sound(next.ended())),
            Ok(Progress::Stopped) => return Ok(Explanation::Sound(next.ended())),
            Err(ToolFault::Stream(fault)) => {
                return Ok(Explanation::Rejected(work.refusal(fault, next.so_far())));
            }
            // `take` fails with no faults other than these
            Err(ToolFault::Memory | ToolFault::Input(_) | ToolFault::Output) => {
                return Err(ToolFault::Memory);
            }
            Err(ToolFault::Refused(_, _)) => return Err(ToolFault::Memory),
        }
    }
}

/// A reader, and the bytes of its current message.
#[derive(Drop)]
struct Work {
    alloc: Global,
    reader: StreamReader,
    kept: Vec<u8>,
    limits: Limits,
}

impl Work {
    /// Gives the reader a piece, and counts the messages that the piece completes.
    fn take(
        &mut self,
        counter: MessageCounter,
        piece: &[u8],
    ) -> (MessageCounter, Result<Progress, ToolFault>)
        ensures keeps { KeepsOn self.old.reader self.old.kept.items piece.now result.1
            self.new.reader self.new.kept.items }
        ensures limits { self.new.reader.limits ≡ self.old.reader.limits }
        ensures same { self.new.limits ≡ self.old.limits }
    {
        let before = self.reader.place();
        let Ok(()) = self.kept.extend_from_slice(piece) else {
            return (counter, Err(ToolFault::Memory));
        };
        let counting = CountedMessages {
            counter,
            bytes: &self.kept,
            place: before,
        };
        let (next, progress) = take_piece(&mut self.reader, counting, piece);
        let counter = next.counter;
        let passed = self.reader.place().saturating_sub(before);
        match forget(self.alloc, &mut self.kept, passed as usize) {
            Ok(()) => (counter, progress),
            Err(_) => (counter, Err(ToolFault::Memory)),
        }
    }

    /// Why the reader reports this fault.
    fn refusal(self, fault: Fault, before: Summary) -> RejectedMessage
        requires { self.reader.limits ≡ self.limits }
        ensures { IsMadeOf fault self.limits self.reader.at self.kept.items result }
    {
        let Work {
            alloc,
            reader,
            kept,
            limits,
        } = self;
        let rejected = Rejected {
            limits: &limits,
            reader: &reader,
            message: &kept,
        };
        let diagnosis = diagnose(alloc, fault.kind, &rejected);
        let spot = spot_of(alloc, fault.kind, &rejected);
        RejectedMessage {
            fault,
            diagnosis,
            spot,
            message: kept,
            before,
            limits,
        }
    }
}

/// Removes the first `count` bytes.
fn forget(alloc: Global, kept: &mut Vec<u8>, count: usize) -> Result<(), AllocError>
    ensures { OnOk result (kept.new.items ≡ drop count kept.old.items) }
{
    if count == 0 {
        return Ok(());
    }
    let rest = match kept.get(count..) {
        Some(rest) => Vec::from_slice(alloc, rest)?,
        None => Vec::new(alloc),
    };
    *kept = rest;
    Ok(())
}
