//! Copies a stream as its pieces come.

ghost use Rattle.std.specs.Prelude.{◌≡◌, ◌<◌, ◌-◌, ◌^◌, [], None, Some, length, option_map};
ghost use Rattle.arrow_stream_writer.specs.Shown.{options_view};
ghost use Rattle.arrowflow_copy.specs.Copying.{failures_at};
ghost use Rattle.arrowflow_copy.specs.Copying.{waiting};
ghost use Rattle.arrowflow_copy.specs.Outbox.{contents_of, failed_of};
ghost use Rattle.arrowflow_copy.specs.WriterState.{at_of};

use crate::copier::{Copier, CopySettings, WriterState};
use crate::outbox::Outbox;
use crate::part_copier::PartCopier;
use arrow_stream_reader::StreamReader;
use arrow_stream_writer::Options;
use arrow_types::Limits;
use arrowflow_input::{Consumer, Progress, ToolFault, take_piece};
use std::alloc::Global;
use std::mem::replace;

/// A stream that is written again as its pieces come: it does what [`copy`](crate::copy) does with
/// an input, for a caller who has the bytes (Columnar Format, "IPC Streaming Format").
///
/// The bytes written wait until they are [taken](StreamCopier::take). So memory is bounded by a
/// message and the waiting bytes, whatever the stream's length. The way in which the stream is cut
/// into pieces does not change the bytes written.
#[derive(Drop)]
pub struct StreamCopier {
    reader: StreamReader,
    copier: PartCopier,
    /// How the copy ended.
    ended: Option<Result<(), ToolFault>>,
    ghost ready: { ended ≡ None
        → failures_at (at_of contents_of failed_of copier.copier.target) < 2 ^ 64 - 1 },
}

impl StreamCopier {
    ghost use Rattle.arrowflow_copy.specs.Pieces.{GoesOnAt, PutsEnd, PutsPiece, TakesWritten};
    ghost use Rattle.arrowflow_copy.specs.CopierShown.{copier_view};

    /// A copier that was given nothing. It allocates no memory.
    pub fn new(alloc: Global, options: Options, limits: Limits) -> StreamCopier
        ensures goes_on { (copier_view result).ended ≡ None }
        ensures nothing { GoesOnAt limits (options_view options) (copier_view result) [] [] }
    {
        StreamCopier {
            reader: StreamReader::new(alloc, limits),
            copier: nothing_yet(alloc, options, limits),
            ended: None,
        }
    }

    /// Gives the copier the next piece of its stream. The schema is written once its message was
    /// read, and each batch as it comes; after an end marker the copy has ended well, and its own
    /// end marker is written.
    ///
    /// The copy ends with the first fault: `Stream` if the stream is rejected, `Refused` if the
    /// schema, the next batch or the end marker cannot be written within the limits, `Memory` and
    /// `Output` if an allocation failed. Then all batches before it are written, without an end
    /// marker, or with the last two a prefix of them. Once a copy has ended nothing changes.
    pub fn put(&mut self, piece: &[u8])
        ensures { PutsPiece (copier_view self.old) piece.now (copier_view self.new) }
    {
        if self.ended.is_some() {
            return;
        }
        let copier = self.lend();
        let (copier, progress) = take_piece(&mut self.reader, copier, piece);
        match progress {
            Ok(Progress::GoesOn) => self.copier = copier,
            Ok(Progress::Marker) => {
                let (copier, answer) = copier.end(&self.reader, true);
                self.close(copier, answer);
            }
            Ok(Progress::Stopped) => self.close(copier, Ok(())),
            Err(fault) => self.close(copier, Err(fault)),
        }
    }

    /// Ends the stream: the end marker is written, or the copy ends with the fault of a stream that
    /// ends inside a message or before a schema. If the copy has ended nothing changes.
    pub fn end(&mut self)
        ensures { PutsEnd (copier_view self.old) (copier_view self.new) }
    {
        if self.ended.is_some() {
            return;
        }
        let copier = self.lend();
        let (copier, answer) = match self.reader.end() {
            Ok(()) => copier.end(&self.reader, false),
            Err(fault) => (copier, Err(ToolFault::from(fault))),
        };
        self.close(copier, answer);
    }

    /// How the copy ended, or `None` while it goes on. It allocates no memory.
    pub fn ended(&self) -> Option<&Result<(), ToolFault>>
        ensures { option_map (λ answer. answer.now) result ≡ (copier_view self.now).ended }
    {
        self.ended.as_ref()
    }

    /// How many bytes are written and wait to be taken. It allocates no memory.
    pub fn waiting(&self) -> usize
        ensures { result ≡ length (copier_view self.now).waiting }
    {
        self.copier.copier.target.waiting()
    }

    /// Moves the first bytes that wait into the buffer `room`, as many as fit, and returns how
    /// many. It allocates no memory.
    pub fn take(&mut self, room: &mut [u8]) -> usize
        ensures { TakesWritten (copier_view self.old) room.old result (copier_view self.new)
            room.new }
    {
        let PartCopier { copier } = &mut self.copier;
        copier.target.take(copier.terms.alloc, room)
    }
}

impl StreamCopier {
    /// The copy, replaced by an empty one for a while.
    fn lend(&mut self) -> PartCopier
        ensures copier { result ≡ self.old.copier }
        ensures reader { self.new.reader ≡ self.old.reader }
        ensures ended { self.new.ended ≡ self.old.ended }
    {
        let CopySettings {
            alloc,
            options,
            limits,
        } = self.copier.copier.terms;
        replace(&mut self.copier, nothing_yet(alloc, options, limits))
    }

    /// Records the copy, which has ended with this result.
    fn close(&mut self, copier: PartCopier, answer: Result<(), ToolFault>)
        ensures copier { self.new.copier ≡ copier }
        ensures reader { self.new.reader ≡ self.old.reader }
        ensures ended { self.new.ended ≡ Some answer }
    {
        self.copier = copier;
        self.ended = Some(answer);
    }
}

/// A copy that has written nothing yet.
fn nothing_yet(alloc: Global, options: Options, limits: Limits) -> PartCopier
    ensures terms { result.copier.terms
        ≡ record { alloc = alloc; options = options; limits = limits } }
    ensures target { at_of contents_of failed_of result.copier.target ≡ waiting (Some []) 0 }
    ensures number { result.copier.number ≡ 0 }
{
    let copier = Copier {
        terms: CopySettings {
            alloc,
            options,
            limits,
        },
        target: WriterState::Waiting(Outbox::new(alloc)),
        number: 0,
    };
    PartCopier { copier }
}

impl WriterState<Outbox> {
    ghost use Rattle.arrowflow_copy.specs.Outbox.{Moves, waiting_in};
    ghost use Rattle.arrowflow_copy.specs.Taken.{holding};
    ghost use Rattle.arrowflow_copy.specs.WriterState.{sink_in};

    /// How many bytes wait in the output.
    fn waiting(&self) -> usize
        ensures { result ≡ length (waiting_in (sink_in self.now)) }
    {
        match self {
            WriterState::Waiting(outbox) => outbox.len(),
            WriterState::Writing(writer) => writer.sink().len(),
        }
    }

    /// Moves the first bytes that wait in the output into the buffer `room`.
    fn take(&mut self, alloc: Global, room: &mut [u8]) -> usize
        ensures moves { Moves (sink_in self.old) room.old result (sink_in self.new) room.new }
        ensures held { at_of contents_of failed_of self.new
            ≡ holding (Some (waiting_in (sink_in self.new)))
            (at_of contents_of failed_of self.old) }
    {
        match self {
            WriterState::Waiting(outbox) => outbox.take(room),
            WriterState::Writing(writer) => {
                let mut outbox = writer.replace_sink(Outbox::new(alloc));
                let count = outbox.take(room);
                let _empty = writer.replace_sink(outbox);
                count
            }
        }
    }
}
