//! A stream that is written again as its pieces come.

ghost use Rattle.std.specs.Prelude.{◌≡◌, option_map};
ghost use Rattle.arrowflow_copy.specs.CopierShown.{copier_view};
ghost use Rattle.arrowflow_copy.specs.Pieces.{PutsEnd, PutsPiece, TakesWritten};
ghost use Rattle.arrow_stream_writer.specs.Shown.{options_view};
ghost use Rattle.arrowflow_calls.specs.Copied.{IsFresh, copied_reported, no_copier, place_so, kind_so};

use crate::kinds::{NO_HANDLE, kind_of, place_of};
use arrow_stream_writer::Options;
use arrow_types::Limits;
use arrowflow_copy::StreamCopier;
use arrowflow_input::ToolFault;
use std::alloc::Global;

/// The state of a copy so far.
#[repr(C)]
#[derive(Clone, Copy)]
pub struct CopiedC {
    /// 0, or the kind of the fault, as for a text; 21 if there is no copier.
    pub kind: u32,
    /// Whether it takes no more bytes.
    pub is_over: bool,
    /// The place of the message at fault in bytes from the stream's beginning, or the number of the
    /// rejected batch.
    pub place: u64,
    /// How many bytes are written and waiting to be taken.
    pub waiting: u64,
}

impl CopiedC {
    /// The state that is reported if there is no copier.
    pub fn none() -> CopiedC
        ensures { result ≡ no_copier }
    {
        CopiedC {
            kind: NO_HANDLE,
            is_over: true,
            place: 0,
            waiting: 0,
        }
    }
}

/// A copier that is kept between calls.
#[derive(Drop)]
pub struct Copying {
    pub copier: StreamCopier,
}

impl Copying {
    /// A copier to which nothing was given.
    pub fn new(alloc: Global, options: Options, limits: Limits) -> Copying
        ensures { IsFresh limits (options_view options) (copier_view result.copier) }
    {
        Copying {
            copier: StreamCopier::new(alloc, options, limits),
        }
    }

    /// Gives the copier the next piece of its stream, and returns the state of the copy.
    pub fn put(&mut self, piece: &[u8]) -> CopiedC
        ensures puts { PutsPiece (copier_view self.old.copier) piece.now
            (copier_view self.new.copier) }
        ensures stated { result ≡ copied_reported (copier_view self.new.copier) }
    {
        self.copier.put(piece);
        self.stated()
    }

    /// Ends the stream, and returns the state of the copy.
    pub fn end(&mut self) -> CopiedC
        ensures puts { PutsEnd (copier_view self.old.copier) (copier_view self.new.copier) }
        ensures stated { result ≡ copied_reported (copier_view self.new.copier) }
    {
        self.copier.end();
        self.stated()
    }

    /// Moves waiting bytes into the output buffer, and returns how many.
    pub fn take(&mut self, room: &mut [u8]) -> usize
        ensures { TakesWritten (copier_view self.old.copier) room.old result
            (copier_view self.new.copier) room.new }
    {
        self.copier.take(room)
    }

    /// The state of the copy.
    fn stated(&self) -> CopiedC
        ensures { result ≡ copied_reported (copier_view self.now.copier) }
    {
        let ended = self.copier.ended();
        CopiedC {
            kind: kind_so(ended),
            is_over: ended.is_some(),
            place: place_so(ended),
            waiting: self.copier.waiting() as u64,
        }
    }
}

/// The number of how a copy ended, 0 while it goes on.
fn kind_so(ended: Option<&Result<(), ToolFault>>) -> u32
    ensures { result ≡ kind_so (option_map (λ answer. answer.now) ended.entry) }
{
    match ended {
        Some(Err(fault)) => kind_of(fault),
        Some(Ok(())) | None => 0,
    }
}

/// The place of the fault with which a copy ended, 0 if there is none.
fn place_so(ended: Option<&Result<(), ToolFault>>) -> u64
    ensures { result ≡ place_so (option_map (λ answer. answer.now) ended.entry) }
{
    match ended {
        Some(Err(fault)) => place_of(fault),
        Some(Ok(())) | None => 0,
    }
}
