//! A reader with the batch that it gave last.

ghost use Rattle.std.specs.Prelude.{◌≡◌, None};
ghost use Rattle.arrow_stream_reader.specs.Stream.{ended_so, fresh};
ghost use Rattle.arrowflow_calls.specs.Reading.{Reads, batch_given};
ghost use Rattle.arrowflow_calls.specs.Steps.{end_reported};

use crate::kinds::MEMORY;
use crate::steps::{FaultC, StepC};
use arrow_data::Batch;
use arrow_stream_reader::{Fault, Item, StreamReader};
use arrow_types::Limits;
use std::alloc::Global;

/// A reader with the batch that it gave last.
#[derive(Drop)]
pub struct Reading {
    pub reader: StreamReader,
    pub batch: Option<Batch>,
}

impl Reading {
    /// A reader to which nothing was given.
    pub fn new(alloc: Global, limits: Limits) -> Reading
        ensures reader { result.reader ≡ fresh limits }
        ensures batch { result.batch ≡ None }
    {
        Reading {
            reader: StreamReader::new(alloc, limits),
            batch: None,
        }
    }

    /// Reads on in a piece, up to the end of one message, and keeps its batch in place of the last
    /// one, which is dropped if none came. If an allocation failed, the last one stays.
    pub fn read(&mut self, piece: &[u8]) -> StepC
        ensures { Reads self.old piece.now result self.new }
    {
        let answer = self.reader.read(piece);
        let step = StepC::stated(&answer);
        if step.kind != MEMORY {
            self.batch = batch_given(answer);
        }
        step
    }

    /// The result of a stream that ends here.
    pub fn end(&self) -> FaultC
        ensures { result ≡ end_reported (ended_so self.now.reader.at) }
    {
        FaultC::stated(self.reader.end())
    }
}

/// The batch of a reader's result, if it gave one.
fn batch_given(answer: Result<(usize, Option<Item>), Fault>) -> Option<Batch>
    ensures { result ≡ batch_given answer }
{
    match answer {
        Ok((_, Some(Item::Batch(batch)))) => Some(batch),
        Ok((_, None | Some(Item::Schema | Item::Dictionary(_) | Item::End))) | Err(_) => None,
    }
}
