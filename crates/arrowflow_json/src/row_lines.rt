//! The rows of a stream, written as its batches are read.

ghost use Rattle.std.specs.Prelude.{◌<◌, ◌-◌, ◌^◌};
ghost use Rattle.arrow_json.specs.Lines.{rows_of};
ghost use Rattle.arrow_stream_reader.specs.Tables.{table_in};
ghost use Rattle.arrow_stream_reader.specs.Views.{given};
ghost use Rattle.arrowflow_json.specs.Showing.{SendsLines};

use crate::sending::{flush, send_batch};
use arrow_sink::Sink;
use arrow_stream_reader::{Item, StreamReader};
use arrowflow_input::{Consumer, ToolFault};
use std::alloc::Global;
use std::ops::ControlFlow;

/// An output to which the rows of a stream are written as lines of JSON, as its batches are read.
#[derive(Drop)]
pub(crate) struct RowLines<S: Sink> {
    pub(crate) alloc: Global,
    pub(crate) output: S,
}

impl<S: Sink> RowLines<S> {
    /// Writes the rows of a message; only a batch has rows.
    fn take(&mut self, item: &Item) -> Result<(), ToolFault>
        requires { S.failed self.old.output < 2 ^ 64 - 1 }
        ensures { SendsLines (rows_of (table_in (given item.now))) (S.contents self.old.output)
            (S.failed self.old.output) result (S.contents self.new.output)
            (S.failed self.new.output) }
    {
        match item {
            Item::Batch(batch) => send_batch(self.alloc, batch, &mut self.output),
            Item::Schema | Item::Dictionary(_) | Item::End => Ok(()),
        }
    }
}

/// It fails with `Output` if the output failed, and with `Memory` if an allocation failed; it never
/// stops the read.
impl<S: Sink> Consumer for RowLines<S> {
    ghost use Rattle.std.specs.Prelude.{◌<◌, ◌-◌, ◌^◌};
    ghost use Rattle.arrowflow_json.specs.Showing.{HaveShown, ShowsSo, WritingBegan};

    ghost Start = { WritingBegan };

    ghost is_ready = { λ c. S.failed c.output < 2 ^ 64 - 1 };

    ghost keeps = { HaveShown S.contents S.failed };

    ghost answers = { ShowsSo S.contents S.failed S.is_passed_on };

    fn item(
        mut self,
        _reader: &StreamReader,
        _place: u64,
        item: Item,
    ) -> (Self, Result<ControlFlow<()>, ToolFault>) {
        match self.take(&item) {
            Ok(()) => (self, Ok(ControlFlow::Continue(()))),
            Err(fault) => (self, Err(fault)),
        }
    }

    fn end(mut self, _reader: &StreamReader, _marked: bool) -> (Self, Result<(), ToolFault>) {
        let answer = flush(&mut self.output);
        (self, answer)
    }
}
