//! A copy whose output is taken while it is written.

ghost use Rattle.std.specs.Prelude.{◌<◌, ◌-◌, ◌^◌};

use crate::copier::Copier;
use crate::outbox::Outbox;
use arrow_stream_reader::{Item, StreamReader};
use arrowflow_input::{Consumer, ToolFault};
use std::ops::ControlFlow;

/// A copy whose output gave away the first bytes that it held. In the consumer's contract these
/// bytes are still there: the record of how the copy began has them.
#[derive(Drop)]
pub(crate) struct PartCopier {
    pub(crate) copier: Copier<Outbox>,
}

impl Consumer for PartCopier {
    ghost use Rattle.arrow_stream_writer.specs.Shown.{options_view};
    ghost use Rattle.arrowflow_copy.specs.Copying.{HasAnswered, IsCopying, failures_at};
    ghost use Rattle.arrowflow_copy.specs.Outbox.{contents_of, failed_of};
    ghost use Rattle.arrowflow_copy.specs.Parted.{PartBegan};
    ghost use Rattle.arrowflow_copy.specs.Taken.{with_taken};
    ghost use Rattle.arrowflow_copy.specs.WriterState.{at_of};

    ghost Start = { PartBegan };

    ghost is_ready = { λ c. failures_at (at_of contents_of failed_of c.copier.target)
        < 2 ^ 64 - 1 };

    ghost keeps = { λ s c. IsCopying s.began c.copier.terms.limits
        (options_view c.copier.terms.options)
        (with_taken s.taken (at_of contents_of failed_of c.copier.target)) c.copier.number };

    ghost answers = { λ s c answer _ bytes left. HasAnswered s.began
        (with_taken s.taken (at_of contents_of failed_of c.copier.target)) answer bytes left };

    fn item(
        self,
        reader: &StreamReader,
        _place: u64,
        item: Item,
    ) -> (Self, Result<ControlFlow<()>, ToolFault>) {
        let (copier, answer) = self.copier.take(reader, &item);
        match answer {
            Ok(()) => (PartCopier { copier }, Ok(ControlFlow::Continue(()))),
            Err(fault) => (PartCopier { copier }, Err(fault)),
        }
    }

    fn end(self, _reader: &StreamReader, _marked: bool) -> (Self, Result<(), ToolFault>) {
        let (copier, answer) = self.copier.finish();
        (PartCopier { copier }, answer)
    }
}
