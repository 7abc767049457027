//! Messages on their way to a writer.

ghost use Rattle.std.specs.Prelude.{◌≡◌, ◌<◌, ◌-◌, ◌^◌, OnOk};
ghost use Rattle.arrow_stream_reader.specs.Views.{given};
ghost use Rattle.arrow_types.specs.Schema.{IsNoted};
ghost use Rattle.arrow_stream_writer.specs.Shown.{options_view, shown};
ghost use Rattle.arrowflow_copy.specs.Copying.{AddsBatch, BeginsCopy, Closes, IsWriting, TakesItem, TakesOne};
ghost use Rattle.arrowflow_copy.specs.Copying.{failures_at, fault_of, writing};
ghost use Rattle.arrowflow_copy.specs.WriterState.{IsPassedOn, at_of, sink_in};

use arrow_data::Batch;
use arrow_sink::{Sink, WriteFault};
use arrow_stream_reader::{Item, StreamReader};
use arrow_stream_writer::{Options, StreamWriter};
use arrow_types::{Limits, Schema};
use arrowflow_input::{Consumer, RefusedItem, ToolFault};
use std::alloc::Global;
use std::ops::ControlFlow;

/// The output of the new stream: the sink as it was passed, or, once the schema was read, a writer
/// over it.
#[derive(Drop)]
pub(crate) enum WriterState<S: Sink> {
    Waiting(S),
    Writing(StreamWriter<S>),
}

/// Options of the copy: how a stream is written again.
#[derive(Drop)]
pub(crate) struct CopySettings {
    pub(crate) alloc: Global,
    pub(crate) options: Options,
    pub(crate) limits: Limits,
}

/// A stream on its way to a writer, message by message.
#[derive(Drop)]
pub(crate) struct Copier<S: Sink> {
    pub(crate) terms: CopySettings,
    pub(crate) target: WriterState<S>,
    /// How many batches were written.
    pub(crate) number: usize,
}

impl<S: Sink> Consumer for Copier<S> {
    ghost use Rattle.std.specs.Prelude.{◌<◌, ◌-◌, ◌^◌, OnOk};
    ghost use Rattle.arrow_stream_writer.specs.Shown.{options_view};
    ghost use Rattle.arrowflow_input.specs.Through.{IsThrough};
    ghost use Rattle.arrowflow_copy.specs.Copying.{Began, HasAnswered, IsCopying, failures_at};
    ghost use Rattle.arrowflow_copy.specs.WriterState.{IsPassedOn, at_of};

    ghost Start = { Began };

    ghost is_ready = { λ c. failures_at (at_of S.contents S.failed c.target) < 2 ^ 64 - 1 };

    ghost keeps = { λ began c. IsCopying began c.terms.limits (options_view c.terms.options)
        (at_of S.contents S.failed c.target) c.number };

    ghost answers = { λ began c answer r bytes left.
        HasAnswered began (at_of S.contents S.failed c.target) answer bytes left
        × OnOk answer (IsPassedOn S.is_passed_on c.target) × IsThrough ⊥ answer r bytes };

    fn item(
        self,
        reader: &StreamReader,
        _place: u64,
        item: Item,
    ) -> (Self, Result<ControlFlow<()>, ToolFault>) {
        let (copier, answer) = self.take(reader, &item);
        match answer {
            Ok(()) => (copier, Ok(ControlFlow::Continue(()))),
            Err(fault) => (copier, Err(fault)),
        }
    }

    fn end(self, _reader: &StreamReader, _marked: bool) -> (Self, Result<(), ToolFault>) {
        self.finish()
    }
}

/// Starts a writer with the schema.
fn begin<S: Sink>(
    terms: &CopySettings,
    sink: S,
    schema: &Schema,
) -> (WriterState<S>, Result<(), ToolFault>)
    requires { S.failed sink < 2 ^ 64 - 1 }
    ensures known { IsNoted schema.now }
    ensures begins { BeginsCopy terms.now.limits (options_view terms.now.options) schema.now (S.contents sink)
        (S.failed sink) result.1 (at_of S.contents S.failed result.0) }
{
    // what is known of each schema is known of this one, also where its frame is cut off
    let _metadata = schema.metadata();
    match StreamWriter::start(terms.alloc, sink, schema, terms.options, terms.limits) {
        Ok(writer) => (WriterState::Writing(writer), Ok(())),
        Err((kind, sink)) => (
            WriterState::Waiting(sink),
            Err(fault_of(RefusedItem::Start, kind)),
        ),
    }
}

/// Writes a batch, and counts it.
fn add<S: Sink>(
    writer: &mut StreamWriter<S>,
    number: &mut usize,
    batch: &Batch,
) -> Result<(), ToolFault>
    requires { S.failed writer.old.sink < 2 ^ 64 - 1 }
    ensures { AddsBatch (shown S.contents S.failed writer.old) batch.now number.old result
        (writing (shown S.contents S.failed writer.new)) number.new }
{
    let before = *number;
    let Some(next) = before.checked_add(1) else {
        return Err(ToolFault::Memory);
    };
    let written = writer.write(batch);
    written.map_err(|kind| fault_of(RefusedItem::Batch(before), kind))?;
    *number = next;
    Ok(())
}

/// A writer's step for a message: it writes the batch messages of a batch, and nothing for other
/// messages.
fn take_one<S: Sink>(
    writer: &mut StreamWriter<S>,
    number: &mut usize,
    item: &Item,
) -> Result<(), ToolFault>
    requires { S.failed writer.old.sink < 2 ^ 64 - 1 }
    ensures { TakesOne (shown S.contents S.failed writer.old) (given item.now) number.old result
        (writing (shown S.contents S.failed writer.new)) number.new }
{
    match item {
        Item::Batch(batch) => add(writer, number, batch),
        Item::Schema | Item::Dictionary(_) | Item::End => Ok(()),
    }
}

impl<S: Sink> Copier<S> {
    /// Handles a message that the reader has just read: the first one, the schema, starts the
    /// writer.
    pub(crate) fn take(self, reader: &StreamReader, item: &Item) -> (Self, Result<(), ToolFault>)
        requires { failures_at (at_of S.contents S.failed self.target) < 2 ^ 64 - 1 }
        ensures takes { TakesItem self.terms.limits (options_view self.terms.options)
            reader.now.at.state.schema (given item.now)
            (at_of S.contents S.failed self.target) self.number result.1
            (at_of S.contents S.failed result.0.target) result.0.number }
        ensures terms { result.0.terms ≡ self.terms }
    {
        let Copier {
            terms,
            target,
            mut number,
        } = self;
        match target {
            WriterState::Waiting(sink) => {
                let (target, answer) = match reader.schema() {
                    Some(schema) => begin(&terms, sink, schema),
                    None => (WriterState::Waiting(sink), Ok(())),
                };
                let copier = Copier {
                    terms,
                    target,
                    number,
                };
                (copier, answer)
            }
            WriterState::Writing(mut writer) => {
                let answer = take_one(&mut writer, &mut number, item);
                let copier = Copier {
                    terms,
                    target: WriterState::Writing(writer),
                    number,
                };
                (copier, answer)
            }
        }
    }

    /// Writes the end marker after the last batch.
    pub(crate) fn finish(self) -> (Self, Result<(), ToolFault>)
        requires { failures_at (at_of S.contents S.failed self.target) < 2 ^ 64 - 1 }
        ensures closes { Closes (at_of S.contents S.failed self.target) result.1
            (at_of S.contents S.failed result.0.target) }
        ensures terms { result.0.terms ≡ self.terms }
        ensures number { result.0.number ≡ self.number }
        ensures passed { IsWriting (at_of S.contents S.failed self.target)
            → OnOk result.1 (IsPassedOn S.is_passed_on result.0.target) }
    {
        let Copier {
            terms,
            target,
            number,
        } = self;
        let (target, answer) = close(target);
        let copier = Copier {
            terms,
            target,
            number,
        };
        (copier, answer)
    }
}

/// Writes the end marker after the last batch.
pub(crate) fn close<S: Sink>(target: WriterState<S>) -> (WriterState<S>, Result<(), ToolFault>)
    requires failed { failures_at (at_of S.contents S.failed target) < 2 ^ 64 - 1 }
    ensures closes { Closes (at_of S.contents S.failed target) result.1
        (at_of S.contents S.failed result.0) }
    ensures passed { IsWriting (at_of S.contents S.failed target)
        → OnOk result.1 (IsPassedOn S.is_passed_on result.0) }
{
    match target {
        WriterState::Waiting(sink) => (WriterState::Waiting(sink), Ok(())),
        WriterState::Writing(mut writer) => {
            let finished = writer.finish();
            let answer = finished.map_err(|kind| fault_of(RefusedItem::Finish, kind));
            (WriterState::Writing(writer), answer)
        }
    }
}

impl<S: Sink> WriterState<S> {
    /// The output.
    pub(crate) fn into_sink(self) -> S
        ensures { result ≡ sink_in self }
    {
        match self {
            WriterState::Waiting(sink) => sink,
            WriterState::Writing(writer) => writer.into_sink(),
        }
    }
}

/// The program's fault for a writer's fault.
fn fault_of(what: RefusedItem, kind: WriteFault) -> ToolFault
    ensures { result ≡ fault_of what kind }
{
    match kind {
        WriteFault::Sink => ToolFault::Output,
        WriteFault::Memory => ToolFault::Memory,
        _ => ToolFault::Refused(what, kind),
    }
}
