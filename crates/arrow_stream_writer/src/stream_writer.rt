//! Batches go in, frames come out.

ghost use Rattle.std.specs.Prelude.{◌≡◌, ◌≢◌, ◌<◌, ◌-◌, ◌≤◌, ◌^◌, IfErr, IfOk, OnOk};
ghost use Rattle.arrow_dict.specs.Dictionaries.{entries_code};
ghost use Rattle.arrow_stream_writer.specs.Taking.{taking};
ghost use Rattle.std.specs.Coded.{Coded-set};

use crate::options::Options;
use crate::parts::PartBuilder;
use crate::sending::{send_end, send_part};
use crate::settings::Settings;
use arrow_data::Batch;
use arrow_dict::Tracker;
use arrow_sink::{Sink, Status, WriteFault, send};
use arrow_types::{Limits, Schema};
use std::alloc::Global;
use std::mem::replace;

/// The writer of a stream: a schema, then batches of it, then the end marker, each sent to the sink
/// as complete frames (Columnar Format, "IPC Streaming Format").
///
/// `shown` defines its view, and `arrow_stream_laws` what each call may return and leave: `Starts`,
/// `Writes`, `Finishes`. By its laws the bytes that the sink accepted, if they are known, are a
/// stream of just the rows of the batches that were accepted, and after a failure of the sink a
/// prefix of such a stream.
#[derive(Drop)]
pub struct StreamWriter<S> {
    sink: S,
    builder: PartBuilder,
    /// The offset of the next frame, in bytes from the stream's first.
    place: u64,
    status: Status,
    ghost near: { place ≤ 2 ^ 62 },
    ghost committed: { builder.tracker.next ≡ builder.tracker.sent } by { Coded-set entries_code builder.tracker.next builder.tracker.sent },
}

impl<S: Sink> StreamWriter<S> {
    ghost use Rattle.arrow_stream_laws.specs.Writer.{Finishes, StartFails, Starts, Writes};
    ghost use Rattle.arrow_sink.specs.declared.write_fault.WriteFault.TheVariants.{Sink};
    ghost use Rattle.arrow_stream_writer.specs.Shown.{options_view, shown};

    /// Sends the frame of the schema, and returns a writer of batches of this schema.
    ///
    /// Faults: `TooLarge` if the metadata of the schema do not keep to the limits, or the type of a
    /// field on any level is not in their set; `Memory` if an allocation failed; then the sink is
    /// returned untouched. `Sink` if the sink failed: it may have accepted a prefix of the frame.
    ///
    /// Condition: the sink has failed less than 2^64 - 1 times.
    pub fn start(
        alloc: Global,
        mut sink: S,
        schema: &Schema,
        options: Options,
        limits: Limits,
    ) -> Result<StreamWriter<S>, (WriteFault, S)>
        requires { S.failed sink < 2 ^ 64 - 1 }
        ensures starts { IfOk result (λ w. Starts limits (options_view options) schema.now
            (S.contents sink) (S.failed sink) (shown S.contents S.failed w)) }
        ensures fails { IfErr result (λ e. StartFails limits (options_view options) schema.now
            (S.contents sink) (S.failed sink) e.0 (S.contents e.1) (S.failed e.1)) }
        ensures untouched { IfErr result (λ e. e.0 ≢ Sink → e.1 ≡ sink) }
    {
        let Ok(mut builder) = PartBuilder::new(alloc, schema, options, limits) else {
            return Err((WriteFault::Memory, sink));
        };
        if let Err(fault) = builder.put_schema() {
            return Err((fault, sink));
        }
        match send(&mut sink, &builder.part.bytes) {
            Ok(()) => {
                let place = builder.part.bytes.len() as u64;
                Ok(StreamWriter {
                    sink,
                    builder,
                    place,
                    status: Status::Writing,
                })
            }
            Err(_) => Err((WriteFault::Sink, sink)),
        }
    }

    /// Sends the messages of a batch: the frames of the dictionary batches that are needed, in the
    /// order in which the schema's fields give their ids first, then that of its record batch.
    /// Everything is built before the first byte is sent.
    ///
    /// Faults, tested in this order: `Broken` and `Finished` if the writer takes nothing more;
    /// `SchemaDiffers`, `DictionariesDiffer`, `TooLarge` if the batch is rejected; `Memory` if an
    /// allocation failed, which may be returned before `TooLarge`. After these nothing was sent and
    /// nothing has changed, neither in the writer nor in its sink. `Sink` if the sink failed: it
    /// may have accepted a prefix of the batch messages, the dictionaries that were sent before
    /// stay in `sent`, and the writer is broken for good.
    ///
    /// Condition: the sink has failed less than 2^64 - 1 times.
    pub fn write(&mut self, batch: &Batch) -> Result<(), WriteFault>
        requires { S.failed self.old.sink < 2 ^ 64 - 1 }
        ensures answer { Writes (shown S.contents S.failed self.old) batch.now result
            (shown S.contents S.failed self.new) }
        ensures untouched { IfErr result (λ fault. fault ≢ Sink → self.new.sink ≡ self.old.sink) }
    {
        taking(self.status)?;
        self.builder.build(self.place, batch)?;
        match send_part(
            &mut self.sink,
            &self.builder.part,
            &mut self.builder.tracker,
        ) {
            Ok(()) => {
                self.place += self.builder.part.len() as u64;
                Ok(())
            }
            Err(fault) => {
                self.status = Status::Broken;
                Err(fault)
            }
        }
    }

    /// Sends the end marker, and flushes the sink once. Allocates nothing.
    ///
    /// Faults: `Broken` and `Finished` if the writer takes nothing more, `TooLarge` if the marker
    /// would end past the last offset; then nothing was sent and nothing has changed. `Sink` if the
    /// sink failed within the marker, or when it was flushed; then the writer is broken for good.
    ///
    /// Condition: the sink has failed less than 2^64 - 1 times.
    pub fn finish(&mut self) -> Result<(), WriteFault>
        requires { S.failed self.old.sink < 2 ^ 64 - 1 }
        ensures answer { Finishes (shown S.contents S.failed self.old) result
            (shown S.contents S.failed self.new) }
        ensures passed { OnOk result (S.is_passed_on self.new.sink) }
        ensures untouched { IfErr result (λ fault. fault ≢ Sink → self.new.sink ≡ self.old.sink) }
    {
        taking(self.status)?;
        if self.place > Limits::LAST_PLACE - 8 {
            return Err(WriteFault::TooLarge);
        }
        match send_end(&mut self.sink) {
            Ok(()) => {
                self.place += 8;
                self.status = Status::Finished;
                Ok(())
            }
            Err(fault) => {
                self.status = Status::Broken;
                Err(fault)
            }
        }
    }

    /// The dictionaries that were sent; none are staged. Allocates nothing.
    pub fn sent(&self) -> &Tracker
        ensures sent { result.now.sent ≡ (shown S.contents S.failed self.now).sent }
        ensures none_staged { result.now.next ≡ result.now.sent }
    {
        &self.builder.tracker
    }

    /// The sink. Allocates nothing.
    pub fn sink(&self) -> &S
        ensures { result.now ≡ self.now.sink }
    {
        &self.sink
    }

    /// Replaces the writer's sink by another one, and returns the old one: what is sent from here
    /// on goes to the new one. Allocates nothing.
    pub fn replace_sink(&mut self, sink: S) -> S
        ensures sink { result ≡ self.old.sink }
        ensures placed { self.new.sink ≡ sink }
        ensures kept { shown S.contents S.failed self.new
            ≡ record (shown S.contents S.failed self.old) {
              contents = S.contents sink;
              failures = S.failed sink;
            } }
    {
        replace(&mut self.sink, sink)
    }

    /// The sink, without the writer. Allocates nothing.
    pub fn into_sink(self) -> S
        ensures { result ≡ self.sink }
    {
        let StreamWriter {
            sink,
            builder: _,
            place: _,
            status: _,
        } = self;
        sink
    }
}

/// Whether a writer with this status takes more, or why not.
fn taking(status: Status) -> Result<(), WriteFault>
    ensures { result ≡ taking status }
{
    match status {
        Status::Broken => Err(WriteFault::Broken),
        Status::Finished => Err(WriteFault::Finished),
        Status::Writing => Ok(()),
    }
}
