//! The messages of a stream, written as they are read.

ghost use Rattle.std.specs.Prelude.{◌≡◌, ◌<◌, ◌+◌, ◌-◌, ◌^◌, IfErr, IfOk, OnOk, length};
ghost use Rattle.arrow_stream_reader.specs.Tables.{table_in};
ghost use Rattle.arrow_stream_reader.specs.Views.{given};
ghost use Rattle.arrowflow_input.specs.Endings.{SendsSome};
ghost use Rattle.arrowflow_input.specs.declared.tool_fault.ToolFault.TheVariants.{Memory};
ghost use Rattle.arrowflow_json.specs.Fields.{name_by};
ghost use Rattle.arrowflow_json.specs.Messages.{IsMessageLine};
ghost use Rattle.arrowflow_json.specs.Showing.{IsLastBy};

use crate::message_texts::{MessageText, end_line, message_line};
use crate::sending::{flush, send_text};
use arrow_sink::Sink;
use arrow_stream_reader::{Item, StreamReader};
use arrowflow_input::{Consumer, ToolFault};
use std::alloc::Global;
use std::ops::ControlFlow;

/// An output to which the lines of a stream's messages are written as they are read: the name of
/// the file, if the lines have one, and the number of batches so far.
#[derive(Drop)]
pub(crate) struct MessageLines<'a, S: Sink> {
    pub(crate) alloc: Global,
    pub(crate) file: Option<&'a str>,
    pub(crate) output: S,
    pub(crate) number: u64,
}

impl<'a, S: Sink> MessageLines<'a, S> {
    /// Counts the batch of a message, if it has one; returns the number of batches before it.
    fn count(&mut self, item: &Item) -> Result<u64, ToolFault>
        ensures number { IfOk result (λ before. before ≡ self.old.number) }
        ensures counted { OnOk result
            (self.new.number ≡ self.old.number + length (table_in (given item.now))) }
        ensures output { self.new.output ≡ self.old.output }
        ensures file { self.new.file ≡ self.old.file }
        ensures memory { IfErr result (λ fault. fault ≡ Memory) }
    {
        let before = self.number;
        if let Item::Batch(_) = item {
            let Some(next) = before.checked_add(1) else {
                return Err(ToolFault::Memory);
            };
            self.number = next;
        }
        Ok(before)
    }

    /// Writes the line of a message.
    fn take(&mut self, reader: &StreamReader, place: u64, item: &Item) -> Result<(), ToolFault>
        requires { S.failed self.old.output < 2 ^ 64 - 1 }
        ensures sent { SendsSome (IsMessageLine (name_by self.old.file) reader.now.at.state.schema
            place self.old.number (given item.now)) (S.contents self.old.output)
            (S.failed self.old.output) result (S.contents self.new.output)
            (S.failed self.new.output) }
        ensures counted { OnOk result
            (self.new.number ≡ self.old.number + length (table_in (given item.now))) }
        ensures file { self.new.file ≡ self.old.file }
    {
        let before = self.count(item)?;
        let message = MessageText {
            reader,
            place,
            before,
            item,
        };
        self.send_message(message)
    }

    /// Sends the line of a message.
    fn send_message(&mut self, message: MessageText) -> Result<(), ToolFault>
        requires { S.failed self.old.output < 2 ^ 64 - 1 }
        ensures sent { SendsSome (IsMessageLine (name_by self.old.file)
            message.entry.reader.now.at.state.schema message.entry.place message.entry.before
            (given message.entry.item.now)) (S.contents self.old.output)
            (S.failed self.old.output) result (S.contents self.new.output)
            (S.failed self.new.output) }
        ensures number { self.new.number ≡ self.old.number }
        ensures file { self.new.file ≡ self.old.file }
    {
        let line = message_line(self.alloc, self.file, message)?;
        send_text(&mut self.output, &line)
    }

    /// Writes the last line of an input that ended without an end marker.
    fn send_end(&mut self, reader: &StreamReader, marked: bool) -> Result<(), ToolFault>
        requires { S.failed self.old.output < 2 ^ 64 - 1 }
        ensures { SendsSome (IsLastBy (name_by self.old.file) marked reader.now.at.place)
            (S.contents self.old.output) (S.failed self.old.output) result
            (S.contents self.new.output) (S.failed self.new.output) }
    {
        if marked {
            return Ok(());
        }
        let line = end_line(self.alloc, self.file, reader.place())?;
        send_text(&mut self.output, &line)
    }

    /// Writes the end, and flushes what was written.
    fn finish(&mut self, reader: &StreamReader, marked: bool) -> Result<(), ToolFault>
        requires { S.failed self.old.output < 2 ^ 64 - 1 }
        ensures sent { SendsSome (IsLastBy (name_by self.old.file) marked reader.now.at.place)
            (S.contents self.old.output) (S.failed self.old.output) result
            (S.contents self.new.output) (S.failed self.new.output) }
        ensures passed { OnOk result (S.is_passed_on self.new.output) }
    {
        self.send_end(reader, marked)?;
        flush(&mut self.output)
    }
}

/// It fails with `Output` if the output failed, and with `Memory` if an allocation failed; it never
/// stops the read.
impl<'a, S: Sink> Consumer for MessageLines<'a, S> {
    ghost use Rattle.std.specs.Prelude.{◌<◌, ◌-◌, ◌^◌};
    ghost use Rattle.arrowflow_json.specs.Showing.{CheckingBegan, ChecksSo, HaveChecked};

    ghost Start = { CheckingBegan };

    ghost is_ready = { λ c. S.failed c.output < 2 ^ 64 - 1 };

    ghost keeps = { HaveChecked S.contents S.failed };

    ghost answers = { ChecksSo S.contents S.failed S.is_passed_on };

    fn item(
        mut self,
        reader: &StreamReader,
        place: u64,
        item: Item,
    ) -> (Self, Result<ControlFlow<()>, ToolFault>) {
        match self.take(reader, place, &item) {
            Ok(()) => (self, Ok(ControlFlow::Continue(()))),
            Err(fault) => (self, Err(fault)),
        }
    }

    fn end(mut self, reader: &StreamReader, marked: bool) -> (Self, Result<(), ToolFault>) {
        let answer = self.finish(reader, marked);
        (self, answer)
    }
}
