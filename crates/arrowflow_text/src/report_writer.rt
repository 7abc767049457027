//! A stream reported message by message.

ghost use Rattle.std.specs.Prelude.{◌≡◌, ◌<◌, ◌+◌, ◌-◌, ◌^◌, IfErr, IfOk, MatchBool, MatchOption, None, Ok};
ghost use Rattle.std.specs.Prelude.{OnOk, Some, length};
ghost use Rattle.arrow_stream_reader.specs.Views.{given};
ghost use Rattle.arrow_stream_reader.specs.Tables.{table_in};
ghost use Rattle.arrow_csv.specs.Layouts.{form_by};
ghost use Rattle.arrow_csv.specs.Named.{choice_by, chosen_schema};
ghost use Rattle.arrowflow_input.specs.Blame.{BlamesNone};
ghost use Rattle.arrowflow_text.specs.Chosen.{IsChosenAt, LacksAt, choice_of, chosen_given};
ghost use Rattle.arrowflow_text.specs.Chosen.{form_of};
ghost use Rattle.arrowflow_input.specs.Consumer.{Ends, Takes};
ghost use Rattle.arrowflow_text.specs.Windows.{IsOver, IsPartIn, window_after};
ghost use Rattle.arrowflow_text.specs.Lines.{IsLine};
ghost use Rattle.arrowflow_text.specs.Reports.{IsAdded};
ghost use Rattle.arrowflow_input.specs.Endings.{SendsText, SendsSome};
ghost use Rattle.arrowflow_text.specs.Shown.{IsTextIn, header_in};
ghost use Rattle.arrowflow_text.specs.ReportWriting.{AreCountsSame, HasReported, IsLastBy, IsReportWriterSame};
ghost use Rattle.arrowflow_text.specs.ReportWriting.{ReportsSo};
ghost use Rattle.std.specs.declared.ops.ControlFlow.TheVariants.{Continue};
ghost use Rattle.arrowflow_input.specs.declared.tool_fault.ToolFault.TheVariants.{Memory};

use crate::lines::{MessageLine, end_line, push_line};
use crate::report::ReportKind;
use crate::sending::{flush, send_rows, send_text};
use crate::window::Window;
use arrow_csv::{BatchRows, Layout, header_of, lacking};
use arrow_sink::Sink;
use arrow_stream_reader::{Item, StreamReader};
use arrowflow_input::{Consumer, ToolFault};
use std::alloc::Global;
use std::ops::ControlFlow;

/// A stream that is reported into an output: what is reported, how many of its batches came, which
/// rows are still to be written, if not all are, the index of the first column asked for that its
/// schema was found to lack, and the buffer in which the lines of its messages, or the texts of
/// their rows, are made, one after another.
#[derive(Drop)]
pub(crate) struct ReportWriter<'a, S: Sink> {
    alloc: Global,
    report: ReportKind<'a>,
    output: S,
    number: u64,
    window: Option<Window>,
    lacks: Option<usize>,
    text: Vec<u8>,
}

impl<'a, S: Sink> ReportWriter<'a, S> {
    /// A new one, which is to write the rows in a window, or all. It allocates nothing.
    pub(crate) fn new(
        alloc: Global,
        report: ReportKind<'a>,
        window: Option<Window>,
        output: S,
    ) -> Self
        ensures number { result.number ≡ 0 }
        ensures report { result.report ≡ report.entry }
        ensures output { result.output ≡ output }
        ensures window { result.window ≡ window }
        ensures lacks { result.lacks ≡ None }
    {
        ReportWriter {
            alloc,
            report,
            output,
            number: 0,
            window,
            lacks: None,
            text: Vec::new(alloc),
        }
    }

    /// The output, and the index of the first column asked for that the schema was found to lack.
    pub(crate) fn into_parts(self) -> (S, Option<usize>)
        ensures output { result.0 ≡ self.entry.output }
        ensures lacks { result.1 ≡ self.entry.lacks }
    {
        let ReportWriter {
            alloc: _,
            report: _,
            output,
            number: _,
            window: _,
            lacks,
            text: _,
        } = self;
        (output, lacks)
    }

    /// Counts a message's batch, if it is one; returns how many batches came before.
    fn count(&mut self, item: &Item) -> Result<u64, ToolFault>
        ensures number { IfOk result (λ before. before ≡ self.old.number) }
        ensures counted { OnOk result
            (self.new.number ≡ self.old.number + length (table_in (given item.now))) }
        ensures window { self.new.window ≡ self.old.window }
        ensures output { self.new.output ≡ self.old.output }
        ensures same { IsReportWriterSame self.old self.new }
        ensures memory { IfErr result (λ fault. fault ≡ Memory) }
    {
        let before = self.number;
        if let Item::Batch(_) = item {
            let Some(next) = before.checked_add(1) else {
                return Err(ToolFault::Memory);
            };
            self.number = next;
        }
        Ok(before)
    }

    /// Notes which rows are to be written after a message that comes after this number of batches;
    /// returns whether none is.
    fn pass(&mut self, window: Window, item: &Item, number: u64) -> bool
        ensures window { self.new.window
            ≡ Some (window_after window number (table_in (given item.now))) }
        ensures over { MatchBool result
            (IsOver (window_after window number (table_in (given item.now))) self.old.number)
            (IsOver (window_after window number (table_in (given item.now))) self.old.number → ⊥) }
        ensures number { self.new.number ≡ self.old.number }
        ensures output { self.new.output ≡ self.old.output }
        ensures same { IsReportWriterSame self.old self.new }
    {
        let left = match item {
            Item::Batch(batch) => window.after(number, batch.rows()),
            Item::Schema | Item::Dictionary(_) | Item::End => window,
        };
        self.window = Some(left);
        left.is_over(self.number)
    }

    /// Reports a message that the reader has just read and that begins at this offset; returns
    /// whether more are needed.
    fn put(
        &mut self,
        reader: &StreamReader,
        place: u64,
        item: &Item,
    ) -> Result<ControlFlow<()>, ToolFault>
        requires ready { S.failed self.old.output < 2 ^ 64 - 1 }
        ensures takes { Takes (HasReported S.contents S.failed)
            (ReportsSo S.contents S.failed S.is_passed_on) self.old place item.now reader.now result
            self.new }
        ensures ready { result ≡ Ok (Continue tt) → S.failed self.new.output < 2 ^ 64 - 1 }
        ensures blameless { IfErr result BlamesNone }
    {
        if let Some(column) = lacking_in(self.report, reader, item) {
            self.lacks = Some(column);
            return Ok(ControlFlow::Break(()));
        }
        let message = MessageLine {
            reader,
            place,
            item,
        };
        let Some(window) = self.window else {
            self.put_whole(message)?;
            return Ok(ControlFlow::Continue(()));
        };
        let number = self.number;
        self.put_part(window, message)?;
        if !self.pass(window, item, number) {
            return Ok(ControlFlow::Continue(()));
        }
        flush(&mut self.output)?;
        Ok(ControlFlow::Break(()))
    }

    /// Reports all of a message.
    fn put_whole(&mut self, message: MessageLine) -> Result<(), ToolFault>
        requires failed { S.failed self.old.output < 2 ^ 64 - 1 }
        requires chosen { IsChosenAt (choice_of self.old.report)
            message.reader.now.at.state.schema (given message.item.now) }
        ensures sent { SendsSome (IsAdded self.old.report
            message.entry.reader.now.at.state.schema message.entry.place self.old.number
            (given message.entry.item.now)) (S.contents self.old.output)
            (S.failed self.old.output) result (S.contents self.new.output)
            (S.failed self.new.output) }
        ensures counted { OnOk result (self.new.number
            ≡ self.old.number + length (table_in (given message.entry.item.now))) }
        ensures window { self.new.window ≡ self.old.window }
        ensures same { IsReportWriterSame self.old self.new }
    {
        let number = self.count(message.item)?;
        match self.report {
            ReportKind::Messages => self.put_message(message, number),
            ReportKind::Rows(layout) => self.put_rows(layout, message, number),
        }
    }

    /// Writes the rows of a message that lie in the window.
    fn put_part(&mut self, window: Window, message: MessageLine) -> Result<(), ToolFault>
        requires failed { S.failed self.old.output < 2 ^ 64 - 1 }
        ensures sent { SendsSome (IsPartIn (form_of self.old.report) window
            (chosen_schema (choice_of self.old.report) message.entry.reader.now.at.state.schema)
            self.old.number
            (chosen_given (choice_of self.old.report) (given message.entry.item.now)))
            (S.contents self.old.output) (S.failed self.old.output) result
            (S.contents self.new.output) (S.failed self.new.output) }
        ensures counted { OnOk result (self.new.number
            ≡ self.old.number + length (table_in (given message.entry.item.now))) }
        ensures same { IsReportWriterSame self.old self.new }
    {
        let layout = self.report.layout();
        let number = self.count(message.item)?;
        match message.item {
            Item::Schema => self.put_header(layout, message.reader),
            Item::Batch(batch) => {
                let texts = BatchRows::of(self.alloc, number, batch, layout)?;
                let range = window.range(number, batch.rows());
                send_rows(&mut self.text, &texts, range, &mut self.output)
            }
            Item::Dictionary(_) | Item::End => Ok(()),
        }
    }

    /// Writes the record of the schema, if there is one.
    fn put_header(&mut self, layout: Layout<'_>, reader: &StreamReader) -> Result<(), ToolFault>
        requires { S.failed self.old.output < 2 ^ 64 - 1 }
        ensures sent { SendsText (S.contents self.old.output) (S.failed self.old.output)
            (header_in (form_by layout.entry) (chosen_schema (choice_by layout.entry.columns)
            reader.now.at.state.schema)) result
            (S.contents self.new.output) (S.failed self.new.output) }
        ensures same { IsReportWriterSame self.old self.new }
        ensures counts { AreCountsSame self.old self.new }
    {
        match reader.schema() {
            Some(schema) => send_text(&mut self.output, &header_of(self.alloc, schema, layout)?),
            None => Ok(()),
        }
    }

    /// Writes the line of a message that comes after this number of batches.
    fn put_message(&mut self, message: MessageLine, number: u64) -> Result<(), ToolFault>
        requires { S.failed self.old.output < 2 ^ 64 - 1 }
        ensures sent { SendsSome (IsLine message.entry.reader.now.at.state.schema
            message.entry.place number (given message.entry.item.now)) (S.contents self.old.output) (S.failed self.old.output) result
            (S.contents self.new.output) (S.failed self.new.output) }
        ensures same { IsReportWriterSame self.old self.new }
        ensures counts { AreCountsSame self.old self.new }
    {
        self.text.clear();
        push_line(&mut self.text, message, number)?;
        send_text(&mut self.output, &self.text)
    }

    /// Writes what a message that comes after this number of batches adds to the text of the rows.
    fn put_rows(
        &mut self,
        layout: Layout<'_>,
        message: MessageLine,
        number: u64,
    ) -> Result<(), ToolFault>
        requires { S.failed self.old.output < 2 ^ 64 - 1 }
        ensures sent { SendsSome (IsTextIn (form_by layout.entry)
            (chosen_schema (choice_by layout.entry.columns) message.entry.reader.now.at.state.schema)
            number (chosen_given (choice_by layout.entry.columns) (given message.entry.item.now)))
            (S.contents self.old.output) (S.failed self.old.output) result
            (S.contents self.new.output) (S.failed self.new.output) }
        ensures same { IsReportWriterSame self.old self.new }
        ensures counts { AreCountsSame self.old self.new }
    {
        match message.item {
            Item::Schema => self.put_header(layout, message.reader),
            Item::Batch(batch) => {
                let texts = BatchRows::of(self.alloc, number, batch, layout)?;
                let end = batch.rows();
                send_rows(&mut self.text, &texts, 0..end, &mut self.output)
            }
            Item::Dictionary(_) | Item::End => Ok(()),
        }
    }

    /// Reports the end of a stream that ended well, and flushes the output.
    fn finish(&mut self, reader: &StreamReader, marked: bool) -> Result<(), ToolFault>
        requires ready { S.failed self.old.output < 2 ^ 64 - 1 }
        ensures ends { Ends (HasReported S.contents S.failed)
            (ReportsSo S.contents S.failed S.is_passed_on) self.old marked reader.now result
            self.new }
        ensures blameless { IfErr result BlamesNone }
    {
        self.put_ending(reader, marked)?;
        flush(&mut self.output)
    }

    /// Reports the end of an input that ended without an end marker.
    fn put_ending(&mut self, reader: &StreamReader, marked: bool) -> Result<(), ToolFault>
        requires { S.failed self.old.output < 2 ^ 64 - 1 }
        ensures sent { SendsSome (IsLastBy marked self.old.report reader.now.at.place)
            (S.contents self.old.output) (S.failed self.old.output) result
            (S.contents self.new.output) (S.failed self.new.output) }
        ensures same { IsReportWriterSame self.old self.new }
        ensures counts { AreCountsSame self.old self.new }
    {
        match self.report {
            ReportKind::Messages if !marked => {
                send_text(&mut self.output, &end_line(self.alloc, reader.place())?)
            }
            ReportKind::Messages | ReportKind::Rows(_) => Ok(()),
        }
    }
}

impl<'a, S: Sink> Consumer for ReportWriter<'a, S> {
    ghost use Rattle.std.specs.Prelude.{◌<◌, ◌-◌, ◌^◌};
    ghost use Rattle.arrowflow_text.specs.ReportWriting.{HasReported, ReportWritingBegan, ReportsSo};

    ghost Start = { ReportWritingBegan };

    ghost is_ready = { λ c. S.failed c.output < 2 ^ 64 - 1 };

    ghost keeps = { HasReported S.contents S.failed };

    ghost answers = { ReportsSo S.contents S.failed S.is_passed_on };

    fn item(
        mut self,
        reader: &StreamReader,
        place: u64,
        item: Item,
    ) -> (Self, Result<ControlFlow<()>, ToolFault>) {
        let answer = self.put(reader, place, &item);
        (self, answer)
    }

    fn end(mut self, reader: &StreamReader, marked: bool) -> (Self, Result<(), ToolFault>) {
        let answer = self.finish(reader, marked);
        (self, answer)
    }
}

/// The index of the first column asked for that the schema lacks, if this is its message.
fn lacking_in(report: ReportKind, reader: &StreamReader, item: &Item) -> Option<usize>
    ensures { MatchOption result
        (IsChosenAt (choice_of report.entry) reader.now.at.state.schema (given item.now))
        (λ place. LacksAt (choice_of report.entry) reader.now.at.state.schema (given item.now)
        place) }
{
    match (item, report.layout().columns, reader.schema()) {
        (Item::Schema, Some(names), Some(schema)) => lacking(schema, names),
        (Item::Schema, Some(_), None) | (Item::Schema, None, _) => None,
        (Item::Dictionary(_) | Item::Batch(_) | Item::End, _, _) => None,
    }
}
