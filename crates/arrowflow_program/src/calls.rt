//! The library's calls over an input and an output that is flushed before the input is read.

use crate::ends::{Source, open_watched};
use crate::host::Host;
use crate::output_buffer::{BufferedOutput, FlushBeforeRead, OutputBuffer};
use crate::progress_reader::ProgressReader;
use arrow_sink::Counted;
use arrow_types::Limits;
use arrowflow_copy::copy_within;
use arrowflow_input::{Bounded, Excess, ToolFault, WholeLimits};
use arrowflow_json::{check_json, schema_json, show_json};
use arrowflow_line::CopyOptions;
use arrowflow_text::{ColumnsFault, Selection, check_within, show_within};
use std::alloc::Global;
use std::io::{Read, Write};
use std::rc::Rc;

/// An input, and an output whose bytes are buffered until the input is read again.
#[derive(Drop)]
pub(crate) struct Ends<I: Read + Drop, W: Write + Drop> {
    input: FlushBeforeRead<I, W>,
    output: BufferedOutput<W>,
    held: Rc<OutputBuffer<W>>,
}

/// How a call ended, the bound that its stream passed, if it did, and whether the reader of its
/// output has gone.
#[derive(Drop)]
pub(crate) struct Ended {
    pub(crate) answer: Result<(), ToolFault>,
    pub(crate) excess: Option<Excess>,
    pub(crate) is_closed: bool,
}

impl Ended {
    /// Writes the buffered bytes, and returns how a call with this result ended over an input that
    /// passed this bound, if it did. If the output failed, the result says so, and names no bound.
    fn of<W: Write + Drop>(
        answer: Result<(), ToolFault>,
        excess: Option<Excess>,
        held: &OutputBuffer<W>,
    ) -> Ended {
        let answer = held.finish().and(answer);
        let excess = match answer {
            Err(ToolFault::Input(_)) => excess,
            Ok(()) | Err(_) => None,
        };
        Ended {
            answer,
            excess,
            is_closed: held.is_closed(),
        }
    }
}

/// What is written as JSON objects, one on each line.
#[derive(Clone, Copy)]
pub(crate) enum JsonLines {
    /// The columns.
    Columns,
    /// The messages.
    Messages,
    /// The rows.
    Rows,
}

/// The input with this name, opened for a command that prints on this output. `Memory` if the
/// buffer cannot be allocated.
pub(crate) fn open_ends<'a, R: Host, W: Write + Drop>(
    rt: &'a R,
    command: &'a str,
    name: &str,
    output: W,
) -> Result<Ends<ProgressReader<'a, R, Source<R::File, R::Reader>>, W>, ToolFault> {
    Ends::new(rt.alloc(), open_watched(rt, command, name, true)?, output)
}

impl<I: Read + Drop, W: Write + Drop> Ends<I, W> {
    /// This input and this output. `Memory` if the buffer cannot be allocated.
    pub(crate) fn new(alloc: Global, input: I, output: W) -> Result<Ends<I, W>, ToolFault> {
        let held = OutputBuffer::new(alloc, output).map_err(|_| ToolFault::Memory)?;
        let held = Rc::new(alloc, held).map_err(|_| ToolFault::Memory)?;
        let intake = Rc::clone(&held).map_err(|_| ToolFault::Memory)?;
        let pausing = Rc::clone(&held).map_err(|_| ToolFault::Memory)?;
        Ok(Ends {
            input: FlushBeforeRead::new(input, pausing),
            output: BufferedOutput::new(intake),
            held,
        })
    }

    /// Writes a line for each message, and returns the input.
    pub(crate) fn check(self, alloc: Global, limits: &Limits, whole: WholeLimits) -> (I, Ended) {
        let mut input = Bounded::new(self.input, whole);
        let (_, answer) = check_within(alloc, &mut input, Counted::new(self.output), limits);
        let ended = Ended::of(answer, input.excess(), &self.held);
        (input.into_inner().into_inner(), ended)
    }

    /// Writes JSON objects, those of columns and messages with this name of the file, and returns
    /// the input.
    pub(crate) fn json(
        self,
        alloc: Global,
        lines: JsonLines,
        file: Option<&str>,
        limits: &Limits,
    ) -> (I, Ended) {
        let (mut input, output) = (self.input, Counted::new(self.output));
        let (_, answer) = match lines {
            JsonLines::Columns => schema_json(alloc, &mut input, output, limits, file),
            JsonLines::Messages => check_json(alloc, &mut input, output, limits, file),
            JsonLines::Rows => show_json(alloc, &mut input, output, limits),
        };
        (input.into_inner(), Ended::of(answer, None, &self.held))
    }

    /// Writes the selected rows, and returns the input. An error is the index of the first
    /// requested column that the schema lacks.
    pub(crate) fn show(
        self,
        alloc: Global,
        selection: &Selection<'_>,
        limits: &Limits,
        whole: WholeLimits,
    ) -> (I, Result<Ended, usize>) {
        let (mut input, output) = (Bounded::new(self.input, whole), Counted::new(self.output));
        let (_, answer) = show_within(alloc, &mut input, output, selection, limits);
        let excess = input.excess();
        let ended = match answer {
            Ok(()) => Ok(Ended::of(Ok(()), None, &self.held)),
            Err(ColumnsFault::Tool(fault)) => Ok(Ended::of(Err(fault), excess, &self.held)),
            Err(ColumnsFault::Lacks(place)) => Err(place),
        };
        (input.into_inner().into_inner(), ended)
    }

    /// Writes the stream again, and returns the input.
    pub(crate) fn copy(
        self,
        alloc: Global,
        options: CopyOptions,
        limits: &Limits,
        whole: WholeLimits,
    ) -> (I, Ended) {
        let (mut input, output) = (Bounded::new(self.input, whole), Counted::new(self.output));
        let (_, answer) = copy_within(alloc, &mut input, output, options.stream, limits);
        if options.fail_downstream && answer.is_err() {
            self.held.cut();
        }
        let ended = Ended::of(answer, input.excess(), &self.held);
        (input.into_inner().into_inner(), ended)
    }
}
