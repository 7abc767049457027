//! A stream written as lines of JSON.

ghost use Rattle.std.specs.Prelude.{◌<◌, ◌-◌, ◌^◌, IfErr, OnOk};
ghost use Rattle.arrowflow_input.specs.Blame.{BlamesOnly};
ghost use Rattle.arrowflow_json.specs.Shows.{ShowsInput};

use crate::row_lines::RowLines;
use arrow_sink::Sink;
use arrow_stream_reader::StreamReader;
use arrow_types::Limits;
use arrowflow_input::{Input, ToolFault, drive};
use std::alloc::Global;

/// Writes each row of a stream as a line of JSON, and returns the output.
///
/// A line is an object with a member for each column, in the order of the schema, and a line feed;
/// indices are looked up (`arrow_json`). Rows are written as their batches are read, so memory is
/// bounded by a message, whatever the stream's length.
///
/// The input is read in pieces of 65,536 bytes up to an end marker, or to its end; the output is
/// flushed once, before `Ok`. `Stream` if the stream is rejected, or if it ends anywhere but at the
/// end of a message after its schema; `Input(0)` if a read failed, including an interrupted one:
/// then the lines of the complete messages are written. `Output` if the output failed, and `Memory`
/// if an allocation failed: then a prefix of them is written.
pub fn show_json<R: Input, S: Sink>(
    alloc: Global,
    input: &mut R,
    output: S,
    limits: &Limits,
) -> (S, Result<(), ToolFault>)
    requires { S.failed output < 2 ^ 64 - 1 }
    ensures written { ShowsInput limits.now (R.remaining input.old) (R.remaining input.new)
        (S.contents output) (S.failed output) result.1 (S.contents result.0) (S.failed result.0) }
    ensures passed { OnOk result.1 (S.is_passed_on result.0) }
    ensures blameless { IfErr result.1 (BlamesOnly (R.has_failed input.new)) }
{
    let mut reader = StreamReader::new(alloc, *limits);
    let lines = RowLines { alloc, output };
    let (lines, answer) = drive(alloc, &mut reader, input, lines);
    let RowLines { alloc: _, output } = lines;
    (output, answer)
}
