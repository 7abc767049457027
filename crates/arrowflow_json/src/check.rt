//! The messages of a stream as lines of JSON.

ghost use Rattle.std.specs.Prelude.{◌≡◌, ◌<◌, ◌-◌, ◌^◌, ◌⊎◌, Err, IfErr, Ok, OnOk};
ghost use Rattle.arrow_stream_reader.specs.declared.fault.Fault.{Fault};
ghost use Rattle.arrowflow_input.specs.declared.tool_fault.ToolFault.TheVariants.{Stream};
ghost use Rattle.arrowflow_json.specs.Showing.{AddsFault};
ghost use Rattle.arrowflow_input.specs.Blame.{BlamesNone, BlamesOnly};
ghost use Rattle.arrowflow_input.specs.Endings.{SendsSome};
ghost use Rattle.arrowflow_json.specs.Fields.{name_by};
ghost use Rattle.arrowflow_json.specs.Messages.{ChecksInput, fault_line};

use crate::message_lines::MessageLines;
use crate::message_texts::fault_line;
use crate::sending::send_text;
use arrow_sink::Sink;
use arrow_stream_reader::{Fault, StreamReader};
use arrow_types::Limits;
use arrowflow_input::{Input, ToolFault, drive};
use std::alloc::Global;

/// Writes each message of a stream as a JSON object and a line feed, and returns the output.
///
/// `{"at":P,"message":"schema","columns":K}`, `{"at":P,"message":"dictionary","id":I,"values":N}`,
/// `{"at":P,"message":"batch","number":B,"rows":N}`, and last `{"at":P,"message":"end marker"}` or
/// `{"at":P,"message":"end of input"}`, where `P` is the offset of the message's first byte and
/// batches are counted from 0; if a file is named, `file` is the first member. If the stream is
/// rejected or ends too early, the last line is `{"at":P,"fault":"KIND"}`, with the fault that is
/// returned. As for `check` of `arrowflow_text`, the contract of the whole does not tie the
/// printed number of values to the dictionary: it only says that some dictionaries had that many.
///
/// The input is read, and the call ends, as for [`show_json`](crate::show_json); the output is
/// flushed once, before `Ok`. If the output fails at the line of a fault, `Output` is returned.
pub fn check_json<R: Input, S: Sink>(
    alloc: Global,
    input: &mut R,
    output: S,
    limits: &Limits,
    file: Option<&str>,
) -> (S, Result<(), ToolFault>)
    requires { S.failed output < 2 ^ 64 - 1 }
    ensures written { ChecksInput (name_by file.entry) limits.now (R.remaining input.old)
        (R.remaining input.new) (S.contents output) (S.failed output) result.1
        (S.contents result.0) (S.failed result.0) }
    ensures passed { OnOk result.1 (S.is_passed_on result.0) }
    ensures blameless { IfErr result.1 (BlamesOnly (R.has_failed input.new)) }
{
    let mut reader = StreamReader::new(alloc, *limits);
    let lines = MessageLines {
        alloc,
        file,
        output,
        number: 0,
    };
    let (lines, answer) = drive(alloc, &mut reader, input, lines);
    let MessageLines { output, .. } = lines;
    with_fault(alloc, file, answer, output)
}

/// Sends the line of a fault, if the stream has one; returns the output, with the result.
fn with_fault<S: Sink>(
    alloc: Global,
    file: Option<&str>,
    answer: Result<(), ToolFault>,
    mut output: S,
) -> (S, Result<(), ToolFault>)
    requires { (fault : Fault) → answer ≡ Err (Stream fault) → S.failed output < 2 ^ 64 - 1 }
    ensures adds { AddsFault (name_by file.entry) answer (S.contents output) (S.failed output)
        result.1 (S.contents result.0) (S.failed result.0) }
    ensures same { OnOk result.1 ((answer ≡ Ok tt) × (result.0 ≡ output)) }
    ensures blameless { IfErr result.1 (λ fault. BlamesNone fault ⊎ (answer ≡ Err fault)) }
{
    match answer {
        Ok(()) => (output, Ok(())),
        Err(ToolFault::Stream(fault)) => match send_fault(alloc, file, fault, &mut output) {
            Ok(()) => (output, Err(ToolFault::Stream(fault))),
            Err(other) => (output, Err(other)),
        },
        Err(ToolFault::Input(number)) => (output, Err(ToolFault::Input(number))),
        Err(ToolFault::Refused(what, kind)) => (output, Err(ToolFault::Refused(what, kind))),
        Err(ToolFault::Output) => (output, Err(ToolFault::Output)),
        Err(ToolFault::Memory) => (output, Err(ToolFault::Memory)),
    }
}

/// Sends the line of a fault.
fn send_fault<S: Sink>(
    alloc: Global,
    file: Option<&str>,
    fault: Fault,
    output: &mut S,
) -> Result<(), ToolFault>
    requires { S.failed output.old < 2 ^ 64 - 1 }
    ensures sent { SendsSome (λ text. text ≡ fault_line (name_by file.entry) fault)
        (S.contents output.old) (S.failed output.old) result (S.contents output.new)
        (S.failed output.new) }
    ensures blameless { IfErr result BlamesNone }
{
    let line = fault_line(alloc, file, fault)?;
    send_text(output, &line)
}
