//! Copies a stream piece by piece.

ghost use Rattle.std.specs.Prelude.{◌<◌, ◌-◌, ◌^◌, IfErr, OnOk};
ghost use Rattle.arrow_stream_writer.specs.Shown.{options_view};
ghost use Rattle.arrowflow_input.specs.Blame.{BlamesOnly};
ghost use Rattle.arrowflow_copy.specs.Copy.{CopiesInput};

use crate::copier::{Copier, CopySettings, WriterState};
use arrow_sink::Sink;
use arrow_stream_reader::StreamReader;
use arrow_stream_writer::Options;
use arrow_types::Limits;
use arrowflow_input::{Input, ToolFault, drive};
use std::alloc::Global;

/// Writes a stream again, with its dictionaries and buffers sent as the options say, and returns
/// the output (Columnar Format, "IPC Streaming Format").
///
/// The schema is written once its message was read, and each batch as it comes, so memory is
/// bounded by a message, whatever the stream's length. After the last batch an end marker is
/// written, and the output is flushed once, before `Ok`.
///
/// The input is read in pieces of 65,536 bytes up to an end marker, or to its end. `Stream` if the
/// stream is rejected, or if it ends without being at the end of a message after its schema;
/// `Input(0)` if a read failed, an interrupted one included; `Refused` if the schema, the next
/// batch or the end marker cannot be written within the limits: then the output has the batches of
/// the complete messages before, without end marker. `Output` if the output failed, and `Memory` if
/// an allocation failed: then it has a prefix of them, perhaps with a beginning of the next one.
/// After an error the output has bytes of the end marker only if the error is `Output`, and then
/// after all batches of an input that ended as for `Ok`.
pub fn copy<R: Input, S: Sink>(
    alloc: Global,
    input: &mut R,
    output: S,
    options: Options,
    limits: &Limits,
) -> (S, Result<(), ToolFault>)
    requires { S.failed output < 2 ^ 64 - 1 }
    ensures written { CopiesInput limits.now (options_view options) (R.remaining input.old)
        (R.remaining input.new) (S.contents output) (S.failed output) result.1
        (S.contents result.0) (S.failed result.0) }
    ensures passed { OnOk result.1 (S.is_passed_on result.0) }
    ensures blameless { IfErr result.1 (BlamesOnly (R.has_failed input.new)) }
{
    let mut reader = StreamReader::new(alloc, *limits);
    let copier = Copier {
        terms: CopySettings {
            alloc,
            options,
            limits: *limits,
        },
        target: WriterState::Waiting(output),
        number: 0,
    };
    let (copier, answer) = drive(alloc, &mut reader, input, copier);
    let Copier {
        terms: _,
        target,
        number: _,
    } = copier;
    (target.into_sink(), answer)
}
