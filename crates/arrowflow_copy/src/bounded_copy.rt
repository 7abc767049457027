//! Copies a stream with bounds piece by piece.

ghost use Rattle.std.specs.Prelude.{◌≡◌, ◌<◌, ◌-◌, ◌^◌, Err, IfErr, IfSome, OnOk};
ghost use Rattle.arrow_stream_writer.specs.Shown.{options_view};
ghost use Rattle.arrowflow_input.specs.Blame.{BlamesOnly};
ghost use Rattle.arrowflow_input.specs.Within.{IsToBlame, left_of};
ghost use Rattle.arrowflow_input.specs.declared.tool_fault.ToolFault.TheVariants.{Input as Unread};
ghost use Rattle.arrowflow_copy.specs.WithinCopy.{CopiesWithin};

use crate::copier::{Copier, CopySettings, WriterState};
use arrow_sink::Sink;
use arrow_stream_reader::StreamReader;
use arrow_stream_writer::Options;
use arrow_types::Limits;
use arrowflow_input::{Bounded, Input, ToolFault, drive_within};
use std::alloc::Global;

/// Writes a stream again as [`copy`](crate::copy) does, as long as it keeps the bounds of its
/// input, and returns the output.
///
/// If the stream exceeds a bound, `Input(0)` is returned, and [`Bounded::excess`] has the bound and
/// the place: the batches of the messages before it are written, without an end marker. Otherwise
/// the result and the bytes written are those of [`copy`](crate::copy).
pub fn copy_within<R: Input, S: Sink>(
    alloc: Global,
    input: &mut Bounded<R>,
    output: S,
    options: Options,
    limits: &Limits,
) -> (S, Result<(), ToolFault>)
    requires { S.failed output < 2 ^ 64 - 1 }
    ensures written { CopiesWithin input.old.whole limits.now (options_view options)
        (left_of R.remaining input.old) (left_of R.remaining input.new) input.new.excess
        (S.contents output) (S.failed output) result.1 (S.contents result.0) (S.failed result.0) }
    ensures excess { IfSome input.new.excess (λ _. result.1 ≡ Err (Unread 0)) }
    ensures passed { OnOk result.1 (S.is_passed_on result.0) }
    ensures blameless { IfErr result.1 (BlamesOnly (IsToBlame R.has_failed input.new)) }
{
    let mut reader = StreamReader::new(alloc, *limits);
    let copier = Copier {
        terms: CopySettings {
            alloc,
            options,
            limits: *limits,
        },
        target: WriterState::Waiting(output),
        number: 0,
    };
    let (copier, answer) = drive_within(alloc, &mut reader, input, copier);
    let Copier {
        terms: _,
        target,
        number: _,
    } = copier;
    (target.into_sink(), answer)
}
