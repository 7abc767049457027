//! An input with bounds, whose messages are passed to a consumer as long as they keep them.

ghost use Rattle.std.specs.Prelude.{◌≡◌, Err, IfErr, IfSome};
ghost use Rattle.arrowflow_input.specs.Blame.{BlamesOnly};
ghost use Rattle.arrowflow_input.specs.Within.{DrivesWithin, IsToBlame, left_of};
ghost use Rattle.arrowflow_input.specs.declared.tool_fault.ToolFault.TheVariants.{Input as Unread};

use crate::bounded::Bounded;
use crate::consumer::Consumer;
use crate::counting::Counting;
use crate::driver::drive;
use crate::tool_fault::ToolFault;
use arrow_stream_reader::{Input, StreamReader};
use std::alloc::Global;

/// Reads a stream as [`drive`](crate::drive) does, and passes its messages to a consumer, as long
/// as they keep the bounds of the input.
///
/// If the stream passes a bound, the call returns `Input(0)`, the consumer was given the messages
/// before the one that passes it, and [`Bounded::excess`] has the bound and the offset. Otherwise
/// the answer and what was given are those of `drive`, and there is no excess.
pub fn drive_within<R: Input, C: Consumer>(
    alloc: Global,
    reader: &mut StreamReader,
    input: &mut Bounded<R>,
    consumer: C,
) -> (C, Result<(), ToolFault>)
    requires ready { C.is_ready consumer }
    ensures driven { DrivesWithin C.keeps C.answers consumer input.old.whole reader.old.limits
        (left_of R.remaining input.old) (left_of R.remaining input.new) input.new.excess result.1
        result.0 reader.new }
    ensures limits { reader.new.limits ≡ reader.old.limits }
    ensures excess { IfSome input.new.excess (λ _. result.1 ≡ Err (Unread 0)) }
    ensures whole { input.new.whole ≡ input.old.whole }
    ensures blameless { IfErr result.1 (BlamesOnly (IsToBlame R.has_failed input.new)) }
{
    let counting = Counting::new(consumer, input.whole);
    let (counting, answer) = drive(alloc, reader, &mut input.capped, counting);
    let (consumer, excess) = counting.into_parts();
    if let Some(passed) = excess {
        input.excess = Some(passed);
        return (consumer, Err(ToolFault::Input(0)));
    }
    match input.longer(reader, &answer) {
        Some(passed) => {
            input.excess = Some(passed);
            (consumer, Err(ToolFault::Input(0)))
        }
        None => {
            input.excess = None;
            (consumer, answer)
        }
    }
}
