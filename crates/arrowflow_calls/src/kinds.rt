//! The numbers that report to a caller how a call ended.

ghost use Rattle.std.specs.Prelude.{◌≡◌};
ghost use Rattle.arrowflow_calls.specs.Kinds.{kind_by, kind_of, place_of};

use arrow_stream_reader::Fault;
use arrowflow_input::{RefusedItem, ToolFault};

/// An allocation failed: nothing is said of the stream.
pub const MEMORY: u32 = 19;

/// A limit is above its ceiling: nothing was read.
pub const BAD_LIMITS: u32 = 20;

/// The handle has no reader.
pub const NO_HANDLE: u32 = 21;

/// The number of how a stream ends: 0 without a fault, else that of the fault's kind, 1 to 18.
pub(crate) fn kind_by(answer: Result<(), Fault>) -> u32
    ensures { result ≡ kind_by answer }
{
    match answer {
        Ok(()) => 0,
        Err(fault) => fault.kind.number() as u32,
    }
}

/// The number of a fault: 1 to 18 for a fault of the stream, 19 if an allocation failed, 22 if an
/// input failed, which bytes in memory cannot do, and from 30, 40 or 50 on if the writer rejected
/// the schema, a batch or the end marker. An output in memory fails only if an allocation fails.
pub(crate) fn kind_of(fault: &ToolFault) -> u32
    ensures { result ≡ kind_of fault.now }
{
    match fault {
        ToolFault::Stream(fault) => fault.kind.number() as u32,
        ToolFault::Memory | ToolFault::Output => MEMORY,
        ToolFault::Input(_) => 22,
        ToolFault::Refused(RefusedItem::Start, kind) => 30 + kind.number() as u32,
        ToolFault::Refused(RefusedItem::Batch(_), kind) => 40 + kind.number() as u32,
        ToolFault::Refused(RefusedItem::Finish, kind) => 50 + kind.number() as u32,
    }
}

/// The place of a stream's fault in bytes from the stream's beginning, or the number of the
/// rejected batch.
pub(crate) fn place_of(fault: &ToolFault) -> u64
    ensures { result ≡ place_of fault.now }
{
    match fault {
        ToolFault::Stream(fault) => fault.place,
        ToolFault::Refused(RefusedItem::Batch(number), _) => *number as u64,
        ToolFault::Refused(RefusedItem::Start | RefusedItem::Finish, _) => 0,
        ToolFault::Memory | ToolFault::Output | ToolFault::Input(_) => 0,
    }
}
