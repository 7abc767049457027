//! Faults of the program's commands, with the line and the exit status of each.

ghost use Rattle.std.specs.Prelude.{◌≡◌, ◌++◌, IfOk, OnOk, string_bytes};
ghost use Rattle.arrowflow_input.specs.Faults.{fault_line, is_memory, refusal_name, status_of};
ghost use Rattle.arrowflow_input.specs.Faults.{reported, what_text};
ghost use Rattle.arrowflow_input.specs.declared.tool_fault.ToolFault.TheVariants.{Memory, Output};

use crate::what::RefusedItem;
use arrow_sink::{SinkFault, WriteFault};
use arrow_stream_reader::{Fault, Kind};
use std::alloc::{AllocError, Global};
use std::fmt::Write;
use thiserror::Error;

/// Why a command gives no result.
#[derive(Debug, Drop, Error)]
pub enum ToolFault {
    /// The input of this number, counted from 0, could not be read. An interrupted read counts as
    /// failed.
    #[error("cannot read input {0}")]
    Input(u64),
    /// The output failed.
    #[error("cannot write the output")]
    Output,
    /// A stream was rejected, or ended too early.
    #[error(transparent)]
    Stream(Fault),
    /// The writer rejected the schema, a batch or the end marker.
    #[error("refused {0:?}: {1:?}")]
    Refused(RefusedItem, WriteFault),
    /// An allocation failed.
    #[error("out of memory")]
    Memory,
}

/// A reader's fault: `Memory` if an allocation failed, else `Stream`.
impl From<Fault> for ToolFault {
    ghost from_gives = { λ fault tool. tool ≡ reported fault };

    fn from(fault: Fault) -> ToolFault {
        if is_memory(fault.kind) {
            ToolFault::Memory
        } else {
            ToolFault::Stream(fault)
        }
    }
}

/// An allocation that failed: `Memory`.
impl From<AllocError> for ToolFault {
    ghost from_gives = { λ refused tool. tool ≡ Memory };

    fn from(_refused: AllocError) -> ToolFault {
        ToolFault::Memory
    }
}

/// An output that failed: `Output`.
impl From<SinkFault> for ToolFault {
    ghost from_gives = { λ failed tool. tool ≡ Output };

    fn from(_failed: SinkFault) -> ToolFault {
        ToolFault::Output
    }
}

impl ToolFault {
    /// The line that the program prints for the fault on standard error, without its line feed, or
    /// `AllocError` if an allocation failed. `read` is the name of the input that failed, and
    /// `written` that of the output.
    ///
    /// `cannot read NAME`, `cannot write NAME`, `fault at byte P: KIND` with the offset of the
    /// message in bytes from the stream's beginning and the kind by its name, `refused schema:
    /// KIND`, `refused batch B: KIND`, `refused end: KIND`, or `out of memory`.
    pub fn line(&self, alloc: Global, read: &str, written: &str) -> Result<String, AllocError>
        ensures { IfOk result (λ line. string_bytes line
            ≡ fault_line self.now read.now written.now) }
    {
        let mut line = String::new(alloc);
        match self {
            ToolFault::Input(_) => {
                line.push_str("cannot read ")?;
                line.push_str(read)?;
            }
            ToolFault::Output => {
                line.push_str("cannot write ")?;
                line.push_str(written)?;
            }
            ToolFault::Stream(fault) => write!(line, "{fault}")?,
            ToolFault::Refused(what, kind) => {
                line.push_str("refused ")?;
                push_what(&mut line, *what)?;
                line.push_str(": ")?;
                line.push_str(refusal_name(*kind))?;
            }
            ToolFault::Memory => line.push_str("out of memory")?,
        }
        Ok(line)
    }

    /// The program's exit status: 1 if a stream or a write was rejected, 2 if an input, the output
    /// or an allocation failed.
    pub fn status(&self) -> u8
        ensures { result ≡ status_of self.now }
    {
        match self {
            ToolFault::Stream(_) | ToolFault::Refused(_, _) => 1,
            ToolFault::Input(_) | ToolFault::Output | ToolFault::Memory => 2,
        }
    }
}

/// Whether the kind is a failed allocation, which says nothing of the stream.
pub(crate) fn is_memory(kind: Kind) -> bool
    ensures { result ≡ is_memory kind }
{
    matches!(kind, Kind::Memory)
}

/// Appends the call that the writer rejected.
fn push_what(line: &mut String, what: RefusedItem) -> Result<(), AllocError>
    ensures { OnOk result (string_bytes line.new ≡ string_bytes line.old ++ what_text what) }
{
    match what {
        RefusedItem::Start => line.push_str("schema"),
        RefusedItem::Batch(number) => {
            line.push_str("batch ")?;
            Ok(write!(line, "{number}")?)
        }
        RefusedItem::Finish => line.push_str("end"),
    }
}

/// The name of a writer's error.
fn refusal_name(kind: WriteFault) -> &'static str
    ensures { result.now ≡ refusal_name kind }
{
    match kind {
        WriteFault::SchemaDiffers => "SchemaDiffers",
        WriteFault::TooLarge => "TooLarge",
        WriteFault::DictionariesDiffer => "DictionariesDiffer",
        WriteFault::Sink => "Sink",
        WriteFault::Broken => "Broken",
        WriteFault::Finished => "Finished",
        WriteFault::Memory => "Memory",
    }
}
