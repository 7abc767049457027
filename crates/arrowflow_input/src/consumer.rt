//! What is done with a stream, message by message.

ghost use Rattle.std.specs.Prelude.{◌≡◌, ℕ, List, IfErr, Ok, Option, Result, ⊤};
ghost use Rattle.arrow_types.specs.Limits.{LimitNumbers};
ghost use Rattle.arrow_stream_reader.specs.Front.{Entry};
ghost use Rattle.arrow_stream_reader.specs.State.{StreamState};
ghost use Rattle.arrow_stream_reader.specs.Stream.{ReaderView};
ghost use Rattle.arrowflow_input.specs.Blame.{BlamesNone};
ghost use Rattle.arrowflow_input.specs.Consumer.{Ends, Takes};
ghost use Rattle.std.specs.declared.ops.ControlFlow.TheVariants.{Continue};
ghost use Rattle.arrowflow_input.specs.declared.tool_fault.ToolFault.{ToolFault};

use crate::tool_fault::ToolFault;
use arrow_stream_reader::{Item, StreamReader};
use std::ops::ControlFlow;

/// What is made of a stream, message by message: text, a copy, a list of its batches.
///
/// [`crate::drive`] reads an input and passes its messages to a consumer. The ghost members of a
/// consumer say what it means: what it keeps true of the messages that it was given, and what its
/// answer says of the bytes that were read.
pub trait Consumer {
    // What these members need to know of how it began.
    ghost Start: { Type 0 };

    // It may be given a message, or the end.
    ghost is_ready: { Self → Type 0 } = { λ _. ⊤ };

    // It was given these messages by a reader with these limits, they left this state, and it asks
    // for more.
    ghost keeps: { Self.Start → Self → LimitNumbers → StreamState → List Entry → Type 0 };

    // It returned this answer when these bytes were read of an input of which this is left.
    ghost answers: { Self.Start → Self → Result (Unit {0}) ToolFault → ReaderView → List ℕ
        → Option (List ℕ) → Type 0 };

    /// Takes a message that the reader has just read, and that begins at this offset. `Break` means
    /// that it has all that it needs: nothing after is parsed.
    fn item(
        self,
        reader: &StreamReader,
        place: u64,
        item: Item,
    ) -> (Self, Result<ControlFlow<()>, ToolFault>)
        requires ready { Self.is_ready self }
        ensures takes { Takes Self.keeps Self.answers self place item reader.now result.1 result.0 }
        ensures ready { result.1 ≡ Ok (Continue tt) → Self.is_ready result.0 }
        ensures blameless { IfErr result.1 BlamesNone };

    /// Ends a stream that ended well: with its end marker, or with its input at the end of a message.
    fn end(self, reader: &StreamReader, marked: bool) -> (Self, Result<(), ToolFault>)
        requires ready { Self.is_ready self }
        ensures ends { Ends Self.keeps Self.answers self marked reader.now result.1 result.0 }
        ensures blameless { IfErr result.1 BlamesNone };
}
