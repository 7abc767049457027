//! The one loop over an input, for any consumer of its messages.
//!
//! [`drive`] reads an input and passes the messages of its stream to a [`Consumer`]: one that writes
//! text (`arrowflow_text`, `arrowflow_json`), one that copies the stream (`arrowflow_copy`), a list
//! of batches. [`take_piece`] does the same for one piece. [`session::receive`] gives a reader the
//! bytes of one connection in pieces, and returns the batches of the complete messages at their
//! start, the dictionaries that these messages left, and the ending. A [`ToolFault`] has the line
//! and the exit status that the program ends with.
//!
//! A [`Bounded`] input has bounds of its whole stream: [`drive_within`] ends before the message that
//! passes one.
//!
//! | Notion | Definition |
//! |---|---|
//! | what a consumer does with a message, and with the end | `specs/Consumer.antt`: `Takes`, `Ends` |
//! | what comes of an input, and of a piece | `specs/Driver.antt`: `Drives`, `TakesPiece` |
//! | how a stream ends; what is sent of a text | `specs/Endings.antt`: `EndsWell`, `EndsBadly`, `IsOpenAt`; `SendsText` |
//! | batches that are kept | `specs/Kept.antt`: `HasKept` |
//! | what is received from bytes | `specs/Session.antt`: `Receives`; `specs/Pieces.antt`: `Feeds` |
//! | what one read of an input gives, and whether the reader has taken it | `specs/Pieces.antt`: `Reads` |
//! | what a check that writes nothing says of an input | `specs/Quiet.antt`: `ChecksInput` |
//! | the bounds of a whole stream, what comes of an input with them | `specs/Bounds.antt`: `AreWithin`, `Pass`; `specs/Counted.antt`: `HasExcess`; `specs/Within.antt`: `Within`, `DrivesWithin` |
//! | how far an input is read; when it is said to have failed | `specs/Reads.antt`: `IsReadWhile`; `specs/Blame.antt`: `BlamesOnly`; `has_failed` of [`Input`] |
//! | the line and the status of a fault | `specs/Faults.antt`: `fault_line`, `status_of` |
//!
//! Of the proofs, `Driving` shows the loop for any consumer, `Feeding` how a reader advances over
//! its pieces, `Cutting` where a stream with bounds is cut.
#![tactic(auto)]

mod batches;
mod bounded;
mod bounds;
mod capped;
mod consumer;
mod counting;
mod driver;
mod pieces;
pub mod session;
mod tool_fault;
mod tried;
mod what;
mod within;

pub use arrow_stream_reader::Input;
pub use bounded::Bounded;
pub use bounds::{Excess, Measure, WholeLimits};
pub use consumer::Consumer;
pub use driver::{Progress, drive, take_piece};
pub use pieces::room_for_a_piece;
pub use tool_fault::ToolFault;
pub use tried::Tried;
pub use what::RefusedItem;
pub use within::drive_within;
