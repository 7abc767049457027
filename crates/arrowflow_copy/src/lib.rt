//! Copies a stream: reads it, and writes it again as its writer's options say.
//!
//! [`copy`] takes an input with a stream and an output, and holds one batch at a time.
//! `CopiesInput` (`specs/Copy.antt`) defines the bytes written, and how the copy ends, in terms of
//! the layers that read and write streams; how far the input is read is defined in terms of
//! `arrowflow_input`. A copy is a consumer of that crate's `drive`: its state between two
//! messages, and its step for the next one, are defined in `specs/Copying.antt`.
//!
//! [`copy_within`] does the same for an input whose stream has bounds.
//!
//! [`StreamCopier`] does the same for a caller who has the bytes: it is given the stream piece by
//! piece, and the bytes written wait until they are taken.
//!
//! | Notion | Definition |
//! |---|---|
//! | the bytes written, and how the copy ends | `specs/Copy.antt`: `CopiesInput` |
//! | the same for an input with bounds | `specs/WithinCopy.antt`: `CopiesWithin` |
//! | the same by the complete messages at the start of all bytes read | `specs/OfFront.antt`: `RefusesSchemaOf`, `RefusesBatchOf` |
//! | the bytes written, as a function of the input | `specs/Equal.antt`: `CopyIsSent`, `CopiesAreEqual` |
//! | the state of a copy | `specs/Copying.antt`: `At`; `specs/WriterState.antt`: `at_of` |
//! | a copy that is given pieces | `specs/Pieces.antt`: `PutsPiece`, `PutsEnd`, `TakesWritten` |
#![tactic(auto)]

mod bounded_copy;
mod copier;
mod copying;
pub mod laws;
mod outbox;
mod part_copier;
mod stream_copier;

pub use bounded_copy::copy_within;
pub use copying::copy;
pub use stream_copier::StreamCopier;
