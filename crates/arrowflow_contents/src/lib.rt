//! The contents of a stream by its columns: how many bytes each takes, and where a body is at fault.
//!
//! A [`Summary`] counts the messages of a stream, and the number of bytes that its parts take, and
//! that a copy would have: each batch is also given to a writer, over a sink that counts the bytes
//! and keeps none. It is proved that a sum over buffers is the sum of their lengths, and that the sum
//! for a stream is that of its messages (`specs/Sizes.antt`). Which buffers belong to a column, what
//! is padding, how messages are counted and the length of the copy are tested.
//!
//! For a batch that is rejected because of its body, [`spot_of`] returns the field at fault and a
//! [`Finding`]. The finding is proved to hold for the body; which field that is, is tested.
//!
//! | Notion | Definition |
//! |---|---|
//! | what is found in a body | `specs/Bodies.antt`: `SpotHolds`, `FindingHolds` |
//! | the messages that were counted | `specs/Counting.antt`: `HasCounted` |
//! | the number of bytes of buffers and of a stream | `specs/Sizes.antt`: `buffer_bytes`, `stream_bytes` |
#![tactic(auto)]

mod body_spot;
mod copied;
mod counter;
mod cursor;
mod finding;
mod names;
mod sizes;
mod summary;

pub use body_spot::{BodySpot, spot_of};
pub use copied::Copied;
pub use counter::{CountedMessages, MessageCounter};
pub use finding::{Finding, Need};
pub use names::push_quoted;
pub use summary::{ColumnCount, DictionaryCount, Summary};
