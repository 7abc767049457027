//! The metadata of an Arrow message: from untrusted bytes, within the limits of `arrow_types`, to a
//! schema, a dictionary batch or a record batch, or to the least fault. This takes two steps, which
//! can be called separately:
//!
//! - [`tree`](arrow_meta_tree::tree) of `arrow_meta_tree` reads the tables into a tree, within the
//!   limits.
//! - [`judge`] returns the [`Message`] that the tree means, or the `MetaFault` with the least number
//!   of those that hold. What the tables of a schema mean is in `arrow_meta_schema`.
//!
//! [`decode`] does one after the other, except for batches without a fault, which nearly all
//! messages of a stream are: it makes these straight from their tables, without a tree, and
//! [`decode_into`] makes them in the memory of another batch.
//! [`decode_counted`] reports the work of reading, whatever it returns.
//!
//! Each result is specified in both directions: a fault is returned exactly if its condition holds
//! and no condition of a lower number does, and a message exactly if none holds. For a tree
//! `Memory`, a failed allocation, is returned only if no fault holds: every fault is found before
//! memory for a message is allocated, and the test of shared dictionary ids goes on without memory
//! if its allocation fails. For bytes it says only that reading them requests memory, which their
//! tree takes.
//!
//! | Notion | Definition |
//! |---|---|
//! | versions | `specs/Versions.antt`: `metadata_version` |
//! | the faults of a tree | `specs/Faults.antt`: `conditions`, `fault_of` |
//! | the message that a tree means | `specs/Means.antt`: `Means` |
//! | the results of building | `specs/Built.antt`: `BuildsSchema`, `BuildsMessage` |
//! | the meaning of the tables of a batch | `specs/Straight.antt`: `HasNumber`, `HasPairs`, `IsHeader` |
//! | results and counts | `specs/Judges.antt`: `Judges`, `Decodes`, `CountsTree`, `CountsFailed` |
#![tactic(auto)]

mod batches;
mod judging;
pub mod laws;
mod message;
mod to_schema;
mod versions;

pub use judging::{decode, decode_counted, decode_into, judge};
pub use message::{Header, Message, MetadataVersion, RecordBatch};
