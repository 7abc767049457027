//! The metadata of Arrow messages, written: from a schema, a dictionary batch or a record batch to
//! the bytes that mean it, exact to the byte count.
//!
//! The crate takes a [`Message`] of `arrow_meta_reader` and returns the bytes of its metadata. It
//! builds on `arrow_flatbuf` for the layout, and on the definitions of `arrow_meta_reader` for the
//! meaning of the bytes.
//!
//! - [`encoded_size`] returns the number of bytes, without allocating, or None for a message that
//!   cannot be sent.
//! - [`encode`] returns the bytes, in a single allocation of exactly that size.
//!
//! | Notion | Definition |
//! |---|---|
//! | the tables of a message, as written | `specs/Layouts.antt`: `message_node` |
//! | the tree that they form | `specs/Written.antt`: `message_tree` |
//! | the bytes, and their number | `specs/Metadata.antt`: `metadata`, `size_of` |
//! | aligned, a 0 byte after each text | `specs/Aligned.antt`: `LiesAligned` |
//! | what a message is by its types, its limits | `specs/Writable.antt`: `IsHeader`, `Allows` |
//! | the result of a reader of the bytes | `specs/Again.antt`: `IsAgain` |
//!
//! The first two are separate functions of the message: one is what is written, in the terms of
//! `arrow_flatbuf`, the other is what a reader finds, in the terms of `arrow_meta_tree`. That the
//! two match is a theorem, so neither is trusted to fit. The laws of [`laws`] state it for the
//! bytes alone, with any bytes after them: so more zero bytes may be appended for a larger
//! alignment.
//!
//! In the proofs, `Snapshot` and `SnapshotMessages` show that the layout matches the message's
//! tree, `Again` that decoding the tree gives the message back, `Faultless` and `Bounds` that it
//! passes every check; `WrittenMeans` joins them.
#![tactic(auto)]

mod batches;
mod encodings;
mod fields;
pub mod laws;
mod metadata;
mod sizes;
mod table_slots;
mod tables;
mod types;
mod writing;

pub use sizes::encoded_size;
pub use writing::{encode, encode_in};
