//! FlatBuffers: tables, texts and vectors, read in untrusted bytes, and written front to back.
//!
//! Reading takes a complete byte slice, lends it to its results, and does not allocate. It never
//! trusts a number in the bytes: every result lies inside them.
//!
//! - [`Root::open`] returns the table that the first offset names.
//! - [`Table`] returns a field by its number: a number, a table, a text, bytes, a vector, its
//!   absence, or [`Unreadable`].
//! - [`Vector`] returns an element by its index.
//!
//! The contents at a position are defined once, as a function of the complete list of bytes, in the
//! terms of the FlatBuffers internals document. Each function meets its definition exactly, also if
//! it returns that there is nothing:
//!
//! | Notion | Definition |
//! |---|---|
//! | number, offset | `specs/Place.antt`: `number_at`, `target_at`, `past` |
//! | vtable, entry of a field | `specs/Vtable.antt`: `vtable_at`, `entry` |
//! | table, position of a field | `specs/Table.antt`: `table_at`, `field_place` |
//! | text, bytes of a string | `specs/Text.antt`: `text_at`, `bytes_at` |
//! | vector | `specs/Vector.antt`: `vector_at` |
//! | result of a call on a field | `specs/Answers.antt`: `Answers` |
//!
//! Tables, vtables and vectors may overlap and be shared. Nothing needs to be aligned, no zero byte
//! needs to follow a text, and the size that a vtable gives for its table is not checked.
//!
//! No condition on a caller is one on the bytes, so untrusted bytes cannot break one: each is on
//! what a caller takes from its schema or from `len`. A number has a width of 1 to 8 bytes, since
//! it is returned in 64 bits; an index is below `len`; what is read of an element lies inside it,
//! by the size with which the vector was requested.
#![tactic(auto)]

mod layout;
mod place;
mod root;
mod table;
mod text;
mod vector;
mod vtable;
mod writer;

pub use layout::{FieldValue, Width, aligned, bytes_end, table_end, table_place, text_end};
pub use root::Root;
pub use table::{Table, Unreadable};
pub use vector::Vector;
pub use writer::TableWriter;
