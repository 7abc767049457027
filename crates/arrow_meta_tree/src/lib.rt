//! The metadata of an Arrow message as a tree of tables: from untrusted bytes, within the limits of
//! `arrow_types`, before any of it is given a meaning. Tables are read with `arrow_flatbuf`.
//!
//! [`tree`] reads the tables and the fields of `forms_of` into a [`MessageTree`], or returns a
//! [`MetaFault`]: `Metadata` only if no tree within the limits lies in the bytes, and `Memory`, a
//! failed allocation, only if reading them requests memory. The other faults are those of a tree:
//! `arrow_meta_reader` returns them.
//!
//! - [`parts`]: the fields of a table by number, with their defaults.
//! - [`slots`]: the numbers of the fields, and [`codes`]: those of headers, types, widths and units.
//!
//! | Notion | Definition |
//! |---|---|
//! | tables and their fields | `specs/Kinds.antt`: `forms_of`, `header_table`, `type_table` |
//! | types | `specs/Types.antt`: `type_row` |
//! | the numbers of headers, widths and units | `specs/Codes.antt` |
//! | the fields' numbers and values | `specs/Slots.antt`, `specs/Parts.antt` |
//! | the tree that lies at an offset | `specs/Lies.antt`: `Lies`, `LiesAtRoot` |
//! | levels, visits, pairs, bytes of names | `specs/Within.antt`: `IsWithin` |
//! | where reading requests memory | `specs/Grows.antt`: `Grows`, `GrowsAtRoot` |
//! | where reading ends with a fault | `specs/Reads.antt`: `Ends` |
//! | the tree of a metadata, and counts | `specs/Costs.antt`: `IsTreeOf`, `Counts`, `EndsAtRoot` |
//! | the order of the faults | `specs/FaultNumbers.antt`: `number_of` |
//!
//! However offsets share tables and texts, the work is bounded: each visit of a Field table and of
//! a KeyValue table is counted in one function before the table is opened, and the bytes of each
//! name, zone, key or value in one before they are copied. [`tree_counted`] reports these counts,
//! as [`DecodeCost`], whatever it returns: those of the tree, or of what was read up to the fault.
//! Recursion goes no deeper than the levels of fields, and memory for the elements of a vector is
//! allocated only after all of them were found to be in bounds.
#![tactic(auto)]

pub mod codes;
mod counter;
mod decode_cost;
mod fault;
mod forms;
mod kinds;
mod message_tree;
pub mod parts;
mod reader;
pub mod slots;

pub use decode_cost::DecodeCost;
pub use fault::{BatchKind, MetaFault};
pub use forms::type_table;
pub use kinds::{PAIR, TableKind};
pub use message_tree::{Leaf, MessageTree, Tree};
pub use reader::{tree, tree_counted};
