//! Columns built value by value.
//!
//! An `ArrayBuilder` takes values of one field one after another, and makes arrays of them with the
//! dictionaries that are listed for the ids of its fields. In contracts it is its field and its raw
//! values (`specs/Built.antt`). Whether a value fits a field is `Fits` of `arrow_data`; the columns
//! below, by the field's values, are defined in `specs/Columns.antt`, the array of a column in
//! `specs/Finished.antt`, how long columns may be in `specs/Within.antt`, and which fault applies
//! in `specs/Faults.antt`.
//!
//! `fits` decides whether a slot of a field can hold a value. `tally` counts on every level,
//! without allocating, what the value adds, and reports whether a column would be too long with it.
//!
//! `begin` makes the nodes of a field: its own and those of its children, each with buffers that
//! grow. `node` puts a value that fits after the others, in every node that it reaches: its slot,
//! its items and its parts. If an allocation fails, the values are unchanged: what was already put
//! of the value lies after the slots that the parent node covers, and is cut off before the next
//! value is put there, so that nothing has to be undone.
//!
//! `leaf` and `slots` put one slot into the buffers of a node, overwriting what follows the first
//! ones. `specs/Puts.antt` defines what is put at which index, and `specs/Kept.antt` what the
//! buffers hold of the first slots. A node's buffers and children hold its raw values by the slots
//! of `arrow_data` (`specs/Nodes.antt`, `specs/Slots.antt` there).
//!
//! `typed` and `indexed` check dictionaries and indices, on every level and without allocating,
//! before `finish` copies the buffers into the bodies of arrays.
//!
//! | Notion | Definition |
//! |---|---|
//! | a column so far | `specs/Built.antt`: `Built` |
//! | the columns of all its nodes | `specs/Columns.antt`: `child_column`, `AllNodes` |
//! | a value that fits | `specs/Fields.antt`: `FitsField` |
//! | how long columns may be | `specs/Within.antt`: `IsWithin`; `specs/Tally.antt`: `AreCounted` |
//! | the array of a column | `specs/Finished.antt`: `IsArrayOf`, `AreTyped`, `AreIndexed` |
//! | which fault applies | `specs/Faults.antt`: `TakesValue`, `ExplainsPush`, `ExplainsArray` |
//! | what nodes and buffers keep | `specs/Nodes.antt`, `specs/Kept.antt`, `specs/Puts.antt`, `specs/Buffers.antt` |
//!
//! Of the proofs, `Held` and `Below` are about the columns of all nodes, `Counting` and `Within`
//! about the limits, `Nested` and `NodeSlots` about one more value, and `Arrays` shows that the
//! array of a node is that of its values.
#![tactic(auto)]

pub(crate) mod begin;
mod builder;
mod faults;
pub(crate) mod finish;
pub(crate) mod fits;
pub(crate) mod indexed;
pub(crate) mod leaf;
pub(crate) mod node;
pub(crate) mod slots;
pub(crate) mod tally;
pub(crate) mod typed;

pub use builder::ArrayBuilder;
pub use faults::{ArrayFault, PushFault};
