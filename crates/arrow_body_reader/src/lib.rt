//! Reads bodies of batches: nodes, buffers and a body become columns, or are rejected.
//!
//! A record batch's metadata lists a node for each field and the offsets of their buffers in the
//! body. `load` walks over them once. One check of each node tests that it and its buffers hold
//! what its type requires (Layout), that its texts are UTF-8 (Text), and that its indices have
//! their values (Index); the least of the faults of all columns is returned. As long as nothing is
//! wrong, the node's array is made at once, from ranges of the one body, which the arrays share. A
//! caller that loads more than one body makes the types of the nodes once and calls `load_typed`; a
//! caller that only needs to know whether a body is valid calls `check`, which allocates nothing.
//!
//! The contract of `load` says in both directions when it returns columns and when which fault;
//! that of `check` says the same without memory. `nodes_of` and `check_row_count` return what a reader
//! needs to know of nodes before that: which of them the fields take, and whether all columns have
//! as many slots as the batch has rows.
//!
//! | Notion | Definition |
//! |---|---|
//! | nodes and buffers that fields take | `specs/Taken.antt`: `taken_nodes`, `taken_buffers` |
//! | that nodes have these types | `specs/Types.antt`: `HaveTypes` |
//! | a node without children and dictionary | `specs/Leaf.antt`: `IsLeafNode` |
//! | how long the shortest of some columns is | `specs/Least.antt`: `IsLeast` |
//! | where a buffer lies in the body | `specs/Held.antt`: `IsHeld`, `bytes_in` |
//! | a field's own node at its position, in one value | `specs/Place.antt`: `IsLaidAt`, `column_at` |
//! | what the check of fields requires and finds | `specs/Look.antt`: `IsReady`, `IsSeen`, `HasMade` |
//! | when a body is valid, and its columns | `specs/Sound.antt`: `IsSound`, `columns_of` |
//! | its one reading; where what its slots refer to lies | `specs/Inside.antt`: `IsReading`, `AreInside` |
//! | the first fault | `specs/Sound.antt`: `IsExplained` |
#![tactic(auto)]

mod body;
mod body_context;
mod build;
mod checked_node;
mod counts;
mod fit;
mod held;
mod indexed;
pub mod laws;
mod load_nodes;
mod own_node;
mod place;
mod taken;
mod text;

pub use body::{BodyFault, check, load, load_typed};
pub use counts::{check_row_count, nodes_of};
pub use fit::are_fit;
