//! Columns as the one canonical body of a batch (Columnar Format, "RecordBatch message").
//!
//! `arrow_body_laws` defines the field nodes, the buffers and the bytes of raw values, as a single
//! function of the alignment, the fields and the raw values. `store_in` builds exactly that body of
//! columns, reusing the room of an earlier one, or reports that it cannot be stored. `body_size`
//! returns the number of its bytes without allocating, and `store` returns it as a new body.
//! `store_rest`, `store_rest_in` and `rest_size` do the same for a column whose slots hold the
//! values of a dictionary from an index on.
//!
//! A body is written front to back, only through the public functions of `arrow_data`:
//! `arrow_body_slots` counts the slots of an array, and adds them to the buffers of a node.
//!
//! A column is stored level by level: its own node, then the columns sent below it. If each child
//! of a list or a struct is sent exactly its own slots (`whole`), these are the children. Otherwise
//! a column records the column above from which it is sent (`source`), and one walk goes down the
//! steps from the array (`walk`), with a visitor that counts the slots of the column's node or writes
//! one of its buffers (`visitor`). So the work grows with the nodes and, under nulls and slots that
//! are not sent, with the levels above each.
//!
//! | Notion | Definition |
//! |---|---|
//! | the alignment | `specs/Align.antt`: `alignment_of` |
//! | columns that can be stored, their size | `specs/Storable.antt`: `CanBeStored`, `columns_size` |
//! | what is added to a body | `specs/Storing.antt`: `Stores` |
//! | the origin of a column's values | `specs/Source.antt`: `rest_of`, `column_in` |
//! | what is sent along steps, and below a column | `specs/Sent.antt`: `sent_along`, `visible_children` |
//! | a column whose slots are counted | `specs/Counts.antt`: `IsCounted`, `sent_at` |
//! | children that are sent unsliced | `specs/Whole.antt`: `AreSentWhole` |
//!
//! Proofs: `Sending` of what is sent, `Children` of where it is found, `Runs`, `Sources` of the walk
//! over it, `Chunks`, `Rooms`, `Levels` of the body, `Wholes` of unsliced children, `FullNodes` of
//! nodes without a null, `Forming`, `Measures` of sizes.
#![tactic(auto)]

mod align;
mod body;
mod buffers;
mod counts;
mod forms;
mod measured;
mod sizes;
mod source;
mod steps;
mod store_fault;
mod visitor;
mod walk;
mod whole;

pub use align::Align;
pub use body::{Body, store, store_in, store_rest, store_rest_in};
pub use measured::{body_size, rest_size};
pub use store_fault::BodyStoreFault;
