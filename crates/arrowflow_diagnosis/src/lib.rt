//! Which condition of the format a rejected message does not meet, with what was found.
//!
//! [`diagnose`] reads the bytes of the message at fault ([`Rejected`]) once more, and returns a
//! [`Diagnosis`]: of the prefix, of the numbers of the message itself, of a batch, of a field of the
//! schema, or where the input ends. Its statement is proved to hold for the bytes. Faults of bodies
//! are found in `arrowflow_contents`.
//!
//! A [`Spot`] is a table of the metadata with its place, so that a caller can show the bytes.
//!
//! | Notion | Definition |
//! |---|---|
//! | the message at fault, and what was read before it | `specs/Rejection.antt`: `Situation` |
//! | the meaning of a diagnosis | `specs/Holds.antt`: `Holds`, `kind_of` |
//! | a diagnosis of the first eight bytes | `specs/Prefix.antt`: `PrefixFails` |
//! | of an input that ends inside a message | `specs/Cut.antt`: `IsCut` |
//! | of the numbers of a message itself | `specs/Message.antt`: `MessageFails` |
//! | of a batch, because of what was read before it | `specs/Rows.antt`: `RowsFail` |
//! | of a schema and its fields | `specs/Fields.antt`: `SchemaFails`, `FieldFails` |
//! | where the tables of a message's metadata are | `specs/Places.antt` |
#![tactic(auto)]

mod cut;
mod diagnosis;
mod field_fault;
mod message;
mod message_fault;
mod places;
mod prefix;
mod rejected;
mod rows_fault;
mod schema_fault;

pub use cut::{Cut, CutPart};
pub use diagnosis::{Diagnosis, diagnose};
pub use field_fault::FieldCondition;
pub use message::{body_length, body_of, message_table, metadata_of};
pub use message_fault::{MessageFault, batch_table, header_table, message_number};
pub use places::{Spot, number_at};
pub use prefix::PrefixFault;
pub use rejected::Rejected;
pub use rows_fault::{RowsFault, batch_of, header_of};
pub use schema_fault::{SchemaCondition, field_at};
