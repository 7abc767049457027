//! Types, fields, schemas and limits of Arrow streams.
//!
//! This is the lowest layer of the repository. It takes plain data in the shapes of the standard's
//! `Schema.fbs` (`DataType`, `Field`, `Encoding`) and returns a `Schema`: fields that are known to
//! keep to the fixed limits, with no dictionary below a dictionary and one value type for each
//! dictionary id. Every crate above relies on these facts and checks none of them again. `Limits`
//! holds the limits of a reader and a writer; [`laws`] states the values of the constants.
//!
//! Contracts never compare the Rust values, which hold pointers and capacities, but their plain
//! views: `type_view` of a type and `fields_view` of fields (`specs/View.antt`).
//! `specs/Schema.antt` defines what a schema is and which fault applies.
//!
//! | Notion | Definition |
//! |---|---|
//! | a type, a field, fields, as plain values | `specs/DataType.antt`: `TypeId`; `specs/Field.antt`: `FieldTree` |
//! | the plain values of the program's types and fields | `specs/View.antt`: `type_view`, `fields_view` |
//! | custom metadata: pairs, with what has them | `specs/Notes.antt`: `Notes`, `SchemaShape` |
//! | a schema, and which fault applies | `specs/Schema.antt`: `IsSchema`, `fault_of`, `Judges` |
//! | the dictionaries of fields | `specs/Schema.antt`: `dictionary_fields`, `dictionary_ids` |
//! | levels and numbers of fields | `specs/Field.antt`: `levels`, `count`; `specs/Room.antt` |
//! | limits | `specs/Limits.antt`: `LimitNumbers`, `AreWithinCeilings` |
//! | which types are read and written | `specs/TypeSet.antt`: `leaves_some_out` |
#![tactic(auto)]

mod copies;
mod data_type;
mod dictionaries;
mod differing;
mod drop_iteratively;
mod fault;
mod field;
mod flaws;
pub mod laws;
mod limits;
mod nesting;
mod node;
mod notes;
mod same;
mod schema;
mod size;
mod type_set;

pub use data_type::{BitWidth, DateUnit, DecimalWidth, IntervalUnit, Precision, TimeUnit};
pub use fault::SchemaFault;
pub use field::{DataType, Encoding, Field, IndexType};
pub use limits::Limits;
pub use node::{Buffer, FieldNode};
pub use schema::Schema;
pub use type_set::TypeSet;
