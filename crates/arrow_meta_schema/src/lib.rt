//! What the tables of a schema mean: from the trees of `arrow_meta_tree` to fields with their types,
//! dictionaries and custom metadata, and the conditions under which they have no meaning.
//!
//! - [`fields::fields`] and [`metadata::metadata`] build the fields and the pairs of a vector of
//!   tables. Names, zones, keys and values are moved out of the tree, not copied.
//! - [`conditions`]: whether a tree has a table that is invalid in every message.
//! - [`is_nested`]: whether a dictionary field is below a dictionary field. [`types_differ`]:
//!   whether two fields share a dictionary and have unequal value types.
//!
//! The conditions are found in the tree, before any field is built, so they are known whichever
//! allocation fails; [`types_differ`] goes on without memory if its own does.
//!
//! | Notion | Definition |
//! |---|---|
//! | the meaning of a Schema table | `specs/SchemaMeaning.antt`: `fields_in`, `metadata_in`, `schema_in` |
//! | the conditions on one table | `specs/Conditions.antt`: `lacks_table`, `is_unsupported`, `is_misfit` |
//! | the dictionaries of fields | `specs/Sharing.antt`: `type_of`, `encoded_view` |
//! | the results of building | `specs/Builds.antt`: `BuildsAll`, `BuildsType` |
#![tactic(auto)]

pub mod conditions;
mod dictionary_types;
mod field_eq;
mod field_fault;
mod field_tables;
pub mod fields;
pub mod metadata;
mod nesting;
mod types;

pub use dictionary_types::types_differ;
pub use field_fault::FieldFault;
pub use nesting::is_nested;
