//! The dictionaries that a reader of a stream holds, the types that their values have, and the
//! dictionaries that a writer sent.
//!
//! A dictionary batch carries values for an id (Columnar Format, "Dictionary Messages"): they
//! replace the dictionary of the id, or as a delta are appended to it. [`Store`] takes both, as a
//! `Dictionary` or as an `Array` to append, and gives the dictionary of an id, or all of them by
//! rising id, in the form in which a record batch is loaded with them. [`ValueFields`] takes a
//! schema, and gives for an id the [`ValueField`] that a dictionary batch of that id has.
//!
//! A writer keeps a [`Tracker`]: asked what has to be sent of a dictionary, it returns an
//! [`Update`]; the dictionaries of a batch are staged, and become the sent ones once the batch is
//! sent completely, or are discarded.
//!
//! In contracts a store is a list of ids and dictionaries: `listed` (of `arrow_data`,
//! `specs/Listed.antt`) is what an id has, `placed` and `IsRising` (`specs/Dictionaries.antt`) are
//! how the list changes and what is known of it, and [`laws`] says that these make it a finite map.
//! A tracker is two such lists, what was sent and what will have been sent (`specs/Tracking.antt`);
//! `choice` (`specs/Choice.antt`) is what is sent of a list of values after another. `Appends`
//! (`specs/Appends.antt`) says when values are appended and which fault comes when, `value_type_of`
//! (`specs/ValueTypes.antt`) which type a schema's fields name for an id.
//!
//! | Notion | Definition |
//! |---|---|
//! | dictionaries by rising ids | `specs/Dictionaries.antt`: `IsRising`, `placed`; `specs/Places.antt` |
//! | values appended to those of a dictionary | `specs/Appends.antt`: `Appends` |
//! | the types that fields name for an id | `specs/ValueTypes.antt`: `value_type_of`; `specs/ValueFields.antt` |
//! | what is sent of a dictionary | `specs/Choice.antt`: `choice` |
//! | what was sent, what is staged | `specs/Tracking.antt`: `Tracked`, `IsTracker` |
//! | the laws | `specs/Laws.antt` |
#![tactic(auto)]

mod entries;
pub mod laws;
mod store;
mod tracker;
mod update;
mod value_field;
mod value_fields;

pub use store::{Store, StoreFault};
pub use tracker::Tracker;
pub use update::{Update, Updates};
pub use value_field::ValueField;
pub use value_fields::ValueFields;
