//! Arrays: columns of values that stay where they lie in a message body.
//!
//! An `Array` consists of a type, a number of slots, a body that it shares, and the ranges of the
//! body that are its buffers; lists and structs hold the arrays of their children. Nothing of the
//! body is copied. The accessors give the value of a slot by its index.
//!
//! To contracts an array is a `Column`, its type and the plain value of each slot
//! (`specs/Column.antt`). They name no range, and they name a buffer only where one is passed in or
//! returned. What a value is, and which bytes represent it, is defined in `arrow_layout`. Every
//! array is known to have ranges inside the body, offsets that never decrease and end inside, and
//! texts in UTF-8 (`IsArray` in `specs/Node.antt`): this is required when an array is made, and
//! never tested again.
//!
//! Arrays and dictionaries refer to each other, so their types are in one module, `array`; the
//! calls of arrays are in `accessors`, `same`, `view`, `slots` and `parts`, those of dictionaries in
//! `dictionary`.
//!
//! | Notion | Definition |
//! |---|---|
//! | what an array is | `specs/Column.antt`: `Column`, `IsColumn` |
//! | what a dictionary is | `specs/Column.antt`: `ValueList`, `IsValueList` |
//! | the column of a node | `specs/Parts.antt`: `node_column` |
//! | the values of an id | `specs/Listed.antt`: `listed` |
//! | the first null, slots without nulls | `specs/FullSlots.antt`: `IsFirstNull`, `AreFull` |
//! | what a slot shows | `specs/Shown.antt`: `Shows`, `HoldsValue`, `float_shown` .. |
//! | the buffers of a column, as returned | `specs/View.antt`: `AreBuffersOf`; `RefersTo` |
//! | equal slots, values that begin others | `specs/Same.antt`: `same_values`, `Begins` |
//! | a batch, and why there is none | `specs/Batch.antt`: `IsTable`, `Judges` |
//! | that a column has one child for each field | `specs/Laws.antt`: `OneField`, `OneChild` |
//! | how they are stored | `specs/Node.antt`: `column_of`; `specs/Segments.antt` |
//! | that arrays are above their children | `specs/Falls.antt` |
//!
//! Among the proofs, `Resolving`, `Fitting`, `ResolvedFitting` and `Listings` show what is known of
//! every array (`IsColumn`), and `Segments` and `Blocks` the search for a value of a dictionary.
//! The crates above also use `Lists` and `Listing`.
#![tactic(auto)]

mod accessors;
mod array;
mod batch;
mod buffers;
mod dictionary;
mod dictionary_map;
pub mod laws;
mod parts;
mod same;
mod slots;
mod view;

pub use array::{Array, Dictionary, SlotValue};
pub use batch::{Batch, BatchFault};
pub use dictionary_map::DictionaryMap;
pub use parts::ChildData;
pub use slots::Slots;
pub use view::Buffers;
