//! What a call from C does with the bytes that it is given, and what it returns, apart from handles
//! and addresses.
//!
//! Limits and options come as plain structs ([`LimitsC`], [`OptionsC`]), and a result is a plain
//! struct: a report of a stream in memory ([`check_bytes`], [`fault_column`]), the state of a reader
//! or of a copy after a piece ([`Reading`], [`Copying`]), a field of a schema ([`report_field`]), or
//! the length of a text, as much of which as fits was put into the caller's output buffer
//! ([`TextC`]). `arrowflow_c` exports the calls.
//!
//! | Notion | Definition |
//! |---|---|
//! | how a call ended, by a number | `specs/Kinds.antt`: `kind_of`, `kind_by` |
//! | what is reported of a stream | `specs/Survey.antt`: `Checks` |
//! | which column is at fault | `specs/Culprit.antt`: `Blames`, `IsAtFault` |
//! | what is put into the caller's output buffer | `specs/Texts.antt`: `Gives`, `filled` |
//! | what a reader does between two calls | `specs/Reading.antt`: `ReadsIf`, `Opens`, `Ends` |
//! | what a copier does between two calls | `specs/Copied.antt`: `OpensCopier`, `PutsIf`, `EndsCopy`, `TakesIf` |
//! | the schema and its fields | `specs/Fields.antt`: `FieldIf`; `format_of` of `arrowflow_text` |
//! | what is put into an output buffer piece by piece | `specs/Pens.antt`: `Puts` |
#![tactic(auto)]

mod culprit;
mod fields;
mod formats;
mod kinds;
mod metadata;
mod pens;
mod pieces;
mod places;
mod reading;
mod scan;
mod steps;
mod terms;
mod texts;

pub use culprit::{CulpritC, fault_column};
pub use fields::{FieldC, report_field};
pub use kinds::{BAD_LIMITS, MEMORY, NO_HANDLE};
pub use pieces::{CopiedC, Copying};
pub use reading::Reading;
pub use scan::{ReportC, check_bytes};
pub use steps::{FaultC, StepC};
pub use terms::{LimitsC, OptionsC};
pub use texts::{TextC, fill};
