//! Why a stream is rejected, for a person.
//!
//! [`explain`] reads an input as a check does, and returns an [`Explanation`]: the contents of a
//! valid stream as a [`Summary`], or for a rejected one the fault, a [`Diagnosis`], the place in a
//! body ([`BodySpot`]) and the bytes of the message at fault. The fault, the diagnosis and the
//! finding in the body are proved. [`Explanation::text`] is the text that the program prints; it,
//! hints and dumps are tested and not proved.
//!
//! | Notion | Definition |
//! |---|---|
//! | the result for an input | `specs/Explains.antt`: `ExplainsInput` |
//! | the meaning of a diagnosis | `Holds` of `arrowflow_diagnosis` |
//! | the meaning of a finding in a body | `SpotHolds` of `arrowflow_contents` |
#![tactic(auto)]

mod dump;
mod explaining;
mod explanation;
mod format;
mod hints;
mod schema_text;
mod text;

pub use arrowflow_contents::{
    BodySpot, ColumnCount, Copied, DictionaryCount, Finding, Need, Summary,
};
pub use arrowflow_diagnosis::{
    Cut, CutPart, Diagnosis, FieldCondition, MessageFault, PrefixFault, Rejected, RowsFault,
    SchemaCondition, diagnose,
};
pub use explaining::explain;
pub use explanation::{Explanation, RejectedMessage};
pub use format::Format;
