//! Rejections by a writer on a connection.

use arrow_sink::WriteFault;
use arrowflow_input::RefusedItem;

/// What a writer rejected, and why.
#[derive(Clone, Copy, Debug, PartialEq, Eq)]
pub struct Refusal {
    /// Which call. After `Start` nothing was sent, and no batch was tried.
    pub what: RefusedItem,
    /// The writer's fault: `SchemaDiffers`, `DictionariesDiffer` or `TooLarge`.
    pub kind: WriteFault,
}
