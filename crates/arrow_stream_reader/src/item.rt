//! Items: what a reader returns.

use arrow_data::Batch;

/// What a complete message gives, or the end marker.
#[derive(Drop)]
pub enum Item {
    /// A schema message was complete. The reader shows the schema.
    Schema,
    /// A dictionary batch for this id was complete. The reader shows the dictionary as it is from
    /// here on.
    Dictionary(i64),
    /// A record batch was complete. Its columns share the message's body, and their indices refer
    /// to the dictionaries as they are at this message, whatever comes later.
    Batch(Batch),
    /// The end marker was complete: eight bytes, the last four of them 0.
    End,
}
