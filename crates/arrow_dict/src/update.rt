//! What is sent of a dictionary.

/// How a dictionary may be sent that begins with the values of the one that was sent before.
#[derive(Clone, Copy, Debug, PartialEq, Eq)]
pub enum Updates {
    /// The values that are new, as a delta.
    Delta,
    /// All values, in place of those before.
    Resend,
}

/// What is sent of a dictionary (Columnar Format, "Dictionary Messages").
#[derive(Clone, Copy, Debug, PartialEq, Eq)]
pub enum Update {
    /// Nothing: equal values were sent last.
    None,
    /// All values. None were sent for the id before.
    New,
    /// The values from this one on, as a delta.
    Delta(usize),
    /// All values, in place of those that were sent last.
    Replace,
}
