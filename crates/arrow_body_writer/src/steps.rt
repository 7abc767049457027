//! The path from a node down to one below it.

/// Which slots are sent to a node below another: step by step, from the upper one down (Columnar
/// Format, "RecordBatch message").
#[derive(Clone, Copy)]
pub(crate) enum ChildPath<'a> {
    /// The slots of the node itself.
    Here,
    /// From lists to their items, with this many nulls under a null list (Columnar Format,
    /// "Variable-size List Layout", "Fixed-Size List Layout"), and from there on.
    Items(u32, &'a ChildPath<'a>),
    /// From structs to this field of theirs, and from there on.
    Field(usize, &'a ChildPath<'a>),
}
