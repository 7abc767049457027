//! The kinds of tables, and what their fields hold (`Message.fbs`, `Schema.fbs`).
use crate::codes::TypeCode;
use arrow_types::TypeSet;

/// A table of the standard's `Message.fbs` or `Schema.fbs`, under its name there. Those that have
/// types come with the set of the types whose tables are opened.
#[derive(Clone, Copy, Debug)]
pub enum TableKind {
    Message(TypeSet),
    Schema(TypeSet),
    Field(TypeSet),
    DictionaryEncoding,
    RecordBatch,
    DictionaryBatch,
    /// The table of a type (union `Type`).
    Type(TypeCode),
    KeyValue,
}

/// How many bytes the element of a vector of pairs has: a struct of two eight-byte numbers
/// (`Message.fbs`, struct `FieldNode`; `Schema.fbs`, struct `Buffer`).
pub const PAIR: usize = 16;

/// How many bytes an offset has, the element of a vector of tables.
pub(crate) const OFFSET: usize = 4;

/// The content of a field of a table. It is public so that the definitions of dependent crates can
/// name its variants; no path outside the crate leads to it.
#[derive(Clone, Copy)]
pub enum FieldForm {
    /// A number of one byte.
    Byte,
    /// A number of two bytes.
    Short,
    /// A number of four bytes.
    Int,
    /// A number of eight bytes.
    Long,
    /// A text in UTF-8.
    Text,
    /// A string of any bytes.
    Bytes,
    /// A vector of structs of two numbers of eight bytes.
    Pairs,
    /// Something that is only checked for presence.
    Presence,
    /// A table.
    Table(TableKind),
    /// A vector of offsets to tables.
    Tables(TableKind),
    /// A message's header, whose table is given by the code in the field before it.
    Header(TypeSet),
    /// A field's type, whose table is given by the code in the field before it.
    Type(TypeSet),
}
