//! Which fields of a table are read, and which tables a code opens (`Message.fbs`, `Schema.fbs`).
ghost use Rattle.std.specs.Prelude.{◌≡◌, ◌≤◌, length};
ghost use Rattle.arrow_meta_tree.specs.Kinds.{forms_of, header_table, type_table};
ghost use Rattle.arrow_meta_tree.specs.Types.{type_row};

use crate::codes::{HeaderKind, TypeCode, header_kind, taken, type_code};
use crate::kinds::{FieldForm, TableKind};
use arrow_types::TypeSet;

/// The fields of a table that are read, in order of their numbers from 0.
pub(crate) fn forms(kind: TableKind) -> &'static [FieldForm]
    ensures value { result.now ≡ forms_of kind }
    ensures few { length result.now ≤ 7 }
{
    use FieldForm::{Byte, Bytes, Header, Long, Pairs, Presence, Short};
    use FieldForm::{Table, Tables, Text, Type};
    use TableKind::{Field, KeyValue};
    use TypeSet::{All, Core};
    match kind {
        TableKind::Message(Core) => &[Short, Byte, Header(Core), Long],
        TableKind::Message(All) => &[Short, Byte, Header(All), Long],
        TableKind::Schema(Core) => &[Short, Tables(Field(Core)), Tables(KeyValue)],
        TableKind::Schema(All) => &[Short, Tables(Field(All)), Tables(KeyValue)],
        TableKind::Field(Core) => &[
            Text, // name
            Byte, // nullable
            Byte, // type_type
            Type(Core),
            Table(TableKind::DictionaryEncoding), // dictionary
            Tables(Field(Core)), // children
            Tables(KeyValue), // custom_metadata
        ],
        // the same fields
        TableKind::Field(All) => &[
            Text,
            Byte,
            Byte,
            Type(All),
            Table(TableKind::DictionaryEncoding),
            Tables(Field(All)),
            Tables(KeyValue),
        ],
        TableKind::DictionaryEncoding => &[
            Long,
            Table(TableKind::Type(TypeCode::Int)),
            Byte,
            Short,
        ],
        TableKind::RecordBatch => &[Long, Pairs, Pairs, Presence],
        TableKind::DictionaryBatch => &[Long, Table(TableKind::RecordBatch), Byte],
        TableKind::Type(code) => type_fields(code),
        TableKind::KeyValue => &[Bytes, Bytes],
    }
}

/// The table that a header's code opens. For any other code not even the offset is read.
pub(crate) fn header_table(types: TypeSet, code: u64) -> Option<TableKind>
    ensures table { result ≡ header_table types code }
{
    match header_kind(code) {
        Some(HeaderKind::Schema) => Some(TableKind::Schema(types)),
        Some(HeaderKind::DictionaryBatch) => Some(TableKind::DictionaryBatch),
        Some(HeaderKind::RecordBatch) => Some(TableKind::RecordBatch),
        None => None,
    }
}

/// The table that a type's code opens, for the types of a set. If it opens none, not even the
/// offset is read.
pub fn type_table(types: TypeSet, code: u64) -> Option<TableKind>
    ensures table { result ≡ type_table types code }
{
    match taken(types, type_code(code)) {
        Some(code) if !type_fields(code).is_empty() => Some(TableKind::Type(code)),
        _ => None,
    }
}

/// The fields of a type's table that are read, in order of their numbers from 0. If there are none
/// the table is not opened.
pub(crate) fn type_fields(code: TypeCode) -> &'static [FieldForm]
    ensures value { result.now ≡ (type_row code).fields }
    ensures few { length result.now ≤ 3 }
{
    use FieldForm::{Byte, Int, Short, Text};
    match code {
        TypeCode::Int => &[Int, Byte],
        TypeCode::FloatingPoint => &[Short],
        TypeCode::Decimal => &[Int, Int, Int],
        TypeCode::Date => &[Short],
        TypeCode::Time => &[Short, Int],
        TypeCode::Timestamp => &[Short, Text],
        TypeCode::Interval => &[Short],
        TypeCode::FixedSizeBinary => &[Int],
        TypeCode::FixedSizeList => &[Int],
        TypeCode::Map => &[Byte],
        TypeCode::Duration => &[Short],
        _ => &[],
    }
}
