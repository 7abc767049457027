//! The fields of tables that name others (`Message.fbs`, `Schema.fbs`), as they are counted and
//! written. The position after a table does not depend on the numbers and the positions in its
//! fields.
ghost use Rattle.std.specs.Prelude.{◌≡◌, ◌∷◌, []};

use arrow_flatbuf::{FieldValue, Width};

/// The number of fields of a Message table.
pub(crate) const MESSAGE_FIELDS: usize = 4;

/// The number of fields of a Schema table before its metadata.
pub(crate) const SCHEMA_FIELDS: usize = 2;

/// The number of fields of a Field table before its metadata.
pub(crate) const FIELD_FIELDS: usize = 6;

/// The number of fields of a KeyValue table.
pub(crate) const KEY_VALUE_FIELDS: usize = 2;

/// The number of fields of a DictionaryEncoding table.
pub(crate) const DICTIONARY_ENCODING_FIELDS: usize = 4;

/// The number of fields of an Int table.
pub(crate) const INT_FIELDS: usize = 2;

/// The number of fields of a RecordBatch table: it is not compressed.
pub(crate) const RECORD_BATCH_FIELDS: usize = 3;

/// The number of fields of a DictionaryBatch table.
pub(crate) const DICTIONARY_BATCH_FIELDS: usize = 3;

/// The endianness that is written (`Schema.fbs`, enum `Endianness`).
const LITTLE: u64 = 0;

/// The kind of each dictionary (`Schema.fbs`, enum `DictionaryKind`).
const DENSE_ARRAY: u64 = 0;

/// The fields of a Message table: the version, the header's code, the header, the body's length.
pub(crate) fn message_table(
    version: u64,
    code: u64,
    header: usize,
    body_len: u64,
) -> [FieldValue; MESSAGE_FIELDS]
    ensures { result ≡ FieldValue.Scalar Width.Two version ∷ FieldValue.Scalar Width.One code
        ∷ FieldValue.Target header ∷ FieldValue.Scalar Width.Eight body_len ∷ [] }
{
    [
        FieldValue::Scalar(Width::Two, version),
        FieldValue::Scalar(Width::One, code),
        FieldValue::Target(header),
        FieldValue::Scalar(Width::Eight, body_len),
    ]
}

/// The fields of a Schema table: little-endian, the fields, and the metadata, which is absent from
/// a table without metadata.
pub(crate) fn schema_table(fields: usize, metadata: usize) -> [FieldValue; 3]
    ensures { result ≡ FieldValue.Scalar Width.Two 0 ∷ FieldValue.Target fields ∷ FieldValue.Target metadata ∷ [] }
{
    [
        FieldValue::Scalar(Width::Two, LITTLE),
        FieldValue::Target(fields),
        FieldValue::Target(metadata),
    ]
}

/// The fields of a KeyValue table: the key and the value.
pub(crate) fn pair_table(key: usize, value: usize) -> [FieldValue; KEY_VALUE_FIELDS]
    ensures { result ≡ FieldValue.Target key ∷ FieldValue.Target value ∷ [] }
{
    [FieldValue::Target(key), FieldValue::Target(value)]
}

/// The fields of a DictionaryEncoding table: the id, the index's type, whether the values are
/// ordered, and a dense array for the kind.
pub(crate) fn encoding_table(
    id: u64,
    index: usize,
    ordered: u64,
) -> [FieldValue; DICTIONARY_ENCODING_FIELDS]
    ensures { result ≡ FieldValue.Scalar Width.Eight id ∷ FieldValue.Target index
        ∷ FieldValue.Scalar Width.One ordered ∷ FieldValue.Scalar Width.Two 0 ∷ [] }
{
    [
        FieldValue::Scalar(Width::Eight, id),
        FieldValue::Target(index),
        FieldValue::Scalar(Width::One, ordered),
        FieldValue::Scalar(Width::Two, DENSE_ARRAY),
    ]
}

/// The fields of a DictionaryBatch table: the dictionary's id, the batch of its data, whether it is
/// a delta.
pub(crate) fn dictionary_table(
    dictionary: u64,
    batch: usize,
    delta: u64,
) -> [FieldValue; DICTIONARY_BATCH_FIELDS]
    ensures { result ≡ FieldValue.Scalar Width.Eight dictionary ∷ FieldValue.Target batch
        ∷ FieldValue.Scalar Width.One delta ∷ [] }
{
    [
        FieldValue::Scalar(Width::Eight, dictionary),
        FieldValue::Target(batch),
        FieldValue::Scalar(Width::One, delta),
    ]
}

/// The fields of a RecordBatch table: the length, the nodes, the buffers.
pub(crate) fn batch_table(
    length: u64,
    nodes: usize,
    buffers: usize,
) -> [FieldValue; RECORD_BATCH_FIELDS]
    ensures { result ≡ FieldValue.Scalar Width.Eight length ∷ FieldValue.Target nodes
        ∷ FieldValue.Target buffers ∷ [] }
{
    [
        FieldValue::Scalar(Width::Eight, length),
        FieldValue::Target(nodes),
        FieldValue::Target(buffers),
    ]
}
