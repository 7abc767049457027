//! One way to specify a batch: the columns with their values, or the stream that contains it.

use arrow_builder::ArrayBuilder;
use arrow_data::{Array, Batch, Dictionary};
use arrow_layout::Value;
use arrow_stream_reader::StreamReader;
use arrow_test_streams::parts::Source::{self, Growing, OneBatch};
use arrow_types::BitWidth::{self, Eight, Sixteen, ThirtyTwo};
use arrow_types::{DataType, Encoding, Field, IndexType, Limits, Schema};
use arrowflow_input::session::{Received, receive};
use std::process::Abort;
use std::rc::Rc;

pub(super) const MEMORY: &str = "memory";

/// What a slot of a column holds.
#[derive(Clone, Copy)]
pub(super) enum Form {
    Text,
    Bytes,
    /// A list of one text.
    List,
    /// A struct of one text.
    Struct,
    /// A list of some nulls.
    Nulls,
}

use Form::{List, Nulls, Struct, Text};

/// Indices: the id of their dictionary, their width, whether they are signed, and whether the
/// dictionary is ordered.
pub(super) type Indices = (i64, BitWidth, bool, bool);

/// The name of a column, whether it may have nulls, its form, and the indices of its texts.
pub(super) type Kind = (&'static str, bool, Form, Option<Indices>);

/// A column: the letters of its dictionary, each of which is a text, and its slots, each a digit:
/// an index, or how many nulls a list has. `_` is a null.
pub(super) type Column = (Kind, &'static str, &'static str);

/// A batch.
#[derive(Clone, Copy)]
pub(super) enum Rows {
    /// The batch with this number in a stream.
    Read(Source, usize),
    /// A batch that is built of columns.
    Built(&'static [Column]),
    /// A batch of that many rows without columns.
    Bare(usize),
}

use Rows::{Bare, Built, Read};

/// Signed 32-bit indices into dictionary 0.
pub(super) const INDICES: Indices = (0, ThirtyTwo, true, false);

/// The column of the growing dictionary.
pub(super) const K: Kind = ("k", true, Text, Some(INDICES));

/// Another one of the same dictionary.
pub(super) const J: Kind = ("j", true, Text, Some(INDICES));

/// A column of lists of nulls.
pub(super) const L: Kind = ("l", true, Nulls, None);

/// The batches of the growing dictionary.
pub(super) const ABC: Rows = Read(Growing, 0);

pub(super) const ABCDE: Rows = Read(Growing, 1);

pub(super) const ACDE: Rows = Read(Growing, 2);

/// The batch of 1, a null and 3.
pub(super) const NUMBERS: Rows = Read(OneBatch, 0);

/// Three rows without columns.
pub(super) const NO_COLUMNS: Rows = Bare(3);

/// A column of another name, whose indices have 8 bits and are unsigned.
const O: Kind = ("other", true, Text, Some((0, Eight, false, false)));

/// Letters in another schema with the same id.
pub(super) const OTHER: Rows = Built(&[(O, "xy", "101")]);

/// Columns of one id, whose dictionaries are equal, and with another dictionary for the second and
/// for the first column.
pub(super) const XX: Rows = Built(&[(K, "x", "0"), (J, "x", "0")]);

pub(super) const XY: Rows = Built(&[(K, "x", "0"), (J, "y", "0")]);

pub(super) const YX: Rows = Built(&[(K, "y", "0"), (J, "x", "0")]);

const FIRST: Kind = ("k", true, Text, Some((5, Eight, false, false)));

const SECOND: Kind = ("j", true, Text, Some((-2, ThirtyTwo, true, false)));

const THIRD: Kind = ("i", true, Text, Some((5, Sixteen, true, false)));

/// Columns of two dictionaries, the second of which has the smaller id.
pub(super) const SHARED: Rows = Built(&[
    (FIRST, "cd", "10"),
    (SECOND, "r", "0_"),
    (THIRD, "cd", "_1"),
]);

/// A field that may have nulls.
pub(super) fn field(rt: &(impl Abort + AllocGlobal), name: &str, data_type: DataType) -> Field {
    let name = String::from_str(rt.alloc(), name).expect(rt, MEMORY);
    Field::new(rt.alloc(), name, data_type, true)
}

/// Lists of this field.
pub(super) fn lists_of(rt: &(impl Abort + AllocGlobal), item: Field) -> DataType {
    DataType::List(Box::new(rt.alloc(), item).expect(rt, MEMORY))
}

/// Structs of this field.
pub(super) fn structs_of(rt: &(impl Abort + AllocGlobal), only: Field) -> DataType {
    DataType::Struct(vec![in rt.alloc(); only].expect(rt, MEMORY))
}

/// A field of this type, encoded with these indices.
fn encoded(
    rt: &(impl Abort + AllocGlobal),
    name: &str,
    data_type: DataType,
    indices: Option<Indices>,
) -> Field {
    let field = field(rt, name, data_type);
    match indices {
        None => field,
        Some((id, bits, signed, ordered)) => field.with_dictionary(Encoding {
            id,
            index: IndexType { bits, signed },
            ordered,
        }),
    }
}

fn field_of(rt: &(impl Abort + AllocGlobal), kind: Kind) -> Field {
    let (name, nullable, form, indices) = kind;
    let data_type = match form {
        Text => DataType::Utf8,
        Form::Bytes => DataType::Binary,
        List => lists_of(rt, encoded(rt, "item", DataType::Utf8, indices)),
        Struct => structs_of(rt, encoded(rt, "item", DataType::Utf8, indices)),
        Nulls => lists_of(rt, field(rt, "item", DataType::Null)),
    };
    let own = match form {
        List | Struct => None,
        Text | Form::Bytes | Nulls => indices,
    };
    Field {
        nullable,
        ..encoded(rt, name, data_type, own)
    }
}

fn schema_of(rt: &(impl Abort + AllocGlobal), columns: &[Column]) -> Schema {
    let mut fields = Vec::new(rt.alloc());
    for (kind, _, _) in columns {
        fields.push(field_of(rt, *kind)).expect(rt, MEMORY);
    }
    Schema::new(rt.alloc(), fields).expect(rt, "a schema")
}

/// A builder of the first column of a schema.
pub(super) fn builder(rt: &(impl Abort + AllocGlobal), schema: &Schema) -> ArrayBuilder {
    let fields = schema.fields();
    assert!(rt; !fields.is_empty());
    ArrayBuilder::new(rt.alloc(), &fields[0]).expect(rt, MEMORY)
}

fn text_of(rt: &(impl Abort + AllocGlobal), letter: char) -> Value {
    if letter == '_' {
        return Value::Null;
    }
    let mut text = String::new(rt.alloc());
    text.push(letter).expect(rt, MEMORY);
    Value::Text(text)
}

/// The dictionary of these letters.
fn dictionary_of(rt: &(impl Abort + AllocGlobal), letters: &str) -> Dictionary {
    let mut column = builder(rt, &schema_of(rt, &[(("", true, Text, None), "", "")]));
    for letter in letters.chars() {
        column.push(&text_of(rt, letter)).expect(rt, "a text");
    }
    let values = column.finish(rt.alloc(), &[]).expect(rt, "an array");
    assert!(rt; values.encoding().is_none() && !values.data_type().has_encoding_below());
    Dictionary::from_array(rt.alloc(), values).expect(rt, MEMORY)
}

/// The value of a slot of this form.
fn value_of(rt: &(impl Abort + AllocGlobal), form: Form, slot: char) -> Value {
    let Some(digit) = slot.to_digit(10) else {
        return Value::Null;
    };
    let index = Value::Int(i128::from(digit));
    match form {
        Text | Form::Bytes => index,
        List => Value::List(vec![in rt.alloc(); index].expect(rt, MEMORY)),
        Struct => Value::Struct(vec![in rt.alloc(); index].expect(rt, MEMORY)),
        Nulls => Value::List(nulls(rt, digit)),
    }
}

fn nulls(rt: &(impl Abort + AllocGlobal), count: u32) -> Vec<Value> {
    let mut items = Vec::new(rt.alloc());
    for _ in 0..count {
        items.push(Value::Null).expect(rt, MEMORY);
    }
    items
}

fn array_of(rt: &(impl Abort + AllocGlobal), column: Column) -> Array {
    let ((_, _, form, indices), letters, slots) = column;
    let mut array = builder(rt, &schema_of(rt, &[column]));
    for slot in slots.chars() {
        array.push(&value_of(rt, form, slot)).expect(rt, "a value");
    }
    let mut dictionaries = Vec::new(rt.alloc());
    if let (Some((id, _, _, _)), false) = (indices, letters.is_empty()) {
        let dictionary = dictionary_of(rt, letters);
        dictionaries.push((id, dictionary)).expect(rt, MEMORY);
    }
    array
        .finish(rt.alloc(), &dictionaries)
        .expect(rt, "an array")
}

/// A batch of this schema.
pub(super) fn batch(
    rt: &(impl Abort + AllocGlobal),
    schema: Schema,
    columns: Vec<Array>,
    rows: usize,
) -> Batch {
    let schema = Rc::new(rt.alloc(), schema).expect(rt, MEMORY);
    Batch::new(schema, columns, rows).expect(rt, "a batch")
}

pub(super) fn built(rt: &(impl Abort + AllocGlobal), columns: &[Column], rows: usize) -> Batch {
    let mut arrays = Vec::new(rt.alloc());
    for column in columns {
        arrays.push(array_of(rt, *column)).expect(rt, MEMORY);
    }
    batch(rt, schema_of(rt, columns), arrays, rows)
}

/// What a reader has of these bytes, which come in one piece.
pub(super) fn received(rt: &(impl Abort + AllocGlobal), bytes: &[u8]) -> Received {
    let mut reader = StreamReader::new(rt.alloc(), Limits::standard());
    receive(rt.alloc(), &mut reader, bytes, &[]).expect(rt, MEMORY)
}

/// The batch.
pub(super) fn batch_of(rt: &(impl Abort + AllocGlobal), rows: Rows) -> Batch {
    match rows {
        Read(source, number) => {
            let mut batches = received(rt, source.bytes()).handed;
            assert!(rt; number < batches.len());
            batches.swap_remove(number)
        }
        Built(columns) => {
            let rows = columns.first().map_or(0, |(_, _, slots)| slots.len());
            built(rt, columns, rows)
        }
        Bare(rows) => built(rt, &[], rows),
    }
}
