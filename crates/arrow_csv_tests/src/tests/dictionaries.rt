//! Records of dictionary-encoded columns, of short dictionaries and of long ones.

use super::columns::{
    MEMORY, are_records, builder, field, finished, push, records_of, schema, schema_of,
};
use arrow_data::{Array, Dictionary};
use arrow_layout::Value;
use arrow_types::{BitWidth, DataType, Encoding, Field, IndexType, Schema};
use std::process::Abort;

/// The texts of a dictionary, None for a null.
static WORDS: [Option<&str>; 5] = [
    Some("plain"),
    Some("a,b"),
    None,
    Some("say \"x\""),
    Some(""),
];

/// The indices of the rows, None if there is none, and the text written for each row.
static ROWS: [(Option<i128>, &str); 12] = [
    (Some(4), "7,\n"),
    (Some(0), "7,plain\n"),
    (Some(1), "7,\"a,b\"\n"),
    (None, "7,\n"),
    (Some(3), "7,\"say \"\"x\"\"\"\n"),
    (Some(2), "7,\n"),
    (Some(0), "7,plain\n"),
    (None, "7,\n"),
    (Some(1), "7,\"a,b\"\n"),
    (Some(3), "7,\"say \"\"x\"\"\"\n"),
    (Some(4), "7,\n"),
    (Some(0), "7,plain\n"),
];

/// A field of texts by indices of 8 bits.
fn encoded(rt: &(impl Abort + AllocGlobal)) -> Field {
    field(rt, "k", DataType::Utf8).with_dictionary(Encoding {
        id: 3,
        index: IndexType {
            bits: BitWidth::Eight,
            signed: true,
        },
        ordered: false,
    })
}

/// A text as a value, or a null.
fn value(rt: &(impl Abort + AllocGlobal), word: Option<&str>) -> Value {
    match word {
        Some(word) => Value::Text(String::from_str(rt.alloc(), word).expect(rt, MEMORY)),
        None => Value::Null,
    }
}

/// A text of this many letters.
fn long_text(rt: &(impl Abort + AllocGlobal), letters: usize) -> Value {
    let mut long = String::new(rt.alloc());
    for _ in 0..letters {
        long.push_str("x").expect(rt, MEMORY);
    }
    Value::Text(long)
}

/// The dictionary of these texts, and of one more of this many letters.
fn dictionary(rt: &(impl Abort + AllocGlobal), letters: usize) -> Dictionary {
    let mut column = builder(rt, &schema(rt, DataType::Utf8));
    for word in &WORDS {
        push(rt, &mut column, &value(rt, *word));
    }
    if letters > 0 {
        push(rt, &mut column, &long_text(rt, letters));
    }
    of_array(rt, finished(rt, &column))
}

/// The dictionary of an array that refers to no dictionary.
fn of_array(rt: &(impl Abort + AllocGlobal), values: Array) -> Dictionary {
    assert!(rt; values.encoding().is_none() && !values.data_type().has_encoding_below());
    Dictionary::from_array(rt.alloc(), values).expect(rt, MEMORY)
}

/// The column of the first `count` rows by the dictionary with one more text of this many letters.
fn column(rt: &(impl Abort + AllocGlobal), schema: &Schema, count: usize, letters: usize) -> Array {
    let mut column = builder(rt, schema);
    for (at, _) in &ROWS[..count.min(12)] {
        push(rt, &mut column, &at.map_or(Value::Null, Value::Int));
    }
    let listed = vec![in rt.alloc(); (3, dictionary(rt, letters))].expect(rt, MEMORY);
    column
        .finish(rt.alloc(), &listed)
        .expect(rt, "indices of the dictionary")
}

/// The expected records of the first `count` rows.
fn wanted(rt: &(impl Abort + AllocGlobal), count: usize) -> String {
    let mut expected = String::new(rt.alloc());
    for (_, record) in &ROWS[..count.min(12)] {
        expected.push_str(record).expect(rt, MEMORY);
    }
    expected
}

/// Asserts that the first `count` rows by this dictionary have the records of the table.
fn check_rows(rt: &(impl Abort + AllocGlobal), count: usize, letters: usize) {
    let schema = schema_of(rt, vec![in rt.alloc(); encoded(rt)].expect(rt, MEMORY));
    let column = column(rt, &schema, count, letters);
    are_records(rt, &records_of(rt, schema, column), &wanted(rt, count));
}

/// Few values compared with the rows, and many.
#[test]
fn dictionaries_beside_few_and_many_rows(rt: HostRuntime) {
    for count in [10, 11, 9, 2, 0] {
        check_rows(&rt, count, 0);
    }
}

#[test]
fn dictionaries_of_a_long_text(rt: HostRuntime) {
    check_rows(&rt, 12, 65_000);
    check_rows(&rt, 12, 65_536);
}
