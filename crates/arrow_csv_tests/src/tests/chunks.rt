//! Texts about as long as the chunks in which they are scanned, with each byte that needs quotes at
//! each index, and byte strings of each length up to that of two chunks and one byte.

use super::columns::{MEMORY, are_records, builder, push, records, schema};
use arrow_layout::Value;
use arrow_types::DataType;
use std::process::Abort;

/// The lengths of the texts in bytes.
static LENGTHS: [usize; 18] = [
    0, 1, 7, 8, 9, 15, 16, 17, 23, 24, 31, 32, 33, 64, 65, 80, 128, 145,
];

/// A byte, how a field writes it, and what surrounds the text then.
static MARKS: [(&str, &str, &str); 12] = [
    (",", ",", "\""),
    ("\"", "\"\"", "\""),
    ("\r", "\r", "\""),
    ("\n", "\n", "\""),
    (";", ";", ""),
    ("'", "'", ""),
    ("\t", "\t", ""),
    ("!", "!", ""),
    ("#", "#", ""),
    ("+", "+", ""),
    ("-", "-", ""),
    ("\u{c}", "\u{c}", ""),
];

/// Texts, and their rows as Python writes them.
static TEXTS: [(&str, &str); 12] = [
    ("\"", "7,\"\"\"\"\n"),
    ("\"\"", "7,\"\"\"\"\"\"\n"),
    ("a\"", "7,\"a\"\"\"\n"),
    ("\"a", "7,\"\"\"a\"\n"),
    ("say \"a\", or \"b\"", "7,\"say \"\"a\"\", or \"\"b\"\"\"\n"),
    (
        "\"\"\"\"\"\"\"\"\"\"\"\"\"\"\"\"\"",
        "7,\"\"\"\"\"\"\"\"\"\"\"\"\"\"\"\"\"\"\"\"\"\"\"\"\"\"\"\"\"\"\"\"\"\"\"\"\n",
    ),
    ("xxxxxxxxxxxxxxx\"", "7,\"xxxxxxxxxxxxxxx\"\"\"\n"),
    ("xxxxxxxxxxxxxxxx\"", "7,\"xxxxxxxxxxxxxxxx\"\"\"\n"),
    (
        "xxxxxxxxxxxxxxx\"\"xxxxxxxxxxxxxxx\"",
        "7,\"xxxxxxxxxxxxxxx\"\"\"\"xxxxxxxxxxxxxxx\"\"\"\n",
    ),
    (
        "\"xxxxxxxxxxxxxxxx\"xxxxxxxxxxxxxxxx\"",
        "7,\"\"\"xxxxxxxxxxxxxxxx\"\"xxxxxxxxxxxxxxxx\"\"\"\n",
    ),
    (
        "xxxxxxxxxxxxxxxxxxxx,xxxxxxxxxxxxxxxxxxxx",
        "7,\"xxxxxxxxxxxxxxxxxxxx,xxxxxxxxxxxxxxxxxxxx\"\n",
    ),
    ("x,\"y\"\r\nz", "7,\"x,\"\"y\"\"\r\nz\"\n"),
];

/// Bytes, and their digits as Python writes them.
static BYTES: [u8; 33] = [
    0xf0, 0x15, 0x3a, 0x5f, 0x84, 0xa9, 0xce, 0xf3, 0x18, 0x3d, 0x62, 0x87, 0xac, 0xd1, 0xf6, 0x1b,
    0x40, 0x65, 0x8a, 0xaf, 0xd4, 0xf9, 0x1e, 0x43, 0x68, 0x8d, 0xb2, 0xd7, 0xfc, 0x21, 0x46, 0x6b,
    0x90,
];

static DIGITS: &str = "f0153a5f84a9cef3183d6287acd1f61b40658aafd4f91e43688db2d7fc21466b90";

/// A text of this many letters, with a mark in place of one of them, and something around it all.
fn marked(
    rt: &(impl Abort + AllocGlobal),
    len: usize,
    place: usize,
    mark: &str,
    around: &str,
) -> String {
    let mut text = String::from_str(rt.alloc(), around).expect(rt, MEMORY);
    for k in 0..len {
        let letter = if k == place { mark } else { "x" };
        text.push_str(letter).expect(rt, MEMORY);
    }
    text.push_str(around).expect(rt, MEMORY);
    text
}

/// Appends a row to others.
fn put_row(rt: &impl Abort, expected: &mut String, shown: &str) {
    writeln!(expected, "7,{shown}").expect(rt, MEMORY);
}

/// Each byte at one index of a text of this many bytes, a row for each.
fn check_place(rt: &(impl Abort + AllocGlobal), len: usize, place: usize) {
    let schema = schema(rt, DataType::Utf8);
    let mut column = builder(rt, &schema);
    let mut expected = String::new(rt.alloc());
    for (mark, shown, around) in &MARKS {
        let text = Value::Text(marked(rt, len, place, mark, ""));
        push(rt, &mut column, &text);
        put_row(rt, &mut expected, &marked(rt, len, place, shown, around));
    }
    are_records(rt, &records(rt, schema, &column), &expected);
}

#[test]
fn each_byte_at_each_place(rt: HostRuntime) {
    for len in &LENGTHS {
        for place in 0..*len {
            check_place(&rt, *len, place);
        }
    }
}

#[test]
fn texts_of_letters_alone(rt: HostRuntime) {
    let schema = schema(&rt, DataType::Utf8);
    let mut column = builder(&rt, &schema);
    let mut expected = String::new(rt.alloc());
    for len in &LENGTHS {
        let text = marked(&rt, *len, *len, "", "");
        put_row(&rt, &mut expected, &text);
        push(&rt, &mut column, &Value::Text(text));
    }
    are_records(&rt, &records(&rt, schema, &column), &expected);
}

#[test]
fn texts_of_many_quotes(rt: HostRuntime) {
    let schema = schema(&rt, DataType::Utf8);
    let mut column = builder(&rt, &schema);
    let mut expected = String::new(rt.alloc());
    for (text, record) in &TEXTS {
        let text = String::from_str(rt.alloc(), text).expect(&rt, MEMORY);
        push(&rt, &mut column, &Value::Text(text));
        expected.push_str(record).expect(&rt, MEMORY);
    }
    are_records(&rt, &records(&rt, schema, &column), &expected);
}

#[test]
fn byte_strings_of_each_length(rt: HostRuntime) {
    let schema = schema(&rt, DataType::Binary);
    let mut column = builder(&rt, &schema);
    let mut expected = String::new(rt.alloc());
    for len in 0..=BYTES.len() {
        let bytes = Vec::from_slice(rt.alloc(), &BYTES[..len]).expect(&rt, MEMORY);
        push(&rt, &mut column, &Value::Bytes(bytes));
        let digits = DIGITS.get(..2 * len).expect(&rt, "two digits a byte");
        put_row(&rt, &mut expected, digits);
    }
    are_records(&rt, &records(&rt, schema, &column), &expected);
}
