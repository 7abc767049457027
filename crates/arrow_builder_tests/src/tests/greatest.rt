//! Columns of exactly as many bytes as 32-bit offsets can address, and of more with wider ones.

use super::building::{builder, push_all};
use super::reported::is_number;
use arrow_builder::ArrayBuilder;
use arrow_layout::Value;
use std::process::Abort;

const MEMORY: &str = "memory";

/// That many letters, as a text or as bytes.
fn letters(rt: &(impl Abort + AllocGlobal), words: &str, count: usize) -> Value {
    let mut bytes = Vec::new(rt.alloc());
    bytes.resize(count, b'n').expect(rt, MEMORY);
    match words {
        "utf8" => Value::Text(String::from_utf8(bytes).ok().expect(rt, "letters")),
        _ => Value::Bytes(bytes),
    }
}

/// How often how many letters are pushed, one after another: the first two make 2^31 - 1.
const PUSHES: [(usize, usize); 4] = [(31, 1 << 26), (1, (1 << 26) - 1), (1, 1), (1, 0)];

/// That each of that many pushes returns the number of this fault, or 0.
fn are_answered(
    rt: &impl Abort,
    column: &mut ArrayBuilder,
    value: &Value,
    times: usize,
    wanted: u8,
) {
    for _ in 0..times {
        let reported = match column.push(value) {
            Ok(()) => 0,
            Err(fault) => fault.number(),
        };
        is_number(rt, "a push", usize::from(reported), usize::from(wanted));
    }
}

/// What each push returns in a column of this type.
fn grow(rt: &(impl Abort + AllocGlobal), words: &str, wanted: [u8; 4]) {
    let mut column = builder(rt, words);
    for ((times, count), number) in PUSHES.iter().zip(&wanted) {
        are_answered(
            rt,
            &mut column,
            &letters(rt, words, *count),
            *times,
            *number,
        );
    }
}

#[test]
fn byte_strings_of_2147483647_bytes(rt: HostRuntime) {
    grow(&rt, "binary", [0, 0, 2, 0]);
}

#[test]
fn texts_of_2147483647_bytes(rt: HostRuntime) {
    grow(&rt, "utf8", [0, 0, 2, 0]);
}

#[test]
fn large_byte_strings_of_2147483648_bytes(rt: HostRuntime) {
    grow(&rt, "large_binary", [0, 0, 0, 0]);
}

/// Two nulls of 2^30 bytes.
#[test]
fn a_column_of_2147483648_bytes_of_a_fixed_width(rt: HostRuntime) {
    let mut column = builder(&rt, "list fixed_size_binary[1073741824]");
    push_all(&rt, &mut column, "[ null null ]");
    is_number(&rt, "slots", column.len(), 1);
}
