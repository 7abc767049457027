//! Columns of each kind at each length, with nulls at each position, built and stored: how they are
//! laid out, compared with sums over the layout by another program.

use super::building::{array, builder};
use super::reported::is_text;
use super::sums::SUMS;
use super::values::value;
use arrow_body_writer::{Align, Body, body_size, store};
use arrow_data::Array;
use std::process::Abort;

const MEMORY: &str = "memory";

const LENGTHS: [usize; 8] = [0, 1, 7, 8, 9, 63, 64, 65];

/// Types, and the values that the slots hold in turn; `#` is the number of the slot.
static KINDS: [&str; 23] = [
    "null => null",
    "bool => true, false, false",
    "int8 => -128, 127, 0, #",
    "uint8 => 0, 255, 0, #",
    "int16 => -32768, 32767, 0, #",
    "uint16 => 0, 65535, 0, #",
    "int32 => -2147483648, 2147483647, 0, #",
    "uint32 => 0, 4294967295, 0, #",
    "int64 => -9223372036854775808, 9223372036854775807, 0, #",
    "uint64 => 0, 18446744073709551615, 0, #",
    "date[day] => -2147483648, 2147483647, 0, #",
    "time[s] => -2147483648, 2147483647, 0, #",
    "timestamp[s] => -9223372036854775808, 9223372036854775807, 0, #",
    "duration[s] => -9223372036854775808, 9223372036854775807, 0, #",
    "binary => x, x97, x195,169,226,130,172, x48,49,50,51,52,53,54,55,56,57",
    "utf8 => '', 'a', 'é€', '0123456789'",
    "large_binary => x, x97, x195,169,226,130,172, x48,49,50,51,52,53,54,55,56,57",
    "large_utf8 => '', 'a', 'é€', '0123456789'",
    "fixed_size_binary[3] => x#,255,0",
    "list int8 => [ ], [ -128 127 ], [ null ], [ # 1 2 ]",
    "large_list int8 => [ ], [ -128 127 ], [ null ], [ # 1 2 ]",
    "struct[2] int8 utf8 => { -128 '' }, { 127 'a' }, { null 'é€' }, { # '0123456789' }",
    "list struct[2] int8 utf8 => [ ], [ { 127 'a' } ], [ null { # 'a' } ], \
     [ { null '' } { 1 'bc' } ]",
];

/// Which slots are null: none, the first, the last, all, each third.
fn is_null(nulls: usize, slot: usize, length: usize) -> bool {
    match nulls {
        0 => false,
        1 => slot == 0,
        2 => slot.wrapping_add(1) == length,
        3 => true,
        _ => slot % 3 == 2,
    }
}

fn column(
    rt: &(impl Abort + AllocGlobal),
    (words, texts): (&str, &[&str]),
    length: usize,
    nulls: usize,
) -> Array {
    assert!(rt; !texts.is_empty());
    let mut column = builder(rt, words);
    for slot in 0..length {
        let text = if is_null(nulls, slot, length) {
            "null"
        } else {
            texts[slot % texts.len()]
        };
        column
            .push(&value(rt, text, slot))
            .expect(rt, "a value that fits");
    }
    array(rt, &column)
}

fn sum(so_far: u32, number: u32) -> u32 {
    so_far
        .wrapping_mul(16_777_619)
        .wrapping_add(number)
        .wrapping_add(1)
}

/// Numbers that are too large for the sum would make another sum; none is.
fn narrow(number: i64) -> u32 {
    u32::try_from(number).unwrap_or(u32::MAX)
}

fn sum_of(so_far: u32, body: &Body) -> u32 {
    let nodes = body.nodes.iter().map(|it| (it.length, it.null_count));
    let buffers = body.buffers.iter().map(|it| (it.offset, it.length));
    let places = nodes.chain(buffers);
    let placed = places.fold(so_far, |so_far, (first, second)| {
        sum(sum(so_far, narrow(first)), narrow(second))
    });
    body.bytes
        .iter()
        .fold(placed, |so_far, byte| sum(so_far, u32::from(*byte)))
}

fn sum_stored(rt: &(impl Abort + AllocGlobal), so_far: u32, align: Align, column: &Array) -> u32 {
    let columns = std::slice::from_ref(column);
    let size = body_size(columns, align).expect(rt, "a body");
    let body = store(rt.alloc(), columns, align).expect(rt, MEMORY);
    assert_eq!(rt; size, body.bytes.len() as u64);
    sum_of(so_far, &body)
}

/// The sum over how the columns of a kind and a length are laid out.
fn laid_out(rt: &(impl Abort + AllocGlobal), kind: (&str, &[&str]), length: usize) -> u32 {
    let mut total = 1;
    for nulls in 0..5 {
        let column = column(rt, kind, length, nulls);
        for align in [Align::Eight, Align::SixtyFour] {
            total = sum_stored(rt, total, align, &column);
        }
    }
    total
}

/// The sums of all lengths.
fn sums(rt: &(impl Abort + AllocGlobal), kind: &str) -> String {
    let (words, texts) = kind.split_once(" => ").expect(rt, "values");
    let mut all = Vec::new(rt.alloc());
    for text in texts.split(", ") {
        all.push(text).expect(rt, MEMORY);
    }
    let mut sums = String::new(rt.alloc());
    for length in &LENGTHS {
        let blank = if sums.is_empty() { "" } else { " " };
        let sum = laid_out(rt, (words, &all), *length);
        write!(sums, "{blank}{sum:08x}").expect(rt, MEMORY);
    }
    sums
}

#[test]
fn columns_of_each_kind_and_length(rt: HostRuntime) {
    for (kind, expected) in KINDS.iter().zip(&SUMS) {
        is_text(&rt, kind, &sums(&rt, kind), expected);
    }
}
