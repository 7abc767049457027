//! Arrays of the same values with other dictionaries.

use super::building::{array, builder, dictionary, fault_of, listed, push_all, pushed};
use super::reported::{is_number, is_text, reported};
use super::values::value;
use arrow_builder::{ArrayBuilder, ArrayFault, PushFault};
use arrow_data::{Array, Buffers, Dictionary};
use std::process::Abort;

const MEMORY: &str = "memory";

const ABC: &str = "7 utf8 = 'a' 'b' 'c'";

const AB: &str = "7 utf8 = 'a' 'b'";

const A: &str = "7 utf8 = 'a'";

/// The dictionaries that are listed, and the content of the array, or the number of the fault.
type Finish = (&'static str, &'static str);

/// The type of a column and its values; how it is finished, again and again.
static FINISHES: [(&str, &str, &[Finish]); 10] = [
    (
        "by:7:uint8 utf8",
        "0 null 2",
        &[
            (ABC, "0='a', null, 2='c'"),
            ("7 utf8 = 'x' 'y' null 'z'", "0='x', null, 2=null"),
            (AB, "fault 2"),
            ("", "fault 2"),
            ("8 utf8 = 'a' 'b' 'c'", "fault 2"),
            (
                "-7 bool =; 4294967303 bool =; 7 utf8 = 'a' 'b' 'c'",
                "0='a', null, 2='c'",
            ),
            ("7 int8 = 1 2 3", "fault 1"),
            ("7 int8 =", "fault 1"),
            (
                "8 int8 =; 7 utf8 = 'a' 'b' 'c'; 7 utf8 = 'x'; 7 int8 =",
                "0='a', null, 2='c'",
            ),
            ("7 utf8 = 'x'; 7 utf8 = 'a' 'b' 'c'", "fault 2"),
        ],
    ),
    (
        "by:7:uint8 utf8",
        "null null",
        &[
            ("", "null, null"),
            ("7 utf8 =", "null, null"),
            ("7 binary =", "fault 1"),
        ],
    ),
    ("by:7:uint8 utf8", "0", &[("", "fault 2")]),
    (
        "by:7:int32 utf8",
        "3",
        &[(ABC, "fault 2"), ("7 int32 = 1 2 3", "fault 1")],
    ),
    ("by:7:int8 utf8", "-1", &[(A, "fault 2")]),
    (
        "list by:7:uint8 utf8",
        "[ 1 0 ] null [ 1 ]",
        &[
            (AB, "[ 1='b' 0='a' ], null, [ 1='b' ]"),
            (A, "fault 2"),
            ("7 large_utf8 = 'a' 'b'", "fault 1"),
        ],
    ),
    (
        "struct[2] int8 by:7:uint8 utf8",
        "{ 5 1 } null",
        &[
            (AB, "{ 5 1='b' }, null"),
            (A, "fault 2"),
            ("7 null =", "fault 1"),
        ],
    ),
    (
        "list by:7:uint8 utf8",
        "",
        &[("", ""), ("7 bool =", "fault 1")],
    ),
    // Decimals of another width, precision or scale are of another type.
    (
        "by:7:uint8 decimal[128:38:2]",
        "0 null 1",
        &[
            (
                "7 decimal[128:38:2] = -5 170141183460469231731687303715884105727",
                "0=-5, null, 1=170141183460469231731687303715884105727",
            ),
            ("7 decimal[128:38:2] = -5", "fault 2"),
            ("7 decimal[128:38:3] = -5 6", "fault 1"),
            ("7 decimal[128:38:-2] = -5 6", "fault 1"),
            ("7 decimal[128:37:2] = -5 6", "fault 1"),
            ("7 decimal[64:18:2] = -5 6", "fault 1"),
            ("7 decimal[256:38:2] = null null", "fault 1"),
            ("7 int64 = -5 6", "fault 1"),
        ],
    ),
    (
        "by:7:uint8 decimal[256:76:-3]",
        "0 null",
        &[
            ("7 decimal[256:76:-3] = null", "0=null, null"),
            ("7 fixed_size_binary[32] = null", "fault 1"),
        ],
    ),
];

/// The content of an array, or the number of the fault.
fn answered(rt: &(impl Abort + AllocGlobal), answer: Result<Array, ArrayFault>) -> String {
    match answer {
        Ok(array) => reported(rt, &array),
        Err(fault) => format!(in rt.alloc(); "fault {}", fault.number()).expect(rt, MEMORY),
    }
}

#[test]
fn finished_again_and_again(rt: HostRuntime) {
    for (words, values, finishes) in &FINISHES {
        let column = pushed(&rt, words, values);
        for (all, expected) in *finishes {
            let answer = column.finish(rt.alloc(), &listed(&rt, all));
            is_text(&rt, all, &answered(&rt, answer), expected);
        }
    }
}

/// Whether the slots of two arrays are the same, one by one.
fn are_same(array: &Array, other: &Array) -> bool {
    if array.len() != other.len() {
        return false;
    }
    for j in 0..array.len() {
        if !array.same_slot(j, other, j) {
            return false;
        }
    }
    true
}

/// That the array that a builder now makes has the same slots as another one, or does not.
fn is_same(rt: &(impl Abort + AllocGlobal), before: &Array, column: &ArrayBuilder, expected: bool) {
    let is_same = are_same(before, &array(rt, column));
    assert_eq!(rt; is_same, expected);
}

#[test]
fn grown_after_an_array_was_made(rt: HostRuntime) {
    let mut column = pushed(&rt, "list int8", "[ 1 2 ] null");
    let before = array(&rt, &column);
    is_same(&rt, &before, &column, true);
    push_all(&rt, &mut column, "[ 3 ]");
    is_same(&rt, &before, &column, false);
    is_text(&rt, "before", &reported(&rt, &before), "[ 1 2 ], null");
    is_text(
        &rt,
        "after",
        &reported(&rt, &array(&rt, &column)),
        "[ 1 2 ], null, [ 3 ]",
    );
}

#[test]
fn offsets_are_one_more_than_slots(rt: HostRuntime) {
    let texts = array(&rt, &pushed(&rt, "utf8", "'a' 'bc'"));
    assert!(rt; matches!(texts.buffers(), Buffers::Texts(of) if of.offsets.len() == 12));
}

/// An index, how many values there are, and the number of the fault or 0.
static AMONG_MANY: [(&str, &str, usize, u8); 6] = [
    ("by:7:uint8 utf8", "255", 256, 0),
    ("by:7:uint8 utf8", "255", 255, 2),
    ("by:7:uint8 utf8", "128", 129, 0),
    ("by:7:int8 utf8", "127", 128, 0),
    ("by:7:int8 utf8", "-1", 256, 2),
    ("by:7:int8 utf8", "-128", 300, 2),
];

/// The dictionary 7 of `count` texts.
fn letters(rt: &(impl Abort + AllocGlobal), count: usize) -> Vec<(i64, Dictionary)> {
    let letter = value(rt, "'a'", 0);
    let mut column = builder(rt, "utf8");
    for _ in 0..count {
        column.push(&letter).expect(rt, "a value that fits");
    }
    let mut listed = Vec::new(rt.alloc());
    listed
        .push((7, dictionary(rt, array(rt, &column))))
        .expect(rt, MEMORY);
    listed
}

#[test]
fn indices_of_8_bits_with_and_without_a_sign(rt: HostRuntime) {
    for (words, index, count, expected) in &AMONG_MANY {
        let column = pushed(&rt, words, index);
        let fault = fault_of(column.finish(rt.alloc(), &letters(&rt, *count)));
        is_number(&rt, index, usize::from(fault), usize::from(*expected));
    }
}

/// The faults, and their numbers and texts.
const PUSH_FAULTS: [PushFault; 3] = [PushFault::DoesNotFit, PushFault::TooLong, PushFault::Memory];

static PUSH_WORDS: [&str; 3] = [
    "1 a value that does not fit the field",
    "2 more slots or bytes than a column can have",
    "3 out of memory",
];

const ARRAY_FAULTS: [ArrayFault; 3] = [
    ArrayFault::DictionaryType,
    ArrayFault::IndexRange,
    ArrayFault::Memory,
];

static ARRAY_WORDS: [&str; 3] = [
    "1 a dictionary of another type than the field's values",
    "2 an index without a value",
    "3 out of memory",
];

#[test]
fn faults_are_reported(rt: HostRuntime) {
    for (&fault, expected) in PUSH_FAULTS.iter().zip(&PUSH_WORDS) {
        let got = format!(in rt.alloc(); "{} {fault}", fault.number()).expect(&rt, MEMORY);
        is_text(&rt, "a value's fault", &got, expected);
    }
    for (&fault, expected) in ARRAY_FAULTS.iter().zip(&ARRAY_WORDS) {
        let got = format!(in rt.alloc(); "{} {fault}", fault.number()).expect(&rt, MEMORY);
        is_text(&rt, "an array's fault", &got, expected);
    }
}
