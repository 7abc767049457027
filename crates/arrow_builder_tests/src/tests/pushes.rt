//! Values that are pushed one after another, and what each push returns: the column holds those that
//! fit.

use super::building::{array, builder};
use super::reported::{is_number, is_text, reported};
use super::values::value;
use arrow_builder::{ArrayBuilder, PushFault};
use std::process::Abort;

/// The type of a column, and the values that are pushed; a `!` precedes one that does not fit.
static PUSHES: [(&str, &str); 43] = [
    ("null", "null, !0, !false, !x, !'', ![ ], !{ }"),
    ("int8!", "1, null, !''"),
    ("bool", "true, null, !1, ![ ], false"),
    ("int8", "127, !128, -128, !-129, !'1', !true, ![ ]"),
    ("uint8", "255, !256, 0, !-1"),
    ("int16", "32767, !32768, -32768, !-32769"),
    ("uint16", "65535, !65536, 0, !-1"),
    (
        "int32",
        "null, 2147483647, !2147483648, -2147483648, !-2147483649",
    ),
    ("uint32", "4294967295, !4294967296, 0, !-1"),
    (
        "int64",
        "9223372036854775807, !9223372036854775808, -9223372036854775808, !-9223372036854775809",
    ),
    (
        "uint64",
        "18446744073709551615, !18446744073709551616, 0, !-1",
    ),
    ("halffloat", "65535, !65536, 0, !-1, !'1'"),
    ("float", "4294967295, !4294967296, null, !-1"),
    ("double", "18446744073709551615, !18446744073709551616, !-1"),
    ("duration[s]", "-1, !9223372036854775808"),
    // Ten digits are taken for a decimal of nine: digits are not counted.
    (
        "decimal[32:9:2]",
        "1000000000, 2147483647, !2147483648, null, -2147483648, !-2147483649, !x1,0,0,0, !'1'",
    ),
    (
        "decimal[64:18:2]",
        "9223372036854775807, !9223372036854775808, -9223372036854775808, !-9223372036854775809",
    ),
    (
        "decimal[128:38:2]",
        "170141183460469231731687303715884105727, -170141183460469231731687303715884105728, null, \
         0, !x0,0,0,0,0,0,0,0,0,0,0,0,0,0,0,0, !'1', !true, ![ ]",
    ),
    // 32 bytes fit, and neither 31, nor 33, nor 16.
    (
        "decimal[256:76:2]",
        "x1,2,3,4,5,6,7,8,9,10,11,12,13,14,15,16,17,18,19,20,21,22,23,24,25,26,27,28,29,30,31,255, \
         !x0,0,0,0,0,0,0,0,0,0,0,0,0,0,0,0,0,0,0,0,0,0,0,0,0,0,0,0,0,0,0, null, \
         !x0,0,0,0,0,0,0,0,0,0,0,0,0,0,0,0,0,0,0,0,0,0,0,0,0,0,0,0,0,0,0,0,0, \
         !x0,0,0,0,0,0,0,0,0,0,0,0,0,0,0,0, !x, !0, !1, !'1', !{ }",
    ),
    (
        "list decimal[128:38:2]",
        "[ 1 null -170141183460469231731687303715884105728 ], ![ 1 x0 ], [ ]",
    ),
    ("binary", "x0,255, !'a', ![ ], null, x, x7"),
    ("large_binary", "null, x1, !1"),
    (
        "fixed_size_binary[3]",
        "x0,1,255, !x0,1, !x0,1,2,3, !'abc', null, x3,2,1",
    ),
    ("utf8", "'a', null, !x97, ![ ], '', 'ä€'"),
    ("large_utf8", "'a', null, 'bc'"),
    (
        "list int8",
        "[ 1 2 ], null, ![ 3 300 ], ![ 3 '4' ], [ ], [ null 5 ], !6, !{ 6 }, !{ }, !''",
    ),
    ("large_list int8", "[ -1 ], null, [ ]"),
    (
        "struct[2] int8 utf8",
        "{ 1 'a' }, !{ 2 }, !{ 2 'b' null }, !{ 2 3 }, ![ 2 'b' ], !2, !true, !x, null, { null null }",
    ),
    (
        "list struct[2] int8 utf8",
        "[ { 1 'a' } null ], ![ { 1 'a' } { 1 } ], null, [ { 2 'b' } ]",
    ),
    (
        "struct[2] int8 list int8",
        "{ 1 [ 2 3 ] }, !{ 1 [ 2 300 ] }, null, { 4 null }, { null [ 5 ] }",
    ),
    // Fixed-size lists: none with another number of items fits, and a null takes its slots below.
    (
        "fixed_size_list[2] int8",
        "[ 1 2 ], null, ![ 3 ], ![ 3 4 5 ], ![ ], ![ 3 300 ], [ null 5 ], !6, !{ 6 7 }, !''",
    ),
    (
        "fixed_size_list[2] utf8",
        "null, [ 'a' '' ], ![ 'a' ], null, [ null 'bc' ], ![ 'a' 1 ], ![ 'a' 'b' 'c' ]",
    ),
    (
        "fixed_size_list[1] null",
        "[ null ], null, ![ ], ![ null null ]",
    ),
    (
        "fixed_size_list[0] int8",
        "[ ], null, ![ 1 ], ![ null ], [ ]",
    ),
    (
        "struct[2] int8 fixed_size_list[2] utf8",
        "{ 1 [ 'a' 'b' ] }, null, !{ 2 [ 'a' ] }, { 3 null }, { null [ null 'c' ] }",
    ),
    (
        "fixed_size_list[2] fixed_size_list[3] int8",
        "[ [ 1 2 3 ] null ], null, ![ [ 1 2 ] [ 3 4 5 ] ], ![ [ 1 2 3 ] ], [ null [ 4 null 6 ] ]",
    ),
    (
        "fixed_size_list[2] struct[2] int8 utf8",
        "[ { 1 'a' } null ], null, ![ { 1 'a' } { 1 } ], ![ { 1 'a' } ], [ { null 'b' } { 2 '' } ]",
    ),
    (
        "list fixed_size_list[2] int8",
        "[ [ 1 2 ] null ], null, [ ], ![ [ 1 ] ], [ [ 3 4 ] ]",
    ),
    (
        "fixed_size_list[2] list int8",
        "[ [ 1 2 3 ] [ ] ], null, [ null [ 4 ] ], ![ [ 4 ] ]",
    ),
    // A field without fields has structs without parts.
    ("struct[0]", "{ }, null, ![ ]"),
    ("utf8", ""),
    ("list struct[2] int8 utf8", "!1"),
    ("by:7:uint8 utf8", "null, !256, !'a'"),
];

/// That a push returns this, and is counted if the value is taken.
fn is_pushed(
    rt: &(impl Abort + AllocGlobal),
    column: &mut ArrayBuilder,
    text: &str,
    expected: Result<(), PushFault>,
) {
    let before = column.len();
    let answer = column.push(&value(rt, text, 0));
    assert!(rt; answer == expected, "{text}");
    is_number(
        rt,
        text,
        column.len(),
        before + usize::from(expected.is_ok()),
    );
}

/// Pushes each value, and returns those that fit.
fn all_pushed(rt: &(impl Abort + AllocGlobal), column: &mut ArrayBuilder, texts: &str) -> String {
    let mut fitting = String::new(rt.alloc());
    for text in texts.split(", ") {
        if let Some(text) = text.strip_prefix('!') {
            is_pushed(rt, column, text, Err(PushFault::DoesNotFit));
        } else if !text.is_empty() {
            is_pushed(rt, column, text, Ok(()));
            let comma = if fitting.is_empty() { "" } else { ", " };
            write!(fitting, "{comma}{text}").expect(rt, "memory");
        }
    }
    fitting
}

#[test]
fn columns_value_by_value(rt: HostRuntime) {
    for (words, texts) in &PUSHES {
        let mut column = builder(&rt, words);
        let expected = all_pushed(&rt, &mut column, texts);
        is_text(&rt, words, &reported(&rt, &array(&rt, &column)), &expected);
    }
}
