//! Fixed-size lists: what their child has in its slots, and nulls that would make a column too long
//! by the slots that they take below them.

use super::building::{array, builder, push_all, pushed};
use super::reported::{is_number, is_text, reported};
use super::values::value;
use arrow_data::{Array, Buffers};
use std::process::Abort;

/// The type of a column, its values, and what its child has: the items of each list, and as many
/// nulls for a null (Columnar Format, "Fixed-Size List Layout").
static CHILDREN: [(&str, &str, &str); 7] = [
    ("fixed_size_list[2] int8", "", ""),
    ("fixed_size_list[2] int8", "[ 1 2 ]", "1, 2"),
    (
        "fixed_size_list[2] int8",
        "null [ 1 2 ] null [ null 3 ]",
        "null, null, 1, 2, null, null, null, 3",
    ),
    (
        "fixed_size_list[3] utf8",
        "[ 'a' null 'bc' ] null",
        "'a', null, 'bc', null, null, null",
    ),
    ("fixed_size_list[0] int8", "[ ] null [ ]", ""),
    (
        "fixed_size_list[2] fixed_size_list[1] int8",
        "null [ [ 1 ] null ]",
        "null, null, [ 1 ], null",
    ),
    (
        "fixed_size_list[2] struct[2] int8 utf8",
        "[ { 1 'a' } null ] null",
        "{ 1 'a' }, null, null, null",
    ),
];

/// The child of a column of lists.
fn items<'a>(rt: &impl Abort, column: &'a Array) -> &'a Array {
    column.items().expect(rt, "items")
}

#[test]
fn children_have_slots_under_nulls(rt: HostRuntime) {
    for (words, texts, expected) in &CHILDREN {
        let column = array(&rt, &pushed(&rt, words, texts));
        is_text(&rt, words, &reported(&rt, items(&rt, &column)), expected);
    }
}

/// Below two levels a null takes the product of both sizes, and in a struct as much as by itself.
#[test]
fn nulls_take_slots_on_every_level(rt: HostRuntime) {
    let column = array(
        &rt,
        &pushed(
            &rt,
            "fixed_size_list[2] fixed_size_list[3] int8",
            "null [ null [ 1 2 3 ] ]",
        ),
    );
    let inner = items(&rt, items(&rt, &column));
    is_text(
        &rt,
        "two levels",
        &reported(&rt, inner),
        "null, null, null, null, null, null, null, null, null, 1, 2, 3",
    );
}

/// No offsets are stored.
#[test]
fn lists_of_one_size_have_no_offsets(rt: HostRuntime) {
    let column = array(&rt, &pushed(&rt, "fixed_size_list[2] int8", "[ 1 2 ] null"));
    let Buffers::Lists {
        validity,
        offsets,
        child,
        ..
    } = column.buffers()
    else {
        panic!(rt; "lists");
    };
    is_number(&rt, "validity", validity.len(), 1);
    is_number(&rt, "offsets", offsets.len(), 0);
    is_number(&rt, "child", child.len(), 4);
}

/// A type; a value that is rejected, or taken after a null or an empty list; the fault's number, or
/// 0. 914 * 1202966770 is 2^40 + 4.
static LIMITS: [(&str, &str, u8); 12] = [
    (
        "fixed_size_list[914] fixed_size_binary[1202966770]",
        "null",
        2,
    ),
    (
        "fixed_size_list[914] fixed_size_binary[1202966770]",
        "[ null ]",
        1,
    ),
    ("fixed_size_list[914] fixed_size_binary[3]", "null", 0),
    (
        "struct[2] int8 fixed_size_list[914] fixed_size_binary[1202966770]",
        "null",
        2,
    ),
    (
        "struct[2] int8 fixed_size_list[914] fixed_size_binary[1202966770]",
        "{ 5 null }",
        2,
    ),
    (
        "fixed_size_list[2] fixed_size_list[457] fixed_size_binary[1202966770]",
        "null",
        2,
    ),
    (
        "fixed_size_list[2] fixed_size_list[457] fixed_size_binary[1202966770]",
        "[ null null ]",
        2,
    ),
    // 2^31 slots, by two levels and with a struct between them.
    (
        "fixed_size_list[65536] fixed_size_list[32768] int8",
        "null",
        2,
    ),
    (
        "fixed_size_list[1073741824] struct[1] fixed_size_list[2] null",
        "null",
        2,
    ),
    (
        "struct[1] fixed_size_list[2147483647] fixed_size_list[2147483647] utf8",
        "{ null }",
        2,
    ),
    (
        "fixed_size_list[64] fixed_size_list[32] fixed_size_list[2] int8",
        "null",
        0,
    ),
    (
        "list fixed_size_list[457] fixed_size_binary[1202966770]",
        "[ null null ]",
        2,
    ),
];

/// What was counted of a rejected value no longer counts, and no slot of it is there.
#[test]
fn nulls_that_would_be_too_long(rt: HostRuntime) {
    for (words, text, expected) in &LIMITS {
        let mut column = builder(&rt, words);
        for _ in 0..2 {
            let reported = match column.push(&value(&rt, text, 0)) {
                Ok(()) => 0,
                Err(fault) => fault.number(),
            };
            is_number(&rt, words, usize::from(reported), usize::from(*expected));
        }
        is_number(&rt, words, column.len(), if *expected == 0 { 2 } else { 0 });
    }
}

/// A builder that has made an array takes more.
#[test]
fn lists_of_one_size_grow(rt: HostRuntime) {
    let mut column = pushed(&rt, "fixed_size_list[2] int8", "[ 1 2 ] null");
    is_text(
        &rt,
        "before",
        &reported(&rt, &array(&rt, &column)),
        "[ 1 2 ], null",
    );
    push_all(&rt, &mut column, "[ 3 4 ]");
    let after = array(&rt, &column);
    is_text(
        &rt,
        "after",
        &reported(&rt, &after),
        "[ 1 2 ], null, [ 3 4 ]",
    );
    is_text(
        &rt,
        "child",
        &reported(&rt, items(&rt, &after)),
        "1, 2, null, null, 3, 4",
    );
}
