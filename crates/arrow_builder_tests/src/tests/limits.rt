//! Values that would make a column too long. A null of a fixed width takes its bytes too, so a list
//! of some hundred nulls passes 2^40 bytes of data, and is rejected before any are allocated.

use super::building::{array, builder, push_all};
use super::reported::{is_number, is_text, reported};
use super::values::{value, values};
use arrow_builder::ArrayBuilder;
use arrow_layout::Value;
use std::process::Abort;

const MEMORY: &str = "memory";

/// The type of the column; how many nulls there are, and the item after them; the fault that is
/// returned, or 0.
type Limit = (&'static str, (usize, &'static str), u8);

const WIDE: &str = "list fixed_size_binary[1202966770]";

const PAIRS: &str = "list struct[2] int8 fixed_size_binary[1202966770]";

const SMALL_PAIRS: &str = "list struct[2] int8 fixed_size_binary[3]";

const PAIR: &str = "struct[2] int8 list fixed_size_binary[1202966770]";

/// 914 * 1202966770 is 2^40 + 4, 513 * 2147483647 is 2^40 + 2147483135. In a struct the list comes
/// after a number.
static LIMITS: [Limit; 12] = [
    (WIDE, (913, "null"), 2),
    (WIDE, (913, "1"), 1),
    (WIDE, (913, "x97,98,99"), 1),
    ("list fixed_size_binary[2147483647]", (512, "null"), 2),
    ("list fixed_size_binary[3]", (913, "x97,98,99"), 0),
    ("list fixed_size_binary[0]", (913, "null"), 0),
    (PAIRS, (913, "null"), 2),
    (PAIRS, (913, "{ 5 null }"), 2),
    (PAIRS, (913, "{ 500 null }"), 1),
    (SMALL_PAIRS, (913, "{ 5 null }"), 0),
    (PAIR, (913, "null"), 2),
    ("struct[2] int8 list fixed_size_binary[3]", (913, "null"), 0),
];

/// The list of `count` nulls and an item.
fn list(rt: &(impl Abort + AllocGlobal), (count, last): (usize, &str)) -> Value {
    let mut items = Vec::new(rt.alloc());
    for _ in 0..count {
        items.push(Value::Null).expect(rt, MEMORY);
    }
    items.push(value(rt, last, 0)).expect(rt, MEMORY);
    Value::List(items)
}

/// The value of a column of lists, or of structs whose second field is one.
fn row_of(rt: &(impl Abort + AllocGlobal), words: &str, items: (usize, &str)) -> Value {
    let list = list(rt, items);
    if words.starts_with("list") {
        return list;
    }
    let mut parts = values(rt, "7", 0);
    parts.push(list).expect(rt, MEMORY);
    Value::Struct(parts)
}

/// That a push returns the number of this fault or 0, and that there are that many slots.
fn is_answered(
    rt: &impl Abort,
    name: &str,
    column: &mut ArrayBuilder,
    value: &Value,
    (fault, len): (u8, usize),
) {
    let reported = match column.push(value) {
        Ok(()) => 0,
        Err(fault) => fault.number(),
    };
    is_number(rt, name, usize::from(reported), usize::from(fault));
    is_number(rt, name, column.len(), len);
}

#[test]
fn columns_that_would_be_too_long(rt: HostRuntime) {
    for (words, items, fault) in &LIMITS {
        let mut column = builder(&rt, words);
        push_all(&rt, &mut column, "null");
        let expected = (*fault, if *fault == 0 { 2 } else { 1 });
        is_answered(
            &rt,
            words,
            &mut column,
            &row_of(&rt, words, *items),
            expected,
        );
    }
}

/// What was counted of a rejected value no longer counts.
#[test]
fn refused_values_leave_no_count(rt: HostRuntime) {
    let mut column = builder(&rt, WIDE);
    let refused = list(&rt, (913, "null"));
    for _ in 0..3 {
        is_answered(&rt, "refused", &mut column, &refused, (2, 0));
    }
    push_all(&rt, &mut column, "[ ] null");
    is_text(
        &rt,
        "taken",
        &reported(&rt, &array(&rt, &column)),
        "[ ], null",
    );
}

/// 2^18 * 2^22 is 2^40: all items but the last are counted before the list is rejected. What is
/// taken next would be too much after them.
#[test]
fn refused_items_leave_no_count(rt: HostRuntime) {
    let mut column = builder(&rt, "list fixed_size_binary[4194304]");
    is_answered(
        &rt,
        "refused",
        &mut column,
        &list(&rt, (1 << 18, "null")),
        (2, 0),
    );
    is_answered(
        &rt,
        "taken",
        &mut column,
        &value(&rt, "[ null ]", 0),
        (0, 1),
    );
}
