//! Values by themselves.

use arrow_layout::Value;
use std::process::Abort;

/// The values 1 and null.
fn one_and_none(rt: &(impl Abort + AllocGlobal)) -> Vec<Value> {
    vec![in rt.alloc(); Value::Int(1), Value::Null].expect(rt, "memory")
}

/// One value of each kind; the last two hold others.
fn one_of_each(rt: &(impl Abort + AllocGlobal)) -> Vec<Value> {
    let bytes = Vec::from_slice(rt.alloc(), b"a").expect(rt, "memory");
    let text = String::from_str(rt.alloc(), "a").expect(rt, "memory");
    let values = vec![in rt.alloc();
        Value::Null,
        Value::Bool(false),
        Value::Int(0),
        Value::Bytes(bytes),
        Value::Text(text),
        Value::List(one_and_none(rt)),
        Value::Struct(one_and_none(rt)),
    ];
    values.expect(rt, "memory")
}

/// A list of these numbers.
fn list_of(rt: &(impl Abort + AllocGlobal), numbers: &[i128]) -> Value {
    let mut items = Vec::new(rt.alloc());
    for number in numbers {
        items.push(Value::Int(*number)).expect(rt, "memory");
    }
    Value::List(items)
}

/// Asserts that values `i` and `j` compare equal exactly if `i` is `j`.
fn is_answered(rt: &impl Abort, (i, j): (usize, usize), answer: bool) {
    assert_eq!(rt; answer, i == j, "{i} and {j}");
}

/// Asserts that a value is equal only to value number `i`.
fn is_equal_to_one(rt: &impl Abort, value: &Value, values: &[Value], i: usize) {
    for (j, other) in values.iter().enumerate() {
        is_answered(rt, (i, j), *value == *other);
    }
}

/// Asserts that a copy of a value is equal only to value number `i`.
fn is_copied(rt: &(impl Abort + AllocGlobal), value: &Value, values: &[Value], i: usize) {
    let copy = value.copy(rt.alloc()).expect(rt, "memory");
    is_equal_to_one(rt, &copy, values, i);
}

#[test]
fn values_of_different_kinds_differ(rt: HostRuntime) {
    let values = one_of_each(&rt);
    let others = one_of_each(&rt);
    for (i, value) in values.iter().enumerate() {
        is_equal_to_one(&rt, value, &others, i);
        is_copied(&rt, value, &others, i);
    }
}

static LISTS: [&[i128]; 4] = [&[1, 2], &[1, 3], &[1], &[]];

#[test]
fn lists_differ_in_one_item(rt: HostRuntime) {
    let mut lists = Vec::new(rt.alloc());
    for numbers in &LISTS {
        lists.push(list_of(&rt, numbers)).expect(&rt, "memory");
    }
    for (i, list) in lists.iter().enumerate() {
        is_equal_to_one(&rt, list, &lists, i);
    }
}
