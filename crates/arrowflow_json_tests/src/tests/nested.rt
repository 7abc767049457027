//! Lists, structs and maps.

use super::columns::{MEMORY, are_shown, field, text};
use arrow_layout::Value;
use arrow_types::{BitWidth, DataType};
use std::process::Abort;

const INT8: DataType = DataType::Int {
    bits: BitWidth::Eight,
    signed: true,
};

/// The type of lists of this type.
fn lists(rt: &(impl Abort + AllocGlobal), items: DataType) -> DataType {
    DataType::List(Box::new(rt.alloc(), field(rt, "item", items)).expect(rt, MEMORY))
}

/// A list of two items, or a struct of two values, with these.
fn both(rt: &(impl Abort + AllocGlobal), first: Value, last: Value) -> Vec<Value> {
    vec![in rt.alloc(); first, last].expect(rt, MEMORY)
}

#[test]
fn lists_are_arrays(rt: HostRuntime) {
    let values = [
        Value::List(both(&rt, Value::Int(1), Value::Null)),
        Value::List(Vec::new(rt.alloc())),
        Value::Null,
    ];
    let expected = "{\"x\":[1,null]}\n{\"x\":[]}\n{\"x\":null}\n";
    are_shown(&rt, lists(&rt, INT8), &values, expected);
    let inner = Value::List(both(&rt, Value::Int(-1), Value::Int(2)));
    let values = [Value::List(both(&rt, inner, Value::Null))];
    let of_lists = lists(&rt, lists(&rt, INT8));
    are_shown(&rt, of_lists, &values, "{\"x\":[[-1,2],null]}\n");
}

#[test]
fn fixed_size_lists_are_arrays(rt: HostRuntime) {
    let item = Box::new(rt.alloc(), field(&rt, "item", INT8)).expect(&rt, MEMORY);
    let values = [
        Value::List(both(&rt, Value::Int(1), Value::Null)),
        Value::Null,
    ];
    let expected = "{\"x\":[1,null]}\n{\"x\":null}\n";
    are_shown(&rt, DataType::FixedSizeList(item, 2), &values, expected);
}

/// The type of structs of a number `a "n"` and a text of the same name.
fn pairs(rt: &(impl Abort + AllocGlobal)) -> DataType {
    let (number, words) = (
        field(rt, "a \"n\"", INT8),
        field(rt, "a \"n\"", DataType::Utf8),
    );
    DataType::Struct(vec![in rt.alloc(); number, words].expect(rt, MEMORY))
}

#[test]
fn structs_are_objects(rt: HostRuntime) {
    let values = [
        Value::Struct(both(&rt, Value::Int(1), text(&rt, "b"))),
        Value::Struct(both(&rt, Value::Null, Value::Null)),
        Value::Null,
    ];
    let expected = "{\"x\":{\"a \\\"n\\\"\":1,\"a \\\"n\\\"\":\"b\"}}\n\
        {\"x\":{\"a \\\"n\\\"\":null,\"a \\\"n\\\"\":null}}\n{\"x\":null}\n";
    are_shown(&rt, pairs(&rt), &values, expected);
}

#[test]
fn maps_are_arrays_of_entries(rt: HostRuntime) {
    let mut key = field(&rt, "key", DataType::Utf8);
    key.nullable = false;
    let entry = vec![in rt.alloc(); key, field(&rt, "value", INT8)].expect(&rt, MEMORY);
    let mut entries = field(&rt, "entries", DataType::Struct(entry));
    entries.nullable = false;
    let map = DataType::Map(Box::new(rt.alloc(), entries).expect(&rt, MEMORY), false);
    let one = Value::Struct(both(&rt, text(&rt, "a"), Value::Int(1)));
    let two = Value::Struct(both(&rt, text(&rt, "b"), Value::Null));
    let values = [Value::List(both(&rt, one, two)), Value::Null];
    let expected =
        "{\"x\":[{\"key\":\"a\",\"value\":1},{\"key\":\"b\",\"value\":null}]}\n{\"x\":null}\n";
    are_shown(&rt, map, &values, expected);
}
