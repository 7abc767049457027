//! Truth values, lists and structs as records, and numbers of few digits.

use super::columns::{MEMORY, are_records, builder, field, push, records, schema};
use arrow_layout::Value;
use arrow_types::{BitWidth, DataType};
use std::process::Abort;

/// Numbers of 16 bits.
const NUMBER: DataType = DataType::Int {
    bits: BitWidth::Sixteen,
    signed: true,
};

/// Asserts that a column of these values has these records.
pub(super) fn are_shown(
    rt: &(impl Abort + AllocGlobal),
    of: DataType,
    values: &[Value],
    expected: &str,
) {
    let schema = schema(rt, of);
    let mut column = builder(rt, &schema);
    for value in values {
        push(rt, &mut column, value);
    }
    are_records(rt, &records(rt, schema, &column), expected);
}

/// A struct of a number and of bytes.
fn pair(rt: &(impl Abort + AllocGlobal), number: Value, bytes: Value) -> Value {
    Value::Struct(vec![in rt.alloc(); number, bytes].expect(rt, MEMORY))
}

#[test]
fn structs_name_their_fields(rt: HostRuntime) {
    let (number, bytes) = (
        field(&rt, "n", NUMBER),
        field(&rt, "long name", DataType::Binary),
    );
    let fields = vec![in rt.alloc(); number, bytes].expect(&rt, MEMORY);
    let bytes = vec![in rt.alloc(); 0xab, 0x0c].expect(&rt, MEMORY);
    let values = [
        pair(&rt, Value::Int(-300), Value::Bytes(bytes)),
        pair(&rt, Value::Null, Value::Null),
        Value::Null,
    ];
    let expected = "7,{n=-300;long name=ab0c}\n7,{n=null;long name=null}\n7,\n";
    are_shown(&rt, DataType::Struct(fields), &values, expected);
}

#[test]
fn truth_values_are_words(rt: HostRuntime) {
    let values = [Value::Bool(true), Value::Bool(false), Value::Null];
    are_shown(&rt, DataType::Bool, &values, "7,true\n7,false\n7,\n");
}

/// The type of lists.
pub(super) fn lists(rt: &(impl Abort + AllocGlobal), items: DataType) -> DataType {
    DataType::List(Box::new(rt.alloc(), field(rt, "item", items)).expect(rt, MEMORY))
}

/// A list of an item, a null, and another item.
pub(super) fn list(rt: &(impl Abort + AllocGlobal), first: Value, last: Value) -> Value {
    Value::List(vec![in rt.alloc(); first, Value::Null, last].expect(rt, MEMORY))
}

#[test]
fn lists_part_their_items(rt: HostRuntime) {
    let values = [
        list(&rt, Value::Int(1), Value::Int(-3)),
        Value::List(Vec::new(rt.alloc())),
        Value::Null,
    ];
    let expected = "7,[1;null;-3]\n7,[]\n7,\n";
    are_shown(&rt, lists(&rt, NUMBER), &values, expected);
}

#[test]
fn lists_of_truth_values(rt: HostRuntime) {
    let values = [list(&rt, Value::Bool(true), Value::Bool(false))];
    let expected = "7,[true;null;false]\n";
    are_shown(&rt, lists(&rt, DataType::Bool), &values, expected);
}

#[test]
fn numbers_of_few_digits(rt: HostRuntime) {
    let schema = schema(&rt, NUMBER);
    let mut column = builder(&rt, &schema);
    for number in [0, 1, 9, 10, 11, 99, 100, -1, -9, -10] {
        push(&rt, &mut column, &Value::Int(number));
    }
    let expected = "7,0\n7,1\n7,9\n7,10\n7,11\n7,99\n7,100\n7,-1\n7,-9\n7,-10\n";
    are_records(&rt, &records(&rt, schema, &column), expected);
}
