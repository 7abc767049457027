//! The contents of columns, as a text.

use arrow_body_reader::BodyFault;
use arrow_data::{Array, SlotValue};
use std::process::Abort;

/// More slots than any column of a test has whose slots are all checked.
const SLOTS: usize = 8;

/// The contents of the columns, or the name of the fault: `3: 2 -> "c" null 1 -> null; 1: 7` are
/// three indices, of which one is null and one refers to a null, and a number.
pub(super) fn reported(
    rt: &(impl Abort + AllocGlobal),
    columns: &Result<Vec<Array>, BodyFault>,
) -> String {
    let mut text = String::new(rt.alloc());
    match columns {
        Ok(columns) => push_columns(rt, &mut text, columns),
        Err(fault) => write!(text, "{fault:?}").expect(rt, "memory"),
    }
    text
}

fn push_columns(rt: &impl Abort, text: &mut String, columns: &[Array]) {
    for column in columns {
        if !text.is_empty() {
            text.push_str("; ").expect(rt, "memory");
        }
        push_column(rt, text, column);
    }
}

/// Appends the number of slots of the column, and the values of the first of them.
fn push_column(rt: &impl Abort, text: &mut String, column: &Array) {
    write!(text, "{}:", column.len()).expect(rt, "memory");
    for i in 0..column.len().min(SLOTS) {
        text.push(' ').expect(rt, "memory");
        if column.encoding().is_some() {
            push_index(rt, text, column, i);
        }
        push_slot(rt, text, column, i);
    }
}

/// Appends the index of a slot that is not null.
fn push_index(rt: &impl Abort, text: &mut String, column: &Array, i: usize) {
    assert!(rt; i < column.len());
    if let Some(index) = column.int_at(i) {
        write!(text, "{index} -> ").expect(rt, "memory");
    }
}

/// Appends the value of a slot, also if an index refers to it; for a list the first and the end of
/// its items.
fn push_slot(rt: &impl Abort, text: &mut String, column: &Array, i: usize) {
    assert!(rt; i < column.len());
    match column.slot(i) {
        SlotValue::Null => write!(text, "null"),
        SlotValue::Bool(truth) => write!(text, "{truth}"),
        SlotValue::Int(number) => write!(text, "{number}"),
        SlotValue::Bytes(bytes) => write!(text, "{bytes:?}"),
        SlotValue::Text(words) => write!(text, "{words:?}"),
        SlotValue::List(start, end, _) => write!(text, "{start}..{end}"),
        SlotValue::Struct(_, place) => write!(text, "struct {place}"),
    }
    .expect(rt, "memory");
}

/// Asserts that the text of a row is this one.
pub(super) fn is_text(rt: &impl Abort, name: &str, got: &str, expected: &str) {
    assert_eq!(rt; got, expected, "{name}");
}

/// Asserts that what is asked of a row holds.
pub(super) fn holds(rt: &impl Abort, name: &str, answer: bool) {
    assert!(rt; answer, "{name}");
}
