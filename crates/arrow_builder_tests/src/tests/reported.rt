//! The content of a column, in the words of `values`, with commas between the slots: for an index,
//! that and the value to which it refers, as in `2='c', null, 3=null`.

use arrow_data::{Array, SlotValue};
use std::process::Abort;

const MEMORY: &str = "memory";

/// More levels than a type of a test has.
const LEVELS: u32 = 8;

/// That these are the same number of a row.
pub(super) fn is_number(rt: &impl Abort, name: &str, number: usize, expected: usize) {
    assert_eq!(rt; number, expected, "{name}");
}

/// That the text of a row is this.
pub(super) fn is_text(rt: &impl Abort, name: &str, text: &str, expected: &str) {
    assert_eq!(rt; text, expected, "{name}");
}

pub(super) fn reported(rt: &(impl Abort + AllocGlobal), column: &Array) -> String {
    let mut text = String::new(rt.alloc());
    for j in 0..column.len() {
        if j > 0 {
            text.push_str(", ").expect(rt, MEMORY);
        }
        push_slot(rt, &mut text, column, j, LEVELS);
    }
    text
}

/// The value of a slot, and before it the index that refers to it.
fn push_slot(rt: &impl Abort, text: &mut String, column: &Array, j: usize, levels: u32) {
    assert!(rt; levels > 0 && j < column.len());
    if let (Some(index), true) = (column.int_at(j), column.encoding().is_some()) {
        write!(text, "{index}=").expect(rt, MEMORY);
    }
    match column.slot(j) {
        SlotValue::Null => text.push_str("null").expect(rt, MEMORY),
        SlotValue::Bool(truth) => write!(text, "{truth}").expect(rt, MEMORY),
        SlotValue::Int(number) => write!(text, "{number}").expect(rt, MEMORY),
        SlotValue::Bytes(bytes) => push_bytes(rt, text, bytes),
        SlotValue::Text(letters) => write!(text, "'{letters}'").expect(rt, MEMORY),
        SlotValue::List(start, end, items) => {
            text.push_str("[ ").expect(rt, MEMORY);
            for k in start..end {
                push_slot(rt, text, items, k, levels - 1);
                text.push_str(" ").expect(rt, MEMORY);
            }
            text.push_str("]").expect(rt, MEMORY);
        }
        SlotValue::Struct(fields, place) => {
            text.push_str("{ ").expect(rt, MEMORY);
            for field in fields {
                push_slot(rt, text, field, place, levels - 1);
                text.push_str(" ").expect(rt, MEMORY);
            }
            text.push_str("}").expect(rt, MEMORY);
        }
    }
}

fn push_bytes(rt: &impl Abort, text: &mut String, bytes: &[u8]) {
    text.push_str("x").expect(rt, MEMORY);
    for (place, byte) in bytes.iter().enumerate() {
        let comma = if place == 0 { "" } else { "," };
        write!(text, "{comma}{byte}").expect(rt, MEMORY);
    }
}
