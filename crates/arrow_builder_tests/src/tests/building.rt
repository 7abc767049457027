//! Builders, and the arrays that they make.

use super::values::values;
use arrow_builder::{ArrayBuilder, ArrayFault};
use arrow_data::{Array, Dictionary};
use arrow_test_fields::schema_of;
use arrow_types::Schema;
use std::process::Abort;

const MEMORY: &str = "memory";

/// The builder of a field that these words describe.
pub(super) fn builder(rt: &(impl Abort + AllocGlobal), words: &str) -> ArrayBuilder {
    of_schema(rt, &schema_of(rt.alloc(), words).expect(rt, "schema"))
}

fn of_schema(rt: &(impl Abort + AllocGlobal), schema: &Schema) -> ArrayBuilder {
    let fields = schema.fields();
    assert!(rt; !fields.is_empty());
    ArrayBuilder::new(rt.alloc(), &fields[0]).expect(rt, MEMORY)
}

/// Puts the values of a text after the others.
pub(super) fn push_all(rt: &(impl Abort + AllocGlobal), column: &mut ArrayBuilder, text: &str) {
    for value in &values(rt, text, 0) {
        column.push(value).expect(rt, "a value that fits");
    }
}

/// The column of these values.
pub(super) fn pushed(rt: &(impl Abort + AllocGlobal), words: &str, text: &str) -> ArrayBuilder {
    let mut column = builder(rt, words);
    push_all(rt, &mut column, text);
    column
}

/// The array of a column without dictionaries.
pub(super) fn array(rt: &(impl Abort + AllocGlobal), column: &ArrayBuilder) -> Array {
    column.finish(rt.alloc(), &[]).expect(rt, "an array")
}

/// The dictionary of an array that refers to no dictionary.
pub(super) fn dictionary(rt: &(impl Abort + AllocGlobal), values: Array) -> Dictionary {
    assert!(rt; values.encoding().is_none() && !values.data_type().has_encoding_below());
    Dictionary::from_array(rt.alloc(), values).expect(rt, MEMORY)
}

/// Dictionaries from a text, each by its id, its type and its values: `7 utf8 = 'a' 'b'; 8 bool =`.
pub(super) fn listed(rt: &(impl Abort + AllocGlobal), text: &str) -> Vec<(i64, Dictionary)> {
    let mut listed = Vec::new(rt.alloc());
    if text.is_empty() {
        return listed;
    }
    for entry in text.split("; ") {
        let (id, rest) = entry.split_once(' ').expect(rt, "an id");
        let (words, values) = rest.split_once(" =").expect(rt, "a type and values");
        let id = id.parse::<i64>().ok().expect(rt, "an id");
        let values = array(rt, &pushed(rt, words, values));
        listed.push((id, dictionary(rt, values))).expect(rt, MEMORY);
    }
    listed
}

/// The number of the fault, or 0.
pub(super) fn fault_of(answer: Result<Array, ArrayFault>) -> u8 {
    match answer {
        Ok(_) => 0,
        Err(fault) => fault.number(),
    }
}
