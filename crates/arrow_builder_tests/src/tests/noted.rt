//! Types that differ only in their custom metadata are the same: a dictionary and a column of the
//! one can be used for a field of the other.

use super::building::{array, dictionary, pushed};
use super::reported::is_number;
use arrow_data::{Array, Batch};
use arrow_test_fields::schema_of;
use std::process::Abort;
use std::rc::Rc;

/// Types of lists whose items have pairs of other keys, and a field that encodes the first.
static TYPES: [(&str, &str, &str); 4] = [
    ("list bool~a", "list bool~a", "by:7:int8 list bool~a"),
    ("list bool~a", "list bool~b", "by:7:int8 list bool~a"),
    ("list bool", "list bool~a", "by:7:int8 list bool"),
    ("list bool~a", "list bool", "by:7:int8 list bool~a"),
];

/// The column of one null.
fn null(rt: &(impl Abort + AllocGlobal), words: &str) -> Array {
    array(rt, &pushed(rt, words, "null"))
}

#[test]
fn dictionaries_of_types_with_other_pairs(rt: HostRuntime) {
    for (_, other, words) in &TYPES {
        let values = dictionary(&rt, null(&rt, other));
        let listed = vec![in rt.alloc(); (7, values)].expect(&rt, "memory");
        let array = pushed(&rt, words, "null").finish(rt.alloc(), &listed);
        is_number(&rt, words, array.expect(&rt, "a column").len(), 1);
    }
}

#[test]
fn columns_of_types_with_other_pairs(rt: HostRuntime) {
    for (words, other, _) in &TYPES {
        let columns = vec![in rt.alloc(); null(&rt, other)].expect(&rt, "memory");
        let schema = Rc::new(
            rt.alloc(),
            schema_of(rt.alloc(), words).expect(&rt, "schema"),
        )
        .expect(&rt, "memory");
        let batch = Batch::new(schema, columns, 1).expect(&rt, "a batch");
        is_number(&rt, words, batch.columns().len(), 1);
    }
}
