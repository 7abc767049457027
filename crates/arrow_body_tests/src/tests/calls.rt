//! What `load`, `check` and `load_typed` return for one body, and for nodes that no stream leads to.

use super::bodies::{dictionary, listed, loaded, parts_of};
use super::reported::{holds, is_text, reported};
use arrow_body_reader::BodyFault::{self, Index, Layout, Memory, Text};
use arrow_body_reader::{are_fit, check, load_typed};
use arrow_data::{Array, Dictionary};
use arrow_layout::{SharedBody, shared_types};
use arrow_test_fields::fields_of;
use arrow_types::Field;
use std::process::Abort;
use std::slice;

/// The types of fields, their nodes and buffers, and the expected text. Dictionary 0 has "a", null
/// and "c".
type Row = (&'static str, &'static str, &'static str);

static ROWS: [Row; 20] = [
    ("int32", "3/1 | #5, 1 9 3", "3: 1 null 3"),
    (
        "by:0:int32 utf8 utf8",
        "3/1 3/0 | #5, 2 9 1, #, 0 1 1 3, 'x\"z'",
        r#"3: 2 -> "c" null 1 -> null; 3: "x" "" "\"z""#,
    ),
    ("list int32", "2/1 2/0 | #2, 0 1 2, #, 7 8", "2: null 1..2"),
    (
        "struct[2] bool fixed_size_binary[1]",
        "2/1 2/0 2/0 | #1, #, #1, #, #4 5",
        "2: struct 0 null",
    ),
    // Decimals, and the same with one byte too few.
    (
        "decimal[128:38:2]",
        "3/1 | #5, #254 255 255 255 255 255 255 255 255 255 255 255 255 255 255 255 \
         9 9 9 9 9 9 9 9 9 9 9 9 9 9 9 9 1 0 0 0 0 0 0 0 2 0 0 0 0 0 0 0",
        "3: -2 null 36893488147419103233",
    ),
    (
        "decimal[128:38:2]",
        "3/1 | #5, #254 255 255 255 255 255 255 255 255 255 255 255 255 255 255 255 \
         9 9 9 9 9 9 9 9 9 9 9 9 9 9 9 9 1 0 0 0 0 0 0 0 2 0 0 0 0 0 0",
        "Layout",
    ),
    (
        "decimal[32:9:2]",
        "2/0 | #, #255 255 255 255 0 0 0 128",
        "2: -1 -2147483648",
    ),
    (
        "decimal[32:9:2]",
        "2/0 | #, #255 255 255 255 0 0 0",
        "Layout",
    ),
    (
        "decimal[64:18:2]",
        "1/0 | #, #0 0 0 0 0 0 0 128",
        "1: -9223372036854775808",
    ),
    ("decimal[64:18:2]", "1/0 | #, #0 0 0 0 0 0 0", "Layout"),
    (
        "decimal[256:76:2]",
        "2/1 | #2, 9 9 9 9 9 9 9 9 1 0 0 0 0 0 0 -1",
        "2: null [1, 0, 0, 0, 0, 0, 0, 0, 0, 0, 0, 0, 0, 0, 0, 0, \
         0, 0, 0, 0, 0, 0, 0, 0, 0, 0, 0, 0, 255, 255, 255, 255]",
    ),
    (
        "decimal[256:76:2]",
        "1/0 | #, #0 0 0 0 0 0 0 0 0 0 0 0 0 0 0 0 0 0 0 0 0 0 0 0 0 0 0 0 0 0 0",
        "Layout",
    ),
    // A number too few, bytes that are not a text, and an index without a value.
    ("int32", "3/0 | #, 1 2", "Layout"),
    (
        "by:0:int32 utf8 utf8",
        "1/0 1/0 | #, 3, #, 0 1, #255",
        "Text",
    ),
    ("by:0:int32 utf8", "1/0 | #, 3", "Index"),
    // The greatest number of nulls, and one more.
    (
        "null",
        "2147483647/7",
        "2147483647: null null null null null null null null",
    ),
    ("null", "2147483648/7", "Layout"),
    // Nodes with fewer than 0 slots, and with more than there can be.
    ("int32", "-1/0 | #, 1", "Layout"),
    ("int32", "2147483648/0 | #, 1", "Layout"),
    ("int32", "9223372036854775807/-1 | #, 1", "Layout"),
];

fn letters(rt: &(impl Abort + AllocGlobal)) -> Vec<(i64, Dictionary)> {
    let values = loaded(rt, "utf8", "3/1 | #5, 0 1 1 2, 'ac'", &[]);
    listed(rt, 0, dictionary(rt, values))
}

/// The result with types that were made before; the bytes alone have the same fault.
fn loaded_typed(
    rt: &(impl Abort + AllocGlobal),
    (of, parts, _): &Row,
    dictionaries: &[(i64, Dictionary)],
) -> Result<Vec<Array>, BodyFault> {
    let fields = fields_of(rt.alloc(), of).expect(rt, "fields");
    let (nodes, buffers, body) = parts_of(rt, parts);
    assert!(rt; are_fit(&fields, dictionaries));
    let fault = check(&fields, &nodes, &buffers, &body, dictionaries).err();
    let alloc = rt.alloc();
    let types = shared_types(alloc, &fields).expect(rt, "memory");
    let shared = SharedBody::new(alloc, body).expect(rt, "memory");
    let columns = load_typed(
        alloc,
        &fields,
        &types,
        &nodes,
        &buffers,
        &shared,
        dictionaries,
    );
    is_checked(rt, parts, &fields, &columns, fault);
    columns
}

/// Asserts that columns have the fields' types, or that the fault is this one.
fn is_checked(
    rt: &impl Abort,
    name: &str,
    fields: &[Field],
    columns: &Result<Vec<Array>, BodyFault>,
    fault: Option<BodyFault>,
) {
    let is_so = match columns {
        Ok(columns) => {
            fault.is_none() && are_typed(fields, columns) && are_children_typed(fields, columns)
        }
        Err(found) => fault == Some(*found),
    };
    holds(rt, name, is_so);
}

/// Whether the columns have the fields' types.
fn are_typed(fields: &[Field], columns: &[Array]) -> bool {
    if fields.len() != columns.len() {
        return false;
    }
    for k in 0..fields.len() {
        if !columns[k].data_type().same(&fields[k].data_type) {
            return false;
        }
    }
    true
}

/// Whether the children of the columns have the types of the fields below.
fn are_children_typed(fields: &[Field], columns: &[Array]) -> bool {
    if fields.len() != columns.len() {
        return false;
    }
    for k in 0..fields.len() {
        let below = fields[k].children();
        let is_typed = match (columns[k].items(), columns[k].fields()) {
            (Some(items), _) => are_typed(below, slice::from_ref(items)),
            (None, Some(children)) => are_typed(below, children),
            (None, None) => below.is_empty(),
        };
        if !is_typed {
            return false;
        }
    }
    true
}

fn compare(rt: &(impl Abort + AllocGlobal), row: &Row, dictionaries: &[(i64, Dictionary)]) {
    let (of, parts, expected) = row;
    let columns = loaded(rt, of, parts, dictionaries);
    is_text(rt, parts, &reported(rt, &columns), expected);
    let columns = loaded_typed(rt, row, dictionaries);
    is_text(rt, parts, &reported(rt, &columns), expected);
}

#[test]
fn one_body_by_three_calls(rt: HostRuntime) {
    let dictionaries = letters(&rt);
    for row in &ROWS {
        compare(&rt, row, &dictionaries);
    }
}

/// The faults with their numbers and texts.
static FAULT_WORDS: [(BodyFault, &str); 4] = [
    (Layout, "1 nodes and buffers that do not fit the body"),
    (Text, "2 a text that is not UTF-8"),
    (Index, "3 an index without a value"),
    (Memory, "4 out of memory"),
];

#[test]
fn faults_have_their_numbers(rt: HostRuntime) {
    for &(fault, expected) in &FAULT_WORDS {
        let words = format!(in rt.alloc(); "{} {fault}", fault.number()).expect(&rt, "memory");
        is_text(&rt, "fault", &words, expected);
    }
}
