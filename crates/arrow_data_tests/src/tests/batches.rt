//! Batches, and why columns make none; the body that columns share.

use super::making::plain;
use super::reported::is_text;
use arrow_data::BatchFault::{self, ColumnCount, ColumnLength, ColumnType, IndexRange, Memory};
use arrow_data::{Array, Batch};
use arrow_layout::SharedBody;
use arrow_test_fields::schema_of;
use arrow_types::Schema;
use bytes::Bytes;
use std::process::Abort;
use std::rc::Rc;

fn shared(rt: &(impl Abort + AllocGlobal), words: &str) -> Rc<Schema> {
    Rc::new(
        rt.alloc(),
        schema_of(rt.alloc(), words).expect(rt, "schema"),
    )
    .expect(rt, "memory")
}

fn columns(rt: &(impl Abort + AllocGlobal), texts: &[&str]) -> Vec<Array> {
    let mut columns = Vec::new(rt.alloc());
    for text in texts {
        columns.push(plain(rt, text)).expect(rt, "memory");
    }
    columns
}

const THREE: &str = "int32; 3; / i 0 0 0";

const NULL_INDEX: &str = "by:0:int8 utf8; 1; 0 / 0";

fn is_count(rt: &impl Abort, count: usize, expected: usize) {
    assert_eq!(rt; count, expected);
}

/// Asserts that a batch has this schema, three rows and `count` columns.
fn is_of(rt: &impl Abort, batch: &Batch, schema: &Schema, count: usize) {
    is_count(rt, batch.rows(), 3);
    assert!(rt; *batch.schema() == *schema);
    assert!(rt; **batch.shared_schema() == *schema);
    is_count(rt, batch.columns().len(), count);
    for k in 0..batch.columns().len() {
        is_count(rt, batch.column(k).len(), 3);
    }
}

#[test]
fn batches_have_their_columns(rt: HostRuntime) {
    for (words, texts) in [("int32", &[THREE] as &[&str]), ("", &[])] {
        let batch = Batch::new(shared(&rt, words), columns(&rt, texts), 3);
        is_of(
            &rt,
            &batch.expect(&rt, "a batch"),
            &schema_of(rt.alloc(), words).expect(&rt, "schema"),
            texts.len(),
        );
    }
}

#[test]
fn a_batch_of_columns_that_are_known_to_fit(rt: HostRuntime) {
    let none = Schema::new(rt.alloc(), Vec::new(rt.alloc())).expect(&rt, "no fields");
    let schema = Rc::new(rt.alloc(), none).expect(&rt, "memory");
    let batch = Batch::new_unchecked(schema, Vec::new(rt.alloc()), 3);
    is_of(
        &rt,
        &batch,
        &schema_of(rt.alloc(), "").expect(&rt, "schema"),
        0,
    );
}

/// The schema, the columns, the requested number of rows, and the fault.
type Fault = (
    &'static str,
    &'static [&'static str],
    usize,
    Option<BatchFault>,
);

static FAULTS: [Fault; 15] = [
    ("int32", &[THREE], 3, None),
    ("int32", &[THREE], 2, Some(ColumnLength)),
    ("int32", &[], 3, Some(ColumnCount)),
    ("int32", &[THREE, THREE], 2, Some(ColumnCount)),
    ("utf8", &[THREE], 2, Some(ColumnType)),
    ("by:0:int8 int32", &[THREE], 3, Some(ColumnType)),
    ("by:0:int8 utf8", &[NULL_INDEX], 1, None),
    ("by:1:int8 utf8", &[NULL_INDEX], 1, Some(ColumnType)),
    ("by:0:int16 utf8", &[NULL_INDEX], 1, Some(ColumnType)),
    ("by:0:int32 utf8", &[NULL_INDEX], 1, Some(ColumnType)),
    ("by:0:int64 utf8", &[NULL_INDEX], 1, Some(ColumnType)),
    ("by:0:uint8 utf8", &[NULL_INDEX], 1, Some(ColumnType)),
    ("by:0:int8:ordered utf8", &[NULL_INDEX], 1, Some(ColumnType)),
    ("utf8", &[NULL_INDEX], 1, Some(ColumnType)),
    ("by:0:int8 binary", &[NULL_INDEX], 1, Some(ColumnType)),
];

fn is_fault(rt: &impl Abort, row: usize, fault: Option<BatchFault>, expected: Option<BatchFault>) {
    assert_eq!(rt; fault, expected, "row {row}");
}

#[test]
fn the_least_fault_is_reported(rt: HostRuntime) {
    for (row, (words, texts, rows, expected)) in FAULTS.iter().enumerate() {
        let fault = Batch::new(shared(&rt, words), columns(&rt, texts), *rows).err();
        is_fault(&rt, row, fault, *expected);
    }
}

/// The faults with their numbers and words.
static FAULT_WORDS: [(BatchFault, &str); 5] = [
    (ColumnCount, "1 not one column for each field"),
    (ColumnType, "2 a column of another type than its field"),
    (
        ColumnLength,
        "3 a column with another number of slots than rows",
    ),
    (IndexRange, "4 an index without a value"),
    (Memory, "5 out of memory"),
];

#[test]
fn faults_have_their_numbers(rt: HostRuntime) {
    for &(fault, expected) in &FAULT_WORDS {
        let words = format!(in rt.alloc(); "{} {fault}", fault.number()).expect(&rt, "memory");
        is_text(&rt, "fault", &words, expected);
    }
}

#[test]
fn a_body_that_is_shared_has_its_bytes(rt: HostRuntime) {
    let bytes = Bytes::copy_from_slice(rt.alloc(), b"body").expect(&rt, "memory");
    let body = SharedBody::new(rt.alloc(), bytes).expect(&rt, "memory");
    let share = body.clone().expect(&rt, "memory");
    assert!(rt; body.as_slice() == b"body".as_slice());
    assert!(rt; share.as_slice() == b"body".as_slice());
}
