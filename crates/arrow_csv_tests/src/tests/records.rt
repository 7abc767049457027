//! The header and the rows of batches of numbers.

use super::columns::{MEMORY, are_records, builder, field, finished, push, schema_of};
use arrow_csv::{BatchRows, Layout, header, header_of, lacking, rows};
use arrow_data::{Array, Batch};
use arrow_layout::Value;
use arrow_types::{BitWidth, DataType, Schema};
use std::process::Abort;
use std::rc::Rc;

/// Signed numbers of 8 bits.
const INT8: DataType = DataType::Int {
    bits: BitWidth::Eight,
    signed: true,
};

/// Three numbers, None for a null.
type Numbers = [Option<i128>; 3];

/// The schema of columns of numbers with these names.
fn schema(rt: &(impl Abort + AllocGlobal), names: &[&str]) -> Rc<Schema> {
    let mut fields = Vec::new(rt.alloc());
    for name in names {
        fields.push(field(rt, name, INT8)).expect(rt, MEMORY);
    }
    schema_of(rt, fields)
}

/// A column of this name.
fn column(rt: &(impl Abort + AllocGlobal), name: &str, numbers: &Numbers) -> Array {
    let mut column = builder(rt, &schema(rt, &[name]));
    for number in numbers {
        push(rt, &mut column, &number.map_or(Value::Null, Value::Int));
    }
    finished(rt, &column)
}

/// A batch of three rows of columns with these names.
fn batch(rt: &(impl Abort + AllocGlobal), names: &[&str], columns: &[Numbers]) -> Batch {
    let mut arrays = Vec::new(rt.alloc());
    for (name, numbers) in names.iter().zip(columns) {
        arrays.push(column(rt, name, numbers)).expect(rt, MEMORY);
    }
    Batch::new(schema(rt, names), arrays, 3).expect(rt, "there is no fault")
}

/// Asserts that the records of the rows from `start` up to `end`, of a batch with number 7, are
/// these, by themselves and after a text.
fn are_rows(
    rt: &(impl Abort + AllocGlobal),
    batch: &Batch,
    (start, end): (usize, usize),
    expected: &str,
) {
    assert!(rt; start <= end && end <= batch.rows());
    let found = rows(rt.alloc(), 7, batch, start..end).expect(rt, MEMORY);
    are_records(rt, &found, expected);
    let mut out = Vec::from_slice(rt.alloc(), b"batch,\"\n").expect(rt, MEMORY);
    let mut rows = BatchRows::new(rt.alloc(), 7, batch).expect(rt, MEMORY);
    let pushed = rows.push(&mut out, start..end);
    pushed.expect(rt, MEMORY);
    let beyond = out.strip_prefix(b"batch,\"\n");
    are_records(rt, beyond.expect(rt, "what stood before"), expected);
}

/// Asserts that the header of columns with these names is this.
fn is_header(rt: &(impl Abort + AllocGlobal), names: &[&str], expected: &str) {
    let header = header(rt.alloc(), &schema(rt, names)).expect(rt, MEMORY);
    are_records(rt, &header, expected);
}

#[test]
fn names_are_in_the_header(rt: HostRuntime) {
    is_header(&rt, &[], "batch\n");
    let names = ["n", "a,b", "say \"x\"", "", "two\nlines", "c\rd", "é;"];
    let expected = "batch,n,\"a,b\",\"say \"\"x\"\"\",,\"two\nlines\",\"c\rd\",é;\n";
    is_header(&rt, &names, expected);
}

#[test]
fn rows_without_columns(rt: HostRuntime) {
    let batch = batch(&rt, &[], &[]);
    are_rows(&rt, &batch, (0, 3), "7\n7\n7\n");
    are_rows(&rt, &batch, (1, 2), "7\n");
    are_rows(&rt, &batch, (3, 3), "");
}

#[test]
fn rows_of_two_columns(rt: HostRuntime) {
    let columns = [[Some(1), None, Some(3)], [None, Some(-128), Some(127)]];
    let batch = batch(&rt, &["n", "m"], &columns);
    are_rows(&rt, &batch, (0, 3), "7,1,\n7,,-128\n7,3,127\n");
    are_rows(&rt, &batch, (1, 3), "7,,-128\n7,3,127\n");
    are_rows(&rt, &batch, (1, 2), "7,,-128\n");
}

/// Asserts that in a layout the header is the first of these texts, and all rows are the second, by
/// themselves and after a text.
fn are_shown(
    rt: &(impl Abort + AllocGlobal),
    batch: &Batch,
    layout: Layout<'_>,
    (names, expected): (&str, &str),
) {
    let header = header_of(rt.alloc(), batch.schema(), layout).expect(rt, MEMORY);
    are_records(rt, &header, names);
    let mut out = Vec::new(rt.alloc());
    let rows = BatchRows::of(rt.alloc(), 7, batch, layout).expect(rt, MEMORY);
    let pushed = rows.push(&mut out, 0..batch.rows());
    pushed.expect(rt, MEMORY);
    are_records(rt, &out, expected);
    let mut more = Vec::from_slice(rt.alloc(), b"x").expect(rt, MEMORY);
    let pushed = rows.push(&mut more, 0..batch.rows());
    pushed.expect(rt, MEMORY);
    let after = more.strip_prefix(b"x");
    are_records(rt, after.expect(rt, "what was there"), expected);
}

/// The usual layout with these columns, or all.
fn of_columns<'a>(columns: Option<&'a [&'a str]>) -> Layout<'a> {
    Layout {
        columns,
        null: None,
        numbers: true,
    }
}

/// A layout without numbers.
fn bare<'a>(columns: Option<&'a [&'a str]>, null: Option<&'a str>) -> Layout<'a> {
    Layout {
        columns,
        null,
        numbers: false,
    }
}

/// Asserts that with this text of a null the rows of columns n and m are these.
fn are_with_null(
    rt: &(impl Abort + AllocGlobal),
    batch: &Batch,
    null: Option<&str>,
    expected: &str,
) {
    let layout = Layout {
        columns: None,
        null,
        numbers: true,
    };
    are_shown(rt, batch, layout, ("batch,n,m\n", expected));
}

#[test]
fn columns_by_their_names(rt: HostRuntime) {
    let columns = [
        [Some(1), None, Some(3)],
        [None, Some(5), Some(6)],
        [Some(7), Some(8), Some(9)],
    ];
    let batch = batch(&rt, &["n", "m", "n"], &columns);
    let whole = ("batch,n,m,n\n", "7,1,,7\n7,,5,8\n7,3,6,9\n");
    are_shown(&rt, &batch, of_columns(None), whole);
    let turned = ("batch,m,n\n", "7,,1\n7,5,\n7,6,3\n");
    are_shown(&rt, &batch, of_columns(Some(&["m", "n"])), turned);
    let twice = ("batch,n,n\n", "7,1,1\n7,,\n7,3,3\n");
    are_shown(&rt, &batch, of_columns(Some(&["n", "N", "n"])), twice);
    are_shown(&rt, &batch, of_columns(Some(&[])), ("batch\n", "7\n7\n7\n"));
    assert_eq!(&rt; lacking(batch.schema(), &["n", "m", "n"]), None);
    assert_eq!(&rt; lacking(batch.schema(), &["m", "", "N"]), Some(1));
}

#[test]
fn the_text_of_a_null(rt: HostRuntime) {
    let columns = [[Some(1), None, Some(3)], [None, None, Some(6)]];
    let batch = batch(&rt, &["n", "m"], &columns);
    assert!(&rt; Layout::usual().null.is_none() && Layout::usual().numbers);
    are_with_null(&rt, &batch, None, "7,1,\n7,,\n7,3,6\n");
    are_with_null(&rt, &batch, Some(""), "7,1,\n7,,\n7,3,6\n");
    are_with_null(&rt, &batch, Some("NULL"), "7,1,NULL\n7,NULL,NULL\n7,3,6\n");
    let quoted = "7,1,\"a,b\"\n7,\"a,b\",\"a,b\"\n7,3,6\n";
    are_with_null(&rt, &batch, Some("a,b"), quoted);
}

#[test]
fn rows_without_numbers(rt: HostRuntime) {
    let columns = [[Some(1), None, Some(3)], [None, None, Some(6)]];
    let batch = batch(&rt, &["n", "m"], &columns);
    are_shown(&rt, &batch, bare(None, None), ("n,m\n", "1,\n,\n3,6\n"));
    let one = ("m\n", "\"\"\n\"\"\n6\n");
    are_shown(&rt, &batch, bare(Some(&["m"]), None), one);
    let marked = ("m,n\n", "-,1\n-,-\n6,3\n");
    are_shown(&rt, &batch, bare(Some(&["m", "n"]), Some("-")), marked);
    let none = ("\"\"\n", "\"\"\n\"\"\n\"\"\n");
    are_shown(&rt, &batch, bare(Some(&[]), None), none);
}
