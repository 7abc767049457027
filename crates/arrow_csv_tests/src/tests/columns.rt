//! Columns that are built value by value, and their records.

use arrow_builder::ArrayBuilder;
use arrow_csv::rows;
use arrow_data::{Array, Batch};
use arrow_layout::Value;
use arrow_types::{DataType, Field, Schema};
use std::process::Abort;
use std::rc::Rc;

pub(super) const MEMORY: &str = "memory";

/// A nullable field of this name.
pub(super) fn field(rt: &(impl Abort + AllocGlobal), name: &str, data_type: DataType) -> Field {
    let name = String::from_str(rt.alloc(), name).expect(rt, MEMORY);
    Field::new(rt.alloc(), name, data_type, true)
}

/// The schema of one nullable column without a name.
pub(super) fn schema(rt: &(impl Abort + AllocGlobal), data_type: DataType) -> Rc<Schema> {
    let fields = vec![in rt.alloc(); field(rt, "", data_type)].expect(rt, MEMORY);
    schema_of(rt, fields)
}

/// The schema of these fields.
pub(super) fn schema_of(rt: &(impl Abort + AllocGlobal), fields: Vec<Field>) -> Rc<Schema> {
    let schema = Schema::new(rt.alloc(), fields).expect(rt, "the fields of a schema");
    Rc::new(rt.alloc(), schema).expect(rt, MEMORY)
}

/// A builder of its first column.
pub(super) fn builder(rt: &(impl Abort + AllocGlobal), schema: &Schema) -> ArrayBuilder {
    let field = schema.fields().first().expect(rt, "a column");
    ArrayBuilder::new(rt.alloc(), field).expect(rt, MEMORY)
}

/// Asserts that these bytes are these records.
pub(super) fn are_records(rt: &impl Abort, found: &[u8], expected: &str) {
    assert_eq!(rt; found, expected.as_bytes());
}

/// Puts a value into a column.
pub(super) fn push(rt: &impl Abort, column: &mut ArrayBuilder, value: &Value) {
    column.push(value).expect(rt, "a value of the column");
}

/// The array of a column that refers to no dictionary.
pub(super) fn finished(rt: &(impl Abort + AllocGlobal), column: &ArrayBuilder) -> Array {
    let array = column.finish(rt.alloc(), &[]);
    array.expect(rt, "no dictionary is asked for")
}

/// The records of such a column, as batch number 7.
pub(super) fn records(
    rt: &(impl Abort + AllocGlobal),
    schema: Rc<Schema>,
    column: &ArrayBuilder,
) -> Vec<u8> {
    records_of(rt, schema, finished(rt, column))
}

/// The records of an array, as batch number 7.
pub(super) fn records_of(
    rt: &(impl Abort + AllocGlobal),
    schema: Rc<Schema>,
    array: Array,
) -> Vec<u8> {
    let len = array.len();
    let columns = vec![in rt.alloc(); array].expect(rt, MEMORY);
    let batch = Batch::new(schema, columns, len).expect(rt, "one column as asked");
    rows(rt.alloc(), 7, &batch, 0..batch.rows()).expect(rt, MEMORY)
}
