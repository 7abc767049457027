//! Columns that are built value by value, and their lines.

use arrow_builder::ArrayBuilder;
use arrow_data::{Array, Batch};
use arrow_json::lines_of;
use arrow_layout::Value;
use arrow_types::{DataType, Field, Schema};
use std::process::Abort;
use std::rc::Rc;

pub(super) const MEMORY: &str = "memory";

/// A nullable field of this name.
pub(super) fn field(rt: &(impl Abort + AllocGlobal), name: &str, data_type: DataType) -> Field {
    let name = String::from_str(rt.alloc(), name).expect(rt, MEMORY);
    Field::new(rt.alloc(), name, data_type, true)
}

/// The schema of these fields.
pub(super) fn schema_of(rt: &(impl Abort + AllocGlobal), fields: Vec<Field>) -> Rc<Schema> {
    let schema = Schema::new(rt.alloc(), fields).expect(rt, "the fields of a schema");
    Rc::new(rt.alloc(), schema).expect(rt, MEMORY)
}

/// The first column of a schema, with these values.
pub(super) fn column(rt: &(impl Abort + AllocGlobal), schema: &Schema, values: &[Value]) -> Array {
    let field = schema.fields().first().expect(rt, "a column");
    let mut column = ArrayBuilder::new(rt.alloc(), field).expect(rt, MEMORY);
    for value in values {
        column.push(value).expect(rt, "a value of the column");
    }
    column
        .finish(rt.alloc(), &[])
        .expect(rt, "no dictionary is asked for")
}

/// That the lines of a batch of these columns are this text.
pub(super) fn are_lines(
    rt: &(impl Abort + AllocGlobal),
    schema: Rc<Schema>,
    columns: Vec<Array>,
    expected: &str,
) {
    let rows = columns.first().expect(rt, "a column").len();
    let batch = Batch::new(schema, columns, rows).expect(rt, "columns of the schema");
    let found = lines_of(rt.alloc(), &batch, 0..batch.rows()).expect(rt, MEMORY);
    assert_eq!(rt;
        str::from_utf8(&found).expect(rt, "the lines are UTF-8"),
        expected
    );
}

/// That a column of this type with these values, which is named `x`, has these lines.
pub(super) fn are_shown(
    rt: &(impl Abort + AllocGlobal),
    data_type: DataType,
    values: &[Value],
    expected: &str,
) {
    let fields = vec![in rt.alloc(); field(rt, "x", data_type)].expect(rt, MEMORY);
    let schema = schema_of(rt, fields);
    let columns = vec![in rt.alloc(); column(rt, &schema, values)].expect(rt, MEMORY);
    are_lines(rt, schema, columns, expected);
}

/// A text as a value.
pub(super) fn text(rt: &(impl Abort + AllocGlobal), text: &str) -> Value {
    Value::Text(String::from_str(rt.alloc(), text).expect(rt, MEMORY))
}

/// Bytes as a value.
pub(super) fn bytes(rt: &(impl Abort + AllocGlobal), bytes: &[u8]) -> Value {
    Value::Bytes(Vec::from_slice(rt.alloc(), bytes).expect(rt, MEMORY))
}
