//! Names of columns, and rows of several of them.

use super::columns::{MEMORY, are_lines, column, field, schema_of};
use arrow_data::Batch;
use arrow_json::lines_of;
use arrow_layout::Value;
use arrow_types::{BitWidth, DataType};

const INT8: DataType = DataType::Int {
    bits: BitWidth::Eight,
    signed: true,
};

#[test]
fn columns_in_their_order(rt: HostRuntime) {
    let mut fields = Vec::new(rt.alloc());
    let mut columns = Vec::new(rt.alloc());
    for (name, number) in [("b", 1), ("a\n", 2), ("b", 3), ("", 4)] {
        let alone = vec![in rt.alloc(); field(&rt, name, INT8)].expect(&rt, MEMORY);
        let values = [Value::Int(number), Value::Null];
        let column = column(&rt, &schema_of(&rt, alone), &values);
        columns.push(column).expect(&rt, MEMORY);
        fields.push(field(&rt, name, INT8)).expect(&rt, MEMORY);
    }
    let expected = "{\"b\":1,\"a\\n\":2,\"b\":3,\"\":4}\n\
        {\"b\":null,\"a\\n\":null,\"b\":null,\"\":null}\n";
    are_lines(&rt, schema_of(&rt, fields), columns, expected);
}

#[test]
fn rows_without_columns(rt: HostRuntime) {
    let schema = schema_of(&rt, Vec::new(rt.alloc()));
    let batch = Batch::new(schema, Vec::new(rt.alloc()), 3).expect(&rt, "no columns");
    assert!(&rt; batch.rows() == 3);
    let found = lines_of(rt.alloc(), &batch, 0..3).expect(&rt, MEMORY);
    assert_eq!(&rt; found.as_slice(), b"{}\n{}\n{}\n".as_slice());
    let found = lines_of(rt.alloc(), &batch, 1..2).expect(&rt, MEMORY);
    assert_eq!(&rt; found.as_slice(), b"{}\n".as_slice());
    let found = lines_of(rt.alloc(), &batch, 3..3).expect(&rt, MEMORY);
    assert_eq!(&rt; found.as_slice(), b"".as_slice());
}
