//! Columns of structs and of lists in one batch, in all their rows: in few, and in so many that what
//! the rows of structs have in common is made before them.

use super::columns::{MEMORY, are_records, builder, field, finished, push, schema, schema_of};
use super::nested::{are_shown, lists};
use arrow_builder::ArrayBuilder;
use arrow_csv::{BatchRows, Layout};
use arrow_data::{Array, Batch, Dictionary};
use arrow_layout::Value;
use arrow_types::{BitWidth, DataType, Encoding, Field, IndexType, Schema};
use std::process::Abort;
use std::rc::Rc;

/// Numbers of 16 bits.
const NUMBER: DataType = DataType::Int {
    bits: BitWidth::Sixteen,
    signed: true,
};

/// How often a column of many rows has its values.
const MANY: usize = 16;

/// How a column refers to dictionary 3.
const BY_INDEX: Encoding = Encoding {
    id: 3,
    index: IndexType {
        bits: BitWidth::Eight,
        signed: true,
    },
    ordered: false,
};

/// A text as a value.
fn text(rt: &(impl Abort + AllocGlobal), text: &str) -> Value {
    Value::Text(String::from_str(rt.alloc(), text).expect(rt, MEMORY))
}

/// A list of two items.
fn two_items(rt: &(impl Abort + AllocGlobal), first: Value, second: Value) -> Value {
    Value::List(vec![in rt.alloc(); first, second].expect(rt, MEMORY))
}

/// A list of one item.
fn one_item(rt: &(impl Abort + AllocGlobal), item: Value) -> Value {
    Value::List(vec![in rt.alloc(); item].expect(rt, MEMORY))
}

/// A list without an item.
fn no_items(rt: &impl AllocGlobal) -> Value {
    Value::List(Vec::new(rt.alloc()))
}

/// A struct of the values of two fields.
fn pair(rt: &(impl Abort + AllocGlobal), first: Value, second: Value) -> Value {
    Value::Struct(vec![in rt.alloc(); first, second].expect(rt, MEMORY))
}

/// A struct of the values of three fields.
fn triple(rt: &(impl Abort + AllocGlobal), first: Value, second: Value, third: Value) -> Value {
    Value::Struct(vec![in rt.alloc(); first, second, third].expect(rt, MEMORY))
}

/// The type of structs of two fields.
fn pairs(rt: &(impl Abort + AllocGlobal), first: Field, second: Field) -> DataType {
    DataType::Struct(vec![in rt.alloc(); first, second].expect(rt, MEMORY))
}

/// The schema of one field.
fn schema_of_one(rt: &(impl Abort + AllocGlobal), field: Field) -> Rc<Schema> {
    schema_of(rt, vec![in rt.alloc(); field].expect(rt, MEMORY))
}

/// Puts values into a column.
fn push_all(rt: &impl Abort, column: &mut ArrayBuilder, values: &[Value]) {
    for value in values {
        push(rt, column, value);
    }
}

/// A builder of the schema's column that has these values, so many times.
fn filled(
    rt: &(impl Abort + AllocGlobal),
    schema: &Schema,
    values: &[Value],
    times: usize,
) -> ArrayBuilder {
    let mut column = builder(rt, schema);
    for _ in 0..times {
        push_all(rt, &mut column, values);
    }
    column
}

/// A column that has these values, so many times.
fn column(rt: &(impl Abort + AllocGlobal), of: DataType, values: &[Value], times: usize) -> Array {
    finished(rt, &filled(rt, &schema(rt, of), values, times))
}

/// Structs of a number, a text, and a struct of a number and a list of texts.
fn deep_structs(rt: &(impl Abort + AllocGlobal)) -> DataType {
    let (m, l) = (
        field(rt, "m", NUMBER),
        field(rt, "l", lists(rt, DataType::Utf8)),
    );
    let (n, t) = (field(rt, "n", NUMBER), field(rt, "t", DataType::Utf8));
    let deep = field(rt, "deep", pairs(rt, m, l));
    DataType::Struct(vec![in rt.alloc(); n, t, deep].expect(rt, MEMORY))
}

/// Four of them, so many times.
fn structs(rt: &(impl Abort + AllocGlobal), times: usize) -> Array {
    let words = two_items(rt, text(rt, "a"), text(rt, "b"));
    let inner = pair(rt, Value::Int(2), words);
    let empty = pair(rt, Value::Null, no_items(rt));
    let values = [
        triple(rt, Value::Int(1), text(rt, "x"), inner),
        Value::Null,
        triple(rt, Value::Null, text(rt, "say \"y\""), Value::Null),
        triple(rt, Value::Int(-7), text(rt, ""), empty),
    ];
    column(rt, deep_structs(rt), &values, times)
}

/// Lists of structs of a number and a truth value.
fn lists_of_structs(rt: &(impl Abort + AllocGlobal)) -> DataType {
    let (x, y) = (field(rt, "x", NUMBER), field(rt, "y z", DataType::Bool));
    lists(rt, pairs(rt, x, y))
}

/// Four of them, so many times.
fn items(rt: &(impl Abort + AllocGlobal), times: usize) -> Array {
    let first = pair(rt, Value::Int(1), Value::Bool(true));
    let last = pair(rt, Value::Null, Value::Bool(false));
    let three = vec![in rt.alloc(); first, Value::Null, last].expect(rt, MEMORY);
    let values = [
        Value::List(three),
        no_items(rt),
        Value::Null,
        one_item(rt, pair(rt, Value::Int(5), Value::Null)),
    ];
    column(rt, lists_of_structs(rt), &values, times)
}

/// How the last four rows are written, and from which of them on.
#[derive(Clone, Copy)]
struct Last<'a> {
    null: Option<&'a str>,
    start: usize,
}

/// Asserts that the last four rows, of a column of the structs and one of the lists, are these, if
/// the columns have their values once and many times.
fn are_beside(rt: &(impl Abort + AllocGlobal), last: Last<'_>, expected: &str) {
    for times in [1, MANY] {
        are_beside_each_time(rt, times, last, expected);
    }
}

/// The same, if the columns have their values so many times.
fn are_beside_each_time(
    rt: &(impl Abort + AllocGlobal),
    times: usize,
    last: Last<'_>,
    expected: &str,
) {
    let (s, l) = (
        field(rt, "s", deep_structs(rt)),
        field(rt, "l", lists_of_structs(rt)),
    );
    let schema = schema_of(rt, vec![in rt.alloc(); s, l].expect(rt, MEMORY));
    let structs = structs(rt, times);
    let rows = structs.len();
    let columns = vec![in rt.alloc(); structs, items(rt, times)].expect(rt, MEMORY);
    let batch = Batch::new(schema, columns, rows).expect(rt, "two columns as asked");
    are_last(rt, &batch, 4 - last.start.min(4), last.null, expected);
}

/// Asserts that so many last rows of a batch are these if a null has this text.
fn are_last(
    rt: &(impl Abort + AllocGlobal),
    batch: &Batch,
    count: usize,
    null: Option<&str>,
    expected: &str,
) {
    assert!(rt; count <= batch.rows());
    let layout = Layout {
        columns: None,
        null,
        numbers: true,
    };
    let rows = BatchRows::of(rt.alloc(), 7, batch, layout).expect(rt, MEMORY);
    let mut out = Vec::new(rt.alloc());
    let pushed = rows.push(&mut out, batch.rows() - count..batch.rows());
    pushed.expect(rt, MEMORY);
    are_records(rt, &out, expected);
}

/// Asserts that so many last rows of a column are these.
fn are_last_of(
    rt: &(impl Abort + AllocGlobal),
    schema: Rc<Schema>,
    array: Array,
    count: usize,
    expected: &str,
) {
    let rows = array.len();
    let columns = vec![in rt.alloc(); array].expect(rt, MEMORY);
    let batch = Batch::new(schema, columns, rows).expect(rt, "one column as asked");
    are_last(rt, &batch, count, None, expected);
}

/// Asserts that values have these records, also after many others.
fn are_shown_after_many(
    rt: &(impl Abort + AllocGlobal),
    of: DataType,
    values: &[Value],
    expected: &str,
) {
    let schema = schema(rt, of);
    let array = finished(rt, &filled(rt, &schema, values, MANY));
    are_last_of(rt, schema, array, values.len(), expected);
}

#[test]
fn structs_beside_lists(rt: HostRuntime) {
    let expected = "7,{n=1;t=x;deep={m=2;l=[a;b]}},[{x=1;y z=true};null;{x=null;y z=false}]\n\
                    7,,[]\n\
                    7,\"{n=null;t=say \"\"y\"\";deep=null}\",\n\
                    7,{n=-7;t=;deep={m=null;l=[]}},[{x=5;y z=null}]\n";
    are_beside(
        &rt,
        Last {
            null: None,
            start: 0,
        },
        expected,
    );
    let later = "7,\"{n=null;t=say \"\"y\"\";deep=null}\",\"a,b\"\n\
                 7,{n=-7;t=;deep={m=null;l=[]}},[{x=5;y z=null}]\n";
    are_beside(
        &rt,
        Last {
            null: Some("a,b"),
            start: 2,
        },
        later,
    );
    let marked = "7,-,[]\n\
                  7,\"{n=null;t=say \"\"y\"\";deep=null}\",-\n\
                  7,{n=-7;t=;deep={m=null;l=[]}},[{x=5;y z=null}]\n";
    are_beside(
        &rt,
        Last {
            null: Some("-"),
            start: 1,
        },
        marked,
    );
}

#[test]
fn structs_without_fields(rt: HostRuntime) {
    let values = [
        Value::Struct(Vec::new(rt.alloc())),
        Value::Null,
        Value::Struct(Vec::new(rt.alloc())),
    ];
    let of = DataType::Struct(Vec::new(rt.alloc()));
    are_shown(&rt, of, &values, "7,{}\n7,\n7,{}\n");
    let of = DataType::Struct(Vec::new(rt.alloc()));
    are_shown_after_many(&rt, of, &values, "7,{}\n7,\n7,{}\n");
}

/// Structs of fields whose names need quotes.
fn named_pairs(rt: &(impl Abort + AllocGlobal)) -> DataType {
    pairs(rt, field(rt, "a,b", NUMBER), field(rt, "c\"d", NUMBER))
}

#[test]
fn names_that_need_quotes(rt: HostRuntime) {
    let values = [
        pair(&rt, Value::Int(1), Value::Int(2)),
        pair(&rt, Value::Null, Value::Int(-3)),
    ];
    let expected = "7,\"{a,b=1;c\"\"d=2}\"\n7,\"{a,b=null;c\"\"d=-3}\"\n";
    are_shown(&rt, named_pairs(&rt), &values, expected);
    are_shown_after_many(&rt, named_pairs(&rt), &values, expected);
}

#[test]
fn items_that_need_quotes(rt: HostRuntime) {
    let values = [
        two_items(&rt, text(&rt, "a,b"), text(&rt, "c")),
        two_items(&rt, text(&rt, "d"), text(&rt, "e;f")),
        one_item(&rt, text(&rt, "\"")),
    ];
    let expected = "7,\"[a,b;c]\"\n7,[d;e;f]\n7,\"[\"\"]\"\n";
    are_shown(&rt, lists(&rt, DataType::Utf8), &values, expected);
}

#[test]
fn lists_of_a_fixed_size(rt: HostRuntime) {
    let item = Box::new(rt.alloc(), field(&rt, "item", NUMBER)).expect(&rt, MEMORY);
    let values = [
        two_items(&rt, Value::Int(1), Value::Null),
        Value::Null,
        two_items(&rt, Value::Int(3), Value::Int(-4)),
    ];
    let expected = "7,[1;null]\n7,\n7,[3;-4]\n";
    are_shown(&rt, DataType::FixedSizeList(item, 2), &values, expected);
}

/// The dictionary of these values.
fn dictionary(rt: &(impl Abort + AllocGlobal), of: DataType, values: &[Value]) -> Dictionary {
    let values = column(rt, of, values, 1);
    assert!(rt; values.encoding().is_none() && !values.data_type().has_encoding_below());
    Dictionary::from_array(rt.alloc(), values).expect(rt, MEMORY)
}

/// Asserts that a column of this field has these last records, if it has these values once and many
/// times, and refers to the dictionary.
fn are_shown_by(
    rt: &(impl Abort + AllocGlobal),
    field: Field,
    (values, dictionary): (&[Value], Dictionary),
    expected: &str,
) {
    let schema = schema_of_one(rt, field);
    let listed = vec![in rt.alloc(); (3, dictionary)].expect(rt, MEMORY);
    for times in [1, MANY] {
        let column = filled(rt, &schema, values, times);
        let array = column
            .finish(rt.alloc(), &listed)
            .expect(rt, "indices of the dictionary");
        let shared = schema.clone().expect(rt, MEMORY);
        are_last_of(rt, shared, array, values.len(), expected);
    }
}

/// Structs of two numbers.
fn number_pairs(rt: &(impl Abort + AllocGlobal)) -> DataType {
    pairs(rt, field(rt, "n", NUMBER), field(rt, "m", NUMBER))
}

/// The dictionary of two structs.
fn two_structs(rt: &(impl Abort + AllocGlobal)) -> Dictionary {
    let values = [
        pair(rt, Value::Int(1), Value::Null),
        pair(rt, Value::Int(2), Value::Int(3)),
    ];
    dictionary(rt, number_pairs(rt), &values)
}

/// Few structs compared with the rows, and many.
#[test]
fn structs_by_their_indices(rt: HostRuntime) {
    let few = [Value::Int(1), Value::Null, Value::Int(0), Value::Int(1)];
    let encoded = field(&rt, "s", number_pairs(&rt)).with_dictionary(BY_INDEX);
    let expected = "7,{n=2;m=3}\n7,\n7,{n=1;m=null}\n7,{n=2;m=3}\n";
    are_shown_by(&rt, encoded, (&few, two_structs(&rt)), expected);
    let many = [Value::Int(1), Value::Null, Value::Int(0)];
    let encoded = field(&rt, "s", number_pairs(&rt)).with_dictionary(BY_INDEX);
    let expected = "7,{n=2;m=3}\n7,\n7,{n=1;m=null}\n";
    are_shown_by(&rt, encoded, (&many, two_structs(&rt)), expected);
}

/// The dictionary of two lists.
fn two_lists(rt: &(impl Abort + AllocGlobal)) -> Dictionary {
    let values = [no_items(rt), two_items(rt, Value::Int(1), Value::Null)];
    dictionary(rt, lists(rt, NUMBER), &values)
}

/// Few lists compared with the rows, and many.
#[test]
fn lists_by_their_indices(rt: HostRuntime) {
    let few = [Value::Int(1), Value::Null, Value::Int(0), Value::Int(1)];
    let encoded = field(&rt, "l", lists(&rt, NUMBER)).with_dictionary(BY_INDEX);
    let expected = "7,[1;null]\n7,\n7,[]\n7,[1;null]\n";
    are_shown_by(&rt, encoded, (&few, two_lists(&rt)), expected);
    let many = [Value::Int(1), Value::Null, Value::Int(0)];
    let encoded = field(&rt, "l", lists(&rt, NUMBER)).with_dictionary(BY_INDEX);
    let expected = "7,[1;null]\n7,\n7,[]\n";
    are_shown_by(&rt, encoded, (&many, two_lists(&rt)), expected);
}

/// The dictionary of a text and a null.
fn one_text(rt: &(impl Abort + AllocGlobal)) -> Dictionary {
    dictionary(rt, DataType::Utf8, &[text(rt, "word"), Value::Null])
}

#[test]
fn structs_of_indices(rt: HostRuntime) {
    let encoded = field(&rt, "k", DataType::Utf8).with_dictionary(BY_INDEX);
    let of = pairs(&rt, field(&rt, "n", NUMBER), encoded);
    let values = [
        pair(&rt, Value::Int(1), Value::Int(0)),
        Value::Null,
        pair(&rt, Value::Int(2), Value::Int(1)),
        pair(&rt, Value::Int(3), Value::Null),
    ];
    let expected = "7,{n=1;k=word}\n7,\n7,{n=2;k=null}\n7,{n=3;k=null}\n";
    are_shown_by(&rt, field(&rt, "s", of), (&values, one_text(&rt)), expected);
}

#[test]
fn lists_of_indices(rt: HostRuntime) {
    let encoded = field(&rt, "item", DataType::Utf8).with_dictionary(BY_INDEX);
    let of = DataType::List(Box::new(rt.alloc(), encoded).expect(&rt, MEMORY));
    let values = [
        two_items(&rt, Value::Int(1), Value::Int(0)),
        Value::Null,
        two_items(&rt, Value::Int(0), Value::Null),
    ];
    let expected = "7,[null;word]\n7,\n7,[word;null]\n";
    are_shown_by(&rt, field(&rt, "l", of), (&values, one_text(&rt)), expected);
}
