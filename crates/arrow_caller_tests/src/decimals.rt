//! A column of decimals of each width: built, written, read and shown. The numbers are 1.25, null
//! and -0.50, and for 256 bits 2^255 - 1, null and -2^255.

use arrowflow::array::{Decimal, decimals};
use arrowflow::types::{DataType, DecimalWidth, Limits, TypeSet};
use arrowflow::{
    Align, Array, ArrayBuilder, Batch, Counted, Field, Item, Kind, Options, Schema, StreamReader,
    StreamWriter, Updates, Value, copy, schema_text, show,
};
use std::process::Abort;
use std::rc::Rc;

const MEMORY: &str = "memory";

const NARROW: Options = Options {
    updates: Updates::Delta,
    align: Align::Eight,
};

const WIDEST: DecimalWidth = DecimalWidth::TwoHundredFiftySix;

/// The columns: a name, a width, a precision and a scale.
static COLUMNS: [(&str, DecimalWidth, u8, i8); 4] = [
    ("a", DecimalWidth::ThirtyTwo, 9, 2),
    ("b", DecimalWidth::SixtyFour, 18, 2),
    ("c", DecimalWidth::OneHundredTwentyEight, 38, 2),
    ("d", WIDEST, 76, -76),
];

/// The greatest and the least whole number of 256 bits.
const GREATEST: Decimal = Decimal {
    high: i128::MAX,
    low: u128::MAX,
    scale: -76,
};

const LEAST: Decimal = Decimal {
    high: i128::MIN,
    low: 0,
    scale: -76,
};

/// The limits of a caller that accepts all types.
fn limits() -> Limits {
    Limits::standard().with_types(TypeSet::All)
}

/// The field of a column.
fn field(rt: &(impl Abort + AllocGlobal), column: &(&str, DecimalWidth, u8, i8)) -> Field {
    let (name, width, precision, scale) = column;
    let name = String::from_str(rt.alloc(), name).expect(rt, MEMORY);
    let data_type = DataType::Decimal {
        width: *width,
        precision: *precision,
        scale: *scale,
    };
    Field::new(rt.alloc(), name, data_type, true)
}

fn schema(rt: &(impl Abort + AllocGlobal)) -> Schema {
    let mut fields = Vec::new(rt.alloc());
    for column in &COLUMNS {
        fields.push(field(rt, column)).expect(rt, MEMORY);
    }
    Schema::new(rt.alloc(), fields).expect(rt, "four columns")
}

/// The values of a column of this width.
fn values(rt: &(impl Abort + AllocGlobal), is_wide: bool) -> [Value; 3] {
    if is_wide {
        let greatest = Value::wide_decimal(rt.alloc(), GREATEST).expect(rt, MEMORY);
        let least = Value::wide_decimal(rt.alloc(), LEAST).expect(rt, MEMORY);
        [greatest, Value::Null, least]
    } else {
        [Value::Int(125), Value::Null, Value::Int(-50)]
    }
}

/// The values as the one column of a schema.
fn values_in(rt: &(impl Abort + AllocGlobal), schema: &Schema, is_wide: bool) -> Array {
    let field = schema.fields().first().expect(rt, "a column");
    assert!(rt; !field.data_type.has_encoding_below());
    let mut builder = ArrayBuilder::new(rt.alloc(), field).expect(rt, MEMORY);
    for value in &values(rt, is_wide) {
        builder.push(value).expect(rt, "a decimal of its width");
    }
    builder.finish(rt.alloc(), &[]).expect(rt, MEMORY)
}

fn column(rt: &(impl Abort + AllocGlobal), column: &(&str, DecimalWidth, u8, i8)) -> Array {
    let fields = vec![in rt.alloc(); field(rt, column)].expect(rt, MEMORY);
    let schema = Schema::new(rt.alloc(), fields).expect(rt, "one column");
    values_in(rt, &schema, column.1 == WIDEST)
}

fn batch(rt: &(impl Abort + AllocGlobal)) -> Batch {
    let mut columns = Vec::new(rt.alloc());
    for row in &COLUMNS {
        columns.push(column(rt, row)).expect(rt, MEMORY);
    }
    let schema = Rc::new(rt.alloc(), schema(rt)).expect(rt, MEMORY);
    Batch::new(schema, columns, 3).expect(rt, "columns of the schema")
}

/// The stream of the batch.
fn stream(rt: &(impl Abort + AllocGlobal)) -> Vec<u8> {
    let batch = batch(rt);
    let sink = Counted::new(Vec::new(rt.alloc()));
    let started = StreamWriter::start(rt.alloc(), sink, batch.schema(), NARROW, limits());
    let mut writer = started.map_err(|(fault, _)| fault).expect(rt, "a schema");
    writer.write(&batch).expect(rt, "a batch of its schema");
    writer.finish().expect(rt, "an end marker");
    writer.into_sink().into_inner()
}

/// The batch of a stream, after its schema.
fn read(rt: &(impl Abort + AllocGlobal), bytes: &[u8]) -> Batch {
    let mut reader = StreamReader::new(rt.alloc(), limits());
    let (taken, item) = reader.read(bytes).expect(rt, "a schema");
    assert!(rt; taken <= bytes.len() && matches!(item, Some(Item::Schema)));
    let (_, item) = reader.read(&bytes[taken..]).expect(rt, "a batch");
    match item {
        Some(Item::Batch(batch)) => batch,
        _ => rt.abort(),
    }
}

/// Asserts that a column has these decimals around a null.
fn has_decimals(rt: &impl Abort, column: &Array, first: Decimal, last: Decimal) {
    for (row, expected) in [Some(first), None, Some(last)].into_iter().enumerate() {
        assert!(rt; row < column.len());
        assert_eq!(rt; column.decimal_at(row), expected, "row {row}");
    }
}

#[test]
fn decimals_are_read(rt: HostRuntime) {
    let batch = read(&rt, &stream(&rt));
    assert!(rt; batch.rows() == 3 && batch.columns().len() == 4);
    let (first, last) = (decimals::of_number(2, 125), decimals::of_number(2, -50));
    assert!(rt; first.unscaled() == Some(125) && last.unscaled() == Some(-50));
    assert!(rt; GREATEST.unscaled().is_none() && LEAST.unscaled().is_none());
    let columns = batch.columns();
    for column in &columns[..3] {
        has_decimals(&rt, column, first, last);
    }
    has_decimals(&rt, &columns[3], GREATEST, LEAST);
}

#[test]
fn decimals_are_reported(rt: HostRuntime) {
    let bytes = stream(&rt);
    let text = schema_text(rt.alloc(), &mut bytes.as_slice(), &limits()).expect(&rt, "a schema");
    let lines = "a: decimal32(9, 2)\nb: decimal64(18, 2)\nc: decimal128(38, 2)\n\
        d: decimal256(76, -76)\n";
    assert_eq!(rt; text.as_str(), lines);

    let output = Counted::new(Vec::new(rt.alloc()));
    let (output, answer) = show(rt.alloc(), &mut bytes.as_slice(), output, &limits());
    assert!(rt; answer.is_ok());
    let rows = b"batch,a,b,c,d\n0,1.25,1.25,1.25,\
        57896044618658097711785492504343953926634992332820282019728792003956564819967e76\n\
        0,,,,\n0,-0.50,-0.50,-0.50,\
        -57896044618658097711785492504343953926634992332820282019728792003956564819968e76\n";
    assert_eq!(rt; output.into_inner().as_slice(), rows.as_slice());

    let output = Counted::new(Vec::new(rt.alloc()));
    let (output, answer) = copy(rt.alloc(), &mut bytes.as_slice(), output, NARROW, &limits());
    assert!(rt; answer.is_ok());
    assert_eq!(rt; output.into_inner().as_slice(), bytes.as_slice());
}

/// A caller that accepts only the core types rejects the schema.
#[test]
fn the_core_has_no_decimals(rt: HostRuntime) {
    let bytes = stream(&rt);
    let mut reader = StreamReader::new(rt.alloc(), Limits::standard());
    match reader.read(&bytes) {
        Err(fault) => assert!(rt; fault.kind == Kind::Unsupported && fault.place == 0),
        Ok(_) => rt.abort(),
    }
    let started = StreamWriter::start(
        rt.alloc(),
        Counted::new(Vec::new(rt.alloc())),
        batch(&rt).schema(),
        NARROW,
        Limits::standard(),
    );
    match started {
        Err((_, sink)) => assert!(rt; sink.into_inner().is_empty()),
        Ok(_) => rt.abort(),
    }
}
