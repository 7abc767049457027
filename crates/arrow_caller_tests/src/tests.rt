//! One table in all its uses: the numbers 1, null and 3, whose stream with an alignment of 8 has
//! 152 bytes of schema, 176 of batch and 8 of end marker.

use arrowflow::session::{Connection, Ending, Report, run};
use arrowflow::{
    Align, Array, ArrayBuilder, Batch, BitWidth, Counted, DataType, Fault, Field, Item, Kind,
    Limits, Options, Schema, StreamReader, StreamWriter, Updates, Value, check, copy, drill,
    schema_text, show,
};
use std::process::Abort;
use std::rc::Rc;

const MEMORY: &str = "memory";

const NARROW: Options = Options {
    updates: Updates::Delta,
    align: Align::Eight,
};

/// The schema of one nullable column `n` of numbers of 32 bits.
fn schema(rt: &(impl Abort + AllocGlobal)) -> Schema {
    let data_type = DataType::Int {
        bits: BitWidth::ThirtyTwo,
        signed: true,
    };
    let name = String::from_str(rt.alloc(), "n").expect(rt, MEMORY);
    let field = Field::new(rt.alloc(), name, data_type, true);
    let fields = vec![in rt.alloc(); field].expect(rt, MEMORY);
    Schema::new(rt.alloc(), fields).expect(rt, "one column")
}

/// The numbers as a column.
fn column(rt: &(impl Abort + AllocGlobal), schema: &Schema) -> Array {
    let field = schema.fields().first().expect(rt, "a column");
    assert!(rt; !field.data_type.has_encoding_below());
    let mut builder = ArrayBuilder::new(rt.alloc(), field).expect(rt, MEMORY);
    for value in [Value::Int(1), Value::Null, Value::Int(3)] {
        builder.push(&value).expect(rt, "a number of 32 bits");
    }
    builder.finish(rt.alloc(), &[]).expect(rt, MEMORY)
}

/// The numbers as a batch.
fn batch(rt: &(impl Abort + AllocGlobal)) -> Batch {
    let schema = schema(rt);
    let columns = vec![in rt.alloc(); column(rt, &schema)].expect(rt, MEMORY);
    let schema = Rc::new(rt.alloc(), schema).expect(rt, MEMORY);
    Batch::new(schema, columns, 3).expect(rt, "a column of the schema")
}

/// The stream of the batch.
fn stream(rt: &(impl Abort + AllocGlobal)) -> Vec<u8> {
    let batch = batch(rt);
    let sink = Counted::new(Vec::new(rt.alloc()));
    let limits = Limits::standard();
    let started = StreamWriter::start(rt.alloc(), sink, batch.schema(), NARROW, limits);
    let mut writer = started.map_err(|(fault, _)| fault).expect(rt, "a schema");
    writer.write(&batch).expect(rt, "a batch of its schema");
    writer.finish().expect(rt, "an end marker");
    writer.into_sink().into_inner()
}

#[test]
fn a_stream_is_read(rt: HostRuntime) {
    let bytes = stream(&rt);
    assert_eq!(rt; bytes.len(), 336);
    let mut reader = StreamReader::new(rt.alloc(), Limits::standard());
    let (taken, item) = reader.read(&bytes).expect(&rt, "a schema");
    assert!(rt; taken == 152 && matches!(item, Some(Item::Schema)));
    let (taken, item) = reader.read(&bytes[152..]).expect(&rt, "a batch");
    assert_eq!(rt; taken, 176);
    let batch = match item {
        Some(Item::Batch(batch)) => batch,
        _ => rt.abort(),
    };
    assert!(rt; batch.rows() == 3 && batch.columns().len() == 1);
    let column = batch.columns().first().expect(&rt, "a column");
    for (row, number) in [Some(1), None, Some(3)].into_iter().enumerate() {
        assert!(rt;
            row < column.len() && column.int_at(row) == number,
            "row {row}"
        );
    }
    let (taken, item) = reader.read(&bytes[328..]).expect(&rt, "an end marker");
    assert!(rt; taken == 8 && matches!(item, Some(Item::End)));
    assert!(rt; reader.end().is_ok());
}

#[test]
fn a_stream_is_reported_and_copied(rt: HostRuntime) {
    let bytes = stream(&rt);
    let limits = Limits::standard();
    let text = schema_text(rt.alloc(), &mut bytes.as_slice(), &limits).expect(&rt, "a schema");
    assert_eq!(rt; text.as_str(), "n: int32\n");

    let output = Counted::new(Vec::new(rt.alloc()));
    let (output, answer) = check(rt.alloc(), &mut bytes.as_slice(), output, &limits);
    assert!(rt; answer.is_ok());
    let lines = "at 0: schema, 1 columns\nat 152: batch 0, 3 rows\nat 328: end marker\n";
    assert_eq!(rt; output.into_inner().as_slice(), lines.as_bytes());

    let output = Counted::new(Vec::new(rt.alloc()));
    let (output, answer) = show(rt.alloc(), &mut bytes.as_slice(), output, &limits);
    assert!(rt; answer.is_ok());
    assert_eq!(rt;
        output.into_inner().as_slice(),
        b"batch,n\n0,1\n0,\n0,3\n".as_slice()
    );

    let output = Counted::new(Vec::new(rt.alloc()));
    let (output, answer) = copy(rt.alloc(), &mut bytes.as_slice(), output, NARROW, &limits);
    assert!(rt; answer.is_ok());
    assert_eq!(rt; output.into_inner().as_slice(), bytes.as_slice());
}

/// The lengths of the `parts`, how many batches were returned, and how it ended.
fn reported(report: &Report) -> ([usize; 3], usize, Ending) {
    let mut parts = [0; 3];
    for (length, part) in parts.iter_mut().zip(&report.parts) {
        *length = part.len();
    }
    (parts, report.received.handed.len(), report.received.ending)
}

const TRUNCATED: Fault = Fault {
    kind: Kind::Truncated,
    place: 328,
};

const NO_SCHEMA: Fault = Fault {
    kind: Kind::NoSchema,
    place: 0,
};

#[test]
fn connections_that_break(rt: HostRuntime) {
    static ENDED: [(u64, usize, Ending); 3] = [
        (335, 1, Ending::Fault(TRUNCATED)),
        (328, 1, Ending::Clean),
        (151, 0, Ending::Fault(NO_SCHEMA)),
    ];
    for &(deliver, handed, ending) in &ENDED {
        let connection = Connection {
            schema: schema(&rt),
            options: NARROW,
            batches: vec![in rt.alloc(); batch(&rt)].expect(&rt, MEMORY),
            finish: true,
            deliver,
            cuts: vec![in rt.alloc(); 100, 1, 100].expect(&rt, MEMORY),
        };
        let connections = vec![in rt.alloc(); connection].expect(&rt, MEMORY);
        let reports = run(rt.alloc(), &Limits::standard(), &connections).expect(&rt, MEMORY);
        assert!(rt; reports.len() == 1 && reports[0].refused.is_empty());
        assert!(rt;
            reported(&reports[0]) == ([152, 176, 8], handed, ending),
            "{deliver} bytes"
        );
    }
}

#[test]
fn a_stream_is_rehearsed(rt: HostRuntime) {
    let bytes = stream(&rt);
    let mut inputs = [bytes.as_slice()];
    let limits = Limits::standard();
    let text = drill(rt.alloc(), &mut inputs, NARROW, 335, 100, &limits);
    let lines = "\
connection 0: wrote 336 bytes in 3 parts, delivered 335 in pieces of 100
connection 0: handed out 1 of 1 batches, 3 rows
connection 0: dictionaries reader none, writer none
connection 0: ending Truncated at 328
";
    assert_eq!(rt; text.expect(&rt, "a sound stream").as_str(), lines);
}
