//! Batches with long bodies, which are sent from where they are stored, and ones that are just too
//! short for that: the bytes are the same for both.

use super::batches::{MEMORY, batch, builder, field, received};
use super::writers::{DELTA, STANDARD, called, limits_of, writer_of};
use arrow_data::Batch;
use arrow_layout::Value;
use arrow_sink::probe::{Failing, Narrow};
use arrow_sink::{Sink, WriteFault};
use arrow_stream_writer::StreamWriter;
use arrow_types::{BitWidth, DataType, Schema};
use std::process::Abort;

/// A batch of one column of 64-bit numbers, `count` of them from 0 on.
fn counting(rt: &(impl Abort + AllocGlobal), count: u32) -> Batch {
    let (bits, signed) = (BitWidth::SixtyFour, true);
    let number = field(rt, "n", DataType::Int { bits, signed });
    let fields = vec![in rt.alloc(); number].expect(rt, MEMORY);
    let schema = Schema::new(rt.alloc(), fields).expect(rt, "a schema");
    let mut column = builder(rt, &schema);
    for number in 0..count {
        let value = Value::Int(i128::from(number));
        column.push(&value).expect(rt, "a number");
    }
    let column = column.finish(rt.alloc(), &[]).expect(rt, "an array");
    let columns = vec![in rt.alloc(); column].expect(rt, MEMORY);
    batch(rt, schema, columns, count as usize)
}

/// The body of such a batch.
fn body(rt: &(impl Abort + AllocGlobal), count: u32) -> Vec<u8> {
    let mut bytes = Vec::new(rt.alloc());
    for number in 0..count {
        let number = u64::from(number).to_le_bytes();
        bytes.extend_from_slice(&number).expect(rt, MEMORY);
    }
    bytes
}

/// All bytes of a stream of this batch twice, without its end marker, and how long its beginning is
/// before the first batch.
fn twice(rt: &(impl Abort + AllocGlobal), batch: &Batch) -> (usize, Vec<u8>) {
    let mut writer = writer_of(rt, batch, DELTA, STANDARD);
    let before = writer.sink().taken().len();
    for _ in 0..2 {
        assert!(rt; called(rt, &mut writer, Some(batch)).is_none());
    }
    let mut bytes = Vec::new(rt.alloc());
    let taken = writer.sink().taken();
    bytes.extend_from_slice(taken).expect(rt, MEMORY);
    (before, bytes)
}

/// Two batches are read, each of this many rows, the last of which is this number.
fn assert_read(rt: &(impl Abort + AllocGlobal), bytes: &[u8], rows: usize, number: i128) {
    let batches = received(rt, bytes).handed;
    assert_eq!(rt; batches.len(), 2);
    for batch in &batches {
        assert_eq!(rt; batch.rows(), rows);
        let column = batch.columns().first().expect(rt, "a column");
        let last = column.len().saturating_sub(1);
        assert!(rt; last < column.len());
        assert_eq!(rt; column.int_at(last), Some(number));
    }
}

/// The messages of this batch, which come twice after the beginning of a stream.
fn part<'a>(rt: &impl Abort, (before, bytes): &'a (usize, Vec<u8>)) -> &'a [u8] {
    let parts = bytes.get(*before..).expect(rt, "two parts");
    let (first, second) = parts.split_at(parts.len() / 2);
    assert!(rt; first == second);
    first
}

/// The body of one row has 8 bytes; the head before it has the same number of bytes for any number
/// of rows.
#[test]
fn bodies_after_their_heads(rt: HostRuntime) {
    let one = twice(&rt, &counting(&rt, 1));
    let head = part(&rt, &one).len().saturating_sub(8);
    for rows in [2_047, 2_048, 3_000] {
        let stream = twice(&rt, &counting(&rt, rows));
        let (part, body) = (part(&rt, &stream), body(&rt, rows));
        assert!(&rt; part.get(head..) == Some(body.as_slice()), "{rows} rows");
        assert_read(&rt, &stream.1, rows as usize, i128::from(rows) - 1);
    }
}

/// A sink for this many bytes has exactly these, and the writer is broken.
fn assert_cut(rt: &(impl Abort + AllocGlobal), batch: &Batch, whole: &[u8], left: usize) {
    let sink = Narrow::new(rt.alloc(), usize::MAX, left, Failing::ByError);
    assert!(rt; sink.failures() < u64::MAX);
    let limits = limits_of(rt, STANDARD);
    match StreamWriter::start(rt.alloc(), sink, batch.schema(), DELTA, limits) {
        Ok(mut writer) => {
            let fault = called(rt, &mut writer, Some(batch));
            assert!(rt; fault == Some(WriteFault::Sink), "{left} bytes");
            let fault = called(rt, &mut writer, Some(batch));
            assert!(rt; fault == Some(WriteFault::Broken), "{left} bytes");
            let sink = writer.sink();
            assert!(rt; whole.get(..left) == Some(sink.taken()), "{left} bytes");
            assert_eq!(rt; sink.failures(), 1, "{left} bytes");
        }
        Err(_) => panic!(rt; "{left} bytes"),
    }
}

#[test]
fn sinks_that_fail_in_a_long_body(rt: HostRuntime) {
    let batch = counting(&rt, 3_000);
    let stream = twice(&rt, &batch);
    let (before, whole) = &stream;
    let end = whole.len().saturating_sub(part(&rt, &stream).len());
    for left in [*before, before.saturating_add(1)] {
        assert_cut(&rt, &batch, whole, left);
    }
    for missing in [24_001, 24_000, 23_999, 1] {
        assert_cut(&rt, &batch, whole, end.saturating_sub(missing));
    }
}
