//! Streams with types that only some readers and writers take.

use super::writers::DELTA;
use arrow_sink::probe::{Failing, Narrow};
use arrow_sink::{Sink, WriteFault};
use arrow_stream_reader::{Item, Kind, StreamReader};
use arrow_stream_writer::StreamWriter;
use arrow_test_streams::streams::DOUBLES;
use arrow_types::{Limits, Schema, TypeSet};
use std::process::Abort;

/// A writer of batches of this schema with these limits, or the fault with which it is rejected,
/// and the sink.
fn started(
    rt: &(impl Abort + AllocGlobal),
    schema: &Schema,
    limits: Limits,
) -> Result<StreamWriter<Narrow>, (WriteFault, Narrow)> {
    let sink = Narrow::new(rt.alloc(), usize::MAX, usize::MAX, Failing::ByError);
    assert!(rt; sink.failures() < u64::MAX);
    StreamWriter::start(rt.alloc(), sink, schema, DELTA, limits)
}

/// That a schema is left out with the core types, before a byte is sent, and is sent with all
/// types.
fn is_sent_by_some(rt: &(impl Abort + AllocGlobal), schema: &Schema, frame: &[u8]) {
    let core = Limits::standard();
    match started(rt, schema, core) {
        Ok(_) => panic!(rt; "the core has no such type"),
        Err((fault, sink)) => {
            assert!(rt; fault == WriteFault::TooLarge);
            assert!(rt; sink.taken().is_empty() && sink.failures() == 0 && sink.flushes() == 0);
        }
    }
    match started(rt, schema, core.with_types(TypeSet::All)) {
        Ok(writer) => assert!(rt; writer.sink().taken() == frame),
        Err(_) => panic!(rt; "refused schema"),
    }
}

#[test]
fn a_writer_of_the_core_sends_no_double(rt: HostRuntime) {
    let all = Limits::standard().with_types(TypeSet::All);
    let mut reader = StreamReader::new(rt.alloc(), all);
    let read = reader.read(&DOUBLES);
    assert!(rt; matches!(read, Ok((144, Some(Item::Schema)))));
    let schema = reader.schema().expect(&rt, "a schema");
    is_sent_by_some(&rt, schema, &DOUBLES[..144]);
}

#[test]
fn a_reader_of_the_core_refuses_it(rt: HostRuntime) {
    let mut reader = StreamReader::new(rt.alloc(), Limits::standard());
    match reader.read(&DOUBLES) {
        Err(fault) => assert!(rt; fault.kind == Kind::Unsupported && fault.place == 0),
        Ok(_) => panic!(rt; "the core has no such type"),
    }
    let again = Limits::standard()
        .with_types(TypeSet::All)
        .with_types(TypeSet::Core);
    let mut reader = StreamReader::new(rt.alloc(), again);
    assert!(rt; reader.read(&DOUBLES).is_err());
}
