//! Sinks that fail: what they hold, what the writer returns from then on, and what a reader has of
//! it.

use super::batches::{ABC, ABCDE, ACDE, MEMORY, OTHER, batch_of, received};
use super::beginnings::{GROWN, beginning};
use super::reported::received_reported;
use super::writers::{DELTA, called, shown};
use arrow_data::Batch;
use arrow_sink::WriteFault::{Broken, Finished};
use arrow_sink::probe::Failing::{self, AtFlush, ByError, ByNothing};
use arrow_sink::probe::Narrow;
use arrow_sink::{Sink, WriteFault};
use arrow_stream_writer::StreamWriter;
use arrow_test_streams::streams::GROWING;
use arrow_types::Limits;
use std::process::Abort;

/// The batches of the growing dictionary, and after them one of another schema.
fn all_batches(rt: &(impl Abort + AllocGlobal)) -> Vec<Batch> {
    let mut batches = Vec::new(rt.alloc());
    for rows in [ABC, ABCDE, ACDE, OTHER] {
        batches.push(batch_of(rt, rows)).expect(rt, MEMORY);
    }
    batches
}

/// Where the messages of each batch begin and end.
static PARTS: [(usize, usize); 3] = [(200, 592), (592, 976), (976, 1368)];

/// The dictionaries that were sent with the complete batch messages in the first `len` bytes.
fn sent(len: usize) -> &'static str {
    match len {
        0..592 => "",
        592..976 => "0:abc ",
        976..1368 => "0:abcde ",
        _ => "0:acde ",
    }
}

/// What a call returns that sends the bytes between these offsets, into a sink for `left` bytes.
fn answer(left: usize, begin: usize, end: usize) -> Option<WriteFault> {
    if left < begin {
        Some(Broken)
    } else if left < end {
        Some(WriteFault::Sink)
    } else {
        None
    }
}

/// What the call for the end marker returns, and each call after it; how often the sink was
/// flushed, and how often it failed.
type End = (Option<WriteFault>, WriteFault, (u64, u64));

/// The batches are written as far as the sink takes them, and nothing counts as sent that was not
/// written completely. Then come the end marker, the batch of another schema, and another end
/// marker.
fn assert_calls(
    rt: &(impl Abort + AllocGlobal),
    writer: &mut StreamWriter<Narrow>,
    batches: &[Batch],
    left: usize,
    end: End,
) {
    for (batch, (begin, end)) in batches.iter().zip(&PARTS) {
        let fault = called(rt, writer, Some(batch));
        let (wanted, len) = (answer(left, *begin, *end), left.min(*end));
        assert!(rt; fault == wanted, "{left} bytes, at {begin}");
        assert_eq!(rt; writer.sink().taken().len(), len, "{left} bytes");
        let text = shown(rt, writer, None);
        assert_eq!(rt; text.as_str(), sent(len), "{left} bytes");
    }
    assert!(rt; called(rt, writer, None) == end.0, "{left} bytes");
    for other in [batches.last(), None] {
        let later = called(rt, writer, other);
        assert!(rt; later == Some(end.1), "{left} bytes");
    }
}

/// A sink holds the first `left` bytes, and a reader has the batches of them that came completely.
fn assert_held(rt: &(impl Abort + AllocGlobal), sink: &Narrow, left: usize, counts: (u64, u64)) {
    let len = left.min(GROWING.len());
    assert!(rt; GROWING.get(..len) == Some(sink.taken()), "{left} bytes");
    assert_eq!(rt; (sink.flushes(), sink.failures()), counts, "{left} bytes");
    let text = received_reported(rt, &received(rt, sink.taken()));
    let expected = beginning(rt, &GROWN, left);
    assert_eq!(rt; text.as_str(), expected.as_str(), "{left} bytes");
}

/// A sink that fails in this way, takes at most this many bytes of a piece, and this many in all.
type Taking = (Failing, usize, usize);

/// All calls of a writer into a sink.
fn assert_sink(rt: &(impl Abort + AllocGlobal), batches: &[Batch], taking: Taking, end: End) {
    let (failing, at_once, left) = taking;
    let sink = Narrow::new(rt.alloc(), at_once, left, failing);
    assert!(rt; sink.failures() < u64::MAX);
    let schema = batches.first().expect(rt, "a batch").schema();
    match StreamWriter::start(rt.alloc(), sink, schema, DELTA, Limits::standard()) {
        Ok(mut writer) => {
            assert_calls(rt, &mut writer, batches, left, end);
            assert_held(rt, &writer.into_sink(), left, end.2);
        }
        Err((fault, sink)) => {
            assert!(rt; fault == WriteFault::Sink && left < 200, "{left} bytes");
            assert_held(rt, &sink, left, end.2);
        }
    }
}

#[test]
fn sinks_that_fail(rt: HostRuntime) {
    let batches = all_batches(&rt);
    for failing in [ByError, ByNothing] {
        for left in 0..1376 {
            let end = (answer(left, 1368, 1376), Broken, (0, 1));
            assert_sink(&rt, &batches, (failing, 100, left), end);
        }
    }
}

static WHOLE: [(Taking, End); 3] = [
    ((ByError, 7, 1376), (None, Finished, (1, 0))),
    ((ByNothing, 7, 5_000), (None, Finished, (1, 0))),
    ((AtFlush, 7, 1376), (Some(WriteFault::Sink), Broken, (1, 1))),
];

#[test]
fn sinks_that_take_all(rt: HostRuntime) {
    let batches = all_batches(&rt);
    for (taking, end) in &WHOLE {
        assert_sink(&rt, &batches, *taking, *end);
    }
}

/// What is sent after another sink has replaced a writer's goes there, and the stream goes on.
#[test]
fn a_sink_in_the_place_of_another(rt: HostRuntime) {
    let batches = all_batches(&rt);
    let sink = Narrow::new(rt.alloc(), 100, 5_000, ByError);
    let schema = batches.first().expect(&rt, "a batch").schema();
    let started = StreamWriter::start(rt.alloc(), sink, schema, DELTA, Limits::standard());
    let mut writer = started.map_err(|(fault, _)| fault).expect(&rt, "a schema");
    for (batch, (begin, end)) in batches.iter().zip(&PARTS) {
        assert!(rt;
            called(&rt, &mut writer, Some(batch)).is_none(),
            "at {begin}"
        );
        let part = writer.replace_sink(Narrow::new(rt.alloc(), 100, 5_000, ByError));
        let begin = if *begin == 200 { 0 } else { *begin };
        assert!(rt;
            GROWING.get(begin..*end) == Some(part.taken()),
            "at {begin}"
        );
    }
    assert!(rt; called(&rt, &mut writer, None).is_none());
    assert!(rt; GROWING.get(1368..) == Some(writer.sink().taken()));
}
