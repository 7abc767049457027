//! One batch from an input that fails at each offset, and copied into an output that does.

use super::copying::{NARROW, copied};
use super::reported::{Call, NUMBERS, ending, reported};
use arrow_sink::Sink;
use arrow_sink::probe::{Failing, Narrow, Trickle};
use arrow_test_streams::streams::ONE_BATCH;
use arrow_types::Limits;
use arrowflow_copy::copy;
use arrowflow_input::Tried;
use std::alloc::Global;
use std::io::ErrorKind;
use std::process::Abort;

/// The report about an input that fails before its schema is complete.
const FAILED: &str = "2 cannot read in";

/// The calls, and their reports if no message is complete, if the schema is, the batch, and the end
/// marker.
static REPORTED: [(Call, [&str; 4]); 4] = [
    (
        Call::Schema,
        [FAILED, "n: int32\n", "n: int32\n", "n: int32\n"],
    ),
    (Call::Quiet, [FAILED, FAILED, FAILED, ""]),
    (
        Call::Check,
        [
            FAILED,
            "at 0: schema, 1 columns\n2 cannot read in",
            "at 0: schema, 1 columns\nat 152: batch 0, 3 rows\n2 cannot read in",
            "at 0: schema, 1 columns\nat 152: batch 0, 3 rows\nat 328: end marker\n",
        ],
    ),
    (
        Call::Show,
        [
            FAILED,
            "batch,n\n2 cannot read in",
            "batch,n\n0,1\n0,\n0,3\n2 cannot read in",
            NUMBERS,
        ],
    ),
];

/// The number of bytes that a copy has then, and the fault.
static COPIED: [(usize, &str); 4] = [(0, FAILED), (152, FAILED), (328, FAILED), (336, "")];

/// One batch, from an input that fails at this offset with one of several errors, all of which are
/// reported in the same way.
fn failing(place: usize) -> Trickle<'static> {
    let kind = match place % 4 {
        0 => ErrorKind::Interrupted,
        1 => ErrorKind::BrokenPipe,
        2 => ErrorKind::UnexpectedEof,
        _ => ErrorKind::Other,
    };
    Trickle::new(ONE_BATCH.as_slice(), 7, Some((place, kind)))
}

/// The number of complete messages in this many bytes of one batch.
fn whole_messages(count: usize) -> usize {
    match count {
        0..152 => 0,
        152..328 => 1,
        328..336 => 2,
        _ => 3,
    }
}

fn assert_reported(rt: &impl Abort, alloc: Global, call: Call, texts: &[&str; 4], place: usize) {
    let mut input = failing(place);
    let text = reported(rt, alloc, call, &mut input, &Limits::standard());
    let expected = texts.get(whole_messages(place)).expect(rt, "a text");
    assert_eq!(rt; text.as_str(), *expected, "{place} bytes");
}

#[test]
fn reports_of_an_input_that_fails(rt: HostRuntime) {
    for (call, texts) in &REPORTED {
        for place in 0..337 {
            assert_reported(&rt, rt.alloc(), *call, texts, place);
        }
    }
}

/// The complete messages of an input that fails at this offset are copied.
fn assert_copied(rt: &impl Abort, alloc: Global, place: usize) {
    let mut input = failing(place);
    let (bytes, ending) = copied(rt, alloc, &mut input, NARROW, &Limits::standard());
    let (len, line) = COPIED.get(whole_messages(place)).expect(rt, "a copy");
    assert_eq!(rt; ending.as_str(), *line, "{place} bytes");
    assert!(rt;
        Some(bytes.as_slice()) == ONE_BATCH.get(..*len),
        "{place} bytes"
    );
}

#[test]
fn copies_of_an_input_that_fails(rt: HostRuntime) {
    for place in 0..337 {
        assert_copied(&rt, rt.alloc(), place);
    }
}

#[test]
fn an_input_reports_that_its_last_read_failed(rt: HostRuntime) {
    let limits = Limits::standard();
    let mut input = Tried::new(failing(100));
    assert!(rt; !input.has_failed());
    let text = reported(&rt, rt.alloc(), Call::Check, &mut input, &limits);
    assert_eq!(rt; text.as_str(), FAILED);
    assert!(rt; input.has_failed());
    assert_eq!(rt; input.into_inner().given(), 100);
    let mut input = Tried::new(failing(200));
    let (bytes, ending) = copied(&rt, rt.alloc(), &mut input, NARROW, &limits);
    assert_eq!(rt; ending.as_str(), FAILED);
    assert_eq!(rt; bytes.len(), 152);
    assert!(rt; input.has_failed());
}

#[test]
fn a_stream_that_is_cut_blames_no_input(rt: HostRuntime) {
    let limits = Limits::standard();
    for call in [Call::Check, Call::Quiet, Call::Show, Call::Schema] {
        let cut = Trickle::new(ONE_BATCH.get(..100).expect(&rt, "so many bytes"), 7, None);
        let mut input = Tried::new(cut);
        let text = reported(&rt, rt.alloc(), call, &mut input, &limits);
        assert_eq!(rt; text.as_str(), "1 fault at byte 0: NoSchema");
        assert!(rt; !input.has_failed());
    }
    let mut input = Tried::new(Trickle::new(ONE_BATCH.as_slice(), 7, None));
    let (bytes, ending) = copied(&rt, rt.alloc(), &mut input, NARROW, &limits);
    assert_eq!(rt; ending.as_str(), "");
    assert_eq!(rt; bytes.len(), 336);
    assert!(rt; !input.has_failed());
}

/// A sink that accepts this many bytes has a prefix of the copy, and it was flushed and failed this
/// many times.
fn assert_narrowed(rt: &impl Abort, alloc: Global, sink: (Failing, usize), counts: (u64, u64)) {
    let (failing, left) = sink;
    let mut input = ONE_BATCH.as_slice();
    let output = Narrow::new(alloc, 100, left, failing);
    let (output, answer) = copy(alloc, &mut input, output, NARROW, &Limits::standard());
    let line = if counts.1 == 0 {
        ""
    } else {
        "2 cannot write out"
    };
    assert_eq!(rt; ending(rt, alloc, &answer).as_str(), line, "{left} bytes");
    assert_eq!(rt;
        (output.flushes(), output.failures()),
        counts,
        "{left} bytes"
    );
    assert!(rt;
        Some(output.taken()) == ONE_BATCH.get(..left),
        "{left} bytes"
    );
}

#[test]
fn copies_into_an_output_that_fails(rt: HostRuntime) {
    let alloc = rt.alloc();
    for left in 0..336 {
        assert_narrowed(&rt, alloc, (Failing::ByError, left), (0, 1));
        assert_narrowed(&rt, alloc, (Failing::ByNothing, left), (0, 1));
    }
    assert_narrowed(&rt, alloc, (Failing::AtFlush, 336), (1, 1));
    assert_narrowed(&rt, alloc, (Failing::ByError, 336), (1, 0));
}
