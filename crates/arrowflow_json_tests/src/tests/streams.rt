//! Complete inputs: their lines, and how the call ends.

use arrow_sink::probe::{Failing, Narrow, Trickle};
use arrow_sink::{Counted, Sink};
use arrow_test_streams::streams::{GROWING, ONE_BATCH};
use arrow_types::Limits;
use arrowflow_input::{Input, ToolFault};
use arrowflow_json::show_json;
use std::alloc::Global;
use std::io::ErrorKind;
use std::process::Abort;

/// The rows of the growing dictionary.
const LETTERS: &str = "{\"k\":\"a\"}\n{\"k\":\"b\"}\n{\"k\":\"c\"}\n{\"k\":\"e\"}\n{\"k\":\"a\"}\n\
    {\"k\":\"c\"}\n{\"k\":\"e\"}\n";

/// The rows of one batch.
const NUMBERS: &str = "{\"n\":1}\n{\"n\":null}\n{\"n\":3}\n";

/// The output for an input, and after it the line of the fault.
fn shown<R: Input>(rt: &impl Abort, alloc: Global, input: &mut R) -> String {
    let output = Counted::new(Vec::new(alloc));
    let (output, answer) = show_json(alloc, input, output, &Limits::standard());
    let taken = output.into_inner();
    let taken = str::from_utf8(&taken).expect(rt, "the lines are UTF-8");
    let mut text = String::from_str(alloc, taken).expect(rt, "memory");
    if let Err(fault) = answer {
        let line = fault.line(alloc, "in", "out").expect(rt, "memory");
        text.push_str(&line).expect(rt, "memory");
    }
    text
}

#[test]
fn rows_of_streams(rt: HostRuntime) {
    let alloc = rt.alloc();
    for (bytes, expected) in [
        (GROWING.as_slice(), LETTERS),
        (ONE_BATCH.as_slice(), NUMBERS),
    ] {
        let mut whole = bytes;
        assert_eq!(&rt; shown(&rt, alloc, &mut whole).as_str(), expected);
        let mut bit_by_bit = Trickle::new(bytes, 1, None);
        assert_eq!(&rt; shown(&rt, alloc, &mut bit_by_bit).as_str(), expected);
    }
}

#[test]
fn streams_that_end_early(rt: HostRuntime) {
    let alloc = rt.alloc();
    let mut cut = &ONE_BATCH[..300];
    assert_eq!(&rt;
        shown(&rt, alloc, &mut cut).as_str(),
        "fault at byte 152: Truncated"
    );
    let mut after_a_batch = &GROWING[..900];
    let expected = "{\"k\":\"a\"}\n{\"k\":\"b\"}\n{\"k\":\"c\"}\nfault at byte 816: Truncated";
    assert_eq!(&rt; shown(&rt, alloc, &mut after_a_batch).as_str(), expected);
    let mut without_marker = &ONE_BATCH[..328];
    assert_eq!(&rt; shown(&rt, alloc, &mut without_marker).as_str(), NUMBERS);
    let mut failing = Trickle::new(&ONE_BATCH, 1_000, Some((330, ErrorKind::Interrupted)));
    let mut expected = String::from_str(alloc, NUMBERS).expect(&rt, "memory");
    expected.push_str("cannot read in").expect(&rt, "memory");
    assert_eq!(&rt; shown(&rt, alloc, &mut failing).as_str(), expected.as_str());
}

#[test]
fn outputs_that_fail(rt: HostRuntime) {
    let alloc = rt.alloc();
    for room in [0, 1, 7, 8, 20, 26] {
        let output = Narrow::new(alloc, 5, room, Failing::ByError);
        assert!(&rt; output.failures() == 0);
        let mut input = ONE_BATCH.as_slice();
        let (output, answer) = show_json(alloc, &mut input, output, &Limits::standard());
        assert!(&rt; matches!(answer, Err(ToolFault::Output)));
        assert_eq!(&rt; output.taken(), &NUMBERS.as_bytes()[..room.min(27)]);
        assert!(&rt; output.flushes() == 0);
    }
}
