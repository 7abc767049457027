//! Copies within limits, and how far their input is read.

use super::limits::{METADATA, limits};
use super::reported::ending;
use arrow_body_writer::Align;
use arrow_dict::Updates;
use arrow_sink::Counted;
use arrow_sink::probe::Trickle;
use arrow_stream_writer::Options;
use arrow_test_streams::streams::{GROWING, ONE_BATCH};
use arrow_types::Limits;
use arrowflow_copy::copy;
use arrowflow_input::Input;
use std::alloc::Global;
use std::process::Abort;

pub(super) const NARROW: Options = Options {
    updates: Updates::Delta,
    align: Align::Eight,
};

pub(super) const RESEND: Options = Options {
    updates: Updates::Resend,
    align: Align::Eight,
};

pub(super) const WIDE: Options = Options {
    updates: Updates::Delta,
    align: Align::SixtyFour,
};

/// The bytes written for an input, and the status and the line of the fault, if there was one.
pub(super) fn copied<R: Input>(
    rt: &impl Abort,
    alloc: Global,
    input: &mut R,
    options: Options,
    limits: &Limits,
) -> (Vec<u8>, String) {
    let output = Counted::new(Vec::new(alloc));
    let (output, answer) = copy(alloc, input, output, options, limits);
    (output.into_inner(), ending(rt, alloc, &answer))
}

/// A stream, how it is written, and the greatest numbers of bytes of metadata and of a body; the
/// number of bytes that are written, and the fault.
type Limited = (&'static [u8], Options, (u64, u64), usize, &'static str);

/// The stream that is read exceeds a limit, or the one that would be written for it does.
static LIMITED: [Limited; 8] = [
    (
        &ONE_BATCH,
        WIDE,
        (183, 1_000),
        0,
        "1 refused schema: TooLarge",
    ),
    (
        &ONE_BATCH,
        WIDE,
        (184, 127),
        192,
        "1 refused batch 0: TooLarge",
    ),
    (&ONE_BATCH, WIDE, (184, 128), 520, ""),
    (&GROWING, NARROW, (METADATA, 32), 1_376, ""),
    (
        &GROWING,
        NARROW,
        (METADATA, 31),
        976,
        "1 fault at byte 976: BodyLength",
    ),
    (
        &GROWING,
        NARROW,
        (METADATA, 23),
        200,
        "1 fault at byte 200: BodyLength",
    ),
    (
        &GROWING,
        RESEND,
        (METADATA, 31),
        592,
        "1 refused batch 1: TooLarge",
    ),
    (
        &GROWING,
        RESEND,
        (METADATA, 24),
        592,
        "1 refused batch 1: TooLarge",
    ),
];

/// The bytes written within the limits are a prefix of those written without them.
fn assert_limited(rt: &impl Abort, alloc: Global, row: &Limited) {
    let (stream, options, most, len, fault) = row;
    let (mut input, mut again) = (*stream, *stream);
    let (whole, _) = copied(rt, alloc, &mut again, *options, &Limits::standard());
    let limits = limits(rt, *most);
    let (written, ending) = copied(rt, alloc, &mut input, *options, &limits);
    assert_eq!(rt; (written.len(), ending.as_str()), (*len, *fault));
    assert!(rt;
        whole.get(..*len) == Some(written.as_slice()),
        "of {len} bytes"
    );
}

#[test]
fn what_passes_a_limit(rt: HostRuntime) {
    for row in &LIMITED {
        assert_limited(&rt, rt.alloc(), row);
    }
}

/// The number of bytes of an input that begins with a stream of 336 bytes, the number that it gives
/// at once, and the number that are read of it.
pub(super) type After = (usize, usize, usize);

/// An input is read in pieces of 65,536 bytes at most, and no piece is read after the one with the
/// end marker.
pub(super) static AFTER: [After; 9] = [
    (336, 1_000_000, 336),
    (400, 1_000_000, 400),
    (65_535, 1_000_000, 65_535),
    (65_536, 1_000_000, 65_536),
    (65_537, 1_000_000, 65_536),
    (200_000, 1_000_000, 65_536),
    (10_000, 200, 400),
    (10_000, 335, 670),
    (10_000, 336, 336),
];

/// One batch, and bytes after its end marker that are not a message, `count` bytes in all.
pub(super) fn with_more(rt: &impl Abort, alloc: Global, count: usize) -> Vec<u8> {
    let mut bytes = Vec::from_slice(alloc, &ONE_BATCH).expect(rt, "memory");
    bytes.resize(count, 7).expect(rt, "memory");
    bytes
}

fn assert_after(rt: &impl Abort, alloc: Global, row: &After) {
    let (count, at_once, given) = row;
    let bytes = with_more(rt, alloc, *count);
    let mut input = Trickle::new(&bytes, *at_once, None);
    let (written, ending) = copied(rt, alloc, &mut input, NARROW, &Limits::standard());
    assert_eq!(rt;
        (ending.as_str(), input.given()),
        ("", *given),
        "{count} bytes"
    );
    assert!(rt; written.as_slice() == ONE_BATCH.as_slice(), "{count} bytes");
}

#[test]
fn bytes_after_the_end_marker(rt: HostRuntime) {
    for row in &AFTER {
        assert_after(&rt, rt.alloc(), row);
    }
}
