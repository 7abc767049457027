//! Simulated connections: within limits, how far inputs are read, and numbers of several digits.

use super::copying::{AFTER, After, NARROW, RESEND, WIDE, with_more};
use super::limits::{METADATA, limits};
use super::reported::ending;
use arrow_sink::probe::Trickle;
use arrow_stream_writer::Options;
use arrow_test_streams::parts::{DE, END, Edit, NUMBERS, Part, Source, THREE, joined};
use arrow_test_streams::streams::ONE_BATCH;
use arrow_types::Limits;
use arrowflow_drill::drill;
use std::alloc::Global;
use std::io::Read;
use std::process::Abort;

/// How connections are delivered: how many bytes of each, and in pieces of how many bytes.
type Delivery = (u64, u64);

/// The report about inputs within limits, or the status and the line of the fault.
fn drilled<R: Read>(
    rt: &impl Abort,
    alloc: Global,
    inputs: &mut [R],
    sent: (Options, Delivery),
    limits: &Limits,
) -> String {
    let (options, (bytes, piece)) = sent;
    match drill(alloc, inputs, options, bytes, piece, limits) {
        Ok(text) => text,
        Err(fault) => ending(rt, alloc, &Err(fault)),
    }
}

/// Parts of streams, each repeated this many times, one after the other, and other bytes at some
/// offsets.
type Stream = (&'static [(Part, usize)], &'static [Edit]);

const ONE: Stream = (&[(NUMBERS, 1), (THREE, 1), (END, 1)], &[]);

const GROWN: Stream = (&[((Source::Growing, 0, 1_376), 1)], &[]);

const ELEVEN: Stream = (&[(NUMBERS, 1), (THREE, 11), (END, 1)], &[]);

const SIXTY: Stream = (&[(NUMBERS, 1), (THREE, 60), (END, 1)], &[]);

/// Four batches, of which the first and the third have no rows.
const FOUR: Stream = (
    &[(NUMBERS, 1), (THREE, 4), (END, 1)],
    &[
        (224, &[0]),
        (248, &[0]),
        (256, &[0]),
        (576, &[0]),
        (600, &[0]),
        (608, &[0]),
    ],
);

/// Three values, two more from each of four deltas, and a batch that refers to the fifth.
const DELTAS: Stream = (
    &[
        ((Source::Growing, 0, 592), 1),
        (DE, 4),
        ((Source::Growing, 816, 976), 1),
    ],
    &[],
);

/// More bytes of a body than a message has in these tests.
const BODY: u64 = 1_000;

/// Streams, how they are written and delivered, and the greatest numbers of bytes of metadata and
/// of a body; the report about them.
type Drilled = (
    &'static [Stream],
    (Options, Delivery),
    (u64, u64),
    &'static str,
);

static DRILLED: [Drilled; 14] = [
    (&[], (NARROW, (5, 1)), (METADATA, BODY), ""),
    (
        &[GROWN],
        (NARROW, (975, 1)),
        (METADATA, BODY),
        "\
connection 0: wrote 1376 bytes in 5 parts, delivered 975 in pieces of 1
connection 0: handed out 1 of 3 batches, 3 rows
connection 0: dictionaries reader 0=5, writer 0=4
connection 0: ending Truncated at 816
",
    ),
    (
        &[GROWN],
        (RESEND, (u64::MAX, 1_073_741_824)),
        (METADATA, BODY),
        "\
connection 0: wrote 1384 bytes in 5 parts, delivered 1384 in pieces of 1073741824
connection 0: handed out 3 of 3 batches, 7 rows
connection 0: dictionaries reader 0=4, writer 0=4
connection 0: ending clean
",
    ),
    (
        &[SIXTY],
        (NARROW, (10_719, 12_345)),
        (METADATA, BODY),
        "\
connection 0: wrote 10720 bytes in 62 parts, delivered 10719 in pieces of 12345
connection 0: handed out 60 of 60 batches, 180 rows
connection 0: dictionaries reader none, writer none
connection 0: ending Truncated at 10712
",
    ),
    (
        &[DELTAS],
        (NARROW, (u64::MAX, 100)),
        (METADATA, BODY),
        "\
connection 0: wrote 1008 bytes in 4 parts, delivered 1008 in pieces of 100
connection 0: handed out 2 of 2 batches, 5 rows
connection 0: dictionaries reader 0=11, writer 0=11
connection 0: ending clean
",
    ),
    (
        &[ELEVEN],
        (WIDE, (1_000, 8)),
        (184, 127),
        "\
connection 0: wrote 200 bytes in 2 parts, delivered 200 in pieces of 8
connection 0: batch 0 refused: TooLarge
connection 0: batch 1 refused: TooLarge
connection 0: batch 2 refused: TooLarge
connection 0: batch 3 refused: TooLarge
connection 0: batch 4 refused: TooLarge
connection 0: batch 5 refused: TooLarge
connection 0: batch 6 refused: TooLarge
connection 0: batch 7 refused: TooLarge
connection 0: batch 8 refused: TooLarge
connection 0: batch 9 refused: TooLarge
connection 0: batch 10 refused: TooLarge
connection 0: handed out 0 of 11 batches, 0 rows
connection 0: dictionaries reader none, writer none
connection 0: ending clean
",
    ),
    (
        &[ONE],
        (WIDE, (1_000, 8)),
        (183, BODY),
        "\
connection 0: wrote 0 bytes in 0 parts, delivered 0 in pieces of 8
connection 0: start refused: TooLarge
connection 0: handed out 0 of 1 batches, 0 rows
connection 0: dictionaries reader none, writer none
connection 0: ending NoSchema at 0
",
    ),
    (
        &[ONE],
        (WIDE, (1_000, 8)),
        (184, 127),
        "\
connection 0: wrote 200 bytes in 2 parts, delivered 200 in pieces of 8
connection 0: batch 0 refused: TooLarge
connection 0: handed out 0 of 1 batches, 0 rows
connection 0: dictionaries reader none, writer none
connection 0: ending clean
",
    ),
    (
        &[ONE],
        (WIDE, (1_000, 8)),
        (184, 128),
        "\
connection 0: wrote 520 bytes in 3 parts, delivered 520 in pieces of 8
connection 0: handed out 1 of 1 batches, 3 rows
connection 0: dictionaries reader none, writer none
connection 0: ending clean
",
    ),
    (
        &[ONE, FOUR],
        (WIDE, (1_000, 8)),
        (METADATA, 100),
        "\
connection 0: wrote 200 bytes in 2 parts, delivered 200 in pieces of 8
connection 0: batch 0 refused: TooLarge
connection 0: handed out 0 of 1 batches, 0 rows
connection 0: dictionaries reader none, writer none
connection 0: ending clean
connection 1: wrote 584 bytes in 4 parts, delivered 584 in pieces of 8
connection 1: batch 1 refused: TooLarge
connection 1: batch 3 refused: TooLarge
connection 1: handed out 2 of 4 batches, 0 rows
connection 1: dictionaries reader none, writer none
connection 1: ending clean
",
    ),
    (&[ONE], (NARROW, (1_000, 8)), (METADATA, 24), ONE_REPORTED),
    (
        &[ONE],
        (NARROW, (1_000, 8)),
        (METADATA, 23),
        "1 fault at byte 152: BodyLength",
    ),
    (
        &[ONE, GROWN],
        (NARROW, (1_000, 8)),
        (METADATA, 31),
        "1 fault at byte 976: BodyLength",
    ),
    (
        &[GROWN, ONE],
        (NARROW, (1_000, 8)),
        (METADATA, 23),
        "1 fault at byte 200: BodyLength",
    ),
];

/// The report about one batch.
const ONE_REPORTED: &str = "\
connection 0: wrote 336 bytes in 3 parts, delivered 336 in pieces of 8
connection 0: handed out 1 of 1 batches, 3 rows
connection 0: dictionaries reader none, writer none
connection 0: ending clean
";

/// The bytes of a stream.
fn bytes_of(rt: &impl Abort, alloc: Global, stream: &Stream) -> Vec<u8> {
    let mut parts = Vec::new(alloc);
    for (part, times) in stream.0 {
        for _ in 0..*times {
            parts.push(*part).expect(rt, "memory");
        }
    }
    joined(alloc, &parts, stream.1).expect(rt, "parts of streams")
}

fn assert_drilled(rt: &impl Abort, alloc: Global, row: &Drilled) {
    let (streams, sent, most, expected) = row;
    let mut held = Vec::new(alloc);
    for stream in *streams {
        held.push(bytes_of(rt, alloc, stream)).expect(rt, "memory");
    }
    let mut inputs = Vec::new(alloc);
    for bytes in &held {
        inputs.push(bytes.as_slice()).expect(rt, "memory");
    }
    let text = drilled(rt, alloc, &mut inputs, *sent, &limits(rt, *most));
    assert_eq!(rt; text.as_str(), *expected);
}

#[test]
fn connections_over_streams(rt: HostRuntime) {
    for row in &DRILLED {
        assert_drilled(&rt, rt.alloc(), row);
    }
}

fn assert_after(rt: &impl Abort, alloc: Global, row: &After) {
    let (count, at_once, given) = row;
    let bytes = with_more(rt, alloc, *count);
    let mut inputs = [Trickle::new(&bytes, *at_once, None)];
    let sent = (NARROW, (1_000, 8));
    let text = drilled(rt, alloc, &mut inputs, sent, &Limits::standard());
    assert_eq!(rt;
        (text.as_str(), inputs[0].given()),
        (ONE_REPORTED, *given),
        "{count} bytes"
    );
}

#[test]
fn bytes_after_the_end_marker(rt: HostRuntime) {
    for row in &AFTER {
        assert_after(&rt, rt.alloc(), row);
    }
}

const LAST_OF_ELEVEN: &str = "\
connection 10: wrote 336 bytes in 3 parts, delivered 328 in pieces of 10
connection 10: handed out 1 of 1 batches, 3 rows
connection 10: dictionaries reader none, writer none
connection 10: ending clean
";

#[test]
fn eleven_connections(rt: HostRuntime) {
    let mut inputs = [ONE_BATCH.as_slice(); 11];
    let sent = (NARROW, (328, 10));
    let text = drilled(&rt, rt.alloc(), &mut inputs, sent, &Limits::standard());
    assert_eq!(rt; text.lines().count(), 44);
    assert!(rt; text.ends_with(LAST_OF_ELEVEN));
}
