//! What one reader receives of streams, one after the other.

use arrow_data::{Batch, Dictionary};
use arrow_stream_reader::StreamReader;
use arrow_test_streams::streams::GROWING;
use arrow_types::Limits;
use arrowflow_input::session::{Ending, Received, receive};
use std::alloc::{AllocError, Global};
use std::process::Abort;

fn push_batches(text: &mut String, batches: &[Batch]) -> Result<(), AllocError> {
    for batch in batches {
        write!(text, "{} rows ", batch.rows())?;
    }
    Ok(())
}

fn push_dictionaries(
    text: &mut String,
    dictionaries: &[(i64, Dictionary)],
) -> Result<(), AllocError> {
    for (id, dictionary) in dictionaries {
        write!(text, "{id}={} ", dictionary.len())?;
    }
    Ok(())
}

fn push_received(text: &mut String, received: &Received) -> Result<(), AllocError> {
    push_batches(text, &received.handed)?;
    push_dictionaries(text, &received.reader_dictionaries)?;
    match received.ending {
        Ending::Clean => text.push_str("clean"),
        Ending::Fault(fault) => write!(text, "{} at {}", fault.kind, fault.place),
    }
}

/// The text of what is received is this one.
fn assert_received(
    rt: &impl Abort,
    reader: &mut StreamReader,
    alloc: Global,
    bytes: &[u8],
    expected: &str,
) {
    let received = receive(alloc, reader, bytes, &[]).expect(rt, "memory");
    let mut text = String::new(alloc);
    push_received(&mut text, &received).expect(rt, "memory");
    assert_eq!(rt; text.as_str(), expected);
}

/// Where streams begin and end in the growing dictionary, what one reader receives of each, one
/// after the other, and whether it then has a schema.
static IN_TURN: [(usize, usize, &str, bool); 7] = [
    (0, 1_376, "3 rows 2 rows 2 rows 0=4 clean", true),
    (0, 424, "0=3 clean", true),
    (0, 700, "3 rows 0=3 Truncated at 592", true),
    (0, 200, "clean", true),
    (0, 0, "NoSchema at 0", false),
    (200, 1_376, "Order at 0", false),
    (0, 1_376, "3 rows 2 rows 2 rows 0=4 clean", true),
];

#[test]
fn one_stream_after_the_other(rt: HostRuntime) {
    let alloc = rt.alloc();
    let mut reader = StreamReader::new(alloc, Limits::standard());
    for (start, end, expected, has_schema) in &IN_TURN {
        let bytes = GROWING.get(*start..*end).expect(&rt, "a part");
        assert_received(&rt, &mut reader, alloc, bytes, expected);
        assert_eq!(rt; reader.schema().is_some(), *has_schema);
    }
}

#[test]
fn limits_outlast_a_stream(rt: HostRuntime) {
    let alloc = rt.alloc();
    let limits = Limits::new(192, 24, 4).expect(&rt, "within the ceilings");
    let mut reader = StreamReader::new(alloc, limits);
    for _ in 0..2 {
        assert_received(&rt, &mut reader, alloc, &GROWING, "3 rows 0=3 Rows at 592");
    }
}
