//! A long body, bytes of which are read from an input straight into the reader.

use super::answers::{Answers, push_snapshot};
use arrow_sink::probe::Trickle;
use arrow_stream_reader::{BodyReadFault, PIECE, StreamReader};
use arrow_test_streams::streams::ONE_BATCH;
use arrow_types::Limits;
use std::alloc::Global;
use std::io::ErrorKind;
use std::process::Abort;

/// The length of the body, as its message declares it.
const DECLARED: &[u8] = &[0x40, 0x0d, 0x03, 0, 0, 0, 0, 0];

/// The same.
const BODY: usize = 200_000;

/// The offset of its first byte.
const START: usize = 304;

/// How many of its bytes come in a piece.
const FIRST: usize = 100;

/// What a reader returns of the stream.
const ANSWERS: &str = "schema n; batch 1 null 3; end; 0 held at 200312: whole";

/// One batch whose body has zero bytes after its buffers, up to the declared length.
fn long_batch(rt: &impl Abort, alloc: Global) -> Vec<u8> {
    let mut bytes = Vec::new(alloc);
    bytes
        .extend_from_slice(&ONE_BATCH[..192])
        .expect(rt, "memory");
    bytes.extend_from_slice(DECLARED).expect(rt, "memory");
    bytes
        .extend_from_slice(&ONE_BATCH[200..328])
        .expect(rt, "memory");
    bytes.resize(START + BODY, 0).expect(rt, "memory");
    bytes
        .extend_from_slice(&ONE_BATCH[328..])
        .expect(rt, "memory");
    bytes
}

/// A reader that was given the stream up to the first bytes of the body, what it returned, and the
/// bytes that are left.
fn at_the_body<'a>(
    rt: &impl Abort,
    alloc: Global,
    bytes: &'a [u8],
) -> (StreamReader, Answers, &'a [u8]) {
    let mut reader = StreamReader::new(alloc, Limits::standard());
    let mut answers = Answers::new(alloc);
    let (first, rest) = bytes.split_at_checked(START + FIRST).expect(rt, "a body");
    answers.give(&mut reader, first).expect(rt, "memory");
    (reader, answers, rest)
}

/// Asserts what the reader returned once it was given the bytes that are left.
fn assert_answers(rt: &impl Abort, mut reader: StreamReader, mut answers: Answers, rest: &[u8]) {
    answers.give(&mut reader, rest).expect(rt, "memory");
    push_snapshot(&mut answers.text, &reader).expect(rt, "memory");
    assert_eq!(rt; answers.text.as_str(), ANSWERS);
}

#[test]
fn whole_pieces_are_read_into_the_reader(rt: HostRuntime) {
    let bytes = long_batch(&rt, rt.alloc());
    let (mut reader, answers, mut rest) = at_the_body(&rt, rt.alloc(), &bytes);
    for count in 1..4 {
        assert_eq!(rt; reader.read_body(&mut rest), Ok(Some(PIECE)));
        assert_eq!(rt; reader.held(), (152 + FIRST + count * PIECE) as u64);
    }
    assert_eq!(rt; reader.read_body(&mut rest), Ok(None));
    assert_eq!(rt; rest.len(), BODY - FIRST - 3 * PIECE + 8);
    assert_answers(&rt, reader, answers, rest);
}

#[test]
fn short_reads_are_taken_as_they_come(rt: HostRuntime) {
    let bytes = long_batch(&rt, rt.alloc());
    let (mut reader, answers, rest) = at_the_body(&rt, rt.alloc(), &bytes);
    let mut input = Trickle::new(rest, 7, Some((9, ErrorKind::Interrupted)));
    assert_eq!(rt; reader.read_body(&mut input), Ok(Some(7)));
    assert_eq!(rt; reader.read_body(&mut input), Ok(Some(2)));
    for _ in 0..2 {
        assert_eq!(rt; reader.read_body(&mut input), Err(BodyReadFault::Input));
        assert_eq!(rt; reader.held(), (152 + FIRST + 9) as u64);
    }
    let (_, left) = rest.split_at_checked(9).expect(&rt, "a body");
    assert_answers(&rt, reader, answers, left);
}

#[test]
fn the_input_ends_in_the_body(rt: HostRuntime) {
    let bytes = long_batch(&rt, rt.alloc());
    let (mut reader, answers, rest) = at_the_body(&rt, rt.alloc(), &bytes);
    let mut nothing = &rest[..0];
    assert_eq!(rt; reader.read_body(&mut nothing), Ok(Some(0)));
    let mut text = String::new(rt.alloc());
    push_snapshot(&mut text, &reader).expect(&rt, "memory");
    assert_eq!(rt; text.as_str(), "252 held at 152: Truncated at 152");
    assert_answers(&rt, reader, answers, rest);
}

/// Asserts that nothing of an input is read by a reader that was given these bytes.
fn assert_none(rt: &impl Abort, alloc: Global, given: &[u8]) {
    let mut reader = StreamReader::new(alloc, Limits::standard());
    let mut answers = Answers::new(alloc);
    answers.give(&mut reader, given).expect(rt, "memory");
    let mut input = ONE_BATCH.as_slice();
    assert_eq!(rt; reader.read_body(&mut input), Ok(None));
    assert_eq!(rt; input.len(), 336);
}

#[test]
fn nothing_else_is_read_into_the_reader(rt: HostRuntime) {
    for given in [0, 7, 8, 152, 160, 303, 304, 310, 328, 336] {
        let bytes = ONE_BATCH.get(..given).expect(&rt, "bytes of the stream");
        assert_none(&rt, rt.alloc(), bytes);
    }
    assert_none(&rt, rt.alloc(), &[0; 8]);
}
