//! Each byte of a schema and of a batch set to each of its 255 other values: a reader returns the
//! same for the message in one piece and byte by byte. What it returns, the vectors say
//! (`vectors/families/int32_column_bytes.changes`).

use arrow_stream_reader::{Fault, Item, StreamReader};
use arrow_test_streams::streams::ONE_BATCH;
use arrow_types::Limits;
use std::process::Abort;

/// How many items and rows a reader returns, and how the stream ends.
type Answer = (u64, u64, Option<Fault>);

/// Adds the items in a piece to those before it.
fn add_items(reader: &mut StreamReader, piece: &[u8], answer: &mut Answer) {
    let mut rest = piece;
    for _ in 0..4 {
        let Ok((taken, Some(item))) = reader.read(rest) else {
            return;
        };
        answer.0 = answer.0.saturating_add(1);
        if let Item::Batch(batch) = item {
            answer.1 = answer.1.saturating_add(batch.rows() as u64);
        }
        rest = &rest[taken..];
    }
}

/// The answer for a stream in three pieces, the second of which comes byte by byte if so asked.
fn answer_to(reader: &mut StreamReader, pieces: [&[u8]; 3], is_by_bytes: bool) -> Answer {
    let [before, piece, after] = pieces;
    let mut answer = (0, 0, None);
    reader.restart();
    add_items(reader, before, &mut answer);
    if is_by_bytes {
        for byte in piece.chunks(1) {
            add_items(reader, byte, &mut answer);
        }
    } else {
        add_items(reader, piece, &mut answer);
    }
    add_items(reader, after, &mut answer);
    answer.2 = reader.end().err();
    answer
}

/// The message of this byte, the schema's or the batch's, with what is before and after it.
fn pieces_at(stream: &[u8], place: usize) -> [&[u8]; 3] {
    let (start, length) = if place < 152 { (0, 152) } else { (152, 176) };
    let (before, rest) = stream.split_at(start.min(stream.len()));
    let (piece, after) = rest.split_at(length.min(rest.len()));
    [before, piece, after]
}

/// Asserts that the answers are the same for each other value of this byte.
fn are_same(rt: &impl Abort, reader: &mut StreamReader, place: usize) {
    for change in 1..=255 {
        let mut stream = ONE_BATCH;
        let byte = stream.get_mut(place).expect(rt, "a byte of the stream");
        *byte ^= change;
        let pieces = pieces_at(&stream, place);
        let whole = answer_to(reader, pieces, false);
        let by_bytes = answer_to(reader, pieces, true);
        assert!(rt; by_bytes == whole, "byte {place}");
    }
}

fn are_all_same(rt: &(impl Abort + AllocGlobal), first: usize, end: usize) {
    let mut reader = StreamReader::new(rt.alloc(), Limits::standard());
    let unchanged = pieces_at(&ONE_BATCH, first);
    assert!(rt; answer_to(&mut reader, unchanged, true) == (3, 3, None));
    for place in first..end {
        are_same(rt, &mut reader, place);
    }
}

#[test]
fn each_byte_of_a_schemas_prefix_and_table(rt: HostRuntime) {
    are_all_same(&rt, 0, 40);
}

#[test]
fn each_byte_of_a_schemas_header(rt: HostRuntime) {
    are_all_same(&rt, 40, 80);
}

#[test]
fn each_byte_of_a_field(rt: HostRuntime) {
    are_all_same(&rt, 80, 120);
}

#[test]
fn each_byte_of_a_type(rt: HostRuntime) {
    are_all_same(&rt, 120, 152);
}

#[test]
fn each_byte_of_a_batchs_prefix_and_table(rt: HostRuntime) {
    are_all_same(&rt, 152, 196);
}

#[test]
fn each_byte_of_a_batchs_header(rt: HostRuntime) {
    are_all_same(&rt, 196, 240);
}

#[test]
fn each_byte_of_a_batchs_nodes_and_buffers(rt: HostRuntime) {
    are_all_same(&rt, 240, 284);
}

#[test]
fn each_byte_of_a_batchs_body(rt: HostRuntime) {
    are_all_same(&rt, 284, 328);
}
