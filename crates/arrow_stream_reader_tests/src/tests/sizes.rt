//! Bodies about as long as the shortest that columns share, 65,536 bytes: complete in a piece, and
//! in several.

use arrow_data::{Array, Batch};
use arrow_stream_reader::{Item, StreamReader};
use arrow_test_streams::streams::{GROWING, ONE_BATCH};
use arrow_types::Limits;
use std::alloc::Global;
use std::process::Abort;

const MEMORY: &str = "memory";

/// How the bytes of a stream are delivered.
#[derive(Clone, Copy, Debug, PartialEq, Eq)]
enum Pieces {
    /// All at once.
    One,
    /// This many at a time.
    Each(usize),
    /// Up to an offset, and from there on.
    Cut(usize),
    /// One by one near the beginning and near the end, and those between in pieces of 4,096.
    SlowEnds,
}

/// How many bytes the piece has that begins at an offset of a stream of `len` bytes.
fn piece_len(pieces: Pieces, place: usize, len: usize) -> usize {
    let rest = len.saturating_sub(place);
    match pieces {
        Pieces::One => rest,
        Pieces::Each(count) => count.min(rest),
        Pieces::Cut(cut) if place < cut => cut.min(len).saturating_sub(place),
        Pieces::Cut(_) => rest,
        Pieces::SlowEnds if place < 400 || rest <= 100 => 1.min(rest),
        Pieces::SlowEnds => rest.saturating_sub(100).min(4_096),
    }
}

/// Gives a reader a piece, and then repeatedly the bytes of it that the reader left, and keeps the
/// batches.
fn give(rt: &impl Abort, reader: &mut StreamReader, piece: &[u8], batches: &mut Vec<Batch>) {
    let mut rest = piece;
    for _ in 0..16 {
        match reader.read(rest) {
            Ok((taken, Some(item))) => {
                if let Item::Batch(batch) = item {
                    batches.push(batch).expect(rt, MEMORY);
                }
                rest = &rest[taken..];
            }
            Ok((_, None)) => return,
            Err(fault) => panic!(rt; "{fault:?}"),
        }
    }
}

/// The batches of a stream, whose reader has been dropped.
fn batches_of(rt: &impl Abort, alloc: Global, bytes: &[u8], pieces: Pieces) -> Vec<Batch> {
    let mut reader = StreamReader::new(alloc, Limits::standard());
    let mut batches = Vec::new(alloc);
    let mut rest = bytes;
    for _ in 0..=bytes.len() {
        let place = bytes.len().saturating_sub(rest.len());
        let (piece, after) = rest.split_at(piece_len(pieces, place, bytes.len()).min(rest.len()));
        give(rt, &mut reader, piece, &mut batches);
        rest = after;
        if rest.is_empty() {
            break;
        }
    }
    assert_eq!(rt; reader.end(), Ok(()));
    assert_eq!(rt; reader.held(), 0);
    assert_eq!(rt; reader.place(), bytes.len() as u64);
    batches
}

fn push(rt: &impl Abort, bytes: &mut Vec<u8>, more: &[u8]) {
    bytes.extend_from_slice(more).expect(rt, MEMORY);
}

/// Appends a frame without its body, and replaces the numbers of 64 bits that begin at the given
/// offsets of it.
fn push_front(rt: &impl Abort, bytes: &mut Vec<u8>, front: &[u8], numbers: &[(usize, u64)]) {
    let start = bytes.len();
    push(rt, bytes, front);
    for (place, number) in numbers {
        for (k, byte) in number.to_le_bytes().iter().enumerate() {
            let at = start.saturating_add(*place).saturating_add(k);
            *bytes.get_mut(at).expect(rt, "a place of the frame") = *byte;
        }
    }
}

/// Appends zeros until there are `len` bytes.
fn fill_up(rt: &impl Abort, bytes: &mut Vec<u8>, len: usize) {
    bytes.resize(len, 0).expect(rt, MEMORY);
}

/// Appends a batch of the numbers `i * i + 7` for each row `i` in a body of `body_len` bytes,
/// without a validity bitmap.
fn push_squares(rt: &impl Abort, bytes: &mut Vec<u8>, body_len: usize) {
    let rows = body_len / 4;
    let numbers = [
        (40, body_len as u64),
        (72, rows as u64),
        (96, rows as u64),
        (104, 0),
        (120, 0),
        (128, 0),
        (136, 0),
        (144, (rows as u64).saturating_mul(4)),
    ];
    push_front(rt, bytes, &ONE_BATCH[152..304], &numbers);
    let end = bytes.len().saturating_add(body_len);
    for i in 0..u32::try_from(rows).expect(rt, "so many rows") {
        let number = i.wrapping_mul(i).wrapping_add(7);
        push(rt, bytes, &number.to_le_bytes());
    }
    fill_up(rt, bytes, end);
}

/// Asserts that a column has `rows` numbers, each of which is that of its row.
fn has_squares(rt: &impl Abort, column: &Array, rows: usize) {
    assert_eq!(rt; column.len(), rows);
    for i in 0..column.len() {
        let root = i as i128;
        let expected = root.wrapping_mul(root).wrapping_add(7);
        assert_eq!(rt; column.int_at(i), Some(expected), "row {i}");
    }
}

/// The lengths of bodies, with how many numbers they have.
const BODIES: [(usize, usize); 5] = [
    (65_528, 16_382),
    (65_535, 16_383),
    (65_536, 16_384),
    (65_537, 16_384),
    (65_544, 16_386),
];

/// Asserts that the batches of two such bodies, with one of three rows between them, are read
/// correctly.
fn are_squares(rt: &impl Abort, alloc: Global, body: (usize, usize), pieces: Pieces) {
    let (body_len, rows) = body;
    let mut bytes = Vec::from_slice(alloc, &ONE_BATCH[..152]).expect(rt, MEMORY);
    push_squares(rt, &mut bytes, body_len);
    push(rt, &mut bytes, &ONE_BATCH[152..328]);
    push_squares(rt, &mut bytes, body_len);
    push(rt, &mut bytes, &ONE_BATCH[328..]);
    let batches = batches_of(rt, alloc, &bytes, pieces);
    assert_eq!(rt; batches.len(), 3);
    for (k, batch) in batches.iter().enumerate() {
        let column = batch.columns().first().expect(rt, "a column");
        if k == 1 {
            assert!(rt; column.len() > 2);
            assert_eq!(rt; column.int_at(2), Some(3), "{body_len} bytes, {pieces:?}");
        } else {
            assert_eq!(rt; batch.rows(), rows, "{body_len} bytes, {pieces:?}");
            has_squares(rt, column, rows);
        }
    }
}

#[test]
fn numbers_that_come_in_pieces(rt: HostRuntime) {
    for pieces in [Pieces::One, Pieces::Each(4_096), Pieces::SlowEnds] {
        for body in BODIES {
            are_squares(&rt, rt.alloc(), body, pieces);
        }
    }
}

/// The body begins at offset 304: all of it is in the second piece, or all but a byte.
#[test]
fn numbers_whose_body_comes_by_itself(rt: HostRuntime) {
    are_squares(&rt, rt.alloc(), BODIES[2], Pieces::Cut(304));
    are_squares(&rt, rt.alloc(), BODIES[2], Pieces::Cut(305));
    are_squares(&rt, rt.alloc(), BODIES[0], Pieces::Cut(305));
}

/// Appends a dictionary batch in a body of `body_len` bytes, in which 16 bytes of offsets come
/// before the texts. All texts have one letter, except one that takes the remaining bytes.
fn push_texts(rt: &impl Abort, bytes: &mut Vec<u8>, front: &[u8], body_len: usize, texts: &[u8]) {
    let data_len = body_len.saturating_sub(16);
    let long = data_len.saturating_sub(texts.len()).saturating_add(1);
    let offsets_len = (texts.len() as u64).saturating_add(1).saturating_mul(4);
    let numbers = [
        (40, body_len as u64),
        (176, offsets_len),
        (184, 16),
        (192, data_len as u64),
    ];
    push_front(rt, bytes, front, &numbers);
    let start = bytes.len();
    let mut offset: u32 = 0;
    for k in 0..=texts.len() {
        push(rt, bytes, &offset.to_le_bytes());
        let len = if k == 1 { long } else { 1 };
        offset = offset.wrapping_add(u32::try_from(len).expect(rt, "so many letters"));
    }
    fill_up(rt, bytes, start.saturating_add(16));
    for (k, letter) in texts.iter().enumerate() {
        let len = if k == 1 { long } else { 1 };
        let end = bytes.len().saturating_add(len);
        bytes.resize(end, *letter).expect(rt, MEMORY);
    }
}

/// Asserts that a slot refers to a text of `len` letters that are all the same.
fn is_text(rt: &impl Abort, column: &Array, i: usize, letter: u8, len: usize) {
    assert!(rt; i < column.len());
    let (values, place) = column.resolved(i).expect(rt, "an index");
    assert!(rt; place < values.len());
    let text = values.text_at(place).expect(rt, "a text").as_bytes();
    assert_eq!(rt; text.len(), len, "slot {i}");
    for byte in text {
        assert_eq!(rt; *byte, letter, "slot {i}");
    }
}

/// Asserts that a dictionary in a body of `body_len` bytes is read, and one that another extends.
fn are_letters(rt: &impl Abort, alloc: Global, body_len: usize, pieces: Pieces) {
    let mut bytes = Vec::from_slice(alloc, &GROWING[..200]).expect(rt, MEMORY);
    push_texts(rt, &mut bytes, &GROWING[200..400], body_len, b"abc");
    push(rt, &mut bytes, &GROWING[424..592]);
    push_texts(rt, &mut bytes, &GROWING[592..792], body_len, b"de");
    push(rt, &mut bytes, &GROWING[816..976]);
    let batches = batches_of(rt, alloc, &bytes, pieces);
    assert_eq!(rt; batches.len(), 2);
    let first = batches[0].columns().first().expect(rt, "a column");
    is_text(rt, first, 0, b'a', 1);
    is_text(rt, first, 1, b'b', body_len.saturating_sub(18));
    is_text(rt, first, 2, b'c', 1);
    let second = batches[1].columns().first().expect(rt, "a column");
    is_text(rt, second, 0, b'e', body_len.saturating_sub(17));
    is_text(rt, second, 1, b'a', 1);
}

#[test]
fn dictionaries_that_come_in_pieces(rt: HostRuntime) {
    for pieces in [Pieces::One, Pieces::Each(4_096), Pieces::SlowEnds] {
        for body_len in [65_528, 65_536, 65_544] {
            are_letters(&rt, rt.alloc(), body_len, pieces);
        }
    }
}
