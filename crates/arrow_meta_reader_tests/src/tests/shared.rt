//! Metadata that are made here, whose offsets lead to one and the same field, vector of pairs, pair,
//! name or key: it counts each time.

use super::reading::{MEMORY, reported};
use crate::vectors::AT_SCHEMA;
use arrow_types::Limits;
use std::process::Abort;

/// How many columns of nulls the metadata have, how many offsets their one vector of pairs has,
/// which all lead to one pair, and how many bytes their one text has; and marks: `a` if all columns
/// are one table, `o` if the vector is also that of the schema, `n` if the text is the name of each
/// column, `k` if it is the key of the pair.
#[derive(Clone, Copy, Debug)]
pub(super) struct Shared(pub(super) [u32; 3], pub(super) &'static str);

impl Shared {
    fn has(self, mark: char) -> bool {
        self.1.contains(mark)
    }

    /// An entry of a vtable: the offset 4, or absent.
    fn entry(self, mark: char) -> u32 {
        if self.has(mark) { 4 } else { 0 }
    }

    /// How many tables the columns have.
    fn tables(self) -> u32 {
        if self.has('a') { 1 } else { self.0[0] }
    }
}

/// Appends numbers of 32 bits.
pub(super) fn push(rt: &impl Abort, bytes: &mut Vec<u8>, numbers: &[u32]) {
    for number in numbers {
        bytes
            .extend_from_slice(&number.to_le_bytes())
            .expect(rt, MEMORY);
    }
}

/// Appends the offset to a later position.
fn push_offset(rt: &impl Abort, bytes: &mut Vec<u8>, place: u32) {
    let from = u32::try_from(bytes.len()).expect(rt, "less than 2^32 bytes");
    push(rt, bytes, &[place.wrapping_sub(from)]);
}

/// Appends a word repeatedly, up to this number of bytes.
pub(super) fn fill(
    rt: &(impl Abort + AllocGlobal),
    bytes: &mut Vec<u8>,
    word: &[u8],
    count: usize,
) {
    let mut piece = Vec::from_slice(rt.alloc(), word).expect(rt, MEMORY);
    for _ in 0..16 {
        let half = Vec::from_slice(rt.alloc(), &piece).expect(rt, MEMORY);
        piece.extend_from_slice(&half).expect(rt, MEMORY);
    }
    let len = piece.len().max(1);
    for _ in 0..count / len {
        bytes.extend_from_slice(&piece).expect(rt, MEMORY);
    }
    let rest = piece.get(..count % len).expect(rt, "a part of the piece");
    bytes.extend_from_slice(rest).expect(rt, MEMORY);
}

/// The offsets of what comes after the Schema table, the count of columns at 72 and, after the
/// columns' offsets, the vtable of the fields: the tables of the fields, the vector of pairs, the
/// pair after its vtable, and the text.
#[derive(Clone, Copy)]
struct Places {
    fields: u32,
    pairs: u32,
    pair: u32,
    text: u32,
}

fn places_of(shared: Shared) -> Places {
    let Shared([columns, offsets, _], _) = shared;
    let fields = columns.wrapping_mul(4).wrapping_add(96);
    let pairs = shared.tables().wrapping_mul(16).wrapping_add(fields);
    let pair = offsets.wrapping_mul(4).wrapping_add(pairs).wrapping_add(12);
    Places {
        fields,
        pairs,
        pair,
        text: pair.wrapping_add(12),
    }
}

/// Appends the vector of columns, and for each column its table: the offset back to the vtable
/// before all of them, its name, its pairs, and the type code of nulls.
fn push_fields(rt: &impl Abort, bytes: &mut Vec<u8>, shared: Shared, places: Places) {
    let stride = if shared.has('a') { 0 } else { 16 };
    push(rt, bytes, &[shared.0[0]]);
    for number in 0..shared.0[0] {
        push_offset(
            rt,
            bytes,
            number.wrapping_mul(stride).wrapping_add(places.fields),
        );
    }
    push(rt, bytes, &[0x10_0012, shared.entry('n'), 12, 0, 8]);
    for number in 0..shared.tables() {
        push(rt, bytes, &[number.wrapping_mul(16).wrapping_add(20)]);
        push_offset(rt, bytes, places.text);
        push_offset(rt, bytes, places.pairs);
        push(rt, bytes, &[1]);
    }
}

/// The metadata up to and including the count of their vector of pairs, so that other pairs may
/// follow: the start of a schema with a pair, up to its Schema table, and its columns.
pub(super) fn front(rt: &(impl Abort + AllocGlobal), shared: Shared) -> Vec<u8> {
    let places = places_of(shared);
    let mut bytes = Vec::from_slice(rt.alloc(), &AT_SCHEMA[..68]).expect(rt, MEMORY);
    *bytes.get_mut(48).expect(rt, "an entry") = if shared.has('o') { 12 } else { 0 };
    push_offset(rt, &mut bytes, places.pairs);
    push_fields(rt, &mut bytes, shared, places);
    push(rt, &mut bytes, &[shared.0[1]]);
    bytes
}

/// The metadata: after the start the one pair, whose value is absent, and the text.
pub(super) fn metadata(rt: &(impl Abort + AllocGlobal), shared: Shared) -> Vec<u8> {
    let places = places_of(shared);
    let mut bytes = front(rt, shared);
    for _ in 0..shared.0[1] {
        push_offset(rt, &mut bytes, places.pair);
    }
    push(rt, &mut bytes, &[0x8_0006, shared.entry('k'), 8]);
    push_offset(rt, &mut bytes, places.text);
    push(rt, &mut bytes, &[0, shared.0[2]]);
    fill(rt, &mut bytes, b"n", shared.0[2] as usize);
    bytes
}

/// Asserts that metadata are read, and this was counted, or that they are rejected because they are
/// not readable within the limit of bytes.
pub(super) fn is_counted(
    rt: &(impl Abort + AllocGlobal),
    bytes: &[u8],
    most: u64,
    expected: Option<[u64; 3]>,
) {
    let limits = Limits::new(most, 0, 0).expect(rt, "within the ceilings");
    let (fault, work) = reported(rt.alloc(), bytes, &limits);
    assert_eq!(rt; fault, if expected.is_none() { 3 } else { 0 });
    assert_eq!(rt; work, expected.unwrap_or(work));
    assert!(rt;
        work[0] <= 65_536 && work[1] <= 65_536 && work[2] <= most,
        "{work:?}"
    );
}

/// What is shared, the greatest number of bytes of names, keys and values, and what was counted if
/// it is read.
type Row = (Shared, u64, Option<[u64; 3]>);

/// This many columns, of one table or each with its own.
static COLUMNS: [Row; 6] = [
    (Shared([0, 0, 0], ""), 0, Some([0, 0, 0])),
    (Shared([2, 0, 0], ""), 0, Some([2, 0, 0])),
    (Shared([65_536, 0, 0], "a"), 0, Some([65_536, 0, 0])),
    (Shared([65_537, 0, 0], "a"), 0, None),
    (Shared([65_536, 0, 0], ""), 0, Some([65_536, 0, 0])),
    (Shared([65_537, 0, 0], ""), 0, None),
];

/// One pair as many times as the limit allows, and once more: in the schema, in a column.
static ONE_PAIR: [Row; 3] = [
    (Shared([0, 65_536, 0], "o"), 0, Some([0, 65_536, 0])),
    (Shared([0, 65_537, 0], "o"), 0, None),
    (Shared([1, 65_537, 0], ""), 0, None),
];

/// One vector of pairs of the schema and of columns.
static ONE_VECTOR: [Row; 3] = [
    (Shared([3, 5, 0], "o"), 0, Some([3, 20, 0])),
    (Shared([255, 256, 0], "o"), 0, Some([255, 65_536, 0])),
    (Shared([256, 256, 0], "o"), 0, None),
];

/// One text: a name of two columns, and a key of two pairs, with as many bytes allowed as the metadata
/// have; then two names and nine keys of five bytes each.
static ONE_TEXT: [Row; 6] = [
    (Shared([2, 0, 40], "n"), 204, Some([2, 0, 80])),
    (Shared([2, 0, 4_000], "n"), 4_164, None),
    (Shared([0, 2, 40], "ok"), 172, Some([0, 2, 80])),
    (Shared([0, 2, 4_000], "ok"), 4_132, None),
    (Shared([2, 3, 5], "onk"), 55, Some([2, 9, 55])),
    (Shared([2, 3, 5], "onk"), 54, None),
];

fn are_counted(rt: &(impl Abort + AllocGlobal), rows: &[Row]) {
    for (shared, most, expected) in rows {
        is_counted(rt, &metadata(rt, *shared), *most, *expected);
    }
}

#[test]
fn each_column_counts(rt: HostRuntime) {
    are_counted(&rt, &COLUMNS);
}

#[test]
fn one_pair_counts_each_time(rt: HostRuntime) {
    are_counted(&rt, &ONE_PAIR);
}

#[test]
fn one_vector_counts_each_time(rt: HostRuntime) {
    are_counted(&rt, &ONE_VECTOR);
}

#[test]
fn one_text_counts_each_time(rt: HostRuntime) {
    are_counted(&rt, &ONE_TEXT);
}
