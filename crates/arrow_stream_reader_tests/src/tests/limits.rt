//! Streams under custom limits.

use super::answers::answers_to;
use crate::frames::noted::AT_SCHEMA;
use arrow_stream_reader::StreamReader;
use arrow_test_streams::parts::Source::{Bytes, Growing};
use arrow_test_streams::parts::{ABC, Edit, FIRST, LETTERS, NUMBERS, Part, THREE, joined};
use arrow_types::Limits;
use std::alloc::{AllocError, Global};
use std::process::Abort;

/// The most bytes of metadata and of body and the most rows, a stream, and its results.
type Limited = ([u64; 3], &'static [Part], &'static [Edit], &'static str);

const BODY: Part = (Bytes(&[0; 8]), 0, 8);

const AT_START: &str = "refused MetadataSize at 0; 0 held at 0: MetadataSize at 0";

const ONE_COLUMN: &str = "schema n; 0 held at 152: whole";

const ALL_ROWS: &str = "schema n; batch 1 null 3; 0 held at 328: whole";

const ALL_VALUES: &str = "schema k; dictionary a b c; 0 held at 424: whole";

const THREE_ROWS: &str = "schema n; refused Rows at 152; 0 held at 152: Rows at 152";

const THREE_VALUES: &str = "schema k; refused Rows at 200; 0 held at 200: Rows at 200";

static LIMITED: [Limited; 18] = [
    // A key is as long as the metadata allow, which is less than the limit; with the name and the
    // value these are 18 bytes.
    (
        [200, 0, 0],
        &[(Bytes(AT_SCHEMA), 0, 208)],
        &[(188, &[16])],
        "schema n; 0 held at 208: whole",
    ),
    ([144, 0, 0], &[NUMBERS], &[], ONE_COLUMN),
    ([143, 0, 0], &[NUMBERS], &[], AT_START),
    // The other bytes of the size.
    ([399, 0, 0], &[NUMBERS], &[(5, &[1])], AT_START),
    ([399, 0, 0], &[NUMBERS], &[(6, &[1])], AT_START),
    ([399, 0, 0], &[NUMBERS], &[(7, &[1])], AT_START),
    (
        [144, 8, 0],
        &[NUMBERS, BODY],
        &[(40, &[8])],
        "schema n; 0 held at 160: whole",
    ),
    (
        [144, 7, 0],
        &[NUMBERS, BODY],
        &[(40, &[8])],
        "refused BodyLength at 0; 0 held at 0: BodyLength at 0",
    ),
    ([1000, 1000, 3], &[NUMBERS, THREE], &[], ALL_ROWS),
    ([1000, 1000, 3], &[LETTERS, ABC], &[], ALL_VALUES),
    ([1000, 1000, 2], &[NUMBERS, THREE], &[], THREE_ROWS),
    ([1000, 1000, 2], &[LETTERS, ABC], &[], THREE_VALUES),
    ([1000, 1000, 0], &[NUMBERS, THREE], &[], THREE_ROWS),
    ([1000, 1000, 0], &[LETTERS, ABC], &[], THREE_VALUES),
    // Three values and two more after them are too many if four rows are allowed.
    (
        [67_108_864, 68_719_476_736, 4],
        &[(Growing, 0, 1_376)],
        &[],
        "schema k; dictionary a b c; batch a b c; refused Rows at 592; 0 held at 592: Rows at 592",
    ),
    // Four values that replace three are not seven.
    (
        [67_108_864, 68_719_476_736, 4],
        &[LETTERS, ABC, (Growing, 976, 1_208)],
        &[],
        "schema k; dictionary a b c; dictionary a c d e; 0 held at 656: whole",
    ),
    // Nor are a batch's rows counted with those of the next.
    (
        [1000, 1000, 3],
        &[NUMBERS, THREE, THREE],
        &[],
        "schema n; batch 1 null 3; batch 1 null 3; 0 held at 504: whole",
    ),
    (
        [1000, 1000, 3],
        &[LETTERS, ABC, FIRST],
        &[],
        "schema k; dictionary a b c; batch a b c; 0 held at 592: whole",
    ),
];

/// The results for a stream byte by byte, and the first cut in two with other results, if there is
/// one.
fn answers_in_pieces(
    alloc: Global,
    reader: &mut StreamReader,
    bytes: &[u8],
) -> Result<(String, Option<usize>), AllocError> {
    let mut ones = Vec::new(alloc);
    for byte in bytes.chunks(1) {
        ones.push(byte)?;
    }
    let each = answers_to(alloc, reader, &ones)?;
    for cut in 0..bytes.len() {
        reader.restart();
        let (front, back) = bytes.split_at(cut);
        if answers_to(alloc, reader, &[front, back])? != each {
            return Ok((each, Some(cut)));
        }
    }
    Ok((each, None))
}

fn assert_limited(rt: &impl Abort, alloc: Global, number: usize, it: &Limited) {
    let (most, parts, edits, expected) = it;
    let limits = Limits::new(most[0], most[1], most[2]).expect(rt, "within the ceilings");
    let bytes = joined(alloc, parts, edits).expect(rt, "a stream");
    let mut reader = StreamReader::new(alloc, limits);
    let (answers, cut) = answers_in_pieces(alloc, &mut reader, &bytes).expect(rt, "memory");
    assert_eq!(rt; (answers.as_str(), cut), (*expected, None), "row {number}");
}

#[test]
fn limits_are_kept(rt: HostRuntime) {
    for (number, it) in LIMITED.iter().enumerate() {
        assert_limited(&rt, rt.alloc(), number, it);
    }
}
