//! Whether slots are texts: bytes that together are one, and bytes that are not.

use arrow_layout::StringBuffers;
use arrow_layout::form::OffsetWidth;
use arrow_layout::layout::{are_texts, has_strings};
use std::process::Abort;

/// Whether the slots between these offsets are texts, if they are slots at all.
fn are_utf8(
    rt: &(impl Abort + AllocGlobal),
    width: OffsetWidth,
    validity: &[u8],
    places: &[u8],
    bytes: &[u8],
) -> Option<bool> {
    let mut offsets = Vec::new(rt.alloc());
    for place in places {
        put_offset(rt, &mut offsets, width, *place);
    }
    let len = places.len().saturating_sub(1);
    let strings = StringBuffers {
        width,
        validity,
        offsets: &offsets,
        bytes,
    };
    if has_strings(len, strings) {
        Some(are_texts(len, strings))
    } else {
        None
    }
}

fn put_offset(rt: &impl Abort, offsets: &mut Vec<u8>, width: OffsetWidth, place: u8) {
    let added = match width {
        OffsetWidth::Small => offsets.extend_from_slice(&u32::from(place).to_le_bytes()),
        OffsetWidth::Large => offsets.extend_from_slice(&u64::from(place).to_le_bytes()),
    };
    added.expect(rt, "memory");
}

/// U+00E9, U+20AC and U+1F600: two, three and four bytes.
const LETTERS: &[u8] = &[0xc3, 0xa9, 0xe2, 0x82, 0xac, 0xf0, 0x9f, 0x98, 0x80];

/// A text, bytes that are not a text, a text, and a byte that is not a text.
const OTHERS: &[u8] = &[0x61, 0xff, 0xfe, 0xc3, 0xa9, 0x80];

/// A bitmap, offsets and bytes, and whether the slots are texts.
static SLOTS: [(&[u8], &[u8], &[u8], bool); 36] = [
    // Letters of one byte.
    (&[], &[0, 1, 3, 3, 6], b"abcdef", true),
    (&[], &[2, 3], b"abcdef", true),
    (&[], &[0], b"abcdef", true),
    (&[], &[], b"abcdef", true),
    // Longer letters.
    (&[], &[0, 2, 5, 9], LETTERS, true),
    (&[], &[0, 9], LETTERS, true),
    (&[], &[2, 5], LETTERS, true),
    // Together the slots are a text, but one ends and the next one begins inside a letter.
    (&[], &[0, 1, 9], LETTERS, false),
    (&[], &[1, 9], LETTERS, false),
    (&[], &[0, 1], LETTERS, false),
    (&[], &[0, 3, 9], LETTERS, false),
    (&[], &[3, 9], LETTERS, false),
    (&[], &[0, 3], LETTERS, false),
    (&[], &[0, 4, 9], LETTERS, false),
    (&[], &[4, 9], LETTERS, false),
    (&[], &[0, 4], LETTERS, false),
    (&[], &[0, 6, 9], LETTERS, false),
    (&[], &[6, 9], LETTERS, false),
    (&[], &[0, 6], LETTERS, false),
    (&[], &[0, 7, 9], LETTERS, false),
    (&[], &[7, 9], LETTERS, false),
    (&[], &[0, 7], LETTERS, false),
    (&[], &[0, 8, 9], LETTERS, false),
    (&[], &[8, 9], LETTERS, false),
    (&[], &[0, 8], LETTERS, false),
    // Only the null slot begins or ends inside a letter, or a slot of no bytes is there.
    (&[0b1001], &[0, 2, 3, 5, 9], LETTERS, true),
    (&[0b1011], &[0, 2, 3, 5, 9], LETTERS, false),
    (&[0b1101], &[0, 2, 3, 5, 9], LETTERS, false),
    (&[0b1001], &[0, 2, 3, 3, 9], LETTERS, false),
    (&[0b010], &[0, 3, 3, 9], LETTERS, true),
    (&[0b101], &[3, 3, 5, 9], LETTERS, true),
    // Under the null are bytes that are not a text, and there are such before the first slot and
    // after the last.
    (&[0b101], &[0, 1, 3, 5], OTHERS, true),
    (&[0b111], &[0, 1, 3, 5], OTHERS, false),
    (&[0b101], &[0, 1, 3, 4], OTHERS, false),
    (&[], &[3, 5], OTHERS, true),
    (&[], &[3, 6], OTHERS, false),
];

/// Asserts that the slots of a row are texts, or that they are not.
fn are_reported(
    rt: &(impl Abort + AllocGlobal),
    row: usize,
    width: OffsetWidth,
    (validity, places, bytes, expected): (&[u8], &[u8], &[u8], bool),
) {
    let are_texts = are_utf8(rt, width, validity, places, bytes);
    assert_eq!(rt; are_texts, Some(expected), "row {row}");
}

#[test]
fn texts_and_other_bytes(rt: HostRuntime) {
    for (row, slots) in SLOTS.iter().enumerate() {
        are_reported(&rt, row, OffsetWidth::Small, *slots);
        are_reported(&rt, row, OffsetWidth::Large, *slots);
    }
}
