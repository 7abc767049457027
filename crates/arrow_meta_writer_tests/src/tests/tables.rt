//! A buffer of a table with a field of each kind, a text, a vector of tables and one of pairs, written
//! by hand from the FlatBuffers internals document.

use arrow_flatbuf::{
    FieldValue, Root, TableWriter, Width, aligned, table_end, table_place, text_end,
};
use std::alloc::{AllocError, Global};

const LAID_OUT: &[u8] = &[
    16, 0, 0, 0, // the way to the table at 16
    12, 0, 14, 0, 4, 0, 0, 0, 8, 0, 12, 0, // its vtable
    12, 0, 0, 0, 0xab, 0, 0, 0, 8, 0, 0, 0, 0x34, 0x12, // the way back, and its fields
    0, 0, 2, 0, 0, 0, b'h', b'i', 0, // the text at 32
    0, 1, 0, 0, 0, 12, 0, 0, 0, // a vector at 40, of one way to a table
    4, 0, 4, 0, 0, 0, 0, 0, 8, 0, 0, 0, // that table at 56, and its vtable
    1, 0, 0, 0, 1, 0, 0, 0, 0, 0, 0, 0, // a vector at 60, of one pair
    255, 255, 255, 255, 255, 255, 255, 255, // its second number
    0, 0, 0, 0, 0, 0, 0, 0, // an empty text at 80, and zero bytes
];

const FIELDS: [FieldValue; 4] = [
    FieldValue::Scalar(Width::One, 0xab),
    FieldValue::Absent,
    FieldValue::Target(32),
    FieldValue::Scalar(Width::Two, 0x1234),
];

/// The buffer, one call after the other.
fn written(alloc: Global) -> Result<Vec<u8>, AllocError> {
    let mut writer = TableWriter::in_room(Vec::new(alloc));
    writer.offset(16)?;
    if table_end(4, &FIELDS) <= 32 && writer.place() == 4 {
        writer.table(&FIELDS)?;
    }
    writer.text("hi")?;
    writer.count(1)?;
    if writer.place() <= 56 {
        writer.offset(56)?;
    }
    writer.table(&[])?;
    if writer.place() == 60 {
        writer.count_pairs(1)?;
    }
    writer.pair(1, u64::MAX)?;
    writer.text("")?;
    writer.pad(Width::Eight)?;
    Ok(writer.into_bytes())
}

/// Whether the buffer is the one that was laid out by hand.
fn is_laid_out(alloc: Global) -> bool {
    match written(alloc) {
        Ok(bytes) => bytes.as_slice() == LAID_OUT,
        Err(_) => false,
    }
}

#[test]
fn a_buffer_is_laid_out(rt: HostRuntime) {
    assert!(rt; is_laid_out(rt.alloc()));
}

/// Whether a writer shows the bytes appended so far.
fn is_shown(alloc: Global) -> bool {
    let mut writer = TableWriter::in_room(Vec::new(alloc));
    if writer.offset(8).is_err() {
        return false;
    }
    writer.as_slice() == [8, 0, 0, 0].as_slice()
}

#[test]
fn bytes_are_shown(rt: HostRuntime) {
    assert!(rt; is_shown(rt.alloc()));
}

#[test]
fn places_are_counted_before(rt: HostRuntime) {
    assert_eq!(rt; table_place(4, 4), 16);
    assert_eq!(rt; table_end(4, &FIELDS), 30);
    assert_eq!(rt; aligned(30, Width::Four), 32);
    assert_eq!(rt; text_end(30, "hi"), 39);
    assert_eq!(rt; aligned(39, Width::One), 39);
    assert_eq!(rt; aligned(39, Width::Two), 40);
    assert_eq!(rt; aligned(85, Width::Eight), 88);
}

/// The values that a reader finds in the first and the last field of the table.
fn first_and_last() -> Option<(u64, u64)> {
    let table = Root::open(LAID_OUT)?;
    let first = table.scalar(0, 1).ok()?;
    let last = table.scalar(3, 2).ok()?;
    Some((first?, last?))
}

#[test]
fn a_buffer_is_read(rt: HostRuntime) {
    assert_eq!(rt; first_and_last(), Some((0xab, 0x1234)));
}
