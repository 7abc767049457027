//! Metadata that are made here, most of them of 63 MiB and more, and are long on purpose: they are
//! rejected, whichever of their parts are shared, with no more counted than the limits allow.

use super::reading::MEMORY;
use super::shared::{Shared, fill, front, is_counted, metadata, push};
use crate::vectors::PLAIN;
use std::process::Abort;

/// The length in bytes of the longest metadata that a reader takes by default.
const MOST: u64 = 67_108_864;

/// 63 MiB.
const LONG: u32 = 66_060_288;

/// An offset to the bytes after it, at which there is a table without fields, whose vtable is before
/// it: repeated, it is a vector of such tables.
const EMPTY_TABLES: &[u8] = &[4, 0, 0, 0];

/// The number of these tables, all of which are readable.
const COUNT: u32 = 16_515_071;

fn is_refused(rt: &(impl Abort + AllocGlobal), mut bytes: Vec<u8>, filled: u32) {
    fill(rt, &mut bytes, EMPTY_TABLES, filled as usize);
    let len = bytes.len();
    assert!(rt; len >= 66_060_288 && len <= 67_108_864, "{len} bytes");
    is_counted(rt, &bytes, MOST, None);
}

/// The vector of the schema, which is also that of many fields.
#[test]
fn a_long_vector_of_pairs_is_refused(rt: HostRuntime) {
    is_refused(&rt, front(&rt, Shared([0, COUNT, 0], "o")), LONG);
}

#[test]
fn a_long_vector_of_many_fields_is_refused(rt: HostRuntime) {
    is_refused(&rt, front(&rt, Shared([10_000, COUNT, 0], "o")), LONG);
}

#[test]
fn a_long_vector_of_columns_is_refused(rt: HostRuntime) {
    let mut bytes = Vec::from_slice(rt.alloc(), &PLAIN[..60]).expect(&rt, MEMORY);
    push(&rt, &mut bytes, &[COUNT]);
    is_refused(&rt, bytes, LONG);
}

/// A short vector of pairs for many fields; a text as the name of all fields, and as the key of a
/// pair in many vectors; and how many bytes of names and keys may be read: two texts, and one.
static TEXTS: [(Shared, u64); 3] = [
    (Shared([2_000, 64, LONG], ""), MOST),
    (Shared([1_000, 0, 1_048_576], "n"), 2_097_152),
    (Shared([0, 1_000, 16_777_216], "ok"), 33_554_431),
];

#[test]
fn long_texts_are_refused(rt: HostRuntime) {
    for (shared, most) in &TEXTS {
        is_counted(&rt, &metadata(&rt, *shared), *most, None);
    }
}

/// The offsets of a vector of this many elements, to the bytes after it.
fn offsets(rt: &(impl Abort + AllocGlobal), width: u32) -> Vec<u8> {
    let mut bytes = Vec::new(rt.alloc());
    for number in 0..width {
        push(
            rt,
            &mut bytes,
            &[width.wrapping_sub(number).wrapping_mul(4)],
        );
    }
    bytes
}

/// A schema of one column: structs nested `depth` deep, each but the lowest with `width` children,
/// which are one and the same table.
fn nested(rt: &(impl Abort + AllocGlobal), depth: u32, width: u32) -> Vec<u8> {
    let offsets = offsets(rt, width);
    let mut bytes = Vec::from_slice(rt.alloc(), &PLAIN[..68]).expect(rt, MEMORY);
    // The vtable of all fields, with type code and children; the first field is at 88.
    push(rt, &mut bytes, &[0xc_0010, 0, 4, 0x8_0000, 0]);
    for _ in 1..depth {
        let place = u32::try_from(bytes.len()).expect(rt, "less than 2^32 bytes");
        push(rt, &mut bytes, &[place.wrapping_sub(68), 13, 4, width]);
        bytes.extend_from_slice(&offsets).expect(rt, MEMORY);
    }
    let place = u32::try_from(bytes.len()).expect(rt, "less than 2^32 bytes");
    push(rt, &mut bytes, &[place.wrapping_sub(68), 13, 4, 0]);
    bytes
}

#[test]
fn nested_sharing_is_refused(rt: HostRuntime) {
    is_refused(&rt, nested(&rt, 32, 540_000), 0);
}

/// The limit on levels is passed before the limit on fields.
#[test]
fn deep_sharing_is_refused(rt: HostRuntime) {
    is_refused(&rt, nested(&rt, 1_000, 16_700), 0);
}

/// No field below the lowest level is counted.
#[test]
fn a_field_on_level_33_is_refused(rt: HostRuntime) {
    let limits = arrow_types::Limits::standard();
    let reported = super::reading::reported(rt.alloc(), &nested(&rt, 33, 1), &limits);
    assert_eq!(rt; reported, (3, [32, 0, 0]));
}
