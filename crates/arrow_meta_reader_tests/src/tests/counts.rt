//! How many fields, pairs and bytes of names, zones, keys and values are read, and limits on them.

use super::reading::{Edits, edited, reported};
use crate::foreign;
use crate::vectors::{
    ABSENT, AT_BOTH, AT_COLUMN, AT_MESSAGE, AT_SCHEMA, FILLED, LEVELS, NO_PAIRS, PLAIN, ROWS,
    SHARED, WORDS,
};
use arrow_meta_reader::decode_counted;
use arrow_meta_tree::{DecodeCost, tree_counted};
use arrow_types::Limits;
use std::process::Abort;

/// Bytes of metadata that are changed, the number of the fault, and what was counted.
type Row = (Edits, u8, [u64; 3]);

/// Metadata, and rows for each: of the ten fields of `LEVELS` the names have 19 bytes and the zone
/// 3, and of the twelve pairs the keys have 33 and the values 20. What is absent is not counted.
static COUNTS: [(&[u8], &[Row]); 14] = [
    (PLAIN, &[("", 0, [1, 0, 1])]),
    (ROWS, &[("", 0, [0, 0, 0])]),
    (WORDS, &[("", 0, [0, 0, 0])]),
    (
        AT_SCHEMA,
        &[
            ("", 0, [1, 1, 3]),
            ("164=0", 0, [1, 1, 2]),
            ("48=0", 0, [1, 0, 1]),
            ("46=0", 0, [0, 1, 2]),
            ("188=8", 0, [1, 1, 10]),
            ("116=0", 0, [1, 1, 2]),
        ],
    ),
    (AT_COLUMN, &[("", 0, [1, 1, 3])]),
    (AT_BOTH, &[("", 0, [1, 2, 5])]),
    // The pairs of a message are not inspected.
    (AT_MESSAGE, &[("", 0, [1, 0, 1]), ("167=255", 0, [1, 0, 1])]),
    (NO_PAIRS, &[("", 0, [1, 0, 1])]),
    (ABSENT, &[("", 0, [1, 3, 3])]),
    (FILLED, &[("", 0, [1, 3, 3])]),
    (
        LEVELS,
        &[
            ("", 0, [10, 12, 75]),
            // The second pair of three is the first one, and the last one is not there.
            ("424=16", 0, [10, 12, 75]),
            ("416=2", 0, [10, 11, 70]),
            // Everything was read before a fault whose kind comes after that of unreadable
            // metadata.
            ("20=2", 4, [10, 12, 75]),
            ("39=128", 6, [10, 12, 75]),
            ("60=1", 8, [10, 12, 75]),
            ("129=7", 8, [10, 12, 75]),
            ("404=24", 9, [10, 12, 75]),
            // No header is opened.
            ("22=0", 5, [0, 0, 0]),
        ],
    ),
    (
        SHARED,
        &[
            ("", 0, [4, 2, 14]),
            ("116=120 376=121", 0, [4, 2, 14]),
            ("312=108", 0, [4, 2, 14]),
            ("496=106", 9, [4, 2, 14]),
            ("520=0", 9, [4, 2, 14]),
        ],
    ),
    (foreign::ABSENT, &[("", 0, [1, 3, 3])]),
    (foreign::LEVELS, &[("", 0, [10, 12, 75])]),
];

fn are_counted(rt: &(impl Abort + AllocGlobal), bytes: &[u8], rows: &[Row]) {
    for (edits, fault, expected) in rows {
        let bytes = edited(rt, rt.alloc(), bytes, edits);
        let answer = reported(rt.alloc(), &bytes, &Limits::standard());
        assert_eq!(rt; answer, (*fault, *expected), "{edits:?}");
    }
}

#[test]
fn what_is_read_is_counted(rt: HostRuntime) {
    for (bytes, rows) in &COUNTS {
        are_counted(&rt, bytes, rows);
    }
}

/// The schema's own pairs come after everything else: the last value ends at 1449, and zero bytes
/// follow.
#[test]
fn metadata_that_are_cut_off(rt: HostRuntime) {
    for end in 0..LEVELS.len() {
        let (fault, work) = reported(rt.alloc(), &LEVELS[..end], &Limits::standard());
        assert_eq!(rt; fault, if end < 1449 { 3 } else { 0 }, "{end} bytes");
        assert!(rt;
            work[0] <= 10 && work[1] <= 12 && work[2] <= 75,
            "{end} bytes"
        );
    }
}

/// Counts that begin with these numbers end up the same.
fn is_anew(rt: &(impl Abort + AllocGlobal), begun: u64) {
    let limits = Limits::standard();
    let mut work = DecodeCost {
        fields: begun,
        pairs: begun,
        bytes: begun,
    };
    assert!(rt; decode_counted(rt.alloc(), LEVELS, &limits, &mut work).is_ok());
    assert_eq!(rt; [work.fields, work.pairs, work.bytes], [10, 12, 75]);
    assert!(rt; decode_counted(rt.alloc(), ROWS, &limits, &mut work).is_ok());
    assert!(rt; work == DecodeCost::NONE);
    assert!(rt; tree_counted(rt.alloc(), AT_BOTH, &limits, &mut work).is_ok());
    assert_eq!(rt; [work.fields, work.pairs, work.bytes], [1, 2, 5]);
    assert!(rt; decode_counted(rt.alloc(), &[], &limits, &mut work).is_err());
    assert!(rt; work == DecodeCost::NONE);
}

#[test]
fn the_work_begins_at_nothing(rt: HostRuntime) {
    for begun in [0, 1, 65_536, u64::MAX] {
        is_anew(&rt, begun);
    }
}

/// How many bytes names, zones, keys and values have together.
static BYTES: [(&[u8], u64); 9] = [
    (PLAIN, 1),
    (AT_MESSAGE, 1),
    (AT_SCHEMA, 3),
    (AT_COLUMN, 3),
    (AT_BOTH, 5),
    (FILLED, 3),
    (LEVELS, 75),
    (foreign::ABSENT, 3),
    (foreign::LEVELS, 75),
];

/// With this many bytes allowed, these are read or not.
fn is_limited(rt: &(impl Abort + AllocGlobal), bytes: &[u8], most: u64, count: u64) {
    let limits = Limits::new(most, 0, 0).expect(rt, "within the ceilings");
    let (fault, work) = reported(rt.alloc(), bytes, &limits);
    let expected = if count <= most { 0 } else { 3 };
    assert_eq!(rt; fault, expected, "of {most} bytes");
    assert!(rt;
        work[2] <= most && (fault > 0 || work[2] == count),
        "of {most} bytes"
    );
}

#[test]
fn names_zones_keys_and_values_keep_to_the_limit(rt: HostRuntime) {
    for (bytes, count) in &BYTES {
        for most in 0..77 {
            is_limited(&rt, bytes, most, *count);
        }
    }
}

/// Metadata, the greatest numbers of bytes of metadata and of a body, the number of the fault, and
/// what was counted: a limit of two bytes lets the name and the key be read, but not the value.
static LIMITED: [(&[u8], [u64; 2], u8, [u64; 3]); 3] = [
    (AT_SCHEMA, [2, 0], 3, [1, 1, 2]),
    (ROWS, [1, 24], 0, [0, 0, 0]),
    (ROWS, [1, 23], 6, [0, 0, 0]),
];

#[test]
fn limits_are_kept(rt: HostRuntime) {
    for &(bytes, [most, most_body], fault, expected) in &LIMITED {
        let limits = Limits::new(most, most_body, 0).expect(&rt, "within the ceilings");
        assert_eq!(rt; reported(rt.alloc(), bytes, &limits), (fault, expected));
    }
}
