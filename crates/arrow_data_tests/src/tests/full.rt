//! Slots between two nulls, and the bytes of their values.

use super::making::plain;
use arrow_data::Array;
use std::process::Abort;

/// The first null after each null, at last the end, and the bytes of the values before it.
type Runs = &'static [(usize, &'static [u8])];

static COLUMNS: [(&str, Runs); 9] = [
    // 1, null with a 9 under it, and 3.
    (
        "int32; 3; 253 / i 1 9 3 7",
        &[(1, &[1, 0, 0, 0]), (3, &[3, 0, 0, 0])],
    ),
    // -2, null with nines under it, and 3 * 2^64 + 1.
    (
        "decimal[128:38:2]; 3; 253 / l -2 -1 9 9 1 3",
        &[
            (
                1,
                &[
                    254, 255, 255, 255, 255, 255, 255, 255, 255, 255, 255, 255, 255, 255, 255, 255,
                ],
            ),
            (3, &[1, 0, 0, 0, 0, 0, 0, 0, 3, 0, 0, 0, 0, 0, 0, 0]),
        ],
    ),
    // Without a bitmap there are no nulls.
    ("uint8; 3; / 7 8 255 9", &[(3, &[7, 8, 255])]),
    ("utf8; 3; 5 / i 0 1 1 3 / 'abc'", &[(1, b"a"), (3, b"bc")]),
    // Byte strings that begin at the second byte and end before the last.
    ("binary; 2; / i 1 3 4 / '?abc?'", &[(2, b"abc")]),
    (
        "fixed_size_binary[2]; 2; 1 / 1 2 3 4",
        &[(1, &[1, 2]), (2, &[])],
    ),
    // Truth values have no bytes of their own.
    ("bool; 4; 251 / 249", &[(2, &[]), (4, &[])]),
    ("null; 2", &[(0, &[]), (1, &[]), (2, &[])]),
    ("utf8; 0; / /", &[(0, &[])]),
];

/// Whether the slots between nulls are these.
fn has_runs(column: &Array, runs: &[(usize, &[u8])]) -> bool {
    let len = column.len();
    let mut start = 0;
    for (stop, bytes) in runs {
        if start > len {
            return false;
        }
        let end = column.first_null(start, len);
        if end != *stop || column.value_bytes(start, end) != *bytes {
            return false;
        }
        start = end.saturating_add(1);
    }
    start > len
}

fn are_runs(rt: &impl Abort, name: &str, column: &Array, runs: &[(usize, &[u8])]) {
    assert!(rt; has_runs(column, runs), "{name}");
}

#[test]
fn slots_between_nulls(rt: HostRuntime) {
    for (text, runs) in &COLUMNS {
        are_runs(&rt, text, &plain(&rt, text), runs);
    }
}
