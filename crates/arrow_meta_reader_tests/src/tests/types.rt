//! The codes of types that are read (Schema.fbs, `union Type`), and which of them may have two children.

use super::reading::{MEMORY, reported};
use crate::vectors::LEVELS;
use arrow_types::{Limits, TypeSet};
use std::process::Abort;

const READ: [u8; 15] = [1, 2, 4, 5, 6, 8, 9, 10, 12, 13, 15, 18, 19, 20, 21];

/// Those that are only in the set of all types: FloatingPoint, Decimal, Interval, FixedSizeList and
/// Map.
const LATE: [u8; 5] = [3, 7, 11, 16, 17];

/// A column of two children, and of a type with this code whose fields are all absent.
fn column(rt: &(impl Abort + AllocGlobal), code: u8) -> Vec<u8> {
    let mut bytes = Vec::from_slice(rt.alloc(), LEVELS).expect(rt, MEMORY);
    *bytes.get_mut(825).expect(rt, "the code of the column s") = code;
    bytes
}

#[test]
fn codes_of_types(rt: HostRuntime) {
    for code in 0..=u8::MAX {
        let expected = match code {
            13 => 0,
            _ if READ.contains(&code) => 9,
            _ => 8,
        };
        let (fault, _) = reported(rt.alloc(), &column(&rt, code), &Limits::standard());
        assert_eq!(rt; fault, expected, "{code}");
        let expected = if LATE.contains(&code) { 9 } else { expected };
        let all = Limits::standard().with_types(TypeSet::All);
        let (fault, _) = reported(rt.alloc(), &column(&rt, code), &all);
        assert_eq!(rt; fault, expected, "{code} of all types");
    }
}
