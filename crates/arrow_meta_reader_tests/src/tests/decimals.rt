//! Columns of decimals: which widths, precisions and scales are read, and as what.

use super::reading::{Edits, edited, reported};
use arrow_meta_reader::{Header, decode};
use arrow_types::DecimalWidth::{OneHundredTwentyEight, SixtyFour, ThirtyTwo, TwoHundredFiftySix};
use arrow_types::{DataType, DecimalWidth, Limits, TypeSet};
use std::alloc::Global;

/// One column `n` of decimals of 128 bits, of precision 38 and scale 10. The precision is at byte
/// 132, the scale at 136 and the number of bits at 140, each in four bytes; their offsets in the
/// table are given at 118, 120 and 122.
const DECIMAL: &[u8; 152] = b"\x10\0\0\0\x0c\0\x18\0\x04\0\x06\0\x08\0\x10\0\x0c\0\0\0\x04\0\x01\0\
    \x18\0\0\0\0\0\0\0\0\0\0\0\0\0\0\0\x08\0\x0c\0\x04\0\x08\0\x08\0\0\0\0\0\0\0\x04\0\0\0\x01\0\0\
    \0\x18\0\0\0\x10\0\x14\0\x04\0\x08\0\t\0\x0c\0\0\0\x10\0\0\0\0\0\x14\0\0\0\x10\0\0\0\x01\x07\0\
    \0\x1c\0\0\0(\0\0\0\x01\0\0\0n\0\n\0\x10\0\x04\0\x08\0\x0c\0\0\0\0\0\x0e\0\0\0&\0\0\0\n\0\0\0\
    \x80\0\0\0\0\0\0\0\0\0\0\0";

/// The same with 32 bits, precision 9 and scale 2, and a column `c` of nulls below it.
const WITH_CHILD: &[u8; 208] = b"\x10\0\0\0\x0c\0\x18\0\x04\0\x06\0\x08\0\x10\0\x0c\0\0\0\x04\0\
    \x01\0\x18\0\0\0\0\0\0\0\0\0\0\0\0\0\0\0\x08\0\x0c\0\x04\0\x08\0\x08\0\0\0\0\0\0\0\x04\0\0\0\
    \x01\0\0\0\x18\0\0\0\x10\0\x14\0\x04\0\x08\0\t\0\x0c\0\0\0\x10\0\0\0\0\0\x14\0\0\0\x10\0\0\0\
    \x01\x07\0\0\x1c\0\0\0(\0\0\0\x01\0\0\0n\0\n\0\x10\0\x04\0\x08\0\x0c\0\0\0\0\0\x0e\0\0\0\t\0\0\
    \0\x02\0\0\0\x20\0\0\0\x01\0\0\0\x14\0\0\0\x10\0\x14\0\x04\0\x08\0\t\0\x0c\0\0\0\x10\0\x10\0\0\
    \0\x10\0\0\0\x01\x01\0\0\x14\0\0\0\x14\0\0\0\x01\0\0\0c\0\x04\0\x04\0\0\0\x06\0\0\0\0\0\0\0";

/// A width, a precision and a scale.
type Numbers = (DecimalWidth, u8, i8);

/// Other bytes of the first, and the decimals that they give; none if there are no such decimals.
static DECIMALS: [(Edits, Option<Numbers>); 36] = [
    ("", Some((OneHundredTwentyEight, 38, 10))),
    // The least and the greatest precision of each width, and those next to them.
    ("132=0", None),
    ("132=1", Some((OneHundredTwentyEight, 1, 10))),
    ("132=39", None),
    ("140=32 132=0", None),
    ("140=32 132=9", Some((ThirtyTwo, 9, 10))),
    ("140=32 132=10", None),
    ("140=64 132=0", None),
    ("140=64 132=18", Some((SixtyFour, 18, 10))),
    ("140=64 132=19", None),
    ("140=0 141=1 132=0", None),
    ("140=0 141=1 132=76", Some((TwoHundredFiftySix, 76, 10))),
    ("140=0 141=1 132=77", None),
    // Precisions of more than one byte, and a negative one.
    ("132=1 133=1", None),
    ("132=1 134=1", None),
    ("135=128", None),
    // Scales up to 76, down to -76, and those next to them.
    ("136=0", Some((OneHundredTwentyEight, 38, 0))),
    ("136=76", Some((OneHundredTwentyEight, 38, 76))),
    ("136=77", None),
    (
        "136=255 137=255 138=255 139=255",
        Some((OneHundredTwentyEight, 38, -1)),
    ),
    (
        "136=180 137=255 138=255 139=255",
        Some((OneHundredTwentyEight, 38, -76)),
    ),
    ("136=179 137=255 138=255 139=255", None),
    // Only the lowest byte of -76, and scales in which only the other bytes are too great.
    ("136=180", None),
    ("137=1", None),
    ("139=1", None),
    ("139=128", None),
    // Other numbers of bits, with a precision that each width allows.
    ("140=0 132=1", None),
    ("140=16 132=1", None),
    ("140=127 132=1", None),
    ("140=0 141=2 132=1", None),
    ("143=128 132=1", None),
    // No precision, no scale, no number of bits, and none of them.
    ("118=0", None),
    ("120=0", Some((OneHundredTwentyEight, 38, 0))),
    ("122=0", Some((OneHundredTwentyEight, 38, 10))),
    ("122=0 140=32 132=38", Some((OneHundredTwentyEight, 38, 10))),
    ("118=0 120=0 122=0", None),
];

/// The decimals of the first column of a schema.
fn numbers(header: &Header) -> Option<Numbers> {
    let Header::Schema(schema) = header else {
        return None;
    };
    match &schema.fields().first()?.data_type {
        DataType::Decimal {
            width,
            precision,
            scale,
        } => Some((*width, *precision, *scale)),
        _ => None,
    }
}

/// The same for the schema that the bytes mean to a reader of all types.
fn read(alloc: Global, bytes: &[u8]) -> Option<Numbers> {
    let limits = Limits::standard().with_types(TypeSet::All);
    match decode(alloc, bytes, &limits) {
        Ok(message) => numbers(&message.header),
        Err(_) => None,
    }
}

#[test]
fn widths_precisions_and_scales_of_decimals(rt: HostRuntime) {
    let all = Limits::standard().with_types(TypeSet::All);
    for (edits, expected) in &DECIMALS {
        let bytes = edited(&rt, rt.alloc(), DECIMAL, edits);
        assert!(rt; read(rt.alloc(), &bytes) == *expected, "{edits}");
        let (fault, _) = reported(rt.alloc(), &bytes, &all);
        assert_eq!(rt; fault, if expected.is_some() { 0 } else { 9 }, "{edits}");
        let (fault, _) = reported(rt.alloc(), &bytes, &Limits::standard());
        assert_eq!(rt; fault, 8, "{edits} by a reader of the core");
    }
}

#[test]
fn decimals_have_no_children(rt: HostRuntime) {
    let all = Limits::standard().with_types(TypeSet::All);
    let (fault, _) = reported(rt.alloc(), WITH_CHILD, &all);
    assert_eq!(rt; fault, 9);
}
