//! Floating-point numbers, against those that another program reads from their bits.

use super::making::{column, dictionary, listed, plain};
use arrow_data::Array;
use arrow_layout::{Value, half};
use arrow_types::Precision;
use std::num::{f64_from_bits_with_nan, f64_to_bits_with_nan};
use std::process::Abort;

const MEMORY: &str = "memory";

/// A type, the bits in its one slot, and those of the number of 64 bits that they mean.
static NUMBERS: [(&str, u64, u64); 38] = [
    ("halffloat", 0x0, 0x0000000000000000),
    ("halffloat", 0x8000, 0x8000000000000000),
    ("halffloat", 0x1, 0x3e70000000000000),
    ("halffloat", 0x3ff, 0x3f0ff80000000000),
    ("halffloat", 0x400, 0x3f10000000000000),
    ("halffloat", 0x3c00, 0x3ff0000000000000),
    ("halffloat", 0x3e00, 0x3ff8000000000000),
    ("halffloat", 0xbc01, 0xbff0040000000000),
    ("halffloat", 0x2e66, 0x3fb9980000000000),
    ("halffloat", 0x7bff, 0x40effc0000000000),
    ("halffloat", 0xfbff, 0xc0effc0000000000),
    ("halffloat", 0x7c00, 0x7ff0000000000000),
    ("halffloat", 0xfc00, 0xfff0000000000000),
    ("halffloat", 0x7c01, 0x7ff8000000000000),
    ("halffloat", 0xfe00, 0x7ff8000000000000),
    ("float", 0x0, 0x0000000000000000),
    ("float", 0x80000000, 0x8000000000000000),
    ("float", 0x1, 0x36a0000000000000),
    ("float", 0x7fffff, 0x380fffffc0000000),
    ("float", 0x800000, 0x3810000000000000),
    ("float", 0x3dcccccd, 0x3fb99999a0000000),
    ("float", 0xc2f6e979, 0xc05edd2f20000000),
    ("float", 0x7f7fffff, 0x47efffffe0000000),
    ("float", 0x7f800000, 0x7ff0000000000000),
    ("float", 0xff800000, 0xfff0000000000000),
    ("float", 0x7f800001, 0x7ff8000000000000),
    ("float", 0xffffffff, 0x7ff8000000000000),
    ("double", 0x0, 0x0000000000000000),
    ("double", 0x8000000000000000, 0x8000000000000000),
    ("double", 0x1, 0x0000000000000001),
    ("double", 0xfffffffffffff, 0x000fffffffffffff),
    ("double", 0x10000000000000, 0x0010000000000000),
    ("double", 0x3fb999999999999a, 0x3fb999999999999a),
    ("double", 0x7fefffffffffffff, 0x7fefffffffffffff),
    ("double", 0x7ff0000000000000, 0x7ff0000000000000),
    ("double", 0xfff0000000000000, 0xfff0000000000000),
    ("double", 0x7ff0000000000001, 0x7ff8000000000000),
    ("double", 0xffffffffffffffff, 0x7ff8000000000000),
];

/// The bits of the number in the first slot, the same bits for every NaN.
fn first_number(rt: &impl Abort, column: &Array) -> Option<u64> {
    assert!(rt; column.len() > 0);
    match column.float_at(0) {
        Some(number) => Some(f64_to_bits_with_nan(number)),
        None => None,
    }
}

#[test]
fn numbers_of_bits(rt: HostRuntime) {
    for (word, bits, expected) in &NUMBERS {
        let text = format!(in rt.alloc(); "{word}; 1; / l {}", bits.cast_signed());
        let column = plain(&rt, &text.expect(&rt, MEMORY));
        assert_eq!(rt;
            first_number(&rt, &column),
            Some(*expected),
            "{word} {bits}"
        );
        assert!(rt; column.len() > 0);
        assert_eq!(rt; column.int_at(0), Some(i128::from(*bits)), "{word} {bits}");
    }
}

/// Columns whose first slot has no floating-point number.
static OTHERS: [&str; 4] = [
    "double; 1; 254 / l 1",
    "uint64; 1; / l 4607182418800017408",
    "null; 1",
    "struct[1] double; 1 1; / / l 1",
];

#[test]
fn slots_without_a_number(rt: HostRuntime) {
    for text in &OTHERS {
        assert!(rt; first_number(&rt, &plain(&rt, text)).is_none(), "{text}");
    }
    let values = dictionary(&rt, &["double; 2; / l 1 4607182418800017408"]);
    let column = column(&rt, "by:0:uint64 double; 1; / l 1", &listed(&rt, values));
    let column = column.expect(&rt, "a column");
    assert!(rt; first_number(&rt, &column).is_none());
    assert!(rt; column.len() > 0);
    let (values, place) = column.resolved(0).expect(&rt, "a value");
    assert!(rt; values.float_at(place) == Some(1.0));
}

/// Numbers by their bits, and the bits of the nearest numbers of 16 and 32 bits.
static NEAREST: [(u64, u16, u32); 26] = [
    (0x0000000000000000, 0x0000, 0x00000000),
    (0x8000000000000000, 0x8000, 0x80000000),
    (0x3ff0000000000000, 0x3c00, 0x3f800000),
    (0xbff8000000000000, 0xbe00, 0xbfc00000),
    (0x3fb999999999999a, 0x2e66, 0x3dcccccd),
    (0x3e70000000000000, 0x0001, 0x33800000),
    (0x3e60000000000000, 0x0000, 0x33000000),
    (0x3e68000000000000, 0x0001, 0x33400000),
    (0x3e78000000000000, 0x0002, 0x33c00000),
    (0x3e84000000000000, 0x0002, 0x34200000),
    (0xbe60000000000000, 0x8000, 0xb3000000),
    (0x3f0ffc0000000000, 0x0400, 0x387fe000),
    (0x40effc0000000000, 0x7bff, 0x477fe000),
    (0x40effdffae147ae1, 0x7bff, 0x477feffd),
    (0x40effe0000000000, 0x7c00, 0x477ff000),
    (0xc0effe0000000000, 0xfc00, 0xc77ff000),
    (0x7e37e43c8800759c, 0x7c00, 0x7f800000),
    (0x40a0020000000000, 0x6800, 0x45001000),
    (0x40a0060000000000, 0x6802, 0x45003000),
    (0x3ff0020000000000, 0x3c00, 0x3f801000),
    (0x3ff0020000000001, 0x3c01, 0x3f801000),
    (0x7ff0000000000000, 0x7c00, 0x7f800000),
    (0xfff0000000000000, 0xfc00, 0xff800000),
    (0x4170000010000000, 0x7c00, 0x4b800000),
    (0x47effffff0000000, 0x7c00, 0x7f800000),
    (0x7ff8000000000000, 0x7e00, 0x7fc00000),
];

fn has_bits(rt: &impl Abort, precision: Precision, number: f64, expected: u64) {
    let value = Value::float(precision, number);
    assert!(rt;
        value == Value::Int(i128::from(expected)),
        "{expected} {precision:?}"
    );
}

#[test]
fn values_of_numbers(rt: HostRuntime) {
    for (bits, half, single) in &NEAREST {
        let number = f64_from_bits_with_nan(*bits);
        has_bits(&rt, Precision::Half, number, u64::from(*half));
        has_bits(&rt, Precision::Single, number, u64::from(*single));
        has_bits(&rt, Precision::Double, number, *bits);
    }
}

#[test]
fn each_half_is_its_own_nearest(rt: HostRuntime) {
    for size in 0..=0x7c00u16 {
        for bits in [size, 0x8000 + size] {
            let number = f64::from(half::to_single(bits));
            assert_eq!(rt; half::nearest(number), bits);
        }
    }
}
