//! Decimals that are pushed, and read back from the column.

use super::building::{array, builder};
use super::reported::is_number;
use arrow_builder::{ArrayBuilder, PushFault};
use arrow_data::Array;
use arrow_layout::{Decimal, Value};
use std::process::Abort;

const MEMORY: &str = "memory";

/// The bits of a whole number above its lowest 128 bits, and these as an unsigned number.
type Halves = (i128, u128);

/// The type of a column of at most 128 bits and its scale; whole numbers, and the parts of the
/// decimals of them. No check rejects a number that has more digits than the precision.
static NUMBERS: [(&str, i8, &[(i128, Halves)]); 4] = [
    (
        "decimal[32:9:2]",
        2,
        &[
            (125, (0, 125)),
            (
                -125,
                (-1, 340_282_366_920_938_463_463_374_607_431_768_211_331),
            ),
            (1_000_000_000, (0, 1_000_000_000)),
            (
                -2_147_483_648,
                (-1, 340_282_366_920_938_463_463_374_607_429_620_727_808),
            ),
        ],
    ),
    (
        "decimal[64:1:-76]",
        -76,
        &[
            (0, (0, 0)),
            (9_223_372_036_854_775_807, (0, 9_223_372_036_854_775_807)),
            (
                -1,
                (-1, 340_282_366_920_938_463_463_374_607_431_768_211_455),
            ),
        ],
    ),
    (
        "decimal[128:38:76]",
        76,
        &[
            (18_446_744_073_709_551_616, (0, 18_446_744_073_709_551_616)),
            (
                170_141_183_460_469_231_731_687_303_715_884_105_727,
                (0, 170_141_183_460_469_231_731_687_303_715_884_105_727),
            ),
            (
                -170_141_183_460_469_231_731_687_303_715_884_105_728,
                (-1, 170_141_183_460_469_231_731_687_303_715_884_105_728),
            ),
        ],
    ),
    (
        "decimal[128:1:0]!",
        0,
        &[(
            -10,
            (-1, 340_282_366_920_938_463_463_374_607_431_768_211_446),
        )],
    ),
];

/// Puts a null after the numbers.
fn push_numbers(rt: &impl Abort, column: &mut ArrayBuilder, rows: &[(i128, Halves)]) {
    for (number, _) in rows {
        column
            .push(&Value::Int(*number))
            .expect(rt, "a value that fits");
    }
    column.push(&Value::Null).expect(rt, "a null fits");
}

/// The decimal in slot `i`.
fn decimal_in(rt: &impl Abort, column: &Array, i: usize) -> Option<Decimal> {
    assert!(rt; i < column.len());
    column.decimal_at(i)
}

/// That the slots have the decimals of these numbers, and the last is null.
fn have_numbers(rt: &impl Abort, column: &Array, scale: i8, rows: &[(i128, Halves)]) {
    is_number(rt, "slots", column.len(), rows.len().saturating_add(1));
    for (i, (number, (high, low))) in rows.iter().enumerate() {
        let expected = Decimal {
            high: *high,
            low: *low,
            scale,
        };
        assert_eq!(rt; decimal_in(rt, column, i), Some(expected), "{number}");
    }
    assert!(rt; decimal_in(rt, column, rows.len()).is_none(), "{scale}");
}

#[test]
fn numbers_come_back(rt: HostRuntime) {
    for (words, scale, rows) in &NUMBERS {
        let mut column = builder(&rt, words);
        push_numbers(&rt, &mut column, rows);
        have_numbers(&rt, &array(&rt, &column), *scale, rows);
    }
}

/// The halves of whole numbers of 256 bits: of 1.25, of -1.25, of 10^57, of the greatest number of 76
/// digits, and of the greatest and the least number.
static WIDE: [Halves; 6] = [
    (0, 125),
    (-1, 340_282_366_920_938_463_463_374_607_431_768_211_331),
    (
        2_938_735_877_055_718_769,
        313_686_354_140_541_217_734_174_016_852_339_982_336,
    ),
    (
        29_387_358_770_557_187_699_218_413_430_556_141_945,
        158_788_995_957_577_343_786_214_718_011_688_878_079,
    ),
    (
        170_141_183_460_469_231_731_687_303_715_884_105_727,
        340_282_366_920_938_463_463_374_607_431_768_211_455,
    ),
    (-170_141_183_460_469_231_731_687_303_715_884_105_728, 0),
];

fn wide((high, low): Halves) -> Decimal {
    Decimal {
        high,
        low,
        scale: 2,
    }
}

/// A value of 256 bits for each, and a null after them.
fn push_wide(rt: &(impl Abort + AllocGlobal), column: &mut ArrayBuilder) {
    for halves in &WIDE {
        let value = Value::wide_decimal(rt.alloc(), wide(*halves)).expect(rt, MEMORY);
        column.push(&value).expect(rt, "a value that fits");
    }
    column.push(&Value::Null).expect(rt, "a null fits");
}

#[test]
fn numbers_of_256_bits_come_back(rt: HostRuntime) {
    let mut column = builder(&rt, "decimal[256:76:2]");
    push_wide(&rt, &mut column);
    let column = array(&rt, &column);
    is_number(&rt, "slots", column.len(), 7);
    for (i, halves) in WIDE.iter().enumerate() {
        assert_eq!(rt; decimal_in(&rt, &column, i), Some(wide(*halves)));
    }
    assert!(rt; decimal_in(&rt, &column, 6).is_none());
}

/// Types of fewer bits.
static NARROW: [&str; 3] = ["decimal[32:9:2]", "decimal[64:18:2]", "decimal[128:38:2]"];

#[test]
fn bytes_are_no_decimals_of_fewer_bits(rt: HostRuntime) {
    let value = Value::wide_decimal(rt.alloc(), wide((0, 125))).expect(&rt, MEMORY);
    for words in &NARROW {
        let mut column = builder(&rt, words);
        assert!(rt;
            column.push(&value) == Err(PushFault::DoesNotFit),
            "{words}"
        );
        is_number(&rt, words, column.len(), 0);
    }
}
