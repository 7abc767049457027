//! Decimals, by bytes that are written out. Their numbers are those of Python.

use super::making::{column, dictionary, listed, plain};
use arrow_data::Array;
use arrow_layout::{Decimal, Value, decimals};
use std::process::Abort;

const MEMORY: &str = "memory";

/// The bits above the lowest 128 bits of a whole number, these bits as an unsigned number, and the
/// scale.
type Parts = (i128, u128, i8);

fn decimal((high, low, scale): Parts) -> Decimal {
    Decimal { high, low, scale }
}

/// The decimal in slot `i`.
fn decimal_in(rt: &impl Abort, column: &Array, i: usize) -> Option<Decimal> {
    assert!(rt; i < column.len());
    column.decimal_at(i)
}

/// Types of at most 128 bits, the bytes of one slot, and the decimal there: its whole number, and its
/// parts.
static NUMBERS: [(&str, &str, i128, Parts); 20] = [
    ("decimal[32:9:2]", "125 0 0 0", 125, (0, 125, 2)),
    (
        "decimal[32:9:2]",
        "131 255 255 255",
        -125,
        (-1, 340_282_366_920_938_463_463_374_607_431_768_211_331, 2),
    ),
    ("decimal[32:9:0]", "0 0 0 0", 0, (0, 0, 0)),
    ("decimal[32:9:76]", "1 0 0 0", 1, (0, 1, 76)),
    (
        "decimal[32:9:-76]",
        "255 255 255 255",
        -1,
        (-1, 340_282_366_920_938_463_463_374_607_431_768_211_455, -76),
    ),
    (
        "decimal[32:9:9]",
        "255 255 255 127",
        2_147_483_647,
        (0, 2_147_483_647, 9),
    ),
    (
        "decimal[32:9:0]",
        "0 0 0 128",
        -2_147_483_648,
        (-1, 340_282_366_920_938_463_463_374_607_429_620_727_808, 0),
    ),
    (
        "decimal[32:9:2]",
        "0 202 154 59",
        1_000_000_000,
        (0, 1_000_000_000, 2),
    ),
    ("decimal[64:18:2]", "125 0 0 0 0 0 0 0", 125, (0, 125, 2)),
    (
        "decimal[64:18:2]",
        "131 255 255 255 255 255 255 255",
        -125,
        (-1, 340_282_366_920_938_463_463_374_607_431_768_211_331, 2),
    ),
    (
        "decimal[64:18:-3]",
        "255 255 255 255 255 255 255 127",
        9_223_372_036_854_775_807,
        (0, 9_223_372_036_854_775_807, -3),
    ),
    (
        "decimal[64:18:0]",
        "0 0 0 0 0 0 0 128",
        -9_223_372_036_854_775_808,
        (-1, 340_282_366_920_938_463_454_151_235_394_913_435_648, 0),
    ),
    (
        "decimal[64:18:18]",
        "0 0 100 167 179 182 224 13",
        1_000_000_000_000_000_000,
        (0, 1_000_000_000_000_000_000, 18),
    ),
    (
        "decimal[128:38:2]",
        "125 0 0 0 0 0 0 0 0 0 0 0 0 0 0 0",
        125,
        (0, 125, 2),
    ),
    (
        "decimal[128:38:2]",
        "131 255 255 255 255 255 255 255 255 255 255 255 255 255 255 255",
        -125,
        (-1, 340_282_366_920_938_463_463_374_607_431_768_211_331, 2),
    ),
    (
        "decimal[128:38:0]",
        "255 255 255 255 255 255 255 255 255 255 255 255 255 255 255 127",
        170_141_183_460_469_231_731_687_303_715_884_105_727,
        (0, 170_141_183_460_469_231_731_687_303_715_884_105_727, 0),
    ),
    (
        "decimal[128:38:38]",
        "0 0 0 0 0 0 0 0 0 0 0 0 0 0 0 128",
        -170_141_183_460_469_231_731_687_303_715_884_105_728,
        (-1, 170_141_183_460_469_231_731_687_303_715_884_105_728, 38),
    ),
    (
        "decimal[128:38:10]",
        "255 255 255 255 63 34 138 9 122 196 134 90 168 76 59 75",
        99_999_999_999_999_999_999_999_999_999_999_999_999,
        (0, 99_999_999_999_999_999_999_999_999_999_999_999_999, 10),
    ),
    (
        "decimal[128:38:-1]",
        "0 0 0 0 0 0 0 0 1 0 0 0 0 0 0 0",
        18_446_744_073_709_551_616,
        (0, 18_446_744_073_709_551_616, -1),
    ),
    (
        "decimal[128:38:76]",
        "0 0 0 0 0 0 0 0 255 255 255 255 255 255 255 255",
        -18_446_744_073_709_551_616,
        (-1, 340_282_366_920_938_463_444_927_863_358_058_659_840, 76),
    ),
];

/// Asserts that the first slot has the decimal, as a number.
fn is_number(rt: &impl Abort, column: &Array, number: i128, expected: Decimal) {
    assert_eq!(rt; decimal_in(rt, column, 0), Some(expected), "{number}");
    assert!(rt; column.len() > 0);
    assert_eq!(rt; column.int_at(0), Some(number));
    assert!(rt; column.bytes_at(0).is_none(), "{number}");
    assert_eq!(rt; decimals::of_number(expected.scale, number), expected);
    assert_eq!(rt; expected.unscaled(), Some(number));
}

#[test]
fn decimals_of_at_most_128_bits(rt: HostRuntime) {
    for (of, bytes, number, parts) in &NUMBERS {
        let text = format!(in rt.alloc(); "{of}; 1; / {bytes}").expect(&rt, MEMORY);
        is_number(&rt, &plain(&rt, &text), *number, decimal(*parts));
    }
}

/// The bytes of one slot of 256 bits, the decimal there by its parts, and its whole number if it
/// fits 128 bits.
static WIDE: [(&str, Parts, Option<i128>); 17] = [
    (
        "0 0 0 0 0 0 0 0 0 0 0 0 0 0 0 0 0 0 0 0 0 0 0 0 0 0 0 0 0 0 0 0",
        (0, 0, 2),
        Some(0),
    ),
    (
        "125 0 0 0 0 0 0 0 0 0 0 0 0 0 0 0 0 0 0 0 0 0 0 0 0 0 0 0 0 0 0 0",
        (0, 125, 2),
        Some(125),
    ),
    (
        "131 255 255 255 255 255 255 255 255 255 255 255 255 255 255 255 \
         255 255 255 255 255 255 255 255 255 255 255 255 255 255 255 255",
        (-1, 340_282_366_920_938_463_463_374_607_431_768_211_331, 2),
        Some(-125),
    ),
    (
        "255 255 255 255 255 255 255 255 255 255 255 255 255 255 255 127 \
         0 0 0 0 0 0 0 0 0 0 0 0 0 0 0 0",
        (0, 170_141_183_460_469_231_731_687_303_715_884_105_727, 0),
        Some(170_141_183_460_469_231_731_687_303_715_884_105_727),
    ),
    (
        "0 0 0 0 0 0 0 0 0 0 0 0 0 0 0 128 \
         255 255 255 255 255 255 255 255 255 255 255 255 255 255 255 255",
        (-1, 170_141_183_460_469_231_731_687_303_715_884_105_728, 0),
        Some(-170_141_183_460_469_231_731_687_303_715_884_105_728),
    ),
    (
        "0 0 0 0 0 0 0 0 0 0 0 0 0 0 0 128 0 0 0 0 0 0 0 0 0 0 0 0 0 0 0 0",
        (0, 170_141_183_460_469_231_731_687_303_715_884_105_728, 0),
        None,
    ),
    (
        "255 255 255 255 255 255 255 255 255 255 255 255 255 255 255 127 \
         255 255 255 255 255 255 255 255 255 255 255 255 255 255 255 255",
        (-1, 170_141_183_460_469_231_731_687_303_715_884_105_727, 0),
        None,
    ),
    (
        "0 0 0 0 0 0 0 0 0 0 0 0 0 0 0 0 1 0 0 0 0 0 0 0 0 0 0 0 0 0 0 0",
        (1, 0, -3),
        None,
    ),
    (
        "0 0 0 0 0 0 0 0 0 0 0 0 0 0 0 0 \
         255 255 255 255 255 255 255 255 255 255 255 255 255 255 255 255",
        (-1, 0, 1),
        None,
    ),
    (
        "0 0 0 0 0 0 0 74 131 218 74 134 84 203 253 235 \
         113 37 154 200 181 124 200 40 0 0 0 0 0 0 0 0",
        (
            2_938_735_877_055_718_769,
            313_686_354_140_541_217_734_174_016_852_339_982_336,
            0,
        ),
        None,
    ),
    (
        "255 255 255 255 255 255 255 255 255 15 149 113 241 165 117 119 \
         121 41 101 232 171 180 100 7 181 21 153 17 167 204 27 22",
        (
            29_387_358_770_557_187_699_218_413_430_556_141_945,
            158_788_995_957_577_343_786_214_718_011_688_878_079,
            76,
        ),
        None,
    ),
    (
        "1 0 0 0 0 0 0 0 0 240 106 142 14 90 138 136 \
         134 214 154 23 84 75 155 248 74 234 102 238 88 51 228 233",
        (
            -29_387_358_770_557_187_699_218_413_430_556_141_946,
            181_493_370_963_361_119_677_159_889_420_079_333_377,
            -76,
        ),
        None,
    ),
    (
        "0 0 0 0 0 0 0 0 0 16 149 113 241 165 117 119 \
         121 41 101 232 171 180 100 7 181 21 153 17 167 204 27 22",
        (
            29_387_358_770_557_187_699_218_413_430_556_141_945,
            158_788_995_957_577_343_786_214_718_011_688_878_080,
            0,
        ),
        None,
    ),
    (
        "255 255 255 255 255 255 255 255 255 255 255 255 255 255 255 255 \
         255 255 255 255 255 255 255 255 255 255 255 255 255 255 255 127",
        (
            170_141_183_460_469_231_731_687_303_715_884_105_727,
            340_282_366_920_938_463_463_374_607_431_768_211_455,
            0,
        ),
        None,
    ),
    (
        "0 0 0 0 0 0 0 0 0 0 0 0 0 0 0 0 0 0 0 0 0 0 0 0 0 0 0 0 0 0 0 128",
        (-170_141_183_460_469_231_731_687_303_715_884_105_728, 0, 76),
        None,
    ),
    (
        "1 2 3 4 5 6 7 8 9 10 11 12 13 14 15 16 \
         17 18 19 20 21 22 23 24 25 26 27 28 29 30 31 32",
        (
            42_696_867_846_335_054_569_745_073_772_176_806_417,
            21_345_817_372_864_405_881_847_059_188_222_722_561,
            5,
        ),
        None,
    ),
    (
        "255 253 252 251 250 249 248 247 246 245 244 243 242 241 240 239 \
         238 237 236 235 234 233 232 231 230 229 228 227 226 225 224 223",
        (
            -42_696_867_846_335_054_569_745_073_772_176_806_418,
            318_936_549_548_074_057_581_527_548_243_545_488_895,
            5,
        ),
        None,
    ),
];

/// Asserts that the first slot has the decimal, as bytes: those of the value that is made of it.
fn is_wide(
    rt: &(impl Abort + AllocGlobal),
    column: &Array,
    expected: Decimal,
    unscaled: Option<i128>,
) {
    assert_eq!(rt; decimal_in(rt, column, 0), Some(expected));
    assert!(rt; column.len() > 0);
    assert!(rt; column.int_at(0).is_none(), "{expected:?}");
    match Value::wide_decimal(rt.alloc(), expected).expect(rt, MEMORY) {
        Value::Bytes(bytes) => {
            assert_eq!(rt; column.bytes_at(0), Some(bytes.as_slice()), "{expected:?}");
        }
        _ => panic!(rt; "{expected:?}"),
    }
    assert_eq!(rt; expected.unscaled(), unscaled, "{expected:?}");
}

#[test]
fn decimals_of_256_bits(rt: HostRuntime) {
    for (bytes, parts, unscaled) in &WIDE {
        let (_, _, scale) = *parts;
        let text = format!(in rt.alloc(); "decimal[256:76:{scale}]; 1; / {bytes}");
        let column = plain(&rt, &text.expect(&rt, MEMORY));
        is_wide(&rt, &column, decimal(*parts), *unscaled);
    }
}

/// 1.25, a null with nines under it, and -1.25, in each width.
static BESIDE_A_NULL: [&str; 4] = [
    "decimal[32:9:2]; 3; 253 / 125 0 0 0 9 9 9 9 131 255 255 255",
    "decimal[64:18:2]; 3; 253 / 125 0 0 0 0 0 0 0 9 9 9 9 9 9 9 9 131 255 255 255 255 255 255 255",
    "decimal[128:38:2]; 3; 253 / \
     125 0 0 0 0 0 0 0 0 0 0 0 0 0 0 0 \
     9 9 9 9 9 9 9 9 9 9 9 9 9 9 9 9 \
     131 255 255 255 255 255 255 255 255 255 255 255 255 255 255 255",
    "decimal[256:76:2]; 3; 253 / \
     125 0 0 0 0 0 0 0 0 0 0 0 0 0 0 0 \
     0 0 0 0 0 0 0 0 0 0 0 0 0 0 0 0 \
     9 9 9 9 9 9 9 9 9 9 9 9 9 9 9 9 \
     9 9 9 9 9 9 9 9 9 9 9 9 9 9 9 9 \
     131 255 255 255 255 255 255 255 255 255 255 255 255 255 255 255 \
     255 255 255 255 255 255 255 255 255 255 255 255 255 255 255 255",
];

const ONE_AND_A_QUARTER: Decimal = Decimal {
    high: 0,
    low: 125,
    scale: 2,
};

const BELOW_ZERO: Decimal = Decimal {
    high: -1,
    low: 340_282_366_920_938_463_463_374_607_431_768_211_331,
    scale: 2,
};

#[test]
fn decimals_beside_a_null(rt: HostRuntime) {
    for text in &BESIDE_A_NULL {
        let column = plain(&rt, text);
        assert_eq!(rt;
            decimal_in(&rt, &column, 0),
            Some(ONE_AND_A_QUARTER),
            "{text}"
        );
        assert_eq!(rt; decimal_in(&rt, &column, 1), None, "{text}");
        assert_eq!(rt; decimal_in(&rt, &column, 2), Some(BELOW_ZERO), "{text}");
    }
}

/// Columns whose first slot has no decimal.
static OTHERS: [&str; 13] = [
    "decimal[32:9:2]; 1; 254 / i 125",
    "decimal[64:18:2]; 1; 254 / l 125",
    "decimal[128:38:2]; 1; 254 / l 125 0",
    "decimal[256:76:2]; 1; 254 / l 125 0 0 0",
    "int32; 1; / i 125",
    "uint64; 1; / l 125",
    "double; 1; / l 125",
    "duration[ms]; 1; / l 125",
    "interval[month_day_nano]; 1; / l 125 0",
    "fixed_size_binary[32]; 1; / l 125 0 0 0",
    "binary; 1; / i 0 32 / l 125 0 0 0",
    "null; 1",
    "struct[1] decimal[64:18:2]; 1 1; / / l 125",
];

#[test]
fn slots_without_a_decimal(rt: HostRuntime) {
    for text in &OTHERS {
        assert!(rt; decimal_in(&rt, &plain(&rt, text), 0).is_none(), "{text}");
    }
}

/// The decimals 0.01 and 1.25 of each width.
static VALUES: [&str; 4] = [
    "decimal[32:9:2]; 2; / i 1 125",
    "decimal[64:18:2]; 2; / l 1 125",
    "decimal[128:38:2]; 2; / l 1 0 125 0",
    "decimal[256:76:2]; 2; / l 1 0 0 0 125 0 0 0",
];

/// Asserts that an index has no decimal, and that the value to which it refers is this one.
fn refers_to(rt: &impl Abort, column: &Array, expected: Decimal) {
    assert!(rt; decimal_in(rt, column, 0).is_none());
    assert!(rt; column.len() > 0);
    assert_eq!(rt; column.int_at(0), Some(1));
    let (values, place) = column.resolved(0).expect(rt, "a value");
    assert_eq!(rt; decimal_in(rt, values, place), Some(expected));
}

#[test]
fn decimals_of_a_dictionary(rt: HostRuntime) {
    for text in &VALUES {
        let (of, _) = text.split_once(';').expect(&rt, "a type");
        let words = format!(in rt.alloc(); "by:0:uint64 {of}; 1; / l 1").expect(&rt, MEMORY);
        let listed = listed(&rt, dictionary(&rt, &[text]));
        let column = column(&rt, &words, &listed).expect(&rt, "a column");
        refers_to(&rt, &column, ONE_AND_A_QUARTER);
    }
}

/// How many bytes of 255 there are, and the whole number of the decimal that they form, if they form
/// one.
static COUNTS: [(usize, Option<i128>); 6] = [
    (0, None),
    (16, None),
    (31, None),
    (32, Some(-1)),
    (33, None),
    (64, None),
];

/// The whole number of the decimal of this scale that the bytes form.
fn number_of(rt: &impl Abort, scale: i8, bytes: &[u8]) -> Option<i128> {
    let found = decimals::of_bytes(scale, bytes)?;
    assert_eq!(rt; found.scale, scale);
    found.unscaled()
}

#[test]
fn decimals_of_so_many_bytes(rt: HostRuntime) {
    for (count, expected) in &COUNTS {
        let bytes = vec![in rt.alloc(); 255; *count].expect(&rt, MEMORY);
        assert_eq!(rt; number_of(&rt, -5, &bytes), *expected, "{count} bytes");
        assert_eq!(rt; decimals::of_bytes(2, &bytes).is_some(), *count == 32);
    }
}

/// The scale is returned as it is given, whether a type may have it or not.
static SCALES: [i8; 5] = [-128, -1, 0, 76, 127];

#[test]
fn decimals_have_their_scales(rt: HostRuntime) {
    let bytes = vec![in rt.alloc(); 0; 32].expect(&rt, MEMORY);
    for scale in &SCALES {
        let zero = decimal((0, 0, *scale));
        assert_eq!(rt; decimals::of_bytes(*scale, &bytes), Some(zero));
        assert_eq!(rt; decimals::of_number(*scale, 0), zero);
    }
}
