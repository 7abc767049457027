//! The texts of decimals: a point, an exponent or neither, by their scale. The numbers and the texts are
//! those of Python's whole numbers and of its `decimal`.

use super::columns::{MEMORY, field};
use super::nested::{are_shown, list, lists};
use arrow_layout::{Decimal, Value};
use arrow_types::{DataType, DecimalWidth};
use std::process::Abort;

/// Decimals of this width and scale.
fn decimals(width: DecimalWidth, scale: i8) -> DataType {
    DataType::Decimal {
        width,
        precision: 1,
        scale,
    }
}

/// A scale, a whole number, and the text of the decimal.
type Row = (i8, i128, &'static str);

/// Those of 32 bits.
static OF_32_BITS: [Row; 17] = [
    (2, 5, "0.05"),
    (2, -50, "-0.50"),
    (2, 12_345, "123.45"),
    (-3, 12, "12e3"),
    (2, 0, "0.00"),
    (-3, 0, "0e3"),
    (0, 0, "0"),
    (0, -5, "-5"),
    (2, -5, "-0.05"),
    (2, 100, "1.00"),
    (3, -5, "-0.005"),
    (9, 1_000_000_000, "1.000000000"),
    (0, 2_147_483_647, "2147483647"),
    (0, -2_147_483_648, "-2147483648"),
    (
        76,
        5,
        "0.0000000000000000000000000000000000000000000000000000000000000000000000000005",
    ),
    (-76, -5, "-5e76"),
    (10, -2_147_483_648, "-0.2147483648"),
];

/// Those of 64 bits.
static OF_64_BITS: [Row; 8] = [
    (2, 5, "0.05"),
    (2, -50, "-0.50"),
    (2, 12_345, "123.45"),
    (18, 1_000_000_000_000_000_000, "1.000000000000000000"),
    (0, 9_223_372_036_854_775_807, "9223372036854775807"),
    (18, -9_223_372_036_854_775_808, "-9.223372036854775808"),
    (-1, -9_223_372_036_854_775_808, "-9223372036854775808e1"),
    (
        76,
        -1,
        "-0.0000000000000000000000000000000000000000000000000000000000000000000000000001",
    ),
];

/// Those of 128 bits.
static OF_128_BITS: [Row; 17] = [
    (2, 5, "0.05"),
    (2, -50, "-0.50"),
    (2, 12_345, "123.45"),
    (-3, 12, "12e3"),
    (2, 0, "0.00"),
    (-3, 0, "0e3"),
    (
        76,
        5,
        "0.0000000000000000000000000000000000000000000000000000000000000000000000000005",
    ),
    (
        0,
        170_141_183_460_469_231_731_687_303_715_884_105_727,
        "170141183460469231731687303715884105727",
    ),
    (
        0,
        -170_141_183_460_469_231_731_687_303_715_884_105_728,
        "-170141183460469231731687303715884105728",
    ),
    (
        2,
        170_141_183_460_469_231_731_687_303_715_884_105_727,
        "1701411834604692317316873037158841057.27",
    ),
    (
        38,
        -170_141_183_460_469_231_731_687_303_715_884_105_728,
        "-1.70141183460469231731687303715884105728",
    ),
    (
        39,
        -170_141_183_460_469_231_731_687_303_715_884_105_728,
        "-0.170141183460469231731687303715884105728",
    ),
    (
        -76,
        -170_141_183_460_469_231_731_687_303_715_884_105_728,
        "-170141183460469231731687303715884105728e76",
    ),
    (0, 18_446_744_073_709_551_616, "18446744073709551616"),
    (2, -18_446_744_073_709_551_616, "-184467440737095516.16"),
    (
        38,
        99_999_999_999_999_999_999_999_999_999_999_999_999,
        "0.99999999999999999999999999999999999999",
    ),
    (
        37,
        -100_000_000_000_000_000_000_000_000_000_000_000_000,
        "-10.0000000000000000000000000000000000000",
    ),
];

/// Asserts that a number, a null and the number again are written like this.
fn is_shown(rt: &(impl Abort + AllocGlobal), of: DataType, number: i128, text: &str) {
    let values = [Value::Int(number), Value::Null, Value::Int(number)];
    let expected = format!(in rt.alloc(); "7,{text}\n7,\n7,{text}\n").expect(rt, MEMORY);
    are_shown(rt, of, &values, &expected);
}

fn all_shown(rt: &(impl Abort + AllocGlobal), width: DecimalWidth, rows: &[Row]) {
    for (scale, number, text) in rows {
        is_shown(rt, decimals(width, *scale), *number, text);
    }
}

#[test]
fn decimals_of_32_bits(rt: HostRuntime) {
    all_shown(&rt, DecimalWidth::ThirtyTwo, &OF_32_BITS);
}

#[test]
fn decimals_of_64_bits(rt: HostRuntime) {
    all_shown(&rt, DecimalWidth::SixtyFour, &OF_64_BITS);
}

#[test]
fn decimals_of_128_bits(rt: HostRuntime) {
    all_shown(&rt, DecimalWidth::OneHundredTwentyEight, &OF_128_BITS);
}

/// Scales; the bits of a whole number above its lowest 128, and these lowest ones without a sign;
/// the texts.
static OF_256_BITS: [(i8, (i128, u128), &str); 26] = [
    (2, (0, 0), "0.00"),
    (2, (0, 5), "0.05"),
    (
        2,
        (-1, 340_282_366_920_938_463_463_374_607_431_768_211_406),
        "-0.50",
    ),
    (2, (0, 12_345), "123.45"),
    (-3, (0, 12), "12e3"),
    (-3, (0, 0), "0e3"),
    (
        0,
        (-1, 340_282_366_920_938_463_463_374_607_431_768_211_455),
        "-1",
    ),
    (
        0,
        (0, 170_141_183_460_469_231_731_687_303_715_884_105_728),
        "170141183460469231731687303715884105728",
    ),
    (
        2,
        (-1, 170_141_183_460_469_231_731_687_303_715_884_105_728),
        "-1701411834604692317316873037158841057.28",
    ),
    (
        0,
        (-1, 240_282_366_920_938_463_463_374_607_431_768_211_456),
        "-100000000000000000000000000000000000000",
    ),
    (0, (1, 0), "340282366920938463463374607431768211456"),
    (2, (-1, 0), "-3402823669209384634633746074317682114.56"),
    (
        0,
        (
            170_141_183_460_469_231_731_687_303_715_884_105_727,
            340_282_366_920_938_463_463_374_607_431_768_211_455,
        ),
        "57896044618658097711785492504343953926634992332820282019728792003956564819967",
    ),
    (
        76,
        (
            170_141_183_460_469_231_731_687_303_715_884_105_727,
            340_282_366_920_938_463_463_374_607_431_768_211_455,
        ),
        "5.7896044618658097711785492504343953926634992332820282019728792003956564819967",
    ),
    (
        -76,
        (
            170_141_183_460_469_231_731_687_303_715_884_105_727,
            340_282_366_920_938_463_463_374_607_431_768_211_455,
        ),
        "57896044618658097711785492504343953926634992332820282019728792003956564819967e76",
    ),
    (
        0,
        (-170_141_183_460_469_231_731_687_303_715_884_105_728, 0),
        "-57896044618658097711785492504343953926634992332820282019728792003956564819968",
    ),
    (
        76,
        (-170_141_183_460_469_231_731_687_303_715_884_105_728, 0),
        "-5.7896044618658097711785492504343953926634992332820282019728792003956564819968",
    ),
    (
        76,
        (
            29_387_358_770_557_187_699_218_413_430_556_141_945,
            158_788_995_957_577_343_786_214_718_011_688_878_079,
        ),
        "0.9999999999999999999999999999999999999999999999999999999999999999999999999999",
    ),
    (
        76,
        (
            -29_387_358_770_557_187_699_218_413_430_556_141_946,
            181_493_370_963_361_119_677_159_889_420_079_333_376,
        ),
        "-1.0000000000000000000000000000000000000000000000000000000000000000000000000000",
    ),
    (
        0,
        (
            2_938_735_877_055_718_769,
            313_686_354_140_541_217_734_174_016_852_339_982_336,
        ),
        "1000000000000000000000000000000000000000000000000000000000",
    ),
    (
        57,
        (
            2_938_735_877_055_718_769,
            313_686_354_140_541_217_734_174_016_852_339_982_336,
        ),
        "1.000000000000000000000000000000000000000000000000000000000",
    ),
    (
        58,
        (
            -2_938_735_877_055_718_770,
            26_596_012_780_397_245_729_200_590_579_428_229_120,
        ),
        "-0.1000000000000000000000000000000000000000000000000000000000",
    ),
    (
        3,
        (
            2_938_735_877_055_718_769,
            313_686_354_140_541_217_744_174_016_852_339_982_336,
        ),
        "1000000000000000000000000000000000000010000000000000000.000",
    ),
    (
        0,
        (
            29_387_358_770_557_187_699_218_413,
            146_510_663_073_550_942_663_504_491_129_887_260_671,
        ),
        "9999999999999999999999999999999999999999999999999999999999999999",
    ),
    (
        0,
        (
            29_387_358_770_557_187_699_218_413,
            146_510_663_073_550_942_663_504_491_129_887_260_672,
        ),
        "10000000000000000000000000000000000000000000000000000000000000000",
    ),
    (
        76,
        (
            29_387_358_770_557_187_699_218_413,
            146_510_663_073_550_942_663_504_491_129_887_260_672,
        ),
        "0.0000000000010000000000000000000000000000000000000000000000000000000000000000",
    ),
];

/// The value of a decimal of 256 bits.
fn wide(rt: &(impl Abort + AllocGlobal), (high, low): (i128, u128)) -> Value {
    let decimal = Decimal {
        high,
        low,
        scale: 0,
    };
    Value::wide_decimal(rt.alloc(), decimal).expect(rt, MEMORY)
}

#[test]
fn decimals_of_256_bits(rt: HostRuntime) {
    for (scale, halves, text) in &OF_256_BITS {
        let values = [wide(&rt, *halves), Value::Null];
        let of = decimals(DecimalWidth::TwoHundredFiftySix, *scale);
        let expected = format!(in rt.alloc(); "7,{text}\n7,\n").expect(&rt, MEMORY);
        are_shown(&rt, of, &values, &expected);
    }
}

/// A value of this many bytes: the first, and then others that are all the same.
fn bytes(rt: &(impl Abort + AllocGlobal), first: u8, rest: u8, count: usize) -> Value {
    let mut bytes = vec![in rt.alloc(); first].expect(rt, MEMORY);
    bytes.resize(count, rest).expect(rt, MEMORY);
    Value::Bytes(bytes)
}

#[test]
fn bytes_by_their_type(rt: HostRuntime) {
    let values = [bytes(&rt, 1, 0, 32), bytes(&rt, 255, 255, 32)];
    let of = decimals(DecimalWidth::TwoHundredFiftySix, 1);
    are_shown(&rt, of, &values, "7,0.1\n7,-0.1\n");
    let expected = "7,0100000000000000000000000000000000000000000000000000000000000000\n\
        7,ffffffffffffffffffffffffffffffffffffffffffffffffffffffffffffffff\n";
    are_shown(&rt, DataType::FixedSizeBinary(32), &values, expected);
}

#[test]
fn lists_of_decimals(rt: HostRuntime) {
    let of = decimals(DecimalWidth::OneHundredTwentyEight, 2);
    let values = [list(&rt, Value::Int(-50), Value::Int(12345)), Value::Null];
    are_shown(&rt, lists(&rt, of), &values, "7,[-0.50;null;123.45]\n7,\n");
    let of = decimals(DecimalWidth::TwoHundredFiftySix, -3);
    let values = [list(&rt, wide(&rt, (0, 12)), wide(&rt, (-1, 0)))];
    let expected = "7,[12e3;null;-340282366920938463463374607431768211456e3]\n";
    are_shown(&rt, lists(&rt, of), &values, expected);
    let of = decimals(DecimalWidth::ThirtyTwo, 0);
    let values = [list(&rt, Value::Int(7), Value::Int(-7))];
    are_shown(&rt, lists(&rt, of), &values, "7,[7;null;-7]\n");
}

#[test]
fn structs_of_decimals(rt: HostRuntime) {
    let fields = vec![in rt.alloc();
        field(&rt, "a", decimals(DecimalWidth::ThirtyTwo, 2)),
        field(&rt, "b", decimals(DecimalWidth::SixtyFour, 0)),
        field(&rt, "c", decimals(DecimalWidth::OneHundredTwentyEight, -3)),
        field(&rt, "d", decimals(DecimalWidth::TwoHundredFiftySix, 76)),
    ];
    let parts = vec![in rt.alloc(); Value::Int(5), Value::Int(-5), Value::Int(0), Value::Null];
    let values = [Value::Struct(parts.expect(&rt, MEMORY)), Value::Null];
    let expected = "7,{a=0.05;b=-5;c=0e3;d=null}\n7,\n";
    let fields = fields.expect(&rt, MEMORY);
    are_shown(&rt, DataType::Struct(fields), &values, expected);
}
