//! The texts of decimals: their names in the text of a schema, and their format strings, as defined
//! by the Arrow C data interface ("Data type description -- format strings").

use arrow_types::{BitWidth, DataType, DecimalWidth, Encoding, Field, IndexType, Schema};
use arrowflow_text::{format_width, schema_lines_of, words_of};
use std::alloc::Global;
use std::process::Abort;

/// Decimals, the line of a column `n` of them, and their format string.
static DECIMALS: [(DecimalWidth, (u8, i8), &str, &str); 9] = [
    (
        DecimalWidth::ThirtyTwo,
        (9, 2),
        "n: decimal32(9, 2)\n",
        "d:9,2,32",
    ),
    (
        DecimalWidth::ThirtyTwo,
        (1, 0),
        "n: decimal32(1, 0)\n",
        "d:1,0,32",
    ),
    (
        DecimalWidth::SixtyFour,
        (18, -3),
        "n: decimal64(18, -3)\n",
        "d:18,-3,64",
    ),
    (
        DecimalWidth::SixtyFour,
        (10, 76),
        "n: decimal64(10, 76)\n",
        "d:10,76,64",
    ),
    (
        DecimalWidth::OneHundredTwentyEight,
        (38, 10),
        "n: decimal128(38, 10)\n",
        "d:38,10",
    ),
    (
        DecimalWidth::OneHundredTwentyEight,
        (1, -1),
        "n: decimal128(1, -1)\n",
        "d:1,-1",
    ),
    (
        DecimalWidth::TwoHundredFiftySix,
        (76, -76),
        "n: decimal256(76, -76)\n",
        "d:76,-76,256",
    ),
    (
        DecimalWidth::TwoHundredFiftySix,
        (76, 76),
        "n: decimal256(76, 76)\n",
        "d:76,76,256",
    ),
    (
        DecimalWidth::TwoHundredFiftySix,
        (9, 2),
        "n: decimal256(9, 2)\n",
        "d:9,2,256",
    ),
];

/// A nullable column `n` of these decimals.
fn column(
    rt: &impl Abort,
    alloc: Global,
    width: DecimalWidth,
    (precision, scale): (u8, i8),
) -> Field {
    let name = String::from_str(alloc, "n").expect(rt, "memory");
    let data_type = DataType::Decimal {
        width,
        precision,
        scale,
    };
    Field::new(alloc, name, data_type, true)
}

/// The text of the schema of one column.
fn lines(rt: &impl Abort, alloc: Global, field: Field) -> String {
    let fields = vec![in alloc; field].expect(rt, "memory");
    let schema = Schema::new(alloc, fields).expect(rt, "a schema");
    schema_lines_of(alloc, &schema).expect(rt, "memory")
}

/// Asserts that the two texts are equal.
fn is_text(rt: &impl Abort, text: &str, expected: &str) {
    assert_eq!(rt; text, expected);
}

#[test]
fn decimals_have_their_names(rt: HostRuntime) {
    for (width, digits, line, _) in &DECIMALS {
        let field = column(&rt, rt.alloc(), *width, *digits);
        is_text(&rt, &lines(&rt, rt.alloc(), field), line);
    }
}

/// The format string of these decimals, built from its parts.
fn format_of(rt: &impl Abort, alloc: Global, width: DecimalWidth, digits: (u8, i8)) -> String {
    let field = column(rt, alloc, width, digits);
    let start = words_of(&field.data_type).format;
    let (precision, scale) = digits;
    format!(in alloc; "{start}{precision},{scale}{}", format_width(width)).expect(rt, "memory")
}

#[test]
fn decimals_have_their_format_strings(rt: HostRuntime) {
    for (width, digits, _, format) in &DECIMALS {
        is_text(&rt, &format_of(&rt, rt.alloc(), *width, *digits), format);
    }
}

#[test]
fn a_dictionary_of_decimals_has_its_name(rt: HostRuntime) {
    let encoding = Encoding {
        id: 7,
        index: IndexType {
            bits: BitWidth::Eight,
            signed: true,
        },
        ordered: true,
    };
    let field = column(&rt, rt.alloc(), DecimalWidth::TwoHundredFiftySix, (76, 2));
    let field = field.with_dictionary(encoding);
    let expected = "n: dictionary<int8, decimal256(76, 2)> id 7 ordered\n";
    is_text(&rt, &lines(&rt, rt.alloc(), field), expected);
}
