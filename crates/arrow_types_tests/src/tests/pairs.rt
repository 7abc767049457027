//! Custom metadata of schemas and fields: kept, copied, compared and counted.

use super::fields::{MEMORY, add_empty, below, encoding, field, number};
use arrow_types::{BitWidth, DataType, Encoding, Field, IndexType, Schema, SchemaFault};
use std::process::Abort;

/// Keys and values.
type Pairs = &'static [(&'static [u8], &'static [u8])];

/// Pairs, and how many empty ones follow them: at a schema, at its column, at the field below it,
/// and at the one below that.
type Levels = [(Pairs, usize); 4];

const NO: Pairs = &[];

const NONE: Levels = [(NO, 0), (NO, 0), (NO, 0), (NO, 0)];

const ABOVE: [&str; 4] = ["list", "large_list", "fixed_list.3", "struct.1"];

/// These pairs, in separate memory.
fn pairs(
    rt: &(impl Abort + AllocGlobal),
    (noted, empty): (Pairs, usize),
) -> Vec<(Vec<u8>, Vec<u8>)> {
    let mut pairs = Vec::new(rt.alloc());
    for (key, value) in noted {
        let key = Vec::from_slice(rt.alloc(), key).expect(rt, MEMORY);
        let value = Vec::from_slice(rt.alloc(), value).expect(rt, MEMORY);
        pairs.push((key, value)).expect(rt, MEMORY);
    }
    add_empty(rt, &mut pairs, empty);
    pairs
}

/// Whether these are the pairs, in their order.
fn are_pairs(pairs: &[(Vec<u8>, Vec<u8>)], expected: Pairs) -> bool {
    let mut both = pairs.iter().zip(expected);
    pairs.len() == expected.len()
        && both.all(|(pair, (key, value))| {
            pair.0.as_slice() == *key && pair.1.as_slice() == *value
        })
}

/// A column of truth values below a struct below this type.
fn column(rt: &(impl Abort + AllocGlobal), above: &str, levels: &Levels) -> Field {
    let lowest = field(rt, "n", DataType::Bool).with_metadata(pairs(rt, levels[3]));
    let child = below(rt, "m", "struct.1", lowest).with_metadata(pairs(rt, levels[2]));
    below(rt, "f", above, child).with_metadata(pairs(rt, levels[1]))
}

fn made(
    rt: &(impl Abort + AllocGlobal),
    column: Field,
    own: (Pairs, usize),
) -> Result<Schema, SchemaFault> {
    let columns = vec![in rt.alloc(); column].expect(rt, MEMORY);
    Schema::with_metadata(rt.alloc(), columns, pairs(rt, own))
}

fn schema(rt: &(impl Abort + AllocGlobal), above: &str, levels: &Levels) -> Schema {
    made(rt, column(rt, above, levels), levels[0]).expect(rt, "a schema")
}

/// The first column, and whether it equals that of another schema: in all, in its type, and in its
/// type without pairs.
fn equal_columns(rt: &impl Abort, one: &Schema, other: &Schema) -> [bool; 3] {
    let one = one.fields().first().expect(rt, "a column");
    let other = other.fields().first().expect(rt, "a column");
    let (of, of_other) = (&one.data_type, &other.data_type);
    [one == other, of == of_other, of.same(of_other)]
}

/// Pairs, no two of which are equal.
static PAIRS: [Pairs; 12] = [
    &[],
    &[(b"", b"")],
    &[(b"k", b"")],
    &[(b"", b"k")],
    &[(b"k", b"v")],
    &[(b"kv", b"")],
    &[(b"K", b"v")],
    &[(b"k", b"\xff")],
    &[(b"k", b"v"), (b"k", b"v")],
    &[(b"k", b"v"), (b"k", b"w")],
    &[(b"k", b"w"), (b"k", b"v")],
    &[(b"k", b"v"), (b"", b"")],
];

fn row(rt: &impl Abort, i: usize) -> Pairs {
    PAIRS.get(i).expect(rt, "a row")
}

/// No pairs except these at one level.
fn at(place: usize, noted: Pairs) -> Levels {
    let mut levels = NONE;
    if let Some(level) = levels.get_mut(place) {
        *level = (noted, 0);
    }
    levels
}

/// Whether schemas with pairs at one level are equal, and in what respect their columns are.
fn is_equal(rt: &(impl Abort + AllocGlobal), above: &str, place: usize, i: usize, j: usize) {
    let one = schema(rt, above, &at(place, row(rt, i)));
    let other = schema(rt, above, &at(place, row(rt, j)));
    assert_eq!(rt; one == other, i == j, "{i} {j} at {place}");
    let expected = [i == j || place < 1, i == j || place < 2, true];
    assert_eq!(rt;
        equal_columns(rt, &one, &other),
        expected,
        "{i} {j} at {place}"
    );
    assert_eq!(rt;
        equal_columns(rt, &other, &one),
        expected,
        "{i} {j} at {place}"
    );
}

fn are_equal(rt: &(impl Abort + AllocGlobal), i: usize, j: usize) {
    for above in ABOVE {
        for place in 0..4 {
            is_equal(rt, above, place, i, j);
        }
    }
}

#[test]
fn what_is_equal_has_the_same_pairs(rt: HostRuntime) {
    for i in 0..12 {
        for j in 0..12 {
            are_equal(&rt, i, j);
        }
    }
}

#[test]
fn pairs_in_other_places_are_others(rt: HostRuntime) {
    for one in 0..4 {
        for other in 0..4 {
            let first = schema(&rt, "list", &at(one, PAIRS[4]));
            let is_same = first == schema(&rt, "list", &at(other, PAIRS[4]));
            assert_eq!(rt; is_same, one == other, "{one} {other}");
        }
    }
}

/// Pairs on all levels.
const NOTED: Levels = [
    (&[(b"from", b"here"), (b"", b""), (b"from", b"there")], 0),
    (&[(b"\xff\xfe", b"\0\x80")], 0),
    (&[(b"unit", b"m"), (b"unit", b"s"), (b"unit", b"m")], 0),
    (&[(b"deep", b"est")], 0),
];

/// That a schema has these pairs on each level.
fn is_noted(rt: &impl Abort, schema: &Schema, levels: &Levels) {
    assert!(rt; are_pairs(schema.metadata(), levels[0].0));
    let mut fields = schema.fields();
    for (noted, _) in &levels[1..] {
        let field = fields.first().expect(rt, "a field");
        assert!(rt; are_pairs(&field.metadata, noted));
        fields = field.children();
    }
}

/// The pairs of the schema itself do not belong to its fields.
fn is_copied(rt: &(impl Abort + AllocGlobal), above: &str) {
    let noted = schema(rt, above, &NOTED);
    let copy = noted.copy(rt.alloc()).expect(rt, MEMORY);
    is_noted(rt, &copy, &NOTED);
    assert!(rt; copy == noted);
    let column = noted.fields().first().expect(rt, "a column");
    let copy = column.copy(rt.alloc()).expect(rt, MEMORY);
    let alone = made(rt, copy, (NO, 0)).expect(rt, "a schema");
    is_noted(rt, &alone, &[NONE[0], NOTED[1], NOTED[2], NOTED[3]]);
    let of = column.data_type.copy(rt.alloc()).expect(rt, MEMORY);
    assert!(rt; of == column.data_type && of.same(&column.data_type));
}

#[test]
fn copies_keep_pairs_on_each_level(rt: HostRuntime) {
    for above in ABOVE {
        is_copied(&rt, above);
    }
}

/// A column by dictionary 7, whose values have a field of this name below them, with these pairs.
fn encoded(rt: &(impl Abort + AllocGlobal), above: &str, name: &str, noted: Pairs) -> Field {
    let child = field(rt, name, DataType::Bool).with_metadata(pairs(rt, (noted, 0)));
    let column = below(rt, "c", above, child).with_metadata(pairs(rt, (noted, 0)));
    column.with_dictionary(encoding(7))
}

/// The number of the fault of two columns.
fn two_columns(rt: &(impl Abort + AllocGlobal), first: Field, second: Field) -> u8 {
    let columns = vec![in rt.alloc(); first, second].expect(rt, MEMORY);
    number(Schema::new(rt.alloc(), columns))
}

/// The same for two such columns.
fn fault_of_two(rt: &(impl Abort + AllocGlobal), above: &str, name: &str, noted: [Pairs; 2]) -> u8 {
    let first = encoded(rt, above, "n", noted[0]);
    let second = encoded(rt, above, name, noted[1]);
    two_columns(rt, first, second)
}

#[test]
fn value_types_do_not_differ_in_pairs(rt: HostRuntime) {
    for above in ABOVE {
        for [one, other] in [[4, 0], [0, 4], [4, 4]] {
            let noted = [row(&rt, one), row(&rt, other)];
            assert_eq!(rt; fault_of_two(&rt, above, "n", noted), 0, "{noted:?}");
            assert_eq!(rt; fault_of_two(&rt, above, "m", noted), 4, "{noted:?}");
        }
    }
}

/// The number of pairs at the schema, at a column and at the two fields below it, and the number of
/// the fault.
static COUNTS: [([usize; 4], u8); 15] = [
    ([0, 0, 0, 0], 0),
    ([65_536, 0, 0, 0], 0),
    ([65_537, 0, 0, 0], 7),
    ([0, 65_536, 0, 0], 0),
    ([0, 65_537, 0, 0], 7),
    ([0, 0, 65_536, 0], 0),
    ([0, 0, 65_537, 0], 7),
    ([0, 0, 0, 65_536], 0),
    ([0, 0, 0, 65_537], 7),
    ([16_384, 16_384, 16_384, 16_384], 0),
    ([16_385, 16_384, 16_384, 16_384], 7),
    ([16_384, 16_385, 16_384, 16_384], 7),
    ([16_384, 16_384, 16_385, 16_384], 7),
    ([16_384, 16_384, 16_384, 16_385], 7),
    ([65_536, 1, 0, 0], 7),
];

#[test]
fn pairs_of_all_levels_are_counted(rt: HostRuntime) {
    for (counts, expected) in &COUNTS {
        for above in ABOVE {
            let [own, at_column, at_child, at_lowest] = *counts;
            let levels = [(NO, own), (NO, at_column), (NO, at_child), (NO, at_lowest)];
            let made = made(&rt, column(&rt, above, &levels), levels[0]);
            assert_eq!(rt; number(made), *expected, "{counts:?}");
        }
    }
}

/// A column of nulls with `count` pairs.
fn with_empty(rt: &(impl Abort + AllocGlobal), count: usize) -> Field {
    field(rt, "n", DataType::Null).with_metadata(pairs(rt, (NO, count)))
}

#[test]
fn pairs_of_columns_side_by_side_are_counted(rt: HostRuntime) {
    for (count, expected) in [(32_768, 0), (32_769, 7)] {
        let (first, second) = (with_empty(&rt, 32_768), with_empty(&rt, count));
        assert_eq!(&rt; two_columns(&rt, first, second), expected, "{count}");
    }
}

const SMALL: Encoding = Encoding {
    id: -7,
    index: IndexType {
        bits: BitWidth::Eight,
        signed: false,
    },
    ordered: true,
};

/// Names, whether nulls are allowed, encodings, and pairs, each of which a field gets in place of
/// others.
static FIELDS: [(&str, bool, Encoding, Pairs); 3] = [
    ("n", true, SMALL, &[(b"k", b"v"), (b"k", b"w")]),
    ("", false, SMALL, &[(b"", b"\xff")]),
    ("né", true, SMALL, &[]),
];

/// That a field has texts, this name and this encoding, and may be null or not.
fn is_field(rt: &impl Abort, field: &Field, name: &str, nullable: bool, of: Option<Encoding>) {
    assert_eq!(rt; (field.name.as_str(), field.nullable), (name, nullable));
    assert_eq!(rt; field.data_type, DataType::Utf8);
    assert_eq!(rt; field.dictionary, of);
    assert!(rt; field.children().is_empty());
}

fn is_built(rt: &(impl Abort + AllocGlobal), row: &(&str, bool, Encoding, Pairs)) {
    let (name, nullable, by, noted) = row;
    let text = String::from_str(rt.alloc(), name).expect(rt, MEMORY);
    let field = Field::new(rt.alloc(), text, DataType::Utf8, *nullable);
    is_field(rt, &field, name, *nullable, None);
    assert!(rt; field.metadata.is_empty());
    let field = field
        .with_metadata(pairs(rt, (PAIRS[4], 0)))
        .with_dictionary(*by);
    is_field(rt, &field, name, *nullable, Some(*by));
    assert!(rt; are_pairs(&field.metadata, PAIRS[4]));
    let field = field
        .with_dictionary(encoding(9))
        .with_metadata(pairs(rt, (noted, 0)));
    is_field(rt, &field, name, *nullable, Some(encoding(9)));
    assert!(rt; are_pairs(&field.metadata, noted));
}

#[test]
fn a_field_gets_a_dictionary_and_pairs(rt: HostRuntime) {
    for row in &FIELDS {
        is_built(&rt, row);
    }
}

#[test]
fn a_schema_has_the_pairs_that_it_gets(rt: HostRuntime) {
    let twice: Pairs = &[(b"", b"v"), (b"", b"v")];
    let plain = made(&rt, column(&rt, "list", &NOTED), (NO, 0)).expect(&rt, "a schema");
    let noted = made(&rt, column(&rt, "list", &NOTED), (twice, 0)).expect(&rt, "a schema");
    assert!(&rt; plain.metadata().is_empty());
    assert!(&rt; are_pairs(noted.metadata(), twice));
    assert_eq!(&rt; equal_columns(&rt, &plain, &noted), [true, true, true]);
    assert!(&rt; plain != noted);
}
