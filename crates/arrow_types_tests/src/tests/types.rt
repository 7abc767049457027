//! Limits, widths and faults, and how schemas, fields and types are copied and compared.

use super::fields::{MEMORY, add_empty, column, columns, number};
use arrow_types::SchemaFault::{
    ByteWidth, DecimalRange, MapEntries, Memory, NestedDictionary, SharedIdTypesDiffer, TooDeep,
    TooManyFields, TooManyPairs,
};
use arrow_types::{
    BitWidth, DateUnit, DecimalWidth, Field, Limits, Precision, Schema, SchemaFault, TimeUnit,
    TypeSet,
};
use std::process::Abort;

/// Ceilings of metadata, body and rows.
type Numbers = (u64, u64, u64);

/// Those that limits may have, and some that they may not have.
static LIMITS: [(Numbers, bool); 5] = [
    ((1_073_741_824, 1_099_511_627_776, 2_147_483_647), true),
    ((0, 0, 0), true),
    ((1_073_741_825, 0, 0), false),
    ((0, 1_099_511_627_777, 0), false),
    ((0, 0, 2_147_483_648), false),
];

fn numbers(limits: Limits) -> Numbers {
    (limits.max_metadata(), limits.max_body(), limits.max_rows())
}

#[test]
fn limits_keep_to_their_ceilings(rt: HostRuntime) {
    let standard = numbers(Limits::standard());
    assert!(rt; standard == (67_108_864, 68_719_476_736, 2_147_483_647));
    for (row, (asked, are_there)) in LIMITS.iter().enumerate() {
        let found = Limits::new(asked.0, asked.1, asked.2).map(numbers);
        let expected = if *are_there { Some(*asked) } else { None };
        assert!(rt; found == expected, "number {row}");
    }
    assert!(rt; Limits::LAST_PLACE == 1u64 << 62);
    assert!(rt; Schema::MAX_PAIRS == 65_536);
}

#[test]
fn a_set_of_types_changes_no_number(rt: HostRuntime) {
    let small = Limits::new(1, 2, 3).expect(&rt, "limits");
    for limits in [Limits::standard(), small] {
        let all = limits.with_types(TypeSet::All);
        assert!(rt; limits.types() == TypeSet::Core && all.types() == TypeSet::All);
        assert!(rt; numbers(all) == numbers(limits));
        assert!(rt; all.with_types(TypeSet::Core).types() == TypeSet::Core);
    }
}

/// Columns, and whether the core leaves the type of a field among them out.
static LATE: [(&str, bool); 24] = [
    ("", false),
    ("i:int d:date", false),
    (
        "a:null b:bool c:fixed.4 d:time.s e:timestamp f:duration.ns",
        false,
    ),
    (
        "a:binary b:large_binary c:utf8 d:large_utf8 e:list f:large_list g:struct.2",
        false,
    ),
    ("h:halffloat", true),
    ("n:null f:float", true),
    ("d:double n:null", true),
    ("d@1:double", true),
    ("d:double l:list l:large_list", true),
    ("n:null d@1:double s:struct.2 n:null", true),
    ("m:interval.year_month", true),
    ("n:null t:interval.day_time", true),
    ("i:interval.month_day_nano n:null", true),
    ("i@1:interval.year_month", true),
    (
        "n:null i@1:interval.day_time s:struct.2 l:list n:null",
        true,
    ),
    ("n:null l:fixed_list.3", true),
    ("t:utf8 l:fixed_list.0 n:null", true),
    ("n:null l@1:fixed_list.2147483647", true),
    ("t:utf8 l:fixed_list.2 s:struct.1 l:large_list n:null", true),
    ("k:utf8 v:bool e:struct.2 m:map", true),
    ("k:utf8 v:bool e:struct.2 m:map.sorted l:list", true),
    ("d:decimal.32,9,2 n:null", true),
    ("d@1:decimal.128,38,0", true),
    ("n:null d:decimal.256,76,-76 s:struct.2 l:list", true),
];

#[test]
fn types_outside_of_a_set(rt: HostRuntime) {
    for (words, late) in &LATE {
        let fields = columns(&rt, words);
        assert!(rt; TypeSet::Core.leaves_some_out(&fields) == *late, "{words}");
        assert!(rt; !TypeSet::All.leaves_some_out(&fields), "{words}");
    }
}

#[test]
fn units_have_their_widths(rt: HostRuntime) {
    let widths = [
        (BitWidth::Eight, 8),
        (BitWidth::Sixteen, 16),
        (BitWidth::ThirtyTwo, 32),
        (BitWidth::SixtyFour, 64),
        (Precision::Half.width(), 16),
        (Precision::Single.width(), 32),
        (Precision::Double.width(), 64),
        (DateUnit::Day.width(), 32),
        (DateUnit::Millisecond.width(), 64),
        (TimeUnit::Second.time_width(), 32),
        (TimeUnit::Millisecond.time_width(), 32),
        (TimeUnit::Microsecond.time_width(), 64),
        (TimeUnit::Nanosecond.time_width(), 64),
    ];
    for (row, (width, bits)) in widths.iter().enumerate() {
        assert!(rt; width.bits() == *bits, "number {row}");
    }
}

/// The widths of decimals, their bits and the greatest number of digits.
static DECIMAL_WIDTHS: [(DecimalWidth, u16, u8); 4] = [
    (DecimalWidth::ThirtyTwo, 32, 9),
    (DecimalWidth::SixtyFour, 64, 18),
    (DecimalWidth::OneHundredTwentyEight, 128, 38),
    (DecimalWidth::TwoHundredFiftySix, 256, 76),
];

#[test]
fn decimals_have_their_widths(rt: HostRuntime) {
    for (width, bits, digits) in &DECIMAL_WIDTHS {
        assert!(rt;
            width.bits() == *bits && width.digits() == *digits,
            "{bits}"
        );
    }
}

/// Columns, how many pairs the schema has, and the number of their fault, the least if there are
/// several.
static FAULTS: [(&str, usize, u8); 26] = [
    ("", 0, 0),
    ("n:null n:list*31", 0, 0),
    ("n:null n:list*32", 0, 1),
    (":bool*65536", 0, 0),
    (":bool*65537", 0, 2),
    ("k@1:null s:struct.1 k@0:list", 0, 3),
    ("k@7:utf8 t:utf8 k@7:binary", 0, 4),
    (":bool*65536 n:null n:list*32", 0, 1),
    ("k@1:null k@0:list :bool*65536", 0, 2),
    ("k@1:null k@0:list k@1:bool", 0, 3),
    // A very deep tree.
    ("n:null n:list*999999", 0, 1),
    ("f:fixed.0", 0, 0),
    ("f:fixed.2147483647", 0, 0),
    ("f:fixed.2147483648", 0, 6),
    ("f@1:fixed.4294967295", 0, 6),
    ("f:fixed.2147483648 l:large_list t:utf8 s:struct.2", 0, 6),
    ("f@7:fixed.2147483648 g@7:fixed.2147483649", 0, 4),
    ("f@7:fixed.2147483648 f@7:fixed.2147483648", 0, 6),
    ("f@7:fixed.2147483648 k@0:large_list", 0, 3),
    ("f:fixed.2147483648 :bool*65535", 0, 6),
    ("f:fixed.2147483648 :bool*65536", 0, 2),
    ("f:fixed.2147483648 n:null n:list*32", 0, 1),
    ("f:fixed.2147483648", 65_536, 6),
    ("f:fixed.2147483648", 65_537, 6),
    ("f:fixed.2147483647", 65_536, 0),
    ("f:fixed.2147483647", 65_537, 7),
];

/// That each of these columns and pairs has this fault.
fn are_judged(rt: &(impl Abort + AllocGlobal), rows: &[(&str, usize, u8)]) {
    for (words, own, expected) in rows {
        let columns = columns(rt, words);
        let mut pairs = Vec::new(rt.alloc());
        add_empty(rt, &mut pairs, *own);
        let made = Schema::with_metadata(rt.alloc(), columns, pairs);
        assert!(rt; number(made) == *expected, "{words} and {own} pairs");
    }
}

#[test]
fn the_least_fault_is_given(rt: HostRuntime) {
    are_judged(&rt, &FAULTS);
}

/// The same for fixed-size lists.
static FIXED_SIZE_LISTS: [(&str, usize, u8); 18] = [
    // The least and the greatest size, and those after it.
    ("n:null l:fixed_list.0", 0, 0),
    ("n:null l:fixed_list.1", 1, 0),
    ("n:null l:fixed_list.2147483647", 0, 0),
    ("n:null l:fixed_list.2147483648", 0, 6),
    ("n:null l:fixed_list.4294967295", 0, 6),
    // By a dictionary, below other fields, with lists below, and next to sizes that are allowed.
    ("n:null l@1:fixed_list.2147483647", 0, 0),
    ("n:null l@1:fixed_list.2147483648", 0, 6),
    (
        "n:null l:fixed_list.2147483648 l:large_list t:utf8 s:struct.2",
        0,
        6,
    ),
    ("n:null l:fixed_list.2147483648 l:fixed_list.2", 0, 6),
    ("f:fixed.2147483648 l:fixed_list.2", 0, 6),
    ("n:null l:fixed_list.2 n:null l:fixed_list.2147483648", 0, 6),
    ("n:null l:fixed_list.2147483647*31", 0, 0),
    // Before other faults, and after others.
    ("n:null l:fixed_list.2147483648 n:null m:map", 65_537, 6),
    ("n:null l:fixed_list.2147483647", 65_537, 7),
    ("n:null l:fixed_list.2147483648*32", 0, 1),
    ("k@1:utf8 l@2:fixed_list.2147483648", 0, 3),
    ("n:null l@1:fixed_list.2 n:null l@1:fixed_list.3", 0, 4),
    ("n:null l@1:fixed_list.2 n:null l@1:fixed_list.2", 0, 0),
];

#[test]
fn fixed_size_lists_keep_to_their_size(rt: HostRuntime) {
    are_judged(&rt, &FIXED_SIZE_LISTS);
}

/// The same for maps.
static MAPS: [(&str, usize, u8); 18] = [
    // Maps whose entries are a struct of two fields.
    ("k:utf8 v:bool e:struct.2 m:map", 0, 0),
    ("k:utf8 v:bool e:struct.2 m:map.sorted", 1, 0),
    ("k:utf8 v:bool e:struct.2 m@1:map", 0, 0),
    ("k@1:utf8 v@2:bool e:struct.2 m:map", 0, 0),
    (
        "k:utf8 k:utf8 v:bool e:struct.2 v:map e:struct.2 m:map",
        0,
        0,
    ),
    // Maps of another child: not a struct, with another number of fields, dictionary-encoded.
    ("n:null m:map", 0, 8),
    ("k:utf8 l:list m:map", 0, 8),
    ("e:struct.0 m:map", 0, 8),
    ("k:utf8 e:struct.1 m:map", 0, 8),
    ("k:utf8 v:bool w:bool e:struct.3 m:map.sorted", 0, 8),
    ("k:utf8 v:bool e@1:struct.2 m:map", 0, 8),
    ("k:utf8 v:bool e:struct.2 m:map m:map", 0, 8),
    // Below other fields, and next to a map that has entries.
    ("n:null m:map l:list s:struct.1", 0, 8),
    ("k:utf8 n:null v:map e:struct.2 m:map", 0, 8),
    ("k:utf8 v:bool e:struct.2 m:map n:null m:map", 2, 8),
    // The last of all faults.
    ("f:fixed.2147483648 n:null m:map", 0, 6),
    ("n:null m:map", 65_537, 7),
    ("k@1:utf8 m@2:map", 0, 3),
];

#[test]
fn maps_have_entries(rt: HostRuntime) {
    are_judged(&rt, &MAPS);
}

/// The same for decimals.
static DECIMALS: [(&str, usize, u8); 31] = [
    // The least and the greatest precision of each width, and those next to them.
    ("d:decimal.32,0,0", 0, 9),
    ("d:decimal.32,1,0", 0, 0),
    ("d:decimal.32,9,0", 0, 0),
    ("d:decimal.32,10,0", 0, 9),
    ("d:decimal.64,0,0", 0, 9),
    ("d:decimal.64,18,0", 0, 0),
    ("d:decimal.64,19,0", 0, 9),
    ("d:decimal.128,0,0", 0, 9),
    ("d:decimal.128,38,0", 0, 0),
    ("d:decimal.128,39,0", 0, 9),
    ("d:decimal.256,0,0", 0, 9),
    ("d:decimal.256,1,0", 0, 0),
    ("d:decimal.256,76,0", 0, 0),
    ("d:decimal.256,77,0", 0, 9),
    ("d:decimal.256,255,0", 0, 9),
    // The same for the scale, which may be greater than the precision.
    ("d:decimal.32,9,-77", 0, 9),
    ("d:decimal.32,9,-76", 0, 0),
    ("d:decimal.32,9,76", 0, 0),
    ("d:decimal.32,9,77", 0, 9),
    ("d:decimal.256,76,-128", 0, 9),
    ("d:decimal.256,76,127", 0, 9),
    ("d:decimal.256,76,-76", 1, 0),
    // Below other fields, by a dictionary, and next to decimals that are allowed.
    ("d:decimal.64,19,0 l:list s:struct.1", 0, 9),
    ("d@1:decimal.128,0,3", 0, 9),
    ("d@1:decimal.128,1,3", 0, 0),
    ("d:decimal.128,38,3 e:decimal.64,38,3", 0, 9),
    ("k:utf8 d:decimal.32,0,0 e:struct.2 m:map", 0, 9),
    // The last of all faults.
    ("d:decimal.32,0,0 f:fixed.2147483648", 0, 6),
    ("d:decimal.32,0,0", 65_537, 7),
    ("d:decimal.32,0,0 m:map", 0, 8),
    ("d@1:decimal.32,0,0 l@2:list", 0, 3),
];

#[test]
fn decimals_keep_to_their_range(rt: HostRuntime) {
    are_judged(&rt, &DECIMALS);
}

/// The faults in the order of their numbers, which begin at 1, and what each says.
static WORDS: [(SchemaFault, &str); 9] = [
    (TooDeep, "more than 32 levels of fields"),
    (TooManyFields, "more than 65,536 fields"),
    (NestedDictionary, "a dictionary below a dictionary"),
    (SharedIdTypesDiffer, "two value types for one dictionary id"),
    (Memory, "out of memory"),
    (ByteWidth, "a fixed size of more than 2,147,483,647"),
    (TooManyPairs, "more than 65,536 pairs of metadata"),
    (
        MapEntries,
        "a map whose child is not a struct of two fields",
    ),
    (
        DecimalRange,
        "a decimal of a precision or a scale out of range",
    ),
];

#[test]
fn faults_in_words(rt: HostRuntime) {
    for (place, (fault, expected)) in WORDS.iter().enumerate() {
        let words = format!(in rt.alloc(); "{fault}").expect(&rt, MEMORY);
        assert_eq!(rt; words.as_str(), *expected);
        assert_eq!(rt; usize::from(fault.number()), place + 1, "{words}");
    }
}

const TWICE: &str =
    "k@5:utf8 k@9:bool k@-3:null l:list k@5:utf8 s:struct.3 k@2:utf8 k@9:bool s:struct.2";

/// Columns, the ids of their dictionaries and how many columns there are.
static IDS: [(&str, &[i64], usize); 2] = [("k@0:utf8", &[0], 1), (TWICE, &[5, 9, -3, 2], 3)];

fn schema(rt: &(impl Abort + AllocGlobal), words: &str) -> Schema {
    Schema::new(rt.alloc(), columns(rt, words)).expect(rt, "a schema")
}

fn has_ids(schema: &Schema, ids: &[i64], count: usize) -> bool {
    schema.dictionary_ids() == ids && schema.fields().len() == count
}

#[test]
fn ids_come_in_pre_order_once(rt: HostRuntime) {
    for (words, ids, count) in &IDS {
        let schema = schema(&rt, words);
        assert!(rt; has_ids(&schema, ids, *count), "{words}");
    }
}

/// A column, the names of its children, and whether there is a dictionary below it.
static CHILDREN: [(&str, &[&str], bool); 10] = [
    ("item:bool l:list", &["item"], false),
    (":bool :bool k@0:utf8 s:struct.3", &["", "", "k"], true),
    ("t:utf8", &[], false),
    ("t:large_utf8", &[], false),
    ("k@0:duration.s l:large_list", &["k"], true),
    (":bool :bool k@0:utf8 i:struct.3 l:list", &["i"], true),
    ("item:bool l:fixed_list.3", &["item"], false),
    ("item:bool l:fixed_list.0", &["item"], false),
    ("k@0:utf8 l:fixed_list.2", &["k"], true),
    ("k:utf8 v@3:bool e:struct.2 m:map", &["e"], true),
];

fn are_named(fields: &[Field], names: &[&str]) -> bool {
    let mut pairs = fields.iter().zip(names);
    fields.len() == names.len() && pairs.all(|(field, name)| field.name.as_str() == *name)
}

#[test]
fn children_of_lists_and_structs(rt: HostRuntime) {
    for (words, names, encoding_below) in &CHILDREN {
        let of = column(&rt, words).data_type;
        assert!(rt; are_named(of.children(), names), "{words}");
        assert!(rt; of.has_encoding_below() == *encoding_below, "{words}");
    }
}

const COPIED: &str = "k@1:utf8 z:timestamp.UTC i:time.s l:list d:duration.ns f:fixed.16 \
    b:large_binary t:large_utf8 m:large_list n:large_list s:struct.6 d:double f:float \
    m:interval.year_month t:interval.day_time i:interval.month_day_nano s:struct.3 \
    k:utf8 v:bool e:struct.2 y:map.sorted p:decimal.256,76,-76 n:null o:fixed_list.2147483647";

fn is_copied(rt: &(impl Abort + AllocGlobal), field: &Field) {
    assert!(rt; field.copy(rt.alloc()).expect(rt, MEMORY) == *field);
    let of = field.data_type.copy(rt.alloc()).expect(rt, MEMORY);
    assert!(rt; of == field.data_type && of.same(&field.data_type));
}

#[test]
fn copies_are_equal(rt: HostRuntime) {
    let schema = schema(&rt, COPIED);
    for field in schema.fields() {
        is_copied(&rt, field);
    }
    let copy = schema.copy(rt.alloc()).expect(&rt, MEMORY);
    assert!(rt; copy == schema);
    assert!(rt; has_ids(&copy, &[1], 8));
}

/// Fields that each differ from `k@0:timestamp.UTC`, and whether their type is the same.
static OTHERS: [(&str, bool); 6] = [
    ("k:timestamp.UTC", true),
    ("k@1:timestamp.UTC", true),
    ("k@0:timestamp.utc", false),
    ("k@0:timestamp", false),
    ("k@0:time.us", false),
    ("K@0:timestamp.UTC", true),
];

fn is_other(rt: &(impl Abort + AllocGlobal), plain: &Field, words: &str, is_same: bool) {
    let other = column(rt, words);
    assert!(rt; *plain != other, "{words}");
    assert!(rt;
        plain.data_type.same(&other.data_type) == is_same,
        "{words}"
    );
}

#[test]
fn equality_reads_everything(rt: HostRuntime) {
    let plain = column(&rt, "k@0:timestamp.UTC");
    for (words, is_same) in &OTHERS {
        is_other(&rt, &plain, words, *is_same);
    }
    let mut other = plain.copy(rt.alloc()).expect(&rt, MEMORY);
    assert!(rt; plain == other);
    other.nullable = false;
    assert!(rt; plain != other);
}

/// Types, no two of which are the same; then lists of each width of offsets and of two sizes, of two
/// items.
const APART: &str = "c:binary c:large_binary c:fixed.0 c:fixed.3 c:fixed.4 c:utf8 c:large_utf8 \
    c:time.s c:duration.s c:duration.ms c:duration.us c:duration.ns c:struct.0 c:null \
    c:halffloat c:float c:double c:interval.year_month c:interval.day_time \
    c:interval.month_day_nano e:struct.0 c:map e:struct.0 c:map.sorted k:null c:map \
    c:decimal.64,9,2 c:decimal.128,9,2 c:decimal.64,8,2 c:decimal.64,9,-2 c:decimal.64,9,1 \
    k:null c:fixed_list.0 k:null c:fixed_list.2 k:null c:fixed_list.3 k:bool c:fixed_list.3";

const LISTS: &str =
    "t:utf8 l:list t:utf8 l:large_list t:large_utf8 l:list t:large_utf8 l:large_list \
    t:utf8 l:fixed_list.1 t:large_utf8 l:fixed_list.1 t:utf8 l:fixed_list.4294967295";

/// That each type is the same only as itself, and equal to it.
fn are_apart(rt: &impl Abort, columns: &[Field]) {
    for (i, one) in columns.iter().enumerate() {
        for (j, other) in columns.iter().enumerate() {
            assert!(rt; one.data_type.same(&other.data_type) == (i == j), "{i} {j}");
            assert!(rt; (one.data_type == other.data_type) == (i == j), "{i} {j}");
        }
    }
}

#[test]
fn widths_units_items_and_offsets_distinguish_types(rt: HostRuntime) {
    are_apart(&rt, &columns(&rt, APART));
    are_apart(&rt, &columns(&rt, LISTS));
}
