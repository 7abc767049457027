//! Dictionaries of one and of several segments, and the columns that refer to them.

use super::making::{append, column, dictionary, halves, listed};
use super::reported::{has_same, has_value, has_values, shows};
use arrow_data::{Array, Dictionary};
use std::process::Abort;

const MEMORY: &str = "memory";

/// The column of texts of one letter each, at most six.
fn letters(rt: &(impl Abort + AllocGlobal), letters: &str) -> String {
    let count = letters.len();
    let offsets = "0 1 2 3 4 5 6";
    let end = count.min(6).wrapping_mul(2).wrapping_add(1);
    let offsets = offsets.get(..end).expect(rt, "few letters");
    format!(in rt.alloc(); "utf8; {count}; / i {offsets} / '{letters}'").expect(rt, MEMORY)
}

fn add(rt: &(impl Abort + AllocGlobal), dictionary: &mut Dictionary, segment: &str) {
    append(rt, dictionary, &letters(rt, segment));
}

/// A dictionary of letters, with a bar between its segments.
fn spelled(rt: &(impl Abort + AllocGlobal), segments: &str) -> Dictionary {
    let (first, rest) = segments.split_once('|').unwrap_or((segments, ""));
    let mut all = dictionary(rt, &[&letters(rt, first)]);
    if first.len() < segments.len() {
        for segment in rest.split('|') {
            add(rt, &mut all, segment);
        }
    }
    all
}

/// The letters of each segment of a dictionary, and its values. Segments without values are between
/// others, and at both ends.
static SPELLED: [(&str, &str); 4] = [
    ("abc|de", "5: 0/3 'a', 1/3 'b', 2/3 'c', 0/2 'd', 1/2 'e'"),
    (
        "|ab|||c|def|g||h|",
        "8: 0/2 'a', 1/2 'b', 0/1 'c', 0/3 'd', 1/3 'e', 2/3 'f', 0/1 'g', 0/1 'h'",
    ),
    ("", "0: none"),
    ("a", "1: 0/1 'a'"),
];

#[test]
fn values_of_segments(rt: HostRuntime) {
    for (segments, expected) in &SPELLED {
        has_values(&rt, &spelled(&rt, segments), expected);
    }
}

/// The segments of two dictionaries, and whether they are equal.
static EQUAL: [(&str, &str, bool); 12] = [
    ("abcde", "abc|de", true),
    ("abcde", "a|bcde", true),
    ("a|bcde", "abc|de", true),
    ("abcde", "abcde|", true),
    ("abcde|", "abc|de", true),
    ("abcde", "abc|df", false),
    ("abc|df", "abc|de", false),
    ("abcde", "abc|d", false),
    ("abc|d", "abc|de", false),
    ("abcde", "abc|def", false),
    ("abc|def", "abc|de", false),
    ("a", "", false),
];

fn is_answered(rt: &impl Abort, name: &str, answer: bool, expected: bool) {
    assert_eq!(rt; answer, expected, "{name}");
}

/// Asserts that two dictionaries are equal, or that they are not.
fn are_equal(rt: &impl Abort, name: &str, one: &Dictionary, other: &Dictionary, expected: bool) {
    is_answered(rt, name, *one == *other, expected);
    is_answered(rt, name, *other == *one, expected);
    is_answered(rt, name, *one != *other, !expected);
}

#[test]
fn equality_of_values(rt: HostRuntime) {
    for (one, other, expected) in &EQUAL {
        are_equal(
            &rt,
            other,
            &spelled(&rt, one),
            &spelled(&rt, other),
            *expected,
        );
    }
}

#[test]
fn an_empty_dictionary_of_another_type(rt: HostRuntime) {
    let other = dictionary(&rt, &["null; 0"]);
    has_values(&rt, &other, "0: none");
    are_equal(&rt, "no nulls", &other, &spelled(&rt, ""), true);
}

/// Values of two columns of the most slots that a column can have, and their positions.
static MANY: [(usize, &str); 4] = [
    (0, "0/2147483647 null"),
    (2147483646, "2147483646/2147483647 null"),
    (2147483647, "0/2147483647 null"),
    (4294967293, "2147483646/2147483647 null"),
];

/// The nulls of type Null take no bytes of a body.
const NULLS: &str = "null; 2147483647";

fn has_len(rt: &impl Abort, dictionary: &Dictionary, expected: usize) {
    assert_eq!(rt; dictionary.len(), expected);
}

#[test]
fn nulls_without_bytes(rt: HostRuntime) {
    let all = dictionary(&rt, &[NULLS, NULLS]);
    has_len(&rt, &all, 4294967294);
    for (i, expected) in &MANY {
        has_value(&rt, &all, *i, expected);
    }
}

/// The letters of three segments, again and again, `count` segments in all.
fn again(rt: &(impl Abort + AllocGlobal), parts: [&str; 3], count: usize) -> Dictionary {
    let mut all = spelled(rt, parts[0]);
    for k in 1..count {
        add(rt, &mut all, parts[k % 3]);
    }
    all
}

/// Values of 200 segments, which repeat `ab`, none and `c`, and their positions. Lists of segments
/// are shared 64 at a time, so the first 64 have the values 0 to 64, and the first 128 those up to
/// 128.
static LETTERS: [(usize, &str); 10] = [
    (0, "0/2 'a'"),
    (1, "1/2 'b'"),
    (2, "0/1 'c'"),
    (63, "0/2 'a'"),
    (64, "1/2 'b'"),
    (65, "0/1 'c'"),
    (127, "1/2 'b'"),
    (128, "0/1 'c'"),
    (129, "0/2 'a'"),
    (199, "1/2 'b'"),
];

fn has_letters(rt: &(impl Abort + AllocGlobal), all: &Dictionary, len: usize) {
    has_len(rt, all, len);
    for (i, expected) in &LETTERS {
        has_value(rt, all, *i, expected);
    }
}

/// Also that a copy has the same values, and that values appended to one are not in the other.
#[test]
fn values_of_many_segments(rt: HostRuntime) {
    let mut many = again(&rt, ["ab", "", "c"], 200);
    let copy = many.copy(rt.alloc()).expect(&rt, MEMORY);
    add(&rt, &mut many, "c");
    has_letters(&rt, &copy, 200);
    has_letters(&rt, &many, 201);
    are_equal(&rt, "abc", &many, &again(&rt, ["abc", "", ""], 200), true);
    are_equal(&rt, "a|b|c", &many, &again(&rt, ["a", "b", "c"], 201), true);
    are_equal(&rt, "a copy", &copy, &many, false);
}

/// Values appended to one of two copies are not in the other.
#[test]
fn a_copy_stays_as_it_was(rt: HostRuntime) {
    let mut grown = spelled(&rt, "abc");
    let copy = grown.copy(rt.alloc()).expect(&rt, MEMORY);
    are_equal(&rt, "at first", &copy, &grown, true);
    add(&rt, &mut grown, "de");
    let expected = "5: 0/3 'a', 1/3 'b', 2/3 'c', 0/2 'd', 1/2 'e'";
    has_values(&rt, &grown, expected);
    has_values(&rt, &copy, "3: 0/3 'a', 1/3 'b', 2/3 'c'");
    are_equal(&rt, "grown", &copy, &grown, false);
}

/// The letters of a dictionary, if there is one, and a column of indices with what it shows.
static INDICES: [(Option<&str>, &str); 8] = [
    (
        Some("abc|de"),
        "4; 251 / 4 0 9 2 => 4: 4='e', 0='a', null, 2='c' | 5 values of 0",
    ),
    (Some("abc"), "1; / 3 => no column"),
    (Some("abc"), "1; 254 / 3 => 1: null | 3 values of 0"),
    (Some("abc"), "1; / 255 => no column"),
    (Some("abc"), "1; 254 / 255 => 1: null | 3 values of 0"),
    (None, "2; 0 / 7 8 => 2: null, null | 0 values of 0"),
    (None, "1; / 0 => no column"),
    (Some("|ab||c"), "1; / 2 => 1: 2='c' | 3 values of 0"),
];

/// A column of signed indices of 8 bits into the dictionary of these letters.
fn by_letters(
    rt: &(impl Abort + AllocGlobal),
    segments: Option<&str>,
    parts: &str,
) -> Option<Array> {
    let text = format!(in rt.alloc(); "by:0:int8 utf8; {parts}").expect(rt, MEMORY);
    match segments {
        Some(segments) => column(rt, &text, &listed(rt, spelled(rt, segments))),
        None => column(rt, &text, &[]),
    }
}

#[test]
fn indices_of_letters(rt: HostRuntime) {
    for (segments, row) in &INDICES {
        let (parts, expected) = halves(&rt, row);
        shows(&rt, row, &by_letters(&rt, *segments, parts), expected);
    }
}

/// Slots with indices are equal if their indices are, whatever the dictionaries hold.
#[test]
fn equal_indices(rt: HostRuntime) {
    let column = by_letters(&rt, Some("ab"), "4; 251 / 1 0 9 1");
    let other = by_letters(&rt, Some("xyz"), "2; / 0 1");
    let other = other.expect(&rt, "a column");
    has_same(&rt, &column.expect(&rt, "a column"), &other, "-= =- -- -=");
}

/// The lists of 1, of none, and of 2 and 3; then those of 4, and of 5 and 6.
const LISTS: &[&str] = &[
    "list int32; 3 3; / i 0 1 1 3 / / i 1 2 3",
    "list int32; 2 3; / i 0 1 3 / / i 4 5 6",
];

#[test]
fn lists_of_two_segments(rt: HostRuntime) {
    let expected = "5: 0/3 0..1 [1], 1/3 1..1 [], 2/3 1..3 [2 3], 0/2 0..1 [4], 1/2 1..3 [5 6]";
    has_values(&rt, &dictionary(&rt, LISTS), expected);
}

/// The values of a dictionary, a column of indices, and what it shows. A value may be null: the index
/// is there all the same.
static REFERRING: [(&[&str], &str, &str); 3] = [
    (
        &["int32; 2; 2 / i 0 7"],
        "by:0:int8 int32; 2; / 0 1",
        "2: 0=null, 1=7 | 2 values of 0",
    ),
    (
        &["fixed_size_binary[3]; 2; 1 / 0 1 255 0 0 0"],
        "by:0:int8 fixed_size_binary[3]; 3; 3 / 1 0 9",
        "3: 1=null, 0=[0, 1, 255], null | 2 values of 0",
    ),
    (
        LISTS,
        "by:0:int8 list int32; 5; 251 / 4 0 9 1 2",
        "5: 4=1..3 [5 6], 0=0..1 [1], null, 1=1..1 [], 2=1..3 [2 3] | 5 values of 0",
    ),
];

#[test]
fn indices_of_other_values(rt: HostRuntime) {
    for (values, text, expected) in &REFERRING {
        let listed = listed(&rt, dictionary(&rt, values));
        shows(&rt, text, &column(&rt, text, &listed), expected);
    }
}

/// Lists in one segment, and whether their dictionary is equal to that of the five lists, whatever
/// the segments that hold them.
static FIVE_LISTS: [(&str, bool); 3] = [
    ("list int32; 5 6; / i 0 1 1 3 4 6 / / i 1 2 3 4 5 6", true),
    ("list int32; 5 6; / i 0 1 1 3 4 6 / / i 1 2 3 4 5 7", false),
    ("list int32; 5 6; / i 0 0 1 3 4 6 / / i 1 2 3 4 5 6", false),
];

#[test]
fn equal_dictionaries_of_lists(rt: HostRuntime) {
    let parts = dictionary(&rt, LISTS);
    for (text, expected) in &FIVE_LISTS {
        are_equal(&rt, text, &dictionary(&rt, &[text]), &parts, *expected);
    }
}
