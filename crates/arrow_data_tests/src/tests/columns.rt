//! Columns of every type, without dictionaries.

use super::making::{column, halves, plain};
use super::reported::{has_same, shows};

/// Columns, and what they show. A validity of 253 has a null in the second slot, and all spare bits are
/// set.
static COLUMNS: [&str; 63] = [
    "int32; 3; 5 / i 1 0 3 => 3: 1, null, 3",
    "utf8; 3; 5 / i 0 1 1 3 / 'abc' => 3: 'a', null, 'bc'",
    "binary; 2; / i 0 1 1 / 255 => 2: [255], []",
    "utf8; 2; / i 0 1 1 / 255 => no column",
    "bool; 4; 251 / 249 => 4: true, false, null, true",
    "bool; 3; 253 / 251 => 3: true, null, false",
    "null; 4 => 4: null, null, null, null",
    "null; 0 => 0:",
    "bool; 0; / => 0:",
    "int32; 0; / => 0:",
    "binary; 0; / / => 0:",
    "utf8; 0; / / => 0:",
    "large_utf8; 0; / / => 0:",
    "date[day]; 0; / => 0:",
    "utf8; 0; / 0 0 / => no column",
    "large_binary; 0; / l 0 / => 0:",
    "large_binary; 0; / i 0 / => no column",
    // Under the null are two bytes that are not UTF-8.
    "binary; 3; 253 / i 0 1 3 4 / 97 255 255 100 => 3: [97], null, [100]",
    "utf8; 3; 253 / i 0 1 3 4 / 97 255 255 100 => 3: 'a', null, 'd'",
    "large_utf8; 3; 5 / l 0 1 1 3 / 'abc' => 3: 'a', null, 'bc'",
    "large_utf8; 2; 2 / l 0 1 2 / 255 97 => 2: null, 'a'",
    "large_utf8; 2; / l 0 1 2 / 255 97 => no column",
    // From the second byte on.
    "large_binary; 3; / l 1 4 4 7 / 5 0 1 255 9 9 9 6 => 3: [0, 1, 255], [], [9, 9, 9]",
    // In the last of these the lower half of an offset by itself would be valid.
    "large_binary; 1; / l 0 2 / 'ab' => 1: [97, 98]",
    "large_binary; 1; / l 1 2 / 'ab' => 1: [98]",
    "large_binary; 1; / l -1 2 / 'ab' => no column",
    "large_binary; 1; / l 2 1 / 'ab' => no column",
    "large_binary; 1; / l 0 4294967297 / 'ab' => no column",
    "large_binary; 1; / l 4294967296 4294967297 / 'ab' => no column",
    "fixed_size_binary[3]; 2; 1 / 0 1 255 0 0 0 => 2: [0, 1, 255], null",
    "fixed_size_binary[3]; 3; 253 / 0 1 255 7 7 7 9 9 9 8 8 => 3: [0, 1, 255], null, [9, 9, 9]",
    "fixed_size_binary[3]; 2; / 1 2 3 4 5 => no column",
    "fixed_size_binary[3]; 2; / 1 2 => no column",
    "fixed_size_binary[0]; 2; 2 / => 2: null, []",
    "fixed_size_binary[2147483647]; 0; / => 0:",
    "fixed_size_binary[2147483647]; 1; / l 0 0 => no column",
    "duration[s]; 2; / l -9223372036854775808 9223372036854775807 => \
     2: -9223372036854775808, 9223372036854775807",
    // One byte short of two numbers.
    "duration[ns]; 2; / 0 0 0 0 0 0 0 0 0 0 0 0 0 0 0 => no column",
    "list int32; 3 2; 5 / i 0 2 2 2 / / i 1 2 => 3: 0..2 [1 2], null, 2..2 [] | items 2: 1, 2",
    // The null list hides 2 and 3, and no list has the last items; the null struct hides 2.
    "list int32; 3 5; 253 / i 0 1 3 3 / / i 1 2 3 4 5 => \
     3: 0..1 [1], null, 3..3 [] | items 5: 1, 2, 3, 4, 5",
    "large_list int32; 3 5; 253 / l 1 2 4 4 / / i 0 1 2 3 4 => \
     3: 1..2 [1], null, 4..4 [] | items 5: 0, 1, 2, 3, 4",
    "large_list int32; 3 3; 253 / l 1 2 4 4 / / i 0 1 2 => no column",
    "fixed_size_list[2] int32; 2 4; / / i 1 2 3 4 => \
     2: 0..2 [1 2], 2..4 [3 4] | items 4: 1, 2, 3, 4",
    // The null list hides 3 and 4, and no list has the last item.
    "fixed_size_list[2] int32; 3 7; 253 / 127 / i 1 2 3 4 5 6 7 => \
     3: 0..2 [1 2], null, 4..6 [5 6] | items 7: 1, 2, 3, 4, 5, 6, 7",
    "fixed_size_list[1] int32; 2 2; / 1 / i 5 6 => 2: 0..1 [5], 1..2 [null] | items 2: 5, null",
    "fixed_size_list[0] int32; 3 0; 253 / / => 3: 0..0 [], null, 0..0 [] | items 0:",
    "fixed_size_list[3] int32; 0 0; / / => 0: | items 0:",
    // One slot short of two lists, and more slots than can be counted.
    "fixed_size_list[2] int32; 2 3; / / i 1 2 3 => no column",
    "fixed_size_list[2147483647] null; 2 2147483647; 3 => no column",
    "fixed_size_list[2147483647] null; 1 2147483646; 1 => no column",
    "fixed_size_list[2147483647] null; 0 0; 0 => 0: | items 0:",
    "struct[1] int32; 2 2; 1 / 1 / i 5 0 => 2: {0}, null | 1 fields | field 0 2: 5, null",
    "struct[1] int32; 3 5; 253 / / i 1 2 3 4 5 => \
     3: {0}, null, {2} | 1 fields | field 0 5: 1, 2, 3, 4, 5",
    // The bytes F1 to F8 and 9 to 16, nines under a null, and the least number.
    "decimal[128:38:2]; 3; 253 / 241 242 243 244 245 246 247 248 9 10 11 12 13 14 15 16 \
     9 9 9 9 9 9 9 9 9 9 9 9 9 9 9 9 0 0 0 0 0 0 0 0 0 0 0 0 0 0 0 128 => \
     3: 21345817372864405899208700669361124081, null, -170141183460469231731687303715884105728",
    // The last byte has the sign.
    "decimal[128:38:2]; 1; / 9 10 11 12 13 14 15 16 241 242 243 244 245 246 247 248 => \
     1: -9346317682749651623210535491940447735",
    "decimal[128:38:0]; 2; / l -1 9223372036854775807 -1 -1 => \
     2: 170141183460469231731687303715884105727, -1",
    "decimal[128:38:0]; 0; / => 0:",
    // One byte short of a number, and of two.
    "decimal[32:9:2]; 1; / 1 2 3 => no column",
    "decimal[64:18:2]; 1; / 1 2 3 4 5 6 7 => no column",
    "decimal[128:38:0]; 1; / 1 2 3 4 5 6 7 8 9 10 11 12 13 14 15 => no column",
    "decimal[128:38:0]; 2; / 0 0 0 0 0 0 0 0 0 0 0 0 0 0 0 0 0 0 0 0 0 0 0 0 0 0 0 0 0 0 0 => \
     no column",
    "decimal[256:76:2]; 1; / 0 0 0 0 0 0 0 0 0 0 0 0 0 0 0 0 0 0 0 0 0 0 0 0 0 0 0 0 0 0 0 => \
     no column",
    "decimal[256:76:2]; 2; 1 / l 1 2 3 -1 9 9 9 9 => \
     2: [1, 0, 0, 0, 0, 0, 0, 0, 2, 0, 0, 0, 0, 0, 0, 0, 3, 0, 0, 0, 0, 0, 0, 0, \
     255, 255, 255, 255, 255, 255, 255, 255], null",
];

#[test]
fn columns_of_each_type(rt: HostRuntime) {
    for row in &COLUMNS {
        let (text, expected) = halves(&rt, row);
        shows(&rt, text, &column(&rt, text, &[]), expected);
    }
}

/// After the validity, all spare bits of which are set, come the bytes F1 to F8 and 9 to 24.
const NUMBERS: &str = "; 3; 253 / 241 242 243 244 245 246 247 248 9 10 11 12 13 14 15 16 17 18 19 \
                       20 21 22 23 24";

/// Types of numbers, and what three slots show, the second of which is null: how wide they are, and
/// whether they are signed.
static TYPES: [&str; 27] = [
    "uint8 => 3: 241, null, 243",
    "int8 => 3: -15, null, -13",
    "uint16 => 3: 62193, null, 63221",
    "int16 => 3: -3343, null, -2315",
    "uint32 => 3: 4109628145, null, 202050057",
    "int32 => 3: -185339151, null, 202050057",
    "uint64 => 3: 17940079176890708721, null, 1735880461161533969",
    "int64 => 3: -506664896818842895, null, 1735880461161533969",
    "halffloat => 3: 62193, null, 63221",
    "float => 3: 4109628145, null, 202050057",
    "double => 3: 17940079176890708721, null, 1735880461161533969",
    "date[day] => 3: -185339151, null, 202050057",
    "date[ms] => 3: -506664896818842895, null, 1735880461161533969",
    "time[s] => 3: -185339151, null, 202050057",
    "time[ms] => 3: -185339151, null, 202050057",
    "time[us] => 3: -506664896818842895, null, 1735880461161533969",
    "time[ns] => 3: -506664896818842895, null, 1735880461161533969",
    "timestamp[s] => 3: -506664896818842895, null, 1735880461161533969",
    "timestamp[ms] => 3: -506664896818842895, null, 1735880461161533969",
    "timestamp[us] => 3: -506664896818842895, null, 1735880461161533969",
    "timestamp[ns] => 3: -506664896818842895, null, 1735880461161533969",
    "duration[s] => 3: -506664896818842895, null, 1735880461161533969",
    "duration[ms] => 3: -506664896818842895, null, 1735880461161533969",
    "duration[us] => 3: -506664896818842895, null, 1735880461161533969",
    "duration[ns] => 3: -506664896818842895, null, 1735880461161533969",
    "decimal[32:9:2] => 3: -185339151, null, 202050057",
    "decimal[64:18:-2] => 3: -506664896818842895, null, 1735880461161533969",
];

#[test]
fn numbers_beside_a_null(rt: HostRuntime) {
    for row in &TYPES {
        let (word, expected) = halves(&rt, row);
        let text = format!(in rt.alloc(); "{word}{NUMBERS}").expect(&rt, "memory");
        shows(&rt, word, &column(&rt, &text, &[]), expected);
    }
}

const TEXTS: &str = "utf8; 3; 5 / i 0 1 1 3 / 'abc'";

const LARGE_TEXTS: &str = "large_utf8; 3; 5 / l 0 1 1 3 / 'abc'";

const STRINGS: &str = "binary; 3; 253 / i 0 1 3 4 / 97 255 255 100";

const HIDDEN: &str = "utf8; 3; 253 / i 0 1 3 4 / 97 255 255 100";

const TRIPLES: &str = "fixed_size_binary[3]; 2; 1 / 0 1 255 0 0 0";

const HIDDEN_TRIPLES: &str = "fixed_size_binary[3]; 3; 253 / 0 1 255 7 7 7 9 9 9 8 8";

const LATER: &str = "large_binary; 3; / l 1 4 4 7 / 5 0 1 255 9 9 9 6";

const LISTS: &str = "list int32; 3 2; 5 / i 0 2 2 2 / / i 1 2";

const TWO_LISTS: &str = "list int32; 2 2; 253 / i 0 1 2 / / i 1 1";

const LARGE_LISTS: &str = "large_list int32; 3 5; 253 / l 1 2 4 4 / / i 0 1 2 3 4";

const SMALL_LISTS: &str = "list int32; 3 1; 253 / i 0 1 1 1 / / i 1";

const STRUCTS: &str = "struct[1] int32; 2 2; 1 / 1 / i 5 0";

const DECIMALS: &str = "decimal[128:38:2]; 4; 253 / l 5 0 9 9 5 1 -5 0";

const TWO_STRUCTS: &str = "struct[1] int32; 2 2; 253 / / i 1 1";

/// Two columns, and a word for each slot of the first: which slots of the second are equal to it.
/// Values are the same whatever the width of the offsets, or whether they have any; the bytes under
/// a null make no difference, and a null is equal only to another null.
static SAME: [(&str, &str, &str); 14] = [
    (TEXTS, TEXTS, "=-- -=- --="),
    ("null; 4", "bool; 4; 251 / 249", "--=- --=- --=- --=-"),
    (LISTS, LISTS, "=-- -=- --="),
    (STRUCTS, STRUCTS, "=- -="),
    (STRINGS, HIDDEN, "--- -=- ---"),
    (TWO_STRUCTS, TWO_LISTS, "-- -="),
    (TWO_STRUCTS, TWO_STRUCTS, "=- -="),
    (LARGE_TEXTS, TEXTS, "=-- -=- --="),
    (TRIPLES, HIDDEN_TRIPLES, "=-- -=-"),
    (LATER, HIDDEN_TRIPLES, "=-- --- --="),
    (LARGE_LISTS, SMALL_LISTS, "=-- -=- --="),
    (DECIMALS, DECIMALS, "=--- -=-- --=- ---="),
    // A number is the same number in each width, and the bits above 64 count.
    (DECIMALS, "int64; 3; 253 / l 5 9 -5", "=-- -=- --- ---"),
    (
        DECIMALS,
        "decimal[256:76:2]; 2; 2 / l 5 0 0 0 5 0 0 0",
        "-- =- -- --",
    ),
];

#[test]
fn equal_slots(rt: HostRuntime) {
    for (column, other, expected) in &SAME {
        has_same(&rt, &plain(&rt, column), &plain(&rt, other), expected);
    }
}
