//! Whether dictionaries have the types that fields ask for.

use super::bodies::{dictionary, listed, loaded};
use super::reported::holds;
use arrow_body_reader::are_fit;
use arrow_data::Dictionary;
use arrow_test_fields::fields_of;
use std::process::Abort;

/// The types of the fields, the type of the values of dictionary 0, or nothing if there is none, and
/// whether they fit.
static FITTING: [(&str, &str, bool); 23] = [
    ("by:0:int8 utf8", "", true),
    ("by:0:int8 utf8", "utf8", true),
    ("by:0:int8 utf8", "large_utf8", false),
    ("by:0:int8 utf8", "binary", false),
    ("by:0:int8 utf8", "null", false),
    ("by:1:int8 utf8", "binary", true),
    ("by:0:int8 int32", "int32", true),
    ("by:0:int8 int32", "uint32", false),
    ("by:0:int8 int32", "int64", false),
    (
        "by:0:int8 fixed_size_binary[3]",
        "fixed_size_binary[3]",
        true,
    ),
    (
        "by:0:int8 fixed_size_binary[3]",
        "fixed_size_binary[4]",
        false,
    ),
    ("by:0:int8 decimal[128:38:2]", "decimal[128:38:2]", true),
    ("by:0:int8 decimal[128:38:2]", "decimal[128:38:-2]", false),
    ("by:0:int8 decimal[128:38:2]", "decimal[128:37:2]", false),
    ("by:0:int8 decimal[64:18:2]", "decimal[128:18:2]", false),
    ("by:0:int8 decimal[32:9:0]", "int32", false),
    (
        "by:0:int8 decimal[256:76:2]",
        "fixed_size_binary[32]",
        false,
    ),
    ("by:0:int8 decimal[256:76:2]", "decimal[256:76:2]", true),
    ("utf8 by:0:int8 utf8", "binary", false),
    ("list struct[2] bool by:0:int8 utf8", "utf8", true),
    ("list struct[2] bool by:0:int8 utf8", "binary", false),
    // A dictionary below a dictionary, and below a dictionary of lists.
    ("by:0:int8 struct[1] by:1:int8 utf8", "", false),
    ("by:0:int8 list struct[1] by:1:int8 utf8", "", false),
];

/// Dictionary 0 without values, if a type is given.
fn empty(rt: &(impl Abort + AllocGlobal), of: &str) -> Vec<(i64, Dictionary)> {
    if of.is_empty() {
        return Vec::new(rt.alloc());
    }
    let values = loaded(rt, of, "0/0 | #, #, #", &[]);
    listed(rt, 0, dictionary(rt, values))
}

fn fit(rt: &(impl Abort + AllocGlobal), of: &str, values: &str) -> bool {
    are_fit(
        &fields_of(rt.alloc(), of).expect(rt, "fields"),
        &empty(rt, values),
    )
}

#[test]
fn dictionaries_of_their_types(rt: HostRuntime) {
    for (of, values, expected) in &FITTING {
        holds(&rt, of, fit(&rt, of, values) == *expected);
    }
}
