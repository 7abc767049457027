//! Columns that have one dictionary id, themselves or below lists and structs: which batches are
//! rejected, and which dictionary is sent.

use super::batches::Form::{List, Struct, Text};
use super::batches::Rows::{self, Bare, Built};
use super::batches::{INDICES, Kind};
use super::writers::{WIDE, answer_to};
use std::process::Abort;

const T: Kind = ("", true, Text, Some(INDICES));

const L: Kind = ("", true, List, Some(INDICES));

const S: Kind = ("", true, Struct, Some(INDICES));

const DIFFER: &str = "DictionariesDiffer";

/// The columns of a batch, and the dictionaries that were sent or the fault with which it is
/// rejected.
static ROWS: [(Rows, &str); 14] = [
    (Built(&[(T, "xy", "0")]), "0:xy "),
    (Built(&[(L, "xy", "0")]), "0:xy "),
    (Built(&[(S, "xy", "0")]), "0:xy "),
    (Built(&[(T, "xy", "0"), (T, "xy", "0")]), "0:xy "),
    (Built(&[(S, "xy", "0"), (L, "xy", "0")]), "0:xy "),
    // Another text, one more and one fewer.
    (Built(&[(T, "xy", "0"), (T, "xz", "0")]), DIFFER),
    (Built(&[(T, "x", "0"), (T, "xy", "0")]), DIFFER),
    (Built(&[(T, "xy", "0"), (T, "x", "0")]), DIFFER),
    // The same texts in another order.
    (Built(&[(T, "xy", "0"), (T, "yx", "0")]), DIFFER),
    (Built(&[(T, "x", "0"), (L, "y", "0")]), DIFFER),
    (Built(&[(S, "x", "0"), (T, "y", "0")]), DIFFER),
    (Built(&[(L, "x", "0"), (S, "y", "0")]), DIFFER),
    (
        Built(&[(T, "x", "0"), (T, "x", "0"), (T, "y", "0")]),
        DIFFER,
    ),
    (Bare(1), ""),
];

#[test]
fn columns_of_one_dictionary(rt: HostRuntime) {
    for (number, (rows, wanted)) in ROWS.iter().enumerate() {
        let text = answer_to(&rt, *rows, WIDE);
        assert_eq!(rt; text.as_str(), *wanted, "row {number}");
    }
}
