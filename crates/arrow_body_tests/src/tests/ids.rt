//! Dictionaries in any order of their ids.

use super::bodies::{dictionary, loaded};
use super::reported::{is_text, reported};
use arrow_data::Dictionary;
use std::process::Abort;

/// The dictionary with one value, this number.
fn single(rt: &(impl Abort + AllocGlobal), value: u8) -> Dictionary {
    let words = format!(in rt.alloc(); "1/0 | #, {value}").expect(rt, "memory");
    dictionary(rt, loaded(rt, "int32", &words, &[]))
}

/// The text of the column of index 0 into the dictionary with this id.
fn reported_by(rt: &(impl Abort + AllocGlobal), listed: &[(i64, Dictionary)], id: i64) -> String {
    let of = format!(in rt.alloc(); "by:{id}:int8 int32").expect(rt, "memory");
    reported(rt, &loaded(rt, &of, "1/0 | #, #0", listed))
}

/// 200 ids, each with its own value, the first at -300, in steps of 3.
fn many(rt: &(impl Abort + AllocGlobal), falling: bool) -> Vec<(i64, Dictionary)> {
    let mut listed = Vec::new(rt.alloc());
    for value in 0..200u8 {
        let entry = ((value as i64) * 3 - 300, single(rt, value));
        listed.push(entry).expect(rt, "memory");
    }
    if falling {
        listed.reverse();
    }
    listed
}

fn has_each(rt: &(impl Abort + AllocGlobal), listed: &[(i64, Dictionary)]) {
    for value in 0..200u8 {
        let id = (value as i64) * 3 - 300;
        let got = reported_by(rt, listed, id);
        let expected = format!(in rt.alloc(); "1: 0 -> {value}").expect(rt, "memory");
        is_text(rt, "an id that is there", &got, &expected);
    }
}

fn has_no_other(rt: &(impl Abort + AllocGlobal), listed: &[(i64, Dictionary)]) {
    for id in [i64::MIN, -301, -299, 1, 296, 298, i64::MAX] {
        let got = reported_by(rt, listed, id);
        is_text(rt, "an id that is not there", &got, "Index");
    }
}

/// Each id is found, and none that is not there.
#[test]
fn many_ids_in_both_orders(rt: HostRuntime) {
    for falling in [false, true] {
        let listed = many(&rt, falling);
        has_each(&rt, &listed);
        has_no_other(&rt, &listed);
    }
}

/// Dictionaries with their ids and their one value, some of which have the same id.
static REPEATED: [[(i64, u8); 5]; 3] = [
    [(1, 10), (4, 40), (4, 41), (4, 42), (9, 90)],
    [(4, 40), (4, 41), (1, 10), (9, 90), (1, 11)],
    [(9, 90), (4, 40), (4, 41), (4, 42), (1, 10)],
];

fn listed(rt: &(impl Abort + AllocGlobal), entries: &[(i64, u8)]) -> Vec<(i64, Dictionary)> {
    let mut listed = Vec::new(rt.alloc());
    for (id, value) in entries {
        listed.push((*id, single(rt, *value))).expect(rt, "memory");
    }
    listed
}

fn has_the_first(rt: &(impl Abort + AllocGlobal), listed: &[(i64, Dictionary)]) {
    for (id, expected) in [(1, "1: 0 -> 10"), (4, "1: 0 -> 40"), (9, "1: 0 -> 90")] {
        let got = reported_by(rt, listed, id);
        is_text(rt, "an id that is there again", &got, expected);
    }
}

/// Of several dictionaries with the same id the first counts.
#[test]
fn the_first_of_one_id(rt: HostRuntime) {
    for entries in &REPEATED {
        has_the_first(&rt, &listed(&rt, entries));
    }
}
