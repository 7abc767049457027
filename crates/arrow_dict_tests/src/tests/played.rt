//! Calls of a store and of a tracker, one after the other, each with its result.

use super::making::{appended, dictionary, number, values};
use arrow_data::Dictionary;
use arrow_dict::{Store, Tracker, Updates};
use std::alloc::Global;
use std::process::Abort;

/// The objects that the calls of a script are made on, and the copy that one of the calls took.
#[derive(Drop)]
struct Played {
    store: Store,
    tracker: Tracker,
    copied: Option<Dictionary>,
}

impl Played {
    /// Makes a call, with what it names after the id, and appends its result.
    fn call(&mut self, rt: &impl Abort, alloc: Global, call: &str, text: &mut String) {
        let (name, more) = call.split_once(' ').unwrap_or((call, ""));
        let (id, of) = more.split_once(' ').unwrap_or((more, ""));
        let id = id_in(id);
        match name {
            "put" => {
                let replaced = self.store.replace(id, dictionary(rt, alloc, of));
                replaced.expect(rt, "memory");
            }
            "append" => match appended(rt, alloc, &mut self.store, id, values(rt, alloc, of)) {
                Some(fault) => write!(text, " -> {fault:?}").expect(rt, "memory"),
                None => text.push_str(" -> appended").expect(rt, "memory"),
            },
            "clear" => self.store.clear(),
            "get" => push_values(rt, text, self.store.get(id)),
            "count" => push_count(rt, text, self.store.get(id)),
            "type" => push_type(rt, text, self.store.get(id)),
            "all" => push_all(rt, text, self.store.entries()),
            "copy" => self.copied = Some(copy(rt, alloc, self.store.get(id))),
            "copied" => push_values(rt, text, self.copied.as_ref()),
            _ => self.call_tracker(rt, alloc, (name, id, of), text),
        }
    }

    /// The same for a call of the tracker.
    fn call_tracker(
        &mut self,
        rt: &impl Abort,
        alloc: Global,
        (name, id, of): (&str, i64, &str),
        text: &mut String,
    ) {
        match name {
            "delta" | "resend" => {
                let by = if name == "delta" {
                    Updates::Delta
                } else {
                    Updates::Resend
                };
                let update = self.tracker.plan(id, &dictionary(rt, alloc, of), by);
                write!(text, " -> {update:?}").expect(rt, "memory");
            }
            "stage" => {
                let staged = self.tracker.stage(alloc, id, &dictionary(rt, alloc, of));
                staged.expect(rt, "memory");
            }
            "commit" => self.tracker.commit(),
            "discard" => self.tracker.discard(),
            "sent" => push_values(rt, text, self.tracker.sent(id)),
            "sents" => push_all(rt, text, self.tracker.entries()),
            _ => panic!(rt; "{name} is no call"),
        }
    }
}

/// The id of a word, 0 if there is none.
fn id_in(word: &str) -> i64 {
    match word {
        "MIN" => i64::MIN,
        "MAX" => i64::MAX,
        _ => word.parse::<i64>().unwrap_or(0),
    }
}

fn copy(rt: &impl Abort, alloc: Global, dictionary: Option<&Dictionary>) -> Dictionary {
    let dictionary = dictionary.expect(rt, "a dictionary");
    dictionary.copy(alloc).expect(rt, "memory")
}

fn push_count(rt: &impl Abort, text: &mut String, dictionary: Option<&Dictionary>) {
    let count = dictionary.map_or(0, |it| it.len());
    write!(text, " -> {count}").expect(rt, "memory");
}

fn push_type(rt: &impl Abort, text: &mut String, dictionary: Option<&Dictionary>) {
    let of = dictionary.map(|it| it.data_type());
    write!(text, " -> {of:?}").expect(rt, "memory");
}

fn push_values(rt: &impl Abort, text: &mut String, dictionary: Option<&Dictionary>) {
    text.push_str(" -> ").expect(rt, "memory");
    match dictionary {
        Some(dictionary) => push_numbers(rt, text, dictionary),
        None => text.push_str("none").expect(rt, "memory"),
    }
}

fn push_all(rt: &impl Abort, text: &mut String, entries: &[(i64, Dictionary)]) {
    text.push_str(" ->").expect(rt, "memory");
    for (id, dictionary) in entries {
        write!(text, " {id}=").expect(rt, "memory");
        push_numbers(rt, text, dictionary);
    }
}

/// The numbers that the values of a dictionary are, between brackets.
fn push_numbers(rt: &impl Abort, text: &mut String, dictionary: &Dictionary) {
    text.push('[').expect(rt, "memory");
    for i in 0..dictionary.len() {
        if i > 0 {
            text.push(' ').expect(rt, "memory");
        }
        match number(dictionary, i) {
            Some(number) => write!(text, "{number}").expect(rt, "memory"),
            None => text.push_str("null").expect(rt, "memory"),
        }
    }
    text.push(']').expect(rt, "memory");
}

/// Asserts that the calls of a script, made on a new store and a new tracker, return what the script
/// has after each call.
pub(super) fn is_played(rt: &(impl Abort + AllocGlobal), script: &str) {
    let mut played = Played {
        store: Store::new(rt.alloc()),
        tracker: Tracker::new(rt.alloc()),
        copied: None,
    };
    let mut text = String::new(rt.alloc());
    for line in script.split("; ") {
        let call = line.split_once(" ->").map_or(line, |parts| parts.0);
        let before = if text.is_empty() { "" } else { "; " };
        write!(text, "{before}{call}").expect(rt, "memory");
        played.call(rt, rt.alloc(), call, &mut text);
    }
    assert_eq!(rt; text.as_str(), script);
}
