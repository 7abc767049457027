//! The calls of a writer one after another: what each returns, and the state of the writer and its
//! sink after it.

use super::batches::Form::Text;
use super::batches::Rows::{self, Built};
use super::batches::{ABC, ABCDE, ACDE, INDICES, K, NO_COLUMNS, NUMBERS, OTHER, XX, XY, YX};
use super::writers::{Calls, DELTA, DELTA_64, FINISH, WIDE, assert_all};
use arrow_stream_writer::Options;
use arrow_test_streams::parts::Source::Growing;
use arrow_test_streams::parts::{self, Part};
use std::process::Abort;

const GROWN: Part = (Growing, 0, 1_376);

/// The first batch, in a column that differs only in its name.
const RENAMED: Rows = Built(&[(("K", true, Text, Some(INDICES)), "abc", "012")]);

/// Dictionaries that grow. The frames end at the offsets that the standard's tables give.
static GROWING: [Calls; 3] = [
    Calls {
        on: (ABC, DELTA, WIDE),
        calls: &[
            (Some(ABC), "592 0:abc"),
            (Some(ABCDE), "976 0:abcde"),
            (Some(ACDE), "1368 0:acde"),
            (FINISH, "1376 0:acde"),
        ],
        sent: Some(&[GROWN]),
    },
    Calls {
        on: (ABC, DELTA, WIDE),
        calls: &[
            (Some(Built(&[(K, "abc", "012")])), "592 0:abc"),
            (Some(Built(&[(K, "abcde", "40")])), "976 0:abcde"),
            (Some(Built(&[(K, "acde", "13")])), "1368 0:acde"),
            (FINISH, "1376 0:acde"),
        ],
        sent: Some(&[GROWN]),
    },
    // The copy of `dictionary_of_no_values`.
    Calls {
        on: (ABC, DELTA, WIDE),
        calls: &[
            (Some(Built(&[(K, "", "__")])), "576 0:"),
            (Some(Built(&[(K, "", "__")])), "744 0:"),
            (Some(Built(&[(K, "a", "0")])), "1120 0:a"),
            (FINISH, "1128 0:a"),
        ],
        sent: None,
    },
];

#[test]
fn dictionaries_that_grow(rt: HostRuntime) {
    assert_all(&rt, &GROWING);
}

/// A rejected batch leaves everything unchanged, and so does each call after the end marker.
static REFUSED: [Calls; 4] = [
    Calls {
        on: (ABC, DELTA, WIDE),
        calls: &[
            (Some(OTHER), "200 SchemaDiffers"),
            (Some(RENAMED), "200 SchemaDiffers"),
            (Some(ABC), "592 0:abc"),
            (Some(RENAMED), "592 0:abc SchemaDiffers"),
            (Some(XY), "592 0:abc SchemaDiffers"),
            (Some(NO_COLUMNS), "592 0:abc SchemaDiffers"),
            (Some(ABCDE), "976 0:abcde"),
            (Some(OTHER), "976 0:abcde SchemaDiffers"),
            (Some(ACDE), "1368 0:acde"),
            (FINISH, "1376 0:acde"),
            (Some(ACDE), "1376 0:acde Finished"),
            (Some(OTHER), "1376 0:acde Finished"),
            (FINISH, "1376 0:acde Finished"),
        ],
        sent: Some(&[GROWN]),
    },
    // The copy of `one_dictionary_of_two_columns`.
    Calls {
        on: (XX, DELTA, WIDE),
        calls: &[
            (Some(XY), "320 DictionariesDiffer"),
            (Some(XX), "752 0:x"),
            (Some(YX), "752 0:x DictionariesDiffer"),
            (Some(Built(&[(K, "x", "0")])), "752 0:x SchemaDiffers"),
            (FINISH, "760 0:x"),
            (Some(XY), "760 0:x Finished"),
        ],
        sent: None,
    },
    Calls {
        on: (XX, DELTA, (1_000, 1_000, 0)),
        calls: &[
            (Some(XX), "320 TooLarge"),
            (Some(XY), "320 DictionariesDiffer"),
            (Some(ABC), "320 SchemaDiffers"),
        ],
        sent: None,
    },
    Calls {
        on: (NUMBERS, DELTA, (1_000, 1_000, 0)),
        calls: &[
            (Some(NUMBERS), "152 TooLarge"),
            (Some(ABC), "152 SchemaDiffers"),
        ],
        sent: Some(&[parts::NUMBERS]),
    },
];

#[test]
fn batches_that_are_refused(rt: HostRuntime) {
    assert_all(&rt, &REFUSED);
}

#[test]
fn deltas_and_64_bytes_by_default(rt: HostRuntime) {
    assert!(rt; Options::default() == DELTA_64);
}
