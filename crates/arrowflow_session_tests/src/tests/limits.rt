//! What a writer rejects because it would pass a limit: a schema, a batch, a dictionary after its
//! update.

use super::batches::Rows::{Built, Read};
use super::batches::{ABC, ABCDE, ACDE, L, NO_COLUMNS, NUMBERS, OTHER, Rows, batch_of};
use super::writers::{
    Calls, DELTA, DELTA_64, FINISH, RESEND, STANDARD, answer_to, assert_all, started,
};
use crate::written::LONG_LISTS;
use arrow_sink::Sink;
use arrow_sink::WriteFault::TooLarge;
use arrow_stream_writer::Options;
use arrow_test_streams::parts::Source::{Bytes, Growing};
use arrow_test_streams::parts::{self, END, LETTERS, Part, THREE};
use std::process::Abort;

const FIRST_TWO: Part = (Growing, 0, 976);

/// The stream of letters without the second batch, whose update is left out with it.
const OTHERS: [Part; 2] = [(Growing, 0, 592), (Growing, 976, 1_376)];

/// The dictionary came in two batches, whose lists have more items together than 32-bit offsets can
/// count.
const LONG: Rows = Read(Bytes(&LONG_LISTS), 0);

/// A limit is passed by the rows of a dictionary after its update, by the rows of a batch, by the
/// body of a dictionary or of a batch, and by the metadata of a batch.
static LIMITED: [Calls; 14] = [
    Calls {
        on: (ABC, DELTA, (192, 1_000, 4)),
        calls: &[
            (Some(ABC), "592 0:abc"),
            (Some(ABCDE), "592 0:abc TooLarge"),
            (Some(ACDE), "984 0:acde"),
            (FINISH, "992 0:acde"),
        ],
        sent: Some(&OTHERS),
    },
    Calls {
        on: (ABC, RESEND, (192, 32, 4)),
        calls: &[
            (Some(ABC), "592 0:abc"),
            (Some(ABCDE), "592 0:abc TooLarge"),
            (Some(ACDE), "984 0:acde"),
            (FINISH, "992 0:acde"),
        ],
        sent: Some(&OTHERS),
    },
    Calls {
        on: (ABC, DELTA, (192, 24, 5)),
        calls: &[
            (Some(ABC), "592 0:abc"),
            (Some(ABCDE), "976 0:abcde"),
            (Some(ACDE), "976 0:abcde TooLarge"),
        ],
        sent: Some(&[FIRST_TWO]),
    },
    Calls {
        on: (ABC, RESEND, (192, 24, 5)),
        calls: &[
            (Some(ABC), "592 0:abc"),
            (Some(ABCDE), "592 0:abc TooLarge"),
        ],
        sent: Some(&[(Growing, 0, 592)]),
    },
    Calls {
        on: (ABC, DELTA, (192, 23, 5)),
        calls: &[(Some(ABC), "200 TooLarge"), (Some(ABC), "200 TooLarge")],
        sent: Some(&[LETTERS]),
    },
    Calls {
        on: (OTHER, DELTA, (192, 1_000, 2)),
        calls: &[(Some(OTHER), "200 TooLarge")],
        sent: None,
    },
    Calls {
        on: (NUMBERS, DELTA, (144, 23, 3)),
        calls: &[(Some(NUMBERS), "152 TooLarge")],
        sent: Some(&[parts::NUMBERS]),
    },
    Calls {
        on: (NUMBERS, DELTA, (144, 24, 3)),
        calls: &[(Some(NUMBERS), "328"), (FINISH, "336")],
        sent: Some(&[parts::NUMBERS, THREE, END]),
    },
    // The copy of `int32_column` in way 2.
    Calls {
        on: (NUMBERS, DELTA_64, (184, 128, 3)),
        calls: &[(Some(NUMBERS), "512"), (FINISH, "520")],
        sent: None,
    },
    // The copy of `no_columns`, and less.
    Calls {
        on: (NO_COLUMNS, RESEND, (96, 0, 3)),
        calls: &[(Some(NO_COLUMNS), "176"), (FINISH, "184")],
        sent: None,
    },
    Calls {
        on: (NO_COLUMNS, DELTA, (96, 0, 2)),
        calls: &[(Some(NO_COLUMNS), "72 TooLarge")],
        sent: None,
    },
    Calls {
        on: (NO_COLUMNS, DELTA, (95, 0, 3)),
        calls: &[
            (Some(NO_COLUMNS), "72 TooLarge"),
            (Some(NUMBERS), "72 SchemaDiffers"),
        ],
        sent: None,
    },
    Calls {
        on: (LONG, DELTA, STANDARD),
        calls: &[(Some(LONG), "272 TooLarge")],
        sent: Some(&[(Bytes(&LONG_LISTS), 0, 272)]),
    },
    Calls {
        on: (LONG, RESEND, STANDARD),
        calls: &[(Some(LONG), "272 TooLarge")],
        sent: Some(&[(Bytes(&LONG_LISTS), 0, 272)]),
    },
];

#[test]
fn limits_that_are_passed(rt: HostRuntime) {
    assert_all(&rt, &LIMITED);
}

/// A batch whose schema is rejected with this limit of the bytes of metadata: its sink is returned
/// unchanged.
static SCHEMAS: [(Rows, Options, u64); 4] = [
    (ABC, DELTA, 191),
    (NUMBERS, RESEND, 143),
    (NUMBERS, DELTA_64, 183),
    (NO_COLUMNS, DELTA, 63),
];

#[test]
fn schemas_that_are_refused(rt: HostRuntime) {
    for (rows, options, most) in &SCHEMAS {
        let batch = batch_of(&rt, *rows);
        match started(&rt, batch.schema(), *options, (*most, 0, 0)) {
            Ok(_) => panic!(rt; "a schema that is taken within {most} bytes"),
            Err((fault, sink)) => {
                let counts = (sink.taken().len(), sink.flushes(), sink.failures());
                assert!(rt; fault == TooLarge && counts == (0, 0, 0), "{most} bytes");
            }
        }
    }
}

/// How many nulls the lists of a batch have; the limit of rows; and whether that is passed: it also
/// limits the slots of their items.
static ITEMS: [(Rows, u64, &str); 8] = [
    (Built(&[(L, "", "5")]), 4, "TooLarge"),
    (Built(&[(L, "", "5")]), 5, ""),
    (Built(&[(L, "", "23")]), 4, "TooLarge"),
    (Built(&[(L, "", "23")]), 5, ""),
    (Built(&[(L, "", "000")]), 2, "TooLarge"),
    (Built(&[(L, "", "000")]), 3, ""),
    (Built(&[(L, "", "")]), 0, ""),
    (Built(&[(L, "", "0")]), 0, "TooLarge"),
];

#[test]
fn limits_of_items(rt: HostRuntime) {
    for (rows, most, wanted) in &ITEMS {
        let text = answer_to(&rt, *rows, (1_000, 1_000, *most));
        assert_eq!(rt; text.as_str(), *wanted, "{most} rows");
    }
}
