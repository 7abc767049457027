//! Connections from end to end, with only their first bytes delivered.

use super::batches::{
    self, ABC, ABCDE, ACDE, MEMORY, NO_COLUMNS, OTHER, Rows, SHARED, XX, XY, YX, batch_of, received,
};
use super::beginnings::{self, Frame, beginning};
use super::reported::{push_dictionaries, push_received};
use super::writers::{DELTA, Most, RESEND, STANDARD, Sent, assert_sent, limits_of};
use crate::written::GAP;
use arrow_data::{Batch, Buffers};
use arrow_test_streams::parts::Source::Growing;
use arrow_test_streams::parts::{self, END, LETTERS as SCHEMA, Part, joined};
use arrowflow_session::session::{Connection, Options, Report, run};
use std::alloc::AllocError;
use std::process::Abort;

/// What is asked of a connection: a batch of its schema, the batches that are written, how they are
/// sent, whether an end marker follows, and how many bytes are delivered.
type Asked = (Rows, &'static [Rows], Options, bool, u64);

const ALL: u64 = u64::MAX;

const LETTERS: &[Rows] = &[ABC, ABCDE, ACDE];

/// The growing dictionary, with deltas, and with all of its values each time.
const GROWN: Asked = (ABC, LETTERS, DELTA, true, ALL);

const RESENT: Asked = (ABC, LETTERS, RESEND, true, ALL);

/// What is sent of the growing dictionary.
const STREAM: Sent = Some(&[(Growing, 0, 1_376)]);

fn connection_of(rt: &(impl Abort + AllocGlobal), asked: Asked) -> Connection {
    let (of, rows, options, finish, deliver) = asked;
    let mut batches = Vec::new(rt.alloc());
    for it in rows {
        batches.push(batch_of(rt, *it)).expect(rt, MEMORY);
    }
    let of = batch_of(rt, of);
    Connection {
        schema: of.schema().copy(rt.alloc()).expect(rt, MEMORY),
        options,
        batches,
        finish,
        deliver,
        cuts: Vec::new(rt.alloc()),
    }
}

/// The lengths of the parts, the rejections, and the writer's dictionaries; and what was received.
fn push_report(text: &mut String, report: &Report) -> Result<(), AllocError> {
    for part in &report.parts {
        write!(text, "{} ", part.len())?;
    }
    for refusal in &report.refused {
        write!(text, "{:?} {:?} ", refusal.what, refusal.kind)?;
    }
    push_dictionaries(text, &report.writer_dictionaries)?;
    text.push_str("| ")?;
    push_received(text, &report.received)
}

/// A report has this content, and these bytes were sent.
fn assert_report(rt: &(impl Abort + AllocGlobal), report: &Report, wanted: &str, sent: Sent) {
    let mut text = String::new(rt.alloc());
    push_report(&mut text, report).expect(rt, MEMORY);
    assert_eq!(rt; text.as_str(), wanted);
    let mut bytes = Vec::new(rt.alloc());
    for part in &report.parts {
        bytes.extend_from_slice(part).expect(rt, MEMORY);
    }
    assert_sent(rt, &bytes, sent, wanted);
}

/// The report of the only connection has this content.
fn assert_only(rt: &(impl Abort + AllocGlobal), only: &[Connection], wanted: &str, sent: Sent) {
    let reports = run(rt.alloc(), &limits_of(rt, STANDARD), only).expect(rt, MEMORY);
    assert_eq!(rt; reports.len(), 1);
    assert_report(rt, &reports[0], wanted, sent);
}

/// Each number of first bytes of a connection, and more than there are.
fn assert_beginnings(
    rt: &(impl Abort + AllocGlobal),
    asked: Asked,
    frames: &'static [Frame],
    reported: &str,
    sent: Sent,
) {
    let mut only = [connection_of(rt, asked)];
    let size = frames.last().map_or(0, |(end, _)| *end);
    for deliver in (0..size.saturating_add(2)).chain([usize::MAX]) {
        only[0].deliver = deliver as u64;
        let received = beginning(rt, frames, deliver);
        let wanted = format!(in rt.alloc(); "{reported} | {received}").expect(rt, MEMORY);
        assert_only(rt, &only, &wanted, sent);
    }
}

#[test]
fn each_number_of_bytes(rt: HostRuntime) {
    let reported = "200 392 384 392 8 0:acde";
    assert_beginnings(&rt, GROWN, &beginnings::GROWN, reported, STREAM);
}

/// The bytes are those of the copy of `growing_dictionary` in way 1.
#[test]
fn each_number_of_bytes_without_deltas(rt: HostRuntime) {
    let reported = "200 392 392 392 8 0:acde";
    assert_beginnings(&rt, RESENT, &beginnings::RESENT, reported, None);
}

/// No report depends on the lengths of the pieces: the last byte of the second batch is missing,
/// and then it is there.
fn assert_cuts(rt: &(impl Abort + AllocGlobal), only: &mut [Connection; 1], cuts: &[usize]) {
    only[0].cuts = Vec::from_slice(rt.alloc(), cuts).expect(rt, MEMORY);
    only[0].deliver = 975;
    let without = "200 392 384 392 8 0:acde | abc 0:abcde Truncated at 816";
    assert_only(rt, only, without, STREAM);
    only[0].deliver = 976;
    let with = "200 392 384 392 8 0:acde | abc ea 0:abcde Clean";
    assert_only(rt, only, with, STREAM);
}

/// Lengths of pieces, some of which are empty or go past the end.
static CUTS: [&[usize]; 8] = [
    &[],
    &[0],
    &[0, 0, 975, 0, 0],
    &[976, 0],
    &[1376, 1, 1],
    &[usize::MAX, 5, usize::MAX],
    &[200, 224, 168, 224, 160],
    &[204, 3, 500, 0, 1],
];

#[test]
fn each_length_of_pieces(rt: HostRuntime) {
    let mut only = [connection_of(&rt, GROWN)];
    for piece in 1..1377 {
        let cuts = Vec::from_elem(rt.alloc(), piece, 1376 / piece).expect(&rt, MEMORY);
        assert_cuts(&rt, &mut only, &cuts);
    }
    for cuts in &CUTS {
        assert_cuts(&rt, &mut only, cuts);
    }
}

/// A connection, the content of its report, and what was sent.
type Reported = (Asked, &'static str, Sent);

static CONNECTIONS: [Reported; 9] = [
    // After a broken one comes one of another schema with the same id, `other_letters`.
    (
        (ABC, LETTERS, DELTA, true, 5),
        "200 392 384 392 8 0:acde | NoSchema at 0",
        STREAM,
    ),
    (
        (OTHER, &[OTHER], DELTA, true, ALL),
        "200 384 8 0:xy | yxy 0:xy Clean",
        None,
    ),
    (
        (ABC, LETTERS, RESEND, true, 824),
        "200 392 392 392 8 0:acde | abc 0:abcde Clean",
        None,
    ),
    // Without an end marker, without batches too, and only without batches.
    (
        (ABC, LETTERS, DELTA, false, ALL),
        "200 392 384 392 0:acde | abc ea ce 0:acde Clean",
        Some(&[(Growing, 0, 1_368)]),
    ),
    (
        (ABC, &[], DELTA, false, ALL),
        "200 | Clean",
        Some(&[SCHEMA]),
    ),
    (
        (ABC, &[], DELTA, true, ALL),
        "200 8 | Clean",
        Some(&[SCHEMA, END]),
    ),
    // A batch of another schema is left out, and so are those with two dictionaries of one id, next
    // to the batch of `one_dictionary_of_two_columns`.
    (
        (ABC, &[ABC, OTHER, ABCDE, ACDE], DELTA, true, ALL),
        "200 392 384 392 8 Batch(1) SchemaDiffers 0:acde | abc ea ce 0:acde Clean",
        STREAM,
    ),
    (
        (XX, &[XY, XX, YX], DELTA, true, ALL),
        "320 432 8 Batch(0) DictionariesDiffer Batch(2) DictionariesDiffer 0:x | xx 0:x Clean",
        None,
    ),
    // Dictionaries are in ascending order of their ids, as in `two_dictionaries`.
    (
        (SHARED, &[SHARED], DELTA, true, ALL),
        "448 728 8 -2:r 5:cd | dcr__d -2:r 5:cd Clean",
        None,
    ),
];

/// Limits within which the second batch is left out.
const NARROW: Most = (192, 32, 4);

static LEFT_OUT: [Reported; 1] = [(
    GROWN,
    "200 392 392 8 Batch(1) TooLarge 0:acde | abc ce 0:acde Clean",
    Some(&[(Growing, 0, 592), (Growing, 976, 1_376)]),
)];

/// Limits within which the schema of letters is rejected.
const NARROWER: Most = (191, 1_000, 1_000);

static REFUSED: [Reported; 3] = [
    (GROWN, "Start TooLarge | NoSchema at 0", Some(&[])),
    (
        (NO_COLUMNS, &[NO_COLUMNS], DELTA, true, ALL),
        "72 104 8 |  Clean",
        None,
    ),
    (RESENT, "Start TooLarge | NoSchema at 0", Some(&[])),
];

/// The connections come one after another.
fn assert_session(rt: &(impl Abort + AllocGlobal), most: Most, its: &[Reported]) {
    let mut connections = Vec::new(rt.alloc());
    for (asked, _, _) in its {
        let connection = connection_of(rt, *asked);
        connections.push(connection).expect(rt, MEMORY);
    }
    let reports = run(rt.alloc(), &limits_of(rt, most), &connections).expect(rt, MEMORY);
    assert_eq!(rt; reports.len(), its.len());
    for (report, (_, wanted, sent)) in reports.iter().zip(its) {
        assert_report(rt, report, wanted, *sent);
    }
}

#[test]
fn one_connection_after_the_other(rt: HostRuntime) {
    assert_session(&rt, STANDARD, &[]);
    assert_session(&rt, STANDARD, &CONNECTIONS);
    assert_session(&rt, NARROW, &LEFT_OUT);
    assert_session(&rt, NARROWER, &REFUSED);
}

/// The bytes of the three numbers of the only column of the only batch.
fn numbers_in<'a>(rt: &impl Abort, batches: &'a [Batch]) -> &'a [u8] {
    let columns = batches.first().expect(rt, "a batch").columns();
    match columns.first().expect(rt, "a column").buffers() {
        Buffers::Numbers(numbers) => numbers.values.get(..12).expect(rt, "three numbers"),
        _ => panic!(rt; "no numbers"),
    }
}

const NUMBERS: &[Part] = &[parts::NUMBERS, parts::THREE, END];

/// A batch is returned as it was read, and not as it was given: with a 7 under its null.
#[test]
fn a_number_under_a_null(rt: HostRuntime) {
    let bytes = joined(rt.alloc(), NUMBERS, &[(316, &[7])]).expect(&rt, "a stream");
    let mut only = [connection_of(&rt, (batches::NUMBERS, &[], DELTA, true, ALL))];
    only[0].batches = received(&rt, &bytes).handed;
    let given = numbers_in(&rt, &only[0].batches);
    assert!(rt; given == [1, 0, 0, 0, 7, 0, 0, 0, 3, 0, 0, 0].as_slice());
    let reports = run(rt.alloc(), &limits_of(&rt, STANDARD), &only).expect(&rt, MEMORY);
    assert_eq!(rt; reports.len(), 1);
    assert_report(&rt, &reports[0], "152 176 8 | ___ Clean", Some(NUMBERS));
    let handed = numbers_in(&rt, &reports[0].received.handed);
    assert!(rt; handed == [1, 0, 0, 0, 0, 0, 0, 0, 3, 0, 0, 0].as_slice());
}

/// The first list of the only column of the only batch: where it begins and ends among the items,
/// and the items.
fn list_in(rt: &(impl Abort + AllocGlobal), batches: &[Batch]) -> String {
    let columns = batches.first().expect(rt, "a batch").columns();
    let column = columns.first().expect(rt, "a column");
    assert!(rt; column.len() == 1);
    let (start, end, items) = column.list_at(0).expect(rt, "a list");
    let mut text = format!(in rt.alloc(); "{start} to {end} of").expect(rt, MEMORY);
    for i in 0..items.len() {
        let item = items.int_at(i).expect(rt, "a number");
        write!(text, " {item}").expect(rt, MEMORY);
    }
    text
}

/// A list is returned as it was read: without the item that it does not have.
#[test]
fn a_list_after_a_gap(rt: HostRuntime) {
    let mut only = [connection_of(&rt, (NO_COLUMNS, &[], DELTA, true, ALL))];
    only[0].batches = received(&rt, &GAP).handed;
    assert_eq!(rt; list_in(&rt, &only[0].batches).as_str(), "1 to 2 of 7 8");
    let schema = only[0].batches.first().expect(&rt, "a batch").schema();
    only[0].schema = schema.copy(rt.alloc()).expect(&rt, MEMORY);
    let reports = run(rt.alloc(), &limits_of(&rt, STANDARD), &only).expect(&rt, MEMORY);
    assert_eq!(rt; reports.len(), 1);
    assert_report(&rt, &reports[0], "216 216 8 | _ Clean", None);
    let handed = list_in(&rt, &reports[0].received.handed);
    assert_eq!(rt; handed.as_str(), "0 to 1 of 8");
}
