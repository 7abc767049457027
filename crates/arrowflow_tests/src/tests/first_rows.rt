//! What `show_selection` writes for streams, and what a check that writes nothing returns.

use super::columns::THREE_COLUMNS;
use super::copying::with_more;
use super::reported::{Call, LETTERS, NUMBERS, assert_reported, reported};
use arrow_sink::probe::Trickle;
use arrow_test_streams::streams::{GROWING, ONE_BATCH};
use arrow_types::Limits;
use arrowflow_text::{Layout, Selection};
use std::alloc::Global;
use std::process::Abort;

/// The fault of one batch whose bytes end at this offset: all that a check that writes nothing
/// reports.
fn fault_before(place: usize) -> &'static str {
    match place {
        0..152 => "1 fault at byte 0: NoSchema",
        152 | 328 | 336 => "",
        153..328 => "1 fault at byte 152: Truncated",
        _ => "1 fault at byte 328: Truncated",
    }
}

#[test]
fn quiet_checks_of_streams_cut_off(rt: HostRuntime) {
    let stream = ONE_BATCH.as_slice();
    for place in [0, 1, 151, 152, 153, 327, 328, 329, 335, 336] {
        let bytes = &stream[..place.min(stream.len())];
        assert_reported(&rt, rt.alloc(), Call::Quiet, bytes, fault_before(place));
    }
}

/// How many rows are asked for, and what is printed of the growing dictionary then.
static FIRST_LETTERS: [(u64, &str); 8] = [
    (0, "batch,k\n"),
    (1, "batch,k\n0,a\n"),
    (3, "batch,k\n0,a\n0,b\n0,c\n"),
    (4, "batch,k\n0,a\n0,b\n0,c\n1,e\n"),
    (6, "batch,k\n0,a\n0,b\n0,c\n1,e\n1,a\n2,c\n"),
    (7, LETTERS),
    (8, LETTERS),
    (u64::MAX, LETTERS),
];

#[test]
fn first_rows_of_a_stream(rt: HostRuntime) {
    for (rows, text) in &FIRST_LETTERS {
        assert_reported(&rt, rt.alloc(), Call::First(*rows), &GROWING, text);
    }
}

/// How many rows of one batch are asked for, where its bytes end, and what is printed of it then:
/// what follows the last row that is asked for is not parsed.
static FIRST_NUMBERS: [(u64, usize, &str); 8] = [
    (0, 151, "1 fault at byte 0: NoSchema"),
    (0, 152, "batch,n\n"),
    (0, 153, "batch,n\n"),
    (1, 327, "batch,n\n1 fault at byte 152: Truncated"),
    (1, 328, "batch,n\n0,1\n"),
    (3, 329, NUMBERS),
    (4, 328, NUMBERS),
    (
        4,
        329,
        "batch,n\n0,1\n0,\n0,3\n1 fault at byte 328: Truncated",
    ),
];

#[test]
fn first_rows_of_a_stream_cut_off(rt: HostRuntime) {
    let stream = ONE_BATCH.as_slice();
    for (rows, place, text) in &FIRST_NUMBERS {
        let bytes = &stream[..(*place).min(stream.len())];
        assert_reported(&rt, rt.alloc(), Call::First(*rows), bytes, text);
    }
}

/// Which columns of the growing dictionary are asked for, how many rows, where its bytes end, and
/// what is printed of it then.
type Asked = (&'static [&'static str], Option<u64>, usize, &'static str);

static COLUMNS: [Asked; 8] = [
    (&["k"], None, 1376, LETTERS),
    (&["k"], Some(1), 1376, "batch,k\n0,a\n"),
    (&["k", "k"], Some(2), 1376, "batch,k,k\n0,a,a\n0,b,b\n"),
    (&[], Some(4), 1376, "batch\n0\n0\n0\n1\n"),
    (&["k", "K", ""], None, 200, "lacks 1"),
    (&[""], Some(0), 201, "lacks 0"),
    (&["l"], None, 199, "1 fault at byte 0: NoSchema"),
    (
        &["k"],
        Some(4),
        600,
        "batch,k\n0,a\n0,b\n0,c\n1 fault at byte 592: Truncated",
    ),
];

#[test]
fn columns_of_a_stream(rt: HostRuntime) {
    let stream = GROWING.as_slice();
    for (columns, rows, place, text) in &COLUMNS {
        let bytes = &stream[..(*place).min(stream.len())];
        assert_reported(&rt, rt.alloc(), Call::Columns(*columns, *rows), bytes, text);
    }
}

/// The same for three columns, whose names are `a`, `b` and `a`: of two columns with the same name
/// the first is meant, and of several that the schema lacks the first is reported.
static COLUMNS_OF_THREE: [Asked; 8] = [
    (
        &["b", "a"],
        None,
        904,
        "batch,b,a\n0,x,1\n0,\"y,z\",\n1,,3\n",
    ),
    (&["b", "a", "b"], Some(1), 600, "batch,b,a,b\n0,x,1,x\n"),
    (
        &["a", "a", "b"],
        Some(3),
        896,
        "batch,a,a,b\n0,1,1,x\n0,,,\"y,z\"\n1,3,3,\n",
    ),
    (&["a"], Some(2), 600, "batch,a\n0,1\n0,\n"),
    (
        &["b"],
        Some(3),
        895,
        "batch,b\n0,x\n0,\"y,z\"\n1 fault at byte 600: Truncated",
    ),
    (&["b"], Some(0), 600, "batch,b\n"),
    (&["b", "c", "a", "d"], Some(2), 288, "lacks 1"),
    (&["a", "b", "a", "B"], None, 904, "lacks 3"),
];

#[test]
fn columns_of_a_stream_of_three(rt: HostRuntime) {
    let stream = THREE_COLUMNS.as_slice();
    for (columns, rows, place, text) in &COLUMNS_OF_THREE {
        let bytes = &stream[..(*place).min(stream.len())];
        assert_reported(&rt, rt.alloc(), Call::Columns(*columns, *rows), bytes, text);
    }
}

/// A call that is given one batch with more bytes after it, how many bytes it gets at once, how many
/// of them it takes, and its report: no piece is read after the message that decides.
static READ: [(Call, usize, usize, &str); 8] = [
    (Call::Schema, 152, 152, "n: int32\n"),
    (Call::Schema, 151, 302, "n: int32\n"),
    (Call::First(0), 152, 152, "batch,n\n"),
    (Call::First(3), 328, 328, NUMBERS),
    (Call::First(3), 1_000_000, 65_536, NUMBERS),
    (
        Call::Columns(&["n"], Some(2)),
        164,
        328,
        "batch,n\n0,1\n0,\n",
    ),
    (Call::Columns(&["x"], None), 152, 152, "lacks 0"),
    (Call::Show, 112, 336, NUMBERS),
];

fn assert_read(rt: &impl Abort, alloc: Global, row: &(Call, usize, usize, &str)) {
    let (call, at_once, given, text) = row;
    let bytes = with_more(rt, alloc, 100_000);
    let mut input = Trickle::new(&bytes, *at_once, None);
    let answer = reported(rt, alloc, *call, &mut input, &Limits::standard());
    assert_eq!(rt;
        (answer.as_str(), input.given()),
        (*text, *given),
        "{at_once} bytes at once"
    );
}

#[test]
fn bytes_after_what_is_wanted(rt: HostRuntime) {
    for row in &READ {
        assert_read(&rt, rt.alloc(), row);
    }
}

/// Layouts of the three columns: which of them, the text of a null, and whether rows have numbers;
/// and what is printed then.
static LAYOUTS: [(Layout, &str); 4] = [
    (
        Layout {
            columns: None,
            null: Some("NULL"),
            numbers: true,
        },
        "batch,a,b,a\n0,1,x,7\n0,NULL,\"y,z\",8\n1,3,NULL,9\n",
    ),
    (
        Layout {
            columns: Some(&["b", "a"]),
            null: Some("-"),
            numbers: false,
        },
        "b,a\nx,1\n\"y,z\",-\n-,3\n",
    ),
    (
        Layout {
            columns: Some(&["b"]),
            null: None,
            numbers: false,
        },
        "b\nx\n\"y,z\"\n\"\"\n",
    ),
    (
        Layout {
            columns: Some(&[]),
            null: None,
            numbers: false,
        },
        "\"\"\n\"\"\n\"\"\n\"\"\n",
    ),
];

#[test]
fn layouts_of_a_stream(rt: HostRuntime) {
    for (layout, text) in &LAYOUTS {
        let selection = Selection {
            layout: *layout,
            batch: None,
            skip: 0,
            rows: None,
        };
        assert_reported(
            &rt,
            rt.alloc(),
            Call::Selected(selection),
            THREE_COLUMNS,
            text,
        );
    }
}

/// A window of the rows of the growing dictionary: which batch, how many rows are left out, how many
/// follow; where the bytes end, and what is printed then.
type Windowed = (Option<u64>, u64, Option<u64>, usize, &'static str);

static WINDOWS: [Windowed; 12] = [
    (None, 0, None, 1376, LETTERS),
    (None, 2, None, 1376, "batch,k\n0,c\n1,e\n1,a\n2,c\n2,e\n"),
    (None, 2, Some(2), 1376, "batch,k\n0,c\n1,e\n"),
    (None, 4, Some(1), 1376, "batch,k\n1,a\n"),
    (None, u64::MAX, Some(u64::MAX), 1376, "batch,k\n"),
    (None, 5, Some(0), 200, "batch,k\n"),
    (Some(1), 0, None, 1376, "batch,k\n1,e\n1,a\n"),
    (Some(1), 1, None, 1376, "batch,k\n1,a\n"),
    (Some(2), 0, Some(1), 1376, "batch,k\n2,c\n"),
    (Some(3), 0, None, 1376, "batch,k\n"),
    (Some(0), 7, Some(9), 600, "batch,k\n"),
    (
        Some(1),
        0,
        None,
        600,
        "batch,k\n1 fault at byte 592: Truncated",
    ),
];

#[test]
fn windows_of_a_stream(rt: HostRuntime) {
    let stream = GROWING.as_slice();
    for (batch, skip, rows, place, text) in &WINDOWS {
        let bytes = &stream[..(*place).min(stream.len())];
        let selection = Selection {
            layout: Layout::usual(),
            batch: *batch,
            skip: *skip,
            rows: *rows,
        };
        assert_reported(&rt, rt.alloc(), Call::Selected(selection), bytes, text);
    }
}
