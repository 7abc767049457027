//! What the calls do with streams that exceed a bound, and with those that keep to all bounds.

use super::copying::NARROW;
use super::reported::{LETTERS, ending};
use arrow_sink::Counted;
use arrow_sink::probe::Trickle;
use arrow_test_streams::streams::{GROWING, ONE_BATCH};
use arrow_types::Limits;
use arrowflow_copy::copy_within;
use arrowflow_input::{Bounded, Excess, Measure, WholeLimits};
use arrowflow_text::{
    ColumnsFault, Layout, Selection, check_quietly_within, check_within, show_within,
};
use std::alloc::Global;
use std::process::Abort;

/// The calls.
#[derive(Clone, Copy)]
enum Call {
    Check,
    Quiet,
    Show,
    /// This many first rows.
    First(u64),
}

/// These bounds.
fn bounds([rows, messages, bytes]: [Option<u64>; 3]) -> WholeLimits {
    WholeLimits {
        rows,
        messages,
        bytes,
    }
}

const ROWS_4: [Option<u64>; 3] = [Some(4), None, None];

const ROWS_5: [Option<u64>; 3] = [Some(5), None, None];

const ROWS_7: [Option<u64>; 3] = [Some(7), None, None];

const MESSAGES_6: [Option<u64>; 3] = [None, Some(6), None];

const MESSAGES_7: [Option<u64>; 3] = [None, Some(7), None];

const BYTES_1367: [Option<u64>; 3] = [None, None, Some(1_367)];

const BYTES_1368: [Option<u64>; 3] = [None, None, Some(1_368)];

const BYTES_1376: [Option<u64>; 3] = [None, None, Some(1_376)];

const NOTHING: [Option<u64>; 3] = [Some(0), Some(0), Some(0)];

const TWO_BATCHES: &str = "batch,k\n0,a\n0,b\n0,c\n1,e\n1,a\n";

/// A call, the bounds of rows, messages and bytes of the growing dictionary, and its line.
static REPORTED: [(Call, [Option<u64>; 3], &str); 17] = [
    (Call::Quiet, [None, None, None], ""),
    (Call::Quiet, ROWS_7, ""),
    (Call::Quiet, MESSAGES_7, ""),
    (Call::Quiet, BYTES_1376, ""),
    (Call::Show, ROWS_7, LETTERS),
    (Call::Quiet, ROWS_4, "limit at byte 816: more than 4 rows"),
    (Call::Quiet, ROWS_5, "limit at byte 1208: more than 5 rows"),
    (
        Call::Quiet,
        MESSAGES_6,
        "limit at byte 1208: more than 6 messages",
    ),
    (
        Call::Quiet,
        BYTES_1367,
        "limit at byte 1208: more than 1367 bytes",
    ),
    (
        Call::Quiet,
        BYTES_1368,
        "limit at byte 1368: more than 1368 bytes",
    ),
    (Call::Quiet, NOTHING, "limit at byte 0: more than 0 bytes"),
    (
        Call::Show,
        ROWS_5,
        "batch,k\n0,a\n0,b\n0,c\n1,e\n1,a\nlimit at byte 1208: more than 5 rows",
    ),
    (Call::Show, NOTHING, "limit at byte 0: more than 0 bytes"),
    (Call::First(5), ROWS_5, TWO_BATCHES),
    (Call::First(5), MESSAGES_6, TWO_BATCHES),
    (
        Call::First(4),
        ROWS_4,
        "batch,k\n0,a\n0,b\n0,c\nlimit at byte 816: more than 4 rows",
    ),
    (
        Call::Check,
        [Some(2), Some(3), None],
        "at 0: schema, 1 columns\nat 200: dictionary 0, now 3 values\nlimit at byte 424: more than 2 rows",
    ),
];

/// The text of an output, followed by the bound that the stream exceeds, or the fault.
fn text_of(
    rt: &impl Abort,
    alloc: Global,
    taken: &[u8],
    excess: Option<Excess>,
    fault: &str,
) -> String {
    let taken = str::from_utf8(taken).expect(rt, "the output is text");
    let mut text = String::from_str(alloc, taken).expect(rt, "memory");
    match excess {
        Some(excess) => write!(text, "{excess}").expect(rt, "memory"),
        None => text.push_str(fault).expect(rt, "memory"),
    }
    text
}

/// The report of a call about bytes in pieces of this length.
fn reported(
    rt: &impl Abort,
    alloc: Global,
    call: Call,
    (bytes, piece): (&[u8], usize),
    whole: WholeLimits,
) -> String {
    let mut input = Bounded::new(Trickle::new(bytes, piece, None), whole);
    let limits = Limits::standard();
    let output = Counted::new(Vec::new(alloc));
    let rows = match call {
        Call::Quiet => {
            let answer = check_quietly_within(alloc, &mut input, &limits);
            let fault = ending(rt, alloc, &answer);
            return text_of(rt, alloc, &[], input.excess(), &fault);
        }
        Call::Check => {
            let (output, answer) = check_within(alloc, &mut input, output, &limits);
            let fault = ending(rt, alloc, &answer);
            return text_of(rt, alloc, &output.into_inner(), input.excess(), &fault);
        }
        Call::Show => None,
        Call::First(rows) => Some(rows),
    };
    let selection = Selection {
        layout: Layout::usual(),
        batch: None,
        skip: 0,
        rows,
    };
    let (output, answer) = show_within(alloc, &mut input, output, &selection, &limits);
    let fault = match answer {
        Ok(()) => ending(rt, alloc, &Ok(())),
        Err(ColumnsFault::Tool(fault)) => ending(rt, alloc, &Err(fault)),
        Err(ColumnsFault::Lacks(_)) => panic!(rt; "a column is lacking"),
    };
    text_of(rt, alloc, &output.into_inner(), input.excess(), &fault)
}

#[test]
fn bounds_that_are_kept_and_passed(rt: HostRuntime) {
    for (call, whole, expected) in &REPORTED {
        for piece in [1, 100, 65_536] {
            let text = reported(
                &rt,
                rt.alloc(),
                *call,
                (GROWING.as_slice(), piece),
                bounds(*whole),
            );
            assert_eq!(rt; text.as_str(), *expected, "{whole:?} in pieces of {piece}");
        }
    }
}

/// Where the bytes of one batch end, how many are allowed, and the line: an end of the input is not
/// a matter of the bound, and bytes after the end marker are not parsed.
static CUT: [(usize, u64, &str); 6] = [
    (327, 327, "1 fault at byte 152: Truncated"),
    (328, 328, ""),
    (328, 327, "limit at byte 152: more than 327 bytes"),
    (336, 335, "limit at byte 328: more than 335 bytes"),
    (336, 336, ""),
    (0, 0, "1 fault at byte 0: NoSchema"),
];

#[test]
fn ends_that_are_those_of_the_bound(rt: HostRuntime) {
    for (end, most, expected) in &CUT {
        let bytes = &ONE_BATCH[..(*end).min(336)];
        let whole = bounds([None, None, Some(*most)]);
        let text = reported(&rt, rt.alloc(), Call::Quiet, (bytes, 7), whole);
        assert_eq!(rt; text.as_str(), *expected, "{end} bytes, {most} allowed");
    }
}

#[test]
fn copies_within_bounds(rt: HostRuntime) {
    let (alloc, limits) = (rt.alloc(), Limits::standard());
    let mut input = Bounded::new(Trickle::new(GROWING.as_slice(), 100, None), bounds(ROWS_5));
    let output = Counted::new(Vec::new(alloc));
    let (output, answer) = copy_within(alloc, &mut input, output, NARROW, &limits);
    assert!(rt; answer.is_err());
    let expected = Excess {
        place: 1_208,
        measure: Measure::Rows,
        limit: 5,
    };
    assert_eq!(rt; input.excess(), Some(expected));
    assert_eq!(rt; output.into_inner().as_slice(), &GROWING[..976]);
    let mut input = Bounded::new(Trickle::new(GROWING.as_slice(), 100, None), bounds(ROWS_7));
    let output = Counted::new(Vec::new(alloc));
    let (output, answer) = copy_within(alloc, &mut input, output, NARROW, &limits);
    assert!(rt; answer.is_ok());
    assert_eq!(rt; input.excess(), None);
    assert_eq!(rt; output.into_inner().as_slice(), GROWING.as_slice());
}
