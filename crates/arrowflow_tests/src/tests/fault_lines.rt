//! The lines of faults that no stream has, and of each rejection by a writer, written out.

use super::reported::ending;
use arrow_stream_reader::{Fault, Kind};
use arrow_stream_writer::WriteFault;
use arrowflow_input::{RefusedItem, ToolFault};
use std::alloc::Global;
use std::process::Abort;

/// The kinds of a stream's faults that no stream has, their offsets, and their lines.
static KINDS: [(Kind, u64, &str); 2] = [
    (Kind::Memory, 7, "1 fault at byte 7: Memory"),
    (
        Kind::Truncated,
        u64::MAX,
        "1 fault at byte 18446744073709551615: Truncated",
    ),
];

/// A writer's rejections, and their lines.
static REFUSALS: [(RefusedItem, WriteFault, &str); 7] = [
    (
        RefusedItem::Batch(12),
        WriteFault::SchemaDiffers,
        "1 refused batch 12: SchemaDiffers",
    ),
    (
        RefusedItem::Start,
        WriteFault::TooLarge,
        "1 refused schema: TooLarge",
    ),
    (
        RefusedItem::Batch(0),
        WriteFault::DictionariesDiffer,
        "1 refused batch 0: DictionariesDiffer",
    ),
    (RefusedItem::Finish, WriteFault::Sink, "1 refused end: Sink"),
    (
        RefusedItem::Batch(3),
        WriteFault::Broken,
        "1 refused batch 3: Broken",
    ),
    (
        RefusedItem::Finish,
        WriteFault::Finished,
        "1 refused end: Finished",
    ),
    (
        RefusedItem::Start,
        WriteFault::Memory,
        "1 refused schema: Memory",
    ),
];

fn assert_line(rt: &impl Abort, alloc: Global, fault: ToolFault, expected: &str) {
    let text = ending(rt, alloc, &Err(fault));
    assert_eq!(rt; text.as_str(), expected);
}

#[test]
fn kinds_by_their_names(rt: HostRuntime) {
    for &(kind, place, line) in &KINDS {
        let fault = ToolFault::Stream(Fault { kind, place });
        assert_line(&rt, rt.alloc(), fault, line);
    }
}

#[test]
fn refusals_by_their_names(rt: HostRuntime) {
    for &(what, refusal, line) in &REFUSALS {
        assert_line(&rt, rt.alloc(), ToolFault::Refused(what, refusal), line);
    }
}

#[test]
fn faults_have_their_lines(rt: HostRuntime) {
    let alloc = rt.alloc();
    assert_line(&rt, alloc, ToolFault::Memory, "2 out of memory");
    assert_line(&rt, alloc, ToolFault::Input(3), "2 cannot read in");
    assert_line(&rt, alloc, ToolFault::Output, "2 cannot write out");
    let needing = ToolFault::from(Fault {
        kind: Kind::Memory,
        place: 8,
    });
    assert_line(&rt, alloc, needing, "2 out of memory");
    let shown = format!(in alloc; "{}", ToolFault::Input(3)).expect(&rt, "memory");
    assert_eq!(rt; shown.as_str(), "cannot read input 3");
}
