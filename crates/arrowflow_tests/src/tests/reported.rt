//! The report of a call about an input: the text that it writes, followed by the status and the
//! line of its fault.

use arrow_sink::Counted;
use arrow_sink::probe::Trickle;
use arrow_types::Limits;
use arrowflow_input::{Input, ToolFault};
use arrowflow_text::{
    ColumnsFault, Layout, Selection, check, check_quietly, schema_text, show, show_selection,
};
use std::alloc::{AllocError, Global};
use std::process::Abort;

/// The rows of the growing dictionary.
pub(super) const LETTERS: &str = "batch,k\n0,a\n0,b\n0,c\n1,e\n1,a\n2,c\n2,e\n";

/// The rows of one batch.
pub(super) const NUMBERS: &str = "batch,n\n0,1\n0,\n0,3\n";

/// The calls.
#[derive(Clone, Copy)]
pub(super) enum Call {
    Schema,
    Check,
    Quiet,
    Show,
    /// This many first rows.
    First(u64),
    /// Only the columns with these names, and this many of their rows, or all.
    Columns(&'static [&'static str], Option<u64>),
    /// The rows and columns of a selection.
    Selected(Selection<'static>),
}

/// Appends the status and the line of a fault.
fn push_fault(text: &mut String, alloc: Global, fault: &ToolFault) -> Result<(), AllocError> {
    let line = fault.line(alloc, "in", "out")?;
    write!(text, "{} {line}", fault.status())
}

/// The status and the line of a fault, nothing if there is none.
pub(super) fn ending(rt: &impl Abort, alloc: Global, answer: &Result<(), ToolFault>) -> String {
    written(rt, alloc, &[], answer)
}

/// The output, followed by the fault.
fn written(rt: &impl Abort, alloc: Global, taken: &[u8], answer: &Result<(), ToolFault>) -> String {
    let taken = str::from_utf8(taken).expect(rt, "the output is text");
    let mut text = String::from_str(alloc, taken).expect(rt, "memory");
    if let Err(fault) = answer {
        push_fault(&mut text, alloc, fault).expect(rt, "memory");
    }
    text
}

/// The text of a schema as bytes.
fn schema_bytes<R: Input>(
    alloc: Global,
    input: &mut R,
    limits: &Limits,
) -> (Vec<u8>, Result<(), ToolFault>) {
    match schema_text(alloc, input, limits) {
        Ok(text) => (text.into_bytes(), Ok(())),
        Err(fault) => (Vec::new(alloc), Err(fault)),
    }
}

/// The report of a call about an input.
pub(super) fn reported<R: Input>(
    rt: &impl Abort,
    alloc: Global,
    call: Call,
    input: &mut R,
    limits: &Limits,
) -> String {
    let (taken, answer) = match call {
        Call::Schema => schema_bytes(alloc, input, limits),
        Call::Check => {
            let (output, answer) = check(alloc, input, Counted::new(Vec::new(alloc)), limits);
            (output.into_inner(), answer)
        }
        Call::Quiet => (Vec::new(alloc), check_quietly(alloc, input, limits)),
        Call::Show => {
            let (output, answer) = show(alloc, input, Counted::new(Vec::new(alloc)), limits);
            (output.into_inner(), answer)
        }
        Call::First(rows) => {
            let selection = selection_of(None, Some(rows));
            return selected(rt, alloc, input, &selection, limits);
        }
        Call::Columns(columns, rows) => {
            let selection = selection_of(Some(columns), rows);
            return selected(rt, alloc, input, &selection, limits);
        }
        Call::Selected(selection) => return selected(rt, alloc, input, &selection, limits),
    };
    written(rt, alloc, &taken, &answer)
}

/// The columns with these names, or all, and this many rows, or all, in the usual layout.
fn selection_of(columns: Option<&'static [&'static str]>, rows: Option<u64>) -> Selection<'static> {
    let layout = Layout {
        columns,
        null: None,
        numbers: true,
    };
    Selection {
        layout,
        batch: None,
        skip: 0,
        rows,
    }
}

/// What is printed for a selection, followed by the index of the column that the schema lacks.
fn selected<R: Input>(
    rt: &impl Abort,
    alloc: Global,
    input: &mut R,
    selection: &Selection,
    limits: &Limits,
) -> String {
    let output = Counted::new(Vec::new(alloc));
    let (output, answer) = show_selection(alloc, input, output, selection, limits);
    let taken = output.into_inner();
    match answer {
        Ok(()) => written(rt, alloc, &taken, &Ok(())),
        Err(ColumnsFault::Tool(fault)) => written(rt, alloc, &taken, &Err(fault)),
        Err(ColumnsFault::Lacks(place)) => {
            let mut text = written(rt, alloc, &taken, &Ok(()));
            write!(text, "lacks {place}").expect(rt, "memory");
            text
        }
    }
}

/// The report of a call about an input is this text.
fn assert_reported_of<R: Input>(
    rt: &impl Abort,
    alloc: Global,
    call: Call,
    input: &mut R,
    expected: &str,
) {
    let text = reported(rt, alloc, call, input, &Limits::standard());
    assert_eq!(rt; text.as_str(), expected);
}

/// The report of a call about the bytes, in one piece and in pieces of one byte, is this text.
pub(super) fn assert_reported(
    rt: &impl Abort,
    alloc: Global,
    call: Call,
    bytes: &[u8],
    expected: &str,
) {
    let mut whole = bytes;
    assert_reported_of(rt, alloc, call, &mut whole, expected);
    let mut bit_by_bit = Trickle::new(bytes, 1, None);
    assert_reported_of(rt, alloc, call, &mut bit_by_bit, expected);
}
