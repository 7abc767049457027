//! What the library calls of `schema`, `check` and `show` write.

use crate::findings::Findings;
use crate::given::{Given, limits_of};
use crate::records::{push_header, push_record};
use crate::reported::{Form, Message, Reported, column_in};
use arrow_sink::Counted;
use arrowflow_input::ToolFault;
use arrowflow_text::{
    ColumnsFault, Layout, Selection, check, check_quietly, schema_text, show, show_selection,
};
use std::alloc::{AllocError, Global};

/// One of the calls.
#[derive(Clone, Copy)]
pub(crate) enum Call {
    Schema,
    Check,
    Quiet,
    Show,
    /// The first rows, this many.
    First(u64),
}

impl Call {
    /// The call in words.
    fn words(self) -> &'static str {
        match self {
            Call::Schema => "schema by reads of",
            Call::Check => "check by reads of",
            Call::Quiet => "quiet check by reads of",
            Call::Show => "show by reads of",
            Call::First(_) => "first rows by reads of",
        }
    }
}

/// Compares what the calls write of an input, and their faults.
pub(crate) fn run(
    alloc: Global,
    found: &mut Findings,
    given: Given<'_>,
    reported: &Reported<'_>,
) -> Result<(), AllocError> {
    let rows = reported.rows_before(u64::MAX);
    let calls = [
        Call::Schema,
        Call::Check,
        Call::Quiet,
        Call::Show,
        Call::First(0),
        Call::First(1),
        Call::First(rows / 2),
        Call::First(rows),
        Call::First(u64::MAX),
    ];
    for call in &calls {
        let answer = answer_of(alloc, *call, given)?;
        let wanted = wanted_of(alloc, *call, reported)?;
        found.compare((call.words(), given.number()), &answer, &wanted)?;
    }
    Ok(())
}

/// What a call writes of an input, and after it the status and the line of its fault.
fn answer_of(alloc: Global, call: Call, given: Given<'_>) -> Result<String, AllocError> {
    let (limits, mut input) = (limits_of(given.types), given.input());
    let output = Counted::new(Vec::new(alloc));
    let (output, answer) = match call {
        Call::Schema => return schema_answer(alloc, given),
        Call::Quiet => return written(alloc, &[], &check_quietly(alloc, &mut input, &limits)),
        Call::Check => check(alloc, &mut input, output, &limits),
        Call::Show => show(alloc, &mut input, output, &limits),
        Call::First(rows) => return first_answer(alloc, given, rows),
    };
    written(alloc, &output.into_inner(), &answer)
}

/// What is written of the first `rows` rows of an input.
fn first_answer(alloc: Global, given: Given<'_>, rows: u64) -> Result<String, AllocError> {
    let selection = Selection {
        layout: Layout::usual(),
        batch: None,
        skip: 0,
        rows: Some(rows),
    };
    let (limits, output) = (limits_of(given.types), Counted::new(Vec::new(alloc)));
    let (output, answer) = show_selection(alloc, &mut given.input(), output, &selection, &limits);
    match answer {
        Ok(()) => written(alloc, &output.into_inner(), &Ok(())),
        Err(ColumnsFault::Tool(fault)) => written(alloc, &output.into_inner(), &Err(fault)),
        Err(ColumnsFault::Lacks(_)) => String::from_str(alloc, "a column is lacking"),
    }
}

fn schema_answer(alloc: Global, given: Given<'_>) -> Result<String, AllocError> {
    match schema_text(alloc, &mut given.input(), &limits_of(given.types)) {
        Ok(text) => Ok(text),
        Err(fault) => written(alloc, &[], &Err(fault)),
    }
}

/// The expected output of a call for a stream, with the line of the fault.
pub(crate) fn wanted_of(
    alloc: Global,
    call: Call,
    reported: &Reported<'_>,
) -> Result<String, AllocError> {
    match call {
        Call::Schema => schema_of(alloc, reported),
        Call::Check => messages_of(alloc, reported),
        Call::Quiet => fault_of(alloc, reported),
        Call::Show => rows_of(alloc, reported, None),
        Call::First(rows) => rows_of(alloc, reported, Some(rows)),
    }
}

/// What was written, and after it the status and the line of the fault.
pub(crate) fn written(
    alloc: Global,
    bytes: &[u8],
    answer: &Result<(), ToolFault>,
) -> Result<String, AllocError> {
    let text = str::from_utf8(bytes).unwrap_or("not UTF-8\n");
    let mut text = String::from_str(alloc, text)?;
    if let Err(fault) = answer {
        let line = fault.line(alloc, "in", "out")?;
        write!(text, "{} {line}\n", fault.status())?;
    }
    Ok(text)
}

/// The text of the schema.
fn schema_of(alloc: Global, reported: &Reported<'_>) -> Result<String, AllocError> {
    let mut text = String::new(alloc);
    let Some(schema) = reported.schema() else {
        reported.push_fault(&mut text)?;
        return Ok(text);
    };
    for line in &schema.below {
        if let Some((level, column)) = column_in(line) {
            for _ in 0..level {
                text.push_str("  ")?;
            }
            write!(text, "{column}\n")?;
        }
    }
    Ok(text)
}

/// A line for each message, and how the stream ends.
fn messages_of(alloc: Global, reported: &Reported<'_>) -> Result<String, AllocError> {
    let mut text = String::new(alloc);
    let mut batches = 0u64;
    for message in &reported.messages {
        write!(text, "at {}: ", message.place)?;
        push_message(&mut text, message, batches)?;
        if message.form == Form::Batch {
            batches = batches.saturating_add(1);
        }
    }
    if reported.is_clean() && !reported.is_ended() {
        write!(text, "at {}: end of input\n", reported.place())?;
    }
    reported.push_fault(&mut text)?;
    Ok(text)
}

/// The line of a message, for a batch with its number.
fn push_message(text: &mut String, message: &Message<'_>, number: u64) -> Result<(), AllocError> {
    let count = message.count();
    match message.form {
        Form::Schema => {
            let columns = message.below.iter().filter_map(|line| column_in(line));
            let count = columns.filter(|column| column.0 == 0).count();
            write!(text, "schema, {count} columns\n")
        }
        Form::Dictionary => write!(text, "dictionary {}, now {count} values\n", message.id()),
        Form::Batch => write!(text, "batch {number}, {count} rows\n"),
        Form::End => text.push_str("end marker\n"),
    }
}

/// Only the line of the fault.
pub(crate) fn fault_of(alloc: Global, reported: &Reported<'_>) -> Result<String, AllocError> {
    let mut text = String::new(alloc);
    reported.push_fault(&mut text)?;
    Ok(text)
}

/// The names of the columns, then the rows of each batch, each after the batch's number, or only
/// the first `first` of them: then nothing is reported of what follows these.
fn rows_of(
    alloc: Global,
    reported: &Reported<'_>,
    first: Option<u64>,
) -> Result<String, AllocError> {
    let (mut text, mut left) = (String::new(alloc), first.unwrap_or(u64::MAX));
    let Some(schema) = reported.schema() else {
        return fault_of(alloc, reported);
    };
    push_header(alloc, &mut text, &schema.below)?;
    let batches = reported.messages.iter().filter(|it| it.form == Form::Batch);
    for (number, batch) in batches.enumerate() {
        for row in &batch.below {
            if left > 0 {
                push_record(alloc, &mut text, number, row)?;
            }
            left = left.saturating_sub(1);
        }
    }
    if first.is_none() || left > 0 {
        reported.push_fault(&mut text)?;
    }
    Ok(text)
}
