//! What was sent and received, as texts.

use arrow_data::{Array, Batch, Dictionary};
use arrowflow_input::session::{Ending, Received};
use std::alloc::AllocError;
use std::process::Abort;

/// The text in slot `i`, or the one to which its index refers.
fn text_in(column: &Array, i: usize) -> &str {
    if i >= column.len() {
        return "no slot";
    }
    let (values, place) = column.resolved(i).unwrap_or((column, i));
    if place >= values.len() {
        return "no slot";
    }
    values.text_at(place).unwrap_or("_")
}

fn push_column(text: &mut String, column: &Array) -> Result<(), AllocError> {
    for i in 0..column.len() {
        text.push_str(text_in(column, i))?;
    }
    Ok(())
}

/// The letters of each batch.
fn push_batches(text: &mut String, batches: &[Batch]) -> Result<(), AllocError> {
    for batch in batches {
        for column in batch.columns() {
            push_column(text, column)?;
        }
        text.push(' ')?;
    }
    Ok(())
}

fn push_values(text: &mut String, dictionary: &Dictionary) -> Result<(), AllocError> {
    for i in 0..dictionary.len() {
        let (values, place) = dictionary.value(i);
        text.push_str(text_in(values, place))?;
    }
    Ok(())
}

/// The letters of each dictionary after its id.
pub(super) fn push_dictionaries(
    text: &mut String,
    dictionaries: &[(i64, Dictionary)],
) -> Result<(), AllocError> {
    for (id, dictionary) in dictionaries {
        write!(text, "{id}:")?;
        push_values(text, dictionary)?;
        text.push(' ')?;
    }
    Ok(())
}

/// The letters of the batches, those of the dictionaries, and the ending.
pub(super) fn push_received(text: &mut String, received: &Received) -> Result<(), AllocError> {
    push_batches(text, &received.handed)?;
    push_dictionaries(text, &received.reader_dictionaries)?;
    match received.ending {
        Ending::Clean => text.push_str("Clean"),
        Ending::Fault(fault) => write!(text, "{:?} at {}", fault.kind, fault.place),
    }
}

/// What a reader had of a stream.
pub(super) fn received_reported(rt: &(impl Abort + AllocGlobal), received: &Received) -> String {
    let mut text = String::new(rt.alloc());
    push_received(&mut text, received).expect(rt, "memory");
    text
}
