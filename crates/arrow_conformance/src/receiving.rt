//! What one side of a connection receives.

use crate::findings::Findings;
use crate::given::{Given, limits_of};
use crate::pack::Vector;
use crate::reported::{Form, Reported};
use crate::values::{push_batch, push_dictionary};
use arrow_stream_reader::StreamReader;
use arrowflow_input::session::{Ending, Received, receive};
use std::alloc::{AllocError, Global};

/// Compares what is received of the stream in one piece.
pub(crate) fn run_whole(
    alloc: Global,
    found: &mut Findings,
    given: Given<'_>,
    reported: &Reported<'_>,
) -> Result<(), AllocError> {
    let mut reader = StreamReader::new(alloc, limits_of(given.types));
    let whole = received(alloc, &mut reader, given.stream, &[])?;
    found.compare(
        ("received in pieces:", 1),
        &whole,
        &wanted_of(alloc, reported)?,
    )
}

/// Compares what is received of the stream byte by byte, and cut in two at each offset that is
/// chosen.
pub(crate) fn run_in_pieces(
    alloc: Global,
    found: &mut Findings,
    vector: &Vector<'_>,
    reported: &Reported<'_>,
) -> Result<(), AllocError> {
    let (wanted, stream) = (wanted_of(alloc, reported)?, vector.stream);
    let mut reader = StreamReader::new(alloc, vector.limits());
    let ones = vec![in alloc; 1; stream.len()]?;
    let each = received(alloc, &mut reader, stream, &ones)?;
    found.compare(("received in pieces:", stream.len()), &each, &wanted)?;
    for cut in 0..stream.len().saturating_add(1) {
        if reported.is_chosen(cut as u64, stream.len() as u64) {
            let two = received(alloc, &mut reader, stream, &[cut])?;
            found.compare(("received, cut at", cut), &two, &wanted)?;
        }
    }
    Ok(())
}

/// The batches, the dictionaries in their last state, and the ending.
fn wanted_of(alloc: Global, reported: &Reported<'_>) -> Result<String, AllocError> {
    let mut text = String::new(alloc);
    for message in &reported.messages {
        if message.form == Form::Batch {
            message.push_to(&mut text)?;
        }
    }
    for message in reported.dictionaries_at(alloc, u64::MAX)?.values() {
        message.push_to(&mut text)?;
    }
    write!(text, "end {}\n", reported.end)?;
    Ok(text)
}

fn received(
    alloc: Global,
    reader: &mut StreamReader,
    stream: &[u8],
    cuts: &[usize],
) -> Result<String, AllocError> {
    let received = receive(alloc, reader, stream, cuts)?;
    text_of(alloc, &received)
}

fn text_of(alloc: Global, received: &Received) -> Result<String, AllocError> {
    let mut text = String::new(alloc);
    for batch in &received.handed {
        push_batch(&mut text, batch)?;
    }
    for (id, dictionary) in &received.reader_dictionaries {
        push_dictionary(&mut text, *id, dictionary)?;
    }
    match received.ending {
        Ending::Clean => text.push_str("end clean\n")?,
        Ending::Fault(fault) => write!(text, "end {} at {}\n", fault.kind, fault.place)?,
    }
    Ok(text)
}
