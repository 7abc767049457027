//! Streams that are written again.

use crate::findings::Findings;
use crate::given::{Given, limits_of};
use crate::pack::{Vector, stream_of};
use crate::reading::answers_to;
use crate::reported::{Form, Reported};
use crate::reports::{fault_of, written};
use arrow_body_writer::Align;
use arrow_dict::Updates;
use arrow_sink::Counted;
use arrow_stream_writer::Options;
use arrowflow_copy::copy;
use std::alloc::{AllocError, Global};

/// The bytes that end a stream.
const END_MARKER: [u8; 8] = [0xff, 0xff, 0xff, 0xff, 0, 0, 0, 0];

/// The ways to write a stream.
pub(crate) const WAYS: [Options; 4] = [
    Options {
        updates: Updates::Delta,
        align: Align::Eight,
    },
    Options {
        updates: Updates::Resend,
        align: Align::Eight,
    },
    Options {
        updates: Updates::Delta,
        align: Align::SixtyFour,
    },
    Options {
        updates: Updates::Resend,
        align: Align::SixtyFour,
    },
];

/// Compares what a reader reads of a copy, written in each way: the schema and the rows up to where
/// the stream ends, and how it ends. If it ends well, a copy of the copy equals the copy, and if
/// the file of vectors has the expected output, these are its bytes.
pub(crate) fn run(
    alloc: Global,
    found: &mut Findings,
    vectors: &[Vector<'_>],
    vector: &Vector<'_>,
    reported: &Reported<'_>,
) -> Result<(), AllocError> {
    let fault = fault_of(alloc, reported)?;
    let wanted = rows_of(alloc, reported, reported.is_clean())?;
    let types = vector.types();
    for (way, options) in WAYS.iter().enumerate() {
        let (bytes, answer) = copy_of(alloc, vector.given(), *options)?;
        found.compare(("copied in way", way), &answer, &fault)?;
        let answers = answers_to(alloc, &bytes, types)?;
        let copied = Reported::of(alloc, &answers)?;
        let rows = rows_of(alloc, &copied, copied.is_ended())?;
        found.compare(("rows copied in way", way), &rows, &wanted)?;
        if reported.is_clean() {
            let (again, _) = copy_of(alloc, Given::whole(&bytes, types), *options)?;
            compare_bytes(found, ("copied twice in way", way), &again, &bytes)?;
        }
        let name = format!(in alloc; "{}.copy{way}", vector.name)?;
        if let Some(wanted) = stream_of(vectors, &name) {
            compare_bytes(found, ("bytes copied in way", way), &bytes, wanted)?;
        }
    }
    Ok(())
}

/// Compares what is written of an input; the copy of its complete stream in a way has the given
/// bytes. The output begins with these bytes, up to the last batch in the text, and if the input
/// ends well, the end marker follows.
pub(crate) fn run_beginning(
    alloc: Global,
    found: &mut Findings,
    given: Given<'_>,
    reported: &Reported<'_>,
    copied: (usize, &[u8]),
) -> Result<(), AllocError> {
    let (way, whole) = copied;
    let answers = answers_to(alloc, whole, given.types)?;
    let sent = Reported::of(alloc, &answers)?;
    let mut wanted = Vec::new(alloc);
    if reported.schema().is_some() {
        let end = sent.end_of_batches(reported.batches_before(u64::MAX));
        wanted.extend_from_slice(whole.get(..end as usize).unwrap_or(whole))?;
    }
    if reported.is_clean() {
        wanted.extend_from_slice(&END_MARKER)?;
    }
    let options = WAYS.get(way).unwrap_or(&WAYS[0]);
    let (bytes, answer) = copy_of(alloc, given, *options)?;
    let fault = fault_of(alloc, reported)?;
    found.compare(("copied by reads of", given.number()), &answer, &fault)?;
    compare_bytes(
        found,
        ("bytes copied by reads of", given.number()),
        &bytes,
        &wanted,
    )
}

/// Compares bytes with the expected ones.
pub(crate) fn compare_bytes(
    found: &mut Findings,
    call: (&str, usize),
    bytes: &[u8],
    wanted: &[u8],
) -> Result<(), AllocError> {
    let is_same = if bytes == wanted {
        "the same\n"
    } else {
        "others\n"
    };
    found.compare(call, is_same, "the same\n")
}

/// What is written of an input, and after it the fault.
pub(crate) fn copy_of(
    alloc: Global,
    given: Given<'_>,
    options: Options,
) -> Result<(Vec<u8>, String), AllocError> {
    let (limits, mut input) = (limits_of(given.types), given.input());
    let output = Counted::new(Vec::new(alloc));
    let (output, answer) = copy(alloc, &mut input, output, options, &limits);
    let answer = written(alloc, &[], &answer)?;
    Ok((output.into_inner(), answer))
}

/// The schema and the batches, and whether an end marker follows them.
fn rows_of(alloc: Global, reported: &Reported<'_>, is_ended: bool) -> Result<String, AllocError> {
    let mut text = String::new(alloc);
    for message in &reported.messages {
        if message.form == Form::Schema || message.form == Form::Batch {
            message.push_to(&mut text)?;
        }
    }
    text.push_str(if is_ended {
        "end marker\n"
    } else {
        "no end marker\n"
    })?;
    Ok(text)
}
