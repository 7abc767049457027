//! Connections that break.

use crate::copying::{WAYS, copy_of};
use crate::findings::Findings;
use crate::given::{Given, limits_of};
use crate::reading::answers_to;
use crate::reported::{Message, Reported, push_ending};
use crate::reports::fault_of;
use arrow_sink::probe::Trickle;
use arrow_stream_writer::Options;
use arrow_types::TypeSet;
use arrowflow_drill::drill;
use arrowflow_input::ToolFault;
use std::alloc::{AllocError, Global};
use std::collections::BTreeMap;

/// A stream of up to this many bytes breaks at each of them.
const SMALL: u64 = 200;

/// The sizes of the pieces in which connections are delivered, used in turn.
const PIECES: [u64; 12] = [0, 1, 2, 3, 4, 5, 6, 7, 65, 1_000, 65_536, 1_073_741_824];

/// Compares the report on a connection over the stream, written in each way, that breaks: in the
/// first way after each byte if few are written, else after the chosen ones, in the others where a
/// message ends. What is written is a copy, and a reader gives its offsets.
pub(crate) fn run(
    alloc: Global,
    found: &mut Findings,
    given: Given<'_>,
    reported: &Reported<'_>,
) -> Result<(), AllocError> {
    if !reported.is_clean() {
        return Ok(());
    }
    for (way, options) in WAYS.iter().enumerate() {
        let (bytes, _) = copy_of(alloc, given, *options)?;
        let answers = answers_to(alloc, &bytes, given.types)?;
        let sent = Reported::of(alloc, &answers)?;
        for place in 0..sent.place().saturating_add(2) {
            let is_tried = if way == 0 {
                sent.place() <= SMALL || sent.is_chosen(place, sent.place())
            } else {
                sent.is_next_to_an_end(place)
            };
            if is_tried {
                let delivery = delivery_at(place, sent.place());
                let answer = drilled(alloc, &[given], *options, delivery)?;
                let mut wanted = String::new(alloc);
                push_connection(alloc, &mut wanted, 0, &sent, delivery)?;
                found.compare(("drilled, broken at", place as usize), &answer, &wanted)?;
            }
        }
    }
    Ok(())
}

/// How a stream of this size is delivered up to an offset: the complete stream if the offset is
/// past its end.
fn delivery_at(place: u64, size: u64) -> (u64, u64) {
    let piece = PIECES.get(place as usize % PIECES.len()).unwrap_or(&1);
    (if place > size { u64::MAX } else { place }, *piece)
}

/// Compares the report on three connections, the first and the last over the stream, written in
/// some of the ways, that break at one offset: it is only the fault of the stream if it has one. If
/// the input of one of them fails, this is reported, and no further input is read.
pub(crate) fn run_several(
    alloc: Global,
    found: &mut Findings,
    given: Given<'_>,
    between: Given<'_>,
    reported: &Reported<'_>,
) -> Result<(), AllocError> {
    if !reported.is_clean() {
        let givens = [between, given, Given::whole(&[], given.types)];
        let answer = drilled(alloc, &givens, WAYS[0], (u64::MAX, 8))?;
        let fault = fault_of(alloc, reported)?;
        return found.compare(("drilled behind another", 1), &answer, &fault);
    }
    for (way, options) in WAYS.iter().enumerate().take(2) {
        let (bytes, _) = copy_of(alloc, given, *options)?;
        let answers = answers_to(alloc, &bytes, given.types)?;
        let sent = Reported::of(alloc, &answers)?;
        let (bytes, _) = copy_of(alloc, between, *options)?;
        let others = answers_to(alloc, &bytes, between.types)?;
        let other_sent = Reported::of(alloc, &others)?;
        let delivery = (sent.place() / 3 * 2, 100);
        let answer = drilled(alloc, &[given, between, given], *options, delivery)?;
        let mut wanted = String::new(alloc);
        push_connection(alloc, &mut wanted, 0, &sent, delivery)?;
        push_connection(alloc, &mut wanted, 1, &other_sent, delivery)?;
        push_connection(alloc, &mut wanted, 2, &sent, delivery)?;
        found.compare(("three drilled in way", way), &answer, &wanted)?;
    }
    run_failing(alloc, found, given, between, reported.place() as usize / 2)
}

/// Compares the report on three inputs, each of which in turn fails at an offset, and how far they
/// are read.
fn run_failing(
    alloc: Global,
    found: &mut Findings,
    given: Given<'_>,
    whole: Given<'_>,
    place: usize,
) -> Result<(), AllocError> {
    let failing = Given {
        stream: given.stream,
        types: given.types,
        at_once: 100,
        fails: Some(place),
    };
    let all = whole.stream.len();
    for number in 0..3 {
        let mut inputs = Vec::new(alloc);
        let mut wanted = format!(in alloc; "cannot read input {number}\n")?;
        for at in 0..3 {
            let (input, read) = match number {
                _ if at == number => (failing, place),
                _ if at < number => (whole, all),
                _ => (whole, 0),
            };
            inputs.push(input.input())?;
            write!(wanted, "{read} ")?;
        }
        let delivery = (u64::MAX, 8);
        let mut answer = answer_of(alloc, &mut inputs, WAYS[0], delivery, given.types)?;
        for input in &inputs {
            write!(answer, "{} ", input.given())?;
        }
        found.compare(("drilled, failing input", number), &answer, &wanted)?;
    }
    Ok(())
}

/// The report on connections of which this many bytes are delivered, in pieces of this length; all
/// of them are read with the same limits.
fn drilled(
    alloc: Global,
    givens: &[Given<'_>],
    options: Options,
    delivery: (u64, u64),
) -> Result<String, AllocError> {
    let (mut inputs, mut types) = (Vec::new(alloc), TypeSet::Core);
    for given in givens {
        inputs.push(given.input())?;
        types = given.types;
    }
    answer_of(alloc, &mut inputs, options, delivery, types)
}

fn answer_of(
    alloc: Global,
    inputs: &mut [Trickle<'_>],
    options: Options,
    delivery: (u64, u64),
    types: TypeSet,
) -> Result<String, AllocError> {
    let (bytes, piece) = delivery;
    match drill(alloc, inputs, options, bytes, piece, &limits_of(types)) {
        Ok(text) => Ok(text),
        Err(ToolFault::Input(number)) => format!(in alloc; "cannot read input {number}\n"),
        Err(fault) => fault_text(alloc, &fault),
    }
}

fn fault_text(alloc: Global, fault: &ToolFault) -> Result<String, AllocError> {
    let line = fault.line(alloc, "in", "out")?;
    format!(in alloc; "{} {line}\n", fault.status())
}

/// Appends the expected report on the connection with this number that sends these messages.
fn push_connection(
    alloc: Global,
    text: &mut String,
    number: usize,
    sent: &Reported<'_>,
    delivery: (u64, u64),
) -> Result<(), AllocError> {
    let (size, batches) = (sent.place(), sent.batches_before(u64::MAX));
    let (place, piece) = (delivery.0.min(size), delivery.1);
    let parts = batches.saturating_add(2);
    write!(
        text,
        "connection {number}: wrote {size} bytes in {parts} parts, "
    )?;
    write!(text, "delivered {place} in pieces of {piece}\n")?;
    let (handed, rows) = (sent.batches_before(place), sent.rows_before(place));
    write!(
        text,
        "connection {number}: handed out {handed} of {batches} batches, {rows} rows\n"
    )?;
    write!(text, "connection {number}: dictionaries reader ")?;
    push_dictionaries(text, &sent.dictionaries_at(alloc, place)?)?;
    text.push_str(", writer ")?;
    push_dictionaries(text, &sent.dictionaries_at(alloc, u64::MAX)?)?;
    write!(text, "\nconnection {number}: ending ")?;
    push_ending(text, sent.last_end_before(place), place)
}

fn push_dictionaries(
    text: &mut String,
    dictionaries: &BTreeMap<i64, &Message<'_>>,
) -> Result<(), AllocError> {
    if dictionaries.is_empty() {
        return text.push_str("none");
    }
    for (number, (id, message)) in dictionaries.iter().enumerate() {
        if number > 0 {
            text.push(';')?;
        }
        write!(text, "{id}={}", message.count())?;
    }
    Ok(())
}
