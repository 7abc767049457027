//! Inputs that end early or fail, and outputs that fail.

use crate::copying::{WAYS, compare_bytes, copy_of, run_beginning};
use crate::findings::Findings;
use crate::given::{Given, limits_of};
use crate::pack::Vector;
use crate::reported::{Break, Reported, lines_before};
use crate::reports::{self, Call, wanted_of, written};
use crate::{drilling, receiving};
use arrow_sink::Sink;
use arrow_sink::probe::{Failing, Narrow};
use arrowflow_copy::copy;
use arrowflow_text::{check, show};
use std::alloc::{AllocError, Global};

/// The input of a stream breaks off next to about this many of its messages.
const NEXT_TO: usize = 16;

/// An output of up to this many bytes fails at each offset, a larger one at about `PLACES` offsets.
const SMALL: usize = 64;

const PLACES: usize = 16;

/// Compares the results of the calls on a stream that ends well if its input ends or fails after a
/// message and one byte before, and if their output fails; only at few offsets if `are_few`.
pub(crate) fn run(
    alloc: Global,
    found: &mut Findings,
    vector: &Vector<'_>,
    reported: &Reported<'_>,
    are_few: bool,
) -> Result<(), AllocError> {
    if !reported.is_clean() {
        return Ok(());
    }
    let (copied, _) = copy_of(alloc, vector.given(), WAYS[0])?;
    let count = reported.messages.len();
    let step = if are_few { count } else { count / NEXT_TO };
    for (number, message) in reported.messages.iter().enumerate() {
        if (number.saturating_add(1)) % step.max(1) == 0 {
            let end = message.end() as usize;
            break_input(alloc, found, vector, &copied, end)?;
            break_input(alloc, found, vector, &copied, end.saturating_sub(1))?;
        }
    }
    let messages = wanted_of(alloc, Call::Check, reported)?;
    let rows = wanted_of(alloc, Call::Show, reported)?;
    let outputs = [
        (Written::Messages, messages.as_bytes()),
        (Written::Rows, rows.as_bytes()),
        (Written::Copy, copied.as_slice()),
    ];
    for (what, wanted) in &outputs {
        let output = Output {
            what: *what,
            given: vector.given(),
            wanted,
        };
        output.run(alloc, found, are_few)?;
    }
    Ok(())
}

/// Compares the results of the calls on an input that ends or fails at an offset.
fn break_input(
    alloc: Global,
    found: &mut Findings,
    vector: &Vector<'_>,
    copied: &[u8],
    place: usize,
) -> Result<(), AllocError> {
    let stream = vector.stream.get(..place).unwrap_or(vector.stream);
    let lines = lines_before(alloc, vector.lines(), place as u64, Break::Ends)?;
    let reported = Reported::of(alloc, &lines)?;
    let types = vector.types();
    let given = Given {
        stream,
        types,
        at_once: 7,
        fails: None,
    };
    reports::run(alloc, found, given, &reported)?;
    run_beginning(alloc, found, given, &reported, (0, copied))?;
    receiving::run_whole(alloc, found, given, &reported)?;
    if !reported.is_clean() {
        let whole = Given::whole(stream, types);
        drilling::run_several(alloc, found, whole, vector.given(), &reported)?;
    }
    let lines = lines_before(alloc, vector.lines(), place as u64, Break::Fails)?;
    let reported = Reported::of(alloc, &lines)?;
    let given = Given {
        stream: vector.stream,
        types,
        at_once: 7,
        fails: Some(place),
    };
    reports::run(alloc, found, given, &reported)?;
    run_beginning(alloc, found, given, &reported, (0, copied))
}

/// What is written.
#[derive(Clone, Copy)]
enum Written {
    Messages,
    Rows,
    Copy,
}

/// The expected output for a stream.
#[derive(Clone, Copy)]
struct Output<'a> {
    what: Written,
    given: Given<'a>,
    wanted: &'a [u8],
}

impl Output<'_> {
    /// Compares what is written if the output fails at some offsets, and if it does not fail.
    fn run(&self, alloc: Global, found: &mut Findings, are_few: bool) -> Result<(), AllocError> {
        let size = self.wanted.len();
        let step = match size {
            _ if are_few => size,
            0..=SMALL => 1,
            _ => size / PLACES,
        };
        for place in 0..size {
            if place % step.max(1) == 0 || place.saturating_add(1) == size {
                self.narrow(alloc, found, (Failing::ByError, place), (0, 1))?;
                self.narrow(alloc, found, (Failing::ByNothing, place), (0, 1))?;
            }
        }
        self.narrow(alloc, found, (Failing::AtFlush, size), (1, 1))?;
        self.narrow(alloc, found, (Failing::ByError, size), (1, 0))
    }

    /// Compares the bytes that a sink with this capacity takes, how often it is flushed and fails,
    /// and the reported fault.
    fn narrow(
        &self,
        alloc: Global,
        found: &mut Findings,
        sink: (Failing, usize),
        counts: (u64, u64),
    ) -> Result<(), AllocError> {
        let (failing, left) = sink;
        let (output, answer) = self.given_to(alloc, failing, left)?;
        let fault = if counts.1 == 0 {
            ""
        } else {
            "2 cannot write out\n"
        };
        let (flushes, failures) = (output.flushes(), output.failures());
        let answer = format!(in alloc; "{flushes} flushes, {failures} failures\n{answer}")?;
        let wanted = format!(in alloc; "{} flushes, {} failures\n{fault}", counts.0, counts.1)?;
        found.compare(("output fails at", left), &answer, &wanted)?;
        let wanted = self.wanted.get(..left).unwrap_or(self.wanted);
        compare_bytes(
            found,
            ("bytes of an output that fails at", left),
            output.taken(),
            wanted,
        )
    }

    /// What the call writes into a sink with this capacity, and the line of its fault.
    fn given_to(
        &self,
        alloc: Global,
        failing: Failing,
        left: usize,
    ) -> Result<(Narrow, String), AllocError> {
        let output = Narrow::new(alloc, 100, left, failing);
        let (limits, mut input) = (limits_of(self.given.types), self.given.stream);
        let (output, answer) = match self.what {
            Written::Messages => check(alloc, &mut input, output, &limits),
            Written::Rows => show(alloc, &mut input, output, &limits),
            Written::Copy => copy(alloc, &mut input, output, WAYS[0], &limits),
        };
        Ok((output, written(alloc, &[], &answer)?))
    }
}
