//! Runs the vectors: each stream goes through each call that takes one, and the results of the
//! calls are compared with the vector's text. The file `vectors.arrows` has all of them, and says
//! which are read with all types (`pack`).
//!
//! | Module | What is compared |
//! |---|---|
//! | `reading` | all results of `StreamReader::read` and `end`: for the whole in one piece, byte by byte, and cut in two at each offset |
//! | `receiving` | the batches, the dictionaries and the ending that `receive` gives, for the same pieces |
//! | `reports` | what `schema_text`, `check`, `check_quietly`, `show` and `show_selection` write, with the status and the line of their fault |
//! | `copying` | what a reader reads of a copy, and that a copy of the copy is the copy |
//! | `drilling` | the report of `drill` on a connection that breaks, and on three |
//! | `breaking` | all these calls if the input ends early or fails, or the output fails |
//! | `changes` | how many batches and rows a reader returns from a changed stream, and how that ends: for the whole in one piece, and in small ones |
//! | `kinds` | that each kind of fault rejects a vector or a changed stream of the core |
//!
//! No expected result is written down here: each is made of the lines of the text (`reported`), which
//! come from a model in another language. The program prints a line for each vector, and the first
//! results that are not as expected. It ends with status 1 if there is one. With the word `whole`
//! after its name, no stream is delivered in pieces, inputs, outputs and connections break at few
//! offsets, a byte is set to few values, and the run ends with the first stream that has a wrong
//! result.
#![tactic(auto)]

mod breaking;
mod changes;
mod columns;
mod copying;
mod drilling;
mod findings;
mod given;
mod kinds;
mod pack;
mod reading;
mod receiving;
mod records;
mod reported;
mod reports;
mod values;

use crate::changes::{Family, base_of};
use crate::findings::Findings;
use crate::given::Given;
use crate::kinds::LAST;
use crate::pack::{Vector, batches_in, stream_of, vectors_in};
use crate::reported::Reported;
use std::alloc::{AllocError, Global};
use std::process::ExitCode;
use std::rt::{Env, Files};
use std::{env, fs, io};

/// The file that has the vectors.
const FILE: &str = "vectors.arrows";

/// The stream of a connection that runs together with others.
const OTHER: &str = "growing_dictionary";

/// The word with which streams are only delivered whole.
const WHOLE: &str = "whole";

fn main(rt: HostRuntime) -> ExitCode {
    match run_all(&rt) {
        Ok(true) => ExitCode::from(0),
        Ok(false) => ExitCode::from(1),
        Err(_) => ExitCode::from(2),
    }
}

/// Runs the vectors of the file, and prints the findings. Returns whether there are any vectors
/// and all results were as expected. Streams that are delivered whole come first, since they show
/// most; streams in pieces follow only if each whole one had the expected results.
fn run_all<R: AllocGlobal + Env + Files + Print>(rt: &R) -> io::Result<bool>
where
    R::File: Drop,
{
    let bytes = fs::read(rt, FILE)?;
    let batches = batches_in(rt.alloc(), &bytes)?;
    let vectors = vectors_in(rt.alloc(), &batches)?;
    let are_whole = env::args(rt)?.any(|word| word.as_str() == WHOLE);
    let runner = Runner {
        vectors: &vectors,
        other: stream_of(&vectors, OTHER).unwrap_or(&[]),
        are_whole,
    };
    let mut found = Findings::new(rt.alloc());
    runner.each(rt, &mut found, Part::Whole)?;
    if found.total() == 0 || !are_whole {
        runner.each(rt, &mut found, Part::Changes)?;
    }
    if found.total() == 0 && !are_whole {
        runner.each(rt, &mut found, Part::Pieces)?;
    }
    let is_as_expected = found.total() == 0 && print_missing(rt, &found)? == 0;
    let count = vectors.len();
    println!(rt; "{count} entries")?;
    Ok(is_as_expected && count > 0)
}

/// Prints a line for each kind of fault that rejects no stream of the core. Returns how many there
/// are.
fn print_missing<R: AllocGlobal + Print>(rt: &R, found: &Findings) -> io::Result<u64> {
    let mut missing = 0u64;
    for number in 1..LAST.saturating_add(1) {
        let count = found.rejected(number);
        if count == 0 {
            missing = missing.saturating_add(1);
            println!(rt; "kind {number}: {count}")?;
        }
    }
    Ok(missing)
}

/// What is run of the vectors.
#[derive(Clone, Copy)]
enum Part {
    /// Each stream, whole.
    Whole,
    /// Each file of changes.
    Changes,
    /// Each stream, in pieces.
    Pieces,
}

/// The vectors, and how they are run.
#[derive(Clone, Copy)]
struct Runner<'a> {
    vectors: &'a [Vector<'a>],
    /// The stream of a connection that runs together with others.
    other: &'a [u8],
    are_whole: bool,
}

impl Runner<'_> {
    /// Runs a part of the vectors. If streams are only delivered whole, the first vector with a
    /// result that is not as expected is the last one run.
    fn each<R: AllocGlobal + Print>(
        &self,
        rt: &R,
        found: &mut Findings,
        part: Part,
    ) -> io::Result<()> {
        for vector in self.vectors {
            if self.are_whole && found.total() > 0 {
                break;
            }
            if !vector.is_a_copy() {
                self.one(rt, found, part, vector)?;
            }
        }
        Ok(())
    }

    /// Runs one vector, and prints it.
    fn one<R: AllocGlobal + Print>(
        &self,
        rt: &R,
        found: &mut Findings,
        part: Part,
        vector: &Vector<'_>,
    ) -> io::Result<()> {
        let (alloc, is_of_changes) = (rt.alloc(), vector.is_of_changes());
        found.begin(alloc);
        match part {
            Part::Changes if is_of_changes => {
                self.changes(alloc, found, vector)?;
                print_line(rt, vector, changes::count(vector.text), found)?;
            }
            Part::Whole if !is_of_changes => {
                let reported = Reported::of(alloc, vector.lines())?;
                self.whole(alloc, found, vector, &reported)?;
                if found.wrong() > 0 {
                    print_line(rt, vector, reported.messages.len(), found)?;
                }
            }
            Part::Pieces if !is_of_changes => {
                let reported = Reported::of(alloc, vector.lines())?;
                self.pieces(alloc, found, vector, &reported)?;
                print_line(rt, vector, reported.messages.len(), found)?;
            }
            _ => {}
        }
        Ok(())
    }

    fn changes(
        &self,
        alloc: Global,
        found: &mut Findings,
        vector: &Vector<'_>,
    ) -> Result<(), AllocError> {
        let name = base_of(vector.text).unwrap_or("");
        let base = stream_of(self.vectors, name).unwrap_or(&[]);
        let family = Family {
            vector,
            base,
            are_whole: self.are_whole,
        };
        changes::run(alloc, found, family)
    }

    fn whole(
        &self,
        alloc: Global,
        found: &mut Findings,
        vector: &Vector<'_>,
        reported: &Reported<'_>,
    ) -> Result<(), AllocError> {
        let (given, other) = (vector.given(), Given::whole(self.other, vector.types()));
        reading::run_whole(alloc, found, vector)?;
        receiving::run_whole(alloc, found, given, reported)?;
        reports::run(alloc, found, given, reported)?;
        copying::run(alloc, found, self.vectors, vector, reported)?;
        drilling::run_several(alloc, found, given, other, reported)?;
        if self.are_whole {
            breaking::run(alloc, found, vector, reported, true)?;
        }
        Ok(())
    }

    fn pieces(
        &self,
        alloc: Global,
        found: &mut Findings,
        vector: &Vector<'_>,
        reported: &Reported<'_>,
    ) -> Result<(), AllocError> {
        let given = Given {
            stream: vector.stream,
            types: vector.types(),
            at_once: 1,
            fails: None,
        };
        reading::run_in_pieces(alloc, found, vector, reported)?;
        receiving::run_in_pieces(alloc, found, vector, reported)?;
        reports::run(alloc, found, given, reported)?;
        drilling::run(alloc, found, vector.given(), reported)?;
        breaking::run(alloc, found, vector, reported, false)
    }
}

/// Prints the findings for a vector with this number of messages, or of changes.
fn print_line<R: AllocGlobal + Print>(
    rt: &R,
    vector: &Vector<'_>,
    count: usize,
    found: &Findings,
) -> io::Result<()> {
    let (name, findings) = (vector.name, found.text(rt.alloc())?);
    if vector.is_of_changes() {
        return println!(rt; "{name}: {count} streams, {findings}");
    }
    let size = vector.stream.len();
    println!(rt; "{name}: {size} bytes, {count} messages, {findings}")
}
