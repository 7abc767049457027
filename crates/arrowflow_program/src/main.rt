//! The program `arrowflow`: reads its command line, opens the files, makes one call of the library,
//! or one for each file, prints the results, and ends with the call's exit status.
#![tactic(auto)]

ghost use Rattle.std.specs.Prelude.{◌≡◌, ◌⊎◌, IfErr, IfSome, None, OnOk};
ghost use Rattle.arrowflow_input.specs.Faults.{status_of as status_by};

mod calls;
mod coloured;
mod copying;
mod drilling;
mod ends;
mod explaining;
mod host;
mod labelled;
mod output_buffer;
mod pipe;
mod progress_reader;
mod reading;
mod showing;

use crate::calls::Ended;
use crate::copying::{FileCopy, copy_file};
use crate::drilling::{Rehearsal, drill_files};
use crate::ends::{input_name, output_name};
use crate::explaining::explain_file;
use crate::host::Host;
use crate::labelled::Labelled;
use crate::pipe::Pipe;
use crate::reading::{FileReading, read_files};
use crate::showing::show_file;
use arrow_types::Limits;
use arrowflow_input::{ToolFault, WholeLimits};
use arrowflow_line::{ArgFault, Plan, Task, Totals, plan};
use std::alloc::Global;
use std::io::{ErrorKind, Write};
use std::process::ExitCode;
use std::{env, io};

/// All went well.
pub(crate) const FINE: u8 = 0;

/// A stream was rejected.
pub(crate) const REFUSED: u8 = 1;

/// The arguments, a file or memory failed.
pub(crate) const FAILED: u8 = 2;

/// The size of a block that is allocated and freed before all others: afterwards glibc keeps twice
/// as much free memory for later blocks.
const FIRST_BLOCK: usize = 4 << 20;

fn main(rt: HostRuntime) -> ExitCode {
    ExitCode::from(run(&rt))
}

/// Does what the command line asks for, and returns the exit status.
fn run<R: Host>(rt: &R) -> u8 {
    let alloc = rt.alloc();
    keep_free_memory(alloc);
    let words = match env::args(rt) {
        Ok(words) => words,
        Err(error) if error.kind() == ErrorKind::OutOfMemory => return out_of_memory(rt),
        Err(_) => {
            let _ = eprintln!(rt; "the command line is not UTF-8");
            return FAILED;
        }
    };
    let Ok(words) = words.collect::<Vec<String>>(alloc) else {
        return out_of_memory(rt);
    };
    let Ok(words) = words
        .iter()
        .map(|word| word.as_str())
        .collect::<Vec<&str>>(alloc)
    else {
        return out_of_memory(rt);
    };
    match plan(alloc, &words) {
        Ok(plan) => carry_out(rt, &plan),
        Err(ArgFault::Line(error)) => print_help(rt, &error),
        Err(ArgFault::Misused(misuse)) => {
            let _ = eprintln!(rt; "{misuse}");
            FAILED
        }
        Err(ArgFault::Memory) => out_of_memory(rt),
    }
}

/// Makes glibc keep free memory for later blocks. Otherwise glibc returns free memory to the system
/// once there is twice as much of it as the largest block that glibc took from the system by
/// itself: a batch of some thousand columns frees just that much, and the next batch is given all
/// its pages again. If this allocation fails, that is what happens.
fn keep_free_memory(alloc: Global) {
    let _ = Vec::<u8>::with_capacity(alloc, FIRST_BLOCK);
}

/// The bounds of a message, and of a whole stream.
#[derive(Clone, Copy)]
pub(crate) struct Bounds<'a> {
    pub(crate) limits: &'a Limits,
    pub(crate) whole: WholeLimits,
}

impl<'a> Bounds<'a> {
    /// Whether the whole stream has a bound.
    pub(crate) fn are_some(self) -> bool {
        self.whole != WholeLimits::none()
    }
}

/// The bounds that a command line asks for.
fn whole_limits(totals: Totals) -> WholeLimits {
    WholeLimits {
        rows: totals.rows,
        messages: totals.messages,
        bytes: totals.bytes,
    }
}

/// Makes the call that a plan asks for, and returns the exit status.
fn carry_out<R: Host>(rt: &R, plan: &Plan) -> u8 {
    let limits = &plan.limits;
    let bounds = Bounds {
        limits,
        whole: whole_limits(plan.totals),
    };
    match &plan.task {
        Task::Schema(files) => read_files(rt, FileReading::Schema, files, bounds),
        Task::Check(files, false) => read_files(rt, FileReading::Messages, files, bounds),
        Task::Check(files, true) => read_files(rt, FileReading::Nothing, files, bounds),
        Task::Show(name, options) => show_file(rt, name, options, bounds),
        Task::Explain(name) => explain_file(rt, name, limits),
        Task::Copy(input, output, options) => {
            copy_file(rt, FileCopy::planned(input, output, *options, bounds))
        }
        Task::Drill(names, options, bytes, piece) => {
            let rehearsal = Rehearsal {
                options: *options,
                bytes: *bytes,
                piece: *piece,
            };
            drill_files(rt, names, rehearsal, limits)
        }
    }
}

/// Prints what clap says of the command line, and returns the exit status: help is fine, any other
/// message is not.
fn print_help<R: Print + Eprint>(rt: &R, error: &clap::Error) -> u8 {
    if error.print(rt).is_ok() && error.exit_code() == 0 {
        FINE
    } else {
        FAILED
    }
}

/// Prints a text to standard output, and returns the exit status.
pub(crate) fn print_text<R: AllocGlobal + Print + Eprint>(rt: &R, text: &str) -> u8 {
    print_lines(rt, text, None)
}

/// Prints the lines of a text to standard output, each after this label, and returns the exit
/// status.
pub(crate) fn print_lines<R>(rt: &R, text: &str, label: Option<&str>) -> u8
where
    R: AllocGlobal + Print + Eprint,
{
    let mut output = Pipe::new(Labelled::new(io::writer(rt), label));
    let written = output.write_all(text.as_bytes());
    let answer = written.map_err(|_| ToolFault::Output);
    status_of(rt, answer, ("-", "-"), output.is_closed())
}

/// The file that a command reads: the one with this name, or standard input if there is no name and
/// standard input is not a terminal. The exit status if there is none.
pub(crate) fn named_or_standard<'a, R: Host>(rt: &R, name: Option<&'a str>) -> Result<&'a str, u8> {
    match name {
        Some(name) => Ok(name),
        None if rt.reads_terminal() => {
            let _ = eprintln!(rt; "no FILE was named, and standard input is a terminal");
            Err(FAILED)
        }
        None => Ok("-"),
    }
}

/// Reports how a call ended that read the input with the first name and wrote the output with the
/// second, and returns its status: the bound that its stream passed, or its fault. A line about the
/// stream comes after the label, if there is one.
pub(crate) fn report_ended<R: AllocGlobal + Eprint>(
    rt: &R,
    ended: Ended,
    label: Option<&str>,
    names: (&str, &str),
) -> u8
    ensures excess { IfSome ended.excess (λ _. result ≡ REFUSED) }
    ensures fine { ended.excess ≡ None → OnOk ended.answer (result ≡ FINE) }
{
    let is_about_stream = matches!(ended.answer, Err(ToolFault::Stream(_)));
    if (ended.excess.is_some() || is_about_stream) && !ended.is_closed {
        print_label(rt, label);
    }
    match ended.excess {
        Some(excess) if !ended.is_closed => {
            let _ = eprintln!(rt; "{excess}");
            REFUSED
        }
        Some(_) => REFUSED,
        None => status_of(rt, ended.answer, names, ended.is_closed),
    }
}

/// Begins a line on standard error with this label, if there is one.
pub(crate) fn print_label<R: Eprint>(rt: &R, label: Option<&str>) {
    if let Some(label) = label {
        let _ = eprint!(rt; "{label}:");
    }
}

/// Reports that there are bounds that `--json` does not go with, and returns the status.
pub(crate) fn no_json_bounds<R: Eprint>(rt: &R) -> u8
    ensures { result ≡ FAILED }
{
    let _ = eprintln!(rt; "--json has no bounds of a whole stream");
    FAILED
}

/// Reports how a call ended that read the input with the first name and wrote the output with the
/// second, whose reader may have gone, and returns its status, or that of a failed allocation if
/// the line cannot be made.
pub(crate) fn status_of<R: AllocGlobal + Eprint>(
    rt: &R,
    answer: Result<(), ToolFault>,
    names: (&str, &str),
    is_closed: bool,
) -> u8
    ensures fine { OnOk answer (result ≡ FINE) }
    ensures fault { IfErr answer (λ fault. (result ≡ status_by fault) ⊎ (result ≡ FAILED)) }
{
    match answer {
        Ok(()) => FINE,
        // whoever closes a pipe knows that, and needs no report of it
        Err(fault) if is_closed => fault.status(),
        Err(fault) => report(rt, &fault, names.0, names.1),
    }
}

/// Reports a fault of a call that read the input with the first name and wrote the output with the
/// second, and returns its status, or that of a failed allocation if the line cannot be made.
pub(crate) fn report<R: AllocGlobal + Eprint>(
    rt: &R,
    fault: &ToolFault,
    read: &str,
    written: &str,
) -> u8
    ensures { (result ≡ status_by fault.now) ⊎ (result ≡ FAILED) }
{
    let Ok(line) = fault.line(rt.alloc(), input_name(read), output_name(written)) else {
        return out_of_memory(rt);
    };
    let _ = eprintln!(rt; "{line}");
    fault.status()
}

pub(crate) fn out_of_memory<R: Eprint>(rt: &R) -> u8
    ensures { result ≡ FAILED }
{
    let _ = eprintln!(rt; "out of memory");
    FAILED
}
