//! The commands that read any number of files, one after the other.

use crate::calls::{Ended, JsonLines, open_ends};
use crate::ends::{input_name, open, open_watched};
use crate::host::Host;
use crate::labelled::Labelled;
use crate::{
    Bounds, FINE, named_or_standard, no_json_bounds, print_label, print_lines, report, report_ended,
};
use arrow_types::Limits;
use arrowflow_input::{Bounded, ToolFault};
use arrowflow_line::Files as FileNames;
use arrowflow_text::{check_quietly_within, schema_text};
use std::io;

/// What is printed for each file.
#[derive(Clone, Copy)]
pub(crate) enum FileReading {
    /// Its schema.
    Schema,
    /// A line for each of its messages.
    Messages,
    /// Nothing: the exit status says whether it is valid.
    Nothing,
}

/// A file that is read, whether its lines have its name, and whether they are JSON.
#[derive(Clone, Copy)]
pub(crate) struct Named<'a> {
    pub(crate) name: &'a str,
    pub(crate) is_labelled: bool,
    pub(crate) json: bool,
}

impl<'a> Named<'a> {
    /// One of the files that a command reads.
    fn of(name: &'a str, files: &FileNames) -> Named<'a> {
        Named {
            name,
            is_labelled: files.with_filename || files.names.len() > 1,
            json: files.json,
        }
    }

    /// The name that its lines have.
    fn label(self) -> Option<&'a str> {
        if self.is_labelled {
            Some(input_name(self.name))
        } else {
            None
        }
    }
}

/// Reads files, or standard input if none is named, and returns the worst exit status. If there are
/// several, their lines begin with their names.
pub(crate) fn read_files<R: Host>(
    rt: &R,
    reading: FileReading,
    files: &FileNames,
    bounds: Bounds<'_>,
) -> u8 {
    if files.json && bounds.are_some() {
        return no_json_bounds(rt);
    }
    if files.names.is_empty() {
        return match named_or_standard(rt, None) {
            Ok(name) => read_file(rt, reading, Named::of(name, files), bounds),
            Err(status) => status,
        };
    }
    let mut worst = FINE;
    for name in &files.names {
        worst = worst.max(read_file(rt, reading, Named::of(name, files), bounds));
    }
    worst
}

/// Reads one file, and returns the exit status.
fn read_file<R: Host>(rt: &R, reading: FileReading, named: Named<'_>, bounds: Bounds<'_>) -> u8 {
    let limits = bounds.limits;
    match reading {
        FileReading::Schema if named.json => {
            print_objects(rt, "check", named, JsonLines::Columns, limits)
        }
        FileReading::Schema => print_schema(rt, named, limits),
        FileReading::Messages if named.json => {
            print_objects(rt, "check", named, JsonLines::Messages, limits)
        }
        FileReading::Messages => print_messages(rt, named, bounds),
        FileReading::Nothing => check_file(rt, named, bounds),
    }
}

/// Prints the schema of the stream in a file.
fn print_schema<R: Host>(rt: &R, named: Named<'_>, limits: &Limits) -> u8 {
    let mut file = match open(rt, 0, named.name) {
        Ok(file) => file,
        Err(fault) => return report_of(rt, &fault, named),
    };
    match schema_text(rt.alloc(), &mut file, limits) {
        Ok(text) => print_lines(rt, &text, named.label()),
        Err(fault) => report_of(rt, &fault, named),
    }
}

/// Prints a line for each message of the stream in a file.
fn print_messages<R: Host>(rt: &R, named: Named<'_>, bounds: Bounds<'_>) -> u8 {
    let output = Labelled::new(io::writer(rt), named.label());
    let ends = match open_ends(rt, "check", named.name, output) {
        Ok(ends) => ends,
        Err(fault) => return report_of(rt, &fault, named),
    };
    let (input, ended) = ends.check(rt.alloc(), bounds.limits, bounds.whole);
    input.clear();
    report_ended(rt, ended, named.label(), (named.name, "-"))
}

/// Prints JSON objects about the stream in a file, one on each line.
pub(crate) fn print_objects<'a, R: Host>(
    rt: &'a R,
    command: &'a str,
    named: Named<'_>,
    lines: JsonLines,
    limits: &Limits,
) -> u8 {
    let ends = match open_ends(rt, command, named.name, io::writer(rt)) {
        Ok(ends) => ends,
        Err(fault) => return report_of(rt, &fault, named),
    };
    let (input, ended) = ends.json(rt.alloc(), lines, named.label(), limits);
    input.clear();
    report_ended(rt, ended, named.label(), (named.name, "-"))
}

/// Reads the stream in a file, and prints only the line of its fault.
fn check_file<R: Host>(rt: &R, named: Named<'_>, bounds: Bounds<'_>) -> u8 {
    let input = match open_watched(rt, "check", named.name, false) {
        Ok(input) => input,
        Err(fault) => return report_of(rt, &fault, named),
    };
    let mut input = Bounded::new(input, bounds.whole);
    let answer = check_quietly_within(rt.alloc(), &mut input, bounds.limits);
    let ended = Ended {
        answer,
        excess: input.excess(),
        is_closed: false,
    };
    input.into_inner().clear();
    report_ended(rt, ended, named.label(), (named.name, "-"))
}

/// Prints the line of a fault, after the name of a labelled file if the line does not have it.
fn report_of<R: AllocGlobal + Eprint>(rt: &R, fault: &ToolFault, named: Named<'_>) -> u8 {
    if let ToolFault::Stream(_) = fault {
        print_label(rt, named.label());
    }
    report(rt, fault, named.name, "-")
}
