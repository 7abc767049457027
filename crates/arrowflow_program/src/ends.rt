//! Where a stream comes from, and where one goes: files, or standard input and output.

use crate::host::Host;
use crate::progress_reader::{ProgressLine, ProgressReader};
use arrowflow_input::ToolFault;
use std::fs::File;
use std::io::{Input, Read, Write};
use std::os::unix::fs::MetadataExt;
use std::rt::Files;
use std::{fs, io};

/// The name that means standard input or output.
const STANDARD: &str = "-";

/// Whether the name means standard input or output.
pub(crate) fn is_standard(name: &str) -> bool {
    name == STANDARD
}

/// The name of an input in a line about it.
pub(crate) fn input_name(name: &str) -> &str {
    if is_standard(name) {
        "standard input"
    } else {
        name
    }
}

/// The name of an output in a line about it.
pub(crate) fn output_name(name: &str) -> &str {
    if is_standard(name) {
        "standard output"
    } else {
        name
    }
}

/// A file, or standard input.
#[derive(Drop)]
pub(crate) enum Source<F: Read + Drop, I: Read + Drop> {
    File(F),
    Standard(I),
}

impl<F: Read + Drop, I: Read + Drop> Read for Source<F, I> {
    fn read(&mut self, piece: &mut [u8]) -> io::Result<usize> {
        match self {
            Source::File(file) => file.read(piece),
            Source::Standard(input) => input.read(piece),
        }
    }
}

/// Opens the input with this number and name.
pub(crate) fn open<R: Files + Input>(
    rt: &R,
    number: u64,
    name: &str,
) -> Result<Source<R::File, R::Reader>, ToolFault> {
    if is_standard(name) {
        return Ok(Source::Standard(rt.reader()));
    }
    let file = File::open(rt, name).map_err(|_| ToolFault::Input(number))?;
    Ok(Source::File(file))
}

/// Opens the only input of a command, which prints on standard output or not. Its progress is
/// reported if standard error is a terminal, unless the command prints on a terminal.
pub(crate) fn open_watched<'a, R: Host>(
    rt: &'a R,
    command: &'a str,
    name: &str,
    prints: bool,
) -> Result<ProgressReader<'a, R, Source<R::File, R::Reader>>, ToolFault> {
    let input = open(rt, 0, name)?;
    let progress = if !rt.reports_on_terminal() || (prints && rt.prints_on_terminal()) {
        None
    } else {
        ProgressLine::new(rt, command, size_of(rt, name))
    };
    Ok(ProgressReader::new(input, progress))
}

/// A file, or standard output.
#[derive(Drop)]
pub(crate) enum Destination<F: Write + Drop, O: Write + Drop> {
    File(F),
    Standard(O),
}

impl<F: Write + Drop, O: Write + Drop> Write for Destination<F, O> {
    fn write(&mut self, bytes: &[u8]) -> io::Result<usize> {
        match self {
            Destination::File(file) => file.write(bytes),
            Destination::Standard(output) => output.write(bytes),
        }
    }

    fn flush(&mut self) -> io::Result<()> {
        match self {
            Destination::File(file) => file.flush(),
            Destination::Standard(output) => output.flush(),
        }
    }
}

/// Opens the output with this name: a file is created. An existing file is emptied, or is an error
/// with `no_clobber`.
pub(crate) fn create<'a, R: Files + Print>(
    rt: &'a R,
    name: &str,
    no_clobber: bool,
) -> io::Result<Destination<R::File, io::Printer<'a, R>>> {
    if is_standard(name) {
        return Ok(Destination::Standard(io::writer(rt)));
    }
    let file = if no_clobber {
        File::create_new(rt, name)?
    } else {
        File::create(rt, name)?
    };
    Ok(Destination::File(file))
}

/// How many bytes the file with this name has; `None` if the name means standard input, or is not
/// that of a regular file.
fn size_of<R: Files>(rt: &R, name: &str) -> Option<u64> {
    if is_standard(name) {
        return None;
    }
    match fs::metadata(rt, name) {
        Ok(found) if found.is_file() => Some(found.len()),
        Ok(_) | Err(_) => None,
    }
}

/// Whether both names are those of one regular file, as far as the system knows. The name for
/// standard input or output is never the name of a file, even if there is a file with that name.
pub(crate) fn is_same_file<R: Files>(rt: &R, one: &str, other: &str) -> bool {
    if is_standard(one) || is_standard(other) {
        return false;
    }
    let (Ok(one), Ok(other)) = (fs::metadata(rt, one), fs::metadata(rt, other)) else {
        return false;
    };
    one.is_file() && one.dev() == other.dev() && one.ino() == other.ino()
}
