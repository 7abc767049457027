//! The command `copy`, which writes a stream again.

use crate::calls::Ends;
use crate::ends::{Destination, Source, create, is_same_file, is_standard, open_watched};
use crate::host::Host;
use crate::progress_reader::ProgressReader;
use crate::{Bounds, FAILED, FINE, out_of_memory, report, report_ended};
use arrowflow_input::ToolFault;
use arrowflow_line::CopyOptions;
use std::alloc::AllocError;
use std::fs::{File, OpenFile};
use std::io::{ErrorKind, Write};
use std::rt::Files;
use std::{fs, io};

/// What is copied where, and how.
#[derive(Clone, Copy)]
pub(crate) struct FileCopy<'a> {
    pub(crate) from: &'a str,
    pub(crate) to: &'a str,
    pub(crate) options: CopyOptions,
    pub(crate) bounds: Bounds<'a>,
}

impl<'a> FileCopy<'a> {
    /// What a plan asks for: if there is no output, the file is replaced by its copy.
    pub(crate) fn planned(
        from: &'a str,
        output: &'a Option<String>,
        options: CopyOptions,
        bounds: Bounds<'a>,
    ) -> FileCopy<'a> {
        let to = match output {
            Some(name) => name.as_str(),
            None => from,
        };
        let atomic = options.atomic || output.is_none();
        let options = CopyOptions { atomic, ..options };
        FileCopy {
            from,
            to,
            options,
            bounds,
        }
    }
}

/// Writes a stream again, and returns the exit status.
pub(crate) fn copy_file<R: Host>(rt: &R, copying: FileCopy<'_>) -> u8 {
    let FileCopy { from, to, .. } = copying;
    let input = match open_watched(rt, "copy", from, is_standard(to)) {
        Ok(input) => input,
        Err(fault) => return report(rt, &fault, from, to),
    };
    if copying.options.atomic {
        return replace(rt, input, copying);
    }
    if is_same_file(rt, from, to) {
        let _ = eprintln!(rt; "{from} and {to} are the same file");
        return FAILED;
    }
    match create(rt, to, copying.options.no_clobber) {
        Ok(output) => copy_into(rt, input, output, copying),
        Err(error) => not_created(rt, &error, from, to),
    }
}

/// Reports that the output of this name was not created.
fn not_created<R: AllocGlobal + Eprint>(rt: &R, error: &io::Error, from: &str, to: &str) -> u8 {
    if error.kind() == ErrorKind::AlreadyExists {
        let _ = eprintln!(rt; "{to} exists");
        return FAILED;
    }
    report(rt, &ToolFault::Output, from, to)
}

/// Writes the stream of an input again into an output, and returns the exit status.
fn copy_into<R: Host, W: Write + Drop>(
    rt: &R,
    input: ProgressReader<'_, R, Source<R::File, R::Reader>>,
    output: W,
    copying: FileCopy<'_>,
) -> u8 {
    let FileCopy {
        from,
        to,
        options,
        bounds,
    } = copying;
    let Ok(ends) = Ends::new(rt.alloc(), input, output) else {
        return out_of_memory(rt);
    };
    let (input, ended) = ends.copy(rt.alloc(), options, bounds.limits, bounds.whole);
    input.clear();
    report_ended(rt, ended, None, (from, to))
}

/// Writes the stream of an input again into a file next to the output's, which replaces the
/// output's once everything is written; returns the exit status.
fn replace<R: Host>(
    rt: &R,
    input: ProgressReader<'_, R, Source<R::File, R::Reader>>,
    copying: FileCopy<'_>,
) -> u8 {
    let FileCopy { from, to, .. } = copying;
    if !is_replaceable(rt, to) {
        let _ = eprintln!(rt; "{to} is no file that can be replaced");
        return FAILED;
    }
    if copying.options.no_clobber && fs::metadata(rt, to).is_ok() {
        let _ = eprintln!(rt; "{to} exists");
        return FAILED;
    }
    let Ok((place, part)) = place_and_part(rt, to) else {
        return out_of_memory(rt);
    };
    let output = match File::create_new(rt, part.as_str()) {
        Ok(output) => output,
        Err(error) => return not_created(rt, &error, from, &part),
    };
    let written = output.try_clone();
    let status = copy_into(rt, input, output, copying);
    let Ok(file) = written else {
        let _ = fs::remove_file(rt, part.as_str());
        return report(rt, &ToolFault::Output, from, to);
    };
    if status == FINE
        && put_in_place(rt, &file, (&part, &place), copying.options.no_clobber).is_ok()
    {
        return FINE;
    }
    let _ = fs::remove_file(rt, part.as_str());
    if status == FINE {
        report(rt, &ToolFault::Output, from, to)
    } else {
        status
    }
}

/// The name of the file that is replaced, for a link to a file the one that it leads to, and the
/// name of the file next to it.
fn place_and_part<R: Host>(rt: &R, name: &str) -> Result<(String, String), AllocError> {
    let place = match fs::canonicalize(rt, name) {
        Ok(path) => String::from_str(rt.alloc(), path.as_str())?,
        Err(_) => String::from_str(rt.alloc(), name)?,
    };
    let mut part = place.clone()?;
    part.push_str(".part")?;
    Ok((place, part))
}

/// Whether the name is that of a regular file, or of no file yet.
fn is_replaceable<R: Files>(rt: &R, name: &str) -> bool {
    if is_standard(name) {
        return false;
    }
    match fs::metadata(rt, name) {
        Ok(found) => found.is_file(),
        Err(_) => true,
    }
}

/// Replaces a file by another that was written completely, with the permissions of the replaced
/// one.
fn put_in_place<R: Files>(
    rt: &R,
    file: &R::File,
    (part, place): (&str, &str),
    no_clobber: bool,
) -> io::Result<()> {
    if let Ok(found) = fs::metadata(rt, place) {
        file.set_permissions(found.permissions())?;
    }
    file.sync_all()?;
    if no_clobber {
        fs::hard_link(rt, part, place)?;
        return fs::remove_file(rt, part);
    }
    fs::rename(rt, part, place)
}
