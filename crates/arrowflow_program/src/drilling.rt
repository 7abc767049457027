//! The command `drill`, which rehearses connections over the streams in files.

use crate::ends::{Source, open};
use crate::host::Host;
use crate::{print_text, report};
use arrow_stream_writer::Options;
use arrow_types::Limits;
use arrowflow_drill::drill;
use arrowflow_input::ToolFault;

/// How streams are rehearsed: how they are written again, how many bytes of each connection are
/// delivered, and in pieces of which length.
#[derive(Clone, Copy)]
pub(crate) struct Rehearsal {
    pub(crate) options: Options,
    pub(crate) bytes: u64,
    pub(crate) piece: u64,
}

/// Rehearses a connection for each stream in the files of these names, and prints the results.
pub(crate) fn drill_files<R: Host>(
    rt: &R,
    names: &[String],
    rehearsal: Rehearsal,
    limits: &Limits,
) -> u8 {
    let mut inputs = match open_all(rt, names) {
        Ok(inputs) => inputs,
        Err(fault) => return report_of(rt, &fault, names),
    };
    let Rehearsal {
        options,
        bytes,
        piece,
    } = rehearsal;
    match drill(rt.alloc(), &mut inputs, options, bytes, piece, limits) {
        Ok(text) => print_text(rt, &text),
        Err(fault) => report_of(rt, &fault, names),
    }
}

/// Opens the inputs with these names, in their order. Stops at the first that cannot be opened.
fn open_all<R: Host>(
    rt: &R,
    names: &[String],
) -> Result<Vec<Source<R::File, R::Reader>>, ToolFault> {
    let mut inputs = Vec::new(rt.alloc());
    for (number, name) in names.iter().enumerate() {
        let input = open(rt, number as u64, name)?;
        if inputs.push(input).is_err() {
            return Err(ToolFault::Memory);
        }
    }
    Ok(inputs)
}

/// Reports a fault of a call that read the inputs with these names, and returns its status.
fn report_of<R: AllocGlobal + Eprint>(rt: &R, fault: &ToolFault, names: &[String]) -> u8 {
    report(rt, fault, failed_name(fault, names), "-")
}

/// The name of the input that failed. For any other fault it is empty, since the line of that fault
/// names no input.
fn failed_name<'a>(fault: &ToolFault, names: &'a [String]) -> &'a str {
    match fault {
        ToolFault::Input(number) => names.get(*number as usize).map_or("", |name| name.as_str()),
        _ => "",
    }
}
