//! Connections rehearsed, and the report about them.

ghost use Rattle.std.specs.Prelude.{◌≡◌, ◌^◌, ◌≤◌, IfOk, length, string_bytes};
ghost use Rattle.arrowflow_session.specs.Report.{Reports};
ghost use Rattle.arrow_stream_writer.specs.Shown.{options_view};
ghost use Rattle.arrowflow_drill.specs.Drill.{AskTheSame, Drills};
ghost use Rattle.arrowflow_drill.specs.Lines.{lines_from};

use crate::lines::{Outcome, push_connection, size_of};
use crate::reading::{DrillOptions, read_all};
use arrow_types::Limits;
use arrowflow_input::{Input, ToolFault};
use arrowflow_session::session::{Connection, Options, Report, run};
use std::alloc::{AllocError, Global};

/// Reads each input as a connection, writes its batches again, with an end marker, according to the
/// options, delivers the first `bytes` bytes of it in pieces of length `piece`, and returns a text
/// about the result (Columnar Format, "IPC Streaming Format"). With a length of 0 they are one
/// piece.
///
/// The inputs are read one after the other, in pieces of 65,536 bytes, each up to an end marker or
/// to its end. The first that cannot be read or is rejected ends the drill, before anything is
/// sent: `Input` with its number from 0 if a read failed, including an interrupted one; `Stream` if
/// the stream is rejected, or if it ends without being at the end of a message after its schema.
/// `Memory` if an allocation failed. A rejection by a writer, and the way in which the connections
/// end, are not faults: the text reports them, line by line (`specs/Lines.antt`).
///
/// All batches of all inputs are held in memory, and everything that is sent of them.
pub fn drill<R: Input>(
    alloc: Global,
    inputs: &mut [R],
    options: Options,
    bytes: u64,
    piece: u64,
    limits: &Limits,
) -> Result<String, ToolFault>
    ensures { Drills R.remaining R.has_failed (record {
      limits = limits.now;
      options = options_view options;
      deliver = bytes;
    }) piece inputs.old inputs.new result }
{
    let terms = DrillOptions {
        alloc,
        limits: *limits,
        options,
        deliver: bytes,
    };
    let mut connections = read_all(&terms, inputs)?;
    let reports = rehearse(alloc, limits, &mut connections, piece)?;
    Ok(text_of(alloc, &connections, &reports, piece)?)
}

/// Runs connections in pieces of this length; a first run, in one piece, shows how many.
fn rehearse(
    alloc: Global,
    limits: &Limits,
    connections: &mut [Connection],
    piece: u64,
) -> Result<Vec<Report>, AllocError>
    ensures reports { IfOk result (λ reports. Reports limits.now connections.new reports.items) }
    ensures same { AskTheSame connections.old connections.new }
{
    let whole = run(alloc, limits, connections)?;
    cut_up(alloc, connections, &whole, piece)?;
    run(alloc, limits, connections)
}

/// Has each connection delivered in pieces of this length, by the numbers of its bytes.
fn cut_up(
    alloc: Global,
    connections: &mut [Connection],
    reports: &[Report],
    piece: u64,
) -> Result<(), AllocError>
    requires { length reports.now ≡ length connections.old }
    ensures { AskTheSame connections.old connections.new }
{
    for (number, connection) in connections.iter_mut().enumerate() {
        let delivered = size_of(&reports[number].parts)?.min(connection.deliver);
        connection.cuts = cuts(alloc, delivered, piece)?;
    }
    Ok(())
}

/// The lengths of the pieces of `bytes` bytes, except for the last one. Pieces of no bytes would
/// never deliver all of them: so with a length of 0 they are one piece.
fn cuts(alloc: Global, bytes: u64, piece: u64) -> Result<Vec<usize>, AllocError> {
    let count = bytes.saturating_sub(1).checked_div(piece).unwrap_or(0);
    Vec::from_elem(alloc, piece as usize, count as usize)
}

/// The lines of all connections, which were delivered in pieces of this length.
fn text_of(
    alloc: Global,
    connections: &[Connection],
    reports: &[Report],
    piece: u64,
) -> Result<String, AllocError>
    requires { length reports.now ≡ length connections.now }
    ensures { IfOk result (λ text. string_bytes text
        ≡ lines_from piece 0 connections.now reports.now) }
{
    let mut text = String::new(alloc);
    for (number, connection) in connections.iter().enumerate() {
        let outcome = Outcome {
            connection,
            report: &reports[number],
        };
        push_connection(&mut text, number, outcome, piece)?;
    }
    Ok(text)
}
