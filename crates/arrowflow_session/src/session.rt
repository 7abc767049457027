//! Connections, from the writer to the reader.

ghost use Rattle.std.specs.Prelude.{◌≡◌, take, IfOk};
ghost use Rattle.arrowflow_input.specs.Session.{Receives};
ghost use Rattle.arrowflow_session.specs.Asked.{asked_of};
ghost use Rattle.arrowflow_session.specs.Report.{IsReport, Reports, reported_by};

pub use crate::connection::Connection;
pub use crate::refusal::Refusal;
use crate::sending::{Sent, send_all};
use arrow_data::{Batch, Dictionary};
use arrow_stream_reader::StreamReader;
pub use arrow_stream_writer::Options;
use arrow_types::{Limits, Schema};
pub use arrowflow_input::RefusedItem;
use arrowflow_input::session::{Received, receive};
use std::alloc::{AllocError, Global};

/// What was written to one connection and received from it.
#[derive(Drop)]
pub struct Report {
    /// The bytes that were written: the schema's frame, the frames of each batch that was accepted,
    /// and the end marker if it was asked for and not rejected. None if the schema was rejected.
    pub parts: Vec<Vec<u8>>,
    /// What the writer rejected, in the order of its calls.
    pub refused: Vec<Refusal>,
    /// The ids and the dictionaries that the writer sent last for them, by ascending id.
    pub writer_dictionaries: Vec<(i64, Dictionary)>,
    /// What the reader received of the bytes that were delivered.
    pub received: Received,
}

/// Writes to connections one after another, and delivers the first bytes of each to one reader.
///
/// A new writer is started for each connection, and the reader begins again. A batch that is
/// rejected is skipped, and the next one is written. The reader sees nothing but the bytes.
///
/// `Reports` (`specs/Report.antt`) states, for every list of connections, what the reports contain:
/// what was sent is a stream of the accepted batches; the reader returns the rows of exactly those
/// whose last byte was delivered, in their order, with every index looked up in the dictionaries of
/// the batch that was given; and after each complete message both ends have the same dictionaries.
///
/// Returns `AllocError` if an allocation failed.
pub fn run(
    alloc: Global,
    limits: &Limits,
    connections: &[Connection],
) -> Result<Vec<Report>, AllocError>
    ensures { IfOk result (λ reports. Reports limits.now connections.now reports.items) }
{
    let mut reader = StreamReader::new(alloc, *limits);
    let mut reports = Vec::new(alloc);
    for connection in connections {
        reports.push(run_one(alloc, *limits, &mut reader, connection)?)?;
    }
    Ok(reports)
}

/// One connection.
fn run_one(
    alloc: Global,
    limits: Limits,
    reader: &mut StreamReader,
    connection: &Connection,
) -> Result<Report, AllocError>
    requires { reader.old.limits ≡ limits }
    ensures report { IfOk result (λ r. IsReport limits (asked_of connection.now) (reported_by r)) }
    ensures same { reader.new.limits ≡ limits }
{
    let Sent {
        parts,
        refused,
        dictionaries,
        bytes,
    } = send_all(alloc, connection, limits)?;
    let received = deliver(alloc, reader, connection, &bytes)?;
    Ok(Report {
        parts,
        refused,
        writer_dictionaries: dictionaries,
        received,
    })
}

/// Delivers the first bytes to the reader.
fn deliver(
    alloc: Global,
    reader: &mut StreamReader,
    connection: &Connection,
    bytes: &[u8],
) -> Result<Received, AllocError>
    ensures received { IfOk result (λ r. Receives reader.old.limits
        (take connection.now.deliver bytes.now) r.handed.items r.reader_dictionaries.items
        r.ending) }
    ensures same { reader.new.limits ≡ reader.old.limits }
{
    let end = (bytes.len() as u64).min(connection.deliver) as usize;
    receive(alloc, reader, &bytes[..end], &connection.cuts)
}
