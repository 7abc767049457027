//! Inputs read as connections.

ghost use Rattle.std.specs.Prelude.{◌≡◌, MatchResult, None};
ghost use Rattle.arrowflow_input.specs.declared.tool_fault.ToolFault.TheVariants.{Memory};
ghost use Rattle.arrowflow_drill.specs.Reading.{IsRead, ReadsAll, all_asked_in, asked_in, of_input};
ghost use Rattle.arrowflow_drill.specs.DrillOptions.{IsMadeOf, asks_of};

use arrow_data::Batch;
use arrow_stream_reader::StreamReader;
use arrow_types::Limits;
use arrowflow_input::{Input, ToolFault, drive};
use arrowflow_session::session::{Connection, Options};
use std::alloc::Global;

/// How inputs are read, and the requests for their connections.
#[derive(Drop)]
pub(crate) struct DrillOptions {
    pub(crate) alloc: Global,
    pub(crate) limits: Limits,
    pub(crate) options: Options,
    /// How many bytes of each connection are delivered.
    pub(crate) deliver: u64,
}

/// Reads the inputs one by one, each as a connection, up to one that is rejected or not read.
pub(crate) fn read_all<R: Input>(
    terms: &DrillOptions,
    inputs: &mut [R],
) -> Result<Vec<Connection>, ToolFault>
    ensures { ReadsAll R.remaining R.has_failed (asks_of terms.now) inputs.old inputs.new
        (all_asked_in result) }
{
    let mut connections = Vec::new(terms.alloc);
    for (number, input) in inputs.iter_mut().enumerate() {
        let connection = read_one(terms, number as u64, input)?;
        connections.push(connection).map_err(|_| ToolFault::Memory)?;
    }
    Ok(connections)
}

/// Reads the input of this number as a connection with an end marker, delivered in one piece.
fn read_one<R: Input>(
    terms: &DrillOptions,
    number: u64,
    input: &mut R,
) -> Result<Connection, ToolFault>
    ensures { IsRead (asks_of terms.now) number (R.remaining input.old) (R.remaining input.new)
        (R.has_failed input.new) (asked_in result) }
{
    let mut reader = StreamReader::new(terms.alloc, terms.limits);
    let batches: Vec<Batch> = Vec::new(terms.alloc);
    let (batches, answer) = drive(terms.alloc, &mut reader, input, batches);
    answer.map_err(|fault| of_input(number, fault))?;
    connection_of(terms, &reader, batches)
}

/// The connection of a stream that was read to its end.
fn connection_of(
    terms: &DrillOptions,
    reader: &StreamReader,
    batches: Vec<Batch>,
) -> Result<Connection, ToolFault>
    requires { reader.now.at.state.schema ≡ None → ⊥ }
    ensures { MatchResult result
        (IsMadeOf terms.now reader.now.at.state.schema batches.items) (λ fault. fault ≡ Memory) }
{
    let schema = reader.schema().unwrap();
    Ok(Connection {
        schema: schema.copy(terms.alloc)?,
        options: terms.options,
        batches,
        finish: true,
        deliver: terms.deliver,
        cuts: Vec::new(terms.alloc),
    })
}

/// A fault as a fault of the input of this number.
fn of_input(number: u64, fault: ToolFault) -> ToolFault
    ensures { result ≡ of_input number fault }
{
    match fault {
        ToolFault::Input(_) => ToolFault::Input(number),
        ToolFault::Output => ToolFault::Output,
        ToolFault::Stream(fault) => ToolFault::Stream(fault),
        ToolFault::Refused(what, kind) => ToolFault::Refused(what, kind),
        ToolFault::Memory => ToolFault::Memory,
    }
}
