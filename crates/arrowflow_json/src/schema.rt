//! The schema of a stream as lines of JSON.

ghost use Rattle.std.specs.Prelude.{◌≡◌, ◌<◌, ◌-◌, ◌^◌, IfErr, IfOk, OnOk};
ghost use Rattle.std.specs.Prelude.{Some, is_some, true};
ghost use Rattle.arrow_types.specs.Notes.{SchemaShape};
ghost use Rattle.arrowflow_input.specs.Blame.{BlamesOnly};
ghost use Rattle.arrowflow_json.specs.Fields.{name_by, schema_lines};
ghost use Rattle.arrowflow_input.specs.declared.tool_fault.ToolFault.TheVariants.{Memory};
ghost use Rattle.arrowflow_json.specs.SchemaLines.{AnswersLines, SendsAll, WritesSchemaOf};

use crate::fields::schema_json_lines;
use crate::first_schema::FirstSchema;
use arrow_sink::{Sink, send};
use arrow_stream_reader::StreamReader;
use arrow_types::Limits;
use arrowflow_input::{Input, ToolFault, drive};
use std::alloc::Global;

/// Writes the columns of a stream's schema, each as a JSON object and a line feed, and returns the
/// output.
///
/// The members of an object are `name`, `type`, `format`, `nullable`, `dictionary`, `metadata` and
/// `children`, all of them always and in this order (`specs/Fields.antt`); if a file is named,
/// `file` comes first. A schema without columns has no lines.
///
/// The input is read in pieces of 65,536 bytes until its first message is complete, and no further.
///
/// `Stream` with the reader's fault if the first message is rejected, at byte 0, and with
/// `NoSchema` if the input ends before it is complete; `Input(0)` if a read failed before that,
/// including an interrupted one; `Memory` if an allocation failed: then nothing is written.
/// `Output` if the output failed: then a prefix of the lines is written. The output is flushed
/// once, before `Ok`.
pub fn schema_json<R: Input, S: Sink>(
    alloc: Global,
    input: &mut R,
    mut output: S,
    limits: &Limits,
    file: Option<&str>,
) -> (S, Result<(), ToolFault>)
    requires { S.failed output < 2 ^ 64 - 1 }
    ensures written { WritesSchemaOf (name_by file.entry) limits.now (R.remaining input.old)
        (R.remaining input.new) (S.contents output) (S.failed output) result.1
        (S.contents result.0) (S.failed result.0) }
    ensures passed { OnOk result.1 (S.is_passed_on result.0) }
    ensures blameless { IfErr result.1 (BlamesOnly (R.has_failed input.new)) }
{
    match lines_of_input(alloc, input, limits, file) {
        Ok(text) => {
            let answer = send_all(&mut output, &text);
            (output, answer)
        }
        Err(fault) => (output, Err(fault)),
    }
}

/// The lines of the schema of an input.
fn lines_of_input<R: Input>(
    alloc: Global,
    input: &mut R,
    limits: &Limits,
    file: Option<&str>,
) -> Result<Vec<u8>, ToolFault>
    ensures answers { AnswersLines (name_by file.entry) limits.now (R.remaining input.old)
        (R.remaining input.new) result }
    ensures blameless { IfErr result (BlamesOnly (R.has_failed input.new)) }
{
    let mut reader = StreamReader::new(alloc, *limits);
    let (_, answer) = drive(alloc, &mut reader, input, FirstSchema);
    answer?;
    lines_of_schema(alloc, &reader, file)
}

/// The lines of the schema that a reader has.
fn lines_of_schema(
    alloc: Global,
    reader: &StreamReader,
    file: Option<&str>,
) -> Result<Vec<u8>, ToolFault>
    requires { is_some reader.now.at.state.schema ≡ true }
    ensures lines { IfOk result (λ text. (shape : SchemaShape)
        → reader.now.at.state.schema ≡ Some shape
        → text.items ≡ schema_lines (name_by file.entry) shape) }
    ensures memory { IfErr result (λ fault. fault ≡ Memory) }
{
    let Some(schema) = reader.schema() else {
        unreachable!()
    };
    match schema_json_lines(alloc, schema, file) {
        Ok(text) => Ok(text),
        Err(_) => Err(ToolFault::Memory),
    }
}

/// Sends a text and flushes the output.
fn send_all<S: Sink>(output: &mut S, text: &[u8]) -> Result<(), ToolFault>
    requires { S.failed output.old < 2 ^ 64 - 1 }
    ensures sent { SendsAll (S.contents output.old) (S.failed output.old) text.now result
        (S.contents output.new) (S.failed output.new) }
    ensures passed { OnOk result (S.is_passed_on output.new) }
{
    send(output, text)?;
    output.flush()?;
    Ok(())
}
