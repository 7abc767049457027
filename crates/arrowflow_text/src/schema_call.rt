//! The text of the schema of an input.

ghost use Rattle.std.specs.Prelude.{◌≡◌, IfErr};
ghost use Rattle.arrowflow_input.specs.Blame.{BlamesOnly};
ghost use Rattle.arrowflow_text.specs.SchemaCall.{AnswersInput};

use crate::schema_lines::schema_lines_of;
use arrow_stream_reader::{Item, StreamReader};
use arrow_types::Limits;
use arrowflow_input::{Consumer, Input, ToolFault, drive};
use std::alloc::Global;
use std::ops::ControlFlow;

/// The text of the schema of a stream: one line per field in pre-order, each with its line feed,
/// two spaces of indentation for each level below the first. A schema without columns has the empty
/// text.
///
/// The input is read in pieces of 65,536 bytes until its first message is complete, and no further;
/// bytes of the last piece after that message are not parsed.
///
/// `Stream` with the reader's fault if the first message is rejected, at byte 0, and with
/// `NoSchema` if the input ends before it is complete. `Input(0)` if a read failed before that,
/// including an interrupted one. `Memory` if an allocation failed: nothing is said of the stream
/// then.
pub fn schema_text<R: Input>(
    alloc: Global,
    input: &mut R,
    limits: &Limits,
) -> Result<String, ToolFault>
    ensures answers { AnswersInput limits.now (R.remaining input.old) (R.remaining input.new) result }
    ensures blameless { IfErr result (BlamesOnly (R.has_failed input.new)) }
{
    let mut reader = StreamReader::new(alloc, *limits);
    let lines = SchemaLines {
        alloc,
        text: String::new(alloc),
    };
    let (lines, answer) = drive(alloc, &mut reader, input, lines);
    answer?;
    Ok(lines.text)
}

/// The consumer for the text of a stream's schema: it makes that text from the first message.
#[derive(Drop)]
struct SchemaLines {
    alloc: Global,
    text: String,
}

impl Consumer for SchemaLines {
    ghost use Rattle.std.specs.Prelude.{string_bytes};
    ghost use Rattle.arrowflow_text.specs.SchemaCall.{HasNoMessage, HasText};

    ghost Start = { Unit {0} };

    ghost keeps = { λ _ _ _ _ entries. HasNoMessage entries };

    ghost answers = { λ _ lines. HasText (string_bytes lines.text) };

    fn item(
        mut self,
        reader: &StreamReader,
        _place: u64,
        _item: Item,
    ) -> (Self, Result<ControlFlow<()>, ToolFault>) {
        match reader.schema() {
            Some(schema) => match schema_lines_of(self.alloc, schema) {
                Ok(text) => {
                    self.text = text;
                    (self, Ok(ControlFlow::Break(())))
                }
                Err(_) => (self, Err(ToolFault::Memory)),
            },
            None => (self, Ok(ControlFlow::Continue(()))),
        }
    }

    fn end(self, _reader: &StreamReader, _marked: bool) -> (Self, Result<(), ToolFault>) {
        (self, Ok(()))
    }
}
