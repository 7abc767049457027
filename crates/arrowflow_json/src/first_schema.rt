//! A stream read up to its schema.

ghost use Rattle.std.specs.Prelude.{◌≡◌};

use arrow_stream_reader::{Item, StreamReader};
use arrowflow_input::{Consumer, ToolFault};
use std::ops::ControlFlow;

/// The consumer that reads a stream up to its schema, which the reader then has.
#[derive(Drop)]
pub(crate) struct FirstSchema;

/// It stops the read once the schema was read, and never fails.
impl Consumer for FirstSchema {
    ghost use Rattle.arrowflow_text.specs.SchemaCall.{HasNoMessage};
    ghost use Rattle.arrowflow_json.specs.SchemaLines.{HasSchema};

    ghost Start = { Unit {0} };

    ghost keeps = { λ _ _ _ _ entries. HasNoMessage entries };

    ghost answers = { λ _ _. HasSchema };

    fn item(
        self,
        _reader: &StreamReader,
        _place: u64,
        _item: Item,
    ) -> (Self, Result<ControlFlow<()>, ToolFault>) {
        (self, Ok(ControlFlow::Break(())))
    }

    fn end(self, _reader: &StreamReader, _marked: bool) -> (Self, Result<(), ToolFault>) {
        (self, Ok(()))
    }
}
