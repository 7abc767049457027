//! The batches of a stream, kept as they come.

ghost use Rattle.std.specs.Prelude.{◌≡◌, ◌++◌, OnOk};
ghost use Rattle.arrow_stream_reader.specs.Tables.{table_in};
ghost use Rattle.arrow_stream_reader.specs.Views.{given};

use crate::consumer::Consumer;
use crate::tool_fault::ToolFault;
use arrow_data::Batch;
use arrow_stream_reader::{Item, StreamReader};
use std::alloc::AllocError;
use std::ops::ControlFlow;

/// A list of batches is a consumer: it keeps those of its stream, in the order of their messages,
/// after what it held. What [`crate::drive`] promises of it is promised of a list that is empty at
/// first. It returns `Memory` if an allocation failed; it never has enough, and returns `Ok` at the
/// end.
impl Consumer for Vec<Batch> {
    ghost use Rattle.arrow_stream_reader.specs.Tables.{tables_of};
    ghost use Rattle.arrowflow_input.specs.Kept.{HasKept};

    ghost Start = { Unit {0} };

    ghost keeps = { λ _ batches _ _ entries. batches.items ≡ tables_of entries };

    ghost answers = { λ _ batches. HasKept batches.items };

    fn item(
        mut self,
        _reader: &StreamReader,
        _place: u64,
        item: Item,
    ) -> (Self, Result<ControlFlow<()>, ToolFault>) {
        match keep(&mut self, item) {
            Ok(()) => (self, Ok(ControlFlow::Continue(()))),
            Err(_) => (self, Err(ToolFault::Memory)),
        }
    }

    fn end(self, _reader: &StreamReader, _marked: bool) -> (Self, Result<(), ToolFault>) {
        (self, Ok(()))
    }
}

/// Keeps the batch of an item, if it is one.
fn keep(batches: &mut Vec<Batch>, item: Item) -> Result<(), AllocError>
    ensures { OnOk result (batches.new.items ≡ batches.old.items ++ table_in (given item)) }
{
    match item {
        Item::Batch(batch) => Ok(batches.push(batch)?),
        Item::Schema | Item::Dictionary(_) | Item::End => Ok(()),
    }
}
