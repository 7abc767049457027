//! Builds a batch, and writes it.

use arrowflow::{
    ArrayBuilder, ArrayFault, Batch, BatchFault, BitWidth, Counted, DataType, Field, Limits,
    Options, PushFault, Schema, SchemaFault, StreamWriter, Value, WriteFault,
};
use std::alloc::{AllocError, Global};
use std::rc::Rc;
use thiserror::Error;

/// Why a column was not written.
#[derive(Debug, Drop, Error)]
pub enum WriteError {
    /// A schema is rejected.
    #[error(transparent)]
    Schema(#[from] SchemaFault),
    /// A value does not fit its column.
    #[error(transparent)]
    Push(#[from] PushFault),
    /// A column's dictionaries are missing.
    #[error(transparent)]
    Array(#[from] ArrayFault),
    /// The columns do not make a batch.
    #[error(transparent)]
    Batch(#[from] BatchFault),
    /// The writer rejected a batch, or its sink failed.
    #[error(transparent)]
    Write(#[from] WriteFault),
    /// An allocation failed.
    #[error(transparent)]
    Memory(#[from(alloc)] AllocError),
}

/// Writes numbers, some of them null, as a stream of one batch with one nullable column `n`.
pub fn write_numbers(alloc: Global, numbers: &[Option<i64>]) -> Result<Vec<u8>, WriteError> {
    let data_type = DataType::Int {
        bits: BitWidth::SixtyFour,
        signed: true,
    };
    let field = Field::new(alloc, String::from_str(alloc, "n")?, data_type, true);
    let mut builder = ArrayBuilder::new(alloc, &field)?;
    for number in numbers {
        builder.push(&number.map_or(Value::Null, |it| Value::Int(it as i128)))?;
    }
    let columns = vec![in alloc; builder.finish(alloc, &[])?]?;
    let schema = Rc::new(alloc, Schema::new(alloc, vec![in alloc; field]?)?)?;
    let batch = Batch::new(schema, columns, numbers.len())?;
    Ok(stream_of(alloc, &batch)?)
}

/// The stream of one batch.
fn stream_of(alloc: Global, batch: &Batch) -> Result<Vec<u8>, WriteFault> {
    let sink = Counted::new(Vec::new(alloc));
    let (options, limits) = (Options::default(), Limits::standard());
    let started = StreamWriter::start(alloc, sink, batch.schema(), options, limits);
    let mut writer = started.map_err(|(fault, _)| fault)?;
    writer.write(batch)?;
    writer.finish()?;
    Ok(writer.into_sink().into_inner())
}
