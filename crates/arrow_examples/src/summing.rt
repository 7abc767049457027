//! Reads a column of floating-point numbers, and sums it.

use crate::reading::ReadError;
use arrowflow::session::{Ending, receive};
use arrowflow::{Array, Limits, StreamReader, TypeSet};
use std::alloc::Global;

/// The sum of the floating-point numbers in the first column of a stream.
pub fn sum(alloc: Global, stream: &[u8]) -> Result<f64, ReadError> {
    let limits = Limits::standard().with_types(TypeSet::All);
    let mut reader = StreamReader::new(alloc, limits);
    let received = receive(alloc, &mut reader, stream, &[])?;
    if let Ending::Fault(fault) = received.ending {
        return Err(ReadError::Stream(fault));
    }
    let mut sum = 0.0;
    for batch in &received.handed {
        if let Some(column) = batch.columns().first() {
            sum += sum_of(column);
        }
    }
    Ok(sum)
}

/// The sum of one column, in which a null counts as nothing.
fn sum_of(column: &Array) -> f64 {
    let mut sum = 0.0;
    for row in 0..column.len() {
        sum += column.float_at(row).unwrap_or(0.0);
    }
    sum
}
