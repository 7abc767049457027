//! Reads a stream, and uses its columns.

use arrowflow::session::{Ending, receive};
use arrowflow::{Array, Fault, Limits, StreamReader};
use std::alloc::{AllocError, Global};
use thiserror::Error;

/// Why a stream has no result.
#[derive(Debug, Drop, Error)]
pub enum ReadError {
    /// The stream is rejected, or ends too early.
    #[error(transparent)]
    Stream(#[from] Fault),
    /// An allocation failed.
    #[error(transparent)]
    Memory(#[from(alloc)] AllocError),
}

/// The length in bytes of the longest text in any dictionary-encoded column of a stream.
pub fn longest(alloc: Global, stream: &[u8]) -> Result<usize, ReadError> {
    let mut reader = StreamReader::new(alloc, Limits::standard());
    let received = receive(alloc, &mut reader, stream, &[])?;
    if let Ending::Fault(fault) = received.ending {
        return Err(ReadError::Stream(fault));
    }
    let columns = received.handed.iter().flat_map(|batch| batch.columns());
    Ok(columns.map(longest_in).max().unwrap_or(0))
}

/// The same for one column.
fn longest_in(column: &Array) -> usize {
    let mut longest = 0;
    for row in 0..column.len() {
        if let Some((values, place)) = column.resolved(row) {
            longest = longest.max(values.text_at(place).unwrap_or("").len());
        }
    }
    longest
}
