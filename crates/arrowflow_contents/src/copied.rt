//! The length of the stream that a copy of a stream would be.

use arrow_data::Batch;
use arrow_sink::{Sink, SinkFault, WriteFault};
use arrow_stream_writer::{Options, StreamWriter};
use arrow_types::{Limits, Schema};
use arrowflow_input::RefusedItem;
use std::alloc::{AllocError, Global};

/// What `copy` with default options writes for a valid stream.
#[derive(Clone, Copy, Debug, PartialEq, Eq)]
pub enum Copied {
    /// This many bytes.
    Bytes(u64),
    /// No complete stream: the writer rejects the schema, a batch or the end marker.
    Refused(RefusedItem, WriteFault),
}

/// A sink that counts the bytes that it is given, and keeps none of them.
#[derive(Drop)]
pub(crate) struct ByteTotals {
    bytes: u64,
}

impl Sink for ByteTotals {
    ghost failed = { λ _. 0 };

    fn put(&mut self, piece: &[u8]) -> Result<usize, SinkFault> {
        self.bytes = self.bytes.saturating_add(piece.len() as u64);
        Ok(piece.len())
    }

    fn flush(&mut self) -> Result<(), SinkFault> {
        Ok(())
    }

    fn failures(&self) -> u64 {
        0
    }
}

/// A copy of a stream of which only the length is kept.
#[derive(Drop)]
pub(crate) enum CopyEstimate {
    /// The schema has not been read yet.
    Waiting,
    /// The writer, which is still open.
    Writing(StreamWriter<ByteTotals>),
    /// What it rejected.
    Refused(RefusedItem, WriteFault),
}

impl CopyEstimate {
    /// Starts the copy with a schema.
    pub(crate) fn start(
        alloc: Global,
        schema: &Schema,
        limits: Limits,
    ) -> Result<CopyEstimate, AllocError> {
        let sink = ByteTotals { bytes: 0 };
        match StreamWriter::start(alloc, sink, schema, Options::default(), limits) {
            Ok(writer) => Ok(CopyEstimate::Writing(writer)),
            Err((WriteFault::Memory, _)) => Err(AllocError),
            Err((kind, _)) => Ok(CopyEstimate::Refused(RefusedItem::Start, kind)),
        }
    }

    /// Writes the batch with this number.
    pub(crate) fn add(&mut self, number: usize, batch: &Batch) -> Result<(), AllocError> {
        let answer = match self {
            CopyEstimate::Writing(writer) => writer.write(batch),
            CopyEstimate::Waiting | CopyEstimate::Refused(_, _) => Ok(()),
        };
        match answer {
            Ok(()) => Ok(()),
            Err(WriteFault::Memory) => Err(AllocError),
            Err(kind) => {
                *self = CopyEstimate::Refused(RefusedItem::Batch(number), kind);
                Ok(())
            }
        }
    }

    /// Writes the end marker; returns what was written in all, if the schema was read.
    pub(crate) fn finish(self) -> Option<Copied> {
        match self {
            CopyEstimate::Waiting => None,
            CopyEstimate::Refused(what, kind) => Some(Copied::Refused(what, kind)),
            CopyEstimate::Writing(mut writer) => match writer.finish() {
                Ok(()) => Some(Copied::Bytes(writer.sink().bytes)),
                Err(kind) => Some(Copied::Refused(RefusedItem::Finish, kind)),
            },
        }
    }
}
