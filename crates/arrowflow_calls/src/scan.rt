//! Streams in memory, checked: what is reported of a stream that was read to its end.

ghost use Rattle.std.specs.Prelude.{◌≡◌, ◌++◌, List, [], IfOk, false};
ghost use Rattle.arrow_data.specs.Batch.{Table};
ghost use Rattle.arrow_stream_reader.specs.Stream.{IsReaderAt};
ghost use Rattle.arrow_stream_reader.specs.Tables.{table_in};
ghost use Rattle.arrow_stream_reader.specs.Views.{given};
ghost use Rattle.arrow_stream_reader.specs.declared.reader.Verdict.TheVariants.{Open};
ghost use Rattle.arrowflow_calls.specs.Survey.{AllCounted, Checks, Counts, HasCounted, Reports};
ghost use Rattle.arrowflow_calls.specs.Survey.{bare_report, counts_of};

use crate::kinds::{BAD_LIMITS, MEMORY, kind_by};
use crate::terms::LimitsC;
use arrow_stream_reader::{Item, StreamReader};
use arrow_types::Limits;
use arrowflow_input::{Consumer, Progress, ToolFault, take_piece};
use std::alloc::{AllocError, Global};
use std::ops::ControlFlow;

/// What is reported of a stream.
#[repr(C)]
#[derive(Clone, Copy)]
pub struct ReportC {
    /// 0 for a stream without a fault, 1 to 18 for a fault of the stream, 19 if an allocation
    /// failed, 20 if limits are above their ceilings or there is no such set of types.
    pub kind: u32,
    /// Whether the end marker came.
    pub ended: bool,
    /// The place of the message at fault, or of the end, in bytes from the stream's beginning.
    pub place: u64,
    /// How many batches came before.
    pub batches: u64,
    /// How many rows they have together, at most 2^64 - 1.
    pub rows: u64,
}

impl ReportC {
    /// A report with only this kind.
    fn bare(kind: u32) -> ReportC
        ensures { result ≡ bare_report kind }
    {
        ReportC {
            kind,
            ended: false,
            place: 0,
            batches: 0,
            rows: 0,
        }
    }
}

/// Reads a whole stream, and returns what was found.
pub fn check_bytes(alloc: Global, bytes: &[u8], limits: LimitsC) -> ReportC
    ensures checked { Checks limits bytes.now result }
{
    match limits.limits() {
        Some(limits) => report_of(alloc, bytes, limits),
        None => ReportC::bare(BAD_LIMITS),
    }
}

/// What is reported of these bytes.
fn report_of(alloc: Global, bytes: &[u8], limits: Limits) -> ReportC
    ensures { Reports limits bytes.now result }
{
    let mut reader = StreamReader::new(alloc, limits);
    match scan(&mut reader, bytes) {
        Ok(counts) => ReportC {
            kind: kind_by(reader.end()),
            ended: counts.ended,
            place: reader.place(),
            batches: counts.batches,
            rows: counts.rows,
        },
        Err(_) => ReportC::bare(MEMORY),
    }
}

/// Gives the reader all of the bytes, and counts what comes. An error if an allocation failed.
pub(crate) fn scan(reader: &mut StreamReader, bytes: &[u8]) -> Result<StreamCounts, AllocError>
    requires start { IsReaderAt reader.old [] [] }
    requires open { reader.old.at.verdict ≡ Open }
    ensures counted { IfOk result (λ n. HasCounted bytes.now n reader.new) }
    ensures limits { reader.new.limits ≡ reader.old.limits }
{
    let none = StreamCounts {
        batches: 0,
        rows: 0,
        ended: false,
    };
    let (counts, progress) = take_piece(reader, none, bytes);
    match progress {
        Ok(Progress::Marker) => Ok(counts.end(reader, true).0),
        Ok(Progress::GoesOn) => Ok(counts),
        Ok(Progress::Stopped) => Ok(counts),
        Err(ToolFault::Stream(_)) => Ok(counts),
        Err(ToolFault::Memory | ToolFault::Output) => Err(AllocError),
        Err(ToolFault::Input(_) | ToolFault::Refused(_, _)) => Err(AllocError),
    }
}

/// How many batches came, how many rows they have together, each at most 2^64 - 1, and whether the
/// end marker came.
#[derive(Clone, Copy)]
pub(crate) struct StreamCounts {
    batches: u64,
    rows: u64,
    ended: bool,
}

impl StreamCounts {
    /// Counts an item.
    fn add(&mut self, item: &Item)
        ensures { (tables : List Table) → self.old ≡ counts_of tables false
            → self.new ≡ counts_of (tables ++ table_in (given item.now)) false }
    {
        match item {
            Item::Batch(batch) => {
                self.batches = self.batches.saturating_add(1);
                self.rows = self.rows.saturating_add(batch.rows() as u64);
            }
            Item::Schema | Item::Dictionary(_) | Item::End => {}
        }
    }
}

/// It counts all messages of its stream, and never fails.
impl Consumer for StreamCounts {
    ghost Start = { Unit {0} };

    ghost keeps = { λ _. Counts };

    ghost answers = { λ _. AllCounted };

    fn item(
        mut self,
        _reader: &StreamReader,
        _place: u64,
        item: Item,
    ) -> (Self, Result<ControlFlow<()>, ToolFault>) {
        self.add(&item);
        (self, Ok(ControlFlow::Continue(())))
    }

    fn end(mut self, _reader: &StreamReader, marked: bool) -> (Self, Result<(), ToolFault>) {
        self.ended = marked;
        (self, Ok(()))
    }
}
