//! The column at fault in a stream in memory.

ghost use Rattle.std.specs.Prelude.{◌≡◌, ◌↔◌, ◌<◌, Err, IsTrue, MatchBool, MatchOption, drop, slice_index, take};
ghost use Rattle.arrow_meta_reader.specs.Means.{batch_view, message_view};
ghost use Rattle.arrow_meta_tree.specs.declared.fault.MetaFault.TheVariants.{Memory};
ghost use Rattle.arrow_stream_reader.specs.Batch.{Loads};
ghost use Rattle.arrow_stream_reader.specs.Frame.{number_at};
ghost use Rattle.arrow_types.specs.View.{fields_view};
ghost use Rattle.arrow_body_reader.specs.Held.{count_of};
ghost use Rattle.arrowflow_calls.specs.Blame.{IsFaultOf, ReportsEnding, ReportsSo, body_fault, ending_fault, refusal_by};
ghost use Rattle.arrowflow_calls.specs.Culprit.{Blames, IsAtFault, ReportsContent};
ghost use Rattle.arrowflow_calls.specs.Culprit.{ReportsCulprit, no_culprit};

use crate::kinds::{BAD_LIMITS, MEMORY};
use crate::scan::scan;
use crate::terms::LimitsC;
use arrow_body_reader::{BodyFault, check, check_row_count};
use arrow_data::Dictionary;
use arrow_meta_reader::{Header, Message, RecordBatch, decode};
use arrow_meta_tree::MetaFault;
use arrow_stream_reader::{Fault, Kind, StreamReader};
use arrow_types::{Field, Limits};
use std::alloc::Global;

/// Which column of a record batch is at fault.
#[repr(C)]
#[derive(Clone, Copy)]
pub struct CulpritC {
    /// 0; 19 if an allocation failed, 20 if limits are above their ceilings or no such types exist.
    pub kind: u32,
    /// Whether a column is at fault.
    pub found: bool,
    /// The number of the column, from 0.
    pub column: u64,
}

impl CulpritC {
    /// No column, for this reason.
    fn none(kind: u32) -> CulpritC
        ensures { result ≡ no_culprit kind }
    {
        CulpritC {
            kind,
            found: false,
            column: 0,
        }
    }
}

/// Returns which column is at fault in a stream whose fault is in a record batch's body: the first
/// one with which the body is rejected with the stream's kind of fault.
pub fn fault_column(alloc: Global, bytes: &[u8], limits: LimitsC) -> CulpritC
    ensures { Blames limits bytes.now result }
{
    match limits.limits() {
        Some(limits) => culprit_in(alloc, bytes, limits),
        None => CulpritC::none(BAD_LIMITS),
    }
}

/// The column at fault in these bytes.
fn culprit_in(alloc: Global, bytes: &[u8], limits: Limits) -> CulpritC
    ensures { ReportsCulprit limits bytes.now result }
{
    let mut reader = StreamReader::new(alloc, limits);
    match scan(&mut reader, bytes) {
        Ok(_) => culprit_at(alloc, &limits, &reader, bytes),
        Err(_) => CulpritC::none(MEMORY),
    }
}

/// The same, for bytes that the reader has read to their end.
fn culprit_at(alloc: Global, limits: &Limits, reader: &StreamReader, bytes: &[u8]) -> CulpritC
    ensures { ReportsEnding limits.now reader.now.at.verdict reader.now.at.state
        (drop reader.now.at.place bytes.now) result }
{
    match ending_fault(reader.end()) {
        Some(fault) => {
            let message = tail(bytes, reader.place() as usize);
            culprit_of(alloc, limits, fault, reader, message)
        }
        None => CulpritC::none(0),
    }
}

/// The fault of a body with which a stream ends.
fn ending_fault(answer: Result<(), Fault>) -> Option<BodyFault>
    ensures { result ≡ ending_fault answer }
{
    match answer {
        Ok(()) => None,
        Err(fault) => body_fault(fault.kind),
    }
}

/// The fault of a body that has this kind, if there is one.
fn body_fault(kind: Kind) -> Option<BodyFault>
    ensures { result ≡ body_fault kind }
{
    match kind {
        Kind::Layout => Some(BodyFault::Layout),
        Kind::Text => Some(BodyFault::Text),
        Kind::Index => Some(BodyFault::Index),
        Kind::Continuation | Kind::MetadataSize | Kind::Metadata | Kind::Version => None,
        Kind::Header | Kind::BodyLength | Kind::Order | Kind::Unsupported | Kind::Schema => None,
        Kind::Compressed | Kind::UnknownId | Kind::NoBase | Kind::Rows => None,
        Kind::NoSchema | Kind::Truncated | Kind::Memory => None,
    }
}

/// The column at fault in the message at the start of these bytes, which is the reader's next one.
fn culprit_of(
    alloc: Global,
    limits: &Limits,
    fault: BodyFault,
    reader: &StreamReader,
    message: &[u8],
) -> CulpritC
    ensures { ReportsSo limits.now fault reader.now.at.state message.now result }
{
    let (size, rest) = (metadata_size(message), tail(message, 8));
    match decode(alloc, head(rest, size), limits) {
        Ok(message) => in_message(&message, fault, reader, tail(rest, size)),
        Err(fault) if is_memory(fault) => CulpritC::none(MEMORY),
        Err(_) => CulpritC::none(0),
    }
}

/// Whether an allocation failed.
fn is_memory(fault: MetaFault) -> bool
    ensures { MatchBool result (fault ≡ Memory) (fault ≡ Memory → ⊥) }
{
    match fault {
        MetaFault::Memory => true,
        MetaFault::Metadata | MetaFault::Version | MetaFault::Header => false,
        MetaFault::BodyLength | MetaFault::Unsupported { .. } => false,
        MetaFault::Schema { .. } | MetaFault::Compressed { .. } => false,
    }
}

/// The column at fault in a message whose body is at the start of these bytes.
fn in_message(message: &Message, fault: BodyFault, reader: &StreamReader, after: &[u8]) -> CulpritC
    ensures { ReportsContent (refusal_by fault) reader.now.at.state after.now
        (message_view message.now).body_len (message_view message.now).header result }
{
    let Header::Batch(record_batch) = &message.header else {
        return CulpritC::none(0);
    };
    let body = BatchBody {
        record_batch,
        bytes: head(after, message.body_len as usize),
        dictionaries: reader.dictionaries().entries(),
    };
    let fields = match reader.schema() {
        Some(schema) => schema.fields(),
        None => &[],
    };
    match body.first_at_fault(fields, fault) {
        Some(column) => CulpritC {
            kind: 0,
            found: true,
            column: column as u64,
        },
        None => CulpritC::none(0),
    }
}

/// The body of a record batch, and the dictionaries in which its indices are looked up.
#[derive(Clone, Copy)]
struct BatchBody<'a> {
    record_batch: &'a RecordBatch,
    bytes: &'a [u8],
    dictionaries: &'a [(i64, Dictionary)],
}

impl BatchBody<'_> {
    /// The first field with which the body has this fault, or none if the body does not have it.
    /// Checks the body as many times as the number of fields has bits.
    fn first_at_fault(&self, fields: &[Field], fault: BodyFault) -> Option<usize>
        ensures { MatchOption result
            (Loads self.now.bytes.now self.now.dictionaries.now (fields_view fields.now)
            (batch_view self.now.record_batch.now) (Err (refusal_by fault)) → ⊥)
            (λ n. IsAtFault (refusal_by fault) self.now.bytes.now self.now.dictionaries.now
            (fields_view fields.now) (batch_view self.now.record_batch.now) n) }
    {
        if fields.is_empty() || !self.has_fault(fields, fault) {
            return None;
        }
        let (mut sound, mut refused) = (0, fields.len());
        while refused - sound > 1 {
            let middle = sound + (refused - sound) / 2;
            if self.has_fault(&fields[..middle], fault) {
                refused = middle;
            } else {
                sound = middle;
            }
        }
        Some(sound)
    }

    /// Whether the body has this fault, if these are its columns.
    fn has_fault(&self, fields: &[Field], fault: BodyFault) -> bool
        ensures { IsTrue result
            ↔ Loads self.now.bytes.now self.now.dictionaries.now (fields_view fields.now)
            (batch_view self.now.record_batch.now) (Err (refusal_by fault)) }
    {
        match self.fault(fields) {
            Some(found) => found == fault,
            None => false,
        }
    }

    /// The fault of the body, if these are its columns.
    fn fault(&self, fields: &[Field]) -> Option<BodyFault>
        ensures { IsFaultOf result self.now.bytes.now self.now.dictionaries.now
            (fields_view fields.now) (batch_view self.now.record_batch.now) }
    {
        let batch = self.record_batch;
        if !check_row_count(fields, &batch.nodes, row_count(batch)) {
            return Some(BodyFault::Layout);
        }
        match check(
            fields,
            &batch.nodes,
            &batch.buffers,
            self.bytes,
            self.dictionaries,
        ) {
            Ok(()) => None,
            Err(fault) => Some(fault),
        }
    }
}

/// How many rows a batch has, 0 if its length is negative.
fn row_count(record_batch: &RecordBatch) -> usize
    ensures { result ≡ count_of record_batch.now.length }
{
    record_batch.length.max(0) as usize
}

/// How long the metadata are, by the prefix at the start of these bytes; a missing byte is 0.
fn metadata_size(message: &[u8]) -> usize
    ensures { result ≡ number_at message.now 4 }
{
    let low = byte_at(message, 4) + 256 * byte_at(message, 5);
    let high = byte_at(message, 6) + 256 * byte_at(message, 7);
    low + 65536 * high
}

/// A byte, or 0 if there is none.
fn byte_at(bytes: &[u8], at: usize) -> usize
    ensures value { result ≡ slice_index bytes.now at }
    ensures small { result < 256 }
{
    bytes.get(at).map_or(0, |byte| *byte as usize)
}

/// The bytes from an offset on, none past the end.
fn tail(bytes: &[u8], at: usize) -> &[u8]
    ensures { result.now ≡ drop at bytes.now }
{
    bytes.get(at..).unwrap_or(&[])
}

/// The first `count` bytes, or all if there are fewer.
fn head(bytes: &[u8], count: usize) -> &[u8]
    ensures { result.now ≡ take count bytes.now }
{
    bytes.get(..count).unwrap_or(bytes)
}
