//! Why a dictionary batch or a record batch is rejected because of the messages before it.

ghost use Rattle.std.specs.Prelude.{◌≡◌, IfSome, Some, option_map, true};
ghost use Rattle.arrow_meta_reader.specs.Means.{batch_view, header_view};
ghost use Rattle.arrow_stream_reader.specs.Batch.{is_bad_length};
ghost use Rattle.arrowflow_diagnosis.specs.Rows.{Announces, HeaderFails, LacksField, RowsFail};
ghost use Rattle.arrowflow_diagnosis.specs.Rows.{batch_in, rows_kind};
ghost use Rattle.arrowflow_diagnosis.specs.Rejection.{situation_of};

use crate::message::metadata_of;
use crate::rejected::Rejected;
use arrow_dict::ValueFields;
use arrow_meta_reader::{Header, RecordBatch, decode};
use arrow_stream_reader::Kind;
use std::alloc::Global;

/// Why a dictionary batch or a record batch is rejected because of the messages before it
/// (`Message.fbs`, tables `DictionaryBatch` and `RecordBatch`).
#[derive(Clone, Copy, Debug, PartialEq, Eq)]
pub enum RowsFault {
    /// No field of the schema has the id of the dictionary.
    UnknownId { id: i64 },
    /// A delta for an id that has no dictionary.
    NoBase { id: i64 },
    /// The number of rows is negative or over the limit.
    BatchRows { rows: i64 },
    /// The node with this index has a number of slots that is negative or over the limit.
    NodeRows { node: usize, slots: i64 },
    /// A delta of `more` values would take the dictionary, which has `found` values, over the
    /// limit.
    ValueCount { id: i64, found: usize, more: u64 },
}

impl RowsFault {
    /// The kind of the reader's fault.
    pub fn kind(self) -> Kind
        ensures { result ≡ rows_kind self }
    {
        match self {
            RowsFault::UnknownId { .. } => Kind::UnknownId,
            RowsFault::NoBase { .. } => Kind::NoBase,
            RowsFault::BatchRows { .. } => Kind::Rows,
            RowsFault::NodeRows { .. } => Kind::Rows,
            RowsFault::ValueCount { .. } => Kind::Rows,
        }
    }
}

/// The header to which the metadata of a message decode, if they decode to a message.
pub fn header_of(alloc: Global, rejected: &Rejected) -> Option<Header>
    ensures { IfSome result (λ header. Announces (situation_of rejected.now) (header_view header)) }
{
    let metadata = metadata_of(rejected.message)?;
    match decode(alloc, metadata, rejected.limits) {
        Ok(message) => Some(message.header),
        Err(_) => None,
    }
}

/// The fault that no field of the schema has the id of the dictionary batch, if none has.
pub(crate) fn unknown_id(alloc: Global, rejected: &Rejected) -> Option<RowsFault>
    ensures { IfSome result (λ fault. RowsFail fault (situation_of rejected.now)) }
{
    let header = header_of(alloc, rejected)?;
    unknown_in(alloc, rejected, &header)
}

/// The same for a header.
fn unknown_in(alloc: Global, rejected: &Rejected, header: &Header) -> Option<RowsFault>
    ensures { IfSome result
        (λ fault. HeaderFails fault (situation_of rejected.now) (header_view header.now)) }
{
    let Header::Dictionary(id, _, _) = header else {
        return None;
    };
    lacks_field(alloc, rejected, *id)?.then_some(RowsFault::UnknownId { id: *id })
}

/// Whether no field of the schema has the id of a dictionary; `None` if an allocation failed, or
/// there is no schema.
fn lacks_field(alloc: Global, rejected: &Rejected, id: i64) -> Option<bool>
    ensures { result ≡ Some true → LacksField id (situation_of rejected.now) }
{
    let schema = rejected.reader.schema()?;
    match ValueFields::of(alloc, schema) {
        Ok(fields) => Some(fields.get(id).is_none()),
        Err(_) => None,
    }
}

/// The fault that a delta has no dictionary to extend, if it has none.
pub(crate) fn no_base(alloc: Global, rejected: &Rejected) -> Option<RowsFault>
    ensures { IfSome result (λ fault. RowsFail fault (situation_of rejected.now)) }
{
    let header = header_of(alloc, rejected)?;
    no_base_in(rejected, &header)
}

/// The same for a header.
fn no_base_in(rejected: &Rejected, header: &Header) -> Option<RowsFault>
    ensures { IfSome result
        (λ fault. HeaderFails fault (situation_of rejected.now) (header_view header.now)) }
{
    let Header::Dictionary(id, true, _) = header else {
        return None;
    };
    let dictionary = rejected.reader.dictionaries().get(*id);
    dictionary
        .is_none()
        .then_some(RowsFault::NoBase { id: *id })
}

/// The fault that a batch has too many rows, slots or values, if it has.
pub(crate) fn too_many(alloc: Global, rejected: &Rejected) -> Option<RowsFault>
    ensures { IfSome result (λ fault. RowsFail fault (situation_of rejected.now)) }
{
    let header = header_of(alloc, rejected)?;
    if let Some(fault) = bad_rows(rejected, &header) {
        return Some(fault);
    }
    if let Some(fault) = bad_node(rejected, &header) {
        return Some(fault);
    }
    too_many_values(rejected, &header)
}

/// The record batch of a header, also that of the data of a dictionary batch.
pub fn batch_of(header: &Header) -> Option<&RecordBatch>
    ensures { option_map (λ b. batch_view b.now) result ≡ batch_in (header_view header.now) }
{
    match header {
        Header::Schema(_) => None,
        Header::Dictionary(_, _, record_batch) | Header::Batch(record_batch) => {
            Some(record_batch)
        }
    }
}

/// The number of rows of a header's batch, if it is negative or over the limit.
fn bad_rows(rejected: &Rejected, header: &Header) -> Option<RowsFault>
    ensures { IfSome result
        (λ fault. HeaderFails fault (situation_of rejected.now) (header_view header.now)) }
{
    let rows = batch_of(header)?.length;
    is_bad_length(rejected.limits.max_rows(), rows).then_some(RowsFault::BatchRows { rows })
}

/// The number of slots of the first node of a header's batch that is negative or over the limit.
fn bad_node(rejected: &Rejected, header: &Header) -> Option<RowsFault>
    ensures { IfSome result
        (λ fault. HeaderFails fault (situation_of rejected.now) (header_view header.now)) }
{
    let nodes = &batch_of(header)?.nodes;
    for node in 0..nodes.len() {
        let slots = nodes[node].length;
        if is_bad_length(rejected.limits.max_rows(), slots) {
            return Some(RowsFault::NodeRows { node, slots });
        }
    }
    None
}

/// Whether a number of rows is negative or over the limit.
fn is_bad_length(max_rows: u64, length: i64) -> bool
    ensures { result ≡ is_bad_length max_rows length }
{
    length < 0 || max_rows < length as u64
}

/// The fault that a delta would make its dictionary too long, if it would.
fn too_many_values(rejected: &Rejected, header: &Header) -> Option<RowsFault>
    ensures { IfSome result
        (λ fault. HeaderFails fault (situation_of rejected.now) (header_view header.now)) }
{
    let Header::Dictionary(id, true, record_batch) = header else {
        return None;
    };
    let found = rejected.reader.dictionaries().get(*id)?.len();
    let more = u64::try_from(record_batch.length).ok()?;
    let is_over = rejected.limits.max_rows() < (found as u64).saturating_add(more);
    let id = *id;
    is_over.then_some(RowsFault::ValueCount { id, found, more })
}
