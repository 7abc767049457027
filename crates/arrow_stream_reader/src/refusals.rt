//! The checks of a message against its offset, the order of messages and what was read before it.

ghost use Rattle.std.specs.Prelude.{◌≡◌, ◌≤◌, ◌^◌, ◌+◌, nat_lt};
ghost use Rattle.std.specs.List.{list_any};
ghost use Rattle.arrow_types.specs.View.{fields_view};
ghost use Rattle.arrow_meta_reader.specs.Means.{batch_view, header_view};
ghost use Rattle.arrow_stream_reader.specs.Batch.{is_bad_length, has_bad_length};
ghost use Rattle.arrow_stream_reader.specs.Frame.{state_refusal, dictionary_refusal, is_out_of_order, check_order};
ghost use Rattle.arrow_stream_reader.specs.Views.{plain};

use crate::body::row_count;
use crate::kind::Rejection;
use crate::message::DictionaryUpdate;
use crate::state::State;
use arrow_body_reader::nodes_of;
use arrow_meta_reader::{Header, RecordBatch};
use arrow_types::{Field, FieldNode, Limits};

/// The kind that is decided by the offset and order of a message, if any: a body that would end
/// past the last offset, or the order of messages.
pub(crate) fn check_order(end: u64, body_len: u64, out_of_order: bool) -> Option<Rejection>
    requires near { end ≤ 2 ^ 62 }
    ensures kind { result ≡ check_order end body_len out_of_order }
{
    if Limits::LAST_PLACE - end < body_len {
        return Some(Rejection::BodyLength);
    }
    if out_of_order {
        return Some(Rejection::Order);
    }
    None
}

/// Whether a message with this header may not come here: a second schema, or a batch before the
/// schema.
pub(crate) fn is_out_of_order(has_schema: bool, header: &Header) -> bool
    ensures order { result ≡ is_out_of_order has_schema (header_view header.now) }
{
    match header {
        Header::Schema(_) => has_schema,
        Header::Dictionary(_, _, _) => !has_schema,
        Header::Batch(_) => !has_schema,
    }
}

/// The kind with which the message is rejected because of what was read before it, if any.
pub(crate) fn state_refusal(max_rows: u64, state: &State, header: &Header) -> Option<Rejection>
    ensures kind { result ≡ state_refusal max_rows (plain state.now) (header_view header.now) }
{
    match header {
        Header::Schema(_) => None,
        Header::Dictionary(id, is_delta, record_batch) => {
            let dictionary_batch = DictionaryUpdate {
                id: *id,
                is_delta: *is_delta,
                record_batch,
            };
            dictionary_refusal(max_rows, state, &dictionary_batch)
        }
        Header::Batch(record_batch) => {
            if has_bad_length(max_rows, state.fields(), record_batch) {
                Some(Rejection::Rows)
            } else {
                None
            }
        }
    }
}

/// The kind with which a dictionary batch is rejected, if any.
fn dictionary_refusal(
    max_rows: u64,
    state: &State,
    dictionary_batch: &DictionaryUpdate,
) -> Option<Rejection>
    ensures kind { result ≡ dictionary_refusal max_rows (plain state.now) dictionary_batch.now.id
        dictionary_batch.now.is_delta (batch_view dictionary_batch.now.record_batch.now) }
{
    let DictionaryUpdate {
        id,
        is_delta,
        record_batch,
    } = *dictionary_batch;
    let Some(field) = state.value_field(id) else {
        return Some(Rejection::UnknownId);
    };
    let base = state.base_len(id);
    if is_delta && base.is_none() {
        return Some(Rejection::NoBase);
    }
    if has_bad_length(max_rows, field.fields(), record_batch) {
        return Some(Rejection::Rows);
    }
    let found = if is_delta { base.unwrap_or(0) } else { 0 };
    if grows_over(max_rows, found, row_count(record_batch)) {
        return Some(Rejection::Rows);
    }
    None
}

/// Whether `found` values and `more` after them exceed the limit.
fn grows_over(max_rows: u64, found: usize, more: usize) -> bool
    ensures over { result ≡ nat_lt max_rows (found + more) }
{
    max_rows < found as u64 || max_rows - (found as u64) < more as u64
}

/// Whether the length of the batch, or that of a node which the fields take, is negative or over
/// the limit.
fn has_bad_length(max: u64, fields: &[Field], record_batch: &RecordBatch) -> bool
    ensures bad { result ≡ has_bad_length max (fields_view fields.now) (batch_view record_batch.now) }
{
    is_bad_length(max, record_batch.length)
        || have_bad_length(max, nodes_of(fields, &record_batch.nodes))
}

/// Whether the length of a node is negative or over the limit.
fn have_bad_length(max: u64, nodes: &[FieldNode]) -> bool
    ensures bad { result ≡ list_any (λ n. is_bad_length max n.length) nodes.now }
{
    for node in nodes {
        if is_bad_length(max, node.length) {
            return true;
        }
    }
    false
}

/// Whether a number of rows is negative or over the limit.
fn is_bad_length(max: u64, length: i64) -> bool
    ensures bad { result ≡ is_bad_length max length }
{
    length < 0 || max < length as u64
}
