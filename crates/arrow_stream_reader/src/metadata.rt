//! The metadata of a message at its position in the stream: the message that they announce.

ghost use Rattle.std.specs.Prelude.{◌≡◌, ◌^◌, ◌+◌, ◌≤◌, length, IfOk, OnOk};
ghost use Rattle.arrow_meta_reader.specs.Means.{header_view, message_view};
ghost use Rattle.arrow_stream_reader.specs.Frame.{check_order};
ghost use Rattle.arrow_stream_reader.specs.Views.{Placed, StopsBy, MessageRead, content_of, plain};

use crate::decode_error::DecodeError;
use crate::kind::Rejection;
use crate::message::{Message, MessageBody};
use crate::refusals::{check_order, is_out_of_order, state_refusal};
use crate::state::State;
use crate::stream_schema::StreamSchema;
use arrow_meta_reader::{Header, Message as Judged, RecordBatch, decode_into};
use arrow_meta_tree::MetaFault;
use arrow_types::Limits;
use std::alloc::{AllocError, Global};

/// An offset of a stream, with its limits and what was read before.
#[derive(Clone, Copy)]
pub(crate) struct Position<'a> {
    pub(crate) limits: &'a Limits,
    pub(crate) state: &'a State,
    pub(crate) place: u64,
}

/// The message of the metadata that begin at `start`. Everything that applying the message needs is
/// allocated here, except what its body holds. A batch is put into the memory of another one.
pub(crate) fn read_message(
    alloc: Global,
    start: &Position,
    metadata: &[u8],
    memory: RecordBatch,
) -> Result<Message, DecodeError>
    requires near { start.now.place + length metadata.now ≤ 2 ^ 62 }
    ensures says { MessageRead start.now.limits.now (plain start.now.state.now) start.now.place
        metadata.now result }
    ensures ceiling { OnOk result (start.now.limits.now.max_rows ≤ 2147483647) }
{
    let place = start.place + metadata.len() as u64;
    let has_schema = start.state.schema.is_some();
    let decoded = decode_into(alloc, metadata, start.limits, memory);
    let message = decoded.map_err(|fault| error_by(has_schema, place, fault))?;
    message_at(alloc, &Position { place, ..*start }, message)
}

/// The message if its metadata end at `end`, or the least kind that is decided by its offset and by
/// what was read before.
fn message_at(alloc: Global, end: &Position, message: Judged) -> Result<Message, DecodeError>
    requires near { end.now.place ≤ 2 ^ 62 }
    ensures placed { Placed end.now.limits.now.max_rows (plain end.now.state.now) end.now.place
        (message_view message) result }
    ensures ceiling { OnOk result (end.now.limits.now.max_rows ≤ 2147483647) }
{
    let out_of_order = is_out_of_order(end.state.schema.is_some(), &message.header);
    if let Some(refusal) = check_order(end.place, message.body_len, out_of_order) {
        return Err(DecodeError::Refused(refusal));
    }
    let max_rows = end.limits.max_rows();
    if let Some(refusal) = state_refusal(max_rows, end.state, &message.header) {
        return Err(DecodeError::Refused(refusal));
    }
    let body_len = message.body_len;
    let content = content_by(alloc, message.header)?;
    Ok(Message { content, body_len })
}

/// The content of a message with this header.
fn content_by(alloc: Global, header: Header) -> Result<MessageBody, AllocError>
    ensures same { IfOk result (λ c. content_of c ≡ header_view header) }
{
    Ok(match header {
        Header::Schema(schema) => MessageBody::Schema(StreamSchema::of(alloc, schema)?),
        Header::Dictionary(id, is_delta, record_batch) => MessageBody::Dictionary(
            id,
            is_delta,
            record_batch,
        ),
        Header::Batch(record_batch) => MessageBody::Batch(record_batch),
    })
}

/// Why reading stops at metadata with this fault that end at the offset `end`: the least of the
/// fault's own kind and of those that the offset and the order decide.
fn error_by(has_schema: bool, end: u64, fault: MetaFault) -> DecodeError
    requires near { end ≤ 2 ^ 62 }
    ensures stop { StopsBy result has_schema end fault }
{
    match fault {
        MetaFault::Memory => DecodeError::Memory,
        MetaFault::Metadata => DecodeError::Refused(Rejection::Metadata),
        MetaFault::Version => DecodeError::Refused(Rejection::Version),
        MetaFault::Header => DecodeError::Refused(Rejection::Header),
        MetaFault::BodyLength => DecodeError::Refused(Rejection::BodyLength),
        MetaFault::Unsupported { body_len } => {
            let order = check_order(end, body_len, has_schema);
            DecodeError::Refused(order.unwrap_or(Rejection::Unsupported))
        }
        MetaFault::Schema { body_len } => {
            let order = check_order(end, body_len, has_schema);
            DecodeError::Refused(order.unwrap_or(Rejection::Schema))
        }
        MetaFault::Compressed { body_len, .. } => {
            let order = check_order(end, body_len, !has_schema);
            DecodeError::Refused(order.unwrap_or(Rejection::Compressed))
        }
    }
}
