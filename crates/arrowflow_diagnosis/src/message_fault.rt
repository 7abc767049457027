//! Why the numbers in the tables of a message itself are rejected.

ghost use Rattle.std.specs.Prelude.{◌≡◌, ◌≤◌, IfSome, Some};
ghost use Rattle.arrowflow_diagnosis.specs.Message.{MessageFails, batch_table, codec_in, header_table};
ghost use Rattle.arrowflow_diagnosis.specs.Message.{message_kind, message_number};
ghost use Rattle.arrowflow_diagnosis.specs.Rejection.{situation_of};

use crate::message::{body_length, message_table, metadata_of};
use crate::places::Spot;
use crate::prefix::number_at;
use crate::rejected::Rejected;
use arrow_meta_tree::slots;
use arrow_stream_reader::Kind;
use arrow_types::Limits;

/// Why the numbers in the tables of a message itself are rejected (`Message.fbs`, tables `Message`
/// and `RecordBatch`).
#[derive(Clone, Copy, Debug, PartialEq, Eq)]
pub enum MessageFault {
    /// The version of the metadata has this number, which is neither V4's nor V5's.
    Version { number: u64 },
    /// The message has no header.
    HeaderMissing,
    /// The header has this code, which is not that of a schema, a dictionary batch or a record
    /// batch.
    Header { code: u64 },
    /// The length of the body is negative or over the limit. It is given as an unsigned number.
    BodyLength { length: u64 },
    /// With a body of this length the message would end past byte 2^62 of the stream.
    BodyEnd { length: u64 },
    /// The message is a schema, and one was read before.
    SecondSchema,
    /// The message has this code, which is that of a batch, and no schema was read before.
    BatchFirst { code: u64 },
    /// The body is compressed by the codec with this number, if the number is readable.
    Compressed { codec: Option<u64> },
    /// The table of the message does not lie inside its metadata.
    MessageTable,
    /// The table of the header, which has this code, does not lie inside the metadata.
    HeaderTable { code: u64 },
    /// The table of a dictionary batch's data is absent, or does not lie inside the metadata.
    DataTable,
}

impl MessageFault {
    /// The kind of the reader's fault.
    pub fn kind(self) -> Kind
        ensures { result ≡ message_kind self }
    {
        match self {
            MessageFault::Version { .. } => Kind::Version,
            MessageFault::HeaderMissing | MessageFault::Header { .. } => Kind::Header,
            MessageFault::BodyLength { .. } | MessageFault::BodyEnd { .. } => Kind::BodyLength,
            MessageFault::SecondSchema | MessageFault::BatchFirst { .. } => Kind::Order,
            MessageFault::Compressed { .. } => Kind::Compressed,
            MessageFault::MessageTable | MessageFault::HeaderTable { .. } => Kind::Metadata,
            MessageFault::DataTable => Kind::Metadata,
        }
    }
}

/// The number of `width` bytes in a field of the message's table, 0 if the field is absent.
pub fn message_number(message: &[u8], field: u16, width: usize) -> Option<u64>
    requires low { 1 ≤ width }
    requires high { width ≤ 8 }
    ensures { IfSome result (λ number. message_number width field message.now ≡ Some number) }
{
    message_table(message)?.number(field, width, 0)
}

/// The fault of the version, if it has one.
pub(crate) fn version_fault(rejected: &Rejected) -> Option<MessageFault>
    ensures { IfSome result (λ fault. MessageFails fault (situation_of rejected.now)) }
{
    let number = message_number(rejected.message, slots::message::VERSION, 2)?;
    (number != V4 && number != V5).then_some(MessageFault::Version { number })
}

/// The fault of the header, if it has one.
pub(crate) fn header_fault(rejected: &Rejected) -> Option<MessageFault>
    ensures { IfSome result (λ fault. MessageFails fault (situation_of rejected.now)) }
{
    let code = message_number(rejected.message, slots::message::HEADER_TYPE, 1)?;
    if code != SCHEMA && code != DICTIONARY_BATCH && code != RECORD_BATCH {
        return Some(MessageFault::Header { code });
    }
    let table = message_table(rejected.message)?;
    let is_absent = table.field(slots::message::HEADER).is_none();
    is_absent.then_some(MessageFault::HeaderMissing)
}

/// The fault of the body's length, if it has one.
pub(crate) fn length_fault(rejected: &Rejected) -> Option<MessageFault>
    ensures { IfSome result (λ fault. MessageFails fault (situation_of rejected.now)) }
{
    let length = body_length(rejected.message)?;
    if rejected.limits.max_body() < length {
        return Some(MessageFault::BodyLength { length });
    }
    if rejected.message.len() < 8 {
        return None;
    }
    let end = rejected
        .reader
        .place()
        .saturating_add(8 + u64::from(number_at(rejected.message, 4)));
    let is_past = Limits::LAST_PLACE.saturating_sub(end) < length;
    is_past.then_some(MessageFault::BodyEnd { length })
}

/// The fault that the message may not come here, if it may not.
pub(crate) fn order_fault(rejected: &Rejected) -> Option<MessageFault>
    ensures { IfSome result (λ fault. MessageFails fault (situation_of rejected.now)) }
{
    let code = message_number(rejected.message, slots::message::HEADER_TYPE, 1)?;
    let has_schema = rejected.reader.schema().is_some();
    if code == SCHEMA && has_schema {
        return Some(MessageFault::SecondSchema);
    }
    let is_batch = code == DICTIONARY_BATCH || code == RECORD_BATCH;
    (is_batch && !has_schema).then_some(MessageFault::BatchFirst { code })
}

/// The fault that the body is compressed, if it is.
pub(crate) fn compression_fault(rejected: &Rejected) -> Option<MessageFault>
    ensures { IfSome result (λ fault. MessageFails fault (situation_of rejected.now)) }
{
    let batch = batch_table(rejected.message)?;
    batch.field(slots::record_batch::COMPRESSION)?;
    Some(MessageFault::Compressed {
        codec: codec_in(&batch),
    })
}

/// The first table of a message that is required and not readable, if there is one.
pub(crate) fn table_fault(rejected: &Rejected) -> Option<MessageFault>
    ensures { IfSome result (λ fault. MessageFails fault (situation_of rejected.now)) }
{
    let metadata = metadata_of(rejected.message)?;
    let Some(table) = Spot::at_target(metadata, 0) else {
        return Some(MessageFault::MessageTable);
    };
    let code = table.number(slots::message::HEADER_TYPE, 1, 0)?;
    let Some(header) = table.table(slots::message::HEADER) else {
        return Some(MessageFault::HeaderTable { code });
    };
    let is_absent = header.table(slots::dictionary_batch::DATA).is_none();
    (code == DICTIONARY_BATCH && is_absent).then_some(MessageFault::DataTable)
}

/// The table of a message's header.
pub fn header_table(message: &[u8]) -> Option<Spot<'_>>
    ensures { IfSome result (λ table. header_table message.now ≡ Some table) }
{
    message_table(message)?.table(slots::message::HEADER)
}

/// The table of a record batch, or of the data of a dictionary batch.
pub fn batch_table(message: &[u8]) -> Option<Spot<'_>>
    ensures { IfSome result (λ table. batch_table message.now ≡ Some table) }
{
    let code = message_number(message, slots::message::HEADER_TYPE, 1)?;
    let header = header_table(message)?;
    match code {
        RECORD_BATCH => Some(header),
        DICTIONARY_BATCH => header.table(slots::dictionary_batch::DATA),
        _ => None,
    }
}

/// The number of the codec of a record batch, 0 if none is named.
fn codec_in(batch: &Spot) -> Option<u64>
    ensures { result ≡ codec_in batch.now }
{
    batch
        .table(slots::record_batch::COMPRESSION)?
        .number(CODEC, 1, 0)
}

/// Field `codec` of table `BodyCompression` (`Message.fbs`).
const CODEC: u16 = 0;

/// The number of version V4 (`Schema.fbs`, enum `MetadataVersion`).
const V4: u64 = 3;

/// The number of version V5 (`Schema.fbs`, enum `MetadataVersion`).
const V5: u64 = 4;

/// The code of a schema (`Message.fbs`, union `MessageHeader`).
pub(crate) const SCHEMA: u64 = 1;

/// The code of a dictionary batch (`Message.fbs`, union `MessageHeader`).
pub(crate) const DICTIONARY_BATCH: u64 = 2;

/// The code of a record batch (`Message.fbs`, union `MessageHeader`).
pub(crate) const RECORD_BATCH: u64 = 3;
