//! What can be done about a fault.

use crate::explanation::RejectedMessage;
use crate::format::Format;
use arrow_stream_reader::Kind;
use arrow_types::Limits;
use arrowflow_diagnosis::{
    CutPart, Diagnosis, FieldCondition, MessageFault, PrefixFault, RowsFault, SchemaCondition,
};

/// What can be done about a fault, in a sentence or two, each below 80 characters.
pub(crate) fn hint_of(refusal: &RejectedMessage) -> &'static str {
    match &refusal.diagnosis {
        Diagnosis::Prefix(fault) => prefix_hint(*fault, refusal),
        Diagnosis::Ends(cut) => cut_hint(cut.part, refusal),
        Diagnosis::Message(fault) => message_hint(*fault),
        Diagnosis::Rows(fault) => rows_hint(*fault),
        Diagnosis::Schema(fault) => schema_hint(fault),
        Diagnosis::Other(kind) => kind_hint(*kind),
    }
}

/// What can be done about a prefix.
fn prefix_hint(fault: PrefixFault, refusal: &RejectedMessage) -> &'static str {
    match fault {
        PrefixFault::Continuation { .. } if refusal.fault.place == 0 => {
            match Format::of(&refusal.message) {
                Some(format) => format.advice(),
                None => "This is no Arrow stream, or one of a version before 0.15.",
            }
        }
        PrefixFault::Continuation { .. } => {
            "Bytes were lost or added here, or an end marker is missing before other data."
        }
        PrefixFault::MetadataSize { size } if size.cast_signed() < 0 => CHANGED,
        PrefixFault::MetadataSize { .. } => {
            "Bytes were changed, or the limit is too low: --limit-metadata N"
        }
        PrefixFault::MetadataEnd { .. } => "The stream is too long.",
        PrefixFault::MarkerFirst => "The stream has no schema: write one, also without batches.",
    }
}

/// What can be done about an input that ends too soon.
fn cut_hint(part: CutPart, refusal: &RejectedMessage) -> &'static str {
    match part {
        CutPart::Prefix if refusal.message.is_empty() =>
            "The input is empty, or a part of a stream.",
        CutPart::Prefix if !may_be_stream(refusal) => "This is no Arrow stream.",
        CutPart::Prefix | CutPart::Metadata | CutPart::Body => {
            "The input ends inside a message: it was cut off. Send or copy it again."
        }
    }
}

/// Whether the few bytes of an input may be the beginning of a stream, or of a message of one.
fn may_be_stream(refusal: &RejectedMessage) -> bool {
    refusal.fault.place != 0 || refusal.message.first() == Some(&0xFF)
}

/// What can be done about the numbers of a message itself.
fn message_hint(fault: MessageFault) -> &'static str {
    match fault {
        MessageFault::BodyLength { length } if length.cast_signed() < 0 => CHANGED,
        MessageFault::BodyLength { length } if length > Limits::BODY_CEILING => OVER_ALL,
        MessageFault::BodyLength { .. } => "The limit may be too low: --limit-body N",
        MessageFault::BodyEnd { .. } => "The stream is too long.",
        MessageFault::Compressed { .. } => "Write the stream without compression of its bodies.",
        MessageFault::Version { .. } => "Write the stream with metadata of version V5.",
        MessageFault::HeaderMissing | MessageFault::Header { .. } => AGAIN,
        MessageFault::SecondSchema => {
            "These may be two streams without an end marker between: read each by itself."
        }
        MessageFault::BatchFirst { .. } => "The stream's first messages are missing.",
        MessageFault::MessageTable | MessageFault::HeaderTable { .. } => LOST,
        MessageFault::DataTable => LOST,
    }
}

/// What can be done about a batch.
fn rows_hint(fault: RowsFault) -> &'static str {
    match fault {
        RowsFault::UnknownId { .. } =>
            "The batch was written for another schema than that of this stream.",
        RowsFault::NoBase { .. } => "A batch of the dictionary is missing before it.",
        RowsFault::BatchRows { rows } if rows < 0 => CHANGED,
        RowsFault::NodeRows { slots, .. } if slots < 0 => CHANGED,
        RowsFault::BatchRows { rows } if rows.cast_unsigned() > Limits::ROWS_CEILING => OVER_ALL,
        RowsFault::NodeRows { slots, .. } if slots.cast_unsigned() > Limits::ROWS_CEILING =>
            OVER_ALL,
        RowsFault::BatchRows { .. } | RowsFault::NodeRows { .. } => ROWS,
        RowsFault::ValueCount { .. } => ROWS,
    }
}

/// The hint for metadata that are not readable.
const LOST: &str = "Bytes were changed or lost, or the writer wrote no FlatBuffer.";

/// The hint for a negative number.
const CHANGED: &str = "A negative number is written by no writer: bytes were changed or lost.";

/// The hint for a number that no option allows.
const OVER_ALL: &str = "No limit may be so high: bytes were changed or lost.";

/// The hint for everything else that a writer should not have written.
const AGAIN: &str = "Bytes were changed, or the writer is at fault: send or write it again.";

/// What can be done about a number of rows over the limit.
const ROWS: &str = "The limit may be too low: --limit-rows N";

/// What can be done about a schema.
fn schema_hint(fault: &SchemaCondition) -> &'static str {
    match fault {
        SchemaCondition::Field {
            fault: FieldCondition::TypeNotRead {
                code: 3 | 7 | 11 | 16 | 17,
            },
            ..
        } => "This type is read with --types all.",
        SchemaCondition::Field {
            fault: FieldCondition::TypeNotRead { .. },
            ..
        } => "No option reads this type: write the stream without it.",
        SchemaCondition::Field { .. } => AGAIN,
        SchemaCondition::Endianness { .. } => "Write the stream with little-endian numbers.",
        SchemaCondition::Nested { .. } => {
            "Write fields below a dictionary without dictionaries of their own."
        }
    }
}

/// What can be done about a fault of which only the kind is known.
fn kind_hint(kind: Kind) -> &'static str {
    match kind {
        Kind::Memory => "More memory is needed.",
        Kind::Continuation | Kind::MetadataSize | Kind::Metadata | Kind::Version => AGAIN,
        Kind::Header | Kind::BodyLength | Kind::Order | Kind::Unsupported | Kind::Schema => AGAIN,
        Kind::Compressed | Kind::UnknownId | Kind::NoBase | Kind::Rows => AGAIN,
        Kind::Layout | Kind::Text | Kind::Index | Kind::NoSchema | Kind::Truncated => AGAIN,
    }
}
