//! Explanations as text for a person, in lines of at most 80 characters.

use crate::dump::{Mark, push_dump};
use crate::explanation::{Explanation, RejectedMessage};
use crate::hints::hint_of;
use crate::schema_text::{push_schema, schema_mark};
use arrow_meta_tree::slots;
use arrow_stream_reader::Kind;
use arrow_types::{Buffer, Limits};
use arrowflow_contents::{BodySpot, Copied, Finding, Need, Summary, push_quoted};
use arrowflow_diagnosis::{
    Cut, CutPart, Diagnosis, MessageFault, PrefixFault, RowsFault, batch_table, body_length,
    message_number, message_table, metadata_of,
};
use arrowflow_input::RefusedItem;
use std::alloc::{AllocError, Global};
use std::fmt::Write;

impl Explanation {
    /// The text that the program prints, each line with its line feed.
    pub fn text(&self, alloc: Global) -> Result<String, AllocError> {
        let mut text = String::new(alloc);
        match self {
            Explanation::Sound(summary) => push_summary(&mut text, summary)?,
            Explanation::Rejected(refusal) => refusal.push_text(&mut text)?,
        }
        wrapped(alloc, &text)
    }
}

/// The greatest number of characters of a line, unless a word of it has more.
const WIDTH: usize = 80;

/// The same text, with longer lines broken between words.
fn wrapped(alloc: Global, text: &str) -> Result<String, AllocError> {
    let mut lines = String::new(alloc);
    for line in text.lines() {
        if line.chars().count() <= WIDTH {
            lines.push_str(line)?;
        } else {
            push_words(&mut lines, line)?;
        }
        lines.push_str("\n")?;
    }
    Ok(lines)
}

/// Appends the words of a line; the lines after the first begin with two blanks.
fn push_words(lines: &mut String, line: &str) -> Result<(), AllocError> {
    let mut width = 0usize;
    for word in line.split(' ') {
        let count = word.chars().count();
        if width > 0 && WIDTH <= width.saturating_add(count) {
            lines.push_str("\n ")?;
            width = 1;
        }
        if width > 0 {
            lines.push_str(" ")?;
            width = width.saturating_add(1);
        }
        lines.push_str(word)?;
        width = width.saturating_add(count);
    }
    Ok(())
}

impl RejectedMessage {
    /// Appends the line of the fault, the message, the finding, its bytes, and what can be done.
    fn push_text(&self, text: &mut String) -> Result<(), AllocError> {
        writeln!(text, "{}", self.fault)?;
        self.push_message(text)?;
        self.push_found(text)?;
        text.push_str("\n")?;
        if let Some(spot) = &self.spot {
            push_spot(text, spot)?;
        }
        if let Some(mark) = self.mark() {
            push_dump(text, &self.message, self.fault.place, mark)?;
        }
        writeln!(text, "{}", hint_of(self))
    }

    /// Appends which message it is, and the sizes of its parts as far as they are known.
    fn push_message(&self, text: &mut String) -> Result<(), AllocError> {
        write!(text, "message {}", self.before.messages)?;
        if self.is_foreign() {
            return writeln!(text, " at byte {}", self.fault.place);
        }
        if let Some(name) = header_name(&self.message) {
            write!(text, " ({name})")?;
        }
        write!(text, " at byte {}", self.fault.place)?;
        if let Some(metadata) = metadata_of(&self.message) {
            write!(text, ": {} bytes of metadata", metadata.len())?;
        }
        if let Some(length) = body_length(&self.message) {
            write!(text, ", {} of body", length.cast_signed())?;
        }
        text.push_str("\n")
    }

    /// Whether the message does not begin like a message, so that its bytes may be anything.
    fn is_foreign(&self) -> bool {
        matches!(
            self.diagnosis,
            Diagnosis::Prefix(PrefixFault::Continuation { .. })
        )
    }

    /// Appends the condition that does not hold, what was found and what was allowed.
    fn push_found(&self, text: &mut String) -> Result<(), AllocError> {
        match &self.diagnosis {
            Diagnosis::Prefix(fault) => push_prefix(text, *fault, &self.limits),
            Diagnosis::Ends(cut) => push_cut(text, *cut),
            Diagnosis::Message(fault) => push_own(text, *fault, &self.limits),
            Diagnosis::Rows(fault) => push_rows(text, *fault, &self.limits),
            Diagnosis::Schema(fault) => push_schema(text, &self.message, fault),
            Diagnosis::Other(kind) => text.push_str(words_of(*kind)),
        }
    }

    /// Which bytes of the message are at fault, if some are.
    fn mark(&self) -> Option<Mark> {
        match &self.diagnosis {
            Diagnosis::Prefix(_) => {
                let start = if self.is_foreign() { 0 } else { 4 };
                Some(Mark { start, count: 4 })
            }
            Diagnosis::Message(fault) => own_mark(&self.message, *fault),
            Diagnosis::Schema(fault) => schema_mark(&self.message, fault),
            Diagnosis::Ends(_) | Diagnosis::Rows(_) | Diagnosis::Other(_) => None,
        }
    }
}

/// The name of a message's header, if it has one.
fn header_name(message: &[u8]) -> Option<&'static str> {
    match message_number(message, slots::message::HEADER_TYPE, 1)? {
        1 => Some("schema"),
        2 => Some("dictionary batch"),
        3 => Some("record batch"),
        4 => Some("tensor"),
        5 => Some("sparse tensor"),
        _ => None,
    }
}

/// The bytes of the number in which a fault of a message itself lies, if it is there.
fn own_mark(message: &[u8], fault: MessageFault) -> Option<Mark> {
    let (field, count) = match fault {
        MessageFault::Version { .. } => (slots::message::VERSION, 2),
        MessageFault::Header { .. } => (slots::message::HEADER_TYPE, 1),
        MessageFault::SecondSchema | MessageFault::BatchFirst { .. } => {
            (slots::message::HEADER_TYPE, 1)
        }
        MessageFault::BodyLength { .. } | MessageFault::BodyEnd { .. } => {
            (slots::message::BODY_LENGTH, 8)
        }
        MessageFault::HeaderTable { .. } => (slots::message::HEADER, 4),
        MessageFault::MessageTable => return Some(Mark::in_metadata(0, 4)),
        MessageFault::Compressed { .. } => {
            let place = batch_table(message)?.field(slots::record_batch::COMPRESSION)?;
            return Some(Mark::in_metadata(place, 4));
        }
        MessageFault::HeaderMissing | MessageFault::DataTable => return None,
    };
    let place = message_table(message)?.field(field)?;
    Some(Mark::in_metadata(place, count))
}

/// Appends a number that is negative or over its limit.
fn push_bounded(text: &mut String, name: &str, number: i64, limit: u64) -> Result<(), AllocError> {
    write!(text, "{name} {number}: must be 0 or more, at most {limit}")
}

/// Appends the finding in a prefix.
fn push_prefix(text: &mut String, fault: PrefixFault, limits: &Limits) -> Result<(), AllocError> {
    match fault {
        PrefixFault::Continuation { found } => {
            text.push_str("continuation ")?;
            for byte in found.to_le_bytes() {
                write!(text, "{:02X} ", byte)?;
            }
            text.push_str("is found: a message begins with FF FF FF FF")
        }
        PrefixFault::MetadataSize { size } => {
            let size = i64::from(size.cast_signed());
            push_bounded(text, "metadata size", size, limits.max_metadata())
        }
        PrefixFault::MetadataEnd { size } => {
            write!(text, "metadata size {size}: they would end past byte 2^62")
        }
        PrefixFault::MarkerFirst => text.push_str("end marker: no schema message came before it"),
    }
}

/// Appends where the input ends.
fn push_cut(text: &mut String, cut: Cut) -> Result<(), AllocError> {
    let part = match cut.part {
        CutPart::Prefix => "the prefix",
        CutPart::Metadata => "the metadata",
        CutPart::Body => "the body",
    };
    write!(text, "the input ends inside {part} of the message: ")?;
    write!(text, "{} bytes of {} are there", cut.held, cut.wanted)?;
    if cut.before_schema {
        text.push_str("\nno schema message is whole")?;
    }
    Ok(())
}

/// Appends the finding in the numbers of a message itself.
fn push_own(text: &mut String, fault: MessageFault, limits: &Limits) -> Result<(), AllocError> {
    match fault {
        MessageFault::Version { number } => push_version(text, number),
        MessageFault::HeaderMissing => text.push_str("header: there is none"),
        MessageFault::Header { code } => {
            write!(text, "header type {code}: must be 1 (schema), ")?;
            text.push_str("2 (dictionary batch) or 3 (record batch)")
        }
        MessageFault::BodyLength { length } => {
            push_bounded(text, "bodyLength", length.cast_signed(), limits.max_body())
        }
        MessageFault::BodyEnd { length } => {
            write!(text, "bodyLength {length}: it would end past byte 2^62")
        }
        MessageFault::SecondSchema => {
            text.push_str("schema message: the stream has one already, and may have no other")
        }
        MessageFault::BatchFirst { .. } => {
            text.push_str("batch before the schema: the first message must be the schema")
        }
        MessageFault::Compressed { codec } => push_codec(text, codec),
        MessageFault::MessageTable => {
            text.push_str("the Message table does not lie inside the metadata")
        }
        MessageFault::HeaderTable { .. } => {
            text.push_str("the header's table does not lie inside the metadata")
        }
        MessageFault::DataTable => {
            text.push_str("the dictionary batch's data, a RecordBatch table, is required: ")?;
            text.push_str("it is absent, or does not lie inside the metadata")
        }
    }
}

/// Appends the finding in the version.
fn push_version(text: &mut String, number: u64) -> Result<(), AllocError> {
    if number < 3 {
        write!(text, "version V{}", number + 1)?;
    } else {
        write!(text, "version number {number}")?;
    }
    text.push_str(": only V4 (number 3) and V5 (number 4) are read")
}

/// Appends by which codec a body is compressed.
fn push_codec(text: &mut String, codec: Option<u64>) -> Result<(), AllocError> {
    text.push_str("compression of the body: ")?;
    match codec {
        Some(0) => text.push_str("LZ4_FRAME")?,
        Some(1) => text.push_str("ZSTD")?,
        Some(number) => write!(text, "codec number {number}")?,
        None => text.push_str("codec not readable")?,
    }
    text.push_str("; only bodies without compression are read")
}

/// Appends the finding in a batch.
fn push_rows(text: &mut String, fault: RowsFault, limits: &Limits) -> Result<(), AllocError> {
    let max_rows = limits.max_rows();
    match fault {
        RowsFault::UnknownId { id } => {
            write!(text, "dictionary id {id}: no field of the schema has it")
        }
        RowsFault::NoBase { id } => {
            write!(text, "dictionary id {id}: the batch is a delta, ")?;
            text.push_str("and no dictionary of the id came before")
        }
        RowsFault::BatchRows { rows } => push_bounded(text, "row count", rows, max_rows),
        RowsFault::NodeRows { node, slots } => {
            write!(text, "field node {node}: ")?;
            push_bounded(text, "length", slots, max_rows)
        }
        RowsFault::ValueCount { id, found, more } => {
            write!(text, "dictionary id {id}: {found} values and {more} more: ")?;
            write!(text, "at most {max_rows} together")
        }
    }
}

/// Appends where a body is at fault.
fn push_spot(text: &mut String, spot: &BodySpot) -> Result<(), AllocError> {
    write!(text, "{}\nfield node {}", spot.field.as_str(), spot.node)?;
    push_place(text, spot.finding)?;
    push_finding(text, spot.finding)?;
    text.push_str("\n")
}

/// Appends the indices of the buffer and the slot that a finding is about, if it is about one.
fn push_place(text: &mut String, finding: Finding) -> Result<(), AllocError> {
    let (buffer, slot) = match finding {
        Finding::BufferOutside { buffer, .. } | Finding::TooFew { buffer, .. } => (buffer, None),
        Finding::Offsets { buffer, slot, .. } => (buffer, Some(slot)),
        Finding::Text { buffer, slot, .. } => (buffer, Some(slot)),
        Finding::Index { buffer, slot, .. } => (buffer, Some(slot)),
        Finding::NodeMissing { .. } | Finding::BufferMissing { .. } => return text.push_str(": "),
        Finding::RowCount { .. } | Finding::Unfit { .. } => return text.push_str(": "),
    };
    write!(text, ", buffer {buffer}: ")?;
    match slot {
        Some(slot) => write!(text, "slot {slot}: "),
        None => Ok(()),
    }
}

/// Appends what a batch, a node, a buffer or a slot contradicts.
fn push_finding(text: &mut String, finding: Finding) -> Result<(), AllocError> {
    match finding {
        Finding::NodeMissing { nodes } => write!(text, "the batch has {nodes} field nodes"),
        Finding::BufferMissing { buffers } => {
            write!(text, "the batch has {buffers} buffers, and more are wanted")
        }
        Finding::BufferOutside { place, body, .. } => push_outside(text, place, body),
        Finding::RowCount { slots, rows } => {
            write!(text, "length {slots}, of a batch of {rows} rows")
        }
        Finding::TooFew {
            bytes,
            slots,
            need,
            ..
        } => push_need(text, bytes, slots, need),
        Finding::Offsets {
            start,
            end,
            top,
            ..
        } => {
            write!(text, "offsets {start} and {end}: ")?;
            write!(text, "they must rise, up to {top} at most")
        }
        Finding::Unfit { slots } => {
            write!(text, "length {slots}, ")?;
            text.push_str("which its null count or its children do not fit")
        }
        Finding::Text { start, end, .. } => {
            write!(text, "not UTF-8: {} bytes ", end.saturating_sub(start))?;
            write!(text, "from byte {start} of the body on")
        }
        Finding::Index { index, values, .. } => {
            write!(text, "index {index}: the dictionary has {values} values")
        }
    }
}

/// Appends where a buffer lies that is not inside its body of this many bytes.
fn push_outside(text: &mut String, place: Buffer, body: usize) -> Result<(), AllocError> {
    let Buffer { offset, length } = place;
    write!(text, "{length} bytes from byte {offset} on, ")?;
    write!(text, "of a body of {body} bytes")
}

/// Appends that a buffer of this many bytes has too few for its slots.
fn push_need(text: &mut String, bytes: u64, slots: u32, need: Need) -> Result<(), AllocError> {
    write!(
        text,
        "{bytes} bytes: {slots} slots need {}",
        need.bytes(slots)
    )?;
    text.push_str(match need {
        Need::Bits => ", a bit for each",
        Need::Bytes(_) => "",
        Need::Offsets(_) => ", an offset for each and one more",
    })
}

/// The condition of a kind of which it is only known that it does not hold.
fn words_of(kind: Kind) -> &'static str {
    match kind {
        Kind::Continuation => "a message begins with FF FF FF FF",
        Kind::MetadataSize => "the size of the metadata is negative or over the limit",
        Kind::Metadata => "the metadata are no readable FlatBuffer, or beyond a limit of a schema",
        Kind::Version => "the version of the metadata is neither V4 nor V5",
        Kind::Header => "the header is no schema, dictionary batch or record batch",
        Kind::BodyLength => "the length of the body is negative or over the limit",
        Kind::Order => "a second schema, or a batch before the schema",
        Kind::Unsupported => "something of the schema is not supported",
        Kind::Schema => "the schema contradicts itself",
        Kind::Compressed => "the body is compressed",
        Kind::UnknownId => "no field of the schema gives the dictionary's id",
        Kind::NoBase => "a delta for an id without a dictionary",
        Kind::Rows => "a number of rows is negative or over the limit",
        Kind::Layout => "the body does not have what its nodes and buffers say",
        Kind::Text => "a text is not UTF-8",
        Kind::Index => "an index has no value in its dictionary",
        Kind::NoSchema => "the stream has no schema",
        Kind::Truncated => "the input ends inside a message",
        Kind::Memory => "an allocation failed",
    }
}

/// Appends the contents of a valid stream.
fn push_summary(text: &mut String, summary: &Summary) -> Result<(), AllocError> {
    write!(text, "The stream is sound: {} messages", summary.messages)?;
    if summary.marked {
        text.push_str(" and an end marker")?;
    }
    text.push_str(".\n")?;
    writeln!(text, "schema: {} bytes", summary.schema_bytes)?;
    write!(text, "batches: {}, {} rows", summary.batches, summary.rows)?;
    writeln!(text, ", {} bytes", summary.batch_bytes)?;
    push_columns(text, summary)?;
    push_dictionaries(text, summary)?;
    writeln!(text, "metadata: {} bytes", summary.metadata_bytes)?;
    writeln!(text, "padding of bodies: {} bytes", summary.padding)?;
    match summary.copied {
        Some(copied) => push_copied(text, copied, summary.bytes()),
        None => Ok(()),
    }
}

/// Appends the number of bytes of the columns.
fn push_columns(text: &mut String, summary: &Summary) -> Result<(), AllocError> {
    for (index, column) in summary.columns.iter().enumerate() {
        write!(text, "column {index}")?;
        push_quoted(text, &column.name)?;
        writeln!(text, ": {} bytes", column.bytes)?;
    }
    Ok(())
}

/// Appends the counts of the dictionaries.
fn push_dictionaries(text: &mut String, summary: &Summary) -> Result<(), AllocError> {
    for dictionary in &summary.dictionaries {
        write!(text, "dictionary {}: ", dictionary.id)?;
        write!(text, "{} values ", dictionary.values)?;
        write!(text, "after {} dictionary batches, ", dictionary.batches)?;
        write!(text, "{} bytes, ", dictionary.bytes)?;
        writeln!(text, "{} in buffers", dictionary.buffer_bytes)?;
    }
    Ok(())
}

/// Appends what a copy of a stream of this many bytes would write.
fn push_copied(text: &mut String, copied: Copied, bytes: u64) -> Result<(), AllocError> {
    match copied {
        Copied::Bytes(copied) => {
            write!(text, "copy: {copied} bytes, ")?;
            if copied < bytes {
                writeln!(text, "{} fewer", bytes - copied)
            } else if bytes < copied {
                writeln!(text, "{} more", copied - bytes)
            } else {
                text.push_str("as many\n")
            }
        }
        Copied::Refused(what, kind) => {
            text.push_str("copy: refused ")?;
            match what {
                RefusedItem::Start => text.push_str("schema")?,
                RefusedItem::Batch(number) => write!(text, "batch {number}")?,
                RefusedItem::Finish => text.push_str("end")?,
            }
            writeln!(text, ": {kind}")
        }
    }
}
