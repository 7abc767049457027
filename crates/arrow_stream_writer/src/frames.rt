//! The frames of record batches and dictionary batches, built from columns.
//!
//! A batch that would not keep to the limits is rejected before a byte of its frame is appended:
//! the columns are walked once, which stores their body, then its nodes are checked, then the
//! metadata are measured.

ghost use Rattle.std.specs.Prelude.{◌≡◌, ◌≤◌, ◌<◌, ◌^◌, IsSome, MatchOption, OnOk, length};
ghost use Rattle.std.specs.List.{list_any};
ghost use Rattle.arrow_body_writer.specs.Align.{alignment_of};
ghost use Rattle.arrow_body_writer.specs.Storing.{body_view};
ghost use Rattle.arrow_meta_reader.specs.Means.{batch_view, header_view, message_view};
ghost use Rattle.arrow_meta_writer.specs.Metadata.{size_of};
ghost use Rattle.arrow_meta_writer.specs.Writable.{leaves_header_out};
ghost use Rattle.arrow_stream_reader.specs.Batch.{is_bad_length};
ghost use Rattle.arrow_stream_laws.specs.Sizes.{header_size};
ghost use Rattle.arrow_stream_writer.specs.Framing.{AppendsBody, IsStored, Load, Puts, PutsHead};
ghost use Rattle.arrow_stream_writer.specs.Framing.{header_of, not_stored, part_bytes, record_load};
ghost use Rattle.arrow_stream_writer.specs.Terms.{terms_of};
ghost use Rattle.arrow_stream_writer.specs.Updating.{IsNamed, PutsUpdate, sending_of};

use crate::frame::put_head;
use crate::settings::Settings;
use arrow_body_writer::{Align, Body, BodyStoreFault, store_in, store_rest_in};
use arrow_data::{Batch, Dictionary};
use arrow_meta_reader::{Header, Message, MetadataVersion, RecordBatch};
use arrow_meta_writer::encoded_size;
use arrow_sink::WriteFault;
use arrow_types::{FieldNode, TypeSet};
use std::alloc::AllocError;
use std::mem;

/// What a batch is for a reader (`Message.fbs`, union `MessageHeader`).
#[derive(Clone, Copy)]
pub(crate) enum BatchHeader {
    /// Rows of the stream.
    Record,
    /// Values for the dictionary with this id: with true they are appended to it, with false they
    /// replace it.
    Dictionary(i64, bool),
}

/// A dictionary batch that is to be sent: the values of a dictionary from an index on, as a delta
/// or as a replacement (`Message.fbs`, table `DictionaryBatch`).
#[derive(Clone, Copy)]
pub(crate) struct DictionaryBatch<'a> {
    pub(crate) id: i64,
    pub(crate) is_delta: bool,
    pub(crate) from: usize,
    pub(crate) dictionary: &'a Dictionary,
}

/// A body of fewer bytes is sent in one piece together with the bytes before it.
const LONG: usize = 16_384;

/// The messages of one batch as they are built: the bytes of the frames, and after them the body
/// that was stored last, which is sent from where it lies. Both keep their capacity, and so do the
/// metadata, which are laid out in a buffer of their own.
#[derive(Drop)]
pub(crate) struct BatchMessages {
    pub(crate) bytes: Vec<u8>,
    pub(crate) body: Body,
    pub(crate) room: Vec<u8>,
}

impl BatchMessages {
    /// How many bytes the messages have.
    pub(crate) fn len(&self) -> usize
        ensures { result ≡ length (part_bytes self.now) }
    {
        self.bytes.len() + self.body.bytes.len()
    }

    /// Appends the body to the bytes before it.
    fn append_body(&mut self) -> Result<(), AllocError>
        ensures { OnOk result (AppendsBody self.old self.new) }
    {
        self.bytes.extend_from_slice(&self.body.bytes)?;
        self.body.bytes.clear();
        Ok(())
    }

    /// Appends a short body to the bytes before it.
    fn append_short_body(&mut self) -> Result<(), AllocError>
        ensures { OnOk result (part_bytes self.new ≡ part_bytes self.old) }
    {
        if self.body.bytes.len() < LONG {
            self.append_body()?;
        }
        Ok(())
    }
}

/// The header of the message that holds the batch.
fn header_of(kind: BatchHeader, batch: RecordBatch) -> Header
    ensures { header_view result ≡ header_of kind (batch_view batch) }
{
    match kind {
        BatchHeader::Record => Header::Batch(batch),
        BatchHeader::Dictionary(id, is_delta) => Header::Dictionary(id, is_delta, batch),
    }
}

/// Returns the nodes and the buffers of a message to a body, to keep their capacity.
fn give_back(message: Message, body: &mut Body)
    ensures { body.new.bytes.items ≡ body.old.bytes.items }
{
    match message.header {
        Header::Batch(batch) | Header::Dictionary(_, _, batch) => {
            body.nodes = batch.nodes;
            body.buffers = batch.buffers;
        }
        Header::Schema(_) => {}
    }
}

/// The writer's fault if columns are not stored.
fn not_stored(fault: BodyStoreFault) -> WriteFault
    ensures { result ≡ not_stored fault }
{
    match fault {
        BodyStoreFault::TooLarge => WriteFault::TooLarge,
        BodyStoreFault::Memory => WriteFault::Memory,
    }
}

/// Whether a number of slots is negative or over the limit.
fn is_bad_length(max: u64, length: i64) -> bool
    ensures { result ≡ is_bad_length max length }
{
    length < 0 || max < length as u64
}

/// Whether that of some node is.
fn have_bad_length(max: u64, nodes: &[FieldNode]) -> bool
    ensures { result ≡ list_any (λ n. is_bad_length max n.length) nodes.now }
{
    for node in nodes {
        if is_bad_length(max, node.length) {
            return true;
        }
    }
    false
}

/// How many bytes the metadata of the message take in a frame, with their padding; None if they are
/// over the ceiling of all limits.
fn metadata_len(align: Align, message: &Message) -> Option<u64>
    requires version { message.now.version ≡ MetadataVersion.V5 }
    requires body { message.now.body_len ≤ 2 ^ 40 }
    ensures { MatchOption result
        (2 ^ 30 < header_size (alignment_of align) (header_view message.now.header))
        (λ len. IsSome (size_of (message_view message.now))
        × (len ≡ header_size (alignment_of align) (header_view message.now.header))) }
{
    let size = encoded_size(message)?;
    Some(align.round_up(8 + size) - 8)
}

/// Whether a set leaves out the type of a field of the message.
fn leaves_out(types: TypeSet, header: &Header) -> bool
    ensures { result ≡ leaves_header_out types (header_view header.now) }
{
    match header {
        Header::Schema(schema) => types.leaves_some_out(schema.fields()),
        Header::Dictionary(..) | Header::Batch(_) => false,
    }
}

impl Settings {
    /// Appends the head of the message's frame, whose metadata are laid out in a scratch buffer.
    pub(crate) fn put_head(
        &self,
        message: &Message,
        out: &mut Vec<u8>,
        room: &mut Vec<u8>,
    ) -> Result<(), WriteFault>
        requires version { message.now.version ≡ MetadataVersion.V5 }
        requires short { message.now.body_len ≤ self.now.limits.max_body }
        ensures { PutsHead (terms_of self.now) (message_view message.now) out.old.items result
            out.new.items }
    {
        let (_, max_metadata) = (self.limits.max_body(), self.limits.max_metadata());
        let len = metadata_len(self.align, message).ok_or(WriteFault::TooLarge)?;
        if len > max_metadata {
            return Err(WriteFault::TooLarge);
        }
        if leaves_out(self.limits.types(), &message.header) {
            return Err(WriteFault::TooLarge);
        }
        // One allocation makes room for all of it.
        out.reserve(8 + len as usize)?;
        put_head(out, room, self.align, message)?;
        Ok(())
    }

    /// Appends the head of the frame of a batch whose columns were stored in the body of the batch
    /// messages; the body stays after it. After a fault the bytes past the old length are
    /// unspecified.
    pub(crate) fn put_stored(
        &self,
        kind: BatchHeader,
        rows: usize,
        part: &mut BatchMessages,
    ) -> Result<(), WriteFault>
        ensures { (load : Load) → load.kind ≡ kind → load.rows ≡ rows
            → IsStored (terms_of self.now).align load (body_view part.old.body)
            → Puts (terms_of self.now) load part.old.bytes.items result (part_bytes part.new) }
    {
        let max_rows = self.limits.max_rows();
        if rows as u64 > max_rows {
            return Err(WriteFault::TooLarge);
        }
        if part.body.bytes.len() as u64 > self.limits.max_body() {
            return Err(WriteFault::TooLarge);
        }
        if have_bad_length(max_rows, &part.body.nodes) {
            return Err(WriteFault::TooLarge);
        }
        let batch = RecordBatch {
            length: rows as i64,
            nodes: mem::replace(&mut part.body.nodes, Vec::new(self.alloc)),
            buffers: mem::replace(&mut part.body.buffers, Vec::new(self.alloc)),
        };
        let message = Message {
            version: MetadataVersion::V5,
            header: header_of(kind, batch),
            body_len: part.body.bytes.len() as u64,
        };
        let answer = self.put_head(&message, &mut part.bytes, &mut part.room);
        give_back(message, &mut part.body);
        answer
    }

    /// Appends the frame of the batch's record batch; its body may stay where it is stored, after
    /// the bytes. After a fault the bytes past the old length are unspecified.
    pub(crate) fn put_record(
        &self,
        batch: &Batch,
        part: &mut BatchMessages,
    ) -> Result<(), WriteFault>
        ensures { Puts (terms_of self.now) (record_load batch.now) part.old.bytes.items result
            (part_bytes part.new) }
    {
        // This gives the proof what is known of every batch, and of all limits.
        let _ = batch.schema();
        let _ = self.limits.max_rows();
        if let Err(fault) = store_in(&mut part.body, batch.columns(), self.align) {
            return Err(not_stored(fault));
        }
        self.put_stored(BatchHeader::Record, batch.rows(), part)?;
        part.append_short_body()?;
        Ok(())
    }

    /// Appends the frame of the dictionary batch, all of it to the bytes. After a fault the bytes
    /// past the old length are unspecified.
    pub(crate) fn put_update(
        &self,
        update: &DictionaryBatch,
        part: &mut BatchMessages,
    ) -> Result<(), WriteFault>
        requires { update.now.from ≤ length update.now.dictionary.now.values }
        ensures { IsNamed self.now.schema.value.fields update.now.id update.now.dictionary.now.data_type
            → PutsUpdate (terms_of self.now) (sending_of update.now) part.old.bytes.items result
            part.new.bytes.items }
    {
        // This gives the proof what is known of every schema.
        let _ = self.schema.fields();
        let dictionary = update.dictionary;
        let len = dictionary.len();
        if len as u64 > self.limits.max_rows() {
            return Err(WriteFault::TooLarge);
        }
        let stored = store_rest_in(&mut part.body, dictionary, update.from, self.align);
        if let Err(fault) = stored {
            return Err(not_stored(fault));
        }
        let kind = BatchHeader::Dictionary(update.id, update.is_delta);
        self.put_stored(kind, len - update.from, part)?;
        part.append_body()?;
        Ok(())
    }
}
