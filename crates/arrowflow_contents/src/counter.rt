//! Counts of a stream, made as it is read.

use crate::copied::CopyEstimate;
use crate::sizes::{bytes_of, padding_of};
use crate::summary::{DictionaryCount, Summary, buffers_of};
use arrow_data::Batch;
use arrow_dict::ValueFields;
use arrow_meta_reader::{Header, decode};
use arrow_stream_reader::{Item, StreamReader};
use arrow_types::{Buffer, Limits};
use arrowflow_diagnosis::{body_length, metadata_of};
use arrowflow_input::{Consumer, ToolFault};
use std::alloc::{AllocError, Global};
use std::ops::ControlFlow;

/// The counts of a stream.
#[derive(Drop)]
pub struct MessageCounter {
    alloc: Global,
    limits: Limits,
    summary: Summary,
    /// The fields of the dictionaries' values, once the schema has been read.
    values: Option<ValueFields>,
    copying: CopyEstimate,
}

impl MessageCounter {
    /// A counter of no messages. Allocates nothing.
    pub fn new(alloc: Global, limits: Limits) -> MessageCounter {
        MessageCounter {
            alloc,
            limits,
            summary: Summary::new(alloc),
            values: None,
            copying: CopyEstimate::Waiting,
        }
    }

    /// The counts of the messages so far.
    pub fn so_far(self) -> Summary {
        self.summary
    }

    /// The counts of the stream, which ended well.
    pub fn ended(self) -> Summary {
        let mut summary = self.summary;
        summary.copied = self.copying.finish();
        summary
    }

    /// Counts a message that was just read, or the end marker; it has these bytes.
    fn count(
        &mut self,
        reader: &StreamReader,
        message: &[u8],
        item: &Item,
    ) -> Result<(), AllocError> {
        let size = message.len() as u64;
        let body = match item {
            Item::End => 0,
            Item::Schema | Item::Dictionary(_) | Item::Batch(_) => {
                self.summary.messages = self.summary.messages.saturating_add(1);
                body_length(message).unwrap_or(0)
            }
        };
        let metadata = size.saturating_sub(body);
        self.summary.metadata_bytes = self.summary.metadata_bytes.saturating_add(metadata);
        let used = self.count_item(reader, message, item)?;
        let padding = padding_of(self.alloc, &used, body)?;
        self.summary.padding = self.summary.padding.saturating_add(padding);
        Ok(())
    }

    /// Counts the contents of a message, and returns those of its buffers that belong to a field.
    fn count_item(
        &mut self,
        reader: &StreamReader,
        message: &[u8],
        item: &Item,
    ) -> Result<Vec<Buffer>, AllocError> {
        match item {
            Item::Schema => self.count_schema(reader, message)?,
            Item::Dictionary(id) => return self.count_dictionary(reader, message, *id),
            Item::Batch(batch) => return self.count_batch(message, batch),
            Item::End => self.summary.marked = true,
        }
        Ok(Vec::new(self.alloc))
    }

    /// Counts the schema, and starts the copy.
    fn count_schema(&mut self, reader: &StreamReader, message: &[u8]) -> Result<(), AllocError> {
        self.summary.schema_bytes = message.len() as u64;
        let Some(schema) = reader.schema() else {
            return Ok(());
        };
        self.summary.add_columns(self.alloc, schema.fields())?;
        self.values = Some(ValueFields::of(self.alloc, schema)?);
        self.copying = CopyEstimate::start(self.alloc, schema, self.limits)?;
        Ok(())
    }

    /// Counts a dictionary batch.
    fn count_dictionary(
        &mut self,
        reader: &StreamReader,
        message: &[u8],
        id: i64,
    ) -> Result<Vec<Buffer>, AllocError> {
        let size = message.len() as u64;
        self.summary.dictionary_bytes = self.summary.dictionary_bytes.saturating_add(size);
        let count = self.dictionary_buffers(id)?;
        let mut used = self.buffers_in(message)?;
        used.truncate(count);
        self.summary.count_dictionary(DictionaryCount {
            id,
            batches: 1,
            values: values_of(reader, id),
            bytes: size,
            buffer_bytes: bytes_of(&used),
        })?;
        Ok(used)
    }

    /// The number of buffers of a batch of the dictionary with this id.
    fn dictionary_buffers(&self, id: i64) -> Result<usize, AllocError> {
        let Some(values) = &self.values else {
            return Ok(0);
        };
        match values.get(id).and_then(|field| field.fields().first()) {
            Some(field) => buffers_of(self.alloc, field),
            None => Ok(0),
        }
    }

    /// Counts a record batch, and copies it.
    fn count_batch(&mut self, message: &[u8], batch: &Batch) -> Result<Vec<Buffer>, AllocError> {
        let number = self.summary.batches as usize;
        self.summary.batches = self.summary.batches.saturating_add(1);
        self.summary.rows = self.summary.rows.saturating_add(batch.rows() as u64);
        let size = message.len() as u64;
        self.summary.batch_bytes = self.summary.batch_bytes.saturating_add(size);
        self.copying.add(number, batch)?;
        let mut used = self.buffers_in(message)?;
        let count = self.summary.count_columns(&used);
        used.truncate(count);
        Ok(used)
    }

    /// The buffers of a batch according to its metadata, including those that belong to no field.
    fn buffers_in(&self, message: &[u8]) -> Result<Vec<Buffer>, AllocError> {
        let Some(metadata) = metadata_of(message) else {
            return Ok(Vec::new(self.alloc));
        };
        // the reader has decoded them before, so only an allocation can fail
        let Ok(message) = decode(self.alloc, metadata, &self.limits) else {
            return Err(AllocError);
        };
        match message.header {
            Header::Schema(_) => Ok(Vec::new(self.alloc)),
            Header::Dictionary(_, _, batch) | Header::Batch(batch) => Ok(batch.buffers),
        }
    }
}

/// The number of values of the dictionary with this id.
fn values_of(reader: &StreamReader, id: i64) -> u64 {
    let dictionary = reader.dictionaries().get(id);
    dictionary.map_or(0, |dictionary| dictionary.len() as u64)
}

/// A counter of a stream, together with bytes of the stream from this offset on.
#[derive(Drop)]
pub struct CountedMessages<'a> {
    pub counter: MessageCounter,
    pub bytes: &'a [u8],
    pub place: u64,
}

impl<'a> CountedMessages<'a> {
    /// The bytes of the stream from one offset up to another.
    fn between(&self, start: u64, end: u64) -> &'a [u8] {
        let start = start.saturating_sub(self.place) as usize;
        let end = end.saturating_sub(self.place) as usize;
        self.bytes.get(start..end).unwrap_or(&[])
    }
}

/// It counts all messages of its stream, and fails only with `Memory`.
impl<'a> Consumer for CountedMessages<'a> {
    ghost use Rattle.std.specs.Prelude.{⊤};
    ghost use Rattle.arrowflow_contents.specs.Counting.{HasCounted};

    ghost Start = { Unit {0} };

    ghost keeps = { λ _ _ _ _ _. ⊤ };

    ghost answers = { λ _ _. HasCounted };

    fn item(
        mut self,
        reader: &StreamReader,
        place: u64,
        item: Item,
    ) -> (Self, Result<ControlFlow<()>, ToolFault>) {
        let message = self.between(place, reader.place());
        match self.counter.count(reader, message, &item) {
            Ok(()) => (self, Ok(ControlFlow::Continue(()))),
            Err(_) => (self, Err(ToolFault::Memory)),
        }
    }

    fn end(self, _reader: &StreamReader, _marked: bool) -> (Self, Result<(), ToolFault>) {
        (self, Ok(()))
    }
}
