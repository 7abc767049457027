//! The contents of a stream, counted as it is read.

ghost use Rattle.std.specs.Prelude.{◌≡◌, ◌-◌, ◌^◌, min};
ghost use Rattle.arrowflow_contents.specs.Sizes.{stream_bytes};

use crate::copied::Copied;
use crate::cursor::{START, after};
use crate::sizes::bytes_of;
use arrow_types::{Buffer, Field};
use std::alloc::{AllocError, Global};

/// A column of a stream.
#[derive(Debug, Drop)]
pub struct ColumnCount {
    /// Its name.
    pub name: String,
    /// The bytes of its buffers and of those of the fields below it, in all batches. For a
    /// dictionary-encoded field they are those of its indices.
    pub bytes: u64,
    /// The number of its buffers in a batch, including those of the fields below it.
    buffers: usize,
}

/// A dictionary of a stream.
#[derive(Clone, Copy, Debug, PartialEq, Eq)]
pub struct DictionaryCount {
    /// Its id.
    pub id: i64,
    /// The number of dictionary batches for it.
    pub batches: u64,
    /// The number of its values after the last of them.
    pub values: u64,
    /// The bytes of their messages.
    pub bytes: u64,
    /// The bytes of their buffers.
    pub buffer_bytes: u64,
}

/// The number of messages, batches and rows of a stream, or of the complete messages before a
/// fault, and the number of bytes of its parts. No count exceeds 2^64 - 1.
#[derive(Debug, Drop)]
pub struct Summary {
    /// All messages, without the end marker.
    pub messages: u64,
    /// The record batches.
    pub batches: u64,
    /// Their rows.
    pub rows: u64,
    /// The bytes of the schema's message.
    pub schema_bytes: u64,
    /// The bytes of all dictionary batches' messages.
    pub dictionary_bytes: u64,
    /// The bytes of all record batches' messages.
    pub batch_bytes: u64,
    /// The bytes outside of bodies, with the end marker: prefixes, and metadata with padding.
    pub metadata_bytes: u64,
    /// The bytes of bodies that lie in no buffer of a column or of a dictionary.
    pub padding: u64,
    /// The columns.
    pub columns: Vec<ColumnCount>,
    /// The dictionaries, in the order of their first batches.
    pub dictionaries: Vec<DictionaryCount>,
    /// Whether the stream ended with its end marker.
    pub marked: bool,
    /// What a copy of the stream would write, if the stream was read to its end.
    pub copied: Option<Copied>,
}

impl Summary {
    /// The summary of no messages. Allocates nothing.
    pub fn new(alloc: Global) -> Summary {
        Summary {
            messages: 0,
            batches: 0,
            rows: 0,
            schema_bytes: 0,
            dictionary_bytes: 0,
            batch_bytes: 0,
            metadata_bytes: 0,
            padding: 0,
            columns: Vec::new(alloc),
            dictionaries: Vec::new(alloc),
            marked: false,
            copied: None,
        }
    }

    /// The bytes of the stream: of all messages, and of the end marker. Allocates nothing.
    pub fn bytes(&self) -> u64
        ensures { result ≡ min (stream_bytes self.now) (2 ^ 64 - 1) }
    {
        let marker = if self.marked { 8 } else { 0 };
        self.schema_bytes
            .saturating_add(self.dictionary_bytes)
            .saturating_add(self.batch_bytes)
            .saturating_add(marker)
    }

    /// Starts the counts of the columns of a schema.
    pub(crate) fn add_columns(
        &mut self,
        alloc: Global,
        fields: &[Field],
    ) -> Result<(), AllocError> {
        for field in fields {
            self.columns.push(ColumnCount {
                name: field.name.clone()?,
                bytes: 0,
                buffers: buffers_of(alloc, field)?,
            })?;
        }
        Ok(())
    }

    /// Counts the buffers of a record batch, and returns how many belong to its columns.
    pub(crate) fn count_columns(&mut self, buffers: &[Buffer]) -> usize {
        let mut place = 0usize;
        for column in &mut self.columns {
            let end = place.saturating_add(column.buffers);
            let own = buffers.get(place..end).unwrap_or(&[]);
            column.bytes = column.bytes.saturating_add(bytes_of(own));
            place = end;
        }
        place
    }

    /// Counts a dictionary batch.
    pub(crate) fn count_dictionary(&mut self, batch: DictionaryCount) -> Result<(), AllocError> {
        for dictionary in &mut self.dictionaries {
            if dictionary.id == batch.id {
                dictionary.add(batch);
                return Ok(());
            }
        }
        self.dictionaries.push(batch)?;
        Ok(())
    }
}

impl DictionaryCount {
    /// Adds the counts of a later batch of the same dictionary.
    fn add(&mut self, later: DictionaryCount) {
        self.batches = self.batches.saturating_add(later.batches);
        self.values = later.values;
        self.bytes = self.bytes.saturating_add(later.bytes);
        self.buffer_bytes = self.buffer_bytes.saturating_add(later.buffer_bytes);
    }
}

/// The number of buffers of a field and the fields below it.
pub(crate) fn buffers_of(alloc: Global, field: &Field) -> Result<usize, AllocError> {
    Ok(after(alloc, field, START).ok_or(AllocError)?.buffer)
}
