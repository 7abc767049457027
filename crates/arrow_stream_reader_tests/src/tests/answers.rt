//! The results of a reader, as text: each item with its content, and the state of the reader at the
//! end.

use arrow_data::{Array, Batch, Dictionary};
use arrow_stream_reader::{Fault, Item, StreamReader};
use std::alloc::{AllocError, Global};

/// The results of a reader so far, and the batches that it returned.
#[derive(Drop)]
pub(super) struct Answers {
    pub(super) text: String,
    batches: Vec<Batch>,
    refused: Option<Fault>,
}

impl Answers {
    pub(super) fn new(alloc: Global) -> Answers {
        Answers {
            text: String::new(alloc),
            batches: Vec::new(alloc),
            refused: None,
        }
    }

    /// Gives a reader a piece, and then repeatedly the bytes of it that the reader left.
    pub(super) fn give(
        &mut self,
        reader: &mut StreamReader,
        piece: &[u8],
    ) -> Result<(), AllocError> {
        let mut rest = piece;
        for _ in 0..16 {
            match reader.read(rest) {
                Ok((taken, Some(item))) => {
                    self.push_item(reader, item)?;
                    rest = &rest[taken..];
                }
                Ok((_, None)) => return Ok(()),
                Err(fault) => return self.push_fault(fault),
            }
        }
        self.text.push_str("items without bytes; ")
    }

    fn push_item(&mut self, reader: &StreamReader, item: Item) -> Result<(), AllocError> {
        match item {
            Item::Schema => push_schema(&mut self.text, reader)?,
            Item::Dictionary(id) => push_values(&mut self.text, reader.dictionaries().get(id))?,
            Item::Batch(batch) => {
                push_rows(&mut self.text, &batch)?;
                self.batches.push(batch)?;
            }
            Item::End => self.text.push_str("end")?,
        }
        self.text.push_str("; ")
    }

    /// An error is the same each time.
    fn push_fault(&mut self, fault: Fault) -> Result<(), AllocError> {
        if self.refused == Some(fault) {
            return Ok(());
        }
        self.refused = Some(fault);
        write!(self.text, "refused {} at {}; ", fault.kind, fault.place)
    }

    /// How many values the dictionary of the first column of each batch has now.
    pub(super) fn dictionary_lengths(&self, alloc: Global) -> Result<String, AllocError> {
        let mut text = String::new(alloc);
        for batch in &self.batches {
            let first = batch.columns().first();
            let dictionary = first.and_then(|column| column.dictionary());
            write!(text, "{} ", dictionary.map_or(0, |it| it.len()))?;
        }
        Ok(text)
    }

    /// The batches as they are now.
    pub(super) fn rows(&self, alloc: Global) -> Result<String, AllocError> {
        let mut text = String::new(alloc);
        for batch in &self.batches {
            push_rows(&mut text, batch)?;
        }
        Ok(text)
    }
}

/// The results of a reader for these pieces, if nothing more comes.
pub(super) fn answers_to(
    alloc: Global,
    reader: &mut StreamReader,
    pieces: &[&[u8]],
) -> Result<String, AllocError> {
    let mut answers = Answers::new(alloc);
    for piece in pieces {
        answers.give(reader, piece)?;
    }
    push_snapshot(&mut answers.text, reader)?;
    Ok(answers.text)
}

/// Appends the state of a reader: how many bytes it holds, its offset, and how the stream would end
/// there.
pub(super) fn push_snapshot(text: &mut String, reader: &StreamReader) -> Result<(), AllocError> {
    write!(text, "{} held at {}: ", reader.held(), reader.place())?;
    match reader.end() {
        Ok(()) => text.push_str("whole"),
        Err(Fault { kind, place }) => write!(text, "{kind} at {place}"),
    }
}

/// Appends the name of the first column.
fn push_schema(text: &mut String, reader: &StreamReader) -> Result<(), AllocError> {
    let schema = reader.schema();
    let first = schema.and_then(|schema| schema.fields().first());
    match first {
        Some(field) => write!(text, "schema {}", field.name),
        None => text.push_str("no schema"),
    }
}

fn push_values(text: &mut String, dictionary: Option<&Dictionary>) -> Result<(), AllocError> {
    text.push_str("dictionary")?;
    if let Some(dictionary) = dictionary {
        for i in 0..dictionary.len() {
            let (values, place) = dictionary.value(i);
            push_value(text, values, place)?;
        }
    }
    Ok(())
}

fn push_rows(text: &mut String, batch: &Batch) -> Result<(), AllocError> {
    text.push_str("batch")?;
    for column in batch.columns() {
        for i in 0..column.len() {
            match column.resolved(i) {
                Some((values, place)) => push_value(text, values, place)?,
                None => push_value(text, column, i)?,
            }
        }
    }
    Ok(())
}

/// Appends a text, bytes in hexadecimal, a number, or a null.
fn push_value(text: &mut String, column: &Array, i: usize) -> Result<(), AllocError> {
    text.push(' ')?;
    if i >= column.len() {
        return text.push_str("no-slot");
    }
    if let Some(words) = column.text_at(i) {
        return text.push_str(words);
    }
    if let Some(number) = column.int_at(i) {
        return write!(text, "{number}");
    }
    for byte in column.bytes_at(i).unwrap_or(b"") {
        write!(text, "{byte:02x}")?;
    }
    text.push_str(if column.is_null(i) { "null" } else { "" })
}
