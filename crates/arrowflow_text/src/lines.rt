//! The lines that report messages.

ghost use Rattle.std.specs.Prelude.{◌≡◌, ◌++◌, IfOk, OnOk, codes, length};
ghost use Rattle.std.specs.Fmt.{decimal, signed_decimal};
ghost use Rattle.arrow_types.specs.Field.{width};
ghost use Rattle.arrow_types.specs.View.{fields_view};
ghost use Rattle.arrow_data.specs.Listed.{values_by};
ghost use Rattle.arrow_stream_reader.specs.State.{fields_in};
ghost use Rattle.arrow_stream_reader.specs.Views.{given};
ghost use Rattle.arrowflow_text.specs.Lines.{end_line, message_line, message_text};

use arrow_stream_reader::{Item, StreamReader};
use arrow_types::Field;
use itoa::Buffer;
use std::alloc::{AllocError, Global};

/// A message that has just been read: the reader that read it, where it began, and what it is.
#[derive(Clone, Copy)]
pub(crate) struct MessageLine<'a> {
    pub(crate) reader: &'a StreamReader,
    pub(crate) place: u64,
    pub(crate) item: &'a Item,
}

/// Appends the line of a message that comes after this number of batches, with its line feed.
pub(crate) fn push_line(
    text: &mut Vec<u8>,
    message: MessageLine,
    number: u64,
) -> Result<(), AllocError>
    ensures { OnOk result (text.new.items ≡ text.old.items
        ++ message_line message.entry.place number message.entry.reader.now.at.state
        (given message.entry.item.now)) }
{
    push_number(text, "at ", message.place, "")?;
    push_message(text, message.reader, number, message.item)
}

/// The line after the last message of an input that ends without an end marker, at this offset.
pub(crate) fn end_line(alloc: Global, place: u64) -> Result<Vec<u8>, AllocError>
    ensures { IfOk result (λ line. line.items ≡ end_line place) }
{
    let mut text = Vec::new(alloc);
    push_number(&mut text, "at ", place, ": end of input\n")?;
    Ok(text)
}

/// Appends the text after the offset in the line of a message.
fn push_message(
    text: &mut Vec<u8>,
    reader: &StreamReader,
    number: u64,
    item: &Item,
) -> Result<(), AllocError>
    ensures { OnOk result (text.new.items ≡ text.old.items
        ++ message_text number reader.now.at.state (given item.now)) }
{
    match item {
        Item::Schema => push_number(text, ": schema, ", columns_in(reader), " columns\n"),
        Item::Dictionary(id) => push_dictionary(text, *id, values_of(reader, *id)),
        Item::Batch(batch) => push_batch(text, number, batch.rows() as u64),
        Item::End => text.extend_from_slice(b": end marker\n"),
    }
}

/// Appends the text for a dictionary that now has this number of values.
fn push_dictionary(text: &mut Vec<u8>, id: i64, values: u64) -> Result<(), AllocError>
    ensures { OnOk result (text.new.items ≡ text.old.items
        ++ (codes ": dictionary " ++ signed_decimal id ++ codes ", now " ++ decimal values
        ++ codes " values\n")) }
{
    push_id(text, id)?;
    push_number(text, ", now ", values, " values\n")
}

/// Appends which dictionary it is.
fn push_id(text: &mut Vec<u8>, id: i64) -> Result<(), AllocError>
    ensures { OnOk result (text.new.items
        ≡ text.old.items ++ (codes ": dictionary " ++ signed_decimal id)) }
{
    let mut buffer = Buffer::new();
    text.extend_from_slice(b": dictionary ")?;
    text.extend_from_slice(buffer.format(id).as_bytes())?;
    Ok(())
}

/// Appends the text for the batch with this number and this many rows.
fn push_batch(text: &mut Vec<u8>, number: u64, rows: u64) -> Result<(), AllocError>
    ensures { OnOk result (text.new.items ≡ text.old.items
        ++ (codes ": batch " ++ decimal number ++ codes ", " ++ decimal rows
        ++ codes " rows\n")) }
{
    push_number(text, ": batch ", number, ", ")?;
    push_number(text, "", rows, " rows\n")
}

/// Appends a number between two texts.
fn push_number(text: &mut Vec<u8>, before: &str, number: u64, after: &str) -> Result<(), AllocError>
    ensures { OnOk result (text.new.items
        ≡ text.old.items ++ before.now ++ decimal number ++ after.now) }
{
    let mut buffer = Buffer::new();
    text.extend_from_slice(before.as_bytes())?;
    text.extend_from_slice(buffer.format(number).as_bytes())?;
    text.extend_from_slice(after.as_bytes())
}

/// How many columns the schema has, none before it came.
fn columns_in(reader: &StreamReader) -> u64
    ensures { result ≡ width (fields_in reader.now.at.state.schema) }
{
    match reader.schema() {
        Some(schema) => count(schema.fields()),
        None => 0,
    }
}

/// How many fields there are.
fn count(fields: &[Field]) -> u64
    ensures { result ≡ width (fields_view fields.now) }
{
    fields.len() as u64
}

/// How many values the dictionary of the id has, none if there is no dictionary.
fn values_of(reader: &StreamReader, id: i64) -> u64
    ensures { result ≡ length (values_by reader.now.at.state.dictionaries id) }
{
    match reader.dictionaries().get(id) {
        Some(values) => values.len() as u64,
        None => 0,
    }
}
