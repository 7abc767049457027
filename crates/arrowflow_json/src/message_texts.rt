//! The lines of messages, and of how a stream ends.

ghost use Rattle.std.specs.Prelude.{◌≡◌, ◌∷◌, ◌++◌, [], IfOk, OnOk, codes, length};
ghost use Rattle.std.specs.Fmt.{decimal, signed_decimal};
ghost use Rattle.json.specs.Json.{number, string};
ghost use Rattle.json.specs.Print.{print};
ghost use Rattle.json.specs.Token.{begin_object, end_object};
ghost use Rattle.json.specs.Written.{Written};
ghost use Rattle.arrow_types.specs.Field.{width};
ghost use Rattle.arrow_types.specs.View.{fields_view};
ghost use Rattle.arrow_data.specs.Listed.{values_by};
ghost use Rattle.arrow_stream_reader.specs.State.{fields_in};
ghost use Rattle.arrow_stream_reader.specs.Views.{given};
ghost use Rattle.arrow_json.specs.Lines.{line_of};
ghost use Rattle.arrowflow_json.specs.Fields.{in_file, name_by};
ghost use Rattle.arrowflow_json.specs.Messages.{end_line, fault_line, message_json};
ghost use Rattle.arrowflow_json.specs.Messages.{message_members, whole};
ghost use Rattle.arrowflow_json.specs.Tokens.{Adds, front_tokens, member_tokens, members_tokens};

use crate::members::{write_file, write_text};
use arrow_stream_reader::{Fault, Item, StreamReader};
use arrow_types::Field;
use json::Writer;
use std::alloc::{AllocError, Global};

/// A message that has just been read: the reader that read it, the offset at which it began, the
/// number of batches before it, and the message itself.
#[derive(Clone, Copy)]
pub(crate) struct MessageText<'a> {
    pub(crate) reader: &'a StreamReader,
    pub(crate) place: u64,
    pub(crate) before: u64,
    pub(crate) item: &'a Item,
}

/// The line of a message.
pub(crate) fn message_line(
    alloc: Global,
    file: Option<&str>,
    message: MessageText,
) -> Result<Vec<u8>, AllocError>
    ensures { IfOk result (λ line. line.items ≡ line_of (message_json (name_by file.entry)
        message.entry.place message.entry.before message.entry.reader.now.at.state
        (given message.entry.item.now))) }
{
    let mut writer = begun(alloc, file, message.place)?;
    write_message(&mut writer, message)?;
    ended(writer)
}

/// The last line of an input that ends without an end marker, at this offset.
pub(crate) fn end_line(alloc: Global, file: Option<&str>, place: u64) -> Result<Vec<u8>, AllocError>
    ensures { IfOk result (λ line. line.items ≡ end_line (name_by file.entry) place) }
{
    let mut writer = begun(alloc, file, place)?;
    write_text(&mut writer, "message", "end of input")?;
    ended(writer)
}

/// The last line of a stream with a fault.
pub(crate) fn fault_line(
    alloc: Global,
    file: Option<&str>,
    fault: Fault,
) -> Result<Vec<u8>, AllocError>
    ensures { IfOk result (λ line. line.items ≡ fault_line (name_by file.entry) fault) }
{
    let mut writer = begun(alloc, file, fault.place)?;
    write_text(&mut writer, "fault", fault.kind.name())?;
    ended(writer)
}

/// The beginning of a line, up to the offset.
fn begun(alloc: Global, file: Option<&str>, place: u64) -> Result<Writer, AllocError>
    ensures before { IfOk result (λ writer. writer.before ≡ []) }
    ensures tokens { IfOk result (λ writer. writer.tokens
        ≡ front_tokens (name_by file.entry) place) }
{
    let mut writer = Writer::new(Vec::new(alloc));
    writer.begin_object()?;
    write_file(&mut writer, file)?;
    write_whole(&mut writer, "at", place)?;
    Ok(writer)
}

/// The text of an object that is written except for its end, and a line feed.
fn ended(mut writer: Writer) -> Result<Vec<u8>, AllocError>
    ensures { IfOk result (λ line. line.items ≡ writer.before
        ++ (print (writer.tokens ++ end_object ∷ []) ++ codes "\n")) }
{
    writer.end_object()?;
    let mut text = writer.into_inner();
    text.push(b'\n')?;
    Ok(text)
}

/// Writes the members of a message after its offset.
fn write_message(writer: &mut Writer, message: MessageText) -> Result<(), AllocError>
    ensures { OnOk result (Adds (members_tokens (message_members message.entry.before
        message.entry.reader.now.at.state (given message.entry.item.now))) writer.old writer.new) }
{
    match message.item {
        Item::Schema => write_schema(writer, columns_in(message.reader)),
        Item::Dictionary(id) => write_values(writer, *id, values_of(message.reader, *id)),
        Item::Batch(batch) => write_batch(writer, message.before, batch.rows() as u64),
        Item::End => write_text(writer, "message", "end marker"),
    }
}

/// Writes the members of a schema with this many columns.
fn write_schema(writer: &mut Writer, columns: u64) -> Result<(), AllocError>
    ensures { OnOk result (Adds (members_tokens ((codes "message", string (codes "schema"))
        ∷ (codes "columns", whole columns) ∷ [])) writer.old writer.new) }
{
    write_text(writer, "message", "schema")?;
    write_whole(writer, "columns", columns)
}

/// Writes the members of a dictionary that has this many values now.
fn write_values(writer: &mut Writer, id: i64, values: u64) -> Result<(), AllocError>
    ensures { OnOk result (Adds (members_tokens ((codes "message", string (codes "dictionary"))
        ∷ (codes "id", number (signed_decimal id)) ∷ (codes "values", whole values) ∷ []))
        writer.old writer.new) }
{
    write_text(writer, "message", "dictionary")?;
    write_id(writer, id)?;
    write_whole(writer, "values", values)
}

/// Writes the members of a batch with this number, which has this many rows.
fn write_batch(writer: &mut Writer, before: u64, rows: u64) -> Result<(), AllocError>
    ensures { OnOk result (Adds (members_tokens ((codes "message", string (codes "batch"))
        ∷ (codes "number", whole before) ∷ (codes "rows", whole rows) ∷ []))
        writer.old writer.new) }
{
    write_text(writer, "message", "batch")?;
    write_whole(writer, "number", before)?;
    write_whole(writer, "rows", rows)
}

/// Writes the id of a dictionary.
fn write_id(writer: &mut Writer, id: i64) -> Result<(), AllocError>
    ensures { OnOk result (Adds (member_tokens (codes "id", number (signed_decimal id))) writer.old
        writer.new) }
{
    writer.key("id")?;
    writer.i64(id)
}

/// Writes a member whose value is a count.
fn write_whole(writer: &mut Writer, name: &str, count: u64) -> Result<(), AllocError>
    ensures { OnOk result (Adds (member_tokens (name.now, whole count)) writer.old writer.new) }
{
    writer.key(name)?;
    writer.u64(count)
}

/// The number of columns of the schema, 0 before there is one.
fn columns_in(reader: &StreamReader) -> u64
    ensures { result ≡ width (fields_in reader.now.at.state.schema) }
{
    match reader.schema() {
        Some(schema) => count(schema.fields()),
        None => 0,
    }
}

/// The number of fields.
fn count(fields: &[Field]) -> u64
    ensures { result ≡ width (fields_view fields.now) }
{
    fields.len() as u64
}

/// The number of values of the dictionary with this id, 0 if there is no dictionary.
fn values_of(reader: &StreamReader, id: i64) -> u64
    ensures { result ≡ length (values_by reader.now.at.state.dictionaries id) }
{
    match reader.dictionaries().get(id) {
        Some(values) => values.len() as u64,
        None => 0,
    }
}
