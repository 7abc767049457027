//! Members of objects: texts, numbers, custom metadata, dictionaries.

ghost use Rattle.std.specs.Prelude.{◌≡◌, [], ◌∷◌, OnOk, IfOk, map};
ghost use Rattle.json.specs.Json.{array, string};
ghost use Rattle.json.specs.Tree.{json_tokens};
ghost use Rattle.json.specs.Value.{items_of};
ghost use Rattle.arrow_types.specs.Notes.{pair_view, pairs_view};
ghost use Rattle.arrowflow_json.specs.Fields.{dictionary_json, in_file, name_by, pair_json};
ghost use Rattle.arrowflow_json.specs.Fields.{text_json};
ghost use Rattle.arrowflow_json.specs.Tokens.{Adds, member_tokens, members_tokens};

use arrow_types::Encoding;
use arrowflow_text::int_words;
use json::Writer;
use std::alloc::{AllocError, Global};

/// Writes a member whose value is a text.
pub(crate) fn write_text(writer: &mut Writer, name: &str, text: &str) -> Result<(), AllocError>
    ensures { OnOk result (Adds (member_tokens (name.now, string text.now)) writer.old writer.new) }
{
    writer.key(name)?;
    writer.string(text)
}

/// Writes the name of the file, if there is one.
pub(crate) fn write_file(writer: &mut Writer, file: Option<&str>) -> Result<(), AllocError>
    ensures { OnOk result (Adds (members_tokens (in_file (name_by file.entry))) writer.old
        writer.new) }
{
    match file {
        Some(name) => write_text(writer, "file", name),
        None => Ok(()),
    }
}

/// Writes the dictionary of a column, if it has one.
pub(crate) fn write_dictionary(
    writer: &mut Writer,
    dictionary: Option<Encoding>,
) -> Result<(), AllocError>
    ensures { OnOk result (Adds (json_tokens (dictionary_json dictionary)) writer.old writer.new) }
{
    let Some(encoding) = dictionary else {
        return writer.null();
    };
    writer.begin_object()?;
    writer.key("id")?;
    writer.i64(encoding.id)?;
    let index = int_words(encoding.index.bits, encoding.index.signed);
    write_text(writer, "index", index.name)?;
    writer.key("ordered")?;
    writer.boolean(encoding.ordered)?;
    writer.end_object()
}

/// Writes pairs of custom metadata as an array.
pub(crate) fn write_pairs(
    alloc: Global,
    writer: &mut Writer,
    pairs: &[(Vec<u8>, Vec<u8>)],
) -> Result<(), AllocError>
    ensures { OnOk result (Adds
        (json_tokens (array (items_of (map pair_json (pairs_view pairs.now)))))
        writer.old writer.new) }
{
    writer.begin_array()?;
    for pair in pairs {
        write_pair(alloc, writer, pair)?;
    }
    writer.end_array()
}

/// Writes a pair of custom metadata.
fn write_pair(
    alloc: Global,
    writer: &mut Writer,
    pair: &(Vec<u8>, Vec<u8>),
) -> Result<(), AllocError>
    ensures { OnOk result (Adds (json_tokens (pair_json (pair_view pair.now))) writer.old
        writer.new) }
{
    writer.begin_object()?;
    writer.key("key")?;
    write_bytes(alloc, writer, &pair.0)?;
    writer.key("value")?;
    write_bytes(alloc, writer, &pair.1)?;
    writer.end_object()
}

/// Writes bytes as a string, or if they are not a text as an object with their hexadecimal digits.
fn write_bytes(alloc: Global, writer: &mut Writer, bytes: &[u8]) -> Result<(), AllocError>
    ensures { OnOk result (Adds (json_tokens (text_json bytes.now)) writer.old writer.new) }
{
    match str::from_utf8(bytes) {
        Ok(text) => writer.string(text),
        Err(_) => {
            let digits = hex::encode(alloc, bytes)?;
            writer.begin_object()?;
            write_text(writer, "hex", &digits)?;
            writer.end_object()
        }
    }
}
