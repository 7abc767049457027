//! A field's encoding by a dictionary, written or left out (`Schema.fbs`, table
//! `DictionaryEncoding`).
ghost use Rattle.std.specs.Prelude.{◌≡◌, ◌≤◌, ◌+◌, ◌++◌, length, OnOk};
ghost use Rattle.arrow_flatbuf.specs.Nodes.{table as table_node};
ghost use Rattle.arrow_meta_writer.specs.Appends.{after_encoding, HasRoom, Appends, encoding_slot};
ghost use Rattle.arrow_meta_writer.specs.Appends.{laid_encoding};
ghost use Rattle.arrow_meta_writer.specs.Layouts.{encoding_cells};
ghost use Rattle.arrow_meta_writer.specs.Writable.{IsLong, HasLongId};

use crate::table_slots::{DICTIONARY_ENCODING_FIELDS, INT_FIELDS, encoding_table};
use crate::tables::encoding_table_end;
use crate::types::{bit, write_int};
use arrow_flatbuf::{FieldValue, TableWriter, table_place};
use arrow_types::Encoding;
use std::alloc::AllocError;

/// The field of a field's table that names an encoding laid out from `place` on.
pub(crate) fn encoding_slot(place: usize, encoding: Option<Encoding>) -> FieldValue
    requires { place ≤ 1073741825 }
    ensures { result ≡ encoding_slot place encoding }
{
    match encoding {
        None => FieldValue::Absent,
        Some(_) => FieldValue::Target(table_place(place, DICTIONARY_ENCODING_FIELDS)),
    }
}

/// Appends an encoding, if there is one.
pub(crate) fn write_encoding(
    writer: &mut TableWriter,
    encoding: Option<Encoding>,
) -> Result<(), AllocError>
    requires room { after_encoding (length writer.old) encoding ≤ 1073741824 }
    ensures bytes { OnOk result
        (writer.new ≡ writer.old ++ laid_encoding (length writer.old) encoding) }
    ensures typed { OnOk result (HasLongId encoding) }
{
    match encoding {
        None => Ok(()),
        Some(encoding) => write_some_encoding(writer, encoding),
    }
}

/// Appends an encoding.
fn write_some_encoding(writer: &mut TableWriter, encoding: Encoding) -> Result<(), AllocError>
    requires room { HasRoom writer.old (table_node (encoding_cells encoding)) }
    ensures bytes { OnOk result
        (Appends writer.old (table_node (encoding_cells encoding)) writer.new) }
    ensures typed { OnOk result (IsLong encoding.id) }
{
    let end = encoding_table_end(writer.place());
    writer.table(&encoding_table(
        encoding.id.cast_unsigned(),
        table_place(end, INT_FIELDS),
        bit(encoding.ordered),
    ))?;
    write_int(writer, encoding.index.bits, encoding.index.signed)?;
    Ok(())
}
