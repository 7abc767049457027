//! The types of columns in the text of a schema.

ghost use Rattle.std.specs.Prelude.{◌≡◌, ◌++◌, OnOk, string_bytes};
ghost use Rattle.arrow_types.specs.View.{type_view};
ghost use Rattle.arrowflow_text.specs.TypeNames.{column_type, id_text, index_text};
ghost use Rattle.arrowflow_text.specs.TypeWords.{type_name};

use crate::escapes::push_escaped;
use crate::type_words::{int_words, words_of};
use arrow_types::{DataType, Encoding};
use std::alloc::AllocError;
use std::fmt::Write;

/// Appends a column's type: that of its values, or with a dictionary, of its indices and of the
/// dictionary's values.
pub(crate) fn push_column_type(
    line: &mut String,
    data_type: &DataType,
    dictionary: Option<Encoding>,
) -> Result<(), AllocError>
    ensures { OnOk result (string_bytes line.new
        ≡ string_bytes line.old ++ column_type (type_view data_type.now).tag dictionary) }
{
    match dictionary {
        None => push_type_name(line, data_type),
        Some(encoding) => {
            push_index(line, encoding)?;
            push_type_name(line, data_type)?;
            push_id(line, encoding)
        }
    }
}

/// Appends the type of the indices into a dictionary.
fn push_index(line: &mut String, encoding: Encoding) -> Result<(), AllocError>
    ensures { OnOk result (string_bytes line.new ≡ string_bytes line.old ++ index_text encoding) }
{
    let index = int_words(encoding.index.bits, encoding.index.signed);
    write!(line, "dictionary<{}, ", index.name)
}

/// Appends which dictionary it is, and whether the order of its values means something.
fn push_id(line: &mut String, encoding: Encoding) -> Result<(), AllocError>
    ensures { OnOk result (string_bytes line.new ≡ string_bytes line.old ++ id_text encoding) }
{
    line.push_str("> id ")?;
    write!(line, "{}", encoding.id)?;
    if encoding.ordered {
        line.push_str(" ordered")?;
    }
    Ok(())
}

/// Appends the name of a type without its children, as the text of a schema has it.
///
/// The only error is `AllocError`.
pub fn push_type_name(line: &mut String, data_type: &DataType) -> Result<(), AllocError>
    ensures { OnOk result (string_bytes line.new
        ≡ string_bytes line.old ++ type_name (type_view data_type.now).tag) }
{
    line.push_str(words_of(data_type).name)?;
    match data_type {
        DataType::Decimal {
            precision,
            scale,
            ..
        } => write!(line, "{}, {})", *precision, *scale),
        DataType::FixedSizeBinary(width) => write!(line, "{}]", *width),
        DataType::FixedSizeList(_, size) => write!(line, "{}]", *size),
        DataType::Timestamp(_, None) => line.push_str("]"),
        DataType::Timestamp(_, Some(zone)) => {
            line.push_str(", ")?;
            push_escaped(line, zone)?;
            line.push_str("]")
        }
        _ => Ok(()),
    }
}
