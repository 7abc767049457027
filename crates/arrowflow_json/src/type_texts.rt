//! The format strings of types.

ghost use Rattle.std.specs.Prelude.{◌≡◌, ◌++◌, IfOk, codes, string_bytes};
ghost use Rattle.std.specs.Fmt.{decimal, signed_decimal};
ghost use Rattle.arrow_types.specs.View.{type_view};
ghost use Rattle.arrowflow_text.specs.TypeWords.{format_of};

use arrow_types::DataType;
use arrowflow_text::{format_width, words_of};
use std::alloc::{AllocError, Global};
use std::fmt::Write;

/// The format string of a type without its children.
pub(crate) fn format_string(alloc: Global, data_type: &DataType) -> Result<String, AllocError>
    ensures { IfOk result (λ text. string_bytes text ≡ format_of (type_view data_type.now).tag) }
{
    let mut text = String::new(alloc);
    text.push_str(words_of(data_type).format)?;
    match data_type {
        DataType::Decimal {
            width,
            precision,
            scale,
        } => {
            write!(text, "{},{}", *precision, *scale)?;
            text.push_str(format_width(*width))?;
        }
        DataType::FixedSizeBinary(width) => write!(text, "{}", *width)?,
        DataType::FixedSizeList(_, size) => write!(text, "{}", *size)?,
        DataType::Timestamp(_, Some(zone)) => text.push_str(zone)?,
        _ => {}
    }
    Ok(text)
}
