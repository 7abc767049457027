//! The format strings of types.

ghost use Rattle.std.specs.Prelude.{◌++◌, codes};
ghost use Rattle.std.specs.Fmt.{decimal, signed_decimal};
ghost use Rattle.arrow_types.specs.View.{type_view};
ghost use Rattle.arrowflow_calls.specs.Pens.{Puts};
ghost use Rattle.arrowflow_text.specs.TypeWords.{format_of};

use crate::pens::TextPen;
use arrow_types::DataType;
use arrowflow_text::{format_width, words_of};
use itoa::Buffer;

/// Puts the format string of a type into the output buffer.
pub(crate) fn put_type(room: &mut [u8], pen: TextPen, data_type: &DataType) -> TextPen
    ensures { Puts room.old pen (format_of (type_view data_type.now).tag) result room.new }
{
    let pen = pen.put(room, words_of(data_type).format.as_bytes());
    match data_type {
        DataType::Decimal {
            width,
            precision,
            scale,
        } => put_digits(room, pen, *precision, *scale).put(room, format_width(*width).as_bytes()),
        DataType::FixedSizeBinary(width) => pen.put(room, Buffer::new().format(*width).as_bytes()),
        DataType::FixedSizeList(_, size) => pen.put(room, Buffer::new().format(*size).as_bytes()),
        DataType::Timestamp(_, Some(zone)) => pen.put(room, zone.as_bytes()),
        _ => pen,
    }
}

/// Puts the precision and the scale of a decimal into the output buffer.
fn put_digits(room: &mut [u8], pen: TextPen, precision: u8, scale: i8) -> TextPen
    ensures { Puts room.old pen (decimal precision ++ codes "," ++ signed_decimal scale) result
        room.new }
{
    pen.put(room, Buffer::new().format(precision).as_bytes())
        .put(room, b",")
        .put(room, Buffer::new().format(scale).as_bytes())
}
