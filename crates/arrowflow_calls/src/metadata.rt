//! Custom metadata as the Arrow C data interface encodes them.

ghost use Rattle.std.specs.Prelude.{◌≡◌, ◌<◌, ◌^◌, flat_map, length};
ghost use Rattle.arrow_bits.specs.Numbers.{number_bytes};
ghost use Rattle.arrow_types.specs.Notes.{pairs_view};
ghost use Rattle.arrowflow_calls.specs.Fields.{counted, metadata_bytes, pair_bytes};
ghost use Rattle.arrowflow_calls.specs.Pens.{Puts};

use crate::pens::TextPen;

/// Puts metadata into the output buffer: how many pairs there are, and each pair.
pub(crate) fn put_metadata(room: &mut [u8], pen: TextPen, pairs: &[(Vec<u8>, Vec<u8>)]) -> TextPen
    ensures { Puts room.old pen (metadata_bytes (pairs_view pairs.now)) result room.new }
{
    if pairs.is_empty() {
        return pen;
    }
    let pen = put_number(room, pen, pairs.len());
    put_pairs(room, pen, pairs)
}

/// Puts each pair into the output buffer, its key before its value.
fn put_pairs(room: &mut [u8], pen: TextPen, pairs: &[(Vec<u8>, Vec<u8>)]) -> TextPen
    ensures { Puts room.old pen (flat_map pair_bytes (pairs_view pairs.now)) result room.new }
{
    let mut pen = pen;
    for pair in pairs {
        pen = put_counted(room, pen, &pair.0);
        pen = put_counted(room, pen, &pair.1);
    }
    pen
}

/// Puts bytes into the output buffer after their count.
fn put_counted(room: &mut [u8], pen: TextPen, bytes: &[u8]) -> TextPen
    ensures puts { Puts room.old pen (counted bytes.now) result room.new }
    ensures fits { length room.old < 2 ^ 64 }
{
    let pen = put_number(room, pen, bytes.len());
    pen.put(room, bytes)
}

/// Puts the lowest 32 bits of a number into the output buffer.
fn put_number(room: &mut [u8], pen: TextPen, number: usize) -> TextPen
    ensures puts { Puts room.old pen (number_bytes 4 number) result room.new }
    ensures fits { length room.old < 2 ^ 64 }
{
    pen.put(room, &(number as u64).to_le_bytes()[..4])
}
