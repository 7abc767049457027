//! The eight bytes that begin a frame and the end marker (Columnar Format, "Encapsulated message
//! format").

ghost use Rattle.std.specs.Prelude.{◌≡◌, ◌^◌, ◌≤◌, length};
ghost use Rattle.arrow_stream_reader.specs.Frame.{prefix_says};

use crate::kind::Rejection;
use arrow_types::Limits;

/// The number of the four bytes that begin a frame and the end marker (Columnar Format,
/// "Encapsulated message format").
pub const CONTINUATION: u32 = 0xffff_ffff;

/// The meaning of the first eight bytes.
#[derive(Clone, Copy)]
pub(crate) enum Prefix {
    /// The stream ends here.
    EndMarker,
    /// Metadata of this many bytes follow, at least one.
    Metadata(u64),
}

/// The meaning of the eight bytes at this offset of a stream, after a schema or not.
pub(crate) fn read_prefix(
    limits: &Limits,
    has_schema: bool,
    place: u64,
    bytes: &[u8],
) -> Result<Prefix, Rejection>
    requires whole { length bytes.now ≡ 8 }
    requires near { place ≤ 2 ^ 62 }
    ensures says { result ≡ prefix_says limits.now has_schema place bytes.now }
{
    if u32::from_le_bytes([bytes[0], bytes[1], bytes[2], bytes[3]]) != CONTINUATION {
        return Err(Rejection::Continuation);
    }
    let size = u64::from(u32::from_le_bytes([bytes[4], bytes[5], bytes[6], bytes[7]]));
    if limits.max_metadata() < size || Limits::LAST_PLACE < place + 8 + size {
        return Err(Rejection::MetadataSize);
    }
    match (size, has_schema) {
        (0, true) => Ok(Prefix::EndMarker),
        (0, false) => Err(Rejection::NoSchema),
        // a number that is not 0
        _ => Ok(Prefix::Metadata(size)),
    }
}
