//! Ranges of a message body.

ghost use Rattle.std.specs.Prelude.{◌≡◌};
ghost use Rattle.arrow_layout.specs.ByteRanges.{bytes_of, AreBytes, IsInside};

/// The bytes of a body from `start` up to `end`, counted from its first byte.
#[derive(Clone, Copy, Debug)]
pub struct ByteRange {
    /// The offset of the first byte.
    pub start: usize,
    /// The offset after the last byte.
    pub end: usize,
}

impl ByteRange {
    /// No bytes: an absent validity bitmap, or the offsets of no slots.
    pub const EMPTY: ByteRange = ByteRange { start: 0, end: 0 };
}

/// It has no bytes, and lies inside every body.
const _: () = prove!(ByteRange::EMPTY.start == 0 && ByteRange::EMPTY.end == 0);

/// The bytes of a range.
#[inline(always)]
pub fn bytes_in(body: &[u8], range: ByteRange) -> &[u8]
    requires { IsInside body.now range }
    ensures { result.now ≡ bytes_of body.now range }
{
    &body[range.start..range.end]
}

/// Every element of a slice of bytes is a byte.
#[inline(always)]
pub fn hold_bytes(bytes: &[u8])
    ensures { AreBytes bytes.now }
{
    bytes.len();
}
