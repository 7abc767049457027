//! Hexadecimal dumps of bytes, with some of the bytes marked.

use std::alloc::AllocError;
use std::fmt::Write;
use std::ops::Range;

/// The number of bytes on a line of a dump.
const ROW: usize = 16;

/// The greatest number of lines of bytes in a dump.
const ROWS: usize = 4;

/// A run of bytes of a message: its start and its length.
#[derive(Clone, Copy, Debug, PartialEq, Eq)]
pub struct Mark {
    /// The index of the first byte.
    pub start: usize,
    /// The number of bytes.
    pub count: usize,
}

impl Mark {
    /// `count` bytes from this offset in the metadata on.
    pub(crate) fn in_metadata(place: usize, count: usize) -> Mark {
        let start = place.saturating_add(8);
        Mark { start, count }
    }

    /// Whether the byte with this index is marked.
    fn has(self, index: usize) -> bool {
        self.start <= index && index - self.start < self.count
    }
}

/// Appends up to 64 bytes around those that are marked, in lines of 16: the offset of the line's
/// first byte in the stream, in hexadecimal, and the bytes. Carets below a line mark its bytes.
/// `place` is the offset of the message's first byte in the stream.
pub(crate) fn push_dump(
    text: &mut String,
    message: &[u8],
    place: u64,
    mark: Mark,
) -> Result<(), AllocError> {
    let first = (mark.start / ROW).saturating_sub(1);
    for row in first..first.saturating_add(ROWS) {
        let start = row.saturating_mul(ROW);
        let end = message.len().min(start.saturating_add(ROW));
        if start < end {
            let row_place = place.saturating_add(start as u64);
            push_row(text, &message[start..end], row_place)?;
            push_carets(text, digits_of(row_place), start..end, mark)?;
        }
    }
    Ok(())
}

/// Appends a line of bytes, the first at this offset of the stream.
fn push_row(text: &mut String, bytes: &[u8], place: u64) -> Result<(), AllocError> {
    write!(text, "  {:08x} ", place)?;
    for byte in bytes {
        write!(text, " {:02x}", *byte)?;
    }
    text.push_str("\n")
}

/// The number of digits of an offset in a dump: eight, or more if it needs them.
fn digits_of(place: u64) -> u32 {
    (67u32.saturating_sub(place.leading_zeros()) / 4).max(8)
}

/// Appends the line that marks bytes of the line before it, if any are marked. That line begins
/// with an offset of this many digits, and shows the bytes with these indices.
fn push_carets(
    text: &mut String,
    digits: u32,
    row: Range<usize>,
    mark: Mark,
) -> Result<(), AllocError> {
    let from = row.start.max(mark.start);
    let to = row.end.min(mark.start.saturating_add(mark.count));
    if to <= from {
        return Ok(());
    }
    for _ in 0..digits.saturating_add(3) {
        text.push_str(" ")?;
    }
    for index in row.start..to {
        text.push_str(if mark.has(index) { " ^^" } else { "   " })?;
    }
    text.push_str("\n")
}
