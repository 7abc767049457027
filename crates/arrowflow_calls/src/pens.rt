//! Texts that are put into the caller's output buffer piece by piece.

ghost use Rattle.std.specs.Prelude.{◌≡◌, ◌<◌, ◌^◌, length};
ghost use Rattle.arrowflow_calls.specs.Pens.{Puts};

use crate::texts::fill;

/// Where the next piece goes in an output buffer.
#[derive(Clone, Copy)]
pub(crate) struct TextPen {
    /// How many bytes were put so far, whether they fit or not, at most 2^64 - 1.
    at: usize,
    /// How many of them belong to the current text.
    pub(crate) size: u64,
}

impl TextPen {
    /// At the beginning of an output buffer.
    pub(crate) fn new() -> TextPen
        ensures { result ≡ record { at = 0; size = 0 } }
    {
        TextPen { at: 0, size: 0 }
    }

    /// At the same offset, for a new text.
    pub(crate) fn next(self) -> TextPen
        ensures { result ≡ record { at = self.at; size = 0 } }
    {
        TextPen { size: 0, ..self }
    }

    /// Puts a piece of the text into the output buffer, as much of its beginning as fits.
    pub(crate) fn put(self, room: &mut [u8], piece: &[u8]) -> TextPen
        ensures puts { Puts room.old self piece.now result room.new }
        ensures fits { length room.old < 2 ^ 64 }
    {
        let at = self.at.min(room.len());
        let count = fill(&mut room[at..], piece);
        TextPen {
            at: self.at.saturating_add(piece.len()),
            size: self.size.saturating_add(count),
        }
    }
}
