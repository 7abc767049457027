//! Texts that are put into the caller's output buffer.

ghost use Rattle.std.specs.Prelude.{◌≡◌, length};
ghost use Rattle.arrowflow_calls.specs.Texts.{bare_text, filled, text_reported};

use crate::kinds::{kind_of, place_of};
use arrowflow_input::ToolFault;

/// What is reported of a text that a call gave, and how the call ended.
#[repr(C)]
#[derive(Clone, Copy)]
pub struct TextC {
    /// 0 if all was given, 1 to 18 for a fault of the stream, 19 if an allocation failed, 20 if
    /// limits are above their ceilings, from 30 on if the writer rejected the stream: 30 and more
    /// the schema, 40 and more a batch, 50 and more the end marker.
    pub kind: u32,
    /// The place of the message at fault in bytes from the stream's beginning, or the number of the
    /// rejected batch.
    pub place: u64,
    /// How many bytes the text has, whether they fit into the output buffer or not.
    pub size: u64,
}

impl TextC {
    /// An empty text, with only this kind.
    pub fn bare(kind: u32) -> TextC
        ensures { result ≡ bare_text kind }
    {
        TextC {
            kind,
            place: 0,
            size: 0,
        }
    }

    /// Puts the text of a call that ended like this into the output buffer, as much of its
    /// beginning as fits.
    pub fn given(answer: &Result<(), ToolFault>, text: &[u8], room: &mut [u8]) -> TextC
        ensures stated { result ≡ text_reported answer.now (length text.now) }
        ensures filled { room.new ≡ filled room.old text.now }
    {
        let size = fill(room, text);
        match answer {
            Ok(()) => TextC {
                size,
                ..TextC::bare(0)
            },
            Err(fault) => TextC {
                kind: kind_of(fault),
                place: place_of(fault),
                size,
            },
        }
    }
}

/// Puts the beginning of a text into the output buffer, as much of it as fits, and returns the
/// text's length.
pub fn fill(room: &mut [u8], text: &[u8]) -> u64
    ensures count { result ≡ length text.now }
    ensures filled { room.new ≡ filled room.old text.now }
{
    let size = text.len().min(room.len());
    room[..size].copy_from_slice(&text[..size]);
    text.len() as u64
}
