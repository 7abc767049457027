//! Streams that are made of parts of others, with other bytes at some offsets.

use crate::streams::{GROWING, ONE_BATCH};
use std::alloc::Global;

/// A stream from which parts are taken.
#[derive(Clone, Copy)]
pub enum Source {
    /// The growing dictionary.
    Growing,
    /// The one batch of numbers.
    OneBatch,
    /// Other bytes.
    Bytes(&'static [u8]),
}

impl Source {
    /// Its bytes.
    pub fn bytes(self) -> &'static [u8] {
        match self {
            Source::Growing => &GROWING,
            Source::OneBatch => &ONE_BATCH,
            Source::Bytes(bytes) => bytes,
        }
    }
}

/// A part of a stream: its start and its end as byte offsets.
pub type Part = (Source, usize, usize);

/// Other bytes from an offset on.
pub type Edit = (usize, &'static [u8]);

/// The schema of numbers.
pub const NUMBERS: Part = (Source::OneBatch, 0, 152);

/// The batch of three numbers.
pub const THREE: Part = (Source::OneBatch, 152, 328);

/// An end marker.
pub const END: Part = (Source::OneBatch, 328, 336);

/// The schema of letters.
pub const LETTERS: Part = (Source::Growing, 0, 200);

/// The dictionary of `a` to `c`.
pub const ABC: Part = (Source::Growing, 200, 424);

/// The batch of these.
pub const FIRST: Part = (Source::Growing, 424, 592);

/// The delta of `d` and `e`.
pub const DE: Part = (Source::Growing, 592, 816);

/// The parts, one after the other, with these bytes changed: None if one of them does not lie in
/// its stream, or if an allocation fails.
pub fn joined(alloc: Global, parts: &[Part], edits: &[Edit]) -> Option<Vec<u8>> {
    let mut bytes = Vec::new(alloc);
    for (source, start, end) in parts {
        bytes
            .extend_from_slice(source.bytes().get(*start..*end)?)
            .ok()?;
    }
    for (place, new) in edits {
        overwrite(&mut bytes, *place, new)?;
    }
    Some(bytes)
}

/// Overwrites the bytes at an offset with others: None if they would not lie in the stream.
fn overwrite(bytes: &mut [u8], place: usize, new: &[u8]) -> Option<()> {
    let end = place.checked_add(new.len())?;
    let old = bytes.get_mut(place..end)?;
    for (old, byte) in old.iter_mut().zip(new.iter()) {
        *old = *byte;
    }
    Some(())
}
