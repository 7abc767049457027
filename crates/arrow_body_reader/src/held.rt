//! Buffers in a body.

ghost use Rattle.std.specs.Prelude.{◌≡◌, ◌≤◌, ◌<◌, MatchOption, length, take};
ghost use Rattle.std.specs.List.{AllByRecursion};
ghost use Rattle.arrow_layout.specs.Form.{list_buffers};
ghost use Rattle.arrow_layout.specs.Layout.{buffer, list_offsets};
ghost use Rattle.arrow_layout.specs.ByteRanges.{bytes_of, IsInside};
ghost use Rattle.arrow_body_reader.specs.Held.{AreRangesOf, IsHeld, bytes_in};
ghost use Rattle.arrow_body_reader.specs.Place.{buffers_in};

use arrow_layout::ByteRange;
use arrow_layout::form::ListForm;
use arrow_types::Buffer;

/// Where a buffer lies, None if it is not inside the body.
#[inline(always)]
pub(crate) fn held(body: &[u8], buffer: Buffer) -> Option<ByteRange>
    ensures { MatchOption result (IsHeld body.now buffer → ⊥)
        (λ r. IsHeld body.now buffer × IsInside body.now r
        × (bytes_of body.now r ≡ bytes_in body.now buffer)) }
{
    if buffer.length == 0 {
        return Some(ByteRange::EMPTY);
    }
    if buffer.length < 0 || buffer.offset < 0 {
        return None;
    }
    let start = buffer.offset as usize;
    let end = start.checked_add(buffer.length as usize)?;
    if end > body.len() {
        return None;
    }
    Some(ByteRange { start, end })
}

/// Where the first `own` buffers lie, at most three, None if one does not lie inside the body.
#[inline(always)]
pub(crate) fn own_ranges(body: &[u8], buffers: &[Buffer], own: usize) -> Option<[ByteRange; 3]>
    requires most { own ≤ 3 }
    requires there { own ≤ length buffers.now }
    ensures { MatchOption result (AllByRecursion (IsHeld body.now) (take own buffers.now) → ⊥)
        (λ r. AreRangesOf body.now (take own buffers.now) (take own r)) }
{
    match own {
        0 => Some([ByteRange::EMPTY, ByteRange::EMPTY, ByteRange::EMPTY]),
        1 => {
            let first = held(body, buffers[0])?;
            Some([first, ByteRange::EMPTY, ByteRange::EMPTY])
        }
        2 => {
            let first = held(body, buffers[0])?;
            let second = held(body, buffers[1])?;
            Some([first, second, ByteRange::EMPTY])
        }
        // three, the remaining number
        _ => {
            let first = held(body, buffers[0])?;
            let second = held(body, buffers[1])?;
            Some([first, second, held(body, buffers[2])?])
        }
    }
}

/// Ranges of a body.
#[derive(Clone, Copy)]
pub(crate) struct BufferRanges<'a> {
    pub(crate) body: &'a [u8],
    pub(crate) ranges: &'a [ByteRange],
}

impl<'a> BufferRanges<'a> {
    /// The bytes of range `k`.
    #[inline(always)]
    pub(crate) fn bytes(self, k: usize) -> &'a [u8]
        requires there { k < length self.ranges.now }
        requires inside { AllByRecursion (IsInside self.body.now) self.ranges.now }
        ensures { result.now ≡ buffer (buffers_in self.entry) k }
    {
        &self.body[self.ranges[k].start..self.ranges[k].end]
    }

    /// The offsets of a node of lists, empty if none are stored.
    #[inline(always)]
    pub(crate) fn offsets(self, form: ListForm) -> &'a [u8]
        requires there { list_buffers form ≤ length self.ranges.now }
        requires inside { AllByRecursion (IsInside self.body.now) self.ranges.now }
        ensures { result.now ≡ list_offsets form (buffers_in self.entry) }
    {
        match form {
            ListForm::Offsets(_) => self.bytes(1),
            ListForm::Fixed(_) => &[],
        }
    }
}
