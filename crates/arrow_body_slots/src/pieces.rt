//! The contents of a buffer for slots, if the array already stores them in that form.

ghost use Rattle.std.specs.Prelude.{IfSome};
ghost use Rattle.arrow_body_slots.specs.Runs.{IsPiece};
ghost use Rattle.arrow_body_slots.specs.Slice.{IsFull, IsSlice, values_in};

use crate::offsets::{lists_between, strings_between};
use crate::part::BufferKind;
use crate::slice::ColumnSlice;
use crate::slots::{fixed, numbers};
use crate::spans::OffsetRun;

/// The contents of a buffer for consecutive slots.
#[derive(Clone, Copy)]
pub(crate) enum SlotRun<'a> {
    /// These bytes.
    Bytes(&'a [u8]),
    /// The offsets after the slots, which continue from the last offset already in the buffer.
    Offsets(OffsetRun<'a>),
}

/// The contents of the buffer for the byte strings, texts or lists of a slice, if nothing lies under
/// the nulls of the slice; None also if there are no slots, or slots of another kind.
pub(crate) fn spanned(part: BufferKind, slice: ColumnSlice<'_>) -> Option<SlotRun<'_>>
    requires { IsSlice slice }
    ensures { IfSome result (IsPiece part (values_in slice.entry)) }
{
    match part {
        BufferKind::StringOffsets(width) => match strings_between(slice) {
            Some((spans, _)) if spans.width == width => Some(SlotRun::Offsets(spans)),
            Some(_) | None => None,
        },
        BufferKind::ListOffsets(width) => match lists_between(slice) {
            Some(spans) if spans.width == width => Some(SlotRun::Offsets(spans)),
            Some(_) | None => None,
        },
        BufferKind::Strings => match strings_between(slice) {
            Some((_, bytes)) => Some(SlotRun::Bytes(bytes)),
            None => None,
        },
        _ => None,
    }
}

/// The contents of the buffer for the slots, of which none is null; None if the array does not store
/// them in that form.
pub(crate) fn pieces(part: BufferKind, slice: ColumnSlice<'_>) -> Option<SlotRun<'_>>
    requires slots { IsSlice slice }
    requires full { IsFull slice }
    ensures { IfSome result (IsPiece part (values_in slice.entry)) }
{
    match part {
        BufferKind::Numbers(form) => match numbers(slice, form) {
            Some(bytes) => Some(SlotRun::Bytes(bytes)),
            None => None,
        },
        BufferKind::FixedBytes(width) => match fixed(slice, width) {
            Some(bytes) => Some(SlotRun::Bytes(bytes)),
            None => None,
        },
        BufferKind::Strings | BufferKind::StringOffsets(_) | BufferKind::ListOffsets(_) => spanned(
            part, slice,
        ),
        BufferKind::Validity | BufferKind::Truths => None,
    }
}
