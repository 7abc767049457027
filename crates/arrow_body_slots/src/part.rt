//! The buffers of a node, and the width of what they hold.

ghost use Rattle.std.specs.Prelude.{◌≡◌, None, MatchOption};
ghost use Rattle.arrow_body_slots.specs.Part.{part_of};

use arrow_layout::form::{Form, ListForm, NumberForm, OffsetWidth};

/// One buffer of a node, by what it holds (Columnar Format, "Buffer Listing for Each Layout").
#[derive(Clone, Copy)]
pub enum BufferKind {
    /// A bit for each slot, 0 for a null one.
    Validity,
    /// The truth values.
    Truths,
    /// The numbers.
    Numbers(NumberForm),
    /// The offsets of byte strings or texts.
    StringOffsets(OffsetWidth),
    /// The offsets of lists.
    ListOffsets(OffsetWidth),
    /// The bytes of byte strings or texts.
    Strings,
    /// This many bytes for each slot.
    FixedBytes(u32),
}

/// Buffer `k` of a node of the form, None if it has no more than `k`.
pub fn part_of(form: Form, k: usize) -> Option<BufferKind>
    ensures { result ≡ part_of form k }
{
    match (form, k) {
        (Form::Nulls, _) => None,
        (_, 0) => Some(BufferKind::Validity),
        (Form::Bits, 1) => Some(BufferKind::Truths),
        (Form::Numbers(form), 1) => Some(BufferKind::Numbers(form)),
        (Form::Bytes(width) | Form::Texts(width), 1) => Some(BufferKind::StringOffsets(width)),
        (Form::Bytes(_) | Form::Texts(_), 2) => Some(BufferKind::Strings),
        (Form::FixedBytes(width), 1) => Some(BufferKind::FixedBytes(width)),
        (Form::Lists(ListForm::Offsets(width)), 1) => Some(BufferKind::ListOffsets(width)),
        (
            Form::Bits
            | Form::Numbers(_)
            | Form::Bytes(_)
            | Form::Texts(_)
            | Form::FixedBytes(_)
            | Form::Lists(_)
            | Form::Structs,
            _,
        ) => None,
    }
}
