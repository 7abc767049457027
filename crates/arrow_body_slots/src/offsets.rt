//! The offsets of byte strings, texts and lists, if nothing lies under a null.

ghost use Rattle.std.specs.Prelude.{◌≡◌, ◌≤◌, ◌<◌, ◌+◌, ◌*◌, List, IfSome, length, slice_range};
ghost use Rattle.std.specs.List.{flat_map};
ghost use Rattle.arrow_layout.specs.Form.{offset_bytes};
ghost use Rattle.arrow_layout.specs.PlainValue.{PlainValue};
ghost use Rattle.arrow_layout.specs.Slots.{HasBits};
ghost use Rattle.arrow_body_laws.specs.Raws.{bytes_in_value, items_in_value};
ghost use Rattle.arrow_body_slots.specs.Offsets.{AreBetween, AreHeld, AreOf, HasSpans};
ghost use Rattle.arrow_body_slots.specs.Slice.{IsSlice, values_in};

use crate::slice::ColumnSlice;
use crate::spans::OffsetRun;
use arrow_data::{Array, Buffers};
use arrow_layout::form::{ListForm, OffsetWidth};

/// The offsets of an array, and a bit for each slot, 0 for a null one: no bits if no slot is null.
#[derive(Clone, Copy)]
pub(crate) struct Offsets<'a> {
    pub(crate) width: OffsetWidth,
    pub(crate) validity: &'a [u8],
    pub(crate) bytes: &'a [u8],
}

impl<'a> Offsets<'a> {
    /// Offsets, with a bit for each slot.
    fn of(width: OffsetWidth, validity: &'a [u8], bytes: &'a [u8]) -> Offsets<'a>
        ensures { AreOf width validity.now bytes.now result }
    {
        Offsets {
            width,
            validity,
            bytes,
        }
    }

    /// The offsets of a range of slots, if nothing lies under the nulls of the range; None also if
    /// the range is empty.
    fn between(self, start: usize, stop: usize) -> Option<OffsetRun<'a>>
        requires order { start ≤ stop }
        requires there { start < stop
            → offset_bytes self.width * (stop + 1) ≤ length self.bytes.now }
        requires bits { HasBits stop self.validity.now }
        ensures { IfSome result (AreBetween self.entry start stop) }
    {
        if start == stop {
            return None;
        }
        let spans = OffsetRun {
            width: self.width,
            offsets: self.bytes,
            start,
            stop,
        };
        if self.validity.is_empty() || spans.hide_nothing(self.validity) {
            Some(spans)
        } else {
            None
        }
    }
}

/// The offsets of the array's byte strings or texts, and all their bytes. None if slots hold
/// something else.
fn strings_of(array: &Array) -> Option<(Offsets<'_>, &[u8])>
    ensures { IfSome result (λ r. AreHeld r.0 r.1.now bytes_in_value array.now.raw) }
{
    match array.buffers() {
        Buffers::Binaries(of) => Some((Offsets::of(of.width, of.validity, of.offsets), of.bytes)),
        Buffers::Texts(of) => Some((Offsets::of(of.width, of.validity, of.offsets), of.bytes)),
        _ => None,
    }
}

/// The offsets of the array's lists. None if slots hold something else, or if no offsets are stored
/// (Columnar Format, "Fixed-Size List Layout").
fn lists_of(array: &Array) -> Option<Offsets<'_>>
    ensures { IfSome result (λ offsets. (all : List PlainValue)
        × AreHeld offsets all (items_in_value 0) array.now.raw) }
{
    match array.buffers() {
        Buffers::Lists {
            form: ListForm::Offsets(width),
            validity,
            offsets,
            ..
        } => Some(Offsets::of(width, validity, offsets)),
        _ => None,
    }
}

/// The bytes from one offset up to another.
fn part(bytes: &[u8], first: u64, last: u64) -> &[u8]
    requires order { first ≤ last }
    requires inside { last ≤ length bytes.now }
    ensures { result.now ≡ slice_range bytes.now first last }
{
    &bytes[first as usize..last as usize]
}

/// The offsets of the byte strings or texts of a slice, and their bytes, if nothing lies under the
/// nulls of the slice. None also if there are no slots, or if they hold something else.
pub(crate) fn strings_between(slice: ColumnSlice<'_>) -> Option<(OffsetRun<'_>, &[u8])>
    requires { IsSlice slice }
    ensures spans { IfSome result (λ r.
        HasSpans slice.entry (λ v. length (bytes_in_value v)) r.0) }
    ensures bytes { IfSome result (λ r. r.1.now ≡ flat_map bytes_in_value (values_in slice.entry)) }
{
    let ColumnSlice { array, start, stop } = slice;
    let (offsets, bytes) = strings_of(array)?;
    let spans = offsets.between(start, stop)?;
    Some((spans, part(bytes, spans.at(start), spans.at(stop))))
}

/// The same for the lists of a slice.
pub(crate) fn lists_between(slice: ColumnSlice<'_>) -> Option<OffsetRun<'_>>
    requires { IsSlice slice }
    ensures { IfSome result (HasSpans slice.entry (λ v. length (items_in_value 0 v))) }
{
    let ColumnSlice { array, start, stop } = slice;
    let offsets = lists_of(array)?;
    offsets.between(start, stop)
}
