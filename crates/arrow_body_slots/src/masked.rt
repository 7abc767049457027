//! Numbers that have a validity bitmap, copied all at once.

ghost use Rattle.std.specs.Prelude.{◌≡◌, ◌≤◌, ◌<◌, ◌+◌, ◌-◌, ◌*◌, ◌++◌, List, ℕ, IfSome, OnOk};
ghost use Rattle.std.specs.Prelude.{drop, length, replicate, slice_index, slice_range, take};
ghost use Rattle.arrow_data.specs.Column.{values_from};
ghost use Rattle.arrow_layout.specs.PlainValue.{PlainValue};
ghost use Rattle.arrow_body_laws.specs.Stored.{number_buffer};
ghost use Rattle.arrow_body_slots.specs.Marks.{AreNumbered, HasNumbers};

use crate::bitmap::bitmap;
use arrow_bits::first_unset;
use arrow_data::{Array, Buffers};
use std::alloc::AllocError;

/// The number of bytes of each number, the bytes, and a bit for each slot, 0 for a null one.
#[derive(Clone, Copy)]
pub(crate) struct NullMasked<'a> {
    pub(crate) width: usize,
    pub(crate) values: &'a [u8],
    pub(crate) bits: &'a [u8],
}

/// The bytes of numbers, if these have this width.
fn of_width(own: usize, values: &[u8], width: usize) -> Option<&[u8]>
    ensures { IfSome result (λ found. (own ≡ width) × (found.now ≡ values.now)
        × ((k : ℕ) → slice_index values.now k < 256)) }
{
    if own == width { Some(values) } else { None }
}

/// The bytes of the array's numbers or indices, if these have this width.
pub(crate) fn values_of(array: &Array, width: usize) -> Option<&[u8]>
    ensures { IfSome result (λ values. AreNumbered width array.now.raw values.now) }
{
    match array.buffers() {
        Buffers::Numbers(of) => of_width(of.width, of.values, width),
        Buffers::Indices(of, _) => of_width(of.width, of.values, width),
        _ => None,
    }
}

/// The numbers or indices of the array, if they have this width and the array has a bitmap.
pub(crate) fn numbers_of(array: &Array, width: usize) -> Option<NullMasked<'_>>
    ensures width { IfSome result (λ n. n.width ≡ width) }
    ensures held { IfSome result (λ n. HasNumbers n array.now.raw) }
{
    let (bits, values) = (bitmap(array)?, values_of(array, width)?);
    Some(NullMasked {
        width,
        values,
        bits,
    })
}

/// Overwrites `width` bytes with zeros, from offset `at` on.
fn clear(bytes: &mut [u8], at: usize, width: usize)
    requires { at + width ≤ length bytes.old }
    ensures { bytes.new ≡ take at bytes.old
        ++ (replicate width 0 ++ drop (at + width) bytes.old) }
{
    bytes[at..at + width].fill(0);
}

impl<'a> NullMasked<'a> {
    /// Overwrites the number of each null slot of a range with 0; `numbers` are the numbers of that
    /// range.
    fn clear_nulls(self, numbers: &mut [u8], start: usize, stop: usize)
        requires order { start ≤ stop }
        requires bits { stop ≤ 8 * length self.bits.now }
        requires room { self.width * (stop - start) ≤ length numbers.old }
        ensures { (raw : List PlainValue) → HasNumbers self.entry raw → stop ≤ length raw
            → numbers.old ≡ slice_range self.entry.values.now
            (self.entry.width * start) (self.entry.width * stop)
            → numbers.new ≡ number_buffer self.entry.width (values_from raw start stop) }
    {
        let mut i = first_unset(self.bits, start, stop);
        while i < stop {
            clear(numbers, self.width * (i - start), self.width);
            i = first_unset(self.bits, i + 1, stop);
        }
    }

    /// Appends the numbers of a range of slots, 0 for a null one.
    pub(crate) fn put(self, out: &mut Vec<u8>, start: usize, stop: usize) -> Result<(), AllocError>
        requires order { start ≤ stop }
        requires bits { stop ≤ 8 * length self.bits.now }
        requires values { self.width * stop ≤ length self.values.now }
        ensures { OnOk result ((raw : List PlainValue) → HasNumbers self.entry raw
            → stop ≤ length raw → out.new.items ≡ out.old.items
            ++ number_buffer self.entry.width (values_from raw start stop)) }
    {
        let at = out.len();
        out.extend_from_slice(&self.values[self.width * start..self.width * stop])?;
        self.clear_nulls(&mut out[at..], start, stop);
        Ok(())
    }
}
