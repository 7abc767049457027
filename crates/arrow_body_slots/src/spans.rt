//! Offsets in an array, for slots that are sent at once.

ghost use Rattle.std.specs.Prelude.{◌≡◌, ◌≤◌, ◌<◌, ◌+◌, ◌*◌, ◌/◌, ◌++◌, List, ℕ, IsTrue, OnOk};
ghost use Rattle.std.specs.Prelude.{drop, false, length};
ghost use Rattle.std.specs.List.{sum_by};
ghost use Rattle.arrow_bits.specs.Bitmap.{bit_of};
ghost use Rattle.arrow_data.specs.Column.{values_from};
ghost use Rattle.arrow_layout.specs.PlainValue.{PlainValue};
ghost use Rattle.arrow_body_slots.specs.Spans.{AreSpans, AreThere, PutsMoved, moved, place_in};

use arrow_bits::first_unset;
use arrow_layout::form::OffsetWidth;
use byteorder::{ByteOrder, LittleEndian};
use std::alloc::AllocError;

/// The offsets of a range of slots, as they are stored among those of an array.
#[derive(Clone, Copy)]
pub(crate) struct OffsetRun<'a> {
    pub(crate) width: OffsetWidth,
    pub(crate) offsets: &'a [u8],
    pub(crate) start: usize,
    pub(crate) stop: usize,
}

/// Adds `by` to each of the four-byte numbers, modulo 2^32.
fn move_small(numbers: &mut [u8], by: u32)
    ensures { numbers.new ≡ moved 4 by (length numbers.old / 4) numbers.old
        ++ drop (4 * (length numbers.old / 4)) numbers.old }
{
    let count = numbers.len() / 4;
    for k in 0..count {
        let number = LittleEndian::read_u32(&numbers[4 * k..]).wrapping_add(by);
        LittleEndian::write_u32(&mut numbers[4 * k..], number);
    }
}

/// Adds `by` to each of the eight-byte numbers, modulo 2^64.
fn move_large(numbers: &mut [u8], by: u64)
    ensures { numbers.new ≡ moved 8 by (length numbers.old / 8) numbers.old
        ++ drop (8 * (length numbers.old / 8)) numbers.old }
{
    let count = numbers.len() / 8;
    for k in 0..count {
        let number = LittleEndian::read_u64(&numbers[8 * k..]).wrapping_add(by);
        LittleEndian::write_u64(&mut numbers[8 * k..], number);
    }
}

/// Appends four-byte numbers, each increased by `by`, modulo 2^32.
fn put_small(out: &mut Vec<u8>, numbers: &[u8], by: u32) -> Result<(), AllocError>
    ensures { OnOk result ((n : ℕ) → length numbers.now ≡ 4 * n
        → out.new.items ≡ out.old.items ++ moved 4 by n numbers.now) }
{
    let at = out.len();
    out.extend_from_slice(numbers)?;
    if by != 0 {
        move_small(&mut out[at..], by);
    }
    Ok(())
}

/// Appends eight-byte numbers, each increased by `by`, modulo 2^64.
fn put_large(out: &mut Vec<u8>, numbers: &[u8], by: u64) -> Result<(), AllocError>
    ensures { OnOk result ((n : ℕ) → length numbers.now ≡ 8 * n
        → out.new.items ≡ out.old.items ++ moved 8 by n numbers.now) }
{
    let at = out.len();
    out.extend_from_slice(numbers)?;
    if by != 0 {
        move_large(&mut out[at..], by);
    }
    Ok(())
}

impl<'a> OffsetRun<'a> {
    /// Offset `j` of the array.
    pub(crate) fn at(self, j: usize) -> u64
        requires there { AreThere self }
        requires inside { j ≤ self.stop }
        ensures { result ≡ place_in self.entry j }
    {
        match self.width {
            OffsetWidth::Small => u64::from(LittleEndian::read_u32(&self.offsets[4 * j..])),
            OffsetWidth::Large => LittleEndian::read_u64(&self.offsets[8 * j..]),
        }
    }

    /// The difference of the last offset and the first.
    pub(crate) fn len(self) -> usize
        requires { AreThere self }
        ensures { (long : PlainValue → ℕ) (raw : List PlainValue) → AreSpans self.entry long raw
            → result ≡ sum_by long (values_from raw self.entry.start self.entry.stop) }
    {
        self.at(self.stop).wrapping_sub(self.at(self.start)) as usize
    }

    /// Whether nothing lies under the nulls among the slots, those whose bits are 0.
    pub(crate) fn hide_nothing(self, bits: &[u8]) -> bool
        requires there { AreThere self }
        requires bits { self.stop ≤ 8 * length bits.now }
        ensures { IsTrue result → (j : ℕ) → self.entry.start ≤ j → j < self.entry.stop
            → bit_of bits.now j ≡ false → place_in self.entry (j + 1) ≡ place_in self.entry j }
    {
        let mut i = first_unset(bits, self.start, self.stop);
        while i < self.stop {
            if self.at(i + 1) != self.at(i) {
                return false;
            }
            i = first_unset(bits, i + 1, self.stop);
        }
        true
    }

    /// Appends the offsets after the slots, each increased by the amount that takes the offset
    /// before them to `end`.
    pub(crate) fn put(self, out: &mut Vec<u8>, end: u64) -> Result<(), AllocError>
        requires { AreThere self }
        ensures { OnOk result (PutsMoved self.entry end out.old.items out.new.items) }
    {
        let (first, last) = (self.start + 1, self.stop + 1);
        let by = end.wrapping_sub(self.at(self.start));
        match self.width {
            OffsetWidth::Small => {
                let by = (by % 4_294_967_296) as u32;
                put_small(out, &self.offsets[4 * first..4 * last], by)
            }
            OffsetWidth::Large => put_large(out, &self.offsets[8 * first..8 * last], by),
        }
    }
}
