//! A buffer under construction in the body, slot by slot.

ghost use Rattle.std.specs.Prelude.{◌≡◌, ◌<◌, ◌≤◌, ◌+◌, ◌++◌, [], ◌∷◌, List, ℕ, IfOk, IsFalse};
ghost use Rattle.std.specs.Prelude.{IsTrue, OnOk};
ghost use Rattle.std.specs.Prelude.{length, replicate};
ghost use Rattle.std.specs.List.{AllByRecursion};
ghost use Rattle.arrow_bits.specs.Numbers.{number_bytes};
ghost use Rattle.arrow_data.specs.Column.{values_from};
ghost use Rattle.arrow_layout.specs.Form.{greatest_offset, offset_bytes};
ghost use Rattle.arrow_layout.specs.PlainValue.{PlainValue, null_value, value_at};
ghost use Rattle.arrow_body_laws.specs.Raws.{fixed_in};
ghost use Rattle.arrow_body_slots.specs.Marks.{AreMasked, IsBitRange};
ghost use Rattle.arrow_body_slots.specs.Part.{AreOffsetsTo, HasNextOffset, HasRoom};
ghost use Rattle.arrow_body_slots.specs.Part.{IsRepresentable};
ghost use Rattle.arrow_body_slots.specs.Part.{IsWritten, Puts, part_bytes};
ghost use Rattle.arrow_body_slots.specs.Runs.{IsPiece, IsThere};
ghost use Rattle.arrow_body_slots.specs.Slice.{IsFull, IsSlice, values_in};
ghost use Rattle.arrow_body_slots.specs.Spans.{AreSpans, AreThere};

use crate::bitmap::bitmap;
use crate::masked::{NullMasked, numbers_of, values_of};
use crate::packing::{BitPacker, BitRange};
use crate::part::BufferKind;
use crate::pieces::{SlotRun, pieces, spanned};
use crate::slice::ColumnSlice;
use crate::slots::{put_number, put_string, span, string, truth};
use crate::spans::OffsetRun;
use arrow_bits::{put_int, put_zeros};
use arrow_data::Array;
use arrow_layout::form::OffsetWidth;
use std::alloc::AllocError;

/// The bytes so far; for a buffer of bits the bits of its last byte, for a buffer of offsets the
/// last offset.
#[derive(Drop)]
pub struct Writing {
    pub(crate) out: Vec<u8>,
    pub(crate) pending: BitPacker,
    pub(crate) end: u64,
}

/// Appends bytes.
fn put_bytes(out: &mut Vec<u8>, bytes: &[u8]) -> Result<(), AllocError>
    ensures { OnOk result (out.new.items ≡ out.old.items ++ bytes.now) }
{
    out.extend_from_slice(bytes)
}

/// Appends the bytes of the slot's byte string, which is of this width, zero bytes under a null.
pub(crate) fn put_fixed(
    out: &mut Vec<u8>,
    width: u32,
    array: &Array,
    i: usize,
) -> Result<(), AllocError>
    requires { i < length array.now.raw }
    ensures { OnOk result (out.new.items
        ≡ out.old.items ++ fixed_in width (value_at array.now.raw i)) }
{
    match array.bytes_at(i) {
        Some(bytes) => out.extend_from_slice(bytes),
        None => put_zeros(out, width as usize),
    }
}

/// The end that is kept after the next offset: `end` plus `len`, capped at the greatest offset of
/// the width.
fn next_end(width: OffsetWidth, end: u64, len: usize) -> u64
    ensures known { result ≤ greatest_offset width }
    ensures same { end + len ≤ greatest_offset width → result ≡ end + len }
{
    let greatest = width.greatest();
    let next = end.saturating_add(len as u64);
    if next < greatest { next } else { greatest }
}

/// Appends an offset.
fn put_offset(out: &mut Vec<u8>, width: OffsetWidth, offset: u64) -> Result<(), AllocError>
    requires { offset ≤ greatest_offset width }
    ensures { OnOk result (out.new.items
        ≡ out.old.items ++ number_bytes (offset_bytes width) offset) }
{
    put_int(out, width.bytes(), i128::from(offset))
}

impl Writing {
    /// A buffer that begins after these bytes: the first of the offsets is 0.
    pub fn begin(mut out: Vec<u8>, part: BufferKind) -> Result<Writing, AllocError>
        ensures { IfOk result (λ writing. IsWritten part out.items [] writing) }
    {
        match part {
            BufferKind::StringOffsets(width) | BufferKind::ListOffsets(width) => {
                put_offset(&mut out, width, 0)?;
            }
            _ => {}
        }
        Ok(Writing {
            out,
            pending: BitPacker::new(),
            end: 0,
        })
    }

    /// Appends the next offset, the last one plus `len`.
    fn put_end(&mut self, width: OffsetWidth, len: usize) -> Result<(), AllocError>
        ensures { OnOk result (HasNextOffset width len self.old self.new) }
    {
        self.end = next_end(width, self.end, len);
        put_offset(&mut self.out, width, self.end)
    }

    /// Adds the contents of the buffer for the slot.
    pub(crate) fn put(
        &mut self,
        part: BufferKind,
        array: &Array,
        i: usize,
    ) -> Result<(), AllocError>
        requires inside { i < length array.now.raw }
        requires room { HasRoom part (value_at array.now.raw i) }
        ensures { OnOk result (Puts part (value_at array.now.raw i ∷ []) self.old self.new) }
    {
        match part {
            BufferKind::Validity => self.pending.push(&mut self.out, !array.is_null(i)),
            BufferKind::Truths => self.pending.push(&mut self.out, truth(array, i)),
            BufferKind::Numbers(form) => put_number(&mut self.out, form.width(), array, i),
            BufferKind::StringOffsets(width) => self.put_end(width, string(array, i).len()),
            BufferKind::ListOffsets(width) => self.put_end(width, span(array, i)),
            BufferKind::Strings => put_string(&mut self.out, array, i),
            BufferKind::FixedBytes(width) => put_fixed(&mut self.out, width, array, i),
        }
    }

    /// Adds the contents of the buffer for a null.
    pub fn put_null(&mut self, part: BufferKind) -> Result<(), AllocError>
        ensures { OnOk result (Puts part (null_value ∷ []) self.old self.new) }
    {
        match part {
            BufferKind::Validity | BufferKind::Truths => self.pending.push(&mut self.out, false),
            BufferKind::Numbers(form) => put_int(&mut self.out, form.width(), 0),
            BufferKind::StringOffsets(width) | BufferKind::ListOffsets(width) => self.put_end(
                width, 0,
            ),
            BufferKind::Strings => Ok(()),
            BufferKind::FixedBytes(width) => put_zeros(&mut self.out, width as usize),
        }
    }

    /// The bytes, with the last byte of a buffer of bits.
    pub fn finish(mut self, part: BufferKind) -> Result<Vec<u8>, AllocError>
        ensures { IfOk result (λ out. (before : List ℕ) (vs : List PlainValue)
            → IsWritten part before vs self → IsRepresentable part vs
            → out.items ≡ before ++ part_bytes part vs) }
    {
        match part {
            BufferKind::Validity | BufferKind::Truths => self.pending.finish(&mut self.out)?,
            _ => {}
        }
        Ok(self.out)
    }

    /// Adds the offsets after slots, with the same differences as in the array.
    fn put_spans(&mut self, spans: OffsetRun<'_>) -> Result<(), AllocError>
        requires { AreThere spans }
        ensures { OnOk result ((long : PlainValue → ℕ) (raw : List PlainValue)
            → AreSpans spans.entry long raw → (before : List ℕ) (vs : List PlainValue)
            → AreOffsetsTo spans.entry.width long before vs self.old
            → AreOffsetsTo spans.entry.width long before
            (vs ++ values_from raw spans.entry.start spans.entry.stop) self.new) }
    {
        spans.put(&mut self.out, self.end)?;
        self.end = next_end(spans.width, self.end, spans.len());
        Ok(())
    }

    /// Adds the contents of the buffer for slots with these values, all at once.
    fn put_piece(&mut self, part: BufferKind, piece: SlotRun<'_>) -> Result<(), AllocError>
        requires { IsThere piece }
        ensures { OnOk result ((values : List PlainValue) → IsPiece part values piece.entry
            → Puts part values self.old self.new) }
    {
        match piece {
            SlotRun::Bytes(bytes) => put_bytes(&mut self.out, bytes),
            SlotRun::Offsets(spans) => self.put_spans(spans),
        }
    }

    /// Adds the contents of the buffer for the slots, one by one.
    fn put_each(&mut self, part: BufferKind, slice: ColumnSlice<'_>) -> Result<(), AllocError>
        requires slots { IsSlice slice }
        requires room { AllByRecursion (HasRoom part) (values_in slice) }
        ensures { OnOk result (Puts part (values_in slice.entry) self.old self.new) }
    {
        for i in slice.start..slice.stop {
            self.put(part, slice.array, i)?;
        }
        Ok(())
    }

    /// Adds the contents of the buffer for the slots, of which none is null: they are copied if the
    /// array stores them as they are to be written.
    fn put_full(&mut self, part: BufferKind, slice: ColumnSlice<'_>) -> Result<(), AllocError>
        requires slots { IsSlice slice }
        requires full { IsFull slice }
        requires room { AllByRecursion (HasRoom part) (values_in slice) }
        ensures { OnOk result (Puts part (values_in slice.entry) self.old self.new) }
    {
        match pieces(part, slice) {
            Some(piece) => self.put_piece(part, piece),
            None => self.put_each(part, slice),
        }
    }

    /// Adds the contents of the buffer for the slots up to the first null, including that one, and
    /// returns the index of the next one.
    fn put_run(&mut self, part: BufferKind, slice: ColumnSlice<'_>) -> Result<usize, AllocError>
        requires slots { IsSlice slice }
        requires some { slice.start < slice.stop }
        requires room { AllByRecursion (HasRoom part) (values_in slice) }
        ensures next { IfOk result (λ next. (slice.entry.start < next) × (next ≤ slice.entry.stop)) }
        ensures written { IfOk result (λ next. Puts part
            (values_from slice.entry.array.now.raw slice.entry.start next) self.old self.new) }
    {
        let ColumnSlice { array, start, stop } = slice;
        let end = array.first_null(start, stop);
        let full = ColumnSlice {
            array,
            start,
            stop: end,
        };
        self.put_full(part, full)?;
        if end < stop {
            self.put_null(part)?;
            Ok(end + 1)
        } else {
            Ok(end)
        }
    }

    /// Adds the contents of the buffer for slots of the array, where the slots whose bit is 0 are
    /// null: the bits themselves, or numbers. Returns whether it did; other buffers are unchanged.
    pub fn put_masked(
        &mut self,
        part: BufferKind,
        array: &Array,
        bits: BitRange<'_>,
    ) -> Result<bool, AllocError>
        requires bits { IsBitRange bits }
        requires slots { bits.stop ≤ length array.now.raw }
        ensures added { IfOk result (λ done. IsTrue done → (raw : List PlainValue)
            → AreMasked array.now.raw raw bits.entry.bytes.now → bits.entry.stop ≤ length raw
            → Puts part (values_from raw bits.entry.start bits.entry.stop) self.old self.new) }
        ensures kept { IfOk result (λ done. IsFalse done → self.new ≡ self.old) }
    {
        let BitRange { bytes, start, stop } = bits;
        match part {
            BufferKind::Validity => self.pending.push_range(&mut self.out, bits)?,
            BufferKind::Numbers(form) => {
                let width = form.width();
                let Some(values) = values_of(array, width) else {
                    return Ok(false);
                };
                let numbers = NullMasked {
                    width,
                    values,
                    bits: bytes,
                };
                numbers.put(&mut self.out, start, stop)?;
            }
            _ => return Ok(false),
        }
        Ok(true)
    }

    /// Adds the contents of the buffer for the slots. If they have a bitmap, its bits are copied,
    /// and all bytes of numbers are copied, with those of nulls cleared. Offsets and the bytes
    /// between them are copied if nothing lies under a null. Everything else is added run by run.
    pub fn put_slots(&mut self, part: BufferKind, slice: ColumnSlice<'_>) -> Result<(), AllocError>
        requires slots { IsSlice slice }
        requires room { AllByRecursion (HasRoom part) (values_in slice) }
        ensures { OnOk result (Puts part (values_in slice.entry) self.old self.new) }
    {
        let ColumnSlice { array, start, stop } = slice;
        match part {
            BufferKind::Validity => {
                if let Some(bytes) = bitmap(array) {
                    let bits = BitRange { bytes, start, stop };
                    return self.pending.push_range(&mut self.out, bits);
                }
            }
            BufferKind::Numbers(form) => {
                if let Some(numbers) = numbers_of(array, form.width()) {
                    return numbers.put(&mut self.out, start, stop);
                }
            }
            BufferKind::StringOffsets(_) | BufferKind::ListOffsets(_) | BufferKind::Strings => {
                if let Some(piece) = spanned(part, slice) {
                    return self.put_piece(part, piece);
                }
            }
            BufferKind::Truths | BufferKind::FixedBytes(_) => {}
        }
        let mut i = start;
        while i < stop {
            let rest = ColumnSlice {
                array,
                start: i,
                stop,
            };
            i = self.put_run(part, rest)?;
        }
        Ok(())
    }
}
