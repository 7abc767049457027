//! Bits that are appended one by one, eight to a byte.

ghost use Rattle.std.specs.Prelude.{◌≡◌, ℕ, Bool, List, [], ◌∷◌, ◌++◌, length, OnOk};
ghost use Rattle.arrow_body_slots.specs.Marks.{IsBitRange, bits_in};
ghost use Rattle.arrow_body_slots.specs.Packing.{IsPacking};
ghost use Rattle.arrow_body_laws.specs.Packed.{number_of_bits, packed};

use arrow_bits::bit;
use std::alloc::AllocError;

/// The bits of bytes from one index up to another.
#[derive(Clone, Copy)]
pub struct BitRange<'a> {
    pub bytes: &'a [u8],
    pub start: usize,
    pub stop: usize,
}

/// The bits of a byte that is not full yet, the first being the least significant, and the weight of
/// the next bit (Columnar Format, "Validity bitmaps").
#[derive(Clone, Copy)]
pub(crate) struct BitPacker {
    pub(crate) byte: u8,
    pub(crate) weight: u8,
}

impl BitPacker {
    /// No bit.
    pub(crate) fn new() -> BitPacker
        ensures kept { (result.byte ≡ 0) × (result.weight ≡ 1) }
        ensures none { (before : List ℕ) → IsPacking before [] result.byte result.weight before }
    {
        BitPacker { byte: 0, weight: 1 }
    }

    /// Adds a bit, and appends the byte if it becomes full.
    pub(crate) fn push(&mut self, out: &mut Vec<u8>, bit: bool) -> Result<(), AllocError>
        ensures { OnOk result ((before : List ℕ) (bits : List Bool)
            → IsPacking before bits self.old.byte self.old.weight out.old.items
            → IsPacking before (bits ++ bit ∷ []) self.new.byte self.new.weight out.new.items) }
    {
        let byte = if bit {
            self.byte.wrapping_add(self.weight)
        } else {
            self.byte
        };
        if self.weight == 128 {
            out.push(byte)?;
            *self = BitPacker::new();
        } else {
            self.byte = byte;
            self.weight = self.weight.wrapping_mul(2);
        }
        Ok(())
    }

    /// Adds eight bits, and appends the byte that they fill.
    fn push_byte(&mut self, out: &mut Vec<u8>, bits: u8) -> Result<(), AllocError>
        ensures { OnOk result ((before : List ℕ) (was more : List Bool)
            → length more ≡ 8 → number_of_bits more ≡ bits
            → IsPacking before was self.old.byte self.old.weight out.old.items
            → IsPacking before (was ++ more) self.new.byte self.new.weight out.new.items) }
    {
        let all = u16::from(self.byte) + u16::from(bits) * u16::from(self.weight);
        out.push((all % 256) as u8)?;
        self.byte = (all / 256) as u8;
        Ok(())
    }

    /// Adds bits of bytes, one by one.
    fn push_each(&mut self, out: &mut Vec<u8>, bits: BitRange<'_>) -> Result<(), AllocError>
        requires { IsBitRange bits }
        ensures { OnOk result ((before : List ℕ) (was : List Bool)
            → IsPacking before was self.old.byte self.old.weight out.old.items
            → IsPacking before (was ++ bits_in bits.entry)
            self.new.byte self.new.weight out.new.items) }
    {
        for i in bits.start..bits.stop {
            self.push(out, bit(bits.bytes, i))?;
        }
        Ok(())
    }

    /// Adds bits of bytes: those of full bytes eight at once.
    pub(crate) fn push_range(
        &mut self,
        out: &mut Vec<u8>,
        bits: BitRange<'_>,
    ) -> Result<(), AllocError>
        requires { IsBitRange bits }
        ensures { OnOk result ((before : List ℕ) (was : List Bool)
            → IsPacking before was self.old.byte self.old.weight out.old.items
            → IsPacking before (was ++ bits_in bits.entry)
            self.new.byte self.new.weight out.new.items) }
    {
        let BitRange { bytes, start, stop } = bits;
        let (first, last) = (start.div_ceil(8), stop / 8);
        if last < first {
            return self.push_each(out, bits);
        }
        let before = BitRange {
            bytes,
            start,
            stop: 8 * first,
        };
        self.push_each(out, before)?;
        for i in first..last {
            self.push_byte(out, bytes[i])?;
        }
        let after = BitRange {
            bytes,
            start: 8 * last,
            stop,
        };
        self.push_each(out, after)
    }

    /// Appends the byte that is not full, if it has bits.
    pub(crate) fn finish(self, out: &mut Vec<u8>) -> Result<(), AllocError>
        ensures { OnOk result ((before : List ℕ) (bits : List Bool)
            → IsPacking before bits self.byte self.weight out.old.items
            → out.new.items ≡ before ++ packed bits) }
    {
        if self.weight != 1 {
            out.push(self.byte)?;
        }
        Ok(())
    }
}
