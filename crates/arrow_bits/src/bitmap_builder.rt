//! Bits that are written one by one.

ghost use Rattle.std.specs.Prelude.{◌≡◌, ◌==◌, ◌≤◌, ◌*◌, ◌∷◌, ◌++◌, [], length, OnOk, OnErr};
ghost use Rattle.arrow_bits.specs.Bitmap.{IsPacked, PutsBit};

use std::alloc::{AllocError, Global};
use std::marker::Model;

/// Puts a bit after the first `at` bits, overwriting a bit that is already there (Columnar Format,
/// "Validity bitmaps").
///
/// The only error is `AllocError`, and the bytes are then unchanged.
pub fn put_bit(bytes: &mut Vec<u8>, at: usize, bit: bool) -> Result<(), AllocError>
    requires { at ≤ 8 * length bytes.old.items }
    ensures ok { OnOk result (PutsBit at bit bytes.old.items bytes.new.items) }
    ensures err { OnErr result (bytes.new.items ≡ bytes.old.items) }
{
    let byte = at / 8;
    if byte == bytes.len() {
        bytes.push(u8::from(bit))?;
    } else if bit {
        bytes[byte] |= 1 << (at % 8);
    } else {
        bytes[byte] &= !(1 << (at % 8));
    }
    Ok(())
}

/// A list of bits that grows, packed eight to a byte from the least significant on (Columnar
/// Format, "Validity bitmaps").
///
/// The bytes are always as few as the bits need, and the unused bits of the last byte are 0.
#[derive(Debug, Drop)]
pub struct BitsBuilder {
    bytes: Vec<u8>,
    len: usize,
}

impl Model for BitsBuilder {
    ghost use Rattle.std.specs.Prelude.{Bool, List};
    ghost use Rattle.arrow_bits.specs.Bitmap.{bits_of, IsPacked};

    ghost Value = { List Bool };

    ghost view = { λ b. bits_of b.len b.bytes.items };

    ghost invariant = { λ b. IsPacked (bits_of b.len b.bytes.items) b.bytes.items };
}

#[tactic(auto, using(crate::proofs::Listed::length_bits))]
impl BitsBuilder {
    /// A list of no bits, whose bytes will come from this allocator. It allocates nothing yet.
    pub fn new(alloc: Global) -> BitsBuilder
        ensures { result ≡ [] }
    {
        BitsBuilder {
            bytes: Vec::new(alloc),
            len: 0,
        }
    }

    /// The number of bits.
    pub fn len(&self) -> usize
        ensures { result ≡ length self.now }
    {
        self.len
    }

    /// Whether there is no bit.
    pub fn is_empty(&self) -> bool
        ensures { result ≡ (length self.now == 0) }
    {
        self.len == 0
    }

    /// Appends a bit.
    ///
    /// The only error is `AllocError`, if an allocation failed (or the list holds `usize::MAX` bits
    /// already, more than any memory has), and the list is then as it was.
    pub fn push(&mut self, bit: bool) -> Result<(), AllocError>
        ensures ok { OnOk result (self.new ≡ self.old ++ bit ∷ []) }
        ensures err { OnErr result (self.new ≡ self.old) }
    {
        let len = self.len.checked_add(1).ok_or(AllocError)?;
        put_bit(&mut self.bytes, self.len, bit)?;
        self.len = len;
        Ok(())
    }

    /// The bytes that hold the bits, one for each eight and one for the remaining ones.
    pub fn as_bytes(&self) -> &[u8]
        ensures { IsPacked self.now result.now }
    {
        self.bytes.as_slice()
    }

    /// The same bytes as a list of their own. It allocates nothing.
    pub fn into_bytes(self) -> Vec<u8>
        ensures { IsPacked self result.items }
    {
        let BitsBuilder { bytes, .. } = self;
        bytes
    }
}
