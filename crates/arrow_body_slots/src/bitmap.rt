//! The validity bitmap of an array, and ranges of its bits.

ghost use Rattle.std.specs.Prelude.{◌≡◌, ◌≤◌, ◌*◌, ℕ, IfSome, count_by, length, map, not};
ghost use Rattle.std.specs.Prelude.{option_map};
ghost use Rattle.arrow_bits.specs.Bitmap.{bits_of};
ghost use Rattle.arrow_data.specs.Column.{HasField};
ghost use Rattle.arrow_layout.specs.PlainValue.{field_value};
ghost use Rattle.arrow_body_slots.specs.Marks.{AreMarked, AreMasked, IsBitRange, bits_in};
ghost use Rattle.arrow_body_slots.specs.Marks.{validity_of};

use crate::packing::BitRange;
use crate::slice::is_full;
use arrow_bits::Bits;
use arrow_data::{Array, Buffers};

/// The validity buffer, None for a column of the Null layout, in which all is null.
fn validity_of(buffers: Buffers<'_>) -> Option<&[u8]>
    ensures { option_map (λ bits. bits.now) result ≡ validity_of buffers.entry }
{
    match buffers {
        Buffers::Nulls => None,
        Buffers::Bools { validity, .. } => Some(validity),
        Buffers::Numbers(of) | Buffers::Indices(of, _) => Some(of.validity),
        Buffers::Binaries(of) | Buffers::Texts(of) => Some(of.validity),
        Buffers::FixedBytes { validity, .. } => Some(validity),
        Buffers::Lists { validity, .. } => Some(validity),
        Buffers::Structs { validity, .. } => Some(validity),
    }
}

/// The validity bitmap of the array, None if it has none.
pub(crate) fn bitmap(array: &Array) -> Option<&[u8]>
    ensures { IfSome result (λ bits. AreMarked array.now.raw bits.now) }
{
    let bits = validity_of(array.buffers())?;
    if bits.is_empty() { None } else { Some(bits) }
}

/// The bitmap of structs, if a child of theirs has no null of its own: then a null is sent in place
/// of the child's slot exactly if the struct is null (Columnar Format, "Struct Layout").
pub fn bitmap_above<'a>(structs: &'a Array, child: &Array) -> Option<&'a [u8]>
    ensures { IfSome result (λ bits. (k : ℕ) → HasField structs.now k child.now
        → AreMasked child.now.raw (map (field_value k) structs.now.raw) bits.now) }
{
    if is_full(child) {
        bitmap(structs)
    } else {
        None
    }
}

/// The number of zero bits among the first bits of the bytes.
fn zeros_of(bytes: &[u8], len: usize) -> usize
    requires { len ≤ 8 * length bytes.now }
    ensures { result ≡ count_by not (bits_of len bytes.now) }
{
    match Bits::new(bytes, len) {
        Some(bits) => bits.count_zero(),
        None => 0,
    }
}

/// The number of zero bits in a range.
pub(crate) fn zeros(bits: BitRange<'_>) -> usize
    requires { IsBitRange bits }
    ensures { result ≡ count_by not (bits_in bits.entry) }
{
    let first = bits.start / 8;
    let bytes = &bits.bytes[first..];
    zeros_of(bytes, bits.stop - 8 * first) - zeros_of(bytes, bits.start % 8)
}
