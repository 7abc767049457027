//! Integers of a fixed width.

ghost use Rattle.std.specs.Prelude.{◌≡◌, ◌+◌, ◌*◌, ◌≤◌, ◌++◌, Bool, length, replicate, OnOk, OnErr};
ghost use Rattle.arrow_bits.specs.Numbers.{number_at, signed_at, int_of, int_bytes};
ghost use Rattle.arrow_bits.specs.Numbers.{IsWidth, IsAnyWidth, IsIntWidth, FitsInt, FitsWidth};

use byteorder::{ByteOrder, LittleEndian};
use std::alloc::AllocError;

/// The integer in slot `i` of a buffer of integers of `width` bytes each.
///
/// Slots are counted from 0, and slot `i` is the bytes from `width * i` up to `width * (i + 1)`,
/// the least significant first (Columnar Format, "Fixed-size Primitive Layout"). `width` is 1, 2, 4
/// or 8, or 16 if `signed` holds. If it holds the bytes are read as two's complement, else as an
/// unsigned number. The slot has to lie inside the bytes. No call fails, and none allocates.
pub fn int_at(bytes: &[u8], width: usize, signed: bool, i: usize) -> i128
    requires width { IsIntWidth width signed }
    requires inside { width * i + width ≤ length bytes.now }
    ensures { result ≡ int_of bytes.now (width * i) width signed }
{
    let place = width * i;
    if signed {
        read_signed(bytes, width, place)
    } else {
        i128::from(read_unsigned(bytes, width, place))
    }
}

/// The number of the two bytes at offset `place`.
fn u16_at(bytes: &[u8], place: usize) -> u16
    requires { place + 2 ≤ length bytes.now }
    ensures { result ≡ number_at bytes.now place 2 }
{
    LittleEndian::read_u16(&bytes[place..])
}

/// The number of the four bytes at offset `place`.
pub(crate) fn u32_at(bytes: &[u8], place: usize) -> u32
    requires { place + 4 ≤ length bytes.now }
    ensures { result ≡ number_at bytes.now place 4 }
{
    LittleEndian::read_u32(&bytes[place..])
}

/// The number of the eight bytes at offset `place`.
pub(crate) fn u64_at(bytes: &[u8], place: usize) -> u64
    requires { place + 8 ≤ length bytes.now }
    ensures { result ≡ number_at bytes.now place 8 }
{
    LittleEndian::read_u64(&bytes[place..])
}

/// The number of the sixteen bytes at offset `place`.
fn u128_at(bytes: &[u8], place: usize) -> u128
    requires { place + 16 ≤ length bytes.now }
    ensures { result ≡ number_at bytes.now place 16 }
{
    LittleEndian::read_u128(&bytes[place..])
}

/// The number of the `width` bytes at offset `place`.
pub(crate) fn read_unsigned(bytes: &[u8], width: usize, place: usize) -> u64
    requires width { IsWidth width }
    requires inside { place + width ≤ length bytes.now }
    ensures { result ≡ number_at bytes.now place width }
{
    match width {
        1 => u64::from(bytes[place]),
        2 => u64::from(u16_at(bytes, place)),
        4 => u64::from(u32_at(bytes, place)),
        // 8, the remaining width
        _ => u64_at(bytes, place),
    }
}

/// The signed number of the `width` bytes at offset `place`.
fn read_signed(bytes: &[u8], width: usize, place: usize) -> i128
    requires width { IsAnyWidth width }
    requires inside { place + width ≤ length bytes.now }
    ensures { result ≡ signed_at bytes.now place width }
{
    match width {
        1 => i128::from(bytes[place].cast_signed()),
        2 => i128::from(u16_at(bytes, place).cast_signed()),
        4 => i128::from(u32_at(bytes, place).cast_signed()),
        8 => i128::from(u64_at(bytes, place).cast_signed()),
        // 16, the remaining width
        _ => u128_at(bytes, place).cast_signed(),
    }
}

/// Appends an integer of `width` bytes, the least significant first.
///
/// `width` is 1, 2, 4, 8 or 16. The value has to lie in the range of the signed or of the unsigned
/// integers of this width; a negative one is written as two's complement, so that `int_at` reads
/// the value again, as signed or unsigned, whichever it fits. The only error is `AllocError`, if an
/// allocation failed, and the list is then as it was.
pub fn put_int(out: &mut Vec<u8>, width: usize, value: i128) -> Result<(), AllocError>
    requires width { IsAnyWidth width }
    requires fits { FitsWidth width value }
    ensures bytes { OnOk result (out.new.items ≡ out.old.items ++ int_bytes width value) }
    ensures reads { OnOk result ((signed : Bool) → FitsInt width signed value →
        int_of out.new.items (length out.old.items) width signed ≡ value) }
    ensures err { OnErr result (out.new.items ≡ out.old.items) }
{
    if width == 16 {
        out.extend_from_slice(&value.cast_unsigned().to_le_bytes())
    } else {
        put_narrow(out, width, value)
    }
}

/// The same for at most 64 bits, which are faster to split into bytes than 128.
fn put_narrow(out: &mut Vec<u8>, width: usize, value: i128) -> Result<(), AllocError>
    requires width { IsWidth width }
    requires fits { FitsWidth width value }
    ensures bytes { OnOk result (out.new.items ≡ out.old.items ++ int_bytes width value) }
    ensures err { OnErr result (out.new.items ≡ out.old.items) }
{
    let number = if value < 0 {
        (value as i64).cast_unsigned()
    } else {
        value as u64
    };
    out.extend_from_slice(&number.to_le_bytes()[..width])
}

/// Appends this many zero bytes.
///
/// The only error is `AllocError`, and the list is then as it was.
pub fn put_zeros(out: &mut Vec<u8>, count: usize) -> Result<(), AllocError>
    ensures ok { OnOk result (out.new.items ≡ out.old.items ++ replicate count 0) }
    ensures err { OnErr result (out.new.items ≡ out.old.items) }
{
    let end = out.len().checked_add(count).ok_or(AllocError)?;
    out.resize(end, 0)
}
