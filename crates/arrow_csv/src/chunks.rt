//! Search for the bytes of a field that need quotes: sixteen at a time, sixty-four in long fields.

ghost use Rattle.std.specs.Prelude.{◌≡◌, ◌+◌, ◌-◌, ◌≤◌, length, drop, map};
ghost use Rattle.std.specs.Bool.{OnTrue};
ghost use Rattle.std.specs.List.{position_or_len};
ghost use Rattle.std.specs.Simd.Lanes.{mask_l};
ghost use Rattle.csv.specs.Writing.{default_writer, needs_byte, needs_quotes};
ghost use Rattle.arrow_csv.specs.Chunks.{AreAllPlain, is_mark};

use std::simd::prelude::*;

/// Whether a byte of the field needs quotes.
pub(crate) fn calls_for_quotes(field: &[u8]) -> bool
    ensures { result ≡ needs_quotes default_writer field.now }
{
    if has_plain_chunks(field) {
        return false;
    }
    has_special(field)
}

/// Whether chunks of eight or sixteen bytes show that no byte needs quotes. For a field of less
/// than eight bytes they show nothing. The last chunk may begin inside the one before it.
#[inline(always)]
fn has_plain_chunks(field: &[u8]) -> bool
    ensures { OnTrue result (AreAllPlain field.now 0 (length field.now)) }
{
    let len = field.len();
    if len < 8 {
        false
    } else if len < 16 {
        are_eight_plain(field, 0) && are_eight_plain(field, len - 8)
    } else {
        has_plain_sixteens(field) && are_sixteen_plain(field, len - 16)
    }
}

/// The same for all consecutive chunks of sixteen bytes, up to the last one.
#[inline(always)]
fn has_plain_sixteens(field: &[u8]) -> bool
    requires { 16 ≤ length field.now }
    ensures { OnTrue result (AreAllPlain field.now 0 (length field.now - 16)) }
{
    let mut place = end_of_plain_blocks(field);
    while field.len() - place > 16 {
        if !are_sixteen_plain(field, place) {
            return false;
        }
        place += 16;
    }
    true
}

/// The end of the blocks of sixty-four bytes, from the first one on, in which no byte needs quotes.
#[inline(always)]
fn end_of_plain_blocks(field: &[u8]) -> usize
    ensures plain { AreAllPlain field.now 0 result }
    ensures inside { result ≤ length field.now }
{
    let mut place = 0;
    while field.len() - place >= 64 && are_sixty_four_plain(field, place) {
        place += 64;
    }
    place
}

/// Whether none of the sixty-four bytes from index `place` on needs quotes.
#[inline(always)]
fn are_sixty_four_plain(field: &[u8], place: usize) -> bool
    requires { place + 64 ≤ length field.now }
    ensures { OnTrue result (AreAllPlain field.now place (place + 64)) }
{
    are_sixteen_plain(field, place)
        & are_sixteen_plain(field, place + 16)
        & are_sixteen_plain(field, place + 32)
        & are_sixteen_plain(field, place + 48)
}

/// Whether none of the sixteen bytes from index `place` on needs quotes.
#[inline(always)]
fn are_sixteen_plain(field: &[u8], place: usize) -> bool
    requires { place + 16 ≤ length field.now }
    ensures { OnTrue result (AreAllPlain field.now place (place + 16)) }
{
    let chunk = u8x16::from_slice(&field[place..]);
    let commas = chunk.simd_eq(u8x16::splat(b',')).to_bitmask();
    let quotes = chunk.simd_eq(u8x16::splat(b'"')).to_bitmask();
    let returns = chunk.simd_eq(u8x16::splat(b'\r')).to_bitmask();
    let feeds = chunk.simd_eq(u8x16::splat(b'\n')).to_bitmask();
    (commas == 0) & (quotes == 0) & (returns == 0) & (feeds == 0)
}

/// Whether none of the eight bytes from index `place` on needs quotes.
#[inline(always)]
fn are_eight_plain(field: &[u8], place: usize) -> bool
    requires { place + 8 ≤ length field.now }
    ensures { OnTrue result (AreAllPlain field.now place (place + 8)) }
{
    let chunk = u8x8::from_slice(&field[place..]);
    let commas = chunk.simd_eq(u8x8::splat(b',')).to_bitmask();
    let quotes = chunk.simd_eq(u8x8::splat(b'"')).to_bitmask();
    let returns = chunk.simd_eq(u8x8::splat(b'\r')).to_bitmask();
    let feeds = chunk.simd_eq(u8x8::splat(b'\n')).to_bitmask();
    (commas == 0) & (quotes == 0) & (returns == 0) & (feeds == 0)
}

/// Whether a byte needs quotes around its field.
fn is_special(byte: u8) -> bool
    ensures { result ≡ needs_byte default_writer byte }
{
    byte == b',' || byte == b'"' || byte == b'\r' || byte == b'\n'
}

/// Whether a byte of the field needs quotes, byte by byte.
fn has_special(field: &[u8]) -> bool
    ensures { result ≡ needs_quotes default_writer field.now }
{
    for byte in field {
        if is_special(*byte) {
            return true;
        }
    }
    false
}

/// The index of the first double quote from index `from` on, or the end of the field.
pub(crate) fn quote_place(field: &[u8], from: usize) -> usize
    requires { from ≤ length field.now }
    ensures value { result ≡ from + position_or_len is_mark (drop from field.now) }
    ensures inside { result ≤ length field.now }
{
    let mut place = from;
    while field.len() - place >= 16 {
        let marks = marks_of_sixteen(u8x16::from_slice(&field[place..]));
        if marks != 0 {
            return place + marks.trailing_zeros() as usize;
        }
        place += 16;
    }
    quote_place_by_bytes(field, place)
}

/// The same byte by byte.
fn quote_place_by_bytes(field: &[u8], from: usize) -> usize
    requires { from ≤ length field.now }
    ensures value { result ≡ from + position_or_len is_mark (drop from field.now) }
    ensures inside { result ≤ length field.now }
{
    let mut place = from;
    while place < field.len() && field[place] != b'"' {
        place += 1;
    }
    place
}

/// The bits of the lanes that are double quotes.
#[inline(always)]
fn marks_of_sixteen(chunk: u8x16) -> u64
    ensures { result ≡ mask_l (map is_mark chunk) }
{
    chunk.simd_eq(u8x16::splat(b'"')).to_bitmask()
}
