//! Bits in bytes: a single bit, and a list of the first bits.

ghost use Rattle.std.specs.Prelude.{◌≡◌, ◌+◌, ◌*◌, ◌^◌, ◌≤◌, ◌<◌, ◌↔◌, ◌==◌, ℕ, length, slice_get};
ghost use Rattle.std.specs.Prelude.{IfSome, IsSome, Some, count_by, not, true, false};
ghost use Rattle.arrow_bits.specs.Bitmap.{bit_of, bits_of, ones_of, IsFirstUnset};

use crate::numbers::u64_at;
use std::marker::Model;

/// Bit `j` of the bytes: bit `j % 8`, counted from the least significant, of byte `j / 8`.
///
/// That is the numbering of validity bitmaps and of truth values (Columnar Format, "Validity
/// bitmaps").
///
/// Condition: the byte lies inside the slice, as for an index. A column tests once, when it is
/// made, that its bitmaps have a bit for each slot, and then reads only bits of slots. If nothing
/// was tested, [`Bits::new`] is the test.
#[tactic(auto, unfolding(crate::specs::Bitmap::bit_of))]
pub fn bit(bytes: &[u8], j: usize) -> bool
    requires { j < 8 * length bytes.now }
    ensures { result ≡ bit_of bytes.now j }
{
    (bytes[j / 8] >> (j % 8)) % 2 == 1
}

/// The first of the bits from bit `start` on that is 0, or `stop` if each one before `stop` is 1.
///
/// Bits are numbered as by [`bit`]. In a validity bitmap it is the first null of some slots, and
/// the end of a run of valid ones. The time grows with the number of bytes up to the result, of
/// which eight are read at once.
///
/// Condition: the range is valid, and the bytes have its bits, as for a range of a slice. If
/// nothing was tested, [`Bits::new`] is the test.
pub fn first_unset(bytes: &[u8], start: usize, stop: usize) -> usize
    requires order { start ≤ stop }
    requires inside { stop ≤ 8 * length bytes.now }
    ensures { IsFirstUnset bytes.now start stop result }
{
    let mut i = start;
    while i < stop {
        let ones = ones_from(bytes, i);
        if ones == 0 {
            return i;
        }
        if ones >= stop - i {
            return stop;
        }
        i += ones;
    }
    stop
}

/// The number of consecutive bits from bit `j` on that are 1, counted at most up to the end of the
/// eight bytes that begin with the byte of bit `j`, or up to the end of that byte if eight are not
/// there.
fn ones_from(bytes: &[u8], j: usize) -> usize
    requires { j < 8 * length bytes.now }
    ensures set { (i : ℕ) → j ≤ i → i < j + result → bit_of bytes.now i ≡ true }
    ensures none { result ≡ 0 → bit_of bytes.now j ≡ false }
{
    let byte = j / 8;
    let ones = if bytes.len() - byte >= 8 {
        (u64_at(bytes, byte) >> (j % 8)).trailing_ones()
    } else {
        (bytes[byte] >> (j % 8)).trailing_ones()
    };
    ones as usize
}

/// The first bits of a slice of bytes, as a list of truth values.
///
/// Bit 0 is the least significant of the first byte (Columnar Format, "Validity bitmaps"). The
/// bytes are borrowed and are not copied. Bits after the last, and bytes after that, may hold
/// anything.
#[derive(Debug, Drop)]
pub struct Bits<'a> {
    bytes: &'a [u8],
    len: usize,
}

impl<'a> Model for Bits<'a> {
    ghost use Rattle.std.specs.Prelude.{◌*◌, ◌≤◌, Bool, List, length};
    ghost use Rattle.arrow_bits.specs.Bitmap.{bits_of};

    ghost Value = { List Bool };

    ghost view = { λ b. bits_of b.len b.bytes.now };

    ghost invariant = { λ b. b.len ≤ 8 * length b.bytes.now };
}

#[tactic(auto, using(crate::proofs::Listed::bit_lists))]
impl<'a> Bits<'a> {
    /// The first `len` bits of the bytes, or None if the bytes have fewer bits than that.
    pub fn new(bytes: &'a [u8], len: usize) -> Option<Bits<'a>>
        ensures found { IsSome result ↔ (len ≤ 8 * length bytes.now) }
        ensures value { IfSome result (λ b. b ≡ bits_of len bytes.now) }
    {
        if len.div_ceil(8) <= bytes.len() {
            Some(Bits { bytes, len })
        } else {
            None
        }
    }

    /// The number of bits.
    pub fn len(&self) -> usize
        ensures { result ≡ length self.now }
    {
        self.len
    }

    /// Whether there is no bit.
    pub fn is_empty(&self) -> bool
        ensures { result ≡ (length self.now == 0) }
    {
        self.len == 0
    }

    /// Bit `i`, counted from 0. It has to be one of the list.
    pub fn get(&self, i: usize) -> bool
        requires { i < length self.now }
        ensures { slice_get self.now i ≡ Some result }
    {
        bit(self.bytes, i)
    }

    /// The number of bits that are 0: the number of nulls, for a validity bitmap.
    ///
    /// The time grows with the number of bytes, of which eight are counted at once.
    pub fn count_zero(&self) -> usize
        ensures { result ≡ count_by not self.now }
    {
        self.len - count_ones(self.bytes, self.len)
    }
}

/// How many of the first bits are set: those of full words of 64 bits, of the full bytes after them,
/// and of the byte that is left.
fn count_ones(bytes: &[u8], len: usize) -> usize
    requires { len ≤ 8 * length bytes.now }
    ensures { result ≡ ones_of len bytes.now }
{
    let mut ones = count_ones_in_words(bytes, len / 64);
    for i in len / 64 * 8..len / 8 {
        ones += bytes[i].count_ones() as usize;
    }
    let rest = len % 8;
    if rest > 0 {
        ones += (bytes[len / 8] % (1 << rest)).count_ones() as usize;
    }
    ones
}

/// How many bits of the first words of 64 bits are set.
fn count_ones_in_words(bytes: &[u8], words: usize) -> usize
    requires inside { 8 * words ≤ length bytes.now }
    requires few { 64 * words < 2 ^ 64 }
    ensures { result ≡ ones_of (64 * words) bytes.now }
{
    let mut ones = 0;
    for i in 0..words {
        ones += u64_at(bytes, 8 * i).count_ones() as usize;
    }
    ones
}
