//! One slot of the buffers of a node, and its validity.

ghost use Rattle.std.specs.Prelude.{◌≡◌, ◌+◌, ◌*◌, ◌<◌, ◌≤◌, length, MatchOption};
ghost use Rattle.arrow_layout.specs.Slots.{IsFirstInvalid, is_valid_at, HasBits, bool_slot};
ghost use Rattle.arrow_layout.specs.Slots.{fixed_slot};
ghost use Rattle.arrow_layout.specs.PlainValue.{null_value, bool_value, binary_value};

use arrow_bits::{bit, first_unset};

/// Whether slot `i` is valid.
#[inline(always)]
pub fn is_valid(validity: &[u8], i: usize) -> bool
    requires { HasBits (i + 1) validity.now }
    ensures { result ≡ is_valid_at validity.now i }
{
    validity.is_empty() || bit(validity, i)
}

/// The first slot from `start` up to `stop` that is not valid, or `stop` if there is none.
pub fn first_invalid(validity: &[u8], start: usize, stop: usize) -> usize
    requires order { start ≤ stop }
    requires bits { HasBits stop validity.now }
    ensures { IsFirstInvalid validity.now start stop result }
{
    if validity.is_empty() {
        stop
    } else {
        first_unset(validity, start, stop)
    }
}

/// The truth value of slot `i`, if it is valid.
#[inline(always)]
pub fn bool_at(validity: &[u8], values: &[u8], i: usize) -> Option<bool>
    requires bits { HasBits (i + 1) validity.now }
    requires long { i < 8 * length values.now }
    ensures { MatchOption result (bool_slot validity.now values.now i ≡ null_value)
        (λ b. bool_slot validity.now values.now i ≡ bool_value b) }
{
    if is_valid(validity, i) {
        Some(bit(values, i))
    } else {
        None
    }
}

/// The bytes of slot `i`, if it is valid.
#[inline(always)]
pub fn fixed_at<'a>(validity: &[u8], values: &'a [u8], width: usize, i: usize) -> Option<&'a [u8]>
    requires bits { HasBits (i + 1) validity.now }
    requires long { width * i + width ≤ length values.now }
    ensures { MatchOption result (fixed_slot width validity.now values.now i ≡ null_value)
        (λ b. fixed_slot width validity.now values.now i ≡ binary_value b.now) }
{
    if is_valid(validity, i) {
        let start = width * i;
        Some(&values[start..start + width])
    } else {
        None
    }
}
