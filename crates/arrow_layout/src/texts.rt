//! Whether slots hold texts.
//!
//! The bytes of all slots are tested together. If they are ASCII, each slot is a text, wherever it
//! begins. If they are another text, a slot is a text exactly when it begins and ends between
//! characters: mostly all slots do, null or not, so this is tested first. If the bytes are not a
//! text, since null slots may contain any bytes, each slot is tested by itself.

ghost use Rattle.std.specs.Prelude.{◌≡◌, ◌↔◌, ◌-◌, ◌+◌, ◌≤◌, ◌<◌, length, slice_range, true};
ghost use Rattle.std.specs.Prelude.{IsTrue, IsUtf8, IsCharBoundary};
ghost use Rattle.std.specs.List.Sorted.{IsNonDecreasing};
ghost use Rattle.arrow_bits.specs.Offsets.{plain_list};
ghost use Rattle.arrow_layout.specs.Form.{offset_bytes};
ghost use Rattle.arrow_layout.specs.Layout.{HasStrings};
ghost use Rattle.arrow_layout.specs.Cuts.{AreCuts};
ghost use Rattle.arrow_layout.specs.Slots.{place_of, range_of, is_valid_at, AreTexts, HasOffsets};

use crate::offsets::OffsetBuffer;
use crate::slot::is_valid;
use crate::slot_buffers::StringBuffers;

/// Whether each valid slot of `len` is UTF-8.
pub(crate) fn are_slots_utf8(strings: StringBuffers<'_>, len: usize) -> bool
    requires { HasStrings strings.width len strings.validity.now strings.offsets.now
        strings.bytes.now }
    ensures { IsTrue result ↔ AreTexts strings.entry.width len strings.entry.validity.now
        strings.entry.offsets.now strings.entry.bytes.now }
{
    if len == 0 {
        return true;
    }
    let bytes = all_slots(strings, len);
    if bytes.is_ascii() {
        return true;
    }
    match simdutf8::basic::from_utf8(bytes) {
        Ok(text) => are_cuts(strings.ranges(len), text) || are_parts(strings, len, text),
        Err(_) => are_utf8_one_by_one(strings, len),
    }
}

/// The bytes of all slots, whether these are valid or not.
#[tactic(auto, using(crate::proofs::Cuts::offsets))]
fn all_slots(strings: StringBuffers<'_>, len: usize) -> &[u8]
    requires slots { 0 < len }
    requires rising { HasOffsets strings.width len (length strings.bytes.now)
        strings.offsets.now }
    ensures same { result.now ≡ slice_range strings.entry.bytes.now
        (place_of strings.entry.width strings.entry.offsets.now 0)
        (place_of strings.entry.width strings.entry.offsets.now len) }
    ensures inside { place_of strings.entry.width strings.entry.offsets.now len ≤ length
        strings.entry.bytes.now }
    ensures rising { IsNonDecreasing (plain_list (offset_bytes strings.entry.width) len
        strings.entry.offsets.now) }
{
    let (start, end) = strings.ranges(len).places_at(0, len);
    &strings.bytes[start..end]
}

/// Whether the text, which is the bytes of all slots, may be cut at the end of each slot. (A slot
/// begins where the one before ends.)
fn are_cuts(offsets: OffsetBuffer<'_>, text: &str) -> bool
    requires slots { 0 < offsets.len }
    requires rising { HasOffsets offsets.width offsets.len offsets.top offsets.bytes.now }
    ensures { IsTrue result ↔ AreCuts offsets.entry.width offsets.entry.len offsets.entry.bytes.now
        text.now }
{
    for j in 0..offsets.len {
        let (first, end) = offsets.places_at(0, j + 1);
        if !text.is_char_boundary(end - first) {
            return false;
        }
    }
    true
}

/// Whether each valid slot of `len` is UTF-8, if the bytes of all slots are the text.
fn are_parts(strings: StringBuffers<'_>, len: usize, text: &str) -> bool
    requires laid { HasStrings strings.width len strings.validity.now strings.offsets.now
        strings.bytes.now }
    requires inside { place_of strings.width strings.offsets.now len ≤ length strings.bytes.now }
    requires whole { text.now ≡ slice_range strings.bytes.now
        (place_of strings.width strings.offsets.now 0)
        (place_of strings.width strings.offsets.now len) }
    ensures { IsTrue result ↔ AreTexts strings.entry.width len strings.entry.validity.now
        strings.entry.offsets.now strings.entry.bytes.now }
{
    for j in 0..len {
        if !is_part(strings, len, text, j) {
            return false;
        }
    }
    true
}

/// Whether slot `j` is null or UTF-8, if the bytes of all slots are the text.
fn is_part(strings: StringBuffers<'_>, len: usize, text: &str, j: usize) -> bool
    requires slot { j < len }
    requires laid { HasStrings strings.width len strings.validity.now strings.offsets.now
        strings.bytes.now }
    requires inside { place_of strings.width strings.offsets.now len ≤ length strings.bytes.now }
    requires whole { text.now ≡ slice_range strings.bytes.now
        (place_of strings.width strings.offsets.now 0)
        (place_of strings.width strings.offsets.now len) }
    ensures { IsTrue result ↔ (is_valid_at strings.entry.validity.now j ≡ true
        → IsUtf8 (range_of strings.entry.width strings.entry.offsets.now strings.entry.bytes.now
        j)) }
{
    if !is_valid(strings.validity, j) {
        return true;
    }
    let (start, end) = places_of(strings.ranges(len), j);
    is_text(text, start, end)
}

/// Where slot `j` begins and ends in the bytes of all slots.
#[tactic(auto, using(crate::proofs::Cuts::offsets))]
fn places_of(offsets: OffsetBuffer<'_>, j: usize) -> (usize, usize)
    requires slot { j < offsets.len }
    requires rising { HasOffsets offsets.width offsets.len offsets.top offsets.bytes.now }
    ensures before { place_of offsets.entry.width offsets.entry.bytes.now 0
        ≤ place_of offsets.entry.width offsets.entry.bytes.now j }
    ensures order { place_of offsets.entry.width offsets.entry.bytes.now j
        ≤ place_of offsets.entry.width offsets.entry.bytes.now (j + 1) }
    ensures after { place_of offsets.entry.width offsets.entry.bytes.now (j + 1)
        ≤ place_of offsets.entry.width offsets.entry.bytes.now offsets.entry.len }
    ensures start { result.0 ≡ place_of offsets.entry.width offsets.entry.bytes.now j
        - place_of offsets.entry.width offsets.entry.bytes.now 0 }
    ensures stop { result.1 ≡ place_of offsets.entry.width offsets.entry.bytes.now (j + 1)
        - place_of offsets.entry.width offsets.entry.bytes.now 0 }
{
    let (first, start) = offsets.places_at(0, j);
    let (_, end) = offsets.places_at(j, j + 1);
    (start - first, end - first)
}

/// Whether the bytes from `start` up to `end` are UTF-8.
fn is_text(text: &str, start: usize, end: usize) -> bool
    requires order { start ≤ end }
    requires inside { end ≤ length text.now }
    ensures { IsTrue result ↔ IsUtf8 (slice_range text.now start end) }
{
    if start == end {
        return true;
    }
    is_cut(text, start, end)
}

/// Whether the text may be cut at both offsets.
fn is_cut(text: &str, start: usize, end: usize) -> bool
    ensures { IsTrue result ↔ IsCharBoundary text.now start × IsCharBoundary text.now end }
{
    text.is_char_boundary(start) && text.is_char_boundary(end)
}

/// Whether each valid slot of `len` is UTF-8, one after another.
fn are_utf8_one_by_one(strings: StringBuffers<'_>, len: usize) -> bool
    requires { HasStrings strings.width len strings.validity.now strings.offsets.now
        strings.bytes.now }
    ensures { IsTrue result ↔ AreTexts strings.entry.width len strings.entry.validity.now
        strings.entry.offsets.now strings.entry.bytes.now }
{
    for j in 0..len {
        let Some(text) = strings.binary_at(len, j) else {
            continue;
        };
        if std::str::from_utf8(text).is_err() {
            return false;
        }
    }
    true
}
