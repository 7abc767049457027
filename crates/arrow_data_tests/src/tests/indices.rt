//! Indices of each width and sign, by themselves.

ghost use Rattle.std.specs.Prelude.{◌≡◌};
ghost use Rattle.arrow_bits.specs.Numbers.{IsWidth};
ghost use Rattle.arrow_layout.specs.Slots.{index_width};

use super::making::{column, dictionary, listed};
use super::reported::shows;
use arrow_layout::NumberBuffers;
use arrow_layout::form::{Form, NumberForm, node_form};
use arrow_layout::layout::{are_indices, has_fixed};
use arrow_test_fields::fields_of;
use arrow_types::BitWidth::{self, Eight, Sixteen, SixtyFour, ThirtyTwo};
use arrow_types::{Field, IndexType};
use std::process::Abort;

/// The width of an index, whether it is signed, the index, how many values there are, and whether it
/// refers to one.
static INDICES: [(BitWidth, bool, i128, usize, bool); 30] = [
    (Eight, false, 0, 1, true),
    (Eight, false, 0, 0, false),
    (Eight, false, 199, 200, true),
    (Eight, false, 200, 200, false),
    (Eight, false, 255, 256, true),
    (Eight, true, -57, 200, false),
    (Eight, true, 127, 200, true),
    (Eight, true, 127, 127, false),
    (Eight, true, -1, 256, false),
    (Sixteen, false, 65_535, 65_536, true),
    (Sixteen, false, 65_535, 65_535, false),
    (Sixteen, false, 256, 256, false),
    (Sixteen, true, -32_768, 65_536, false),
    (Sixteen, true, 32_767, 32_768, true),
    (Sixteen, true, 32_767, 32_767, false),
    (ThirtyTwo, false, 0x8000_0000, 0x8000_0001, true),
    (ThirtyTwo, false, 0x8000_0000, 0x8000_0000, false),
    (ThirtyTwo, false, 0xffff_ffff, 0x1_0000_0000, true),
    (ThirtyTwo, true, -0x8000_0000, 0x8000_0001, false),
    (ThirtyTwo, true, 0x7fff_ffff, 0x8000_0000, true),
    (ThirtyTwo, true, 0x7fff_ffff, 0x7fff_ffff, false),
    (ThirtyTwo, true, 65_536, 65_536, false),
    (SixtyFour, false, 0x1_0000_0000, 0x1_0000_0001, true),
    (SixtyFour, false, 0x1_0000_0000, 0x1_0000_0000, false),
    (SixtyFour, false, 0x8000_0000_0000_0000, usize::MAX, true),
    (SixtyFour, false, 0xffff_ffff_ffff_ffff, usize::MAX, false),
    (SixtyFour, true, 0x1_0000_0000, 0x1_0000_0001, true),
    (SixtyFour, true, 0x1_0000_0000, 0x1_0000_0000, false),
    (SixtyFour, true, -0x8000_0000_0000_0000, usize::MAX, false),
    (SixtyFour, true, -1, usize::MAX, false),
];

/// The number of bytes of an index.
fn index_width(index: IndexType) -> usize
    ensures same { result ≡ index_width index }
    ensures whole { IsWidth result }
{
    (index.bits.bits() / 8) as usize
}

/// Asserts that all of `len` indices refer to a value, or that one does not.
fn all_lead(
    rt: &impl Abort,
    index: IndexType,
    (len, validity, bytes): (usize, &[u8], &[u8]),
    count: usize,
    expected: bool,
) {
    let width = index_width(index);
    assert!(rt; has_fixed(len, width, validity, bytes));
    let indices = NumberBuffers {
        width,
        signed: index.signed,
        validity,
        values: bytes,
    };
    let lead = are_indices(len, indices, count);
    assert_eq!(rt; lead, expected, "{index:?} {bytes:?} of {count}");
}

/// Bits of 130 slots that are all valid except the last.
static LAST_NULL: [u8; 17] = [
    255, 255, 255, 255, 255, 255, 255, 255, 255, 255, 255, 255, 255, 255, 255, 255, 1,
];

/// The index after 129 indices that are 0 and refer to the first value, if there is one.
fn after_zeros(rt: &(impl Abort + AllocGlobal), bytes: &[u8]) -> Vec<u8> {
    let mut all = Vec::new(rt.alloc());
    all.resize(bytes.len().wrapping_mul(129), 0)
        .expect(rt, "memory");
    all.extend_from_slice(bytes).expect(rt, "memory");
    all
}

/// Asserts whether the index refers to a value, by itself and as the last of 130, without a bitmap
/// and with one; a null index is always accepted.
fn leads(
    rt: &(impl Abort + AllocGlobal),
    index: IndexType,
    bytes: &[u8],
    count: usize,
    expected: bool,
) {
    for (validity, expected) in [(&[] as &[u8], expected), (&[1], expected), (&[0], true)] {
        all_lead(rt, index, (1, validity, bytes), count, expected);
    }
    let all = after_zeros(rt, bytes);
    for (validity, expected) in [
        (&[] as &[u8], expected),
        (&[255; 17], expected),
        (&LAST_NULL, count > 0),
    ] {
        all_lead(rt, index, (130, validity, &all), count, expected);
    }
}

#[test]
fn an_index_by_its_width_and_sign(rt: HostRuntime) {
    for &(bits, signed, number, count, expected) in &INDICES {
        let index = IndexType { bits, signed };
        let bytes = number.to_le_bytes();
        let width = index_width(index);
        leads(&rt, index, &bytes[..width], count, expected);
    }
}

/// An index of 8 bits into 300 nulls, signed or unsigned, and what it shows.
static SIGNS: [(&str, &str); 4] = [
    ("by:0:uint8 null; 1; / 200", "1: 200=null | 300 values of 0"),
    ("by:0:uint8 null; 1; / 100", "1: 100=null | 300 values of 0"),
    ("by:0:int8 null; 1; / 100", "1: 100=null | 300 values of 0"),
    ("by:0:int8 null; 1; / 200", "no column"),
];

#[test]
fn an_index_is_shown_with_its_sign(rt: HostRuntime) {
    for (text, expected) in &SIGNS {
        let listed = listed(&rt, dictionary(&rt, &["null; 300"]));
        shows(&rt, text, &column(&rt, text, &listed), expected);
    }
}

/// Fields of indices, and the form of their nodes: that of the numbers.
static FORMS: [(&str, BitWidth, bool); 8] = [
    ("by:0:int8 utf8", Eight, true),
    ("by:0:uint8 utf8", Eight, false),
    ("by:0:int16 utf8", Sixteen, true),
    ("by:0:uint16 utf8", Sixteen, false),
    ("by:0:int32 utf8", ThirtyTwo, true),
    ("by:0:uint32 utf8", ThirtyTwo, false),
    ("by:0:int64 utf8", SixtyFour, true),
    ("by:0:uint64 utf8", SixtyFour, false),
];

fn has_form(rt: &impl Abort, name: &str, fields: &[Field], expected: Form) {
    for field in fields {
        let form = node_form(&field.data_type, field.dictionary);
        assert_eq!(rt; form, expected, "{name}");
    }
}

#[test]
fn a_node_of_indices_has_their_form(rt: HostRuntime) {
    for &(words, bits, signed) in &FORMS {
        has_form(
            &rt,
            words,
            &fields_of(rt.alloc(), words).expect(&rt, "fields"),
            Form::Numbers(NumberForm::Int { bits, signed }),
        );
    }
}
