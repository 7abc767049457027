use arrow_bits::{
    Bits, BitsBuilder, LargeOffsets, Offsets, are_at_most, first_unset, int_at, plain, put_bit,
    put_int, put_zeros,
};
use std::process::Abort;

/// Bytes, how many bits are requested, and how many of those are 0 and which they are, if the bytes
/// have that many.
static BITS: [(&[u8], usize, Option<(usize, &str)>); 5] = [
    (&[5], 3, Some((1, "101"))),
    (&[5], 8, Some((6, "10100000"))),
    (&[5], 9, None),
    (&[5], usize::MAX, None),
    (&[], 0, Some((0, ""))),
];

fn are_listed(bits: &Bits<'_>, expected: &[u8]) -> bool {
    for i in 0..bits.len() {
        if expected.get(i) != Some(if bits.get(i) { &b'1' } else { &b'0' }) {
            return false;
        }
    }
    bits.len() == expected.len() && bits.is_empty() == expected.is_empty()
}

/// Whether the first `len` bits of the bytes are these, or there are none if none are expected.
fn are_bits(bytes: &[u8], len: usize, expected: Option<(usize, &str)>) -> bool {
    match (Bits::new(bytes, len), expected) {
        (Some(bits), Some((zeros, listed))) => {
            bits.count_zero() == zeros && are_listed(&bits, listed.as_bytes())
        }
        (found, _) => found.is_none() && expected.is_none(),
    }
}

#[test]
fn bits_of_a_byte(rt: HostRuntime) {
    for (row, (bytes, len, expected)) in BITS.iter().enumerate() {
        assert!(rt; are_bits(bytes, *len, *expected), "number {row}");
    }
}

/// `A5` has bits 0, 2, 5 and 7 set.
static BYTES: [u8; 200] = [0xa5; 200];

/// How many of the first `len` bits are 0, if the bytes have that many.
fn zeros(bytes: &[u8], len: usize) -> Option<usize> {
    match Bits::new(bytes, len) {
        Some(bits) => Some(bits.count_zero()),
        None => None,
    }
}

/// The same for no more bytes than the bits need.
fn zeros_alone(bytes: &[u8], len: usize) -> Option<usize> {
    match bytes.get(..len.div_ceil(8)) {
        Some(part) => zeros(part, len),
        None => None,
    }
}

#[test]
fn zeros_of_each_length(rt: HostRuntime) {
    let mut position = 0usize;
    for len in 0..1601usize {
        assert_eq!(rt; zeros(&BYTES, len), Some(position), "of {len} bits");
        assert_eq!(rt;
            zeros_alone(&BYTES, len),
            Some(position),
            "of {len} bits alone"
        );
        if len <= BYTES.len() {
            assert_eq!(rt; plain::count_zero(&BYTES, len), position, "of {len} bits");
        }
        if let 1 | 3 | 4 | 6 = len % 8 {
            position = position.wrapping_add(1);
        }
    }
}

/// The first bit from `start` on that is 0, if the bytes have the bits up to `stop`.
fn unset_in(bytes: &[u8], start: usize, stop: usize) -> Option<usize> {
    if start <= stop && stop.div_ceil(8) <= bytes.len() {
        Some(first_unset(bytes, start, stop))
    } else {
        None
    }
}

/// A start, an end, and the first bit of `A5`s between them that is 0.
static UNSET: [(usize, usize, usize); 10] = [
    (0, 0, 0),
    (0, 1, 1),
    (0, 1600, 1),
    (1, 1600, 1),
    (2, 1600, 3),
    (4, 1600, 4),
    (5, 1600, 6),
    (7, 8, 8),
    (7, 1600, 9),
    (1599, 1600, 1600),
];

/// Indices of bits around the boundaries of bytes and of words, in 144 bits.
static EDGES: [usize; 16] = [
    0, 1, 7, 8, 9, 62, 63, 64, 65, 71, 72, 127, 128, 129, 143, 144,
];

/// Eighteen bytes of ones, except for the bit at an index, if they have it.
fn ones_but(zero: usize) -> [u8; 18] {
    let mut bytes = [0xff; 18];
    if let Some(byte) = bytes.get_mut(zero / 8) {
        *byte = !(1 << (zero % 8));
    }
    bytes
}

/// The result is the zero if it lies in the range, else the end of the range.
fn assert_zero_found(rt: &impl Abort, zero: usize, start: usize) {
    let bytes = ones_but(zero);
    for stop in EDGES.iter().filter(|stop| start <= **stop) {
        let is_inside = start <= zero && zero < *stop;
        let expected = if is_inside { zero } else { *stop };
        let found = unset_in(&bytes, start, *stop);
        assert_eq!(rt; found, Some(expected), "{zero} from {start} to {stop}");
    }
}

#[test]
fn first_bit_that_is_0(rt: HostRuntime) {
    for (start, stop, expected) in UNSET.iter() {
        let found = unset_in(&BYTES, *start, *stop);
        assert_eq!(rt; found, Some(*expected), "from {start} to {stop}");
    }
    for zero in EDGES.iter() {
        for start in EDGES.iter() {
            assert_zero_found(&rt, *zero, *start);
        }
    }
    assert!(rt; unset_in(&[0x7f], 0, 8) == Some(7));
    assert!(rt; unset_in(&[0xff; 8], 3, 64) == Some(64));
    assert!(rt; unset_in(&[], 0, 0) == Some(0));
}

/// Bits, the bytes that they are packed into, and how many are 0.
static PACKED: [(&str, &[u8], usize); 3] = [
    ("", &[], 0),
    ("1", &[1], 0),
    ("10010010010010010010", &[0x49, 0x92, 0x04], 13),
];

fn built(rt: &(impl Abort + AllocGlobal), bits: &str) -> BitsBuilder {
    let mut builder = BitsBuilder::new(rt.alloc());
    for (j, bit) in bits.as_bytes().iter().enumerate() {
        assert!(rt; builder.len() == j, "{j} bits");
        builder.push(*bit == b'1').expect(rt, "memory");
    }
    builder
}

fn assert_packed(rt: &(impl Abort + AllocGlobal), bits: &str, bytes: &[u8], zeros: usize) {
    let builder = built(rt, bits);
    assert!(rt; builder.is_empty() == bits.is_empty());
    assert!(rt; builder.as_bytes() == bytes);
    let packed = builder.into_bytes();
    assert!(rt; are_bits(&packed, bits.len(), Some((zeros, bits))));
}

/// An index, a bit that is put there into the bytes A5 and 0F, and the bytes then.
static PUT: [(usize, bool, &[u8]); 7] = [
    (0, false, &[0xa4, 0x0f]),
    (1, true, &[0xa7, 0x0f]),
    (7, true, &[0xa5, 0x0f]),
    (8, false, &[0xa5, 0x0e]),
    (15, true, &[0xa5, 0x8f]),
    (16, true, &[0xa5, 0x0f, 1]),
    (16, false, &[0xa5, 0x0f, 0]),
];

#[test]
fn bits_are_put_over_others(rt: HostRuntime) {
    for (at, bit, expected) in PUT.iter() {
        let mut bytes = Vec::from_slice(rt.alloc(), &[0xa5, 0x0f]).expect(&rt, "memory");
        assert!(rt; *at <= 8 * bytes.len());
        put_bit(&mut bytes, *at, *bit).expect(&rt, "memory");
        assert!(rt; bytes.as_slice() == *expected, "bit {at}");
    }
}

#[test]
fn zero_bytes_are_appended(rt: HostRuntime) {
    let mut out = Vec::from_slice(rt.alloc(), &[7]).expect(&rt, "memory");
    put_zeros(&mut out, 0).expect(&rt, "memory");
    assert!(rt; out.as_slice() == [7].as_slice());
    put_zeros(&mut out, 3).expect(&rt, "memory");
    assert!(rt; out.as_slice() == [7, 0, 0, 0].as_slice());
}

#[test]
fn bits_are_packed(rt: HostRuntime) {
    for (bits, bytes, zeros) in PACKED.iter() {
        assert_packed(&rt, bits, bytes, *zeros);
    }
}

/// Appends a number of this many bytes.
fn add(rt: &impl Abort, bytes: &mut Vec<u8>, width: usize, number: i64) {
    if let Some(part) = number.to_le_bytes().get(..width) {
        bytes.extend_from_slice(part).expect(rt, "memory");
    }
}

/// Whether both forms of the check accept bytes as the offsets of this many slots up to a top, of 4
/// bytes each or of 8.
fn checks(bytes: &[u8], width: usize, len: usize, top: u64) -> (bool, bool) {
    if width == 4 {
        let answer = Offsets::check(bytes, len, top);
        (answer, plain::check_offsets(bytes, len, top))
    } else {
        let answer = LargeOffsets::check(bytes, len, top);
        (answer, plain::check_large_offsets(bytes, len, top))
    }
}

/// Offset `i` of those that are found, with how many slots they have, and whether they have none.
fn found_at(
    bytes: &[u8],
    width: usize,
    (len, top): (usize, u64),
    i: usize,
) -> Option<(usize, bool, usize)> {
    if width == 4 {
        match Offsets::new(bytes, len, top) {
            Some(it) if i <= it.len() => Some((it.len(), it.is_empty(), it.at(i))),
            _ => None,
        }
    } else {
        match LargeOffsets::new(bytes, len, top) {
            Some(it) if i <= it.len() => Some((it.len(), it.is_empty(), it.at(i))),
            _ => None,
        }
    }
}

/// Offsets, how many bytes of the last are left off, the requested number of slots and top, and
/// whether the first offsets are those of that many slots.
type Row = (&'static [i64], usize, usize, u64, bool);

/// Rows for each width.
static OFFSETS: [Row; 16] = [
    (&[2, 2, 5], 0, 2, 5, true),
    (&[2, 2, 5], 0, 2, 4, false),
    (&[2, 2, 5], 0, 2, u64::MAX, true),
    (&[2, 2, 5], 0, 1, 2, true),
    (&[2, 2, 5], 0, 3, 5, false),
    (&[2, 2, 5], 0, usize::MAX, 5, false),
    (&[2, 2, 5], 0, usize::MAX / 4, 5, false),
    (&[2, 2, 5], 0, usize::MAX / 8, 5, false),
    (&[0, 3, 2], 0, 2, 9, false),
    (&[-1, 0], 0, 1, 9, false),
    (&[-2, -1], 0, 1, u64::MAX, false),
    (&[], 0, 0, 0, false),
    (&[0], 1, 0, 0, false),
    (&[0], 0, 0, 0, true),
    (&[0, 9], 3, 0, 0, true),
    (&[0, 0], 1, 1, 0, false),
];

/// Rows for 64 bits. Ascending offsets may descend in the lower 32 bits, be equal there, or have
/// their sign bit set.
static LARGE_OFFSETS: [Row; 10] = [
    (&[i64::MIN], 0, 0, u64::MAX, false),
    (&[4294967295], 0, 0, 4294967295, true),
    (&[0, 4294967296], 0, 1, 4294967296, true),
    (&[0, 4294967296], 0, 1, 4294967295, false),
    (&[1, 4294967296], 0, 1, 4294967296, true),
    (&[4294967296, 1], 0, 1, 4294967296, false),
    (&[i64::MAX, i64::MAX], 0, 1, 9223372036854775807, true),
    (&[i64::MAX, i64::MAX], 0, 1, 9223372036854775806, false),
    (&[i64::MAX, i64::MAX], 0, 1, u64::MAX, true),
    (&[i64::MAX, i64::MIN], 0, 1, u64::MAX, false),
];

fn assert_row(rt: &(impl Abort + AllocGlobal), width: usize, row: &Row) {
    let (offsets, cut, len, top, answer) = row;
    let mut bytes = Vec::new(rt.alloc());
    for offset in offsets.iter() {
        add(rt, &mut bytes, width, *offset);
    }
    let bytes = &bytes[..bytes.len().saturating_sub(*cut)];
    assert_eq!(rt;
        checks(bytes, width, *len, *top),
        (*answer, *answer),
        "{row:?}"
    );
    for i in 0..=offsets.len() {
        let expected = match offsets.get(i) {
            Some(offset) if *answer && i <= *len => Some((
                *len,
                *len == 0,
                offset.unsigned_abs() as usize,
            )),
            _ => None,
        };
        assert_eq!(rt;
            found_at(bytes, width, (*len, *top), i),
            expected,
            "{row:?}"
        );
    }
}

#[test]
fn offsets_of_a_column(rt: HostRuntime) {
    for row in OFFSETS.iter() {
        assert_row(&rt, 4, row);
        assert_row(&rt, 8, row);
    }
    for row in LARGE_OFFSETS.iter() {
        assert_row(&rt, 8, row);
    }
}

/// Offset `j` of those below, in steps of ten: with 64 bits they no longer fit 32 bits from 2^32 =
/// 4294967296 on, where `j` is 30.
fn step(width: usize, j: u16) -> i64 {
    let first = if width == 4 { 100 } else { 4294966996 };
    first + 10 * i64::from(j)
}

/// The bytes of `len + 1` such offsets.
#[derive(Drop)]
struct Steps {
    width: usize,
    len: u8,
    bytes: Vec<u8>,
}

fn stepping(rt: &(impl Abort + AllocGlobal), width: usize, len: u8) -> Steps {
    let mut bytes = Vec::new(rt.alloc());
    for j in 0..u16::from(len) + 1 {
        add(rt, &mut bytes, width, step(width, j));
    }
    Steps { width, len, bytes }
}

/// Replaces the number at an index by another.
fn put(bytes: &mut [u8], width: usize, place: usize, number: i64) {
    let number = number.to_le_bytes();
    let start = width.saturating_mul(place);
    if let Some(old) = bytes.get_mut(start..start.saturating_add(width)) {
        for (old, byte) in old.iter_mut().zip(number.iter()) {
            *old = *byte;
        }
    }
}

/// If one of them is replaced by another number, both forms of the check return this result, and
/// false if a byte is missing.
fn assert_check(
    rt: &(impl Abort + AllocGlobal),
    Steps { width, len, bytes }: &Steps,
    (place, other): (u16, i64),
    top: u64,
    answer: bool,
) {
    let (width, slots) = (*width, usize::from(*len));
    let mut bytes = Vec::from_slice(rt.alloc(), bytes).expect(rt, "memory");
    put(&mut bytes, width, usize::from(place), other);
    let found = checks(&bytes, width, slots, top);
    assert_eq!(rt;
        found,
        (answer, answer),
        "{slots} slots, {other} at {place}"
    );
    let cut = bytes.get(1..).unwrap_or(&[]);
    assert!(rt; !checks(cut, width, slots, u64::MAX).0, "{slots} slots");
}

/// An offset may equal the one before it, and may not be below it or below 0.
fn assert_after(rt: &(impl Abort + AllocGlobal), steps: &Steps, place: u8) {
    let last = step(steps.width, u16::from(steps.len)).unsigned_abs();
    let low = step(steps.width, u16::from(place));
    let beyond = u16::from(place) + 1;
    assert_check(rt, steps, (beyond, low), last, true);
    assert_check(rt, steps, (beyond, low.wrapping_sub(1)), last, false);
    assert_check(rt, steps, (beyond, -1), u64::MAX, false);
    if steps.width == 8 {
        assert_check(
            rt,
            steps,
            (beyond, low.wrapping_sub(4294967296)),
            last,
            false,
        );
    }
}

/// The last offset may be as great as possible, and none may be above the top or below 0.
fn assert_whole(rt: &(impl Abort + AllocGlobal), steps: &Steps, greatest: i64) {
    let end = u16::from(steps.len);
    let first = step(steps.width, 0);
    let last = step(steps.width, end).unsigned_abs();
    let most = greatest.unsigned_abs();
    assert_check(rt, steps, (0, first), last, true);
    assert_check(rt, steps, (0, first), last.wrapping_sub(1), false);
    assert_check(rt, steps, (0, 0), u64::MAX, true);
    assert_check(rt, steps, (end, greatest), most, true);
    assert_check(rt, steps, (end, greatest), most.wrapping_sub(1), false);
    assert_check(rt, steps, (0, -1), u64::MAX, false);
    assert_check(rt, steps, (0, !greatest), u64::MAX, false);
}

fn assert_each_length(rt: &(impl Abort + AllocGlobal), width: usize, greatest: i64) {
    for len in 0..131u8 {
        let steps = stepping(rt, width, len);
        assert_whole(rt, &steps, greatest);
        for place in 0..len {
            assert_after(rt, &steps, place);
        }
    }
}

#[test]
fn offsets_of_each_length(rt: HostRuntime) {
    assert_each_length(&rt, 4, 2147483647);
    assert_each_length(&rt, 8, i64::MAX);
}

/// A width, another number, a top, and whether this number and sevens are at most the top.
type Top = (usize, u64, u64, bool);

static TOPS: [Top; 25] = [
    (1, 9, 9, true),
    (1, 10, 9, false),
    (1, 10, 0x109, true),
    (1, 0x80, 0x7f, false),
    (1, 0xff, 0xfe, false),
    (1, 0xff, 0xff, true),
    (1, 0xff, u64::MAX, true),
    (2, 9, 9, true),
    (2, 10, 9, false),
    (2, 10, 0x1_0009, true),
    (2, 0x8000, 0x7fff, false),
    (2, 0xffff, 0xfffe, false),
    (2, 0x100, 0xff, false),
    (2, 0xffff, 0xffff, true),
    (4, 9, 9, true),
    (4, 10, 9, false),
    (4, 10, 0x1_0000_0009, true),
    (4, 0x8000_0000, 0x7fff_ffff, false),
    (4, 0xffff_ffff, 0xffff_fffe, false),
    (4, 0xffff_ffff, 0xffff_ffff, true),
    (8, 9, 9, true),
    (8, 10, 9, false),
    (8, 0x8000_0000_0000_0000, 0x7fff_ffff_ffff_ffff, false),
    (8, u64::MAX, 0xffff_ffff_ffff_fffe, false),
    (8, u64::MAX, u64::MAX, true),
];

/// The bytes of `len` numbers of a width that are all seven, except for one of them.
fn sevens_but_one(
    rt: &(impl Abort + AllocGlobal),
    width: usize,
    len: u8,
    place: u8,
    other: u64,
) -> Vec<u8> {
    let mut bytes = Vec::new(rt.alloc());
    for j in 0..len {
        let number = if j == place { other.cast_signed() } else { 7 };
        add(rt, &mut bytes, width, number);
    }
    bytes
}

/// Whether the first `len` numbers are at most `top`, if the bytes have that many.
fn first_are_at_most(bytes: &[u8], width: usize, len: u8, top: u64) -> Option<bool> {
    let len = usize::from(len);
    match width {
        1 if len <= bytes.len() => Some(are_at_most(bytes, 1, len, top)),
        2 if len <= bytes.len() / 2 => Some(are_at_most(bytes, 2, len, top)),
        4 if len <= bytes.len() / 4 => Some(are_at_most(bytes, 4, len, top)),
        8 if len <= bytes.len() / 8 => Some(are_at_most(bytes, 8, len, top)),
        _ => None,
    }
}

/// With another number at any index below `len` the result is this one; past the numbers checked it
/// has no effect.
fn assert_at_most(rt: &(impl Abort + AllocGlobal), len: u8, (width, other, top, answer): Top) {
    for place in 0..len {
        let bytes = sevens_but_one(rt, width, len, place, other);
        let all = first_are_at_most(&bytes, width, len, top);
        assert!(rt;
            all == Some(answer),
            "number {place} of {len}, width {width}"
        );
        let before = first_are_at_most(&bytes, width, place, top);
        assert!(rt; before == Some(true), "before {place}, width {width}");
    }
}

/// Lengths around one and two times the 64 bytes that are compared at once.
static LENGTHS: [u8; 18] = [
    1, 2, 7, 8, 9, 15, 16, 17, 31, 32, 33, 40, 63, 64, 65, 127, 128, 129,
];

#[test]
fn numbers_at_most_a_top(rt: HostRuntime) {
    for row in TOPS.iter() {
        for len in LENGTHS.iter() {
            assert_at_most(&rt, *len, *row);
        }
        assert!(rt; first_are_at_most(&[], row.0, 0, 0) == Some(true));
    }
}

/// A width, bytes from the lowest on, whether they are read as signed, and the integer in the first
/// of them.
static INTEGERS: [(usize, u64, bool, i128); 21] = [
    (1, 0, true, 0),
    (1, 0, false, 0),
    (1, u64::MAX, true, -1),
    (1, u64::MAX, false, 255),
    (1, 0xffff_ffff_ffff_ff7f, true, 127),
    (1, 0x80, true, -128),
    (2, 0, true, 0),
    (2, u64::MAX, true, -1),
    (2, u64::MAX, false, 65535),
    (2, 0x7fff, true, 32767),
    (2, 0x8000, true, -32768),
    (4, 0, true, 0),
    (4, u64::MAX, true, -1),
    (4, u64::MAX, false, 4294967295),
    (4, 0x7fff_ffff, true, 2147483647),
    (4, 0x8000_0000, true, -2147483648),
    (8, 0, true, 0),
    (8, u64::MAX, true, -1),
    (8, u64::MAX, false, 18446744073709551615),
    (8, 0x7fff_ffff_ffff_ffff, true, 9223372036854775807),
    (8, 0x8000_0000_0000_0000, true, -9223372036854775808),
];

/// The integer in the first slot of eight bytes.
fn first_int(bytes: &[u8; 8], width: usize, signed: bool) -> Option<i128> {
    match width {
        1 => Some(int_at(bytes, 1, signed, 0)),
        2 => Some(int_at(bytes, 2, signed, 0)),
        4 => Some(int_at(bytes, 4, signed, 0)),
        8 => Some(int_at(bytes, 8, signed, 0)),
        _ => None,
    }
}

#[test]
fn integers_of_each_width(rt: HostRuntime) {
    for row in INTEGERS.iter() {
        let (width, bytes, signed, expected) = *row;
        assert_eq!(rt;
            first_int(&bytes.to_le_bytes(), width, signed),
            Some(expected),
            "{row:?}"
        );
    }
    assert!(rt; int_at(&[1, 0, 2, 0, 3, 1], 2, true, 2) == 259);
}

static APPENDED: [u8; 28] = [
    255, 255, 255, 128, 0, 0, 0, 128, 2, 1, 0, 0, 255, 255, 255, 255, 255, 255, 255, 255, 254, 255,
    255, 255, 255, 255, 255, 255,
];

#[test]
fn integers_are_appended(rt: HostRuntime) {
    let mut out = Vec::new(rt.alloc());
    put_int(&mut out, 2, -1).expect(&rt, "memory");
    assert!(rt; out.as_slice() == &APPENDED[..2]);
    put_int(&mut out, 1, 255).expect(&rt, "memory");
    put_int(&mut out, 1, -128).expect(&rt, "memory");
    put_int(&mut out, 4, -2147483648).expect(&rt, "memory");
    put_int(&mut out, 4, 258).expect(&rt, "memory");
    put_int(&mut out, 8, 18446744073709551615).expect(&rt, "memory");
    put_int(&mut out, 8, -2).expect(&rt, "memory");
    assert!(rt; out.as_slice() == APPENDED.as_slice());
}

/// Integers of 128 bits with a sign, and their bytes.
static LONG_INTEGERS: [([u8; 16], i128); 9] = [
    ([0; 16], 0),
    ([1, 0, 0, 0, 0, 0, 0, 0, 0, 0, 0, 0, 0, 0, 0, 0], 1),
    ([255; 16], -1),
    (
        [0, 0, 0, 0, 0, 0, 0, 0, 1, 0, 0, 0, 0, 0, 0, 0],
        18446744073709551616,
    ),
    (
        [
            0, 0, 0, 0, 0, 0, 0, 0, 255, 255, 255, 255, 255, 255, 255, 255,
        ],
        -18446744073709551616,
    ),
    (
        [0, 0, 0, 0, 0, 0, 0, 128, 0, 0, 0, 0, 0, 0, 0, 0],
        9223372036854775808,
    ),
    (
        [
            255, 255, 255, 255, 255, 255, 255, 255, 255, 255, 255, 255, 255, 255, 255, 127,
        ],
        170141183460469231731687303715884105727,
    ),
    (
        [0, 0, 0, 0, 0, 0, 0, 0, 0, 0, 0, 0, 0, 0, 0, 128],
        -170141183460469231731687303715884105728,
    ),
    (
        [
            0xee, 0xff, 0x0f, 0x1e, 0x2d, 0x3c, 0x4b, 0x5a, 0x69, 0x78, 0x87, 0x96, 0xa5, 0xb4,
            0xc3, 0xd2,
        ],
        -0x2d3c_4b5a_6978_8796_a5b4_c3d2_e1f0_0012,
    ),
];

/// All of their bytes, one after another.
fn long_integers(rt: &(impl Abort + AllocGlobal)) -> Vec<u8> {
    let mut all = Vec::new(rt.alloc());
    for (bytes, _) in &LONG_INTEGERS {
        all.extend_from_slice(bytes).expect(rt, "memory");
    }
    all
}

#[test]
fn integers_of_128_bits(rt: HostRuntime) {
    for row in LONG_INTEGERS.iter() {
        let (bytes, number) = *row;
        assert_eq!(rt; int_at(&bytes, 16, true, 0), number);
        let mut out = Vec::new(rt.alloc());
        put_int(&mut out, 16, number).expect(&rt, "memory");
        assert!(rt; out.as_slice() == bytes.as_slice(), "{number}");
    }
}

#[test]
fn slots_of_128_bits(rt: HostRuntime) {
    let all = long_integers(&rt);
    assert!(rt; all.len() == 144);
    for (i, (_, number)) in LONG_INTEGERS.iter().enumerate() {
        assert!(rt; i < 9);
        assert_eq!(rt; int_at(&all, 16, true, i), *number);
    }
}
