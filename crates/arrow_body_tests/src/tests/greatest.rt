//! Dictionaries with exactly as many values, and exactly as many bytes, as a body can have, and with
//! one more. Each is one array repeated.

use super::bodies::{append, dictionary, nodes_in};
use super::reported::holds;
use arrow_body_reader::{BodyFault, are_fit, load};
use arrow_body_writer::{Align, Body, BodyStoreFault, rest_size, store_rest_in};
use arrow_data::{Array, Dictionary};
use arrow_test_fields::fields_of;
use arrow_types::{Buffer, Field, FieldNode};
use bytes::Bytes;
use std::process::Abort;

/// The number of bytes after the first ones of a body, all equal: 2^22.
const LETTERS: usize = 4_194_304;

/// An array: its type, its node, the first bytes of its body, and where its buffers end in it, one
/// after the other.
type Piece = (&'static str, &'static str, &'static [u8], &'static [i64]);

/// 2^25 booleans: 64 times that many are 2^31.
const TRUTHS: Piece = ("bool", "33554432/0", &[], &[0, 4_194_304]);

/// Two texts, one of one letter and one of the other letters, after offsets of 32 and of 64 bits:
/// 512 times 2^22 letters are 2^31.
const SMALL: &[u8] = &[0, 0, 0, 0, 1, 0, 0, 0, 0, 0, 64, 0];

const LARGE: &[u8] = b"\0\0\0\0\0\0\0\0\x01\0\0\0\0\0\0\0\0\0\x40\0\0\0\0\0";

const TEXTS: Piece = ("utf8", "2/0", SMALL, &[0, 12, 4_194_316]);

const BYTES: Piece = ("binary", "2/0", SMALL, &[0, 12, 4_194_316]);

const LARGE_TEXTS: Piece = ("large_utf8", "2/0", LARGE, &[0, 24, 4_194_328]);

/// As many nulls as a column can have.
const NULLS: Piece = ("null", "2147483647/2147483647", &[], &[]);

/// Names, an array, how often it is put into the dictionary, from which value on the dictionary is
/// laid out, and in how many bytes. From the second text on there are 1,024 offsets and 2^31 - 1
/// bytes, for large texts 1,025 offsets and 2^31 bytes.
static CASES: [(&str, Piece, usize, usize, Option<u64>); 9] = [
    ("truths", TRUTHS, 64, 0, None),
    ("truths but one", TRUTHS, 64, 1, Some(268_435_456)),
    ("texts", TEXTS, 512, 0, None),
    ("texts but one", TEXTS, 512, 1, Some(2_147_487_744)),
    ("bytes", BYTES, 512, 0, None),
    ("bytes but one", BYTES, 512, 1, Some(2_147_487_744)),
    ("large texts", LARGE_TEXTS, 512, 0, Some(2_147_491_848)),
    ("nulls", NULLS, 2, 0, None),
    (
        "nulls of the second array",
        NULLS,
        2,
        2_147_483_647,
        Some(0),
    ),
];

/// What an array is loaded from.
#[derive(Drop)]
struct Loading {
    fields: Vec<Field>,
    nodes: Vec<FieldNode>,
    buffers: Vec<Buffer>,
    body: Bytes,
}

impl Loading {
    fn of(rt: &(impl Abort + AllocGlobal), (of, node, front, ends): &Piece) -> Loading {
        Loading {
            fields: fields_of(rt.alloc(), of).expect(rt, "fields"),
            nodes: nodes_in(rt, node),
            buffers: places(rt, ends),
            body: body_of(rt, front),
        }
    }

    fn array(&self, rt: &(impl Abort + AllocGlobal)) -> Result<Vec<Array>, BodyFault> {
        assert!(rt; are_fit(&self.fields, &[]));
        load(
            rt.alloc(),
            &self.fields,
            &self.nodes,
            &self.buffers,
            &self.body,
            &[],
        )
    }
}

/// The first bytes, followed by `LETTERS` letters.
fn body_of(rt: &(impl Abort + AllocGlobal), front: &[u8]) -> Bytes {
    let letters = Vec::from_elem(rt.alloc(), b'n', LETTERS).expect(rt, "memory");
    let mut body = Vec::from_slice(rt.alloc(), front).expect(rt, "memory");
    body.extend_from_slice(&letters).expect(rt, "memory");
    Bytes::copy_from_slice(rt.alloc(), &body).expect(rt, "memory")
}

fn places(rt: &(impl Abort + AllocGlobal), ends: &[i64]) -> Vec<Buffer> {
    let mut buffers = Vec::new(rt.alloc());
    let mut offset = 0i64;
    for end in ends {
        let length = end.saturating_sub(offset);
        let buffer = Buffer { offset, length };
        buffers.push(buffer).expect(rt, "memory");
        offset = *end;
    }
    buffers
}

/// The array is loaded as often as it is put into the dictionary.
fn again_and_again(rt: &(impl Abort + AllocGlobal), piece: &Piece, times: usize) -> Dictionary {
    let loading = Loading::of(rt, piece);
    let mut whole = dictionary(rt, loading.array(rt));
    for _ in 1..times {
        append(rt, &mut whole, loading.array(rt));
    }
    whole
}

#[test]
fn the_most_values_and_bytes(rt: HostRuntime) {
    for (name, piece, times, from, size) in &CASES {
        let whole = again_and_again(&rt, piece, *times);
        holds(&rt, name, rest_size(&whole, *from, Align::Eight) == *size);
        if size.is_none() {
            let mut room = Body::new(rt.alloc());
            let stored = store_rest_in(&mut room, &whole, *from, Align::Eight);
            holds(&rt, name, stored == Err(BodyStoreFault::TooLarge));
        }
    }
}

/// The faults, and their words.
static FAULTS: [(BodyStoreFault, &str); 2] = [
    (
        BodyStoreFault::TooLarge,
        "too many slots or bytes in a column",
    ),
    (BodyStoreFault::Memory, "out of memory"),
];

#[test]
fn faults_are_reported(rt: HostRuntime) {
    for (fault, expected) in &FAULTS {
        let got = format!(in rt.alloc(); "{fault}").expect(&rt, "memory");
        assert_eq!(rt; got.as_str(), *expected);
    }
}
