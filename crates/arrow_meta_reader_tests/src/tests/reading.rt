//! Metadata with some bytes changed, and what was counted when they were read.

use arrow_meta_reader::decode_counted;
use arrow_meta_tree::DecodeCost;
use arrow_types::Limits;
use std::alloc::Global;
use std::process::Abort;

/// The message of a test that stops because an allocation failed.
pub(super) const MEMORY: &str = "memory";

/// Bytes that are put at offsets of metadata: `14=0 64=5` puts 0 at 14, and 5 at 64.
pub(super) type Edits = &'static str;

/// The bytes with some changed.
pub(super) fn edited(rt: &impl Abort, alloc: Global, bytes: &[u8], edits: Edits) -> Vec<u8> {
    let mut edited = Vec::from_slice(alloc, bytes).expect(rt, MEMORY);
    for edit in edits.split_whitespace() {
        let (place, byte) = edit.split_once('=').expect(rt, "a place and a byte");
        let place = place.parse::<usize>().ok().expect(rt, "a place");
        let byte = byte.parse::<u8>().ok().expect(rt, "a byte");
        *edited.get_mut(place).expect(rt, "a place in the metadata") = byte;
    }
    edited
}

/// The number of the fault of bytes, 0 if they are read, and how many fields, pairs and bytes of
/// names, zones, keys and values were read. What was counted before is left out.
pub(super) fn reported(alloc: Global, bytes: &[u8], limits: &Limits) -> (u8, [u64; 3]) {
    let mut work = DecodeCost {
        fields: 7,
        pairs: u64::MAX,
        bytes: 1,
    };
    let fault = match decode_counted(alloc, bytes, limits, &mut work) {
        Ok(_) => 0,
        Err(fault) => fault.number(),
    };
    (fault, [work.fields, work.pairs, work.bytes])
}
