//! Messages that have no size, next to those that have one.

use arrow_meta_reader::{Header, Message, MetadataVersion, RecordBatch};
use arrow_meta_writer::encoded_size;
use arrow_types::{BitWidth, DataType, Field, FieldNode, Schema};
use std::alloc::Global;

/// The message of an empty batch.
fn empty_batch(alloc: Global, version: MetadataVersion, body_len: u64) -> Message {
    let batch = RecordBatch {
        length: 0,
        nodes: Vec::new(alloc),
        buffers: Vec::new(alloc),
    };
    Message {
        version,
        header: Header::Batch(batch),
        body_len,
    }
}

const MOST: u64 = 1 << 40;

/// The version, the body's length, and the size of the metadata.
static SIZES: [(MetadataVersion, u64, Option<u64>); 6] = [
    (MetadataVersion::V5, 0, Some(96)),
    (MetadataVersion::V5, MOST, Some(96)),
    (MetadataVersion::V5, MOST + 1, None),
    (MetadataVersion::V5, 1 << 63, None),
    (MetadataVersion::V5, u64::MAX, None),
    (MetadataVersion::V4, 0, None),
];

#[test]
fn other_versions_and_longer_bodies_have_no_size(rt: HostRuntime) {
    for &(version, body_len, size) in &SIZES {
        let message = empty_batch(rt.alloc(), version, body_len);
        assert_eq!(rt; encoded_size(&message), size);
    }
}

/// The size of the message of a batch with this many field nodes.
fn size_of_nodes(alloc: Global, count: usize) -> Option<u64> {
    let node = FieldNode {
        length: 0,
        null_count: 0,
    };
    let batch = RecordBatch {
        length: 0,
        nodes: Vec::from_elem(alloc, node, count).ok()?,
        buffers: Vec::new(alloc),
    };
    encoded_size(&Message {
        version: MetadataVersion::V5,
        header: Header::Batch(batch),
        body_len: 0,
    })
}

/// Sixteen bytes a node: the most that metadata may have, and one node more.
#[test]
fn no_metadata_are_longer_than_a_gibibyte(rt: HostRuntime) {
    assert_eq!(rt; size_of_nodes(rt.alloc(), 67_108_858), Some(1 << 30));
    assert_eq!(rt; size_of_nodes(rt.alloc(), 67_108_859), None);
}

/// 2^20 letters.
fn piece(alloc: Global) -> Option<String> {
    let mut text = String::from_str(alloc, "n").ok()?;
    for _ in 0..20 {
        let half = String::from_str(alloc, &text).ok()?;
        text.push_str(&half).ok()?;
    }
    Some(text)
}

/// This many letters.
fn letters(alloc: Global, count: usize) -> Option<String> {
    let piece = piece(alloc)?;
    let mut text = String::with_capacity(alloc, count).ok()?;
    for _ in 0..count / piece.len().max(1) {
        text.push_str(&piece).ok()?;
    }
    fill(&mut text, count)?;
    Some(text)
}

/// Appends letters until there are this many.
fn fill(text: &mut String, count: usize) -> Option<()> {
    for _ in text.len()..count {
        text.push_str("n").ok()?;
    }
    Some(())
}

/// The size of the message of a column of numbers whose name has this many letters.
fn size_of_name(alloc: Global, count: usize) -> Option<u64> {
    let mut fields = Vec::new(alloc);
    let column = Field::new(
        alloc,
        letters(alloc, count)?,
        DataType::Int {
            bits: BitWidth::ThirtyTwo,
            signed: true,
        },
        true,
    );
    fields.push(column).ok()?;
    encoded_size(&Message {
        version: MetadataVersion::V5,
        header: Header::Schema(Schema::new(alloc, fields).ok()?),
        body_len: 0,
    })
}

/// The name, which begins at offset 112, and a 0 byte; the vtable of the type at the next even
/// offset, 8 bytes; its table, 12 bytes with the zero bytes after it, at the next multiple of 8, and
/// the count of its children: 144 bytes with one letter, 2^30 with 2^30 - 137, and 8 more with one
/// more.
#[test]
fn names_are_as_long_as_metadata_let_them(rt: HostRuntime) {
    assert_eq!(rt; size_of_name(rt.alloc(), 1), Some(144));
    assert_eq!(rt; size_of_name(rt.alloc(), 1_073_741_687), Some(1 << 30));
    assert_eq!(rt; size_of_name(rt.alloc(), 1_073_741_688), None);
}
