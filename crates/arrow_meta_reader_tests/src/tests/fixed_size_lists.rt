//! Columns of fixed-size lists: which sizes and which children are read, and as what.

use super::reading::{Edits, edited, reported};
use arrow_meta_reader::{Header, decode};
use arrow_types::{DataType, Field, Limits, TypeSet};
use std::alloc::Global;

/// One column `l` of fixed-size lists of 3 values of the field `c`, which are nulls. The size is at
/// byte 124, in four bytes, and its offset in its table is given at 118; the number of children is
/// at 128, and the offset of the children in the table of the field is given at 82.
const LISTS: &[u8; 192] = b"\x10\0\0\0\x0c\0\x18\0\x04\0\x06\0\x08\0\x10\0\x0c\0\0\0\x04\0\x01\0\
    \x18\0\0\0\0\0\0\0\0\0\0\0\0\0\0\0\x08\0\x0c\0\x04\0\x08\0\x08\0\0\0\0\0\0\0\x04\0\0\0\x01\0\0\
    \0\x18\0\0\0\x10\0\x14\0\x04\0\x08\0\t\0\x0c\0\0\0\x10\0\0\0\0\0\x14\0\0\0\x10\0\0\0\x01\x10\0\
    \0\x14\0\0\0\x18\0\0\0\x01\0\0\0l\0\x06\0\x08\0\x04\0\x06\0\0\0\x03\0\0\0\x01\0\0\0\x14\0\0\0\
    \x10\0\x14\0\x04\0\x08\0\t\0\x0c\0\0\0\x10\0\x10\0\0\0\x10\0\0\0\x01\x01\0\0\x14\0\0\0\x14\0\0\
    \0\x01\0\0\0c\0\x04\0\x04\0\0\0\x06\0\0\0\0\0\0\0";

/// The same with two children, `c` and `d`.
const WITH_TWO: &[u8; 256] = b"\x10\0\0\0\x0c\0\x18\0\x04\0\x06\0\x08\0\x10\0\x0c\0\0\0\x04\0\x01\0\
    \x18\0\0\0\0\0\0\0\0\0\0\0\0\0\0\0\x08\0\x0c\0\x04\0\x08\0\x08\0\0\0\0\0\0\0\x04\0\0\0\x01\0\0\
    \0\x18\0\0\0\x10\0\x14\0\x04\0\x08\0\t\0\x0c\0\0\0\x10\0\0\0\0\0\x14\0\0\0\x10\0\0\0\x01\x10\0\
    \0\x14\0\0\0\x18\0\0\0\x01\0\0\0l\0\x06\0\x08\0\x04\0\x06\0\0\0\x03\0\0\0\x02\0\0\0\x1c\0\0\0P\
    \0\0\0\x10\0\x14\0\x04\0\x08\0\t\0\x0c\0\0\0\x10\0\0\0\0\0\x14\0\0\0\x10\0\0\0\x01\x01\0\0\x14\
    \0\0\0\x14\0\0\0\x01\0\0\0c\0\x04\0\x04\0\0\0\x06\0\0\0\0\0\0\0\x10\0\x14\0\x04\0\x08\0\t\0\x0c\
    \0\0\0\x10\0\x10\0\0\0\x10\0\0\0\x01\x01\0\0\x14\0\0\0\x14\0\0\0\x01\0\0\0d\0\x04\0\x04\0\0\0\
    \x06\0\0\0\0\0\0\0";

/// Other bytes of the first, and the size that they give; none if there are no such fixed-size
/// lists.
static SIZES: [(Edits, Option<u32>); 15] = [
    ("", Some(3)),
    ("124=0", Some(0)),
    ("124=1", Some(1)),
    ("125=1", Some(259)),
    ("126=1", Some(65_539)),
    ("127=1", Some(16_777_219)),
    // The greatest size, and negative ones: the least number, those next to it, and -1.
    ("124=255 125=255 126=255 127=127", Some(2_147_483_647)),
    ("124=0 127=128", None),
    ("124=1 127=128", None),
    ("127=255", None),
    ("124=255 125=255 126=255 127=255", None),
    // No size, which is 0, whatever the bytes are in which it was.
    ("118=0", Some(0)),
    ("118=0 127=128", Some(0)),
    // No child: no vector, and an empty one.
    ("82=0", None),
    ("128=0", None),
];

/// Whether it is the field `c` of nulls.
fn is_child(child: &Field) -> bool {
    child.name.as_str() == "c" && matches!(child.data_type, DataType::Null)
}

/// The size of the lists of the first column of a schema, if their child is `c`.
fn size(header: &Header) -> Option<u32> {
    let Header::Schema(schema) = header else {
        return None;
    };
    match &schema.fields().first()?.data_type {
        DataType::FixedSizeList(child, size) if is_child(child) => Some(*size),
        _ => None,
    }
}

/// The same for the schema that the bytes mean to a reader of all types.
fn read(alloc: Global, bytes: &[u8]) -> Option<u32> {
    let limits = Limits::standard().with_types(TypeSet::All);
    match decode(alloc, bytes, &limits) {
        Ok(message) => size(&message.header),
        Err(_) => None,
    }
}

#[test]
fn sizes_of_fixed_size_lists(rt: HostRuntime) {
    let all = Limits::standard().with_types(TypeSet::All);
    for (edits, expected) in &SIZES {
        let bytes = edited(&rt, rt.alloc(), LISTS, edits);
        assert!(rt; read(rt.alloc(), &bytes) == *expected, "{edits}");
        let (fault, _) = reported(rt.alloc(), &bytes, &all);
        assert_eq!(rt; fault, if expected.is_some() { 0 } else { 9 }, "{edits}");
        let (fault, _) = reported(rt.alloc(), &bytes, &Limits::standard());
        assert_eq!(rt; fault, 8, "{edits} by a reader of the core");
    }
}

#[test]
fn fixed_size_lists_have_no_two_children(rt: HostRuntime) {
    let all = Limits::standard().with_types(TypeSet::All);
    let (fault, _) = reported(rt.alloc(), WITH_TWO, &all);
    assert_eq!(rt; fault, 9);
    let (fault, _) = reported(rt.alloc(), WITH_TWO, &Limits::standard());
    assert_eq!(rt; fault, 8);
}

/// Columns `a` and `b` of fixed-size lists of 3 values by dictionary 7. Their sizes are at 132 and
/// 324, and their offsets in their tables are given at 122 and 314.
const SHARED: &[u8; 456] = b"\x10\0\0\0\x0c\0\x18\0\x04\0\x06\0\x08\0\x10\0\x0c\0\0\0\x04\0\x01\0\
    \x18\0\0\0\0\0\0\0\0\0\0\0\0\0\0\0\x08\0\x0c\0\x04\0\x08\0\x08\0\0\0\0\0\0\0\x04\0\0\0\x02\0\0\
    \0\x18\0\0\0\xd4\0\0\0\x10\0\x18\0\x04\0\x08\0\t\0\x0c\0\x10\0\x14\0\x10\0\0\0\x14\0\0\0\x01\
    \x10\0\0\x1c\0\0\00\0\0\0X\0\0\0\x01\0\0\0a\0\x06\0\x08\0\x04\0\0\0\0\0\n\0\0\0\x03\0\0\0\x0c\0\
    \x18\0\x08\0\x10\0\x14\0\x16\0\0\0\0\0\x10\0\0\0\0\0\0\0\x07\0\0\0\0\0\0\0\x10\0\0\0\0\0\0\0\
    \x08\0\t\0\x04\0\x08\0\x08\0\0\0\x20\0\0\0\x01\0\0\0\x01\0\0\0\x18\0\0\0\x10\0\x14\0\x04\0\x08\
    \0\t\0\x0c\0\0\0\x10\0\0\0\0\0\x14\0\0\0\x10\0\0\0\x01\x01\0\0\x14\0\0\0\x14\0\0\0\x01\0\0\0c\0\
    \x04\0\x04\0\0\0\x06\0\0\0\0\0\0\0\x10\0\x18\0\x04\0\x08\0\t\0\x0c\0\x10\0\x14\0\x10\0\0\0\x14\
    \0\0\0\x01\x10\0\0\x1c\0\0\00\0\0\0X\0\0\0\x01\0\0\0b\0\x06\0\x08\0\x04\0\0\0\0\0\n\0\0\0\x03\0\
    \0\0\x0c\0\x18\0\x08\0\x10\0\x14\0\x16\0\0\0\0\0\x10\0\0\0\0\0\0\0\x07\0\0\0\0\0\0\0\x10\0\0\0\
    \0\0\0\0\x08\0\t\0\x04\0\x08\0\x08\0\0\0\x20\0\0\0\x01\0\0\0\x01\0\0\0\x18\0\0\0\x10\0\x14\0\
    \x04\0\x08\0\t\0\x0c\0\0\0\x10\0\0\0\0\0\x14\0\0\0\x10\0\0\0\x01\x01\0\0\x14\0\0\0\x14\0\0\0\
    \x01\0\0\0c\0\x04\0\x04\0\0\0\x06\0\0\0\0\0\0\0";

/// Other bytes of it, and whether the two columns have one type.
static ONE_TYPE: [(Edits, bool); 7] = [
    ("", true),
    ("132=2 324=2", true),
    ("132=2", false),
    ("324=2", false),
    ("135=1", false),
    // A missing size counts as a size of 0.
    ("122=0", false),
    ("122=0 324=0", true),
];

#[test]
fn sizes_of_one_dictionary_are_the_same(rt: HostRuntime) {
    let all = Limits::standard().with_types(TypeSet::All);
    for (edits, is_one) in &ONE_TYPE {
        let bytes = edited(&rt, rt.alloc(), SHARED, edits);
        let (fault, _) = reported(rt.alloc(), &bytes, &all);
        assert_eq!(rt; fault, if *is_one { 0 } else { 9 }, "{edits}");
    }
}
