//! Messages that no copy of a stream has: messages with numbers that no reader accepts, and messages
//! built here.

use crate::vectors::EXTREMES;
use arrow_meta_reader::{Header, Message, MetadataVersion, decode};
use arrow_meta_writer::{encode, encode_in, encoded_size};
use arrow_test_streams::parts::Source::{Bytes, Growing, OneBatch};
use arrow_test_streams::parts::{Edit, Part, joined};
use arrow_types::DecimalWidth::{OneHundredTwentyEight, SixtyFour, ThirtyTwo, TwoHundredFiftySix};
use arrow_types::{BitWidth, DataType, DecimalWidth, Field, Limits, Schema, TypeSet};
use std::process::Abort;

pub(super) const MEMORY: &str = "memory";

/// The metadata of the schema of numbers, of their batch, and of a dictionary.
pub(super) const ONE_FIELD: Part = (OneBatch, 8, 152);

pub(super) const ONE_BATCH: Part = (OneBatch, 160, 304);

const ABC: Part = (Growing, 208, 400);

/// The message that bytes mean to a reader of all types with the widest limits.
pub(super) fn decoded(rt: &(impl Abort + AllocGlobal), bytes: &[u8]) -> Message {
    let limits = Limits::new(Limits::METADATA_CEILING, Limits::BODY_CEILING, 0);
    let limits = limits.expect(rt, "the ceilings").with_types(TypeSet::All);
    decode(rt.alloc(), bytes, &limits).expect(rt, "a message")
}

/// Asserts that a schema is equal, or that a batch or a dictionary is shown as this one.
fn is_same(rt: &(impl Abort + AllocGlobal), one: &Message, other: &Message) {
    assert!(rt; one.version == other.version && one.body_len == other.body_len);
    if let (Header::Schema(one), Header::Schema(other)) = (&one.header, &other.header) {
        assert!(rt; one == other);
    } else {
        let one = format!(in rt.alloc(); "{:?}", one.header).expect(rt, MEMORY);
        let other = format!(in rt.alloc(); "{:?}", other.header).expect(rt, MEMORY);
        assert_eq!(rt; one.as_str(), other.as_str());
    }
}

/// The bytes of a message: they have the size computed beforehand, and reading them gives the
/// message back. Written into a buffer that held other bytes, they are the same.
fn written(rt: &(impl Abort + AllocGlobal), message: &Message) -> Vec<u8> {
    let size = encoded_size(message);
    assert!(rt; size.is_some());
    let bytes = encode(rt.alloc(), message).expect(rt, MEMORY);
    assert_eq!(rt; Some(bytes.len() as u64), size);
    is_same(rt, &decoded(rt, &bytes), message);
    let room = Vec::from_slice(rt.alloc(), b"what was there").expect(rt, MEMORY);
    let again = encode_in(room, message).expect(rt, MEMORY);
    assert!(rt; again.as_slice() == bytes.as_slice());
    bytes
}

/// The number -1.
const LESS: &[u8] = &[255; 8];

/// Metadata with a number at an offset: the length of a batch, the nulls of its node, the offset and
/// the length of its first buffer, and the id of a dictionary, which also has 32 bits without a
/// sign; and those of the least and the greatest numbers.
static NUMBERS: [(Part, &[Edit]); 8] = [
    (ONE_BATCH, &[(64, &[0; 8])]),
    (ONE_BATCH, &[(64, LESS)]),
    (ONE_BATCH, &[(96, LESS)]),
    (ONE_BATCH, &[(112, LESS)]),
    (ONE_BATCH, &[(120, LESS)]),
    (ABC, &[(64, LESS)]),
    (ABC, &[(64, &[0xfe, 0xff, 0xff, 0xff, 0, 0, 0, 0])]),
    ((Bytes(&EXTREMES), 0, 144), &[]),
];

/// These bytes.
pub(super) fn bytes_of(rt: &(impl Abort + AllocGlobal), parts: &[Part], edits: &[Edit]) -> Vec<u8> {
    joined(rt.alloc(), parts, edits).expect(rt, "parts of streams")
}

#[test]
fn numbers_are_written_byte_for_byte(rt: HostRuntime) {
    for (number, (part, edits)) in NUMBERS.iter().enumerate() {
        let bytes = bytes_of(&rt, &[*part], edits);
        let again = written(&rt, &decoded(&rt, &bytes));
        assert!(rt; again.as_slice() == bytes.as_slice(), "row {number}");
    }
}

/// Keys and values.
type Pairs = &'static [(&'static [u8], &'static [u8])];

fn pairs(rt: &(impl Abort + AllocGlobal), noted: Pairs) -> Vec<(Vec<u8>, Vec<u8>)> {
    let mut pairs = Vec::new(rt.alloc());
    for (key, value) in noted {
        let key = Vec::from_slice(rt.alloc(), key).expect(rt, MEMORY);
        let value = Vec::from_slice(rt.alloc(), value).expect(rt, MEMORY);
        pairs.push((key, value)).expect(rt, MEMORY);
    }
    pairs
}

fn field(
    rt: &(impl Abort + AllocGlobal),
    name: &str,
    nullable: bool,
    data_type: DataType,
) -> Field {
    let name = String::from_str(rt.alloc(), name).expect(rt, MEMORY);
    Field::new(rt.alloc(), name, data_type, nullable)
}

/// The message of the schema of these columns.
fn schema(rt: &(impl Abort + AllocGlobal), columns: Vec<Field>) -> Message {
    Message {
        version: MetadataVersion::V5,
        header: Header::Schema(Schema::new(rt.alloc(), columns).expect(rt, "a schema")),
        body_len: 0,
    }
}

const INT32: DataType = DataType::Int {
    bits: BitWidth::ThirtyTwo,
    signed: true,
};

/// A column `n` of signed 32-bit integers with these pairs, below structs `s`, with this many levels
/// in all.
fn deep(rt: &(impl Abort + AllocGlobal), levels: usize, noted: Pairs) -> Vec<Field> {
    let mut columns = Vec::new(rt.alloc());
    let lowest = field(rt, "n", true, INT32).with_metadata(pairs(rt, noted));
    columns.push(lowest).expect(rt, MEMORY);
    for _ in 1..levels {
        let above = field(rt, "s", false, DataType::Struct(columns));
        columns = Vec::new(rt.alloc());
        columns.push(above).expect(rt, MEMORY);
    }
    columns
}

const NONE: Pairs = &[];

const ONE: Pairs = &[(b"k", b"v")];

/// How many levels a column has, the pairs of the lowest field, and how many bytes another program
/// needed for it.
static DEEP: [(usize, Pairs, usize); 3] = [(1, NONE, 144), (32, NONE, 2128), (32, ONE, 2176)];

#[test]
fn schemas_that_are_built_are_written(rt: HostRuntime) {
    for (levels, noted, size) in &DEEP {
        let schema = schema(&rt, deep(&rt, *levels, noted));
        assert_eq!(rt; written(&rt, &schema).len(), *size);
    }
    let one = written(&rt, &schema(&rt, deep(&rt, 1, NONE)));
    assert!(rt; one.as_slice() == bytes_of(&rt, &[ONE_FIELD], &[]).as_slice());
}

/// The most columns that a schema can have, all nameless and of type Null.
#[test]
fn the_widest_schema_is_written(rt: HostRuntime) {
    let mut columns = Vec::new(rt.alloc());
    for _ in 0..65_536 {
        let column = field(&rt, "", false, DataType::Null);
        columns.push(column).expect(&rt, MEMORY);
    }
    assert_eq!(rt; written(&rt, &schema(&rt, columns)).len(), 3_932_224);
}

/// The column `n`, and a pair of the schema: another program wrote it in 200 bytes.
#[test]
fn a_schema_with_a_pair_is_written(rt: HostRuntime) {
    let schema = Schema::with_metadata(rt.alloc(), deep(&rt, 1, NONE), pairs(&rt, ONE));
    let message = Message {
        version: MetadataVersion::V5,
        header: Header::Schema(schema.expect(&rt, "a schema")),
        body_len: 0,
    };
    assert_eq!(rt; written(&rt, &message).len(), 200);
}

/// The metadata of one column `n` of decimals of 128 bits, of precision 38 and scale 10: the precision
/// is at byte 132, the scale at 136 and the number of bits at 140, each in four bytes.
const DECIMAL: &[u8; 152] = b"\x10\0\0\0\x0c\0\x18\0\x04\0\x06\0\x08\0\x10\0\x0c\0\0\0\x04\0\x01\0\
    \x18\0\0\0\0\0\0\0\0\0\0\0\0\0\0\0\x08\0\x0c\0\x04\0\x08\0\x08\0\0\0\0\0\0\0\x04\0\0\0\x01\0\0\
    \0\x18\0\0\0\x10\0\x14\0\x04\0\x08\0\t\0\x0c\0\0\0\x10\0\0\0\0\0\x14\0\0\0\x10\0\0\0\x01\x07\0\
    \0\x1c\0\0\0(\0\0\0\x01\0\0\0n\0\n\0\x10\0\x04\0\x08\0\x0c\0\0\0\0\0\x0e\0\0\0&\0\0\0\n\0\0\0\
    \x80\0\0\0\0\0\0\0\0\0\0\0";

/// Widths, precisions and scales, and the edits of its bytes for them.
static DECIMALS: [(DecimalWidth, u8, i8, &[Edit]); 6] = [
    (OneHundredTwentyEight, 38, 10, &[]),
    (OneHundredTwentyEight, 1, 0, &[(132, &[1]), (136, &[0])]),
    (ThirtyTwo, 9, 76, &[(132, &[9]), (136, &[76]), (140, &[32])]),
    (
        SixtyFour,
        18,
        -1,
        &[(132, &[18]), (136, &[255; 4]), (140, &[64])],
    ),
    (
        TwoHundredFiftySix,
        76,
        -76,
        &[(132, &[76]), (136, &[180, 255, 255, 255]), (140, &[0, 1])],
    ),
    (TwoHundredFiftySix, 38, 10, &[(140, &[0, 1])]),
];

#[test]
fn decimals_are_written_byte_for_byte(rt: HostRuntime) {
    for &(width, precision, scale, edits) in &DECIMALS {
        let of = DataType::Decimal {
            width,
            precision,
            scale,
        };
        let mut columns = Vec::new(rt.alloc());
        columns.push(field(&rt, "n", true, of)).expect(&rt, MEMORY);
        let bytes = written(&rt, &schema(&rt, columns));
        let expected = bytes_of(&rt, &[(Bytes(DECIMAL), 0, 152)], edits);
        assert!(rt;
            bytes.as_slice() == expected.as_slice(),
            "{precision} {scale}"
        );
    }
}

/// The metadata of one column `l` of fixed-size lists of 3 values of the field `c`, which are nulls:
/// the size is at byte 124, in four bytes.
const LISTS: &[u8; 192] = b"\x10\0\0\0\x0c\0\x18\0\x04\0\x06\0\x08\0\x10\0\x0c\0\0\0\x04\0\x01\0\
    \x18\0\0\0\0\0\0\0\0\0\0\0\0\0\0\0\x08\0\x0c\0\x04\0\x08\0\x08\0\0\0\0\0\0\0\x04\0\0\0\x01\0\0\
    \0\x18\0\0\0\x10\0\x14\0\x04\0\x08\0\t\0\x0c\0\0\0\x10\0\0\0\0\0\x14\0\0\0\x10\0\0\0\x01\x10\0\
    \0\x14\0\0\0\x18\0\0\0\x01\0\0\0l\0\x06\0\x08\0\x04\0\x06\0\0\0\x03\0\0\0\x01\0\0\0\x14\0\0\0\
    \x10\0\x14\0\x04\0\x08\0\t\0\x0c\0\0\0\x10\0\x10\0\0\0\x10\0\0\0\x01\x01\0\0\x14\0\0\0\x14\0\0\
    \0\x01\0\0\0c\0\x04\0\x04\0\0\0\x06\0\0\0\0\0\0\0";

/// Sizes, and the edits of its bytes for them.
static SIZES: [(u32, &[Edit]); 4] = [
    (3, &[]),
    (0, &[(124, &[0])]),
    (259, &[(124, &[3, 1])]),
    (2_147_483_647, &[(124, &[255, 255, 255, 127])]),
];

/// A column of fixed-size lists of this many values of this field.
fn lists(rt: &(impl Abort + AllocGlobal), child: Field, size: u32) -> Field {
    let child = Box::new(rt.alloc(), child).expect(rt, MEMORY);
    field(rt, "l", true, DataType::FixedSizeList(child, size))
}

#[test]
fn fixed_size_lists_are_written_byte_for_byte(rt: HostRuntime) {
    for &(size, edits) in &SIZES {
        let child = field(&rt, "c", true, DataType::Null);
        let mut columns = Vec::new(rt.alloc());
        columns.push(lists(&rt, child, size)).expect(&rt, MEMORY);
        let bytes = written(&rt, &schema(&rt, columns));
        let expected = bytes_of(&rt, &[(Bytes(LISTS), 0, 192)], edits);
        assert!(rt; bytes.as_slice() == expected.as_slice(), "{size}");
    }
}

/// Lists of lists of structs of numbers: another program wrote them in 336 bytes.
#[test]
fn fixed_size_lists_of_fixed_size_lists_are_written(rt: HostRuntime) {
    let lowest = field(&rt, "s", false, DataType::Struct(deep(&rt, 1, NONE)));
    let inner = lists(&rt, lowest, 3);
    let mut columns = Vec::new(rt.alloc());
    columns.push(lists(&rt, inner, 2)).expect(&rt, MEMORY);
    assert_eq!(rt; written(&rt, &schema(&rt, columns)).len(), 336);
}
