//! Buffers that were laid out by hand from the FlatBuffers internals document, and the metadata of
//! two Arrow messages, each with its expected values.

ghost use Rattle.std.specs.Prelude.{◌≡◌, ◌≤◌};

use arrow_flatbuf::{Root, Table, Unreadable, Vector};
use std::process::Abort;

/// The root table at 12 has its vtable at 4, and one field of two bytes, 0x012a, at 16.
const PLAIN: &[u8] = b"\x0c\0\0\0\x06\0\x08\0\x04\0\0\0\x08\0\0\0\x2a\x01\0\0";

/// The same field, with the vtable after the table, and at offsets that are not aligned; and a table
/// whose field is its vtable.
const AFTER: &[u8] = b"\x04\0\0\0\xf8\xff\xff\xff\x2a\x01\0\0\x06\0\x08\0\x04\0";

const UNALIGNED: &[u8] = b"\x05\0\0\0\xff\xfa\xff\xff\xff\x2a\x01\x06\0\x08\0\x04\0";

const ITSELF: &[u8] = b"\x04\0\0\0\xfc\xff\xff\xff\x06\0\x08\0\x04\0";

/// The number of bytes kept from the start, an offset, and the bytes that replace those from the
/// offset on.
type Change = (usize, usize, &'static [u8]);

fn changed(rt: &(impl Abort + AllocGlobal), bytes: &[u8], (len, place, new): Change) -> Vec<u8> {
    let mut changed = Vec::new(rt.alloc());
    for (k, byte) in bytes.iter().enumerate().take(len) {
        let other = k.checked_sub(place).and_then(|at| new.get(at));
        changed.push(*other.unwrap_or(byte)).expect(rt, "memory");
    }
    changed
}

/// The field of number 0 in the root table, of two bytes; None if there is no root table.
type Number = Option<Result<Option<u64>, Unreadable>>;

fn first_number(bytes: &[u8]) -> Number {
    Some(Root::open(bytes)?.scalar(0, 2))
}

const FIELD: Number = Some(Ok(Some(0x012a)));

const ABSENT: Number = Some(Ok(None));

const OUTSIDE: Number = Some(Err(Unreadable));

/// The content of field 0 of the root table, as a number of two bytes.
static NUMBERS: [(&str, &[u8], Change, Number); 17] = [
    ("plain", PLAIN, (20, 0, b""), FIELD),
    ("no size of the table", PLAIN, (20, 6, b"\0"), FIELD),
    ("the vtable behind the table", AFTER, (18, 0, b""), FIELD),
    ("the vtable itself", ITSELF, (14, 0, b""), Some(Ok(Some(6)))),
    ("not aligned", UNALIGNED, (17, 0, b""), FIELD),
    ("an entry of 0", PLAIN, (20, 8, b"\0"), ABSENT),
    ("an entry past the vtable", PLAIN, (20, 4, b"\x04"), ABSENT),
    ("an entry half past it", PLAIN, (20, 4, b"\x05"), ABSENT),
    ("the last byte outside", PLAIN, (20, 8, b"\x07"), OUTSIDE),
    ("all far outside", PLAIN, (20, 8, b"\xff\xff"), OUTSIDE),
    ("no room for two sizes", PLAIN, (20, 4, b"\x03"), None),
    ("a vtable to the last byte", PLAIN, (20, 4, b"\x10"), FIELD),
    ("a vtable past it", PLAIN, (20, 4, b"\x11"), None),
    ("a vtable before all bytes", PLAIN, (20, 12, b"\x0d"), None),
    ("a table outside", PLAIN, (20, 0, b"\x11"), None),
    ("a root offset of 0", PLAIN, (20, 0, b"\0"), None),
    ("no whole root offset", PLAIN, (3, 0, b""), None),
];

#[test]
fn a_field_is_where_the_vtable_says(rt: HostRuntime) {
    for (name, bytes, change, answer) in &NUMBERS {
        let bytes = changed(&rt, bytes, *change);
        assert_eq!(rt; first_number(&bytes), *answer, "{name}");
    }
}

/// The text of field 0 in the root table.
fn first_text(bytes: &[u8]) -> Result<Option<&str>, Unreadable> {
    Root::open(bytes).ok_or(Unreadable)?.text(0)
}

/// The field is a text at 20, followed by a zero byte.
const TEXT: &[u8] = b"\x0c\0\0\0\x06\0\x08\0\x04\0\0\0\x08\0\0\0\x04\0\0\0\x03\0\0\0n\xc3\xa9\0";

/// The content of field 0 of the root table, as a text.
static TEXTS: [(&str, Change, Result<Option<&str>, Unreadable>); 12] = [
    ("a zero byte behind", (28, 0, b""), Ok(Some("né"))),
    ("no zero byte behind", (27, 0, b""), Ok(Some("né"))),
    ("empty, at the end", (24, 20, b"\0"), Ok(Some(""))),
    ("absent", (28, 8, b"\0"), Ok(None)),
    ("the last byte outside", (27, 20, b"\x04"), Err(Unreadable)),
    (
        "the largest count",
        (27, 20, b"\xff\xff\xff\xff"),
        Err(Unreadable),
    ),
    ("the count outside", (23, 0, b""), Err(Unreadable)),
    ("half a character", (28, 20, b"\x02"), Err(Unreadable)),
    ("a byte of no text", (28, 25, b"\xffe"), Err(Unreadable)),
    ("an offset of 0", (28, 16, b"\0"), Err(Unreadable)),
    (
        "far outside",
        (28, 16, b"\xff\xff\xff\xff"),
        Err(Unreadable),
    ),
    ("half of the offset", (18, 0, b""), Err(Unreadable)),
];

#[test]
fn a_text_is_counted_and_utf8(rt: HostRuntime) {
    for (name, change, answer) in &TEXTS {
        let bytes = changed(&rt, TEXT, *change);
        assert_eq!(rt; first_text(&bytes), *answer, "{name}");
    }
}

/// How many elements of four bytes the vector in field 0 of the root table has.
fn first_len(bytes: &[u8]) -> Result<Option<usize>, Unreadable> {
    match Root::open(bytes).ok_or(Unreadable)?.vector(0, 4)? {
        None => Ok(None),
        Some(vector) => Ok(Some(vector.len())),
    }
}

/// The field is a vector of two elements at 20.
const TWO: &[u8] =
    b"\x0c\0\0\0\x06\0\x08\0\x04\0\0\0\x08\0\0\0\x04\0\0\0\x02\0\0\0\x01\0\0\0\x02\0\0\0";

/// How many elements of four bytes the vector has.
static LENGTHS: [(&str, Change, Result<Option<usize>, Unreadable>); 7] = [
    ("two elements", (32, 0, b""), Ok(Some(2))),
    ("empty, at the end", (24, 20, b"\0"), Ok(Some(0))),
    ("absent", (32, 4, b"\x04"), Ok(None)),
    ("the last byte outside", (31, 0, b""), Err(Unreadable)),
    // 2 ^ 30 elements have 2 ^ 32 bytes.
    ("many elements", (28, 20, b"\0\0\0\x40"), Err(Unreadable)),
    ("the count outside", (23, 20, b"\0"), Err(Unreadable)),
    ("an offset of 0", (32, 16, b"\0"), Err(Unreadable)),
];

#[test]
fn a_vector_lies_inside_with_all_elements(rt: HostRuntime) {
    for (name, change, answer) in &LENGTHS {
        let bytes = changed(&rt, TWO, *change);
        assert_eq!(rt; first_len(&bytes), *answer, "{name}");
    }
}

/// Field 0 of the root table at 12 is a vector of three offsets. The first two point to the same
/// table at 36, whose vtable at 4 is also that of the root table; the third is 0.
const SHARED: &[u8] =
    b"\x0c\0\0\0\x06\0\x08\0\x04\0\0\0\x08\0\0\0\x04\0\0\0\x03\0\0\0\x0c\0\0\0\x08\0\0\0\0\0\0\0\x20\0\0\0\x2a\x01\0\0";

/// The table that a field of another points to.
fn below<'a>(rt: &impl Abort, table: &Table<'a>, field: u16) -> Table<'a> {
    let below = table.table(field).expect(rt, "a table inside");
    below.expect(rt, "the table's field")
}

/// Asserts that a table has this number in a field, or no such field if there is none.
fn assert_number(rt: &impl Abort, table: &Table, field: u16, width: usize, answer: Option<u64>)
    requires low { 1 ≤ width }
    requires high { width ≤ 8 }
{
    assert_eq!(rt; table.scalar(field, width), Ok(answer), "field {field}");
    assert_eq!(rt; table.has(field), answer.is_some(), "field {field}");
}

/// The vector that a field of another holds, of elements of this many bytes.
fn vector<'a>(rt: &impl Abort, table: &Table<'a>, field: u16, width: usize) -> Vector<'a>
    ensures { result.size ≡ width }
{
    let vector = table.vector(field, width).expect(rt, "a vector inside");
    vector.expect(rt, "the vector's field")
}

#[test]
fn tables_and_vtables_are_shared(rt: HostRuntime) {
    let root = Root::open(SHARED).expect(&rt, "a root table");
    let tables = vector(&rt, &root, 0, 4);
    assert_eq!(rt; tables.len(), 3);
    for index in 0..2 {
        let shared = tables.table(index).expect(&rt, "a table");
        assert_number(&rt, &shared, 0, 2, Some(0x012a));
    }
    assert!(rt; tables.table(2).is_err());
}

/// The metadata of the schema message of one nullable field, "n", of signed numbers of 32 bits.
const SCHEMA: &[u8] = b"\x10\0\0\0\x0c\0\x18\0\x04\0\x06\0\x08\0\x10\0\x0c\0\0\0\x04\0\x01\0\x18\0\
    \0\0\0\0\0\0\0\0\0\0\0\0\0\0\x08\0\x0c\0\x04\0\x08\0\x08\0\0\0\0\0\0\0\x04\0\0\0\x01\0\0\0\x18\
    \0\0\0\x10\0\x14\0\x04\0\x08\0\t\0\x0c\0\0\0\x10\0\0\0\0\0\x14\0\0\0\x10\0\0\0\x01\x02\0\0\x1c\
    \0\0\0$\0\0\0\x01\0\0\0n\0\x08\0\t\0\x04\0\x08\0\0\0\0\0\0\0\x0e\0\0\0\x20\0\0\0\x01\0\0\0\0\0\
    \0\0";

#[test]
fn a_schema_message(rt: HostRuntime) {
    let message = Root::open(SCHEMA).expect(&rt, "a root table");
    assert_number(&rt, &message, 0, 2, Some(4));
    assert_number(&rt, &message, 1, 1, Some(1));
    assert_number(&rt, &message, 3, 8, Some(0));
    assert_number(&rt, &message, 4, 4, None);
    let schema = below(&rt, &message, 2);
    assert_number(&rt, &schema, 0, 2, Some(0));
    let fields = vector(&rt, &schema, 1, 4);
    assert_eq!(rt; fields.len(), 1);
    assert!(rt; !fields.is_empty());
    let field = fields.table(0).expect(&rt, "a field");
    assert_eq!(rt; field.text(0), Ok(Some("n")));
    assert_number(&rt, &field, 1, 1, Some(1));
    assert_number(&rt, &field, 2, 1, Some(2));
    let int = below(&rt, &field, 3);
    assert_number(&rt, &int, 0, 4, Some(32));
    assert_number(&rt, &int, 1, 1, Some(1));
    let encoding = field.table(4).expect(&rt, "no table outside");
    assert!(rt; encoding.is_none());
    assert!(rt; vector(&rt, &field, 5, 4).is_empty());
}

/// The metadata of a record batch of three rows, 1, null and 3, of that schema.
const BATCH: &[u8] = b"\x10\0\0\0\x0c\0\x18\0\x04\0\x06\0\x08\0\x10\0\x0c\0\0\0\x04\0\x03\0\x20\0\0\
    \0\0\0\0\0\x18\0\0\0\0\0\0\0\n\0\x18\0\x08\0\x10\0\x14\0\0\0\0\0\0\0\x10\0\0\0\0\0\0\0\x03\0\0\
    \0\0\0\0\0\x0c\0\0\0\x20\0\0\0\0\0\0\0\x01\0\0\0\x03\0\0\0\0\0\0\0\x01\0\0\0\0\0\0\0\0\0\0\0\
    \x02\0\0\0\0\0\0\0\0\0\0\0\x01\0\0\0\0\0\0\0\x08\0\0\0\0\0\0\0\x0c\0\0\0\0\0\0\0";

/// Asserts that the vector in a field has these pairs of numbers of eight bytes.
fn assert_pairs(rt: &impl Abort, table: &Table, field: u16, pairs: &[(u64, u64)]) {
    let structs = vector(rt, table, field, 16);
    assert_eq!(rt; structs.len(), pairs.len(), "field {field}");
    for (index, pair) in pairs.iter().enumerate() {
        let numbers = (structs.number(index, 0, 8), structs.number(index, 8, 8));
        assert_eq!(rt; numbers, *pair, "field {field}, {index}");
        assert_eq!(rt; structs.pair(index), *pair, "field {field}, {index}");
    }
}

#[test]
fn a_record_batch_message(rt: HostRuntime) {
    let message = Root::open(BATCH).expect(&rt, "a root table");
    assert_number(&rt, &message, 1, 1, Some(3));
    assert_number(&rt, &message, 3, 8, Some(24));
    let batch = below(&rt, &message, 2);
    assert_number(&rt, &batch, 0, 8, Some(3));
    assert!(rt; !batch.has(3));
    assert_pairs(&rt, &batch, 1, &[(3, 1)]);
    assert_pairs(&rt, &batch, 2, &[(0, 1), (8, 12)]);
}

#[test]
fn what_is_not_readable_in_words(rt: HostRuntime) {
    let shown = format!(in rt.alloc(); "{}", Unreadable).expect(&rt, "memory");
    assert_eq!(rt; shown.as_str(), "nothing readable stands there");
}
