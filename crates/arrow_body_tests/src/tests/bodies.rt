//! Bodies whose buffers are written one after the other, and the columns that they are, given as
//! texts: `3/1 4/0 | #5, 1 9 3, 'abc'` are two nodes, each of a length and a number of nulls, and
//! buffers of bytes, of numbers of four bytes each, and of a text.

use arrow_body_reader::{BodyFault, are_fit, load};
use arrow_data::{Array, Dictionary};
use arrow_test_fields::fields_of;
use arrow_types::{Buffer, FieldNode};
use bytes::Bytes;
use std::process::Abort;

/// Appends the bytes of a buffer.
pub(super) fn put(rt: &impl Abort, body: &mut Vec<u8>, words: &str) {
    if let Some(text) = words.strip_prefix('\'') {
        let text = text.strip_suffix('\'').expect(rt, "an end of the text");
        body.extend_from_slice(text.as_bytes()).expect(rt, "memory");
        return;
    }
    let (numbers, width) = match words.strip_prefix('#') {
        Some(bytes) => (bytes, 1),
        None => (words, 4),
    };
    for number in numbers.split_whitespace() {
        let number = number.parse::<i32>().ok().expect(rt, "a number");
        body.extend_from_slice(&number.to_le_bytes()[..width])
            .expect(rt, "memory");
    }
}

pub(super) fn nodes_in(rt: &(impl Abort + AllocGlobal), words: &str) -> Vec<FieldNode> {
    let mut nodes = Vec::new(rt.alloc());
    for word in words.split_whitespace() {
        let (length, null_count) = word.split_once('/').expect(rt, "a number of nulls");
        let node = FieldNode {
            length: length.parse::<i64>().ok().expect(rt, "a length"),
            null_count: null_count
                .parse::<i64>()
                .ok()
                .expect(rt, "a number of nulls"),
        };
        nodes.push(node).expect(rt, "memory");
    }
    nodes
}

pub(super) fn buffer(rt: &impl Abort, offset: usize, length: usize) -> Buffer {
    Buffer {
        offset: i64::try_from(offset).ok().expect(rt, "few bytes"),
        length: i64::try_from(length).ok().expect(rt, "few bytes"),
    }
}

/// Where the buffers lie in the body, and the body.
pub(super) fn laid(rt: &(impl Abort + AllocGlobal), words: &str) -> (Vec<Buffer>, Bytes) {
    let mut buffers = Vec::new(rt.alloc());
    let mut body = Vec::new(rt.alloc());
    for part in words.split(", ") {
        let start = body.len();
        put(rt, &mut body, part);
        let buffer = buffer(rt, start, body.len().saturating_sub(start));
        buffers.push(buffer).expect(rt, "memory");
    }
    let body = Bytes::copy_from_slice(rt.alloc(), &body).expect(rt, "memory");
    (buffers, body)
}

/// The nodes and the buffers of a text, and the body; without buffers it has only nodes.
pub(super) fn parts_of(
    rt: &(impl Abort + AllocGlobal),
    words: &str,
) -> (Vec<FieldNode>, Vec<Buffer>, Bytes) {
    let Some((nodes, held)) = words.split_once(" | ") else {
        return (nodes_in(rt, words), Vec::new(rt.alloc()), Bytes::new());
    };
    let (buffers, body) = laid(rt, held);
    (nodes_in(rt, nodes), buffers, body)
}

/// The columns, or the fault; no test has a dictionary of a type other than its field's.
pub(super) fn loaded(
    rt: &(impl Abort + AllocGlobal),
    of: &str,
    words: &str,
    dictionaries: &[(i64, Dictionary)],
) -> Result<Vec<Array>, BodyFault> {
    let fields = fields_of(rt.alloc(), of).expect(rt, "fields");
    let (nodes, buffers, body) = parts_of(rt, words);
    assert!(rt; are_fit(&fields, dictionaries));
    load(rt.alloc(), &fields, &nodes, &buffers, &body, dictionaries)
}

fn only(rt: &impl Abort, columns: Result<Vec<Array>, BodyFault>) -> Array {
    let mut columns = columns.expect(rt, "the body is sound");
    columns.pop().expect(rt, "there is a column")
}

/// The dictionary of the values in the one column.
pub(super) fn dictionary(
    rt: &(impl Abort + AllocGlobal),
    columns: Result<Vec<Array>, BodyFault>,
) -> Dictionary {
    let values = only(rt, columns);
    assert!(rt; values.encoding().is_none() && !values.data_type().has_encoding_below());
    Dictionary::from_array(rt.alloc(), values).expect(rt, "memory")
}

/// Appends the values in the one column to those of the dictionary.
pub(super) fn append(
    rt: &(impl Abort + AllocGlobal),
    dictionary: &mut Dictionary,
    columns: Result<Vec<Array>, BodyFault>,
) {
    let values = only(rt, columns);
    assert!(rt; values.encoding().is_none() && values.data_type().same(dictionary.data_type()));
    assert!(rt; values.len() < 1 << 32 && dictionary.len() < 1 << 32);
    dictionary.append(rt.alloc(), values).expect(rt, "memory");
}

/// A list of one dictionary, with this id.
pub(super) fn listed(
    rt: &(impl Abort + AllocGlobal),
    id: i64,
    dictionary: Dictionary,
) -> Vec<(i64, Dictionary)> {
    vec![in rt.alloc(); (id, dictionary)].expect(rt, "memory")
}
