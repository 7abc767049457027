//! Makes columns and dictionaries from text: the types of the nodes, how many slots each has, and
//! the buffers, as in `list int32; 3 2; 5 / i 0 2 2 2 / / i 1 2`.

use arrow_body_reader::{are_fit, load};
use arrow_data::{Array, Dictionary};
use arrow_test_fields::fields_of;
use arrow_types::{Buffer, FieldNode};
use bytes::Bytes;
use std::process::Abort;

const MEMORY: &str = "memory";

/// The input of a row, and its expected result.
pub(super) fn halves<'a>(rt: &impl Abort, row: &'a str) -> (&'a str, &'a str) {
    row.split_once(" => ").expect(rt, "an answer")
}

/// Appends a buffer to the others: letters in quotes, or numbers, of 4 bytes each after an `i`, of 8
/// after an `l`, of one without a letter.
fn put(rt: &impl Abort, body: &mut Vec<u8>, words: &str) {
    if let Some(rest) = words.strip_prefix('\'') {
        let letters = rest.strip_suffix('\'').expect(rt, "a quote at the end");
        body.extend_from_slice(letters.as_bytes())
            .expect(rt, MEMORY);
    } else if let Some(numbers) = words.strip_prefix('i') {
        put_numbers(rt, body, numbers, 4);
    } else if let Some(numbers) = words.strip_prefix('l') {
        put_numbers(rt, body, numbers, 8);
    } else {
        put_numbers(rt, body, words, 1);
    }
}

fn put_numbers(rt: &impl Abort, body: &mut Vec<u8>, words: &str, width: usize) {
    for word in words.split_ascii_whitespace() {
        let number = word.parse::<i64>().ok().expect(rt, "a number");
        let bytes = number.to_le_bytes();
        body.extend_from_slice(&bytes[..width.min(8)])
            .expect(rt, MEMORY);
    }
}

/// The positions of the buffers in the body, and the body: they lie one after the other.
fn laid(rt: &(impl Abort + AllocGlobal), parts: &str) -> (Vec<Buffer>, Bytes) {
    let mut buffers = Vec::new(rt.alloc());
    let mut body = Vec::new(rt.alloc());
    if !parts.is_empty() {
        for part in parts.split('/') {
            let start = body.len();
            put(rt, &mut body, part.trim());
            let length = body.len().saturating_sub(start) as i64;
            let offset = start as i64;
            buffers.push(Buffer { offset, length }).expect(rt, MEMORY);
        }
    }
    (buffers, Bytes::from_vec(body).expect(rt, MEMORY))
}

/// Nodes with these numbers of slots, which do not say how many are null.
fn nodes_of(rt: &(impl Abort + AllocGlobal), words: &str) -> Vec<FieldNode> {
    let mut nodes = Vec::new(rt.alloc());
    for word in words.split_ascii_whitespace() {
        let node = FieldNode {
            length: word.parse::<i64>().ok().expect(rt, "a length"),
            null_count: -1,
        };
        nodes.push(node).expect(rt, MEMORY);
    }
    nodes
}

/// The column, which refers to the dictionaries that are listed; none if its buffers do not make a
/// column.
pub(super) fn column(
    rt: &(impl Abort + AllocGlobal),
    text: &str,
    listed: &[(i64, Dictionary)],
) -> Option<Array> {
    let (types, rest) = text.split_once("; ").expect(rt, "types and lengths");
    let (lens, parts) = rest.split_once(';').unwrap_or((rest, ""));
    let fields = fields_of(rt.alloc(), types).expect(rt, "fields");
    let nodes = nodes_of(rt, lens);
    let (buffers, body) = laid(rt, parts);
    assert!(rt; are_fit(&fields, listed));
    match load(rt.alloc(), &fields, &nodes, &buffers, &body, listed) {
        Ok(mut columns) => columns.pop(),
        Err(_) => None,
    }
}

/// The column of a text that makes one, without dictionaries.
pub(super) fn plain(rt: &(impl Abort + AllocGlobal), text: &str) -> Array {
    column(rt, text, &[]).expect(rt, "a column")
}

/// The dictionary of the values of these columns, one after another.
pub(super) fn dictionary(rt: &(impl Abort + AllocGlobal), texts: &[&str]) -> Dictionary {
    assert!(rt; !texts.is_empty());
    let values = plain(rt, texts[0]);
    assert!(rt; values.encoding().is_none() && !values.data_type().has_encoding_below());
    let mut dictionary = Dictionary::from_array(rt.alloc(), values).expect(rt, MEMORY);
    for text in &texts[1..] {
        append(rt, &mut dictionary, text);
    }
    dictionary
}

/// Appends the values of one more column to the dictionary.
pub(super) fn append(rt: &(impl Abort + AllocGlobal), dictionary: &mut Dictionary, text: &str) {
    let values = plain(rt, text);
    assert!(rt; values.encoding().is_none() && values.data_type().same(dictionary.data_type()));
    assert!(rt; values.len() < 1 << 32 && dictionary.len() < 1 << 32);
    dictionary.append(rt.alloc(), values).expect(rt, MEMORY);
}

/// The list of one dictionary, of id 0.
pub(super) fn listed(
    rt: &(impl Abort + AllocGlobal),
    dictionary: Dictionary,
) -> Vec<(i64, Dictionary)> {
    let mut listed = Vec::new(rt.alloc());
    listed.push((0, dictionary)).expect(rt, MEMORY);
    listed
}
