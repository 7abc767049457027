//! Columns, and the ends of dictionaries from a value on, laid out as a body: bytes under nulls are
//! gone.
//!
//! Each row has its name, the types of its columns, their nodes and buffers, and after an arrow the
//! body that is stored: its alignment, its nodes, its buffers with their offsets, and its number of
//! bytes; bytes that lie in no buffer are 0.

use super::bodies::{append, buffer, dictionary, loaded, nodes_in, put};
use super::reported::holds;
use arrow_body_writer::{
    Align, Body, body_size, rest_size, store, store_in, store_rest, store_rest_in,
};
use arrow_data::{Array, Dictionary};
use arrow_types::{Buffer, FieldNode};
use std::alloc::Global;
use std::process::Abort;

static COLUMNS: [&str; 15] = [
    "a text after two bytes: utf8 | 1/0 | #, 2 3, 'xxa' => 8 | 1/0 | # @0, 0 1 @0, 'a' @8 | 16",
    // Each offset has 64 bits, which are two numbers here.
    "large texts: large_utf8 | 3/1 | #5, 0 0 1 0 1 0 3 0, 'abc' \
    => 8 | 3/1 | #5 @0, 0 0 1 0 1 0 3 0 @8, 'abc' @40 | 48",
    "bytes under a null: fixed_size_binary[3] | 2/1 | #1, #0 1 255 7 8 9 \
    => 8 | 2/1 | #1 @0, #0 1 255 0 0 0 @8 | 16",
    "a number under a null: int32 | 3/1 | #5, 1 9 3 => 8 | 3/1 | #5 @0, 1 0 3 @8 | 24",
    "a validity of no nulls: int32 | 2/0 | #255, 1 2 => 64 | 2/0 | # @0, 1 2 @0 | 64",
    "an item under a null: list int32 | 3/1 4/0 | #5, 0 2 3 4, #, 1 2 7 3 \
    => 8 | 3/1 3/0 | #5 @0, 0 2 2 3 @8, # @24, 1 2 3 @24 | 40",
    // The null list hides 7 and 3, and no list has 6: two nulls are stored in place of its items.
    "items under a null fixed-size list: fixed_size_list[2] int32 | 3/1 7/0 | #5, #, 1 2 7 3 4 5 6 \
    => 8 | 3/1 6/2 | #5 @0, #51 @8, 1 2 0 0 4 5 @16 | 40",
    "a null next_to them: fixed_size_list[2] int32 | 2/1 4/1 | #2, #11, 1 2 7 3 \
    => 8 | 2/1 4/3 | #2 @0, #8 @8, 0 0 0 3 @16 | 32",
    "fixed-size lists without nulls: fixed_size_list[2] int32 | 2/0 4/0 | #, #, 1 2 7 3 \
    => 8 | 2/0 4/0 | # @0, # @0, 1 2 7 3 @0 | 16",
    "fixed-size lists of no items: fixed_size_list[0] int32 | 3/1 1/0 | #5, #, 9 \
    => 8 | 3/1 0/0 | #5 @0, # @8, # @8 | 8",
    // The second list of lists is null: so are both of its lists, and their four items.
    "lists in lists: fixed_size_list[2] fixed_size_list[2] int32 | 2/1 4/0 8/0 \
    | #1, #, #, 1 2 3 4 5 6 7 8 \
    => 8 | 2/1 4/2 8/4 | #1 @0, #3 @8, #15 @16, 1 2 3 4 0 0 0 0 @24 | 56",
    "texts under a null: fixed_size_list[1] utf8 | 2/1 2/0 | #1, #, 0 1 2, 'ab' \
    => 8 | 2/1 2/1 | #1 @0, #1 @8, 0 1 1 @16, 'a' @32 | 40",
    "a text under a null: struct[1] utf8 | 2/1 2/0 | #1, #, 0 1 2, 'ab' \
    => 8 | 2/1 2/1 | #1 @0, #1 @8, 0 1 1 @16, 'a' @32 | 40",
    "a number under a null struct: struct[1] int32 | 3/1 4/0 | #5, #, 1 9 3 7 \
    => 8 | 3/1 3/1 | #5 @0, #5 @8, 1 0 3 @16 | 32",
    "a null number next_to it: struct[1] int32 | 3/1 3/1 | #5, #6, 1 9 3 \
    => 8 | 3/1 3/2 | #5 @0, #4 @8, 0 0 3 @16 | 32",
];

/// Dictionaries with one segment or two, and the value from which on they are stored. The texts are
/// "a", "b", "c", "d" and "e"; the second segment has a byte before its first value.
static RESTS: [&str; 10] = [
    "after the third: utf8 | 5/0 | #, 0 1 2 3 4 5, 'abcde' from 3 \
    => 8 | 2/0 | # @0, 0 1 2 @0, 'de' @16 | 24",
    "all of one segment: utf8 | 5/0 | #, 0 1 2 3 4 5, 'abcde' from 0 \
    => 8 | 5/0 | # @0, 0 1 2 3 4 5 @0, 'abcde' @24 | 32",
    // From its end on there is only the first offset.
    "behind the end: utf8 | 5/0 | #, 0 1 2 3 4 5, 'abcde' from 5 => 8 | 0/0 | # @0, 0 @0, # @8 | 8",
    "out of both segments: utf8 | 3/0 | #, 0 1 2 3, 'abc' + 2/0 | #, 1 2 3, 'xde' from 2 \
    => 8 | 3/0 | # @0, 0 1 2 3 @0, 'cde' @16 | 24",
    "the second segment: utf8 | 3/0 | #, 0 1 2 3, 'abc' + 2/0 | #, 1 2 3, 'xde' from 3 \
    => 64 | 2/0 | # @0, 0 1 2 @0, 'de' @64 | 128",
    "all of both segments: utf8 | 3/0 | #, 0 1 2 3, 'abc' + 2/0 | #, 1 2 3, 'xde' from 0 \
    => 8 | 5/0 | # @0, 0 1 2 3 4 5 @0, 'abcde' @24 | 32",
    // "a", a null with "z" under it, and "bc": stored from the null on.
    "from a null on: utf8 | 2/1 | #1, 0 1 2, 'az' + 1/0 | #, 0 2, 'bc' from 1 \
    => 8 | 2/1 | #2 @0, 0 0 2 @8, 'bc' @24 | 32",
    "numbers: int32 | 2/0 | #, 1 2 + 1/0 | #, 3 from 1 => 8 | 2/0 | # @0, 2 3 @0 | 8",
    // The lists [1, 2] and a null, then [3], from the null on.
    "lists: list int32 | 2/1 3/0 | #1, 0 2 3, #, 1 2 7 + 1/0 1/0 | #, 0 1, #, 3 from 1 \
    => 8 | 2/1 1/0 | #2 @0, 0 0 1 @8, # @24, 3 @24 | 32",
    "nulls have no buffer: null | 3/3 + 4/4 from 2 => 8 | 5/5 |  | 0",
];

fn align_in(rt: &impl Abort, word: &str) -> Align {
    match word {
        "8" => Align::Eight,
        "64" => Align::SixtyFour,
        _ => panic!(rt; "{word} is no alignment"),
    }
}

/// A body that is expected.
#[derive(Drop)]
struct Wanted {
    align: Align,
    nodes: Vec<FieldNode>,
    buffers: Vec<Buffer>,
    bytes: Vec<u8>,
}

impl Wanted {
    /// The body of a text.
    fn of(rt: &(impl Abort + AllocGlobal), words: &str) -> Wanted {
        let (align, words) = words.split_once(" | ").expect(rt, "nodes");
        let (nodes, words) = words.split_once(" | ").expect(rt, "buffers");
        let (buffers, size) = words.split_once(" | ").expect(rt, "a size");
        let size = size.parse::<usize>().ok().expect(rt, "a number");
        let mut wanted = Wanted {
            align: align_in(rt, align),
            nodes: nodes_in(rt, nodes),
            buffers: Vec::new(rt.alloc()),
            bytes: vec![in rt.alloc(); 0; size].expect(rt, "memory"),
        };
        for buffer in buffers.split(", ") {
            if let Some((words, place)) = buffer.split_once(" @") {
                wanted.put(rt, words, place.parse::<usize>().ok().expect(rt, "a place"));
            }
        }
        wanted
    }

    /// Puts a buffer at its offset.
    fn put(&mut self, rt: &(impl Abort + AllocGlobal), words: &str, place: usize) {
        let mut held = Vec::new(rt.alloc());
        put(rt, &mut held, words);
        for (k, byte) in held.iter().enumerate() {
            let at = place.saturating_add(k);
            *self.bytes.get_mut(at).expect(rt, "a place in the body") = *byte;
        }
        let buffer = buffer(rt, place, held.len());
        self.buffers.push(buffer).expect(rt, "memory");
    }

    /// Whether the body is the expected one.
    fn is(&self, body: &Body) -> bool {
        body.nodes == self.nodes && body.buffers == self.buffers && body.bytes == self.bytes
    }
}

/// Stores the columns in a new body and in this one: `None` if a body is not the expected one.
fn store_twice(alloc: Global, room: &mut Body, columns: &[Array], wanted: &Wanted) -> Option<()> {
    let size = body_size(columns, wanted.align)?;
    let first = store(alloc, columns, wanted.align).ok()?;
    room.make_room(size as usize).ok()?;
    store_in(room, columns, wanted.align).ok()?;
    let is_so = size == wanted.bytes.len() as u64 && wanted.is(&first) && wanted.is(room);
    is_so.then_some(())
}

/// Asserts that the columns of rows are stored as the rows say.
pub(super) fn are_stored(rt: &(impl Abort + AllocGlobal), rows: &[&str]) {
    let mut room = Body::new(rt.alloc());
    for row in rows {
        let (of, wanted) = row.split_once(" => ").expect(rt, row);
        let (of, parts) = of.split_once(" | ").expect(rt, row);
        let (_, of) = of.split_once(": ").expect(rt, row);
        let columns = loaded(rt, of, parts, &[]).expect(rt, "a body that is sound");
        let wanted = Wanted::of(rt, wanted);
        store_twice(rt.alloc(), &mut room, &columns, &wanted).expect(rt, row);
    }
}

#[test]
fn columns_are_laid_out_again(rt: HostRuntime) {
    are_stored(&rt, &COLUMNS);
}

/// The dictionary with these segments.
fn of_segments(rt: &(impl Abort + AllocGlobal), of: &str, segments: &str) -> Dictionary {
    let mut whole: Option<Dictionary> = None;
    for parts in segments.split(" + ") {
        let columns = loaded(rt, of, parts, &[]);
        match &mut whole {
            None => whole = Some(dictionary(rt, columns)),
            Some(before) => append(rt, before, columns),
        }
    }
    whole.expect(rt, "a segment")
}

/// The same for a dictionary from a value on.
fn store_rest_twice(
    alloc: Global,
    room: &mut Body,
    (dictionary, from): (&Dictionary, usize),
    wanted: &Wanted,
) -> Option<()> {
    let size = rest_size(dictionary, from, wanted.align)?;
    let first = store_rest(alloc, dictionary, from, wanted.align).ok()?;
    room.make_room(size as usize).ok()?;
    store_rest_in(room, dictionary, from, wanted.align).ok()?;
    let is_so = size == wanted.bytes.len() as u64 && wanted.is(&first) && wanted.is(room);
    is_so.then_some(())
}

/// The same for dictionaries from a value on.
pub(super) fn are_rests(rt: &(impl Abort + AllocGlobal), rows: &[&str]) {
    let mut room = Body::new(rt.alloc());
    for row in rows {
        let (of, wanted) = row.split_once(" => ").expect(rt, row);
        let (of, from) = of.split_once(" from ").expect(rt, row);
        let (of, segments) = of.split_once(" | ").expect(rt, row);
        let (_, of) = of.split_once(": ").expect(rt, row);
        let whole = of_segments(rt, of, segments);
        let from = from.parse::<usize>().ok().expect(rt, row);
        let wanted = Wanted::of(rt, wanted);
        store_rest_twice(rt.alloc(), &mut room, (&whole, from), &wanted).expect(rt, row);
    }
}

#[test]
fn rests_are_laid_out(rt: HostRuntime) {
    are_rests(&rt, &RESTS);
}
