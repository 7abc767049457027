//! Batches of a schema that differs from the writer's in one thing.

use super::batches::Form::{Bytes, Text};
use super::batches::{Kind, MEMORY, batch, builder, built, field, lists_of, structs_of};
use super::writers::{DELTA, WIDE, called, writer_of};
use arrow_data::Batch;
use arrow_sink::WriteFault::SchemaDiffers;
use arrow_types::BitWidth::{SixtyFour, ThirtyTwo};
use arrow_types::{DataType, Schema};
use std::process::Abort;

/// A writer of the schema of each batch takes it, and rejects all others.
fn assert_all_differ(rt: &(impl Abort + AllocGlobal), batches: &[Batch]) {
    for (i, one) in batches.iter().enumerate() {
        for (j, other) in batches.iter().enumerate() {
            let fault = called(rt, &mut writer_of(rt, one, DELTA, WIDE), Some(other));
            let wanted = if i == j { None } else { Some(SchemaDiffers) };
            assert!(rt; fault == wanted, "{i} {j}: {fault:?}");
        }
    }
}

/// A column of letters, and others that differ from it in one thing each.
static KINDS: [Kind; 9] = [
    ("k", true, Text, Some((0, ThirtyTwo, true, false))),
    ("K", true, Text, Some((0, ThirtyTwo, true, false))),
    ("k", false, Text, Some((0, ThirtyTwo, true, false))),
    ("k", true, Bytes, Some((0, ThirtyTwo, true, false))),
    ("k", true, Text, None),
    ("k", true, Text, Some((1, ThirtyTwo, true, false))),
    ("k", true, Text, Some((0, SixtyFour, true, false))),
    ("k", true, Text, Some((0, ThirtyTwo, false, false))),
    ("k", true, Text, Some((0, ThirtyTwo, true, true))),
];

#[test]
fn schemas_that_differ_in_one_thing(rt: HostRuntime) {
    let mut batches = Vec::new(rt.alloc());
    for kind in &KINDS {
        let batch = built(&rt, &[(*kind, "", "")], 0);
        batches.push(batch).expect(&rt, MEMORY);
    }
    assert_all_differ(&rt, &batches);
}

/// A pair of custom metadata: its level, its key and its value. Level 0 is the schema, 1 its column
/// of structs, 2 the lists in these, 3 large lists in those, and 4 nulls in these.
type Pair = (usize, &'static str, &'static str);

/// The custom metadata.
static NOTED: [&[Pair]; 18] = [
    &[],
    &[(0, "k", "v")],
    &[(0, "l", "v")],
    &[(0, "k", "w")],
    &[(0, "k", "v"), (0, "k", "v")],
    &[(0, "k", "v"), (1, "k", "v")],
    &[(1, "k", "v")],
    &[(1, "l", "v")],
    &[(1, "k", "w")],
    &[(2, "k", "v")],
    &[(2, "l", "v")],
    &[(2, "k", "w")],
    &[(3, "k", "v")],
    &[(3, "l", "v")],
    &[(3, "k", "w")],
    &[(4, "k", "v")],
    &[(4, "l", "v")],
    &[(4, "k", "w")],
];

/// The pairs of a level.
fn pairs_at(
    rt: &(impl Abort + AllocGlobal),
    noted: &[Pair],
    level: usize,
) -> Vec<(Vec<u8>, Vec<u8>)> {
    let mut pairs = Vec::new(rt.alloc());
    for (at, key, value) in noted {
        if *at == level {
            let key = Vec::from_slice(rt.alloc(), key.as_bytes()).expect(rt, MEMORY);
            let value = Vec::from_slice(rt.alloc(), value.as_bytes()).expect(rt, MEMORY);
            pairs.push((key, value)).expect(rt, MEMORY);
        }
    }
    pairs
}

/// A batch without rows of the schema with these pairs.
fn batch_noted(rt: &(impl Abort + AllocGlobal), noted: &[Pair]) -> Batch {
    let mut below = field(rt, "", DataType::Null).with_metadata(pairs_at(rt, noted, 4));
    for level in [3, 2, 1] {
        let data_type = match level {
            3 => DataType::LargeList(Box::new(rt.alloc(), below).expect(rt, MEMORY)),
            2 => lists_of(rt, below),
            _ => structs_of(rt, below),
        };
        below = field(rt, "", data_type).with_metadata(pairs_at(rt, noted, level));
    }
    let fields = vec![in rt.alloc(); below].expect(rt, MEMORY);
    let schema = Schema::with_metadata(rt.alloc(), fields, pairs_at(rt, noted, 0));
    let schema = schema.expect(rt, "a schema");
    let column = builder(rt, &schema).finish(rt.alloc(), &[]);
    let columns = vec![in rt.alloc(); column.expect(rt, "an array")].expect(rt, MEMORY);
    batch(rt, schema, columns, 0)
}

#[test]
fn schemas_that_differ_in_their_pairs(rt: HostRuntime) {
    let mut batches = Vec::new(rt.alloc());
    for noted in &NOTED {
        batches.push(batch_noted(&rt, noted)).expect(&rt, MEMORY);
    }
    assert_all_differ(&rt, &batches);
}
