//! What a message is read as in addition to its schema, and what a fault reports in addition to its
//! kind.

use super::reading::{Edits, MEMORY, edited};
use crate::foreign::NOTHING;
use crate::vectors::{PLAIN, ROWS, WORDS};
use arrow_meta_reader::{Header, Message, RecordBatch, decode, judge};
use arrow_meta_tree::{BatchKind, MetaFault, tree};
use arrow_types::Limits;
use std::alloc::Global;
use std::process::Abort;

/// A batch: its rows, each node with its length and its nulls, each buffer with its offset and its
/// length.
fn push_batch(rt: &impl Abort, text: &mut String, batch: &RecordBatch) {
    write!(text, "{},", batch.length).expect(rt, MEMORY);
    for node in &batch.nodes {
        write!(text, " {}/{}", node.length, node.null_count).expect(rt, MEMORY);
    }
    text.push(',').expect(rt, MEMORY);
    for buffer in &batch.buffers {
        write!(text, " {}+{}", buffer.offset, buffer.length).expect(rt, MEMORY);
    }
}

/// A message: its version, the length of its body, and its header.
fn push_message(rt: &impl Abort, text: &mut String, message: &Message) {
    write!(text, "{:?} {} ", message.version, message.body_len).expect(rt, MEMORY);
    match &message.header {
        Header::Schema(schema) => write!(text, "{:?}", schema.fields()).expect(rt, MEMORY),
        Header::Dictionary(id, is_delta, batch) => {
            write!(text, "{id} {is_delta} ").expect(rt, MEMORY);
            push_batch(rt, text, batch);
        }
        Header::Batch(batch) => push_batch(rt, text, batch),
    }
}

/// What bytes mean, or their fault.
fn text_of(rt: &(impl Abort + AllocGlobal), meant: Result<Message, MetaFault>) -> String {
    let mut text = String::new(rt.alloc());
    match meant {
        Ok(message) => push_message(rt, &mut text, &message),
        Err(fault) => write!(text, "{fault:?}").expect(rt, MEMORY),
    }
    text
}

/// The same by the tree that is in the bytes.
fn judged(alloc: Global, bytes: &[u8], limits: &Limits) -> Result<Message, MetaFault> {
    judge(alloc, tree(alloc, bytes, limits)?, limits)
}

const ALL_ROWS: &str = "V5 24 3, 3/1, 0+1 8+12";

const ALL_WORDS: &str = "V5 24 0 false 3, 3/0, 0+0 0+16 16+3";

const LEAST: Edits = "14=0 44=0 48=0 64=5 76=1 82=0 84=0 86=0";

const ONE_FIELD: &str = "V5 0 [Field { name: \"n\", nullable: true, data_type: \
    Int { bits: ThirtyTwo, signed: true }, dictionary: None, metadata: [] }]";

/// For metadata of a batch, of a dictionary and of a schema: the bytes that are changed, and what
/// they mean then.
static OF_ROWS: [(Edits, &str); 14] = [
    ("", ALL_ROWS),
    ("20=3", "V4 24 3, 3/1, 0+1 8+12"),
    ("14=0", "V5 0 3, 3/1, 0+1 8+12"),
    ("44=0", "V5 24 0, 3/1, 0+1 8+12"),
    ("46=0", "V5 24 3,, 0+1 8+12"),
    ("48=0", "V5 24 3, 3/1,"),
    ("14=0 44=0 46=0 48=0", "V5 0 0,,"),
    ("71=128", "V5 24 -9223372036854775805, 3/1, 0+1 8+12"),
    ("95=128", "V5 24 3, -9223372036854775805/1, 0+1 8+12"),
    ("103=128", "V5 24 3, 3/-9223372036854775807, 0+1 8+12"),
    ("119=128", "V5 24 3, 3/1, -9223372036854775808+1 8+12"),
    ("127=128", "V5 24 3, 3/1, 0+-9223372036854775807 8+12"),
    ("40=12", ALL_ROWS),
    ("40=12 50=1", "Compressed { batch: Record, body_len: 24 }"),
];

static OF_WORDS: [(Edits, &str); 14] = [
    ("", ALL_WORDS),
    ("20=3", "V4 24 0 false 3, 3/0, 0+0 0+16 16+3"),
    ("64=5", "V5 24 5 false 3, 3/0, 0+0 0+16 16+3"),
    ("44=0 64=5", ALL_WORDS),
    ("76=1", "V5 24 0 true 3, 3/0, 0+0 0+16 16+3"),
    ("76=128", "V5 24 0 true 3, 3/0, 0+0 0+16 16+3"),
    ("77=1", ALL_WORDS),
    ("48=0 76=1", ALL_WORDS),
    ("82=0", "V5 24 0 false 0, 3/0, 0+0 0+16 16+3"),
    ("84=0", "V5 24 0 false 3,, 0+0 0+16 16+3"),
    ("86=0", "V5 24 0 false 3, 3/0,"),
    (LEAST, "V5 0 0 false 0,,"),
    (
        "76=2 71=128",
        "V5 24 -9223372036854775808 true 3, 3/0, 0+0 0+16 16+3",
    ),
    ("78=12", "Compressed { batch: Dictionary, body_len: 24 }"),
];

static OF_SCHEMA: [(Edits, &str); 5] = [
    ("", ONE_FIELD),
    ("46=0 20=3 32=8", "V4 8 []"),
    ("97=3 33=1", "Unsupported { body_len: 256 }"),
    ("132=24 32=9", "Schema { body_len: 9 }"),
    ("36=16 46=0", "V5 68719476736 []"),
];

fn all_mean(rt: &(impl Abort + AllocGlobal), bytes: &[u8], rows: &[(Edits, &str)]) {
    let limits = Limits::standard();
    for (edits, expected) in rows {
        let edited = edited(rt, rt.alloc(), bytes, edits);
        let text = text_of(rt, decode(rt.alloc(), &edited, &limits));
        assert_eq!(rt; text.as_str(), *expected, "{edits:?}");
        let text = text_of(rt, judged(rt.alloc(), &edited, &limits));
        assert_eq!(rt; text.as_str(), *expected, "{edits:?} by its tree");
    }
}

#[test]
fn messages_are_read(rt: HostRuntime) {
    all_mean(&rt, ROWS, &OF_ROWS);
    all_mean(&rt, WORDS, &OF_WORDS);
    all_mean(&rt, PLAIN, &OF_SCHEMA);
    all_mean(&rt, NOTHING, &[("", "V5 0 0,,")]);
    all_mean(&rt, &[], &[("", "Metadata")]);
}

/// The faults, and each with its number and words.
static FAULTS: [MetaFault; 8] = [
    MetaFault::Metadata,
    MetaFault::Version,
    MetaFault::Header,
    MetaFault::BodyLength,
    MetaFault::Unsupported { body_len: 0 },
    MetaFault::Schema { body_len: 0 },
    MetaFault::Compressed {
        batch: BatchKind::Record,
        body_len: 24,
    },
    MetaFault::Memory,
];

const WORDED: &str = "\
3 the metadata are not readable
4 the version is neither V4 nor V5
5 the header is none of a schema, a dictionary batch and a record batch
6 the body's length is negative or over the limit
8 the schema has something that is not supported
9 the schema contradicts itself
10 the body is compressed
19 out of memory
";

#[test]
fn faults_have_their_numbers_and_words(rt: HostRuntime) {
    let mut text = String::new(rt.alloc());
    for fault in &FAULTS {
        writeln!(text, "{} {fault}", fault.number()).expect(&rt, MEMORY);
    }
    assert_eq!(rt; text.as_str(), WORDED);
}
