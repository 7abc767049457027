//! The complete texts of explanations: worked out from the bytes by hand, and the dumps by Python.

use crate::summed;
use arrow_sink::probe::Trickle;
use arrow_test_streams::parts::{
    ABC, DE, END, Edit, FIRST, LETTERS, NUMBERS, Part, Source, THREE, joined,
};
use arrow_test_streams::streams::DOUBLES;
use arrow_types::{Limits, TypeSet};
use arrowflow_explain::explain;
use std::process::Abort;

/// A stream of pieces, with other bytes at some offsets, read with a limit on rows, and the lines of
/// its explanation.
struct Reported {
    parts: &'static [Part],
    edits: &'static [Edit],
    max_rows: u64,
    lines: &'static [&'static str],
}

static TEXTS: [Reported; 14] = [
    // a valid stream
    Reported {
        parts: &[NUMBERS, THREE, END],
        edits: &[],
        max_rows: 100,
        lines: &[
            "The stream is sound: 2 messages and an end marker.",
            "schema: 152 bytes",
            "batches: 1, 3 rows, 176 bytes",
            "column 0 \"n\": 13 bytes",
            "metadata: 312 bytes",
            "padding of bodies: 11 bytes",
            "copy: 520 bytes, 184 more",
        ],
    },
    // a dictionary that is extended and replaced
    Reported {
        parts: &[(Source::Growing, 0, 1376)],
        edits: &[],
        max_rows: 100,
        lines: &[
            "The stream is sound: 7 messages and an end marker.",
            "schema: 200 bytes",
            "batches: 3, 7 rows, 488 bytes",
            "column 0 \"k\": 28 bytes",
            "dictionary 0: 4 values after 3 dictionary batches, 680 bytes, 57 in buffers",
            "metadata: 1264 bytes",
            "padding of bodies: 27 bytes",
            "copy: 2184 bytes, 808 more",
        ],
    },
    // floats among the core types
    Reported {
        parts: &[(Source::Bytes(&DOUBLES), 0, 328)],
        edits: &[],
        max_rows: 100,
        lines: &[
            "fault at byte 0: Unsupported",
            "message 0 (schema) at byte 0: 136 bytes of metadata, 0 of body",
            "column 0 \"d\"",
            "FloatingPoint (type 3) is not among the types that are read",
            "  00000050  04 00 08 00 09 00 0c 00 00 00 10 00 00 00 00 00",
            "  00000060  14 00 00 00 10 00 00 00 01 03 00 00 14 00 00 00",
            "                                       ^^",
            "  00000070  18 00 00 00 01 00 00 00 64 00 06 00 06 00 04 00",
            "  00000080  06 00 00 00 02 00 00 00 00 00 00 00 00 00 00 00",
            "This type is read with --types all.",
        ],
    },
    // cut off in the metadata
    Reported {
        parts: &[(Source::Growing, 0, 600)],
        edits: &[],
        max_rows: 100,
        lines: &[
            "fault at byte 592: Truncated",
            "message 3 at byte 592",
            "the input ends inside the metadata of the message: 8 bytes of 200 are there",
            "The input ends inside a message: it was cut off. Send or copy it again.",
        ],
    },
    // no bytes
    Reported {
        parts: &[],
        edits: &[],
        max_rows: 100,
        lines: &[
            "fault at byte 0: NoSchema",
            "message 0 at byte 0",
            "the input ends inside the prefix of the message: 0 bytes of 8 are there",
            "no schema message is whole",
            "The input is empty, or a part of a stream.",
        ],
    },
    // a line of text
    Reported {
        parts: &[(Source::Bytes(b"hello"), 0, 5)],
        edits: &[],
        max_rows: 100,
        lines: &[
            "fault at byte 0: NoSchema",
            "message 0 at byte 0",
            "the input ends inside the prefix of the message: 5 bytes of 8 are there",
            "no schema message is whole",
            "This is no Arrow stream.",
        ],
    },
    // an Arrow file
    Reported {
        parts: &[(Source::Bytes(b"ARROW1\x00\x00"), 0, 8), NUMBERS],
        edits: &[],
        max_rows: 100,
        lines: &[
            "fault at byte 0: Continuation",
            "message 0 at byte 0",
            "continuation 41 52 52 4F is found: a message begins with FF FF FF FF",
            "  00000000  41 52 52 4f 57 31 00 00 ff ff ff ff 90 00 00 00",
            "            ^^ ^^ ^^ ^^",
            "  00000010  10 00 00 00 0c 00 18 00 04 00 06 00 08 00 10 00",
            "  00000020  0c 00 00 00 04 00 01 00 18 00 00 00 00 00 00 00",
            "  00000030  00 00 00 00 00 00 00 00 08 00 0c 00 04 00 08 00",
            "This is an Arrow file: its stream begins at byte 8, and ends before the footer.",
        ],
    },
    // a Parquet file
    Reported {
        parts: &[(Source::Bytes(b"PAR1\x15\x04\x15\x10\x15\x14"), 0, 10)],
        edits: &[],
        max_rows: 100,
        lines: &[
            "fault at byte 0: Continuation",
            "message 0 at byte 0",
            "continuation 50 41 52 31 is found: a message begins with FF FF FF FF",
            "  00000000  50 41 52 31 15 04 15 10 15 14",
            "            ^^ ^^ ^^ ^^",
            "This is a Parquet file, and no Arrow stream.",
        ],
    },
    // gzip
    Reported {
        parts: &[(
            Source::Bytes(b"\x1f\x8b\x08\x00\x00\x00\x00\x00\x00\x03"),
            0,
            10,
        )],
        edits: &[],
        max_rows: 100,
        lines: &[
            "fault at byte 0: Continuation",
            "message 0 at byte 0",
            "continuation 1F 8B 08 00 is found: a message begins with FF FF FF FF",
            "  00000000  1f 8b 08 00 00 00 00 00 00 03",
            "            ^^ ^^ ^^ ^^",
            "These bytes are compressed by gzip: decompress them first.",
        ],
    },
    // HTML
    Reported {
        parts: &[(
            Source::Bytes(b"<html><body>502 Bad Gateway</body></html>"),
            0,
            41,
        )],
        edits: &[],
        max_rows: 100,
        lines: &[
            "fault at byte 0: Continuation",
            "message 0 at byte 0",
            "continuation 3C 68 74 6D is found: a message begins with FF FF FF FF",
            "  00000000  3c 68 74 6d 6c 3e 3c 62 6f 64 79 3e 35 30 32 20",
            "            ^^ ^^ ^^ ^^",
            "  00000010  42 61 64 20 47 61 74 65 77 61 79 3c 2f 62 6f 64",
            "  00000020  79 3e 3c 2f 68 74 6d 6c 3e",
            "This is a page of HTML or XML, as servers send with an error.",
        ],
    },
    // an end marker first
    Reported {
        parts: &[END],
        edits: &[],
        max_rows: 100,
        lines: &[
            "fault at byte 0: NoSchema",
            "message 0 at byte 0: 0 bytes of metadata",
            "end marker: no schema message came before it",
            "  00000000  ff ff ff ff 00 00 00 00",
            "                        ^^ ^^ ^^ ^^",
            "The stream has no schema: write one, also without batches.",
        ],
    },
    // version V3
    Reported {
        parts: &[NUMBERS],
        edits: &[(28, b"\x02")],
        max_rows: 100,
        lines: &[
            "fault at byte 0: Version",
            "message 0 (schema) at byte 0: 144 bytes of metadata, 0 of body",
            "version V3: only V4 (number 3) and V5 (number 4) are read",
            "  00000000  ff ff ff ff 90 00 00 00 10 00 00 00 0c 00 18 00",
            "  00000010  04 00 06 00 08 00 10 00 0c 00 00 00 02 00 01 00",
            "                                                ^^ ^^",
            "  00000020  18 00 00 00 00 00 00 00 00 00 00 00 00 00 00 00",
            "  00000030  08 00 0c 00 04 00 08 00 08 00 00 00 00 00 00 00",
            "Write the stream with metadata of version V5.",
        ],
    },
    // a second schema
    Reported {
        parts: &[NUMBERS, NUMBERS],
        edits: &[],
        max_rows: 100,
        lines: &[
            "fault at byte 152: Order",
            "message 1 (schema) at byte 152: 144 bytes of metadata, 0 of body",
            "schema message: the stream has one already, and may have no other",
            "  00000098  ff ff ff ff 90 00 00 00 10 00 00 00 0c 00 18 00",
            "  000000a8  04 00 06 00 08 00 10 00 0c 00 00 00 04 00 01 00",
            "                                                      ^^",
            "  000000b8  18 00 00 00 00 00 00 00 00 00 00 00 00 00 00 00",
            "  000000c8  08 00 0c 00 04 00 08 00 08 00 00 00 00 00 00 00",
            "These may be two streams without an end marker between: read each by itself.",
        ],
    },
    // a body compressed by Zstandard
    Reported {
        parts: &[NUMBERS, THREE],
        edits: &[
            (200, b"\x0c"),
            (206, b"\x00\x00"),
            (210, b"\x04\x00"),
            (220, b"\x18\x00\x00\x00"),
            (
                244,
                b"\xf8\xff\xff\xff\x01\x00\x00\x00\x06\x00\x05\x00\x04\x00",
            ),
        ],
        max_rows: 100,
        lines: &[
            "fault at byte 152: Compressed",
            "message 1 (record batch) at byte 152: 144 bytes of metadata, 24 of body",
            "compression of the body: ZSTD; only bodies without compression are read",
            "  000000c8  0c 00 18 00 08 00 00 00 14 00 04 00 00 00 00 00",
            "  000000d8  10 00 00 00 18 00 00 00 03 00 00 00 00 00 00 00",
            "                        ^^ ^^ ^^ ^^",
            "  000000e8  0c 00 00 00 20 00 00 00 00 00 00 00 f8 ff ff ff",
            "  000000f8  01 00 00 00 06 00 05 00 04 00 00 00 00 00 00 00",
            "Write the stream without compression of its bodies.",
        ],
    },
];

static LATER_TEXTS: [Reported; 14] = [
    // an id that no field has
    Reported {
        parts: &[LETTERS, ABC],
        edits: &[(272, b"\x07")],
        max_rows: 100,
        lines: &[
            "fault at byte 200: UnknownId",
            "message 1 (dictionary batch) at byte 200: 192 bytes of metadata, 24 of body",
            "dictionary id 7: no field of the schema has it",
            "The batch was written for another schema than that of this stream.",
        ],
    },
    // a delta without a dictionary
    Reported {
        parts: &[LETTERS, DE],
        edits: &[],
        max_rows: 100,
        lines: &[
            "fault at byte 200: NoBase",
            "message 1 (dictionary batch) at byte 200: 192 bytes of metadata, 24 of body",
            "dictionary id 0: the batch is a delta, and no dictionary of the id came before",
            "A batch of the dictionary is missing before it.",
        ],
    },
    // rows over the limit
    Reported {
        parts: &[NUMBERS, THREE],
        edits: &[],
        max_rows: 2,
        lines: &[
            "fault at byte 152: Rows",
            "message 1 (record batch) at byte 152: 144 bytes of metadata, 24 of body",
            "row count 3: must be 0 or more, at most 2",
            "The limit may be too low: --limit-rows N",
        ],
    },
    // rows over all limits
    Reported {
        parts: &[NUMBERS, THREE],
        edits: &[(224, b"\x00\x00\x00\x80\x00\x00\x00\x00")],
        max_rows: 100,
        lines: &[
            "fault at byte 152: Rows",
            "message 1 (record batch) at byte 152: 144 bytes of metadata, 24 of body",
            "row count 2147483648: must be 0 or more, at most 100",
            "No limit may be so high: bytes were changed or lost.",
        ],
    },
    // a negative number of rows
    Reported {
        parts: &[NUMBERS, THREE],
        edits: &[(224, b"\xff\xff\xff\xff\xff\xff\xff\xff")],
        max_rows: 100,
        lines: &[
            "fault at byte 152: Rows",
            "message 1 (record batch) at byte 152: 144 bytes of metadata, 24 of body",
            "row count -1: must be 0 or more, at most 100",
            "A negative number is written by no writer: bytes were changed or lost.",
        ],
    },
    // a message without its table
    Reported {
        parts: &[NUMBERS],
        edits: &[(8, b"\xf0")],
        max_rows: 100,
        lines: &[
            "fault at byte 0: Metadata",
            "message 0 at byte 0: 144 bytes of metadata",
            "the Message table does not lie inside the metadata",
            "  00000000  ff ff ff ff 90 00 00 00 f0 00 00 00 0c 00 18 00",
            "                                    ^^ ^^ ^^ ^^",
            "  00000010  04 00 06 00 08 00 10 00 0c 00 00 00 04 00 01 00",
            "  00000020  18 00 00 00 00 00 00 00 00 00 00 00 00 00 00 00",
            "  00000030  08 00 0c 00 04 00 08 00 08 00 00 00 00 00 00 00",
            "Bytes were changed or lost, or the writer wrote no FlatBuffer.",
        ],
    },
    // a type without its table
    Reported {
        parts: &[NUMBERS],
        edits: &[(108, b"\x00")],
        max_rows: 100,
        lines: &[
            "fault at byte 0: Metadata",
            "message 0 (schema) at byte 0: 144 bytes of metadata, 0 of body",
            "column 0 \"n\"",
            "Int (type 2): the type's table is required: it is absent, or does not lie inside",
            "  the metadata",
            "  00000050  04 00 08 00 09 00 0c 00 00 00 10 00 00 00 00 00",
            "  00000060  14 00 00 00 10 00 00 00 01 02 00 00 00 00 00 00",
            "                                                ^^ ^^ ^^ ^^",
            "  00000070  24 00 00 00 01 00 00 00 6e 00 08 00 09 00 04 00",
            "  00000080  08 00 00 00 00 00 00 00 0e 00 00 00 20 00 00 00",
            "Bytes were changed, or the writer is at fault: send or write it again.",
        ],
    },
    // an Int of 24 bits
    Reported {
        parts: &[NUMBERS],
        edits: &[(140, b"\x18")],
        max_rows: 100,
        lines: &[
            "fault at byte 0: Schema",
            "message 0 (schema) at byte 0: 144 bytes of metadata, 0 of body",
            "column 0 \"n\"",
            "Int of bitWidth 24: must be 8, 16, 32 or 64",
            "  00000070  24 00 00 00 01 00 00 00 6e 00 08 00 09 00 04 00",
            "  00000080  08 00 00 00 00 00 00 00 0e 00 00 00 18 00 00 00",
            "                                                ^^ ^^ ^^ ^^",
            "  00000090  01 00 00 00 00 00 00 00",
            "Bytes were changed, or the writer is at fault: send or write it again.",
        ],
    },
    // an offset past the texts
    Reported {
        parts: &[LETTERS, ABC],
        edits: &[(404, b"\x05")],
        max_rows: 100,
        lines: &[
            "fault at byte 200: Layout",
            "message 1 (dictionary batch) at byte 200: 192 bytes of metadata, 24 of body",
            "the body does not have what its nodes and buffers say",
            "values of dictionary 0",
            "field node 0, buffer 1: slot 0: offsets 0 and 5: they must rise, up to 3 at most",
            "Bytes were changed, or the writer is at fault: send or write it again.",
        ],
    },
    // a text that is not UTF-8
    Reported {
        parts: &[LETTERS, ABC],
        edits: &[(417, b"\xff")],
        max_rows: 100,
        lines: &[
            "fault at byte 200: Text",
            "message 1 (dictionary batch) at byte 200: 192 bytes of metadata, 24 of body",
            "a text is not UTF-8",
            "values of dictionary 0",
            "field node 0, buffer 2: slot 1: not UTF-8: 1 bytes from byte 17 of the body on",
            "Bytes were changed, or the writer is at fault: send or write it again.",
        ],
    },
    // an index past the dictionary
    Reported {
        parts: &[LETTERS, ABC, FIRST],
        edits: &[(584, b"\x03")],
        max_rows: 100,
        lines: &[
            "fault at byte 424: Index",
            "message 2 (record batch) at byte 424: 144 bytes of metadata, 16 of body",
            "an index has no value in its dictionary",
            "column 0 \"k\"",
            "field node 0, buffer 1: slot 2: index 3: the dictionary has 3 values",
            "Bytes were changed, or the writer is at fault: send or write it again.",
        ],
    },
    // a buffer past the body
    Reported {
        parts: &[NUMBERS, THREE],
        edits: &[(296, b"\x7f")],
        max_rows: 100,
        lines: &[
            "fault at byte 152: Layout",
            "message 1 (record batch) at byte 152: 144 bytes of metadata, 24 of body",
            "the body does not have what its nodes and buffers say",
            "column 0 \"n\"",
            "field node 0, buffer 1: 127 bytes from byte 8 on, of a body of 24 bytes",
            "Bytes were changed, or the writer is at fault: send or write it again.",
        ],
    },
    // a buffer that is too short
    Reported {
        parts: &[NUMBERS, THREE],
        edits: &[(296, b"\x08")],
        max_rows: 100,
        lines: &[
            "fault at byte 152: Layout",
            "message 1 (record batch) at byte 152: 144 bytes of metadata, 24 of body",
            "the body does not have what its nodes and buffers say",
            "column 0 \"n\"",
            "field node 0, buffer 1: 8 bytes: 3 slots need 12",
            "Bytes were changed, or the writer is at fault: send or write it again.",
        ],
    },
    // a wrong number of nulls
    Reported {
        parts: &[NUMBERS, THREE],
        edits: &[(256, b"\x02")],
        max_rows: 100,
        lines: &[
            "fault at byte 152: Layout",
            "message 1 (record batch) at byte 152: 144 bytes of metadata, 24 of body",
            "the body does not have what its nodes and buffers say",
            "column 0 \"n\"",
            "field node 0: length 3, which its null count or its children do not fit",
            "Bytes were changed, or the writer is at fault: send or write it again.",
        ],
    },
];

/// A valid stream, with how many bytes of metadata and of a body it may have, and the lines of its
/// summary, which `examples/explained.py` prints too.
struct Summed {
    bytes: &'static [u8],
    most: (u64, u64),
    lines: &'static [&'static str],
}

const MOST: (u64, u64) = (4096, 65_536);

static SUMMARIES: [Summed; 9] = [
    // lists of structs
    Summed {
        bytes: summed::NESTED,
        most: MOST,
        lines: &[
            "The stream is sound: 2 messages and an end marker.",
            "schema: 344 bytes",
            "batches: 1, 3 rows, 384 bytes",
            "column 0 \"g\": 51 bytes",
            "metadata: 648 bytes",
            "padding of bodies: 37 bytes",
            "copy: 1224 bytes, 488 more",
        ],
    },
    // a dictionary below lists and structs
    Summed {
        bytes: summed::BELOW,
        most: MOST,
        lines: &[
            "The stream is sound: 3 messages and an end marker.",
            "schema: 448 bytes",
            "batches: 1, 2 rows, 328 bytes",
            "column 0 \"l\": 21 bytes",
            "column 1 \"s\": 9 bytes",
            "dictionary 0: 3 values after 1 dictionary batches, 224 bytes, 19 in buffers",
            "metadata: 936 bytes",
            "padding of bodies: 23 bytes",
            "copy: 1480 bytes, 472 more",
        ],
    },
    // gaps, and a buffer that belongs to no field
    Summed {
        bytes: summed::GAPS,
        most: MOST,
        lines: &[
            "The stream is sound: 2 messages.",
            "schema: 152 bytes",
            "batches: 1, 3 rows, 1192 bytes",
            "column 0 \"n\": 13 bytes",
            "metadata: 320 bytes",
            "padding of bodies: 1011 bytes",
            "copy: 520 bytes, 824 fewer",
        ],
    },
    // buffers that overlap
    Summed {
        bytes: summed::OVERLAP,
        most: MOST,
        lines: &[
            "The stream is sound: 2 messages and an end marker.",
            "schema: 224 bytes",
            "batches: 1, 2 rows, 216 bytes",
            "column 0 \"a\": 8 bytes",
            "column 1 \"b\": 8 bytes",
            "metadata: 432 bytes",
            "padding of bodies: 4 bytes",
            "copy: 648 bytes, 200 more",
        ],
    },
    // a schema with a body
    Summed {
        bytes: summed::SCHEMA_BODY,
        most: MOST,
        lines: &[
            "The stream is sound: 1 messages.",
            "schema: 176 bytes",
            "batches: 0, 0 rows, 0 bytes",
            "column 0 \"n\": 0 bytes",
            "metadata: 152 bytes",
            "padding of bodies: 24 bytes",
            "copy: 200 bytes, 24 more",
        ],
    },
    // a dictionary that is replaced before a batch needs it, and a long name
    Summed {
        bytes: summed::UNUSED,
        most: MOST,
        lines: &[
            "The stream is sound: 4 messages and an end marker.",
            "schema: 304 bytes",
            "batches: 1, 2 rows, 224 bytes",
            "column 0 \"a rather long name of letters,..\": 9 bytes",
            "column 1 \"n\": 8 bytes",
            "dictionary -7: 2 values after 2 dictionary batches, 496 bytes, 81 in buffers",
            "metadata: 912 bytes",
            "padding of bodies: 22 bytes",
            "copy: 1160 bytes, 128 more",
        ],
    },
    // floats, a type of `all`
    Summed {
        bytes: &DOUBLES,
        most: MOST,
        lines: &[
            "The stream is sound: 2 messages and an end marker.",
            "schema: 144 bytes",
            "batches: 1, 2 rows, 176 bytes",
            "column 0 \"d\": 17 bytes",
            "metadata: 304 bytes",
            "padding of bodies: 7 bytes",
            "copy: 520 bytes, 192 more",
        ],
    },
    // a body that has no room for more padding
    Summed {
        bytes: &DOUBLES,
        most: (4096, 127),
        lines: &[
            "The stream is sound: 2 messages and an end marker.",
            "schema: 144 bytes",
            "batches: 1, 2 rows, 176 bytes",
            "column 0 \"d\": 17 bytes",
            "metadata: 304 bytes",
            "padding of bodies: 7 bytes",
            "copy: refused batch 0: past a limit",
        ],
    },
    // metadata that have no room for more padding
    Summed {
        bytes: &DOUBLES,
        most: (144, 127),
        lines: &[
            "The stream is sound: 2 messages and an end marker.",
            "schema: 144 bytes",
            "batches: 1, 2 rows, 176 bytes",
            "column 0 \"d\": 17 bytes",
            "metadata: 304 bytes",
            "padding of bodies: 7 bytes",
            "copy: refused schema: past a limit",
        ],
    },
];

fn assert_text(rt: &(impl Abort + AllocGlobal), reported: &Reported) {
    let bytes = joined(rt.alloc(), reported.parts, reported.edits).expect(rt, "the stream");
    let limits = Limits::new(4096, 65_536, reported.max_rows).expect(rt, "the limits");
    assert_explained(rt, (&bytes, 65_536), &limits, reported.lines);
}

/// A stream's summary is the same, however the stream is cut.
fn assert_summary(rt: &(impl Abort + AllocGlobal), summed: &Summed) {
    let limits = Limits::new(summed.most.0, summed.most.1, 100).expect(rt, "the limits");
    let limits = limits.with_types(TypeSet::All);
    for at_once in [65_536, 7] {
        assert_explained(rt, (summed.bytes, at_once), &limits, summed.lines);
    }
}

/// Asserts that the bytes, this many of which come at once, are explained by these lines.
fn assert_explained(
    rt: &(impl Abort + AllocGlobal),
    given: (&[u8], usize),
    limits: &Limits,
    lines: &[&str],
) {
    let alloc = rt.alloc();
    let mut input = Trickle::new(given.0, given.1, None);
    let Ok(explanation) = explain(alloc, &mut input, limits) else {
        return assert!(rt; false);
    };
    let text = explanation.text(alloc).expect(rt, "the text");
    let mut expected = String::new(alloc);
    for line in lines {
        expected.push_str(line).expect(rt, "memory");
        expected.push_str("\n").expect(rt, "memory");
    }
    assert_eq!(rt; text.as_str(), expected.as_str());
}

fn assert_texts(rt: &(impl Abort + AllocGlobal), texts: &[Reported]) {
    for reported in texts {
        assert_text(rt, reported);
    }
}

fn assert_summaries(rt: &(impl Abort + AllocGlobal), summaries: &[Summed]) {
    for summed in summaries {
        assert_summary(rt, summed);
    }
}

#[test]
fn texts(rt: HostRuntime) {
    assert_texts(&rt, &TEXTS);
}

#[test]
fn later_texts(rt: HostRuntime) {
    assert_texts(&rt, &LATER_TEXTS);
}

#[test]
fn summaries(rt: HostRuntime) {
    assert_summaries(&rt, &SUMMARIES);
}
