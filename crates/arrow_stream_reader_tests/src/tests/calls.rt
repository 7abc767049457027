//! The result of each call, one after the other.

use super::answers::{Answers, answers_to, push_snapshot};
use arrow_stream_reader::{Item, StreamReader};
use arrow_test_streams::parts::Source::{Bytes, Growing};
use arrow_test_streams::parts::{ABC, DE, END, Edit, FIRST, LETTERS, NUMBERS, Part, THREE, joined};
use arrow_types::Limits;
use std::alloc::{AllocError, Global};
use std::process::Abort;

/// Streams, and the calls of a reader: it is restarted, or is given the bytes of the stream from one
/// offset up to another. Each call is followed by its result, and the state of the reader then.
static SCRIPTS: [(&[Part], &str); 5] = [
    (
        &[NUMBERS, END, (Bytes(&[1, 2, 3]), 0, 3)],
        "\
0..0: 0 nothing; 0 held at 0: NoSchema at 0
0..100: 100 nothing; 100 held at 0: NoSchema at 0
restart: 0 held at 0: NoSchema at 0
0..163: 152 schema; 0 held at 152: whole with schema
152..163: 8 end; 0 held at 160: whole with schema
160..163: 0 nothing; 0 held at 160: whole with schema
restart: 0 held at 0: NoSchema at 0
",
    ),
    // An error lasts until the reader is restarted.
    (
        &[THREE, NUMBERS],
        "\
0..176: Order at 0; 0 held at 0: Order at 0
176..328: Order at 0; 0 held at 0: Order at 0
0..0: Order at 0; 0 held at 0: Order at 0
restart: 0 held at 0: NoSchema at 0
176..328: 152 schema; 0 held at 152: whole with schema
",
    ),
    // So does the error of an update. After it come a dictionary, a batch, the end marker, and
    // nothing.
    (
        &[LETTERS, DE, ABC, FIRST, END, NUMBERS],
        "\
0..200: 200 schema; 0 held at 200: whole with schema
200..424: NoBase at 200; 0 held at 200: NoBase at 200 with schema
424..648: NoBase at 200; 0 held at 200: NoBase at 200 with schema
648..816: NoBase at 200; 0 held at 200: NoBase at 200 with schema
816..824: NoBase at 200; 0 held at 200: NoBase at 200 with schema
824..824: NoBase at 200; 0 held at 200: NoBase at 200 with schema
restart: 0 held at 0: NoSchema at 0
824..976: 152 schema; 0 held at 152: whole with schema
",
    ),
    // A dictionary is looked up by its id.
    (
        &[LETTERS, ABC],
        "\
0..0: 0 nothing; 0 held at 0: NoSchema at 0
0..200: 200 schema; 0 held at 200: whole with schema
200..423: 223 nothing; 223 held at 200: Truncated at 200 with schema
423..424: 1 dictionary; 0 held at 424: whole with schema, 1, 0 of 3
restart: 0 held at 0: NoSchema at 0
",
    ),
    // Each call with all remaining bytes of the stream.
    (
        &[(Growing, 0, 1_376)],
        "\
0..1376: 200 schema; 0 held at 200: whole with schema
200..1376: 224 dictionary; 0 held at 424: whole with schema, 1, 0 of 3
424..1376: 168 batch; 0 held at 592: whole with schema, 1, 0 of 3
592..1376: 224 dictionary; 0 held at 816: whole with schema, 1, 0 of 5
816..1376: 160 batch; 0 held at 976: whole with schema, 1, 0 of 5
976..1376: 232 dictionary; 0 held at 1208: whole with schema, 1, 0 of 4
1208..1376: 160 batch; 0 held at 1368: whole with schema, 1, 0 of 4
1368..1376: 8 end; 0 held at 1376: whole with schema, 1, 0 of 4
1376..1376: 0 nothing; 0 held at 1376: whole with schema, 1, 0 of 4
",
    ),
];

/// Appends the call that this line names, and its result.
fn push_call(
    text: &mut String,
    reader: &mut StreamReader,
    bytes: &[u8],
    line: &str,
) -> Result<(), AllocError> {
    let call = line.split_once(": ").map_or(line, |parts| parts.0);
    write!(text, "{call}: ")?;
    match piece_in(call, bytes) {
        Some(piece) => push_answer(text, reader, piece)?,
        None => reader.restart(),
    }
    push_snapshot(text, reader)?;
    push_shown(text, reader)?;
    text.push('\n')
}

/// The bytes between the two offsets that a call names.
fn piece_in<'a>(call: &str, bytes: &'a [u8]) -> Option<&'a [u8]> {
    let (start, end) = call.split_once("..")?;
    bytes.get(start.parse::<usize>().ok()?..end.parse::<usize>().ok()?)
}

/// Appends how many bytes a call takes, and what it returns.
fn push_answer(
    text: &mut String,
    reader: &mut StreamReader,
    piece: &[u8],
) -> Result<(), AllocError> {
    match reader.read(piece) {
        Ok((taken, item)) => {
            let word = match item {
                None => "nothing",
                Some(Item::Schema) => "schema",
                Some(Item::Dictionary(_)) => "dictionary",
                Some(Item::Batch(_)) => "batch",
                Some(Item::End) => "end",
            };
            write!(text, "{taken} {word}; ")
        }
        Err(fault) => write!(text, "{} at {}; ", fault.kind, fault.place),
    }
}

/// Appends whether there is a schema, how many dictionaries there are, and, for each of these ids
/// that has one, how many values it has.
fn push_shown(text: &mut String, reader: &StreamReader) -> Result<(), AllocError> {
    if reader.schema().is_some() {
        text.push_str(" with schema")?;
    }
    let count = reader.dictionaries().entries().len();
    if count != 0 {
        write!(text, ", {count}")?;
    }
    for id in [0, 1, -1] {
        if let Some(dictionary) = reader.dictionaries().get(id) {
            write!(text, ", {id} of {}", dictionary.len())?;
        }
    }
    Ok(())
}

/// The results of the calls of a script.
fn played(alloc: Global, bytes: &[u8], script: &str) -> Result<String, AllocError> {
    let mut reader = StreamReader::new(alloc, Limits::standard());
    let mut text = String::new(alloc);
    for line in script.lines() {
        push_call(&mut text, &mut reader, bytes, line)?;
    }
    Ok(text)
}

#[test]
fn each_call_answers(rt: HostRuntime) {
    for (parts, script) in &SCRIPTS {
        let bytes = joined(rt.alloc(), parts, &[]).expect(&rt, "a stream");
        let text = played(rt.alloc(), &bytes, script).expect(&rt, "memory");
        assert_eq!(rt; text.as_str(), *script);
    }
}

/// Streams that a reader is given one after the other, restarted between them, each with its
/// results. The second one has another schema and uses the id again; after a restart nothing of the
/// old stream is left for a delta to extend.
static CONNECTIONS: [(&[Part], &[Edit], &str); 4] = [
    (
        &[(Growing, 0, 601)],
        &[],
        "schema k; dictionary a b c; batch a b c; 9 held at 592: Truncated at 592",
    ),
    (
        &[LETTERS, (Growing, 976, 1_376)],
        &[(105, &[4])],
        "schema k; dictionary 61 63 64 65; batch 63 65; end; 0 held at 600: whole",
    ),
    (
        &[LETTERS, ABC],
        &[],
        "schema k; dictionary a b c; 0 held at 424: whole",
    ),
    (
        &[LETTERS, DE],
        &[],
        "schema k; refused NoBase at 200; 0 held at 200: NoBase at 200",
    ),
];

#[test]
fn one_connection_after_the_other(rt: HostRuntime) {
    let mut reader = StreamReader::new(rt.alloc(), Limits::standard());
    for (parts, edits, expected) in &CONNECTIONS {
        let bytes = joined(rt.alloc(), parts, edits).expect(&rt, "a stream");
        reader.restart();
        assert!(rt; reader.schema().is_none() && reader.dictionaries().entries().is_empty());
        let text = answers_to(rt.alloc(), &mut reader, &[&bytes]).expect(&rt, "memory");
        assert_eq!(rt; text.as_str(), *expected);
    }
}

/// The rows of the batches of a stream, and the lengths of their dictionaries, when all of it is
/// read: a batch keeps the dictionary that it was sent with.
#[test]
fn batches_keep_their_dictionaries(rt: HostRuntime) {
    let letters = joined(rt.alloc(), &[(Growing, 0, 1_376)], &[]).expect(&rt, "a stream");
    let mut reader = StreamReader::new(rt.alloc(), Limits::standard());
    let mut answers = Answers::new(rt.alloc());
    answers.give(&mut reader, &letters).expect(&rt, "memory");
    let lengths = answers.dictionary_lengths(rt.alloc()).expect(&rt, "memory");
    assert_eq!(rt; lengths.as_str(), "3 5 4 ");
    let rows = answers.rows(rt.alloc()).expect(&rt, "memory");
    assert_eq!(rt; rows.as_str(), "batch a b cbatch e abatch c e");
}

/// The batches of one stream, after the reader has read another.
fn rows_at_last(alloc: Global, first: &[u8], second: &[u8]) -> Result<String, AllocError> {
    let mut reader = StreamReader::new(alloc, Limits::standard());
    let mut answers = Answers::new(alloc);
    answers.give(&mut reader, first)?;
    reader.restart();
    answers_to(alloc, &mut reader, &[second])?;
    answers.rows(alloc)
}

#[test]
fn batches_outlast_their_connection(rt: HostRuntime) {
    let letters = joined(rt.alloc(), &[(Growing, 0, 1_376)], &[]).expect(&rt, "a stream");
    let numbers = joined(rt.alloc(), &[NUMBERS, THREE, END], &[]).expect(&rt, "a stream");
    let rows = rows_at_last(rt.alloc(), &letters, &numbers).expect(&rt, "memory");
    assert_eq!(rt; rows.as_str(), "batch a b cbatch e abatch c e");
}
