//! The byte that decides an error: the first after which a reader returns it.

use crate::frames::columns::COMPRESSED;
use arrow_stream_reader::{Fault, StreamReader};
use arrow_test_streams::parts::Source::{Bytes, Growing};
use arrow_test_streams::parts::{ABC, DE, Edit, LETTERS, NUMBERS, Part, THREE, joined};
use arrow_types::Limits;

const SQUEEZED: Part = (Bytes(COMPRESSED), 0, 192);

/// A stream, some changed bytes of it, after how many bytes it is rejected, and with what.
type Decided = (&'static [Part], Edit, usize, &'static str);

/// Errors that the metadata decide are reported before the body comes; a body is checked when it is
/// complete. Four rows are allowed.
static DECISIONS: [Decided; 11] = [
    (&[THREE], (0, &[]), 152, "Order at 0"),
    (&[NUMBERS, SQUEEZED], (0, &[]), 320, "Compressed at 152"),
    (&[NUMBERS, THREE], (224, &[0xff; 8]), 304, "Rows at 152"),
    (&[NUMBERS, THREE], (199, &[0x80]), 304, "BodyLength at 152"),
    (&[LETTERS, ABC], (328, &[0xff; 8]), 400, "Rows at 200"),
    (&[LETTERS, ABC], (416, &[0xff]), 424, "Text at 200"),
    (&[NUMBERS, THREE, THREE], (244, &[0]), 328, "Layout at 152"),
    (&[LETTERS, DE], (272, &[0]), 400, "NoBase at 200"),
    (&[LETTERS, DE], (272, &[7]), 400, "UnknownId at 200"),
    (&[(Growing, 0, 816)], (576, &[3]), 592, "Index at 424"),
    // Three values and two more after them are five.
    (&[(Growing, 0, 1_376)], (0, &[]), 792, "Rows at 592"),
];

/// The first fault of a stream that comes byte by byte, and how many bytes had come by then.
fn first_fault(reader: &mut StreamReader, bytes: &[u8]) -> Option<(usize, Fault)> {
    for (k, byte) in bytes.chunks(1).enumerate() {
        if let Err(fault) = reader.read(byte) {
            return Some((k.saturating_add(1), fault));
        }
    }
    None
}

#[test]
fn the_byte_that_decides(rt: HostRuntime) {
    let standard = Limits::standard();
    let limits = Limits::new(standard.max_metadata(), standard.max_body(), 4);
    let limits = limits.expect(&rt, "under the ceilings");
    for (number, (parts, edit, count, expected)) in DECISIONS.iter().enumerate() {
        let bytes = joined(rt.alloc(), parts, &[*edit]).expect(&rt, "a stream");
        let mut reader = StreamReader::new(rt.alloc(), limits);
        let (found, fault) = first_fault(&mut reader, &bytes).expect(&rt, "a fault");
        let reported = format!(in rt.alloc(); "{} at {}", fault.kind, fault.place);
        assert_eq!(rt; found, *count, "row {number}");
        assert_eq!(rt;
            reported.expect(&rt, "memory").as_str(),
            *expected,
            "row {number}"
        );
    }
}
