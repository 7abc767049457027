//! The kinds of errors, and how a fault is printed.

use arrow_stream_reader::{Fault, Kind};

/// The kinds with their numbers and names.
static KINDS: [(Kind, u8, &str); 19] = [
    (Kind::Continuation, 1, "Continuation"),
    (Kind::MetadataSize, 2, "MetadataSize"),
    (Kind::Metadata, 3, "Metadata"),
    (Kind::Version, 4, "Version"),
    (Kind::Header, 5, "Header"),
    (Kind::BodyLength, 6, "BodyLength"),
    (Kind::Order, 7, "Order"),
    (Kind::Unsupported, 8, "Unsupported"),
    (Kind::Schema, 9, "Schema"),
    (Kind::Compressed, 10, "Compressed"),
    (Kind::UnknownId, 11, "UnknownId"),
    (Kind::NoBase, 12, "NoBase"),
    (Kind::Rows, 13, "Rows"),
    (Kind::Layout, 14, "Layout"),
    (Kind::Text, 15, "Text"),
    (Kind::Index, 16, "Index"),
    (Kind::NoSchema, 17, "NoSchema"),
    (Kind::Truncated, 18, "Truncated"),
    (Kind::Memory, 19, "Memory"),
];

#[test]
fn kinds_have_their_numbers_and_names(rt: HostRuntime) {
    for &(kind, number, name) in &KINDS {
        let shown = format!(in rt.alloc(); "{kind}").expect(&rt, "memory");
        assert_eq!(rt; kind.number(), number, "{name}");
        assert_eq!(rt; kind.name(), name);
        assert_eq!(rt; shown.as_str(), name);
    }
}

#[test]
fn faults_report_their_place_and_kind(rt: HostRuntime) {
    let fault = Fault {
        kind: Kind::Truncated,
        place: 816,
    };
    let shown = format!(in rt.alloc(); "{fault}").expect(&rt, "memory");
    assert_eq!(rt; shown.as_str(), "fault at byte 816: Truncated");
}
