//! What reports say within limits.

use super::reported::{Call, NUMBERS, reported};
use arrow_test_streams::streams::ONE_BATCH;
use arrow_types::Limits;
use std::process::Abort;

/// More bytes of metadata than a message has in these tests.
pub(super) const METADATA: u64 = 1_000;

/// Limits of the bytes of metadata and of a body.
pub(super) fn limits(rt: &impl Abort, most: (u64, u64)) -> Limits {
    Limits::new(most.0, most.1, 1_000).expect(rt, "limits")
}

/// A call for one batch, limits of metadata and of a body, and the report.
static LIMITED: [(Call, (u64, u64), &str); 8] = [
    (Call::Schema, (144, 0), "n: int32\n"),
    (Call::Schema, (143, 0), "1 fault at byte 0: MetadataSize"),
    (Call::Quiet, (144, 24), ""),
    (Call::Quiet, (143, 24), "1 fault at byte 0: MetadataSize"),
    (
        Call::Check,
        (144, 23),
        "at 0: schema, 1 columns\n1 fault at byte 152: BodyLength",
    ),
    (Call::Show, (144, 24), NUMBERS),
    (
        Call::Show,
        (144, 23),
        "batch,n\n1 fault at byte 152: BodyLength",
    ),
    (
        Call::First(3),
        (144, 23),
        "batch,n\n1 fault at byte 152: BodyLength",
    ),
];

#[test]
fn what_passes_a_limit(rt: HostRuntime) {
    for (call, most, expected) in &LIMITED {
        let mut input = ONE_BATCH.as_slice();
        let limits = limits(&rt, *most);
        let text = reported(&rt, rt.alloc(), *call, &mut input, &limits);
        assert_eq!(rt; text.as_str(), *expected);
    }
}
