//! A batch whose body is declared to be as long as a body may be, of which ten bytes come: the
//! reader holds no more than came, and does not return `Memory`, also where no such body could be
//! held.

use super::answers::answers_to;
use arrow_stream_reader::StreamReader;
use arrow_test_streams::streams::ONE_BATCH;
use arrow_types::Limits;
use std::alloc::Global;
use std::process::Abort;

/// 2^36.
const LONGEST: &[u8] = &[0, 0, 0, 0, 16, 0, 0, 0];

/// As many bytes as the body is declared to have.
const DECLARED: usize = 1 << 36;

/// More times that many than a process of 64 bits has addresses.
const TIMES: usize = 1 << 22;

/// Reserves the declared number of bytes again and again, until they are refused once: a bound on
/// memory that is the test's own, whatever the machine has.
fn all_that_is_there(rt: &impl Abort, alloc: Global) -> Vec<Vec<u8>> {
    let mut taken = Vec::new(alloc);
    for _ in 0..TIMES {
        match Vec::with_capacity(alloc, DECLARED) {
            Ok(room) => taken.push(room).expect(rt, "memory"),
            Err(_) => return taken,
        }
    }
    panic!(rt; "there is no bound on memory")
}

#[test]
fn no_room_is_made_for_what_has_not_come(rt: HostRuntime) {
    let mut reader = StreamReader::new(rt.alloc(), Limits::standard());
    let pieces = [&ONE_BATCH[..192], LONGEST, &ONE_BATCH[200..314]];
    let taken = all_that_is_there(&rt, rt.alloc());
    let text = answers_to(rt.alloc(), &mut reader, &pieces).expect(&rt, "memory");
    drop(taken);
    assert_eq!(rt;
        text.as_str(),
        "schema n; 162 held at 152: Truncated at 152"
    );
}
