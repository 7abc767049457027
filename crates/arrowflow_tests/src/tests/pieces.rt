//! Copies of streams that arrive in pieces. Those of all vectors are compared in
//! `c/examples/pieces.c`.

use super::copying::NARROW;
use arrow_test_streams::streams::{GROWING, ONE_BATCH};
use arrow_types::Limits;
use arrowflow_copy::StreamCopier;

#[test]
fn what_comes_before_the_end(rt: HostRuntime) {
    let mut copier = StreamCopier::new(rt.alloc(), NARROW, Limits::standard());
    assert!(&rt;
        copier.ended().is_none() && copier.waiting() == 0,
        "nothing yet"
    );
    copier.put(&ONE_BATCH[..151]);
    assert!(&rt;
        copier.ended().is_none() && copier.waiting() == 0,
        "no whole message"
    );
    copier.put(&ONE_BATCH[151..327]);
    assert!(&rt;
        copier.ended().is_none() && copier.waiting() == 152,
        "a schema"
    );
    copier.put(&ONE_BATCH[327..328]);
    assert!(&rt;
        copier.ended().is_none() && copier.waiting() == 328,
        "a batch"
    );
    copier.put(&ONE_BATCH[328..]);
    assert!(&rt;
        copier.ended().is_some() && copier.waiting() == 336,
        "an end marker"
    );
}

#[test]
fn what_comes_after_the_end(rt: HostRuntime) {
    let mut copier = StreamCopier::new(rt.alloc(), NARROW, Limits::standard());
    copier.put(&ONE_BATCH[..328]);
    copier.end();
    for _ in 0..3 {
        assert!(&rt; matches!(copier.ended(), Some(Ok(()))), "it ended well");
        assert_eq!(&rt; copier.waiting(), 336);
        copier.put(&GROWING);
        copier.end();
    }
    let mut room = [7; 400];
    assert_eq!(&rt; copier.take(&mut room), 336);
    assert!(&rt;
        room.starts_with(&ONE_BATCH) && room[336..].iter().all(|byte| *byte == 7),
        "the stream alone"
    );
}
