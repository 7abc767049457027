//! The messages of complete inputs as lines of JSON, and how the call ends. Python's `json` reads
//! their content from them.

use arrow_sink::probe::{Failing, Narrow, Trickle};
use arrow_sink::{Counted, Sink};
use arrow_test_streams::streams::{GROWING, ONE_BATCH};
use arrow_types::Limits;
use arrowflow_input::{Input, ToolFault};
use arrowflow_json::check_json;
use std::alloc::Global;
use std::io::ErrorKind;
use std::process::Abort;

/// The messages of the growing dictionary.
const MESSAGES: &str = "{\"at\":0,\"message\":\"schema\",\"columns\":1}\n\
    {\"at\":200,\"message\":\"dictionary\",\"id\":0,\"values\":3}\n\
    {\"at\":424,\"message\":\"batch\",\"number\":0,\"rows\":3}\n\
    {\"at\":592,\"message\":\"dictionary\",\"id\":0,\"values\":5}\n\
    {\"at\":816,\"message\":\"batch\",\"number\":1,\"rows\":2}\n\
    {\"at\":976,\"message\":\"dictionary\",\"id\":0,\"values\":4}\n\
    {\"at\":1208,\"message\":\"batch\",\"number\":2,\"rows\":2}\n\
    {\"at\":1368,\"message\":\"end marker\"}\n";

/// The schema of one batch.
const SCHEMA: &str = "{\"at\":0,\"message\":\"schema\",\"columns\":1}\n";

/// The output for an input, and after it the line of the fault.
fn checked<R: Input>(rt: &impl Abort, alloc: Global, input: &mut R, file: Option<&str>) -> String {
    let output = Counted::new(Vec::new(alloc));
    let (output, answer) = check_json(alloc, input, output, &Limits::standard(), file);
    let taken = output.into_inner();
    let taken = str::from_utf8(&taken).expect(rt, "the lines are UTF-8");
    let mut text = String::from_str(alloc, taken).expect(rt, "memory");
    if let Err(fault) = answer {
        let line = fault.line(alloc, "in", "out").expect(rt, "memory");
        text.push_str(&line).expect(rt, "memory");
    }
    text
}

#[test]
fn messages_of_streams(rt: HostRuntime) {
    let alloc = rt.alloc();
    let mut whole = GROWING.as_slice();
    assert_eq!(&rt; checked(&rt, alloc, &mut whole, None).as_str(), MESSAGES);
    let mut bit_by_bit = Trickle::new(&GROWING, 1, None);
    assert_eq!(&rt;
        checked(&rt, alloc, &mut bit_by_bit, None).as_str(),
        MESSAGES
    );
    let expected = "{\"file\":\"a.arrows\",\"at\":0,\"message\":\"schema\",\"columns\":1}\n\
        {\"file\":\"a.arrows\",\"at\":152,\"message\":\"batch\",\"number\":0,\"rows\":3}\n\
        {\"file\":\"a.arrows\",\"at\":328,\"message\":\"end of input\"}\n";
    let mut without_marker = &ONE_BATCH[..328];
    let found = checked(&rt, alloc, &mut without_marker, Some("a.arrows"));
    assert_eq!(&rt; found.as_str(), expected);
}

#[test]
fn streams_with_a_fault(rt: HostRuntime) {
    let alloc = rt.alloc();
    let mut cut = &ONE_BATCH[..300];
    let expected = "{\"at\":0,\"message\":\"schema\",\"columns\":1}\n\
        {\"at\":152,\"fault\":\"Truncated\"}\nfault at byte 152: Truncated";
    assert_eq!(&rt; checked(&rt, alloc, &mut cut, None).as_str(), expected);
    let mut empty = b"".as_slice();
    let expected = "{\"file\":\"e\",\"at\":0,\"fault\":\"NoSchema\"}\nfault at byte 0: NoSchema";
    assert_eq!(&rt;
        checked(&rt, alloc, &mut empty, Some("e")).as_str(),
        expected
    );
    let mut failing = Trickle::new(&ONE_BATCH, 1_000, Some((200, ErrorKind::Interrupted)));
    let mut expected = String::from_str(alloc, SCHEMA).expect(&rt, "memory");
    expected.push_str("cannot read in").expect(&rt, "memory");
    let found = checked(&rt, alloc, &mut failing, None);
    assert_eq!(&rt; found.as_str(), expected.as_str());
}

#[test]
fn outputs_that_fail(rt: HostRuntime) {
    let alloc = rt.alloc();
    let text = "{\"at\":0,\"message\":\"schema\",\"columns\":1}\n\
        {\"at\":152,\"fault\":\"Truncated\"}\n";
    for room in [0, 1, 41, 42, 60, text.len() - 1] {
        let output = Narrow::new(alloc, 5, room, Failing::ByError);
        let mut input = &ONE_BATCH[..300];
        let limits = Limits::standard();
        let (output, answer) = check_json(alloc, &mut input, output, &limits, None);
        assert!(&rt; matches!(answer, Err(ToolFault::Output)));
        assert!(&rt; output.failures() == 1);
        assert_eq!(&rt; output.taken(), &text.as_bytes()[..room]);
    }
}
