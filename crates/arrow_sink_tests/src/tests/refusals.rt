//! The errors of a writer, and their numbers and words.

use arrow_sink::WriteFault::{self, *};

static REFUSALS: [(WriteFault, &str); 7] = [
    (SchemaDiffers, "1 another schema"),
    (TooLarge, "2 past a limit"),
    (DictionariesDiffer, "3 two dictionaries of one id"),
    (Sink, "4 the sink failed"),
    (Broken, "5 the sink failed before"),
    (Finished, "6 the stream is finished"),
    (Memory, "7 out of memory"),
];

#[test]
fn refusals_are_reported(rt: HostRuntime) {
    for (fault, expected) in &REFUSALS {
        let got = format!(in rt.alloc(); "{} {fault}", fault.number()).expect(&rt, "memory");
        assert_eq!(rt; got.as_str(), *expected);
    }
}
