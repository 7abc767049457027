//! Good and bad command lines, with the exit statuses of their faults.

use arrow_types::{Limits, TypeSet};
use arrowflow_line::{ArgFault, plan};
use std::alloc::Global;
use std::process::Abort;

/// The words of a line, and what they ask for, with the default limits.
static TASKS: [(&[&str], &str); 44] = [
    (
        &["arrowflow", "schema", "a.arrows"],
        "Schema(Files { names: [\"a.arrows\"], with_filename: false, json: false })",
    ),
    (
        &["any name", "schema", "/dev/stdin"],
        "Schema(Files { names: [\"/dev/stdin\"], with_filename: false, json: false })",
    ),
    (
        &["arrowflow", "check", "two words é"],
        "Check(Files { names: [\"two words é\"], with_filename: false, json: false }, false)",
    ),
    (
        &["arrowflow", "show", ""],
        "Show(Some(\"\"), ShowOptions { columns: None, batch: None, skip: None, rows: None, null: None, no_batch: false, json: false })",
    ),
    (
        &["arrowflow", "show", "--", "-x"],
        "Show(Some(\"-x\"), ShowOptions { columns: None, batch: None, skip: None, rows: None, null: None, no_batch: false, json: false })",
    ),
    (
        &["arrowflow", "show", "-"],
        "Show(Some(\"-\"), ShowOptions { columns: None, batch: None, skip: None, rows: None, null: None, no_batch: false, json: false })",
    ),
    (
        &["arrowflow", "copy", "a", "b"],
        "Copy(\"a\", Some(\"b\"), CopyOptions { stream: Options { updates: Delta, align: SixtyFour }, atomic: false, no_clobber: false, fail_downstream: false })",
    ),
    (
        &[
            "arrowflow",
            "copy",
            "-",
            "-",
            "--updates",
            "resend",
            "--align=8",
        ],
        "Copy(\"-\", Some(\"-\"), CopyOptions { stream: Options { updates: Resend, align: Eight }, atomic: false, no_clobber: false, fail_downstream: false })",
    ),
    (
        &[
            "arrowflow",
            "copy",
            "--align",
            "64",
            "a",
            "--updates=delta",
            "b",
        ],
        "Copy(\"a\", Some(\"b\"), CopyOptions { stream: Options { updates: Delta, align: SixtyFour }, atomic: false, no_clobber: false, fail_downstream: false })",
    ),
    (
        &["arrowflow", "drill", "a"],
        "Drill([\"a\"], Options { updates: Delta, align: SixtyFour }, 4611686018427387904, 65536)",
    ),
    (
        &[
            "arrowflow",
            "drill",
            "a",
            "b",
            "c",
            "--bytes",
            "0",
            "--piece",
            "1",
        ],
        "Drill([\"a\", \"b\", \"c\"], Options { updates: Delta, align: SixtyFour }, 0, 1)",
    ),
    (
        &[
            "arrowflow",
            "drill",
            "--bytes=975",
            "--align",
            "8",
            "a",
            "--piece=1073741824",
        ],
        "Drill([\"a\"], Options { updates: Delta, align: Eight }, 975, 1073741824)",
    ),
    (
        &[
            "arrowflow",
            "drill",
            "-",
            "--updates=resend",
            "--bytes",
            "4611686018427387904",
        ],
        "Drill([\"-\"], Options { updates: Resend, align: SixtyFour }, 4611686018427387904, 65536)",
    ),
    (
        &["arrowflow", "check", "a", "--quiet"],
        "Check(Files { names: [\"a\"], with_filename: false, json: false }, true)",
    ),
    (
        &["arrowflow", "check", "--quiet", "-"],
        "Check(Files { names: [\"-\"], with_filename: false, json: false }, true)",
    ),
    (
        &["arrowflow", "check", "--", "--quiet"],
        "Check(Files { names: [\"--quiet\"], with_filename: false, json: false }, false)",
    ),
    (
        &["arrowflow", "show", "a", "--rows", "0"],
        "Show(Some(\"a\"), ShowOptions { columns: None, batch: None, skip: None, rows: Some(0), null: None, no_batch: false, json: false })",
    ),
    (
        &["arrowflow", "show", "--rows=10", "a"],
        "Show(Some(\"a\"), ShowOptions { columns: None, batch: None, skip: None, rows: Some(10), null: None, no_batch: false, json: false })",
    ),
    (
        &["arrowflow", "show", "--rows", "18446744073709551615", "a"],
        "Show(Some(\"a\"), ShowOptions { columns: None, batch: None, skip: None, rows: Some(18446744073709551615), null: None, no_batch: false, json: false })",
    ),
    (
        &["arrowflow", "show", "--", "--rows"],
        "Show(Some(\"--rows\"), ShowOptions { columns: None, batch: None, skip: None, rows: None, null: None, no_batch: false, json: false })",
    ),
    (
        &["arrowflow", "show", "a", "--columns", "k"],
        "Show(Some(\"a\"), ShowOptions { columns: Some([\"k\"]), batch: None, skip: None, rows: None, null: None, no_batch: false, json: false })",
    ),
    (
        &["arrowflow", "show", "--columns=k,,a b,é,k", "a", "--rows=2"],
        "Show(Some(\"a\"), ShowOptions { columns: Some([\"k\", \"\", \"a b\", \"é\", \"k\"]), batch: None, skip: None, rows: Some(2), null: None, no_batch: false, json: false })",
    ),
    (
        &["arrowflow", "show", "a", "--columns", ","],
        "Show(Some(\"a\"), ShowOptions { columns: Some([\"\", \"\"]), batch: None, skip: None, rows: None, null: None, no_batch: false, json: false })",
    ),
    (
        &["arrowflow", "schema"],
        "Schema(Files { names: [], with_filename: false, json: false })",
    ),
    (
        &["arrowflow", "schema", "a", "-", "a"],
        "Schema(Files { names: [\"a\", \"-\", \"a\"], with_filename: false, json: false })",
    ),
    (
        &["arrowflow", "check", "-q"],
        "Check(Files { names: [], with_filename: false, json: false }, true)",
    ),
    (
        &["arrowflow", "check", "a", "-q", "b"],
        "Check(Files { names: [\"a\", \"b\"], with_filename: false, json: false }, true)",
    ),
    (
        &["arrowflow", "show"],
        "Show(None, ShowOptions { columns: None, batch: None, skip: None, rows: None, null: None, no_batch: false, json: false })",
    ),
    (
        &["arrowflow", "show", "--json", "a"],
        "Show(Some(\"a\"), ShowOptions { columns: None, batch: None, skip: None, rows: None, null: None, no_batch: false, json: true })",
    ),
    (
        &["arrowflow", "show", "-n", "2", "-c", "k,l"],
        "Show(None, ShowOptions { columns: Some([\"k\", \"l\"]), batch: None, skip: None, rows: Some(2), null: None, no_batch: false, json: false })",
    ),
    (
        &["arrowflow", "show", "-n7", "-cx", "a"],
        "Show(Some(\"a\"), ShowOptions { columns: Some([\"x\"]), batch: None, skip: None, rows: Some(7), null: None, no_batch: false, json: false })",
    ),
    (
        &["arrowflow", "schema", "-H", "a"],
        "Schema(Files { names: [\"a\"], with_filename: true, json: false })",
    ),
    (
        &["arrowflow", "check", "a", "-qH"],
        "Check(Files { names: [\"a\"], with_filename: true, json: false }, true)",
    ),
    (&["arrowflow", "explain"], "Explain(None)"),
    (&["arrowflow", "explain", "a"], "Explain(Some(\"a\"))"),
    (
        &["arrowflow", "copy", "a", "b", "--atomic"],
        "Copy(\"a\", Some(\"b\"), CopyOptions { stream: Options { updates: Delta, align: SixtyFour }, atomic: true, no_clobber: false, fail_downstream: false })",
    ),
    (
        &["arrowflow", "copy", "--no-clobber", "a", "b"],
        "Copy(\"a\", Some(\"b\"), CopyOptions { stream: Options { updates: Delta, align: SixtyFour }, atomic: false, no_clobber: true, fail_downstream: false })",
    ),
    (
        &["arrowflow", "copy", "a", "--fail-downstream", "b"],
        "Copy(\"a\", Some(\"b\"), CopyOptions { stream: Options { updates: Delta, align: SixtyFour }, atomic: false, no_clobber: false, fail_downstream: true })",
    ),
    (
        &["arrowflow", "copy", "a", "--in-place"],
        "Copy(\"a\", None, CopyOptions { stream: Options { updates: Delta, align: SixtyFour }, atomic: false, no_clobber: false, fail_downstream: false })",
    ),
    (
        &[
            "arrowflow",
            "show",
            "a",
            "--batch",
            "3",
            "--skip=5",
            "--null",
            "NULL",
        ],
        "Show(Some(\"a\"), ShowOptions { columns: None, batch: Some(3), skip: Some(5), rows: None, null: Some(\"NULL\"), no_batch: false, json: false })",
    ),
    (
        &["arrowflow", "show", "--no-batch", "--null=", "-n1"],
        "Show(None, ShowOptions { columns: None, batch: None, skip: None, rows: Some(1), null: Some(\"\"), no_batch: true, json: false })",
    ),
    (
        &["arrowflow", "schema", "--json", "a"],
        "Schema(Files { names: [\"a\"], with_filename: false, json: true })",
    ),
    (
        &["arrowflow", "check", "a", "--json"],
        "Check(Files { names: [\"a\"], with_filename: false, json: true }, false)",
    ),
    (
        &["arrowflow", "drill", "a", "--bytes", "3K", "--piece=1KB"],
        "Drill([\"a\"], Options { updates: Delta, align: SixtyFour }, 3072, 1000)",
    ),
];

const METADATA: u64 = 67_108_864;

const BODY: u64 = 68_719_476_736;

const ROWS: u64 = 2_147_483_647;

/// The words of a line, and the limits of metadata, of a body and of rows that they ask for.
static LIMITS: [(&[&str], [u64; 3]); 15] = [
    (&["arrowflow", "show", "a"], [METADATA, BODY, ROWS]),
    (
        &["arrowflow", "show", "a", "--limit-metadata", "5"],
        [5, BODY, ROWS],
    ),
    (
        &["arrowflow", "check", "--limit-body=6", "a"],
        [METADATA, 6, ROWS],
    ),
    (
        &["arrowflow", "schema", "a", "--limit-rows", "7"],
        [METADATA, BODY, 7],
    ),
    (
        &[
            "arrowflow",
            "copy",
            "--limit-rows=3",
            "a",
            "--limit-body",
            "2",
            "b",
            "--limit-metadata=1",
        ],
        [1, 2, 3],
    ),
    (
        &["arrowflow", "drill", "a", "b", "--limit-body", "0"],
        [METADATA, 0, ROWS],
    ),
    (
        &["arrowflow", "drill", "--limit-metadata=1073741824", "a"],
        [1_073_741_824, BODY, ROWS],
    ),
    (
        &["arrowflow", "copy", "a", "b", "--limit-body=1099511627776"],
        [METADATA, 1_099_511_627_776, ROWS],
    ),
    (
        &["arrowflow", "check", "--limit-rows", "2147483647", "a"],
        [METADATA, BODY, ROWS],
    ),
    (
        &[
            "arrowflow",
            "show",
            "--limit-metadata=1KiB",
            "--limit-body=2MiB",
        ],
        [1_024, 2_097_152, ROWS],
    ),
    (
        &[
            "arrowflow",
            "show",
            "--limit-metadata=1GiB",
            "--limit-body=1TiB",
        ],
        [1_073_741_824, 1_099_511_627_776, ROWS],
    ),
    (
        &[
            "arrowflow",
            "show",
            "--limit-metadata=3KB",
            "--limit-body=4MB",
        ],
        [3_000, 4_000_000, ROWS],
    ),
    (
        &[
            "arrowflow",
            "show",
            "--limit-metadata=1GB",
            "--limit-body=1TB",
        ],
        [1_000_000_000, 1_000_000_000_000, ROWS],
    ),
    (
        &[
            "arrowflow",
            "show",
            "--limit-metadata=5K",
            "--limit-body=+6M",
        ],
        [5_120, 6_291_456, ROWS],
    ),
    (
        &[
            "arrowflow",
            "show",
            "--limit-metadata=1G",
            "--limit-body=1T",
        ],
        [1_073_741_824, 1_099_511_627_776, ROWS],
    ),
];

fn assert_task(rt: &impl Abort, alloc: Global, words: &[&str], expected: &str) {
    let plan = plan(alloc, words).expect(rt, "a plan");
    let text = format!(in alloc; "{:?}", plan.task).expect(rt, "memory");
    assert_eq!(rt; text.as_str(), expected);
    assert!(rt; plan.limits == Limits::standard());
}

#[test]
fn good_lines_name_their_files(rt: HostRuntime) {
    for (words, expected) in &TASKS {
        assert_task(&rt, rt.alloc(), words, expected);
    }
}

fn assert_limits(rt: &impl Abort, alloc: Global, words: &[&str], expected: &[u64; 3]) {
    let limits = plan(alloc, words).expect(rt, "a plan").limits;
    assert_eq!(rt; limits.max_metadata(), expected[0], "of {words:?}");
    assert_eq!(rt; limits.max_body(), expected[1], "of {words:?}");
    assert_eq!(rt; limits.max_rows(), expected[2], "of {words:?}");
}

#[test]
fn limits_are_those_of_the_line(rt: HostRuntime) {
    for (words, expected) in &LIMITS {
        assert_limits(&rt, rt.alloc(), words, expected);
    }
}

/// The words of a line, and the bounds of rows, messages and bytes of a complete stream that they
/// ask for.
static TOTALS: [(&[&str], [Option<u64>; 3]); 10] = [
    (&["arrowflow", "check", "a"], [None, None, None]),
    (&["arrowflow", "schema", "a"], [None, None, None]),
    (&["arrowflow", "drill", "a"], [None, None, None]),
    (
        &["arrowflow", "check", "a", "--limit-total-rows", "5"],
        [Some(5), None, None],
    ),
    (
        &["arrowflow", "show", "--limit-messages=0", "a"],
        [None, Some(0), None],
    ),
    (
        &["arrowflow", "copy", "a", "b", "--limit-bytes", "64K"],
        [None, None, Some(65_536)],
    ),
    (
        &[
            "arrowflow",
            "check",
            "--limit-bytes=0",
            "--limit-messages",
            "2",
            "--limit-total-rows=3",
        ],
        [Some(3), Some(2), Some(0)],
    ),
    (
        &[
            "arrowflow",
            "show",
            "--limit-total-rows=18446744073709551615",
        ],
        [Some(18_446_744_073_709_551_615), None, None],
    ),
    (
        &["arrowflow", "show", "--limit-bytes=4611686018427387904"],
        [None, None, Some(4_611_686_018_427_387_904)],
    ),
    (
        &["arrowflow", "copy", "a", "--in-place", "--limit-bytes=1MB"],
        [None, None, Some(1_000_000)],
    ),
];

#[test]
fn bounds_of_a_whole_stream_are_those_of_the_line(rt: HostRuntime) {
    for (words, expected) in &TOTALS {
        let plan = plan(rt.alloc(), words).expect(&rt, "a plan");
        assert_eq!(rt; plan.totals.rows, expected[0], "of {words:?}");
        assert_eq!(rt; plan.totals.messages, expected[1], "of {words:?}");
        assert_eq!(rt; plan.totals.bytes, expected[2], "of {words:?}");
        assert!(rt; plan.limits == Limits::standard());
    }
}

/// The words of a line, and whether they ask for all types.
static TYPES: [(&[&str], bool); 7] = [
    (&["arrowflow", "schema", "a", "--types", "all"], true),
    (&["arrowflow", "check", "--types=all", "a"], true),
    (&["arrowflow", "show", "a", "--types", "core"], false),
    (&["arrowflow", "show", "a", "--types=all"], true),
    (&["arrowflow", "copy", "--types", "all", "a", "b"], true),
    (&["arrowflow", "drill", "a", "all"], false),
    (&["arrowflow", "drill", "a", "--types", "all"], true),
];

#[test]
fn types_are_those_of_the_line(rt: HostRuntime) {
    for (words, expected) in &TYPES {
        let limits = plan(rt.alloc(), words).expect(&rt, "a plan").limits;
        let of_all = limits.types() == TypeSet::All;
        assert_eq!(rt; of_all, *expected, "of {words:?}");
        assert!(rt; limits.with_types(TypeSet::Core) == Limits::standard());
    }
}

/// The words of a line without a plan, the exit status, and a part of what is printed.
static OTHERS: [(&[&str], i32, &str); 73] = [
    (
        &["arrowflow", "check", "a", "--limit-bytes="],
        2,
        "error: the size of '--limit-bytes <N>' is not in 0..=4611686018427387904: \
         sizes are bytes, or as 64K, 1MiB or 1GB",
    ),
    (
        &["arrowflow", "copy", "a", "b", "--limit-bytes=64k"],
        2,
        "--limit-bytes <N>",
    ),
    (&["arrowflow", "show", "--limit-total-rows", "1K"], 2, ""),
    (&["arrowflow", "schema", "--limit-messages=1"], 2, ""),
    (&["arrowflow", "drill", "a", "--limit-bytes=1"], 2, ""),
    (&["arrowflow", "check", "a", "--types", "floats"], 2, ""),
    (&["arrowflow", "show", "a", "--types"], 2, ""),
    (&["arrowflow", "drill", "a", "--types="], 2, ""),
    (&["arrowflow"], 2, ""),
    (&["arrowflow", "explain", "a", "b"], 2, ""),
    (&["arrowflow", "explain", "--json", "a"], 2, ""),
    (&["arrowflow", "schema", "-q", "a"], 2, ""),
    (&["arrowflow", "show", "a", "b"], 2, ""),
    (&["arrowflow", "schema", "-x"], 2, ""),
    (&["arrowflow", "schema", "--long", "a"], 2, ""),
    (&["arrowflow", "schemas", "a"], 2, ""),
    (&["arrowflow", "a"], 2, ""),
    (&["arrowflow", "--help"], 0, ""),
    (&["arrowflow", "-h"], 0, ""),
    (&["arrowflow", "help"], 0, ""),
    (&["arrowflow", "schema", "--help"], 0, ""),
    (&["arrowflow", "help", "schema"], 0, ""),
    (&["arrowflow", "help", "schemas"], 2, ""),
    (
        &["arrowflow", "--help"],
        0,
        "  arrowflow show examples/growing_dictionary.arrows",
    ),
    (&["arrowflow", "--help"], 0, "Prints the columns of streams"),
    (&["arrowflow", "--help"], 0, "Usage: arrowflow <COMMAND>"),
    (
        &["arrowflow", "check", "--help"],
        0,
        "Usage: arrowflow check [OPTIONS] [FILE]...",
    ),
    (
        &["arrowflow", "help", "show"],
        0,
        "  arrowflow show examples/growing_dictionary.arrows",
    ),
    (
        &["elsewhere/program", "schema", "-h"],
        0,
        "Usage: arrowflow schema [OPTIONS] [FILE]...",
    ),
    (
        &["arrowflow", "help", "schema"],
        0,
        "  arrowflow schema examples/one_column.arrows examples/wide.arrows",
    ),
    (&["arrowflow", "copy"], 2, ""),
    (&["arrowflow", "copy", "a"], 2, ""),
    (&["arrowflow", "copy", "a", "b", "c"], 2, ""),
    (
        &["arrowflow", "copy", "a", "b", "--updates", "none"],
        2,
        "[possible values: delta, resend]",
    ),
    (
        &["arrowflow", "copy", "a", "b", "--align", "16"],
        2,
        "[possible values: 8, 64]",
    ),
    (&["arrowflow", "copy", "a", "b", "--bytes", "1"], 2, ""),
    (&["arrowflow", "drill"], 2, ""),
    (&["arrowflow", "drill", "a", "--bytes", "-1"], 2, ""),
    (
        &["arrowflow", "drill", "a", "--bytes", "4611686018427387905"],
        2,
        "is not in 0..=4611686018427387904",
    ),
    (&["arrowflow", "drill", "a", "--bytes", "0x10"], 2, ""),
    (
        &["arrowflow", "drill", "a", "--piece", "0"],
        2,
        "is not in 1..=1073741824",
    ),
    (
        &["arrowflow", "drill", "a", "--piece", "1073741825"],
        2,
        "is not in 1..=1073741824",
    ),
    (&["arrowflow", "drill", "a", "--piece"], 2, ""),
    (
        &["arrowflow", "copy", "--help"],
        0,
        "a stream is not copied into its own file without",
    ),
    (
        &["arrowflow", "help", "drill"],
        0,
        "  arrowflow drill examples/growing_dictionary.arrows --bytes 975 --piece 1",
    ),
    (
        &["arrowflow", "--help"],
        0,
        "Writes streams over connections that break",
    ),
    (&["arrowflow", "check", "a", "--quiet=true"], 2, ""),
    (&["arrowflow", "copy", "--atomic", "a"], 2, ""),
    (
        &["arrowflow", "copy", "a"],
        2,
        "error: the following required arguments were not provided:\n  <OUT>\n\n\
         Usage: arrowflow copy <IN> <OUT>\n\nFor more information, try '--help'.",
    ),
    (
        &["arrowflow", "copy", "a", "b", "--in-place"],
        2,
        "error: the argument '--in-place' cannot be used with '[OUT]'\n\n\
         Usage: arrowflow copy --in-place <IN>\n\nFor more information, try '--help'.",
    ),
    (
        &["arrowflow", "check", "a", "--limit-body=2TiB"],
        2,
        "error: the size of '--limit-body <N>' is not in 0..=1099511627776: \
         sizes are bytes, or as 64K, 1MiB or 1GB\n\nFor more information, try '--help'.",
    ),
    (
        &["arrowflow", "check", "a", "--limit-body=2k"],
        2,
        "--limit-body <N>",
    ),
    (
        &["arrowflow", "check", "a", "--limit-body=KiB"],
        2,
        "--limit-body <N>",
    ),
    (
        &["arrowflow", "check", "a", "--limit-body=1 K"],
        2,
        "--limit-body <N>",
    ),
    (
        &["arrowflow", "check", "a", "--limit-body="],
        2,
        "--limit-body <N>",
    ),
    (
        &[
            "arrowflow",
            "check",
            "a",
            "--limit-metadata=18446744073709551615T",
        ],
        2,
        "--limit-metadata <N>",
    ),
    (&["arrowflow", "show", "a", "--batch", "-1"], 2, ""),
    (&["arrowflow", "show", "a", "--skip", "x"], 2, ""),
    (&["arrowflow", "show", "a", "--null"], 2, ""),
    (&["arrowflow", "show", "a", "--quiet"], 2, ""),
    (
        &["arrowflow", "check", "a", "--limit-metadata", "1073741825"],
        2,
        "is not in 0..=1073741824",
    ),
    (
        &["arrowflow", "schema", "a", "--limit-body", "1099511627777"],
        2,
        "is not in 0..=1099511627776",
    ),
    (
        &["arrowflow", "drill", "a", "--limit-rows=2147483648"],
        2,
        "is not in 0..=2147483647",
    ),
    (&["arrowflow", "copy", "a", "b", "--limit-rows=-1"], 2, ""),
    (&["arrowflow", "show", "a", "--limit-body"], 2, ""),
    (&["arrowflow", "show", "a", "--limit-rows", "1k"], 2, ""),
    (
        &["arrowflow", "show", "a", "--rows", "18446744073709551616"],
        2,
        "",
    ),
    (&["arrowflow", "show", "a", "--rows", "-1"], 2, ""),
    (&["arrowflow", "show", "a", "--rows"], 2, ""),
    (&["arrowflow", "show", "a", "--columns"], 2, ""),
    (&["arrowflow", "check", "a", "--columns", "k"], 2, ""),
    (
        &["arrowflow", "show", "a", "--columns", "k", "--columns", "l"],
        2,
        "",
    ),
    (&["arrowflow", "check", "a", "--rows", "1"], 2, ""),
];

fn assert_other(rt: &impl Abort, alloc: Global, words: &[&str], status: i32, part: &str) {
    let (code, text) = match plan(alloc, words) {
        Err(ArgFault::Line(error)) => {
            let text = format!(in alloc; "{error}").expect(rt, "memory");
            (error.exit_code(), text)
        }
        Err(ArgFault::Misused(misuse)) => {
            let text = format!(in alloc; "{misuse}").expect(rt, "memory");
            (2, text)
        }
        Err(ArgFault::Memory) | Ok(_) => panic!(rt; "a plan of {words:?}"),
    };
    assert_eq!(rt; code, status, "of {words:?}");
    assert!(rt; text.as_str().contains(part), "{text}");
}

#[test]
fn other_lines_have_a_status(rt: HostRuntime) {
    let alloc = rt.alloc();
    for (words, status, part) in &OTHERS {
        assert_other(&rt, alloc, words, *status, part);
    }
    assert!(rt; plan(alloc, &[]).is_err());
}
