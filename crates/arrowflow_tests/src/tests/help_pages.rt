//! The complete help of the program and of each of its commands, and lines that are rejected.

use arrowflow_line::{ArgFault, plan};
use std::alloc::Global;
use std::process::Abort;

const PROGRAM: &str = "\
Reads, checks and writes Apache Arrow IPC streams

Usage: arrowflow <COMMAND>

Commands:
  schema   Prints the columns of streams, children below their parent
  check    Reads whole streams and prints a line for each message
  show     Prints the rows of a stream as comma-separated values, or as JSON
  explain  Says why a stream is refused and what to do, or what it has
  copy     Writes a stream again, with dictionaries and buffers as asked for
  drill    Writes streams over connections that break, and says what came
  help     Print this message or the help of the given subcommand(s)

Options:
  -h, --help     Print help
  -V, --version  Print version

Example:
  arrowflow show examples/growing_dictionary.arrows
";

const SCHEMA: &str = "\
Prints the columns of streams, children below their parent

Usage: arrowflow schema [OPTIONS] [FILE]...

Arguments:
  [FILE]...  Files with an Arrow IPC stream each; - is standard input, and so
             is no FILE if standard input is no terminal

Options:
  -H, --with-filename       Begin each line with the name of its file, even if
                            there is one file alone
      --json                Print each line as a JSON object
      --limit-metadata <N>  The most bytes of the metadata of one message, as
                            64K, 1MiB or 1GB
                             [default: 67108864]
      --limit-body <N>      The most bytes of the body of one message, as 64K,
                            1MiB or 1GB
                             [default: 68719476736]
      --limit-rows <N>      The most rows of a batch, slots of a column, and
                            values of a dictionary [default: 2147483647]
      --types <types>       The types of the streams that are read: the core,
                            or all, with floating point, decimals, intervals,
                            maps and fixed-size lists
                             [default: core] [possible values: core, all]
  -h, --help                Print help

Only the first message of a stream is read. The lines of several files begin
with their names. The exit status is 0, 1 if a stream is refused, and 2 if a
file cannot be read or an allocation failed.

Example:
  arrowflow schema examples/one_column.arrows examples/wide.arrows
";

const CHECK: &str = "\
Reads whole streams and prints a line for each message

Usage: arrowflow check [OPTIONS] [FILE]...

Arguments:
  [FILE]...  Files with an Arrow IPC stream each; - is standard input, and so
             is no FILE if standard input is no terminal

Options:
  -H, --with-filename         Begin each line with the name of its file, even if
                              there is one file alone
      --json                  Print each line as a JSON object
  -q, --quiet                 Print no lines but that of a fault: the exit
                              status says whether a stream is sound
      --limit-total-rows <N>  The most rows of a whole stream
      --limit-messages <N>    The most messages of a whole stream
      --limit-bytes <N>       The most bytes of a whole stream, as 64K or 1MiB
      --limit-metadata <N>    The most bytes of the metadata of one message, as
                              64K, 1MiB or 1GB
                               [default: 67108864]
      --limit-body <N>        The most bytes of the body of one message, as 64K,
                              1MiB or 1GB
                               [default: 68719476736]
      --limit-rows <N>        The most rows of a batch, slots of a column, and
                              values of a dictionary [default: 2147483647]
      --types <types>         The types of the streams that are read: the core,
                              or all, with floating point, decimals, intervals,
                              maps and fixed-size lists
                               [default: core] [possible values: core, all]
  -h, --help                  Print help

A line has the byte offset of the message, its kind, and the number of its
columns, values or rows. The lines of several files begin with their names. The
exit status is 0, 1 if a stream is refused, ends too early or passes a bound,
and 2 if a file cannot be read, the output cannot be written or an allocation
failed.

Example:
  arrowflow check examples/growing_dictionary.arrows
";

const SHOW: &str = "\
Prints the rows of a stream as comma-separated values, or as JSON

Usage: arrowflow show [OPTIONS] [FILE]

Arguments:
  [FILE]  A file with an Arrow IPC stream; - is standard input, and so is no
          FILE if standard input is no terminal

Options:
  -c, --columns <NAMES>       Print only the columns of these names, with commas
                              between them, in this order
      --batch <N>             Print only the rows of batch N, counted from 0
      --skip <N>              Leave out the first N rows
  -n, --rows <N>              Print only the first N rows
      --null <TEXT>           Print TEXT for a null, which is else empty
      --no-batch              Leave out the first field, the number of the batch
      --json                  Print each row as a JSON object on a line
      --limit-total-rows <N>  The most rows of a whole stream
      --limit-messages <N>    The most messages of a whole stream
      --limit-bytes <N>       The most bytes of a whole stream, as 64K or 1MiB
      --limit-metadata <N>    The most bytes of the metadata of one message, as
                              64K, 1MiB or 1GB
                               [default: 67108864]
      --limit-body <N>        The most bytes of the body of one message, as 64K,
                              1MiB or 1GB
                               [default: 68719476736]
      --limit-rows <N>        The most rows of a batch, slots of a column, and
                              values of a dictionary [default: 2147483647]
      --types <types>         The types of the streams that are read: the core,
                              or all, with floating point, decimals, intervals,
                              maps and fixed-size lists
                               [default: core] [possible values: core, all]
  -h, --help                  Print help

The first record has the names of the columns, and each row begins with the
number of its batch, counted from 0. The exit status is 0, 1 if the stream is
refused, ends too early or passes a bound, and 2 if the file cannot be read, the
output cannot be written, an allocation failed or there is no such column.

Example:
  arrowflow show examples/growing_dictionary.arrows
";

const EXPLAIN: &str = "\
Says why a stream is refused and what to do, or what it has

Usage: arrowflow explain [OPTIONS] [FILE]

Arguments:
  [FILE]  A file with an Arrow IPC stream; - is standard input, and so is no
          FILE if standard input is no terminal

Options:
      --limit-metadata <N>  The most bytes of the metadata of one message, as
                            64K, 1MiB or 1GB
                             [default: 67108864]
      --limit-body <N>      The most bytes of the body of one message, as 64K,
                            1MiB or 1GB
                             [default: 68719476736]
      --limit-rows <N>      The most rows of a batch, slots of a column, and
                            values of a dictionary [default: 2147483647]
      --types <types>       The types of the streams that are read: the core,
                            or all, with floating point, decimals, intervals,
                            maps and fixed-size lists
                             [default: core] [possible values: core, all]
  -h, --help                Print help

The fault is the one that check reports. The exit status is 0, 1 if the stream
is refused or ends too early, and 2 if the file cannot be read, the output
cannot be written or an allocation failed.

Example:
  arrowflow explain examples/cut_off.arrows
";

const COPY: &str = "\
Writes a stream again, with dictionaries and buffers as asked for

Usage: arrowflow copy [OPTIONS] <IN> [OUT]

Arguments:
  <IN>   A file with an Arrow IPC stream; - is standard input
  [OUT]  Where the new stream goes; - is standard output

Options:
      --atomic                Leave OUT as it was until IN was read to its end
                              and is sound; OUT may then be IN
      --in-place              Write the copy into IN itself, as --atomic does
      --no-clobber            Do not write a file that exists
      --fail-downstream       End the copy of a refused stream inside a message,
                              so that whoever reads OUT fails too
      --limit-total-rows <N>  The most rows of a whole stream
      --limit-messages <N>    The most messages of a whole stream
      --limit-bytes <N>       The most bytes of a whole stream, as 64K or 1MiB
      --updates <updates>     What is sent of a dictionary that grew: the new
                              values, or all
                               [default: delta] [possible values: delta, resend]
      --align <align>         To how many bytes each buffer is padded
                               [default: 64] [possible values: 8, 64]
      --limit-metadata <N>    The most bytes of the metadata of one message, as
                              64K, 1MiB or 1GB
                               [default: 67108864]
      --limit-body <N>        The most bytes of the body of one message, as 64K,
                              1MiB or 1GB
                               [default: 68719476736]
      --limit-rows <N>        The most rows of a batch, slots of a column, and
                              values of a dictionary [default: 2147483647]
      --types <types>         The types of the streams that are read: the core,
                              or all, with floating point, decimals, intervals,
                              maps and fixed-size lists
                               [default: core] [possible values: core, all]
  -h, --help                  Print help

The rows stay what they are; the new stream has an end marker. OUT is created,
and emptied first if it exists; a stream is not copied into its own file without
--in-place or --atomic. The exit status is 0, 1 if the stream is refused, ends
too early, passes a bound or cannot be written again within the limits, and 2 if
IN cannot be read, OUT cannot be written or an allocation failed.

Example:
  arrowflow copy examples/metadata.arrows - --updates resend | arrowflow check
";

const DRILL: &str = "\
Writes streams over connections that break, and says what came

Usage: arrowflow drill [OPTIONS] <FILE>...

Arguments:
  <FILE>...  Files with an Arrow IPC stream each; - is standard input

Options:
      --bytes <N>           How many bytes of each connection are delivered
                             [default: 4611686018427387904]
      --piece <N>           How many bytes are delivered at once
                             [default: 65536]
      --updates <updates>   What is sent of a dictionary that grew: the new
                            values, or all
                             [default: delta] [possible values: delta, resend]
      --align <align>       To how many bytes each buffer is padded
                             [default: 64] [possible values: 8, 64]
      --limit-metadata <N>  The most bytes of the metadata of one message, as
                            64K, 1MiB or 1GB
                             [default: 67108864]
      --limit-body <N>      The most bytes of the body of one message, as 64K,
                            1MiB or 1GB
                             [default: 68719476736]
      --limit-rows <N>      The most rows of a batch, slots of a column, and
                            values of a dictionary [default: 2147483647]
      --types <types>       The types of the streams that are read: the core,
                            or all, with floating point, decimals, intervals,
                            maps and fixed-size lists
                             [default: core] [possible values: core, all]
  -h, --help                Print help

Each FILE is one connection; its first N bytes are delivered in pieces of M. The
exit status is 0 however the connections end, 1 if a FILE is refused or ends too
early, and 2 if one cannot be read, the output cannot be written or an
allocation failed.

Example:
  arrowflow drill examples/growing_dictionary.arrows --bytes 975 --piece 1
";

/// The words that ask for a page, and the page.
static PAGES: [(&[&str], &str); 10] = [
    (&["arrowflow", "--help"], PROGRAM),
    (&["elsewhere/program", "help"], PROGRAM),
    (&["arrowflow", "schema", "--help"], SCHEMA),
    (&["arrowflow", "check", "-h"], CHECK),
    (&["arrowflow", "help", "show"], SHOW),
    (&["elsewhere/program", "copy", "--help"], COPY),
    (&["arrowflow", "explain", "-h"], EXPLAIN),
    (&["arrowflow", "--version"], "arrowflow 0.1.0\n"),
    (&["arrowflow", "help", "drill"], DRILL),
    (&["arrowflow", "drill", "--bytes", "5", "--help"], DRILL),
];

fn assert_page(rt: &impl Abort, alloc: Global, words: &[&str], page: &str) {
    let Err(ArgFault::Line(error)) = plan(alloc, words) else {
        panic!(rt; "a plan of {words:?}");
    };
    assert_eq!(rt; error.exit_code(), 0, "of {words:?}");
    let text = format!(in alloc; "{error}").expect(rt, "memory");
    assert_eq!(rt; text.as_str(), page);
}

/// Lines that are rejected: an option that is given twice, one with a letter, and one without a
/// value.
static REFUSED: [&[&str]; 10] = [
    &["arrowflow", "drill", "a", "--bytes", "1", "--bytes", "1"],
    &["arrowflow", "drill", "a", "--piece=1", "--piece=2"],
    &["arrowflow", "copy", "a", "b", "--align=8", "--align=8"],
    &[
        "arrowflow",
        "copy",
        "--updates=delta",
        "a",
        "b",
        "--updates=resend",
    ],
    &["arrowflow", "drill", "a", "-b", "1"],
    &["arrowflow", "copy", "a", "b", "-u", "delta"],
    &["arrowflow", "copy", "a", "b", "--align"],
    &["arrowflow", "drill", "--updates", "delta"],
    &["arrowflow", "check", "--quiet", "a", "-q"],
    &["arrowflow", "show", "a", "--limit-body=1", "--limit-body=1"],
];

fn assert_refused(rt: &impl Abort, alloc: Global, words: &[&str]) {
    match plan(alloc, words) {
        Err(ArgFault::Line(error)) => assert_eq!(rt; error.exit_code(), 2, "of {words:?}"),
        Err(ArgFault::Misused(_) | ArgFault::Memory) => panic!(rt; "another fault of {words:?}"),
        Ok(_) => panic!(rt; "a plan of {words:?}"),
    }
}

#[test]
fn lines_that_are_refused(rt: HostRuntime) {
    for words in &REFUSED {
        assert_refused(&rt, rt.alloc(), words);
    }
}

#[test]
fn each_page_of_help(rt: HostRuntime) {
    for (words, page) in &PAGES {
        assert_page(&rt, rt.alloc(), words, page);
    }
}
