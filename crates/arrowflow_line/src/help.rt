//! The text of help, in lines of at most 80 columns.

/// The version of the program, as `--version` prints it.
pub(crate) const VERSION: &str = "0.1.0";

/// The text of a command's help before its arguments, and after its options.
#[derive(Clone, Copy)]
pub(crate) struct Help {
    pub(crate) about: &'static str,
    pub(crate) after: &'static str,
}

/// The help of the program itself.
pub(crate) const PROGRAM: Help = Help {
    about: "Reads, checks and writes Apache Arrow IPC streams",
    after: "Example:\n  arrowflow show examples/growing_dictionary.arrows",
};

/// The help of `schema`.
pub(crate) const SCHEMA: Help = Help {
    about: "Prints the columns of streams, children below their parent",
    after: "\
Only the first message of a stream is read. The lines of several files begin
with their names. The exit status is 0, 1 if a stream is refused, and 2 if a
file cannot be read or an allocation failed.

Example:
  arrowflow schema examples/one_column.arrows examples/wide.arrows",
};

/// The help of `check`.
pub(crate) const CHECK: Help = Help {
    about: "Reads whole streams and prints a line for each message",
    after: "\
A line has the byte offset of the message, its kind, and the number of its
columns, values or rows. The lines of several files begin with their names. The
exit status is 0, 1 if a stream is refused, ends too early or passes a bound,
and 2 if a file cannot be read, the output cannot be written or an allocation
failed.

Example:
  arrowflow check examples/growing_dictionary.arrows",
};

/// The help of `show`.
pub(crate) const SHOW: Help = Help {
    about: "Prints the rows of a stream as comma-separated values, or as JSON",
    after: "\
The first record has the names of the columns, and each row begins with the
number of its batch, counted from 0. The exit status is 0, 1 if the stream is
refused, ends too early or passes a bound, and 2 if the file cannot be read, the
output cannot be written, an allocation failed or there is no such column.

Example:
  arrowflow show examples/growing_dictionary.arrows",
};

/// The help of `explain`.
pub(crate) const EXPLAIN: Help = Help {
    about: "Says why a stream is refused and what to do, or what it has",
    after: "\
The fault is the one that check reports. The exit status is 0, 1 if the stream
is refused or ends too early, and 2 if the file cannot be read, the output
cannot be written or an allocation failed.

Example:
  arrowflow explain examples/cut_off.arrows",
};

/// The help of `copy`.
pub(crate) const COPY: Help = Help {
    about: "Writes a stream again, with dictionaries and buffers as asked for",
    after: "\
The rows stay what they are; the new stream has an end marker. OUT is created,
and emptied first if it exists; a stream is not copied into its own file without
--in-place or --atomic. The exit status is 0, 1 if the stream is refused, ends
too early, passes a bound or cannot be written again within the limits, and 2 if
IN cannot be read, OUT cannot be written or an allocation failed.

Example:
  arrowflow copy examples/metadata.arrows - --updates resend | arrowflow check",
};

/// The help of `drill`.
pub(crate) const DRILL: Help = Help {
    about: "Writes streams over connections that break, and says what came",
    after: "\
Each FILE is one connection; its first N bytes are delivered in pieces of M. The
exit status is 0 however the connections end, 1 if a FILE is refused or ends too
early, and 2 if one cannot be read, the output cannot be written or an
allocation failed.

Example:
  arrowflow drill examples/growing_dictionary.arrows --bytes 975 --piece 1",
};

/// The help for a file.
pub(crate) const FILE: &str = "\
A file with an Arrow IPC stream; - is standard input, and so is no
FILE if standard input is no terminal";

/// The help for files.
pub(crate) const FILES: &str = "\
Files with an Arrow IPC stream each; - is standard input, and so
is no FILE if standard input is no terminal";

/// The help for the files of `drill`.
pub(crate) const CONNECTIONS: &str = "Files with an Arrow IPC stream each; - is standard input";

/// The help for the file that `copy` reads.
pub(crate) const INPUT: &str = "A file with an Arrow IPC stream; - is standard input";

/// The help for the file that `copy` writes.
pub(crate) const OUTPUT: &str = "Where the new stream goes; - is standard output";

/// The help for `--with-filename`.
pub(crate) const WITH_FILENAME: &str = "\
Begin each line with the name of its file, even if
there is one file alone";

/// The help for `--quiet`.
pub(crate) const QUIET: &str = "\
Print no lines but that of a fault: the exit
status says whether a stream is sound";

/// The help for `--columns`.
pub(crate) const COLUMNS: &str = "\
Print only the columns of these names, with commas
between them, in this order";

/// The help for `--batch`.
pub(crate) const BATCH: &str = "\
Print only the rows of batch N, counted from 0";

/// The help for `--skip`.
pub(crate) const SKIP: &str = "Leave out the first N rows";

/// The help for `--rows`.
pub(crate) const ROWS: &str = "Print only the first N rows";

/// The help for `--null`.
pub(crate) const NULL: &str = "\
Print TEXT for a null, which is else empty";

/// The help for `--no-batch`.
pub(crate) const NO_BATCH: &str = "\
Leave out the first field, the number of the batch";

/// The help for `--json` of `show`.
pub(crate) const JSON: &str = "Print each row as a JSON object on a line";

/// The help for `--json` of `schema` and `check`.
pub(crate) const LINES_OF_JSON: &str = "Print each line as a JSON object";

/// The help for `--updates`.
pub(crate) const UPDATES: &str = "\
What is sent of a dictionary that grew: the new
values, or all\n";

/// The help for `--align`.
pub(crate) const ALIGN: &str = "\
To how many bytes each buffer is padded\n";

/// The help for `--atomic`.
pub(crate) const ATOMIC: &str = "\
Leave OUT as it was until IN was read to its end
and is sound; OUT may then be IN";

/// The help for `--in-place`.
pub(crate) const IN_PLACE: &str = "\
Write the copy into IN itself, as --atomic does";

/// The help for `--no-clobber`.
pub(crate) const NO_CLOBBER: &str = "Do not write a file that exists";

/// The help for `--fail-downstream`.
pub(crate) const FAIL_DOWNSTREAM: &str = "\
End the copy of a refused stream inside a message,
so that whoever reads OUT fails too";

/// The help for `--bytes`.
pub(crate) const BYTES: &str = "\
How many bytes of each connection are delivered\n";

/// The help for `--piece`.
pub(crate) const PIECE: &str = "How many bytes are delivered at once\n";

/// The help for `--limit-total-rows`.
pub(crate) const LIMIT_TOTAL_ROWS: &str = "The most rows of a whole stream";

/// The help for `--limit-messages`.
pub(crate) const LIMIT_MESSAGES: &str = "The most messages of a whole stream";

/// The help for `--limit-bytes`.
pub(crate) const LIMIT_BYTES: &str = "The most bytes of a whole stream, as 64K or 1MiB";

/// The help for `--limit-metadata`.
pub(crate) const LIMIT_METADATA: &str = "\
The most bytes of the metadata of one message, as
64K, 1MiB or 1GB\n";

/// The help for `--limit-body`.
pub(crate) const LIMIT_BODY: &str = "\
The most bytes of the body of one message, as 64K,
1MiB or 1GB\n";

/// The help for `--limit-rows`.
pub(crate) const LIMIT_ROWS: &str = "\
The most rows of a batch, slots of a column, and
values of a dictionary";

/// The help for `--types`.
pub(crate) const TYPES: &str = "\
The types of the streams that are read: the core,
or all, with floating point, decimals, intervals,
maps and fixed-size lists\n";
