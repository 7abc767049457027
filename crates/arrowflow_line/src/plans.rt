//! What a command line asks for.

use arrow_stream_writer::Options;
use arrow_types::Limits;

/// What a command line asks for.
#[derive(Debug, Drop, PartialEq, Eq)]
pub struct Plan {
    /// What the program is to do.
    pub task: Task,
    /// How much a stream may ask of the reader, and how much is written.
    pub limits: Limits,
    /// How much a complete stream may have.
    pub totals: Totals,
}

/// How much a complete stream may have, if a bound is asked for: the commands that check, print and
/// copy have options for it.
#[derive(Clone, Copy, Debug, PartialEq, Eq)]
pub struct Totals {
    /// The number of rows.
    pub rows: Option<u64>,
    /// The number of messages.
    pub messages: Option<u64>,
    /// The number of bytes, at most 2^62.
    pub bytes: Option<u64>,
}

/// One command of the program, with the names that it was given; `-` is standard input or output. A
/// command that only reads may have been given no name.
#[derive(Debug, Drop, PartialEq, Eq)]
pub enum Task {
    /// Print the schemas of the streams in these files.
    Schema(Files),
    /// Print a line for each message of the streams in these files; none if `--quiet` was given.
    Check(Files, bool),
    /// Print the rows of the stream in the file with this name.
    Show(Option<String>, ShowOptions),
    /// Report why the stream in the file with this name is rejected, or what it contains.
    Explain(Option<String>),
    /// Write the stream in the file with the first name again, into the file with the second; in
    /// place of the first if there is no second.
    Copy(String, Option<String>, CopyOptions),
    /// Write the streams in these files again, each over its own connection, which breaks after the
    /// first number of bytes, at most 2^62, and read what was received in pieces of the second
    /// number, from 1 to 2^30.
    Drill(Vec<String>, Options, u64, u64),
}

/// Which files are read, one after the other.
#[derive(Debug, Drop, PartialEq, Eq)]
pub struct Files {
    /// Their names; there may be none.
    pub names: Vec<String>,
    /// Whether each line begins with the name of its file, even if there is only one file.
    pub with_filename: bool,
    /// Whether each line is a JSON object in place of words.
    pub json: bool,
}

/// Which rows are printed, and how.
#[derive(Debug, Drop, PartialEq, Eq)]
pub struct ShowOptions {
    /// The columns with these names, or all.
    pub columns: Option<Vec<String>>,
    /// The rows of the batch with this number, counted from 0, or of all batches.
    pub batch: Option<u64>,
    /// How many of these rows are left out at the start, or none.
    pub skip: Option<u64>,
    /// How many of the remaining rows are printed, or all.
    pub rows: Option<u64>,
    /// The text of a null; by default it is empty.
    pub null: Option<String>,
    /// Whether the number of its batch is left out of each record.
    pub no_batch: bool,
    /// Whether each row is a JSON object in place of comma-separated values.
    pub json: bool,
}

/// How a stream is written again, and how an existing file is treated.
#[derive(Clone, Copy, Debug, PartialEq, Eq)]
pub struct CopyOptions {
    /// How dictionaries and buffers are sent.
    pub stream: Options,
    /// The output's file stays unchanged until the complete stream was read.
    pub atomic: bool,
    /// An existing file is not written.
    pub no_clobber: bool,
    /// If the stream is rejected, the output ends so that whoever reads it fails too.
    pub fail_downstream: bool,
}
