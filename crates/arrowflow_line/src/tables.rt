//! The commands with their arguments.

use crate::arguments::{Argument, CommandRow, Role};
use crate::help;
use arrow_types::Limits;

/// One file.
const FILE: [Argument; 1] = [Argument("FILE", None, Role::NameIfAny, help::FILE)];

/// Any number of files.
const FILES: [Argument; 3] = [
    Argument("FILE", None, Role::NamesIfAny, help::FILES),
    Argument("with-filename", Some('H'), Role::Flag, help::WITH_FILENAME),
    Argument("json", None, Role::Flag, help::LINES_OF_JSON),
];

/// Whether lines are printed.
const QUIET: [Argument; 1] = [Argument("quiet", Some('q'), Role::Flag, help::QUIET)];

/// Which rows are printed, and how.
const ROWS: [Argument; 7] = [
    Argument("columns", Some('c'), Role::Text("NAMES"), help::COLUMNS),
    Argument("batch", None, Role::Number, help::BATCH),
    Argument("skip", None, Role::Number, help::SKIP),
    Argument("rows", Some('n'), Role::Number, help::ROWS),
    Argument("null", None, Role::Text("TEXT"), help::NULL),
    Argument("no-batch", None, Role::Flag, help::NO_BATCH),
    Argument("json", None, Role::Flag, help::JSON),
];

/// What is copied where, and how the output is treated.
const COPY: [Argument; 6] = [
    Argument("IN", None, Role::Name, help::INPUT),
    Argument("OUT", None, Role::NameIfAny, help::OUTPUT),
    Argument("atomic", None, Role::Flag, help::ATOMIC),
    Argument("in-place", None, Role::Flag, help::IN_PLACE),
    Argument("no-clobber", None, Role::Flag, help::NO_CLOBBER),
    Argument("fail-downstream", None, Role::Flag, help::FAIL_DOWNSTREAM),
];

/// The streams of connections, and what is delivered of each.
const CONNECTIONS: [Argument; 3] = [
    Argument("FILE", None, Role::Names, help::CONNECTIONS),
    Argument(
        "bytes",
        None,
        Role::Size("4611686018427387904"),
        help::BYTES,
    ),
    Argument("piece", None, Role::Size("65536"), help::PIECE),
];

/// How a stream is written.
const WRITING: [Argument; 2] = [
    Argument(
        "updates",
        None,
        Role::OneOf(&["delta", "resend"], "delta"),
        help::UPDATES,
    ),
    Argument("align", None, Role::OneOf(&["8", "64"], "64"), help::ALIGN),
];

/// The bounds of a complete stream.
const TOTALS: [Argument; 3] = [
    Argument(
        "limit-total-rows",
        None,
        Role::Number,
        help::LIMIT_TOTAL_ROWS,
    ),
    Argument("limit-messages", None, Role::Number, help::LIMIT_MESSAGES),
    Argument("limit-bytes", None, Role::Text("N"), help::LIMIT_BYTES),
];

/// The limits of a message.
const LIMITS: [Argument; 3] = [
    Argument(
        "limit-metadata",
        None,
        Role::Size("67108864"),
        help::LIMIT_METADATA,
    ),
    Argument(
        "limit-body",
        None,
        Role::Size("68719476736"),
        help::LIMIT_BODY,
    ),
    Argument(
        "limit-rows",
        None,
        Role::Limit(Limits::ROWS_CEILING, "2147483647"),
        help::LIMIT_ROWS,
    ),
];

/// Which types are read.
const TYPES: [Argument; 1] = [Argument(
    "types",
    None,
    Role::OneOf(&["core", "all"], "core"),
    help::TYPES,
)];

/// The program's commands.
pub(crate) static COMMANDS: [CommandRow; 6] = [
    CommandRow {
        name: "schema",
        help: help::SCHEMA,
        groups: &[&FILES, &LIMITS, &TYPES],
    },
    CommandRow {
        name: "check",
        help: help::CHECK,
        groups: &[&FILES, &QUIET, &TOTALS, &LIMITS, &TYPES],
    },
    CommandRow {
        name: "show",
        help: help::SHOW,
        groups: &[&FILE, &ROWS, &TOTALS, &LIMITS, &TYPES],
    },
    CommandRow {
        name: "explain",
        help: help::EXPLAIN,
        groups: &[&FILE, &LIMITS, &TYPES],
    },
    CommandRow {
        name: "copy",
        help: help::COPY,
        groups: &[&COPY, &TOTALS, &WRITING, &LIMITS, &TYPES],
    },
    CommandRow {
        name: "drill",
        help: help::DRILL,
        groups: &[&CONNECTIONS, &WRITING, &LIMITS, &TYPES],
    },
];
