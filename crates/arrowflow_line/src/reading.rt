//! What clap found after a command's name, as the parts of a plan.

ghost use Rattle.std.specs.Prelude.{◌≡◌, ◌≤◌, IfErr, IfOk, MatchOption, MatchResult, codes, map};
ghost use Rattle.std.specs.Prelude.{option_map, string_bytes};
ghost use Rattle.clap.specs.Words.{found_of, rows_of};
ghost use Rattle.arrowflow_line.specs.CommandLine.{AreFiles, AreLimitsIn, IsCommand, IsNumberIfAny};
ghost use Rattle.arrowflow_line.specs.CommandLine.{IsFaultIn, IsNumberOf, IsSizeOf, LacksLimit};
ghost use Rattle.arrowflow_line.specs.CommandLine.{AreTotalsIn, IsSizeIfAny, LacksGiven, LacksSizeOf};
ghost use Rattle.arrowflow_line.specs.CommandLine.{IsPlan, IsTask, align_by, is_given, name_in, names_in};
ghost use Rattle.arrowflow_line.specs.CommandLine.{copy_options_in, name_if_any, names_by};
ghost use Rattle.arrowflow_line.specs.CommandLine.{names_if_any, number_text, options_in, types_by};
ghost use Rattle.arrowflow_line.specs.CommandLine.{updates_by};
ghost use Rattle.arrowflow_line.specs.declared.fault.SizeOption.TheVariants.{LimitBytes};

use crate::fault::{ArgFault, Misuse, SizeOption};
use crate::plans::{CopyOptions, Files, Plan, ShowOptions, Task, Totals};
use crate::sizes::size_in;
use arrow_body_writer::Align;
use arrow_dict::Updates;
use arrow_stream_writer::Options;
use arrow_types::{Limits, TypeSet};
use clap::ArgMatches;
use std::alloc::{AllocError, Global};

/// The text that an argument was given, empty if it was given none.
#[tactic(auto, using(crate::proofs::Asked::name_found))]
fn text_of<'a>(matches: &ArgMatches<'a>, argument: &str) -> &'a str
    ensures { result.now ≡ name_in argument.now (rows_of (found_of matches.now)) }
{
    matches.get_str(argument).unwrap_or("")
}

/// The name that an argument was given.
fn name_of(alloc: Global, matches: &ArgMatches<'_>, argument: &str) -> Result<String, AllocError>
    ensures { IfOk result (λ s. string_bytes s
        ≡ name_in argument.now (rows_of (found_of matches.now))) }
{
    String::from_str(alloc, text_of(matches, argument))
}

/// The name that an argument was given, `None` if it was given none.
fn name_if_any(
    alloc: Global,
    matches: &ArgMatches<'_>,
    argument: &str,
) -> Result<Option<String>, AllocError>
    ensures { IfOk result (λ name. option_map string_bytes name
        ≡ name_if_any argument.now (rows_of (found_of matches.now))) }
{
    match matches.get_str(argument) {
        Some(name) => Ok(Some(String::from_str(alloc, name)?)),
        None => Ok(None),
    }
}

/// All names that an argument was given, in their order.
#[tactic(auto, using(crate::proofs::Asked::names_found))]
fn names_of(
    alloc: Global,
    matches: &ArgMatches<'_>,
    argument: &str,
) -> Result<Vec<String>, AllocError>
    ensures { IfOk result (λ v. map string_bytes v.items
        ≡ names_in argument.now (rows_of (found_of matches.now))) }
{
    let mut names = Vec::new(alloc);
    let Some(given) = matches.get_strs(argument) else {
        return Ok(names);
    };
    for name in given {
        names.push(String::from_str(alloc, name)?)?;
    }
    Ok(names)
}

/// The names in the text that an argument was given, separated by commas, `None` if it was given
/// none.
fn names_if_any(
    alloc: Global,
    matches: &ArgMatches<'_>,
    argument: &str,
) -> Result<Option<Vec<String>>, AllocError>
    ensures { IfOk result (λ names. option_map (λ v. map string_bytes v.items) names
        ≡ names_if_any argument.now (rows_of (found_of matches.now))) }
{
    match matches.get_str(argument) {
        Some(names) => Ok(Some(parts_of(alloc, names)?)),
        None => Ok(None),
    }
}

/// The parts of a text between its commas.
fn parts_of(alloc: Global, text: &str) -> Result<Vec<String>, AllocError>
    ensures { IfOk result (λ v. map string_bytes v.items ≡ names_by text.now) }
{
    let mut parts = Vec::new(alloc);
    let mut rest = text;
    while let Some((part, after)) = rest.split_once(',') {
        parts.push(String::from_str(alloc, part)?)?;
        rest = after;
    }
    parts.push(String::from_str(alloc, rest)?)?;
    Ok(parts)
}

/// The number that an argument was given, within these bounds: clap accepts no other.
fn number_of(matches: &ArgMatches<'_>, argument: &str, least: u64, most: u64) -> u64
    requires { least ≤ most }
    ensures { IsNumberOf least most (number_text argument.now (rows_of (found_of matches.now)))
        result }
{
    match matches.get_one::<u64>(argument) {
        Some(number) => number.max(least).min(most),
        None => most,
    }
}

/// The number that an argument was given, `None` if it was given none.
fn number_if_any(matches: &ArgMatches<'_>, argument: &str) -> Option<u64>
    ensures { IsNumberIfAny (number_text argument.now (rows_of (found_of matches.now))) result }
{
    matches.get_one::<u64>(argument)
}

/// Whether an option without a value was given.
fn is_given(matches: &ArgMatches<'_>, argument: &str) -> bool
    ensures { result ≡ is_given argument.now (rows_of (found_of matches.now)) }
{
    text_of(matches, argument) == "true"
}

/// The size that an option was given.
fn size_of(matches: &ArgMatches<'_>, option: SizeOption) -> Result<u64, Misuse>
    ensures { MatchResult result (IsSizeOf option (rows_of (found_of matches.now)))
        (LacksSizeOf option (rows_of (found_of matches.now))) }
{
    let text = text_of(matches, option.name());
    match size_in(text, option.least(), option.most()) {
        Some(size) => Ok(size),
        None => Err(Misuse::NoSize(option)),
    }
}

/// The size that an option was given, `None` if it was given none.
fn size_if_any(matches: &ArgMatches<'_>, option: SizeOption) -> Result<Option<u64>, Misuse>
    ensures { MatchResult result (IsSizeIfAny option (rows_of (found_of matches.now)))
        (LacksGiven option (rows_of (found_of matches.now))) }
{
    match matches.get_str(option.name()) {
        Some(_) => match size_of(matches, option) {
            Ok(size) => Ok(Some(size)),
            Err(misuse) => Err(misuse),
        },
        None => Ok(None),
    }
}

/// The bounds of a complete stream that a command was given.
fn totals_of(matches: &ArgMatches<'_>) -> Result<Totals, Misuse>
    ensures { MatchResult result (AreTotalsIn (rows_of (found_of matches.now)))
        (LacksGiven LimitBytes (rows_of (found_of matches.now))) }
{
    let bytes = size_if_any(matches, SizeOption::LimitBytes)?;
    Ok(Totals {
        rows: number_if_any(matches, "limit-total-rows"),
        messages: number_if_any(matches, "limit-messages"),
        bytes,
    })
}

/// The limits that a command was given.
fn limits_of(matches: &ArgMatches<'_>) -> Result<Limits, Misuse>
    ensures { MatchResult result (AreLimitsIn (rows_of (found_of matches.now)))
        (LacksLimit (rows_of (found_of matches.now))) }
{
    let metadata = size_of(matches, SizeOption::LimitMetadata)?;
    let body = size_of(matches, SizeOption::LimitBody)?;
    let rows = number_of(matches, "limit-rows", 0, Limits::ROWS_CEILING);
    let types = types_by(text_of(matches, "types"));
    Ok(Limits::new(metadata, body, rows).unwrap().with_types(types))
}

/// The set of types, by the word for it.
fn types_by(word: &str) -> TypeSet
    ensures { result ≡ types_by word.now }
{
    match word {
        "all" => TypeSet::All,
        // `core`: clap accepts no other word
        _ => TypeSet::Core,
    }
}

/// How updates of dictionaries are sent, by the word for it.
fn updates_by(word: &str) -> Updates
    ensures { result ≡ updates_by word.now }
{
    match word {
        "resend" => Updates::Resend,
        // `delta`: clap accepts no other word
        _ => Updates::Delta,
    }
}

/// The alignment, by its number of bytes.
fn align_by(word: &str) -> Align
    ensures { result ≡ align_by word.now }
{
    match word {
        "8" => Align::Eight,
        // `64`: clap accepts no other word
        _ => Align::SixtyFour,
    }
}

/// The options of a command that writes streams.
fn options_of(matches: &ArgMatches<'_>) -> Options
    ensures { result ≡ options_in (rows_of (found_of matches.now)) }
{
    Options {
        updates: updates_by(text_of(matches, "updates")),
        align: align_by(text_of(matches, "align")),
    }
}

/// The plan of the command with this name, from what was found after the name; `None` if there is
/// no such command.
pub(crate) fn plan_of(
    alloc: Global,
    command: &str,
    given: &ArgMatches<'_>,
) -> Result<Option<Plan>, ArgFault>
    ensures plan { IfOk result (λ plan. MatchOption plan (IsCommand command.now → ⊥)
        (λ p. IsPlan command.now (rows_of (found_of given.now)) p)) }
    ensures fault { IfErr result (IsFaultIn command.now (rows_of (found_of given.now))) }
{
    match task_of(alloc, command, given)? {
        Some(task) => Ok(Some(Plan {
            task,
            limits: limits_of(given)?,
            totals: totals_of(given)?,
        })),
        None => Ok(None),
    }
}

/// The task of the command with this name; `None` if there is no such command.
fn task_of(alloc: Global, command: &str, given: &ArgMatches<'_>) -> Result<Option<Task>, ArgFault>
    ensures task { IfOk result (λ task. MatchOption task (IsCommand command.now → ⊥)
        (λ t. IsTask command.now (rows_of (found_of given.now)) t)) }
    ensures fault { IfErr result (IsFaultIn command.now (rows_of (found_of given.now))) }
{
    Ok(Some(match command {
        "schema" => Task::Schema(files_of(alloc, given)?),
        "check" => Task::Check(files_of(alloc, given)?, is_given(given, "quiet")),
        "show" => show_of(alloc, given)?,
        "explain" => Task::Explain(name_if_any(alloc, given, "FILE")?),
        "copy" => copy_of(alloc, given)?,
        "drill" => drill_of(alloc, given)?,
        // a text that is not the name of a command
        _ => return Ok(None),
    }))
}

/// Which files are read.
fn files_of(alloc: Global, given: &ArgMatches<'_>) -> Result<Files, AllocError>
    ensures { IfOk result (AreFiles (rows_of (found_of given.now))) }
{
    let json = is_given(given, "json");
    Ok(Files {
        names: names_of(alloc, given, "FILE")?,
        with_filename: is_given(given, "with-filename"),
        json,
    })
}

/// What is printed.
fn show_of(alloc: Global, given: &ArgMatches<'_>) -> Result<Task, AllocError>
    ensures { IfOk result (λ t. IsTask (codes "show") (rows_of (found_of given.now)) t) }
{
    let file = name_if_any(alloc, given, "FILE")?;
    let options = ShowOptions {
        columns: names_if_any(alloc, given, "columns")?,
        batch: number_if_any(given, "batch"),
        skip: number_if_any(given, "skip"),
        rows: number_if_any(given, "rows"),
        null: name_if_any(alloc, given, "null")?,
        no_batch: is_given(given, "no-batch"),
        json: is_given(given, "json"),
    };
    Ok(Task::Show(file, options))
}

/// What is copied, and how.
fn copy_of(alloc: Global, given: &ArgMatches<'_>) -> Result<Task, ArgFault>
    ensures task { IfOk result (λ t. IsTask (codes "copy") (rows_of (found_of given.now)) t) }
    ensures fault { IfErr result (IsFaultIn (codes "copy") (rows_of (found_of given.now))) }
{
    let input = name_of(alloc, given, "IN")?;
    let output = name_if_any(alloc, given, "OUT")?;
    match (is_given(given, "in-place"), output.is_some()) {
        (true, true) => Err(ArgFault::Misused(Misuse::TwoOutputs)),
        (false, false) => Err(ArgFault::Misused(Misuse::NoOutput)),
        (true, false) | (false, true) => { Ok(Task::Copy(input, output, copy_options_of(given))) }
    }
}

/// How a stream is copied.
fn copy_options_of(given: &ArgMatches<'_>) -> CopyOptions
    ensures { result ≡ copy_options_in (rows_of (found_of given.now)) }
{
    CopyOptions {
        stream: options_of(given),
        atomic: is_given(given, "atomic"),
        no_clobber: is_given(given, "no-clobber"),
        fail_downstream: is_given(given, "fail-downstream"),
    }
}

/// What is drilled, and how.
fn drill_of(alloc: Global, given: &ArgMatches<'_>) -> Result<Task, ArgFault>
    ensures task { IfOk result (λ t. IsTask (codes "drill") (rows_of (found_of given.now)) t) }
    ensures fault { IfErr result (IsFaultIn (codes "drill") (rows_of (found_of given.now))) }
{
    let inputs = names_of(alloc, given, "FILE")?;
    let bytes = size_of(given, SizeOption::Bytes)?;
    let piece = size_of(given, SizeOption::Piece)?;
    Ok(Task::Drill(inputs, options_of(given), bytes, piece))
}
