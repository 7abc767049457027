//! The program's command line: one word for the command, then its names and options.

ghost use Rattle.std.specs.Prelude.{◌≡◌, IfOk, map, fold};
ghost use Rattle.clap.specs.Words.{app_of, with_rule};
ghost use Rattle.arrowflow_line.specs.CommandLine.{AnswersLine, HasNoGlobals, IsProgram};
ghost use Rattle.arrowflow_line.specs.CommandLine.{NeedsSubcommand};
ghost use Rattle.arrowflow_line.specs.CommandLine.{app_by, rule_by, with_rows};

use crate::arguments::{Argument, CommandRow};
use crate::fault::ArgFault;
use crate::help;
use crate::plans::Plan;
use crate::reading::plan_of;
use crate::tables::COMMANDS;
use clap::Command;
use std::alloc::{AllocError, Global};

/// The command with these arguments.
fn with_arguments<'a>(
    alloc: Global,
    command: Command<'a>,
    arguments: &[Argument],
) -> Result<Command<'a>, AllocError>
    requires { HasNoGlobals command }
    ensures globals { IfOk result HasNoGlobals }
    ensures app { IfOk result (λ c. app_of c
        ≡ fold with_rule (app_of command.entry) (map rule_by arguments.now)) }
{
    let mut command = command;
    for argument in arguments {
        command = command.arg(argument.arg(alloc))?;
    }
    Ok(command)
}

/// The command of a row of the table.
fn command_of<'a>(alloc: Global, row: &CommandRow) -> Result<Command<'a>, AllocError>
    ensures globals { IfOk result HasNoGlobals }
    ensures app { IfOk result (λ c. app_of c ≡ app_by row.now) }
{
    let mut command = Command::new(alloc, row.name)
        .about(row.help.about)
        .after_help(row.help.after);
    for group in row.groups {
        command = with_arguments(alloc, command, group)?;
    }
    Ok(command)
}

/// The command with these subcommands.
fn with_commands<'a>(
    alloc: Global,
    top: Command<'a>,
    rows: &[CommandRow],
) -> Result<Command<'a>, AllocError>
    requires { HasNoGlobals top }
    ensures globals { IfOk result HasNoGlobals }
    ensures app { IfOk result (λ c. app_of c ≡ with_rows (app_of top.entry) rows.now) }
{
    let mut top = top;
    for row in rows {
        top = top.subcommand(command_of(alloc, row)?)?;
    }
    Ok(top)
}

/// The complete command line.
fn command<'a>(alloc: Global) -> Result<Command<'a>, AllocError>
    ensures globals { IfOk result HasNoGlobals }
    ensures needs { IfOk result NeedsSubcommand }
    ensures app { IfOk result (λ c. IsProgram (app_of c)) }
{
    let top = Command::new(alloc, "arrowflow")
        .bin_name("arrowflow")?
        .about(help::PROGRAM.about)
        .after_help(help::PROGRAM.after);
    let whole = with_commands(alloc, top, &COMMANDS)?;
    Ok(whole.subcommand_required(true).version(help::VERSION))
}

/// What the words of a command line ask for. The first word is the program's own name.
///
/// `ArgFault::Line` if the words are not a command with its names and options, or ask for help;
/// `ArgFault::Misused` if an option has no size within its bounds, or a copy has no output or two;
/// `ArgFault::Memory` if an allocation failed.
pub fn plan(alloc: Global, words: &[&str]) -> Result<Plan, ArgFault>
    ensures { AnswersLine (map (λ w. w.now) words.now) result }
{
    let matches = command(alloc)?.try_get_matches_from(words)?;
    let (command, given) = matches.subcommand().unwrap();
    Ok(plan_of(alloc, command, given)?.unwrap())
}
