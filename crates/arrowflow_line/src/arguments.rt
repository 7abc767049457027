//! What a row of the tables of commands and arguments means to clap.

ghost use Rattle.std.specs.Prelude.{◌≡◌, false};
ghost use Rattle.clap.specs.Walk.{rule_of};
ghost use Rattle.arrowflow_line.specs.CommandLine.{named, rule_by, rule_in_role};

use crate::help::Help;
use clap::builder::ValueParser;
use clap::{Arg, ArgAction};
use std::alloc::Global;

/// What clap reads for an argument.
#[derive(Clone, Copy)]
pub(crate) enum Role {
    /// A name that is required.
    Name,
    /// Names, at least one of which is required.
    Names,
    /// A name, if there is one.
    NameIfAny,
    /// Any number of names.
    NamesIfAny,
    /// An option without a value.
    Flag,
    /// An option with a text, for which help shows this word.
    Text(&'static str),
    /// An option with a number.
    Number,
    /// An option with a size, and its default.
    Size(&'static str),
    /// An option with a number up to this ceiling, and its default.
    Limit(u64, &'static str),
    /// An option with one of these words, and its default.
    OneOf(&'static [&'static str], &'static str),
}

/// An argument of a command: its name, its letter if it is an option that has one, what clap reads
/// for it, and its help.
#[derive(Clone, Copy)]
pub(crate) struct Argument(
    pub(crate) &'static str,
    pub(crate) Option<char>,
    pub(crate) Role,
    pub(crate) &'static str,
);

/// A command: its name, the text of its help, and the groups of its arguments.
#[derive(Clone, Copy)]
pub(crate) struct CommandRow {
    pub(crate) name: &'static str,
    pub(crate) help: Help,
    pub(crate) groups: &'static [&'static [Argument]],
}

impl Argument {
    /// The argument, as clap takes it.
    pub(crate) fn arg(&self, alloc: Global) -> Arg<'static>
        ensures rule { rule_of result ≡ rule_by self.now }
        ensures local { result.global ≡ false }
    {
        let Argument(name, letter, role, help) = *self;
        let arg = role.arg(alloc, name).help(help);
        match letter {
            Some(letter) => arg.short(letter),
            None => arg,
        }
    }
}

/// An option with this name.
fn named(alloc: Global, name: &'static str) -> Arg<'static>
    ensures rule { rule_of result ≡ named name.now }
    ensures local { result.global ≡ false }
{
    Arg::new(alloc, name).long(name)
}

impl Role {
    /// An argument in this role with this name, without a letter and help.
    fn arg(self, alloc: Global, name: &'static str) -> Arg<'static>
        ensures rule { rule_of result ≡ rule_in_role name.now self }
        ensures local { result.global ≡ false }
    {
        match self {
            Role::Name => Arg::new(alloc, name).required(true),
            Role::Names => Arg::new(alloc, name).required(true).num_args(1..),
            Role::NameIfAny => Arg::new(alloc, name),
            Role::NamesIfAny => Arg::new(alloc, name).num_args(1..),
            Role::Flag => named(alloc, name).action(ArgAction::SetTrue),
            Role::Text(word) => named(alloc, name).value_name(word),
            Role::Number => {
                let parser = ValueParser::unsigned(0, u64::MAX);
                named(alloc, name).value_parser(parser).value_name("N")
            }
            Role::Size(default) => {
                let option = named(alloc, name).value_parser(ValueParser::String);
                option.default_value(default).value_name("N")
            }
            Role::Limit(ceiling, default) => {
                let parser = ValueParser::unsigned(0, ceiling);
                let option = named(alloc, name).value_parser(parser);
                option.default_value(default).value_name("N")
            }
            Role::OneOf(words, default) => {
                let option = named(alloc, name).value_parser(ValueParser::from(words));
                option.default_value(default)
            }
        }
    }
}
