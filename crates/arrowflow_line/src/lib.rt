//! The command line of the program `arrowflow`, and what it asks for.
//!
//! [`plan`] takes the words of a line and returns a [`Plan`]: the [`Task`], which is the command
//! with the names that it was given and its options, the limits of messages, and the bounds of a
//! complete stream; or an [`ArgFault`], which prints itself. Sizes may have units, such as `64K` or
//! `1GiB`. `AnswersLine` (`specs/CommandLine.antt`) defines what the words of a line ask for, in
//! clap's terms.
//!
//! | Notion | Definition |
//! |---|---|
//! | what the words of a line ask for | `specs/CommandLine.antt`: `AnswersLine`, `IsAskedFor`, `program_app` |
//! | what is wrong with words that clap accepts | `specs/CommandLine.antt`: `IsMisuse` |
//! | sizes with units | `specs/Sizes.antt`: `IsSize`, `units` |
#![tactic(auto)]

mod arguments;
mod command_line;
mod fault;
mod help;
mod plans;
mod reading;
mod sizes;
mod tables;

pub use command_line::plan;
pub use fault::{ArgFault, Misuse, SizeOption};
pub use plans::{CopyOptions, Files, Plan, ShowOptions, Task, Totals};
