//! What the program uses of its system.

use std::io::{Input, IsTerminal};
use std::rt::{Env, Files};
use std::time::Clock;

/// A runtime with all that the commands use, which knows which of its standard streams are
/// terminals.
pub(crate) trait Host: AllocGlobal + Env + Files + Input + Print + Eprint + Clock {
    /// Whether standard input is one.
    fn reads_terminal(&self) -> bool;

    /// Whether standard output is one.
    fn prints_on_terminal(&self) -> bool;

    /// Whether standard error is one.
    fn reports_on_terminal(&self) -> bool;
}

impl Host for HostRuntime {
    fn reads_terminal(&self) -> bool {
        self.stdin().is_terminal()
    }

    fn prints_on_terminal(&self) -> bool {
        self.stdout().is_terminal()
    }

    fn reports_on_terminal(&self) -> bool {
        self.stderr().is_terminal()
    }
}
