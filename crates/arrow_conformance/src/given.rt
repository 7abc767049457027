//! Inputs in the form in which the calls receive them.

use arrow_sink::probe::Trickle;
use arrow_types::{Limits, TypeSet};
use std::io::ErrorKind;

/// An input over bytes, and the types with which it is read.
#[derive(Clone, Copy)]
pub(crate) struct Given<'a> {
    /// The bytes.
    pub(crate) stream: &'a [u8],
    /// The types of the calls' limits.
    pub(crate) types: TypeSet,
    /// At most this many of them are delivered at once.
    pub(crate) at_once: usize,
    /// Where it fails, if it does.
    pub(crate) fails: Option<usize>,
}

impl<'a> Given<'a> {
    /// An input that delivers as much as possible at once.
    pub(crate) fn whole(stream: &'a [u8], types: TypeSet) -> Given<'a> {
        Given {
            stream,
            types,
            at_once: usize::MAX,
            fails: None,
        }
    }

    /// The input at its first byte.
    pub(crate) fn input(&self) -> Trickle<'a> {
        let fails = self.fails.map(|place| (place, error_at(place)));
        Trickle::new(self.stream, self.at_once, fails)
    }

    /// The offset at which it fails, or else how much of it is delivered at once.
    pub(crate) fn number(&self) -> usize {
        self.fails.unwrap_or(self.at_once)
    }
}

/// The error with which an input fails at an offset: each is reported in the same way.
fn error_at(place: usize) -> ErrorKind {
    match place % 4 {
        0 => ErrorKind::Interrupted,
        1 => ErrorKind::BrokenPipe,
        2 => ErrorKind::UnexpectedEof,
        _ => ErrorKind::Other,
    }
}

/// The standard limits with these types.
pub(crate) fn limits_of(types: TypeSet) -> Limits {
    Limits::standard().with_types(types)
}
