//! Findings: results that are not as expected, and how many streams each kind of fault rejects.

use crate::kinds::Kinds;
use crate::pack::Vector;
use arrow_stream_reader::Fault;
use std::alloc::{AllocError, Global};

/// This many wrong results of a vector are shown.
const SHOWN: u64 = 3;

/// The results that are not as expected: how many there are of all vectors, and those of the
/// current one.
#[derive(Drop)]
pub(crate) struct Findings {
    total: u64,
    wrong: u64,
    /// The first of the current vector.
    text: String,
    /// The kinds of faults of the streams of the core.
    kinds: Kinds,
}

impl Findings {
    /// Nothing yet.
    pub(crate) fn new(alloc: Global) -> Findings {
        Findings {
            total: 0,
            wrong: 0,
            text: String::new(alloc),
            kinds: Kinds::new(),
        }
    }

    /// Begins with the next vector.
    pub(crate) fn begin(&mut self, alloc: Global) {
        self.wrong = 0;
        self.text = String::new(alloc);
    }

    /// Compares the result of a call with the expected one. The words and the number say which call
    /// it was.
    pub(crate) fn compare(
        &mut self,
        call: (&str, usize),
        answered: &str,
        wanted: &str,
    ) -> Result<(), AllocError> {
        if answered == wanted {
            return Ok(());
        }
        self.total = self.total.saturating_add(1);
        self.wrong = self.wrong.saturating_add(1);
        if self.wrong > SHOWN {
            return Ok(());
        }
        let (words, number) = call;
        write!(self.text, "-- {words} {number} answers\n{answered}")?;
        write!(self.text, "-- and not\n{wanted}")
    }

    /// Counts how a stream of a vector or of a family ends, if it is one of the core.
    pub(crate) fn count_end(&mut self, vector: &Vector<'_>, end: Result<(), Fault>) {
        if let (Err(fault), true) = (end, vector.is_of_core()) {
            self.kinds.count(fault);
        }
    }

    /// How many there are of the current vector.
    pub(crate) fn wrong(&self) -> u64 {
        self.wrong
    }

    /// How many there are of all vectors.
    pub(crate) fn total(&self) -> u64 {
        self.total
    }

    /// How many streams of the core end with the kind of fault of this number.
    pub(crate) fn rejected(&self, number: usize) -> u64 {
        self.kinds.of(number)
    }

    /// What was found for the current vector.
    pub(crate) fn text(&self, alloc: Global) -> Result<String, AllocError> {
        if self.wrong == 0 {
            return String::from_str(alloc, "as expected");
        }
        let (wrong, text) = (self.wrong, self.text.as_str());
        format!(in alloc; "{wrong} answers are not as expected\n{text}")
    }
}
