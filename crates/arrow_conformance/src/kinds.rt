//! How many streams each kind of fault rejects.

use arrow_stream_reader::Fault;

/// The kinds that bytes alone decide have the numbers from 1 up to this one: all but `Memory`.
pub(crate) const LAST: usize = 18;

/// How many streams end with each kind of fault, by the kind's number.
#[derive(Drop)]
pub(crate) struct Kinds {
    counts: [u64; 19],
}

impl Kinds {
    /// No stream yet.
    pub(crate) fn new() -> Kinds {
        Kinds { counts: [0; 19] }
    }

    /// Counts a stream that ends with this fault.
    pub(crate) fn count(&mut self, fault: Fault) {
        let number = fault.kind.number() as usize;
        if number < self.counts.len() {
            self.counts[number] = self.counts[number].saturating_add(1);
        }
    }

    /// How many streams end with the kind of this number.
    pub(crate) fn of(&self, number: usize) -> u64 {
        match self.counts.get(number) {
            Some(count) => *count,
            None => 0,
        }
    }
}
