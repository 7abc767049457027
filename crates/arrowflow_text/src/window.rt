//! Which rows of a stream are to be written.

ghost use Rattle.std.specs.Prelude.{◌≡◌, ◌≤◌, MatchBool};
ghost use Rattle.arrowflow_text.specs.Windows.{IsOver, after_batch, counted, end_by, moved};
ghost use Rattle.arrowflow_text.specs.Windows.{start_in};

use std::ops::Range;

/// Which rows of the batches to come are to be written.
#[derive(Clone, Copy)]
pub(crate) struct Window {
    /// The number of the one batch whose rows are meant, or all batches.
    pub(crate) batch: Option<u64>,
    /// How many of these rows are left out first.
    pub(crate) skip: u64,
    /// How many rows follow, or all.
    pub(crate) rows: Option<u64>,
}

impl Window {
    /// How many rows count of the batch with this number and this many rows.
    fn counted(self, number: u64, rows: usize) -> usize
        ensures { result ≡ counted self number rows }
    {
        match self.batch {
            Some(batch) if batch != number => 0,
            Some(_) | None => rows,
        }
    }

    /// The rows to be written of the batch with this number and this many rows.
    pub(crate) fn range(self, number: u64, rows: usize) -> Range<usize>
        ensures start { result.start ≡ start_in self (counted self number rows) }
        ensures end { result.end ≡ end_by self.rows self.skip (counted self number rows) }
        ensures order { result.start ≤ result.end }
        ensures inside { result.end ≤ rows }
    {
        let rows = self.counted(number, rows) as u64;
        let start = rows.min(self.skip);
        let end = match self.rows {
            Some(left) => rows.min(self.skip.saturating_add(left)),
            None => rows,
        };
        start as usize..end as usize
    }

    /// The window after the batch with this number and this many rows.
    pub(crate) fn after(self, number: u64, rows: usize) -> Window
        ensures { result ≡ after_batch self number rows }
    {
        self.moved(self.counted(number, rows) as u64)
    }

    /// The window after this many rows that count.
    fn moved(self, rows: u64) -> Window
        ensures { result ≡ moved self rows }
    {
        let shown = rows.saturating_sub(self.skip);
        let left = match self.rows {
            Some(left) => Some(left.saturating_sub(shown)),
            None => None,
        };
        Window {
            batch: self.batch,
            skip: self.skip.saturating_sub(rows),
            rows: left,
        }
    }

    /// Whether no further row is to be written after this many batches.
    pub(crate) fn is_over(self, number: u64) -> bool
        ensures { MatchBool result (IsOver self number) (IsOver self number → ⊥) }
    {
        match (self.rows, self.batch) {
            (Some(0), _) => true,
            (_, Some(batch)) => batch < number,
            (_, None) => false,
        }
    }
}
