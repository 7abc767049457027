//! Which rows and columns are shown, and why they are not.

ghost use Rattle.std.specs.Prelude.{◌≡◌};
ghost use Rattle.arrowflow_text.specs.Columns.{answer_by_lack};

use arrow_csv::Layout;
use arrowflow_input::ToolFault;

/// Which rows of a stream are shown, and how they are written.
#[derive(Clone, Copy)]
pub struct Selection<'a> {
    /// The columns of the rows, the text of a null, and whether rows have numbers.
    pub layout: Layout<'a>,
    /// The number of the one batch whose rows are shown, from 0, or all batches.
    pub batch: Option<u64>,
    /// How many of these rows are left out first.
    pub skip: u64,
    /// How many rows follow, or all.
    pub rows: Option<u64>,
}

/// Why columns are not shown, or not to the end.
#[derive(Debug, Drop)]
pub enum ColumnsFault {
    /// The schema has no column with the name at this index among those that were asked for, and
    /// one with each name before it.
    Lacks(usize),
    /// A fault as [`show`](crate::show) returns it.
    Tool(ToolFault),
}

/// What is returned if columns were asked for, depending on whether the schema lacks one.
pub(crate) fn answer_by_lack(
    lacks: Option<usize>,
    answer: Result<(), ToolFault>,
) -> Result<(), ColumnsFault>
    ensures { result ≡ answer_by_lack lacks answer }
{
    match (lacks, answer) {
        (Some(column), _) => Err(ColumnsFault::Lacks(column)),
        (None, Ok(())) => Ok(()),
        (None, Err(fault)) => Err(ColumnsFault::Tool(fault)),
    }
}
