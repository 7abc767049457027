//! What is reported of a stream.

ghost use Rattle.std.specs.Prelude.{◌≡◌};
ghost use Rattle.arrow_csv.specs.Layouts.{form_by};
ghost use Rattle.arrow_csv.specs.Named.{choice_by};
ghost use Rattle.arrowflow_text.specs.Chosen.{choice_of, form_of};

use arrow_csv::Layout;

/// What is reported of a stream, as it comes.
#[derive(Clone, Copy)]
pub(crate) enum ReportKind<'a> {
    /// A line for each message.
    Messages,
    /// Its rows, as records of comma-separated values.
    Rows(Layout<'a>),
}

impl<'a> ReportKind<'a> {
    /// How rows are written.
    pub(crate) fn layout(self) -> Layout<'a>
        ensures columns { choice_by result.columns ≡ choice_of self.entry }
        ensures form { form_by result ≡ form_of self.entry }
    {
        match self {
            ReportKind::Messages => Layout::usual(),
            ReportKind::Rows(layout) => layout,
        }
    }
}
