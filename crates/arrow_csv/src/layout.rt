//! How records are written.

ghost use Rattle.std.specs.Prelude.{◌≡◌};
ghost use Rattle.arrow_csv.specs.Layouts.{usual};

/// How the rows of a stream are written as records.
#[derive(Clone, Copy)]
pub struct Layout<'a> {
    /// The names of the columns, in their order, or all columns. Each name selects the first column
    /// that has it; a name that no column has selects none. Names are compared byte for byte.
    pub columns: Option<&'a [&'a str]>,
    /// The text of a null that is a value of a row, or the empty text. It is a field like any
    /// other: it has quotes if it needs them. A null inside a list or a struct is `null`.
    pub null: Option<&'a str>,
    /// Whether each record begins with the number of its batch, and the first record with the word
    /// `batch`.
    pub numbers: bool,
}

impl<'a> Layout<'a> {
    /// The usual layout: all columns, empty nulls, and numbers.
    pub fn usual() -> Layout<'a>
        ensures { result ≡ usual }
    {
        Layout {
            columns: None,
            null: None,
            numbers: true,
        }
    }
}
