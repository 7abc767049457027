//! Laws that are only about definitions.

ghost use Rattle.arrow_json.specs.Laws.{RowIsOneLine, RowReadsBack};

/// The text of a row is one JSON value: it parses as the JSON of the row, with the members in their
/// order, whatever the names of its columns and however its values nest, since a schema has at most
/// 32 levels.
pub fn row_reads_back()
    ensures reads { RowReadsBack }
{}

/// The text of a row has no line feed: so only line feeds separate the lines of rows.
pub fn row_is_one_line()
    ensures one { RowIsOneLine }
{}
