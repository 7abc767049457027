//! Laws that concern only definitions.

ghost use Rattle.arrowflow_json.specs.Laws.{ColumnsReadBack, EndReadsBack, FaultReadsBack};
ghost use Rattle.arrowflow_json.specs.Laws.{MessageReadsBack};

/// The text of each column of a schema is one JSON value, and reads back as the JSON of the column,
/// however its fields nest, because a schema has at most 32 levels.
pub fn columns_read_back()
    ensures reads { ColumnsReadBack }
{}

/// The text of a message does so too.
pub fn message_reads_back()
    ensures reads { MessageReadsBack }
{}

/// The texts of the end of an input, and of a fault, do so too.
pub fn ends_read_back()
    ensures end { EndReadsBack }
    ensures fault { FaultReadsBack }
{}
