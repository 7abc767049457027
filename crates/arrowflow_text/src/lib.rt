//! The texts of a stream: its schema, a line for each message, its rows as comma-separated values.
//!
//! The calls take an input with a stream and write text, or return the `ToolFault` of
//! `arrowflow_input`, whose line and exit status the program ends with. The program opens files,
//! makes one of these calls and prints what it gives; it adds nothing of its own. Each call is a
//! consumer of `drive`, the one loop over an input: one makes the text of the schema, one writes
//! lines or rows.
//!
//! [`words_of`] and [`int_words`] give the name and the format string of a type, from one table.
//!
//! [`check_within`] and [`show_within`] take an input with bounds of its whole stream, and end before
//! the message that passes one.
//!
//! | Notion | Definition |
//! |---|---|
//! | what an output has so far | `specs/ReportWriting.antt`: `HasReported` |
//! | the text of a schema, what is returned of it for an input | `specs/SchemaText.antt`: `schema_lines`; `specs/SchemaCall.antt`: `AnswersInput`; `specs/TypeNames.antt`; `specs/Escapes.antt` |
//! | the names and the format strings of types | `specs/TypeWords.antt`: `words_of`, `type_name`, `format_of` |
//! | what is written of a stream, and how that ends | `specs/Reports.antt`: `ReportsInput`; `specs/OfFront.antt`: `IsBegunOf`; `specs/Shown.antt`: `IsTextAt` |
//! | rows in a window; rows that are selected, columns chosen by their names | `specs/Windows.antt`: `ShowsWindowOf`, `IsTextWithin`; `specs/Columns.antt`: `ShowsSelection`, `LacksInput`; `specs/Chosen.antt`: `IsChosenText` |
//! | the lines of messages | `specs/Lines.antt`: `message_line`, `AreLines` |
//! | the calls with bounds of a whole stream | `specs/WithinCalls.antt` |
//!
//! Of the proofs, `Messages` shows what a report writer does with its messages, `Growing` the law,
//! `OfFront` that a text is also right in terms of the complete messages at the start of all bytes.
#![tactic(auto)]

mod bounded_reports;
mod columns;
mod escapes;
pub mod laws;
mod lines;
mod null_sink;
mod report;
mod report_writer;
mod reports;
mod schema_call;
mod schema_lines;
mod sending;
mod type_names;
mod type_words;
mod window;

pub use arrow_csv::Layout;
pub use bounded_reports::{check_quietly_within, check_within, show_within};
pub use columns::{ColumnsFault, Selection};
pub use reports::{check, check_quietly, show, show_selection};
pub use schema_call::schema_text;
pub use schema_lines::schema_lines_of;
pub use type_names::push_type_name;
pub use type_words::{TypeWords, format_width, int_words, words_of};
