//! Streams as lines of JSON: their rows, the columns of their schemas, their messages.
//!
//! Each call takes an input with a stream and an output, and reads the input with `drive` of
//! `arrowflow_input`, as the consumer of its messages. [`show_json`] writes each row as a line
//! (`arrow_json`), [`check_json`] each message, as they are read; [`schema_json`] writes each
//! column of the schema, and reads no further.
//!
//! What the first two write, and how they end, is defined once, for any form of lines
//! (`specs/Forms.antt`): after `Ok` the lines of all messages, and nothing else, were appended to
//! the output; after a fault of the stream, or of the input, those of the complete messages; after
//! `Output` and `Memory` a prefix of them.
//!
//! | Notion | Definition |
//! |---|---|
//! | what is written for an input, and how that ends | `specs/Forms.antt`: `WritesInput`, `Form` |
//! | the same for rows | `specs/Shows.antt`: `ShowsInput` |
//! | the same for messages | `specs/Messages.antt`: `ChecksInput` |
//! | the JSON of a message, of a fault | `specs/Messages.antt`: `message_json`, `fault_json` |
//! | the JSON of columns | `specs/Fields.antt`: `fields_json` |
//! | what is written for a schema | `specs/SchemaLines.antt`: `WritesSchemaOf` |
//! | what was written so far | `specs/Showing.antt`: `HaveWritten` |
//! | that texts read back | `specs/Laws.antt`: `ColumnsReadBack`, `MessageReadsBack` |
//! | tokens that were appended | `specs/Tokens.antt`: `Adds` |
//!
//! Of the proofs, `Writing` proves the statement for any form, `Showing` and `Sent` for rows,
//! `Checking` for messages, `SchemaWritten` for the schema's call; `Adding` proves how tokens
//! follow one another, `ReadBack` the laws.
#![tactic(auto)]

mod check;
mod fields;
mod first_schema;
pub mod laws;
mod members;
mod message_lines;
mod message_texts;
mod row_lines;
mod schema;
mod sending;
mod show;
mod type_texts;

pub use check::check_json;
pub use fields::schema_json_lines;
pub use schema::schema_json;
pub use show::show_json;
