//! Batches as records of comma-separated values, for people to read.
//!
//! A text begins with a record of the word `batch` and the column names; each row is a record of
//! the number of its batch and the texts of its values, indices looked up. Fields are joined by
//! commas and records end with a line feed. A field is between quotes only if it contains a comma,
//! a double quote or an end of line, and double quotes in it are then written twice (RFC 4180).
//! That is the quoting of the crate `csv` by its definitions, which writes the first record; rows
//! are appended to one text, without building a separate record first. Bytes that need quotes are
//! searched sixteen at a time, sixty-four in long fields (`src/chunks.rt`).
//!
//! `IsText` (`specs/Texts.antt`) defines which texts a value has, over plain values: one, unless it
//! contains a floating-point number, which shows as a text that parses as the same number. The one
//! that is written is short: `1.5`, `-0.0`, `1e300`, `inf` and `NaN`, by the crate `ryu`. A number
//! of 16 bits shows as the number of 32 bits that it equals. No number needs quotes. A decimal
//! shows as the digits of its whole number with a point (`-0.50`), with as many digits after the
//! point, zeros included, as it has places, or, if the scale is below 0, with the exponent
//! (`12e3`). An interval shows as its numbers with their units: `14M`, `2d500ms` or `1M2d3ns`.
//!
//! [`header`], [`rows`] and [`BatchRows::push`] give records of such texts for every schema and
//! every batch. The standard gives no such text; this one is the project's own, and there is no
//! claim that a complete text can be parsed again.
//!
//! A caller that writes the rows of a batch in parts keeps its [`BatchRows`]: where the values of
//! each column, of a struct's fields and of a list's items lie is looked up once. The text before
//! each value of a struct is made once, and if a dictionary has few values compared with the rows,
//! so is the field of each value.
//!
//! | Notion | Definition |
//! |---|---|
//! | a text of a value | `specs/Texts.antt`: `IsText` |
//! | a text of a number | `specs/Floats.antt`: `IsNumberText`, `IsFloatText` |
//! | the text of a decimal | `specs/Decimals.antt`: `decimal_text` |
//! | the text of bytes, of an interval | `specs/Intervals.antt`: `bytes_text`, `interval_text` |
//! | texts of a row, the record of a schema | `specs/Records.antt`: `AreColumnTexts`, `header_record` |
//! | records of a batch, of a stream | `specs/Records.antt`: `AreBatchRows`, `IsStreamText` |
//! | columns chosen by their names | `specs/Named.antt`: `chosen`, `chosen_shape`, `lacking` |
//! | the text of a null, records with or without a number | `specs/Layouts.antt`: `Form`, `form_by` |
//! | what is looked up or made before the rows | `specs/Made.antt`: `IsPreparedFor` |
//! | bytes that need no quotes, checked by chunks | `specs/Chunks.antt`: `AreAllPlain`, `is_mark` |
#![tactic(auto)]

mod chunks;
mod column_text;
mod decimals;
mod digit_texts;
mod fields;
mod floats;
mod intervals;
mod layout;
mod list_text;
mod named;
mod records;
mod struct_text;
mod texts;
mod wide;

pub use decimals::{push_decimal, push_wide_decimal};
pub use digit_texts::{push_bytes, push_number};
pub use intervals::{push_interval, push_months};
pub use layout::Layout;
pub use named::lacking;
pub use records::{BatchRows, header, header_of, rows};
