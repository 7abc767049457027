//! Rows of batches as lines of JSON (RFC 8259; the lines are those of JSON Lines).
//!
//! A row is an object with a member for each column, in the order of the schema, under the column's
//! name; a name that occurs twice in the schema occurs twice in the object. After it comes a line
//! feed, which no text of a row contains. Indices are looked up. Numbers are numbers, decimals with
//! all their digits; NaN, the infinities and intervals are strings, bytes strings of hexadecimal
//! digits, lists and maps arrays, and structs objects.
//!
//! `IsJson` (`specs/Values.antt`) defines which JSON a value has, over plain values: one, except
//! that a floating-point number has every JSON number that parses as it. A number of 16 bits has
//! those that parse as the number of 32 bits that it equals. The text is the one that the crate
//! `json` prints of its tokens, without spaces and with the shortest escapes.
//!
//! [`lines_of`] gives the lines of rows of any batch. [`laws`] says that the text of each row is
//! one JSON value, which parses as the row's JSON, and that it has no line feed.
//!
//! No contract says that the values of a row can be recovered from its JSON: JSON has fewer types
//! than Arrow. Readers that keep numbers as doubles lose digits of whole numbers above 2^53 and of
//! decimals; RFC 8259 leaves open how a reader treats a name that occurs twice (section 4).
//!
//! | Notion | Definition |
//! |---|---|
//! | how numbers and bytes of a type are shown | `specs/Kinds.antt`: `kind_of` |
//! | the JSON of a number, of bytes | `specs/Scalars.antt`: `IsNumberJson`, `bytes_json` |
//! | the JSON of a value | `specs/Values.antt`: `IsJson`, `IsArrayOf`, `IsObjectOf` |
//! | rows, and the JSON of a row | `specs/Lines.antt`: `Row`, `rows_of`, `IsRowJson` |
//! | lines of rows, of the first of them | `specs/Lines.antt`: `AreLines`, `AreFirstLines` |
//! | that the text of a row parses as its JSON | `specs/Laws.antt`: `RowReadsBack` |
//! | that it is one line | `specs/Laws.antt`: `RowIsOneLine` |
//! | tokens that were written | `specs/Written.antt`: `Adds` |
//!
//! Of the proofs, `Joining` shows how arrays and objects are written item by item, `DecimalNumbers`
//! that the text of a decimal is a JSON number, `Asciis` that texts are UTF-8, `Rows` how lines
//! follow one another, `ReadBack` and `OneLine` the laws.
#![tactic(auto)]

mod kind;
pub mod laws;
mod lines;
mod pen;
mod scalars;
mod values;

pub use lines::lines_of;
