//! Sessions: batches are written to connections, and the first bytes of each connection are
//! delivered to one reader.
//!
//! [`session::run`] does both ends of each connection in memory, and reports what was sent, what
//! was rejected, and what the reader returned. Its contract joins the writer and the reader: it is
//! `Reports` (`specs/Report.antt`). What is asked and which batches are accepted are defined in
//! `specs/Asked.antt`, streams and what is sent in `arrow_stream_reader` and `arrow_stream_laws`.
//!
//! | Notion | Definition |
//! |---|---|
//! | what is asked of a connection | `specs/Asked.antt`: `Asked` |
//! | its outcome by the definitions | `specs/Asked.antt`: `Outcome`, `outcome_of` |
//! | what is reported | `specs/Report.antt`: `IsReport`, `Reports` |
//! | how the writing advances | `specs/Running.antt`: `SoFar`, `IsSent` |
//!
//! Of the proofs, `Progressing` advances by one batch, `Joining` joins what was sent with what was
//! received by the laws `text_is_a_stream`, `delivered_beginning` and `one_front`, and `Reporting`
//! adds a report.
#![tactic(auto)]

mod connection;
mod memory_sink;
mod refusal;
mod sending;
pub mod session;
