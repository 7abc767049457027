//! Connections rehearsed: streams are read, and sent again over connections that break.
//!
//! [`drill`] takes inputs with streams, reads each as a connection, runs the connections by
//! `arrowflow_session::session::run`, and returns a text that reports what was sent and received
//! over each. `specs/Reading.antt` defines as what an input is read, and how that ends, and
//! `Drills` (`specs/Drill.antt`) the result for all inputs, in the terms of `arrow_stream_reader`
//! and `arrowflow_session`. The text is a definition over the requests for the connections and the
//! contents of their reports, `lines_from` (`specs/Lines.antt`).
//!
//! | Notion | Definition |
//! |---|---|
//! | an input read as a connection | `specs/Reading.antt`: `IsConnectionOf`, `AreRead` |
//! | the result for all inputs | `specs/Drill.antt`: `Drills`; `specs/DrillOptions.antt` |
//! | the lines that report connections | `specs/Lines.antt`: `connection_lines`, `lines_from` |
//! | the counts of a report | `specs/Counts.antt`: `bytes_in`, `rows_in` |
//!
//! Each input is read by `drive` of `arrowflow_input`, whose consumer keeps its batches. In the
//! proofs, `Streams` covers how a stream ends, `Reported` faults that are reported as others, `Inputs`
//! one input after another, `Lined` the lines.
#![tactic(auto)]

mod drilling;
mod lines;
mod reading;

pub use drilling::drill;
