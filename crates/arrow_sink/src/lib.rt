//! Where the bytes of a stream go: a sink takes them in pieces, as many of each as it can, and
//! counts its failures.
//!
//! A [`Sink`] may take a part of a piece, and the remaining bytes are offered again; [`send`] does
//! that until all are taken or a call fails. [`Counted`] makes a sink of any writer. Contracts say
//! which bytes a sink accepted if it is known, as for a sink over memory; nothing is claimed of a
//! file or a socket. [`probe`] has a sink and an input that fail at a chosen point.
//!
//! The count of failures lets a caller know exactly when a fault comes from the sink: it rises by
//! one with each call that fails, and with no other.
//!
//! A writer over a sink returns a [`WriteFault`], and its [`Status`] says whether it takes more.
//! They are in this crate so that code that reports an error needs nothing else of a writer.
//!
//! | Notion | Definition |
//! |---|---|
//! | bytes that are accepted | `specs/Sinks.antt`: `Puts`, `AcceptsBeginning` |
//! | results of a writer that are reported | `specs/Answers.antt`: `ReportsAnswer`, `CountsError` |
//! | failures that are counted | `specs/Sinks.antt`: `CountsPut`, `CountsFlush` |
//! | numbers and texts of a writer's errors | `specs/Refusals.antt` |
#![tactic(auto)]

mod counted;
pub mod probe;
mod sending;
mod sink;
mod status;
mod write_fault;

pub use counted::Counted;
pub use sending::send;
pub use sink::{Sink, SinkFault};
pub use status::Status;
pub use write_fault::WriteFault;
