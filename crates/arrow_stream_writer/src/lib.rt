//! The writer of a stream (Columnar Format, "IPC Streaming Format"): batches go in, frames come
//! out, into any sink.
//!
//! A [`StreamWriter`] takes batches whose columns were read or made in any way, and sends for each
//! the frames of the dictionary batches that it needs and of its record batch. What its calls
//! return and the state they leave it in is specified by `arrow_stream_laws`, in terms of its view
//! (`specs/Shown.antt`); by the laws there, and by [`laws::delivered_whole`], the bytes that a sink
//! accepted from it are a stream of just the rows of the batches that were accepted.
//!
//! The messages of a batch are built completely before a byte of them is sent (`parts.rt`), so that
//! a rejection changes nothing. `BatchLists` (`lists.rt`) finds the dictionaries of a batch at its
//! columns, on every level (Columnar Format, "Dictionary-encoded Layout"). `Updater`
//! (`updating.rt`) goes through the ids of the schema, appends the frames of the dictionary batches
//! that are to be sent, and stages the dictionaries. `frames.rt` builds frames of columns within
//! the limits. `send_part` and `send_end` (`sending.rt`) send what was built: the staged
//! dictionaries become sent ones only if the sink took all of a batch's messages. A frame is eight
//! bytes of prefix, the metadata of a message and its body (Columnar Format, "Encapsulated message
//! format"): `frame.rt` appends it, only its head, or the end marker. The last body of a batch's
//! messages, if it is long, is sent from where it was stored.
//!
//! | Notion | Definition |
//! |---|---|
//! | the view of a writer over a sink | `specs/Shown.antt`: `shown` |
//! | the messages of a batch, built | `specs/Parts.antt`: `IsPartBuilt`, `BuildsPart` |
//! | a frame, its head, appended | `specs/Frame.antt`: `AppendsFrame`, `AppendsHead` |
//! | sizes that depend only on fields | `specs/Sizes.antt`: `BatchesSized`, `DictionariesSized` |
//! | the frame of columns, within the limits | `specs/Framing.antt`: `Puts`, `part_bytes`; `specs/Terms.antt`: `Terms` |
//! | the dictionaries of a batch | `specs/Lists.antt`: `AreListsOf`, `FindsLists` |
//! | those that are to be sent | `specs/Updating.antt`: `AddsPlan` |
//! | whether it takes more | `specs/Taking.antt`: `taking`; `specs/Marker.antt` |
//! | what a reader has of it | `specs/Delivery.antt`: `DeliveredWhole` |
//!
//! Of the proofs, `Finding`, `Gathering` and `Found` go from one column's dictionaries to those of
//! a batch, `Storable`, `Framed` and `Rests` from columns to frames, `Adding` and `Closing` make
//! the messages of a batch, `Pieces` says what a sink has of two pieces, `Showing` gives the view
//! of a writer after its calls, and `Delivering` what a reader has of it.
#![tactic(auto)]

mod frame;
pub(crate) mod frames;
pub mod laws;
pub(crate) mod lists;
mod options;
pub(crate) mod parts;
pub(crate) mod sending;
pub(crate) mod settings;
mod stream_writer;
pub(crate) mod updating;

pub use arrow_body_writer::Align;
pub use arrow_dict::Updates;
pub use arrow_sink::WriteFault;
pub use options::Options;
pub use stream_writer::StreamWriter;
