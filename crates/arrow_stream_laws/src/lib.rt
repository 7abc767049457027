//! What a writer sends on a connection, as definitions with their laws (Columnar Format, "IPC
//! Streaming Format"). There is no writer here: a writer is specified by these definitions, and the
//! laws about them connect it to a reader.
//!
//! The bytes of a connection are a list of parts: the frame of the schema, for each accepted batch
//! the frames of the dictionary batches that it needs and of its record batch, and, if the
//! connection is finished, the end marker. `Written` (`specs/Text.antt`) is the relation between
//! the parts, the batches and the frames; the choice of a dictionary batch is that of `arrow_dict`
//! (`specs/Plan.antt`); `admission` (`specs/Admission.antt`) is the first fault of a batch, a
//! `WriteFault`; `IsFrameOf` (`specs/Frames.antt`) and `IsBuilt` (`specs/Built.antt`) state when
//! bytes are a frame and a body. Both are described by what a reader has of them and fixed to the
//! one byte sequence that a function gives, so that all bytes that are sent are a function of the
//! schema, the options and what the batches hold (`specs/Sent.antt`); how many they are follows
//! from sizes alone (`specs/Sizes.antt`).
//!
//! The visible state of a writer, what each of its calls may return and which parts and batches it
//! has then sent are defined in `specs/Writer.antt`, with its `Status`.
//!
//! [`laws`] states what holds of all this for all arguments: what is sent is a stream, and a reader
//! has of its first bytes the rows of the batches that came completely.
//!
//! | Notion | Definition |
//! |---|---|
//! | a frame, a stream of frames | `specs/Frames.antt`: `IsFrameOf`, `IsStream` |
//! | the bytes of a connection | `specs/Text.antt`: `Written`, `IsPart`, `whole_batches` |
//! | all bytes that are sent, as a function | `specs/Sent.antt`: `sent_of`, `OneText` |
//! | the dictionary batches before a batch | `specs/Plan.antt`: `plan` |
//! | the first fault of a batch, of a schema | `specs/Admission.antt`: `admission`, `schema_admission` |
//! | a body of raw values | `specs/Built.antt`: `IsBuilt` |
//! | sizes | `specs/Sizes.antt`: `header_size` .. |
//! | the rows of a batch | `specs/Rows.antt`: `rows_of`, `has_one_list` |
//! | the visible state of a writer, what its calls return | `specs/Writer.antt`: `WriterView`, `Starts`, `Writes`, `Finishes` |
//! | the laws | `specs/Laws.antt`: `TextIsAStream`, `DeliveredBeginning` ..; `specs/Snapshot.antt` |
//!
//! Of the proofs, `Chains` and `Starts` are about frames one after another, `Columns` and `Lists`
//! about the dictionaries that a reader has at a batch, `Parts` and `Texts` about parts as complete
//! messages, `Lyings` and `Deliveries` about first bytes, `Writers` about the state of a writer;
//! `Examples` has the definitions at values.
#![tactic(auto)]

pub mod laws;
