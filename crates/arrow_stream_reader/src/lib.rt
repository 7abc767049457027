//! Streams of Arrow messages, read from bytes that come in any pieces (Columnar Format, "IPC
//! Streaming Format").
//!
//! This layer takes bytes and gives items: a schema, dictionaries and batches, each once its
//! message is complete, and the end marker. It builds on `arrow_meta_reader`, which determines what
//! a message's metadata mean by themselves, on `arrow_body_reader`, which determines which columns
//! a body holds, and on `arrow_dict`, which keeps the dictionaries. It adds what depends on the
//! stream: the frame around the metadata, the offset of a message, the order of messages, and what
//! was read before.
//!
//! [`StreamReader`] keeps the bytes of one unfinished message and none that it took before. A caller
//! passes pieces to it, or has it read bytes of a long body from an [`Input`] itself. It is
//! specified by a relation over complete lists of bytes: `First` (`specs/Frame.antt`) says what is
//! at the start of a list, one message, the end marker, an error or less than that, and `Front`
//! (`specs/Front.antt`) says the same of all messages, one after the other; the meaning of a
//! batch's body is in `specs/Batch.antt`. `IsReaderAt` (`specs/Stream.antt`) says at which bytes
//! a reader is. So a reader's results depend only on the bytes and not on how they are cut: the
//! functions of [`laws`] say so.
//!
//! | Notion | Definition |
//! |---|---|
//! | one message at the start of bytes | `specs/Frame.antt`: `First`, `judged`, `state_refusal` |
//! | all messages, one after the other | `specs/Front.antt`: `Front`, `Snapshot` |
//! | what metadata mean and announce | `specs/Meaning.antt`: `Means`; `specs/Message.antt`: `Message` |
//! | the meaning of a batch's body | `specs/Batch.antt`: `Loads`, `batch_left`, `dictionary_left` |
//! | the state of a stream, and its items | `specs/State.antt`: `StreamState`, `Given`; `specs/Tables.antt`: `tables_of` |
//! | the view of a reader, the results of its calls | `specs/Stream.antt`: `ReaderView`, `IsReaderAt`, `Answers` |
//! | what a stream is read from, and bytes of a body that are read from it | [`Input`]; `specs/BodyRead.antt`: `ReadsBody` |
//! | the kinds of faults, their numbers and names | `specs/Kind.antt`: `kind_of`, `number_and_name` |
//! | a reader's decoder, and the bytes that it holds | `specs/Decoder.antt`, `specs/Held.antt`, `specs/Views.antt`, `specs/Inside.antt` |
//! | the laws | `specs/Laws.antt`: `OneFront`, `NoneWithoutFront`, `MoreBytes`, `SameSnapshot`, `LessWaits` |
//!
//! Of the proofs, `Firsts` is about one message and `Fronts` about all, `Always` shows that no
//! bytes are without a `Front`, `Meanings` and `Holdings` connect these to the layers below,
//! `States`, `Decoding` and `BodyReading` are about the steps, and `Streams` carries them over to the
//! bytes at which a reader is. `Whole` is for the crates above.
#![tactic(auto)]

mod body;
mod decode_error;
mod decoder;
mod fault;
mod input;
mod item;
mod kind;
pub mod laws;
mod message;
mod metadata;
mod pending_bytes;
mod prefix;
mod reader;
mod refusals;
mod state;
mod stream_schema;

pub use fault::Fault;
pub use input::{BodyReadFault, Input, PIECE, ReadFailed};
pub use item::Item;
pub use kind::Kind;
pub use prefix::CONTINUATION;
pub use reader::StreamReader;
