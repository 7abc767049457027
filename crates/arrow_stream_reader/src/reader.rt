//! The reader of a stream that comes in pieces.

ghost use Rattle.std.specs.Prelude.{◌≡◌, ◌+◌, ◌≤◌, [], length, option_map, Ok, Err, None, IfOk};
ghost use Rattle.std.specs.Prelude.{IfErr, IfSome, OnErr};
ghost use Rattle.std.specs.Io.KnownBytes.{Keeps};
ghost use Rattle.arrow_stream_reader.specs.declared.reader.Verdict.TheVariants.{Open, Done, Bad};
ghost use Rattle.arrow_stream_reader.specs.declared.kind.Rejection.{Rejection as Refused};
ghost use Rattle.arrow_stream_reader.specs.Kind.{kind_of};
ghost use Rattle.arrow_stream_reader.specs.Stream.{FailsFor, GoesOn, ReadsOn, IsReaderAt, TakesPiece};
ghost use Rattle.arrow_stream_reader.specs.Stream.{MemoryAlone, ended_so, fresh};
ghost use Rattle.arrow_stream_reader.specs.BodyRead.{ReadsBody};
ghost use Rattle.arrow_stream_reader.specs.declared.input.BodyReadFault.TheVariants.{Input as Unread};
ghost use Rattle.arrow_stream_reader.specs.declared.input.BodyReadFault.TheVariants.{Memory};

use crate::decode_error::DecodeError;
use crate::decoder::{Decoder, Phase, Step};
use crate::fault::Fault;
use crate::input::{BodyReadFault, Input};
use crate::item::Item;
use crate::kind::{Kind, Rejection};
use crate::pending_bytes::PendingBytes;
use crate::state::State;
use arrow_dict::Store;
use arrow_types::{Limits, Schema};
use std::alloc::Global;
use std::marker::Model;

/// What follows the complete messages, according to the phase of the decoder. It is public only for
/// definitions: no call takes or returns one.
#[derive(Clone, Copy)]
pub enum Verdict {
    /// A message that is not complete, or nothing yet.
    Open,
    /// The end marker.
    Done,
    /// A message that is rejected.
    Bad(Rejection),
}

/// Reads a stream whose bytes come in any pieces (Columnar Format, "IPC Streaming Format").
///
/// The caller passes pieces to [`StreamReader::read`], which returns one item at a time, and calls
/// [`StreamReader::end`] when no more will come. The reader keeps the bytes of one unfinished
/// message, the schema, the current dictionaries and its offset, and nothing else but memory that it
/// uses again: that of the last message's nodes and buffers, and that which a batch shared, if the
/// batch was dropped before the next message. How a stream is cut into pieces changes no result.
///
/// After an error the reader has failed: it takes nothing and returns the same fault, until
/// [`StreamReader::restart`]. After the end marker it takes nothing either. If an allocation
/// failed, nothing has changed and nothing was taken, and the same call may be made again.
#[derive(Drop)]
pub struct StreamReader {
    decoder: Decoder,
}

impl Model for StreamReader {
    ghost use Rattle.arrow_stream_reader.specs.Stream.{ReaderView};
    ghost use Rattle.arrow_stream_reader.specs.Stored.{shows_code};

    ghost Value = { ReaderView };

    ghost coded = { shows_code };

    ghost use Rattle.arrow_stream_reader.specs.Inside.{shows, IsReading};

    ghost view = { shows };

    ghost invariant = { IsReading };
}

impl StreamReader {
    /// A reader that has received nothing, with these limits. It allocates nothing.
    pub fn new(alloc: Global, limits: Limits) -> Self
        ensures fresh { result ≡ fresh limits }
        ensures start { IsReaderAt result [] [] }
    {
        StreamReader {
            decoder: Decoder {
                alloc,
                limits,
                state: State::new(alloc),
                place: 0,
                held: PendingBytes::new(alloc),
                phase: Phase::Prefix,
            },
        }
    }

    /// Takes bytes of a piece up to the end of one message, and returns how many it took, with the
    /// item that the message gave; or takes the whole piece, if no message is complete in it, and
    /// returns no item. The bytes after an item are left for the next call.
    ///
    /// A schema message gives [`Item::Schema`] once its body is complete too, which is not
    /// inspected. A dictionary batch is applied once it is complete, and gives
    /// [`Item::Dictionary`]. A record batch gives [`Item::Batch`], whose columns share one copy of
    /// its body and keep the dictionaries as they are at that message. The end marker gives
    /// [`Item::End`]. After it nothing is taken, and the result is `(0, None)`.
    ///
    /// A fault reports the least kind of those decided, and the offset of the message's first byte.
    /// Kinds 1, 2 and 17 are decided by the first eight bytes of a message, kinds 3 to 13 by its
    /// complete metadata, and kinds 14 to 16 by its complete body: `read` returns each in the call
    /// that brings the last byte that decides it, and none sooner. After such a fault the reader
    /// holds nothing, takes nothing and returns the same fault. After `Memory` it is unchanged and
    /// took nothing.
    ///
    /// An empty piece, a piece after the end marker and a piece after an error allocate nothing.
    pub fn read(&mut self, piece: &[u8]) -> Result<(usize, Option<Item>), Fault>
        ensures takes { IfOk result (λ taken. TakesPiece piece.now taken) }
        ensures reads { ReadsOn self.old piece.now result self.new }
        ensures memory { IfErr result (MemoryAlone self.old self.new) }
        ensures fails { IfErr result (FailsFor self.old self.new) }
        ensures goes_on { IfOk result
            (λ taken. GoesOn taken.1 self.old.at.verdict self.new.at.verdict) }
        ensures limits { self.new.limits ≡ self.old.limits }
        ensures failed { (k : Refused) → self.old.at.verdict ≡ Bad k
            → (result ≡ Err (record { kind = kind_of k; place = self.old.at.place }))
            × (self.new ≡ self.old) }
        ensures done { self.old.at.verdict ≡ Done → (result ≡ Ok (0, None))
            × (self.new ≡ self.old) }
        ensures empty { self.old.at.verdict ≡ Open → piece.now ≡ []
            → (result ≡ Ok (0, None)) × (self.new ≡ self.old) }
    {
        match self.verdict() {
            Verdict::Open if piece.is_empty() => Ok((0, None)),
            Verdict::Open => self.go_on(piece),
            Verdict::Done => Ok((0, None)),
            Verdict::Bad(refusal) => Err(Fault {
                kind: refusal.kind(),
                place: self.decoder.place,
            }),
        }
    }

    /// What follows the complete messages.
    fn verdict(&self) -> Verdict
        ensures same { result ≡ self.now.at.verdict }
    {
        match &self.decoder.phase {
            Phase::Prefix | Phase::Metadata(_) | Phase::Body(_, _) => Verdict::Open,
            Phase::Ended => Verdict::Done,
            Phase::Failed(refusal) => Verdict::Bad(*refusal),
        }
    }

    /// Continues a stream without an error and without an end so far.
    fn go_on(&mut self, piece: &[u8]) -> Result<(usize, Option<Item>), Fault>
        requires open { self.old.at.verdict ≡ Open }
        ensures takes { IfOk result (λ taken. TakesPiece piece.now taken) }
        ensures reads { ReadsOn self.old piece.now result self.new }
        ensures memory { IfErr result (MemoryAlone self.old self.new) }
        ensures fails { IfErr result (FailsFor self.old self.new) }
        ensures goes_on { IfOk result
            (λ taken. GoesOn taken.1 self.old.at.verdict self.new.at.verdict) }
        ensures limits { self.new.limits ≡ self.old.limits }
    {
        let before = self.decoder.held.len();
        let place = self.decoder.place;
        match self.decoder.step(piece) {
            Ok(Step::Short) => Ok((piece.len(), None)),
            Ok(Step::Whole(item)) => {
                let taken = (self.decoder.place - place) as usize - before;
                Ok((taken, Some(item)))
            }
            Ok(Step::EndMarker) => {
                self.decoder.end();
                Ok((8 - before, Some(Item::End)))
            }
            Err(DecodeError::Refused(refusal)) => {
                self.decoder.fail(refusal);
                Err(Fault {
                    kind: refusal.kind(),
                    place,
                })
            }
            Err(DecodeError::Memory) => {
                self.decoder.rewind(before);
                Err(Fault {
                    kind: Kind::Memory,
                    place,
                })
            }
        }
    }

    /// Reads bytes of a long body from an input straight into the memory where they stay, and
    /// returns how many: 0 only at the end of the input, else at most [`PIECE`](crate::PIECE). They
    /// are then taken, as by [`StreamReader::read`], and complete no message.
    ///
    /// This is for a caller that reads an input piece by piece, in place of a read into a buffer and
    /// a call of `read`: it spares the copy of the bytes. `None` if the next bytes are not those of
    /// a body of which more than [`PIECE`](crate::PIECE) bytes are missing: then nothing was read
    /// and nothing has changed. After a fault nothing was taken and nothing has changed either, and
    /// the same call may be made again.
    pub fn read_body<I: Input>(&mut self, input: &mut I) -> Result<Option<usize>, BodyReadFault>
        ensures reads { IfOk result (λ taken. IfSome taken (λ n. ReadsBody self.old
            (I.remaining input.old) (I.remaining input.new) n self.new)) }
        ensures none { result ≡ Ok None → (self.new ≡ self.old) × (input.new ≡ input.old) }
        ensures unchanged { OnErr result ((self.new ≡ self.old)
            × Keeps (I.remaining input.old) (I.remaining input.new)) }
        ensures failed { result ≡ Err Unread → I.has_failed input.new }
        ensures memory { result ≡ Err Memory → input.new ≡ input.old }
        ensures limits { self.new.limits ≡ self.old.limits }
    {
        match self.verdict() {
            Verdict::Open => self.decoder.read_from(input),
            Verdict::Done | Verdict::Bad(_) => Ok(None),
        }
    }

    /// The result of ending the stream here, with the offset of the current message. It changes
    /// nothing, and allocates nothing.
    ///
    /// After an error it is that fault. Else, after the end marker, `Ok`. Else `NoSchema` if no
    /// schema message was complete, `Truncated` if bytes of an unfinished message are held, and
    /// `Ok` at the end of a message.
    pub fn end(&self) -> Result<(), Fault>
        ensures ended { result ≡ ended_so self.now.at }
    {
        let kind = match self.verdict() {
            Verdict::Bad(refusal) => refusal.kind(),
            Verdict::Done => return Ok(()),
            Verdict::Open if self.decoder.state.schema.is_none() => Kind::NoSchema,
            Verdict::Open if self.decoder.held.len() == 0 => return Ok(()),
            Verdict::Open => Kind::Truncated,
        };
        Err(Fault {
            kind,
            place: self.place(),
        })
    }

    /// Begins a new stream, with the same limits: nothing of the old one is left. It allocates
    /// nothing.
    pub fn restart(&mut self)
        ensures fresh { self.new ≡ fresh self.old.limits }
        ensures start { IsReaderAt self.new [] [] }
    {
        self.decoder.restart();
    }

    /// The number of bytes held of an unfinished message: those taken since the last complete
    /// message, 0 after an error or the end marker. It is never more than 8, the most bytes of
    /// metadata and the most bytes of a body together, and grows with the bytes received, whatever
    /// a message declares.
    pub fn held(&self) -> u64
        ensures held { result ≡ length self.now.at.rest }
        ensures closed { (self.now.at.verdict ≡ Open → ⊥) → result ≡ 0 }
        ensures bound { result ≤ 8 + self.now.limits.max_metadata + self.now.limits.max_body }
    {
        self.decoder.held.len() as u64
    }

    /// The offset of the first byte of the current message, in bytes from 0 at the beginning of the
    /// stream. After an error it is that of the message that was rejected, and after the end marker
    /// the one past it.
    pub fn place(&self) -> u64
        ensures place { result ≡ self.now.at.place }
    {
        self.decoder.place
    }

    /// The stream's schema, `None` before its message was complete. It allocates nothing.
    pub fn schema(&self) -> Option<&Schema>
        ensures schema { option_map (λ s. s.now) result ≡ self.now.at.state.schema }
    {
        match &self.decoder.state.schema {
            Some(schema) => Some(schema.shared()),
            None => None,
        }
    }

    /// The stream's dictionaries after the complete messages. It allocates nothing.
    pub fn dictionaries(&self) -> &Store
        ensures dictionaries { result.now ≡ self.now.at.state.dictionaries }
    {
        &self.decoder.state.dictionaries
    }
}
