//! A decoder of messages, one at a time, from bytes that come in pieces.

ghost use Rattle.std.specs.Prelude.{◌≡◌, ◌+◌, ◌^◌, ◌<◌, ◌≤◌, [], ◌++◌, length, Ok, Err};
ghost use Rattle.std.specs.Prelude.{IfOk, IfSome, None, OnErr};
ghost use Rattle.std.specs.Io.KnownBytes.{Keeps};
ghost use Rattle.arrow_stream_reader.specs.declared.prefix.Prefix.TheVariants as prefixes;
ghost use Rattle.arrow_stream_reader.specs.Frame.{HasPrefix, HasMetadata};
ghost use Rattle.arrow_stream_reader.specs.State.{nothing_yet};
ghost use Rattle.arrow_stream_reader.specs.Views.{IsFit, plain, message_of};
ghost use Rattle.arrow_stream_reader.specs.declared.decoder.Phase.TheVariants as phases;
ghost use Rattle.arrow_stream_reader.specs.Decoder.{Finishes, HasRead, IsAt, Unchanged, Works};
ghost use Rattle.arrow_stream_reader.specs.Decoder.{Rewound};
ghost use Rattle.arrow_stream_reader.specs.declared.input.BodyReadFault.TheVariants.{Input as Unread};
ghost use Rattle.arrow_stream_reader.specs.declared.input.BodyReadFault.TheVariants.{Memory};

use crate::body::Body;
use crate::decode_error::DecodeError;
use crate::input::{BodyReadFault, Input, PIECE};
use crate::item::Item;
use crate::kind::Rejection;
use crate::message::Message;
use crate::metadata::{Position, read_message};
use crate::pending_bytes::PendingBytes;
use crate::prefix::{Prefix, read_prefix};
use crate::state::{State, handle_message};
use arrow_meta_reader::RecordBatch;
use arrow_types::Limits;
use std::alloc::Global;
use std::mem;

/// Where a stream has come to: how far its current message has come, or what ended the stream.
#[derive(Drop)]
pub(crate) enum Phase {
    /// Its first eight bytes are not complete.
    Prefix,
    /// Its metadata, of this size, are not complete.
    Metadata(u64),
    /// Its metadata have this size and announce this message, whose body is not complete.
    Body(u64, Message),
    /// The end marker was complete.
    Ended,
    /// The current message is rejected.
    Failed(Rejection),
}

/// The result of a piece.
#[derive(Drop)]
pub(crate) enum Step {
    /// Less than a complete message.
    Short,
    /// The end marker.
    EndMarker,
    /// A complete message.
    Whole(Item),
}

/// The current message, and the state after the messages before it.
#[derive(Drop)]
pub(crate) struct Decoder {
    pub(crate) alloc: Global,
    pub(crate) limits: Limits,
    pub(crate) state: State,
    /// The offset at which the current message begins.
    pub(crate) place: u64,
    /// The bytes of the current message.
    pub(crate) held: PendingBytes,
    pub(crate) phase: Phase,
}

impl Decoder {
    /// Continues with a piece, up to the end of one message.
    pub(crate) fn step(&mut self, piece: &[u8]) -> Result<Step, DecodeError>
        requires at { IsAt self.old }
        ensures works { Works self.old (self.old.held.items ++ piece.now) result self.new }
    {
        match mem::replace(&mut self.phase, Phase::Prefix) {
            Phase::Metadata(size) => self.read_metadata(size, piece),
            Phase::Body(size, message) => self.read_body(size, message, piece),
            Phase::Prefix | Phase::Ended | Phase::Failed(_) => self.read_prefix(piece),
        }
    }

    /// Continues when nothing is known of the message.
    fn read_prefix(&mut self, piece: &[u8]) -> Result<Step, DecodeError>
        requires within { length self.old.held.items ≤ 8 }
        requires near { self.old.place ≤ 2 ^ 62 }
        requires fit { IsFit (plain self.old.state) }
        ensures works { Works self.old (self.old.held.items ++ piece.now) result self.new }
    {
        self.phase = Phase::Prefix;
        if self.held.len() == 0 && piece.len() >= 8 {
            return self.read_in_place(piece);
        }
        let taken = self.held.fill(piece, 8)?;
        if self.held.len() < 8 {
            return Ok(Step::Short);
        }
        let has_schema = self.state.schema.is_some();
        match read_prefix(&self.limits, has_schema, self.place, self.held.as_slice())? {
            Prefix::Metadata(size) => self.read_metadata(size, &piece[taken..]),
            Prefix::EndMarker => Ok(Step::EndMarker),
        }
    }

    /// Reads a message that begins with the piece, of which the piece has the first eight bytes at
    /// least. Only what is cut off by its end is held.
    fn read_in_place(&mut self, piece: &[u8]) -> Result<Step, DecodeError>
        requires whole { 8 ≤ length piece.now }
        requires none { self.old.held.items ≡ [] }
        requires open { self.old.phase ≡ phases.Prefix }
        requires near { self.old.place ≤ 2 ^ 62 }
        requires fit { IsFit (plain self.old.state) }
        ensures works { Works self.old piece.now result self.new }
    {
        let (prefix, rest) = piece.split_at(8);
        let has_schema = self.state.schema.is_some();
        match read_prefix(&self.limits, has_schema, self.place, prefix)? {
            Prefix::Metadata(size) if size as usize <= rest.len() => {
                self.read_frame_in_place(size, piece)
            }
            Prefix::Metadata(size) => {
                self.held.fill(prefix, 8)?;
                self.read_metadata(size, rest)
            }
            Prefix::EndMarker => Ok(Step::EndMarker),
        }
    }

    /// The same for a piece that has all metadata of the message, which have this size.
    fn read_frame_in_place(&mut self, size: u64, piece: &[u8]) -> Result<Step, DecodeError>
        requires known { HasPrefix self.old.limits (plain self.old.state) self.old.place
            piece.now (Ok (prefixes.Metadata size)) }
        requires whole { 8 + size ≤ length piece.now }
        requires none { self.old.held.items ≡ [] }
        requires open { self.old.phase ≡ phases.Prefix }
        requires fit { IsFit (plain self.old.state) }
        ensures works { Works self.old piece.now result self.new }
    {
        let (head, rest) = piece.split_at(8 + size as usize);
        let memory = mem::replace(&mut self.state.last, RecordBatch::new(self.alloc));
        let start = Position {
            limits: &self.limits,
            state: &self.state,
            place: self.place + 8,
        };
        let message = read_message(self.alloc, &start, &head[8..], memory)?;
        let body_len = message.body_len as usize;
        if body_len > rest.len() {
            self.held.fill(head, head.len())?;
            return self.read_body(size, message, rest);
        }
        let body = Body::lent(&rest[..body_len]);
        match handle_message(&mut self.state, self.alloc, message.content, &body) {
            Ok(item) => {
                self.place += (head.len() + body_len) as u64;
                Ok(Step::Whole(item))
            }
            Err((stop, _)) => Err(stop),
        }
    }

    /// Continues when the size of the metadata is known.
    fn read_metadata(&mut self, size: u64, piece: &[u8]) -> Result<Step, DecodeError>
        requires known { HasPrefix self.old.limits (plain self.old.state) self.old.place
            self.old.held.items (Ok (prefixes.Metadata size)) }
        requires within { length self.old.held.items ≤ 8 + size }
        requires fit { IsFit (plain self.old.state) }
        ensures works { Works self.old (self.old.held.items ++ piece.now) result self.new }
    {
        self.phase = Phase::Metadata(size);
        let whole = 8 + size as usize;
        let taken = self.held.fill(piece, whole)?;
        if self.held.len() < whole {
            return Ok(Step::Short);
        }
        let memory = mem::replace(&mut self.state.last, RecordBatch::new(self.alloc));
        let start = Position {
            limits: &self.limits,
            state: &self.state,
            place: self.place + 8,
        };
        let metadata = &self.held.as_slice()[8..];
        let message = read_message(self.alloc, &start, metadata, memory)?;
        self.read_body(size, message, &piece[taken..])
    }

    /// Continues when the metadata are known.
    fn read_body(&mut self, size: u64, message: Message, piece: &[u8]) -> Result<Step, DecodeError>
        requires known { HasMetadata self.old.limits (plain self.old.state) self.old.place
            self.old.held.items size (Ok (message_of message)) }
        requires within { length self.old.held.items ≤ 8 + size + message.body_len }
        requires ceiling { self.old.limits.max_rows ≤ 2147483647 }
        requires fit { IsFit (plain self.old.state) }
        ensures works { Works self.old (self.old.held.items ++ piece.now) result self.new }
    {
        let start = 8 + size as usize;
        let whole = start + message.body_len as usize;
        let Ok(_) = self.held.fill(piece, whole) else {
            self.phase = Phase::Body(size, message);
            return Err(DecodeError::Memory);
        };
        if self.held.len() < whole {
            self.phase = Phase::Body(size, message);
            return Ok(Step::Short);
        }
        let Ok(()) = self.held.make_shared(start) else {
            self.phase = Phase::Body(size, message);
            return Err(DecodeError::Memory);
        };
        self.decode_held(size, message)
    }

    /// Applies a message that consists of the bytes held.
    fn decode_held(&mut self, size: u64, message: Message) -> Result<Step, DecodeError>
        requires known { HasMetadata self.old.limits (plain self.old.state) self.old.place
            self.old.held.items size (Ok (message_of message)) }
        requires whole { length self.old.held.items ≡ 8 + size + message.body_len }
        requires ceiling { self.old.limits.max_rows ≤ 2147483647 }
        requires fit { IsFit (plain self.old.state) }
        ensures finishes { Finishes self.old size (message_of message) result self.new }
    {
        let body_len = message.body_len;
        let body = self.held.body(8 + size as usize);
        match handle_message(&mut self.state, self.alloc, message.content, &body) {
            Ok(item) => {
                self.place += self.held.len() as u64;
                self.held.clear();
                self.phase = Phase::Prefix;
                Ok(Step::Whole(item))
            }
            Err((stop, content)) => {
                self.phase = Phase::Body(size, Message { content, body_len });
                Err(stop)
            }
        }
    }

    /// Reads bytes of the body from an input, with one read, straight into the memory where they
    /// stay, if more of them are missing than one read asks for; then it returns how many it read.
    pub(crate) fn read_from<I: Input>(
        &mut self,
        input: &mut I,
    ) -> Result<Option<usize>, BodyReadFault>
        requires at { IsAt self.old }
        ensures read { IfOk result (λ taken. IfSome taken (λ n. HasRead self.old
            (I.remaining input.old) (I.remaining input.new) n self.new)) }
        ensures none { result ≡ Ok None → Unchanged self.old self.new × (input.new ≡ input.old) }
        ensures unchanged { OnErr result (Unchanged self.old self.new
            × Keeps (I.remaining input.old) (I.remaining input.new)) }
        ensures failed { result ≡ Err Unread → I.has_failed input.new }
        ensures memory { result ≡ Err Memory → input.new ≡ input.old }
    {
        let Phase::Body(size, message) = &self.phase else {
            return Ok(None);
        };
        let whole = 8 + *size as usize + message.body_len as usize;
        if whole - self.held.len() <= PIECE {
            return Ok(None);
        }
        self.held.fill_from(input, whole - 1)
    }

    /// Goes back to the first `count` of the bytes held.
    pub(crate) fn rewind(&mut self, count: usize)
        requires at { IsAt self.old }
        requires within { count ≤ length self.old.held.items }
        ensures rewound { Rewound self.old count self.new }
    {
        self.held.truncate(count);
        if count < 8 {
            self.phase = Phase::Prefix;
            return;
        }
        if let Phase::Body(size, _) = &self.phase {
            let size = *size;
            if count < 8 + size as usize {
                self.phase = Phase::Metadata(size);
            }
        }
    }

    /// Moves past the end marker, whose first bytes are those held.
    pub(crate) fn end(&mut self)
        requires near { self.old.place + 8 ≤ 2 ^ 62 }
        ensures limits { self.new.limits ≡ self.old.limits }
        ensures state { plain self.new.state ≡ plain self.old.state }
        ensures place { self.new.place ≡ self.old.place + 8 }
        ensures held { self.new.held.items ≡ [] }
        ensures phase { self.new.phase ≡ phases.Ended }
    {
        self.place += 8;
        self.held.clear();
        self.phase = Phase::Ended;
    }

    /// Drops the held bytes of a message that is rejected with this kind.
    pub(crate) fn fail(&mut self, refusal: Rejection)
        ensures limits { self.new.limits ≡ self.old.limits }
        ensures state { plain self.new.state ≡ plain self.old.state }
        ensures place { self.new.place ≡ self.old.place }
        ensures held { self.new.held.items ≡ [] }
        ensures phase { self.new.phase ≡ phases.Failed refusal }
    {
        self.held.clear();
        self.phase = Phase::Failed(refusal);
    }

    /// Begins a new stream.
    pub(crate) fn restart(&mut self)
        ensures at { IsAt self.new }
        ensures limits { self.new.limits ≡ self.old.limits }
        ensures state { plain self.new.state ≡ nothing_yet }
        ensures place { self.new.place ≡ 0 }
        ensures held { self.new.held.items ≡ [] }
        ensures phase { self.new.phase ≡ phases.Prefix }
    {
        self.state.clear();
        self.place = 0;
        self.held.clear();
        self.phase = Phase::Prefix;
    }
}
