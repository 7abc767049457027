//! The held bytes of the current message.

ghost use Rattle.std.specs.Prelude.{◌≡◌, ◌≤◌, ◌<◌, ◌+◌, ◌^◌, [], length, take, drop};
ghost use Rattle.std.specs.Prelude.{IfOk, IfSome, OnErr, OnOk, Ok, Err, None};
ghost use Rattle.arrow_stream_reader.specs.Decoder.{Filled};
ghost use Rattle.arrow_stream_reader.specs.BodyRead.{ReadsInto};
ghost use Rattle.std.specs.Io.KnownBytes.{Keeps};
ghost use Rattle.arrow_stream_reader.specs.declared.input.BodyReadFault.TheVariants.{Input as Unread};
ghost use Rattle.arrow_stream_reader.specs.declared.input.BodyReadFault.TheVariants.{Memory};

use crate::body::Body;
use crate::input::{BodyReadFault, Input, PIECE};
use bytes::{Bytes, BytesMut};
use std::alloc::{AllocError, AllocFailed, Global};
use std::marker::Model;
use std::mem;

/// The number of bytes from which on a body is shared instead of copied: columns of a shorter body
/// have their own copy. Copying a short body costs less than the memory that every owner of the
/// message keeps alive.
const SHARED: usize = 65_536;

/// The bytes of the current message. Contracts see them as `items`.
#[derive(Drop)]
pub(crate) struct PendingBytes {
    alloc: Global,
    storage: Storage,
    /// The largest capacity, in bytes, of memory that was shared.
    room: usize,
    /// The memory that was shared last: it is filled again once no column uses it any more.
    recycled: Option<Bytes>,
}

/// Where bytes are held.
#[derive(Drop)]
pub(crate) enum Storage {
    /// In memory that can take more of them.
    Growing(BytesMut),
    /// In memory that columns may share.
    Whole(Bytes),
}

impl Model for PendingBytes {
    ghost use Rattle.arrow_stream_reader.specs.Held.{HeldBytes, bytes_in};

    ghost Value = { HeldBytes };

    ghost view = { λ h. record { items = bytes_in h.storage } };
}

impl PendingBytes {
    /// No bytes. It allocates nothing.
    pub(crate) fn new(alloc: Global) -> PendingBytes
        ensures none { result.items ≡ [] }
    {
        PendingBytes {
            alloc,
            storage: Storage::Growing(BytesMut::new(alloc)),
            room: 0,
            recycled: None,
        }
    }

    /// The number of bytes held.
    pub(crate) fn len(&self) -> usize
        ensures count { result ≡ length self.now.items }
        ensures bound { result < 2 ^ 63 }
    {
        match &self.storage {
            Storage::Growing(bytes) => bytes.len(),
            Storage::Whole(bytes) => bytes.len(),
        }
    }

    /// The bytes.
    pub(crate) fn as_slice(&self) -> &[u8]
        ensures same { result.now ≡ self.now.items }
    {
        match &self.storage {
            Storage::Growing(bytes) => bytes.as_slice(),
            Storage::Whole(bytes) => bytes.as_slice(),
        }
    }

    /// Takes bytes of a piece until `target` bytes are held or the piece ends, and returns how many
    /// it took. After `AllocError` nothing has changed.
    ///
    /// The first bytes go into memory that was shared, if no column uses it any more. Shared bytes,
    /// which are there only after an allocation failed, are copied first.
    pub(crate) fn fill(&mut self, piece: &[u8], target: usize) -> Result<usize, AllocError>
        requires room { length self.old.items ≤ target }
        ensures filled { IfOk result
            (λ n. Filled self.old.items piece.now target n self.new.items) }
        ensures unchanged { OnErr result (self.new.items ≡ self.old.items) }
    {
        match &mut self.storage {
            Storage::Growing(bytes) => {
                take_back(bytes, &mut self.recycled);
                append(bytes, piece, target, self.room)
            }
            Storage::Whole(bytes) => {
                let mut copy = BytesMut::copy_from_slice(self.alloc, bytes.as_slice())?;
                let taken = append(&mut copy, piece, target, self.room)?;
                self.storage = Storage::Growing(copy);
                Ok(taken)
            }
        }
    }

    /// Reads bytes from an input until `target` bytes are held at most, with one read of
    /// [`PIECE`] bytes at most, straight into the memory where they stay, and returns how many
    /// they are. After an error nothing has changed. Shared bytes are left as they are: then it
    /// reads nothing.
    pub(crate) fn fill_from<I: Input>(
        &mut self,
        input: &mut I,
        target: usize,
    ) -> Result<Option<usize>, BodyReadFault>
        requires room { length self.old.items < target }
        ensures read { IfOk result (λ taken. IfSome taken (λ n. ReadsInto self.old.items target
            (I.remaining input.old) (I.remaining input.new) n self.new.items)) }
        ensures none { result ≡ Ok None → (self.new ≡ self.old) × (input.new ≡ input.old) }
        ensures unchanged { OnErr result ((self.new.items ≡ self.old.items)
            × Keeps (I.remaining input.old) (I.remaining input.new)) }
        ensures failed { result ≡ Err Unread → I.has_failed input.new }
        ensures memory { result ≡ Err Memory → input.new ≡ input.old }
    {
        match &mut self.storage {
            Storage::Growing(bytes) => { Ok(Some(read_into(bytes, input, target, self.room)?)) }
            Storage::Whole(_) => Ok(None),
        }
    }

    /// Lets columns share the body that begins at `start`, if it is long enough and at least half
    /// of the capacity of its memory. After `AllocError` nothing has changed.
    pub(crate) fn make_shared(&mut self, start: usize) -> Result<(), AllocError>
        requires within { start ≤ length self.old.items }
        ensures same { self.new.items ≡ self.old.items }
    {
        let Storage::Growing(bytes) = &mut self.storage else {
            return Ok(());
        };
        let body_len = bytes.len() - start;
        let room = bytes.capacity();
        if body_len < SHARED || body_len < room / 2 {
            return Ok(());
        }
        match mem::replace(bytes, BytesMut::new(self.alloc)).freeze() {
            Ok(message) => {
                self.storage = Storage::Whole(message);
                self.room = room.max(self.room);
                Ok(())
            }
            Err(AllocFailed { value }) => {
                self.storage = Storage::Growing(value);
                Err(AllocError)
            }
        }
    }

    /// The body that begins at `start` of the bytes held.
    pub(crate) fn body(&self, start: usize) -> Body<'_>
        requires within { start ≤ length self.now.items }
        ensures body { result ≡ drop start self.now.items }
    {
        match &self.storage {
            Storage::Growing(bytes) => Body::lent(&bytes[start..]),
            Storage::Whole(message) => Body::shared(message, start),
        }
    }

    /// Keeps the first bytes, at most `count`.
    pub(crate) fn truncate(&mut self, count: usize)
        ensures items { self.new.items ≡ take count self.old.items }
    {
        match &mut self.storage {
            Storage::Growing(bytes) => bytes.truncate(count),
            Storage::Whole(bytes) => bytes.truncate(count),
        }
    }

    /// Keeps no bytes. It allocates nothing.
    pub(crate) fn clear(&mut self)
        ensures items { self.new.items ≡ [] }
    {
        match &mut self.storage {
            Storage::Growing(bytes) => bytes.clear(),
            Storage::Whole(_) => self.part_with_shared(),
        }
    }

    /// Keeps no bytes, and sets aside the memory that columns may share.
    fn part_with_shared(&mut self)
        ensures items { self.new.items ≡ [] }
    {
        let none = Storage::Growing(BytesMut::new(self.alloc));
        if let Storage::Whole(message) = mem::replace(&mut self.storage, none) {
            self.recycled = Some(message);
        }
    }
}

/// If there are no bytes, gives them the memory of a message that was shared, provided no column
/// uses it any more.
fn take_back(bytes: &mut BytesMut, shared: &mut Option<Bytes>)
    ensures same { bytes.new.items ≡ bytes.old.items }
{
    if !bytes.is_empty() {
        return;
    }
    if let Some(mut room) = shared.take().and_then(Bytes::reclaim) {
        room.clear();
        *bytes = room;
    }
}

/// Takes bytes of a piece until there are `target` of them or the piece ends, and returns how many it
/// took. After `AllocError` nothing has changed.
fn append(
    bytes: &mut BytesMut,
    piece: &[u8],
    target: usize,
    room: usize,
) -> Result<usize, AllocError>
    requires room { length bytes.old.items ≤ target }
    ensures filled { IfOk result (λ n. Filled bytes.old.items piece.now target n bytes.new.items) }
    ensures unchanged { OnErr result (bytes.new.items ≡ bytes.old.items) }
{
    let count = piece.len().min(target - bytes.len());
    grow(bytes, count, target, room)?;
    bytes.extend_from_slice(&piece[..count])?;
    Ok(count)
}

/// Reads bytes from an input, with one read, into the memory after those that are there.
fn read_into<I: Input>(
    bytes: &mut BytesMut,
    input: &mut I,
    target: usize,
    room: usize,
) -> Result<usize, BodyReadFault>
    requires room { length bytes.old.items < target }
    ensures read { IfOk result (λ n. ReadsInto bytes.old.items target
        (I.remaining input.old) (I.remaining input.new) n bytes.new.items) }
    ensures unchanged { OnErr result ((bytes.new.items ≡ bytes.old.items)
        × Keeps (I.remaining input.old) (I.remaining input.new)) }
    ensures failed { result ≡ Err Unread → I.has_failed input.new }
    ensures memory { result ≡ Err Memory → input.new ≡ input.old }
{
    let start = bytes.len();
    let wanted = PIECE.min(target - start);
    grow(bytes, wanted, target, room)?;
    bytes.advance_mut(wanted);
    match input.read_piece(&mut bytes.as_mut_slice()[start..]) {
        Ok(count) => {
            bytes.truncate(start + count);
            Ok(count)
        }
        Err(_) => {
            bytes.truncate(start);
            Err(BodyReadFault::Input)
        }
    }
}

/// Makes room for `count` more bytes.
///
/// If there is none, the room grows to twice its size, or to `room` bytes, but to no more than
/// `target` asks for: so it grows with the bytes received, and a message that is shared fills its
/// memory.
fn grow(bytes: &mut BytesMut, count: usize, target: usize, room: usize) -> Result<(), AllocError>
    requires some { length bytes.old.items + count ≤ target }
    ensures same { bytes.new.items ≡ bytes.old.items }
    ensures spare { OnOk result (count ≤ bytes.new.spare) }
{
    if count <= bytes.capacity() - bytes.len() {
        return Ok(());
    }
    let more = bytes.capacity().max(room).min(target - bytes.len());
    bytes.reserve(more.max(count))
}
