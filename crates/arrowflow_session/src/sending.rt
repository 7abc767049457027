//! The writing half of a session.

ghost use Rattle.std.specs.Prelude.{◌≡◌, ◌<◌, ◌-◌, ◌^◌, [], ◌∷◌, ◌+◌, ◌++◌, drop, length};
ghost use Rattle.std.specs.Prelude.{IfOk, MatchResult, OnOk, Some};
ghost use Rattle.arrow_stream_laws.specs.Writer.{Starts};
ghost use Rattle.arrowflow_session.specs.Asked.{asked_of};
ghost use Rattle.arrow_stream_writer.specs.Shown.{options_view};
ghost use Rattle.arrowflow_session.specs.Report.{items_of};
ghost use Rattle.arrowflow_session.specs.Running.{Finished, IsNothing, IsOver, IsSent, SoFar, Tries};
ghost use Rattle.arrowflow_session.specs.Running.{StartsNot, sent_plain, shown_kept};

use crate::connection::Connection;
use crate::memory_sink::MemorySink;
use crate::refusal::Refusal;
use arrow_data::{Batch, Dictionary};
use arrow_sink::WriteFault;
use arrow_stream_writer::{Options, StreamWriter};
use arrow_types::{Limits, Schema};
use arrowflow_input::RefusedItem;
use std::alloc::{AllocError, Global};

/// What was sent over a connection.
#[derive(Drop)]
pub(crate) struct Sent {
    /// The parts, one after another.
    pub(crate) parts: Vec<Vec<u8>>,
    /// What the writer rejected.
    pub(crate) refused: Vec<Refusal>,
    /// The dictionaries that the writer sent last, by ascending id.
    pub(crate) dictionaries: Vec<(i64, Dictionary)>,
    /// The bytes of all parts.
    pub(crate) bytes: Vec<u8>,
}

/// All that is sent over one connection.
pub(crate) fn send_all(
    alloc: Global,
    connection: &Connection,
    limits: Limits,
) -> Result<Sent, AllocError>
    ensures { IfOk result (λ s. IsSent limits (asked_of connection.now) (sent_plain s)) }
{
    match start(alloc, &connection.schema, connection.options, limits) {
        Ok(writer) => send_on(alloc, writer, connection, limits),
        Err(WriteFault::TooLarge) => nothing_sent(alloc),
        Err(
            WriteFault::SchemaDiffers
            | WriteFault::DictionariesDiffer
            | WriteFault::Sink
            | WriteFault::Broken
            | WriteFault::Finished
            | WriteFault::Memory,
        ) => Err(AllocError),
    }
}

/// A writer into memory, which has written the schema's frame.
fn start(
    alloc: Global,
    schema: &Schema,
    options: Options,
    limits: Limits,
) -> Result<StreamWriter<MemorySink>, WriteFault>
    ensures { MatchResult result
        (λ w. Starts limits (options_view options) schema.now (Some []) 0 (shown_kept w))
        (λ k. StartsNot limits (options_view options) schema.now k) }
{
    match StreamWriter::start(alloc, MemorySink::new(alloc), schema, options, limits) {
        Ok(writer) => Ok(writer),
        Err((fault, _)) => Err(fault),
    }
}

/// All bytes that were written so far.
fn bytes_of(writer: &StreamWriter<MemorySink>) -> &[u8]
    ensures { Some result.now ≡ (shown_kept writer.now).contents }
{
    writer.sink().bytes()
}

/// All that is sent by a writer that was started.
fn send_on(
    alloc: Global,
    mut writer: StreamWriter<MemorySink>,
    connection: &Connection,
    limits: Limits,
) -> Result<Sent, AllocError>
    requires { Starts limits (options_view connection.now.options) connection.now.schema (Some []) 0
        (shown_kept writer) }
    ensures { IfOk result (λ s. IsSent limits (asked_of connection.now) (sent_plain s)) }
{
    let mut parts = Vec::new(alloc);
    let mut refused = Vec::new(alloc);
    parts.push(part_from(alloc, bytes_of(&writer), 0)?)?;
    write_all(&mut writer, &mut parts, &mut refused, &connection.batches)?;
    if connection.finish {
        finish(&mut writer, &mut parts, &mut refused)?;
    }
    sent_of(alloc, &writer, parts, refused)
}

/// Writes all batches, and keeps the messages of those that are accepted, a part for each, and the
/// rejections of the others.
fn write_all(
    writer: &mut StreamWriter<MemorySink>,
    parts: &mut Vec<Vec<u8>>,
    refused: &mut Vec<Refusal>,
    batches: &[Batch],
) -> Result<(), AllocError>
    requires start { SoFar (shown_kept writer.old) batches.now 0 (items_of parts.old.items)
        refused.old.items }
    ensures end { OnOk result (SoFar (shown_kept writer.new) batches.now (length batches.now)
        (items_of parts.new.items) refused.new.items) }
    ensures same { OnOk result (IsOver (shown_kept writer.old) (shown_kept writer.new)) }
{
    for (number, batch) in batches.iter().enumerate() {
        write_one(writer, parts, refused, (number, batch))?;
    }
    Ok(())
}

/// Writes one batch, given with its number, and keeps its messages as a part, or its rejection.
fn write_one(
    writer: &mut StreamWriter<MemorySink>,
    parts: &mut Vec<Vec<u8>>,
    refused: &mut Vec<Refusal>,
    numbered: (usize, &Batch),
) -> Result<(), AllocError>
    requires { (shown_kept writer.old).failures ≡ 0 }
    ensures { OnOk result (Tries (shown_kept writer.old) numbered.entry.1.now numbered.entry.0
        (items_of parts.old.items) refused.old.items (shown_kept writer.new)
        (items_of parts.new.items) refused.new.items) }
{
    let (number, batch) = numbered;
    let before = bytes_of(writer).len();
    match writer.write(batch) {
        Ok(()) => {
            let part = part_from(*parts.allocator(), bytes_of(writer), before)?;
            Ok(parts.push(part)?)
        }
        Err(
            kind @ (WriteFault::SchemaDiffers
            | WriteFault::TooLarge
            | WriteFault::DictionariesDiffer),
        ) => {
            let what = RefusedItem::Batch(number);
            Ok(refused.push(Refusal { what, kind })?)
        }
        Err(WriteFault::Sink | WriteFault::Broken | WriteFault::Finished | WriteFault::Memory) =>
            Err(AllocError),
    }
}

/// Writes the end marker, and keeps it as a part, or its rejection.
fn finish(
    writer: &mut StreamWriter<MemorySink>,
    parts: &mut Vec<Vec<u8>>,
    refused: &mut Vec<Refusal>,
) -> Result<(), AllocError>
    requires { (shown_kept writer.old).failures ≡ 0 }
    ensures { OnOk result (Finished (shown_kept writer.old) (items_of parts.old.items)
        refused.old.items (shown_kept writer.new) (items_of parts.new.items) refused.new.items) }
{
    let before = bytes_of(writer).len();
    match writer.finish() {
        Ok(()) => {
            let part = part_from(*parts.allocator(), bytes_of(writer), before)?;
            Ok(parts.push(part)?)
        }
        Err(kind @ WriteFault::TooLarge) => {
            let what = RefusedItem::Finish;
            Ok(refused.push(Refusal { what, kind })?)
        }
        Err(
            WriteFault::SchemaDiffers
            | WriteFault::DictionariesDiffer
            | WriteFault::Sink
            | WriteFault::Broken
            | WriteFault::Finished
            | WriteFault::Memory,
        ) => Err(AllocError),
    }
}

/// The bytes from offset `from` on.
fn part_from(alloc: Global, bytes: &[u8], from: usize) -> Result<Vec<u8>, AllocError>
    requires { from < length bytes.now + 1 }
    ensures { IfOk result (λ v. v.items ≡ drop from bytes.now) }
{
    Vec::from_slice(alloc, &bytes[from..])
}

/// What a writer has sent at the end.
fn sent_of(
    alloc: Global,
    writer: &StreamWriter<MemorySink>,
    parts: Vec<Vec<u8>>,
    refused: Vec<Refusal>,
) -> Result<Sent, AllocError>
    ensures { IfOk result (λ s. (s.parts ≡ parts) × (s.refused ≡ refused)
        × (s.dictionaries.items ≡ (shown_kept writer.now).sent)
        × (Some s.bytes.items ≡ (shown_kept writer.now).contents)) }
{
    let dictionaries = copies(alloc, writer.sent().entries())?;
    let bytes = Vec::from_slice(alloc, bytes_of(writer))?;
    Ok(Sent {
        parts,
        refused,
        dictionaries,
        bytes,
    })
}

/// The ids with copies of their dictionaries.
pub(crate) fn copies(
    alloc: Global,
    entries: &[(i64, Dictionary)],
) -> Result<Vec<(i64, Dictionary)>, AllocError>
    ensures { IfOk result (λ v. v.items ≡ entries.now) }
{
    let mut copies = Vec::with_capacity(alloc, entries.len())?;
    for (id, dictionary) in entries {
        copies.push((*id, dictionary.copy(alloc)?))?;
    }
    Ok(copies)
}

/// The result if the schema is rejected: nothing was sent.
fn nothing_sent(alloc: Global) -> Result<Sent, AllocError>
    ensures { IfOk result IsNothing }
{
    let mut refused = Vec::new(alloc);
    refused.push(Refusal {
        what: RefusedItem::Start,
        kind: WriteFault::TooLarge,
    })?;
    Ok(Sent {
        parts: Vec::new(alloc),
        refused,
        dictionaries: Vec::new(alloc),
        bytes: Vec::new(alloc),
    })
}
