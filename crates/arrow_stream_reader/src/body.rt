//! The body of a message, and the columns that it holds.

ghost use Rattle.std.specs.Prelude.{◌≡◌, ◌≤◌, ◌≤ℤ◌, ◌↔◌, pos, length, drop, IfOk, IsTrue, MatchResult, Ok};
ghost use Rattle.std.specs.List.{AllByRecursion};
ghost use Rattle.arrow_data.specs.Column.{counts_of};
ghost use Rattle.arrow_layout.specs.Shared.{node_types};
ghost use Rattle.arrow_types.specs.View.{fields_view};
ghost use Rattle.arrow_body_reader.specs.Held.{count_of};
ghost use Rattle.arrow_body_reader.specs.Sound.{AreFit, Explains, IsSound, columns_of};
ghost use Rattle.arrow_meta_reader.specs.Means.{batch_view};
ghost use Rattle.arrow_stream_reader.specs.Batch.{Loads};
ghost use Rattle.arrow_stream_reader.specs.Views.{HasNoColumns};

use crate::decode_error::DecodeError;
use crate::kind::Rejection;
use arrow_body_reader::{BodyFault, check, check_row_count, load_typed};
use arrow_data::{Array, Dictionary};
use arrow_layout::{SharedBody, SharedType};
use arrow_meta_reader::RecordBatch;
use arrow_types::Field;
use bytes::Bytes;
use std::alloc::{AllocError, Global};
use std::marker::Model;

/// The body of a message. Contracts see its bytes.
#[derive(Drop)]
pub(crate) struct Body<'a> {
    source: BodyBytes<'a>,
}

/// Where the bytes of a body lie.
#[derive(Drop)]
pub(crate) enum BodyBytes<'a> {
    /// In borrowed memory: columns have a copy.
    Lent(&'a [u8]),
    /// In the memory of the complete message, from this offset on: columns share it.
    Shared(&'a Bytes, usize),
}

impl<'a> Model for Body<'a> {
    ghost use Rattle.std.specs.Prelude.{ℕ, List};

    ghost Value = { List ℕ };

    ghost use Rattle.arrow_stream_reader.specs.Held.{IsInside, body_bytes};

    ghost view = { λ b. body_bytes b.source };

    ghost invariant = { λ b. IsInside b.source };
}

impl<'a> Body<'a> {
    /// Bytes that columns copy.
    pub(crate) fn lent(bytes: &'a [u8]) -> Body<'a>
        ensures same { result ≡ bytes.now }
    {
        Body {
            source: BodyBytes::Lent(bytes),
        }
    }

    /// The bytes of a message from `start` on, which columns share.
    pub(crate) fn shared(message: &'a Bytes, start: usize) -> Body<'a>
        requires within { start ≤ length message.now }
        ensures same { result ≡ drop start message.now }
    {
        Body {
            source: BodyBytes::Shared(message, start),
        }
    }

    /// The bytes.
    pub(crate) fn as_slice(&self) -> &[u8]
        ensures same { result.now ≡ self.now }
    {
        match &self.source {
            BodyBytes::Lent(bytes) => bytes,
            BodyBytes::Shared(message, start) => &message.as_slice()[*start..],
        }
    }

    /// The bytes for columns: a copy of borrowed bytes, or the shared ones.
    fn own(&self, alloc: Global) -> Result<SharedBody, AllocError>
        ensures same { IfOk result (λ b. b ≡ self.now) }
    {
        let bytes = match &self.source {
            BodyBytes::Lent(bytes) => Bytes::copy_from_slice(alloc, bytes)?,
            BodyBytes::Shared(message, start) => message.slice(*start..)?,
        };
        SharedBody::new(alloc, bytes)
    }
}

/// The schema of a body's columns: their fields with the types of the nodes, and the dictionaries
/// in which indices are looked up.
#[derive(Clone, Copy)]
pub(crate) struct BodySchema<'a> {
    pub(crate) fields: &'a [Field],
    pub(crate) types: &'a [SharedType],
    pub(crate) dictionaries: &'a [(i64, Dictionary)],
}

/// The number of rows of a batch whose length is not negative.
pub(crate) fn row_count(record_batch: &RecordBatch) -> usize
    requires sign { pos 0 ≤ℤ record_batch.now.length }
    ensures count { result ≡ count_of record_batch.now.length }
{
    record_batch.length as usize
}

/// The columns of the fields that a body holds, or the first of Layout, Text and Index that applies
/// to any of them. They share one body: a copy of it if it is borrowed, else the body itself. They
/// also share the types of the nodes.
///
/// The record batch is what the metadata say of the body: the number of its rows, its nodes and its
/// buffers.
pub(crate) fn load_columns(
    alloc: Global,
    schema: &BodySchema,
    record_batch: &RecordBatch,
    body: &Body,
) -> Result<Vec<Array>, DecodeError>
    requires sign { pos 0 ≤ℤ record_batch.now.length }
    requires typed { schema.now.types.now ≡ node_types (fields_view schema.now.fields.now) }
    requires fit { AreFit schema.now.dictionaries.now (fields_view schema.now.fields.now) }
    ensures held { MatchResult result
        (λ columns. Loads body.now schema.now.dictionaries.now (fields_view schema.now.fields.now)
        (batch_view record_batch.now) (Ok columns.items))
        (λ stop. HasNoColumns body.now schema.now.dictionaries.now (fields_view schema.now.fields.now)
        (batch_view record_batch.now) stop) }
{
    let (rows, nodes) = (row_count(record_batch), record_batch.nodes.as_slice());
    match columns_in(alloc, schema, record_batch, body) {
        Ok(columns) if have_rows(&columns, rows) => Ok(columns),
        Err(fault) if check_row_count(schema.fields, nodes, rows) => Err(fault.into()),
        _ => Err(DecodeError::Refused(Rejection::Layout)),
    }
}

/// Whether each column has this many rows.
fn have_rows(columns: &[Array], rows: usize) -> bool
    ensures { IsTrue result ↔ AllByRecursion (λ n. n ≡ rows) (counts_of columns.now) }
{
    for column in columns {
        if column.len() != rows {
            return false;
        }
    }
    true
}

/// The columns, whatever the number of rows is; if the allocation for the copy of the body fails, a
/// fault of the body is still reported first.
fn columns_in(
    alloc: Global,
    schema: &BodySchema,
    record_batch: &RecordBatch,
    body: &Body,
) -> Result<Vec<Array>, BodyFault>
    requires typed { schema.now.types.now ≡ node_types (fields_view schema.now.fields.now) }
    requires fit { AreFit schema.now.dictionaries.now (fields_view schema.now.fields.now) }
    ensures { MatchResult result
        (λ columns. IsSound body.now schema.now.dictionaries.now (fields_view schema.now.fields.now)
        (batch_view record_batch.now).nodes (batch_view record_batch.now).buffers
        × (columns.items ≡ columns_of body.now schema.now.dictionaries.now
        (fields_view schema.now.fields.now) (batch_view record_batch.now).nodes
        (batch_view record_batch.now).buffers))
        (λ fault. Explains fault body.now schema.now.dictionaries.now (fields_view schema.now.fields.now)
        (batch_view record_batch.now).nodes (batch_view record_batch.now).buffers) }
{
    match body.own(alloc) {
        Ok(owned) => load_typed(
            alloc,
            schema.fields,
            schema.types,
            &record_batch.nodes,
            &record_batch.buffers,
            &owned,
            schema.dictionaries,
        ),
        Err(_) => {
            let bytes = body.as_slice();
            check(
                schema.fields,
                &record_batch.nodes,
                &record_batch.buffers,
                bytes,
                schema.dictionaries,
            )?;
            Err(BodyFault::Memory)
        }
    }
}
