//! What the messages of a stream leave to those after them.

ghost use Rattle.std.specs.Prelude.{◌≡◌, ◌≤ℤ◌, pos, [], false, Some, None, is_some, option_map};
ghost use Rattle.std.specs.Prelude.{length, IsTrue};
ghost use Rattle.arrow_types.specs.Schema.{dictionary_fields, has_encoding};
ghost use Rattle.arrow_types.specs.Field.{TypeShape};
ghost use Rattle.arrow_types.specs.View.{fields_view};
ghost use Rattle.arrow_data.specs.Listed.{listed};
ghost use Rattle.arrow_dict.specs.ValueTypes.{value_field, value_type_of};
ghost use Rattle.arrow_meta_reader.specs.Means.{batch_view, dictionary, batch};
ghost use Rattle.arrow_stream_reader.specs.State.{fields_in, nothing_yet};
ghost use Rattle.arrow_stream_reader.specs.Views.{Applies, Gives, HeldValues, IsFit, Ready, Updates};
ghost use Rattle.arrow_stream_reader.specs.Views.{content_of, plain};

use crate::body::{Body, BodySchema, load_columns, row_count};
use crate::decode_error::DecodeError;
use crate::item::Item;
use crate::kind::Rejection;
use crate::message::{DictionaryUpdate, MessageBody};
use crate::stream_schema::StreamSchema;
use arrow_data::{Array, Batch, Dictionary};
use arrow_dict::{Store, ValueField};
use arrow_meta_reader::RecordBatch;
use arrow_types::Field;
use std::alloc::Global;

/// The state after the complete messages.
#[derive(Drop)]
pub(crate) struct State {
    /// The stream's schema, once its message was complete.
    pub(crate) schema: Option<StreamSchema>,
    /// The current dictionaries.
    pub(crate) dictionaries: Store,
    /// The nodes and buffers of the last batch. Their memory is used for those of the next one.
    pub(crate) last: RecordBatch,
}

impl State {
    /// The state at the beginning of a stream.
    pub(crate) fn new(alloc: Global) -> State
        ensures nothing { plain result ≡ nothing_yet }
        ensures fit { IsFit (plain result) }
    {
        State {
            schema: None,
            dictionaries: Store::new(alloc),
            last: RecordBatch::new(alloc),
        }
    }

    /// The fields of the stream's batches, none before its schema.
    pub(crate) fn fields(&self) -> &[Field]
        ensures same { fields_view result.now ≡ fields_in (plain self.now).schema }
    {
        match &self.schema {
            Some(schema) => schema.shared().fields(),
            None => &[],
        }
    }

    /// The field of the values of the dictionary with this id, if a field of the schema gives the
    /// id.
    pub(crate) fn value_field(&self, id: i64) -> Option<&ValueField>
        ensures field { option_map (λ f. f.now) result
            ≡ option_map value_field
            (value_type_of (dictionary_fields (fields_in (plain self.now).schema)) id) }
        ensures flat { (t : TypeShape)
            → value_type_of (dictionary_fields (fields_in (plain self.now).schema)) id ≡ Some t
            → has_encoding t.children ≡ false }
    {
        match &self.schema {
            Some(schema) => schema.value_field(id),
            None => None,
        }
    }

    /// The number of values of the dictionary with this id, if there is one.
    pub(crate) fn base_len(&self, id: i64) -> Option<usize>
        ensures count { result
            ≡ option_map (λ d. length d.values) (listed (plain self.now).dictionaries id) }
    {
        match self.dictionaries.get(id) {
            Some(dictionary) => Some(dictionary.len()),
            None => None,
        }
    }

    /// Begins a new stream.
    pub(crate) fn clear(&mut self)
        ensures nothing { plain self.new ≡ nothing_yet }
        ensures fit { IsFit (plain self.new) }
    {
        self.schema = None;
        self.dictionaries.clear();
    }

    /// Begins a stream of this schema.
    fn begin(&mut self, schema: StreamSchema)
        ensures begun { plain self.new ≡ record { schema = Some schema; dictionaries = [] } }
        ensures fit { IsFit (plain self.new) }
    {
        self.clear();
        self.schema = Some(schema);
    }

    /// The rows of a record batch with this body.
    fn batch(
        &self,
        alloc: Global,
        record_batch: &RecordBatch,
        body: &Body,
    ) -> Result<Batch, DecodeError>
        requires ready { Ready (plain self.now) (batch (batch_view record_batch.now)) }
        requires fit { IsFit (plain self.now) }
        ensures gives { Gives (plain self.now) (batch_view record_batch.now) body.now result }
    {
        let schema = self.schema.as_ref().ok_or(Rejection::Order)?;
        let types = schema.types();
        let schema = schema.shared();
        let dictionaries = self.dictionaries.entries();
        let body_schema = BodySchema {
            fields: schema.fields(),
            types,
            dictionaries,
        };
        let arrays = load_columns(alloc, &body_schema, record_batch, body)?;
        let schema = schema.clone()?;
        Ok(Batch::new_unchecked(schema, arrays, row_count(record_batch)))
    }

    /// The values of a dictionary batch with this body.
    fn values(
        &self,
        alloc: Global,
        dictionary_batch: &DictionaryUpdate,
        body: &Body,
    ) -> Result<Array, DecodeError>
        requires sign { pos 0 ≤ℤ dictionary_batch.now.record_batch.now.length }
        requires named { IsTrue (is_some (value_type_of
            (dictionary_fields (fields_in (plain self.now).schema)) dictionary_batch.now.id)) }
        ensures values { HeldValues (plain self.now) dictionary_batch.now.id
            (batch_view dictionary_batch.now.record_batch.now) body.now result }
    {
        let field = self
            .value_field(dictionary_batch.id)
            .ok_or(Rejection::UnknownId)?;
        let body_schema = BodySchema {
            fields: field.fields(),
            types: field.types(),
            dictionaries: &[],
        };
        let mut arrays = load_columns(alloc, &body_schema, dictionary_batch.record_batch, body)?;
        Ok(arrays.swap_remove(0))
    }

    /// Takes the values of a dictionary batch with this body: they replace those of its id, or
    /// follow them.
    fn update(
        &mut self,
        alloc: Global,
        dictionary_batch: &DictionaryUpdate,
        body: &Body,
    ) -> Result<(), DecodeError>
        requires ready { Ready (plain self.old) (dictionary dictionary_batch.now.id
            dictionary_batch.now.is_delta (batch_view dictionary_batch.now.record_batch.now)) }
        requires fit { IsFit (plain self.old) }
        ensures updates { Updates (plain self.old) dictionary_batch.now.id dictionary_batch.now.is_delta
            (batch_view dictionary_batch.now.record_batch.now) body.now result (plain self.new) }
        ensures fit { IsFit (plain self.new) }
    {
        let values = self.values(alloc, dictionary_batch, body)?;
        let id = dictionary_batch.id;
        let is_delta = dictionary_batch.is_delta;
        if is_delta {
            self.dictionaries.append(alloc, id, values)?;
            return Ok(());
        }
        let dictionary = Dictionary::from_array(alloc, values)?;
        self.dictionaries.replace(id, dictionary)?;
        Ok(())
    }
}

/// Applies a message whose body is complete, and returns the item that it gives. If the body is
/// rejected or an allocation fails, nothing has changed and the message is returned.
pub(crate) fn handle_message(
    state: &mut State,
    alloc: Global,
    content: MessageBody,
    body: &Body,
) -> Result<Item, (DecodeError, MessageBody)>
    requires ready { Ready (plain state.old) (content_of content) }
    requires fit { IsFit (plain state.old) }
    ensures applies { Applies (plain state.old) (content_of content) body.now result
        (plain state.new) }
    ensures fit { IsFit (plain state.new) }
{
    match content {
        MessageBody::Schema(schema) => {
            state.begin(schema);
            Ok(Item::Schema)
        }
        MessageBody::Dictionary(id, is_delta, record_batch) => {
            let dictionary_batch = DictionaryUpdate {
                id,
                is_delta,
                record_batch: &record_batch,
            };
            match state.update(alloc, &dictionary_batch, body) {
                Ok(()) => {
                    state.last = record_batch;
                    Ok(Item::Dictionary(id))
                }
                Err(stop) => Err((stop, MessageBody::Dictionary(id, is_delta, record_batch))),
            }
        }
        MessageBody::Batch(record_batch) => handle_batch(state, alloc, record_batch, body),
    }
}

/// Applies a record batch whose body is complete. The nodes and buffers stay in the state, or are
/// returned.
fn handle_batch(
    state: &mut State,
    alloc: Global,
    record_batch: RecordBatch,
    body: &Body,
) -> Result<Item, (DecodeError, MessageBody)>
    requires ready { Ready (plain state.old) (batch (batch_view record_batch)) }
    requires fit { IsFit (plain state.old) }
    ensures applies { Applies (plain state.old) (batch (batch_view record_batch)) body.now
        result (plain state.new) }
    ensures fit { IsFit (plain state.new) }
{
    match state.batch(alloc, &record_batch, body) {
        Ok(rows) => {
            state.last = record_batch;
            Ok(Item::Batch(rows))
        }
        Err(stop) => Err((stop, MessageBody::Batch(record_batch))),
    }
}
