//! The messages of a batch, built completely before a byte of them is sent.

ghost use Rattle.std.specs.Prelude.{◌≡◌, ◌≤◌, ◌^◌, [], IfOk, OnErr};
ghost use Rattle.arrow_body_writer.specs.Align.{alignment_of};
ghost use Rattle.arrow_meta_reader.specs.Means.{schema};
ghost use Rattle.arrow_types.specs.Schema.{IsNoted};
ghost use Rattle.arrow_stream_writer.specs.Framing.{PutsMessage, part_bytes};
ghost use Rattle.arrow_stream_writer.specs.Parts.{BuildsOrDrops, BuildsPart, PutsUpdates};
ghost use Rattle.arrow_stream_writer.specs.Terms.{terms_of};
ghost use Rattle.arrow_stream_writer.specs.Updating.{work_of};

use crate::frames::BatchMessages;
use crate::lists::{BatchLists, ListsFault};
use crate::options::Options;
use crate::settings::Settings;
use crate::updating::Updater;
use arrow_body_writer::Body;
use arrow_data::Batch;
use arrow_dict::Tracker;
use arrow_meta_reader::{Header, Message, MetadataVersion};
use arrow_sink::WriteFault;
use arrow_types::{Limits, Schema};
use std::alloc::{AllocError, Global};
use std::rc::Rc;

/// Builds the messages of the batches of a connection, one batch after another.
#[derive(Drop)]
pub(crate) struct PartBuilder {
    /// The settings that it builds by.
    pub(crate) settings: Settings,
    /// The dictionaries that were sent, and those in the batch messages in work.
    pub(crate) tracker: Tracker,
    /// The batch messages that were built last.
    pub(crate) part: BatchMessages,
}

impl PartBuilder {
    /// A builder for a connection with a copy of this schema, before the first batch.
    pub(crate) fn new(
        alloc: Global,
        schema: &Schema,
        options: Options,
        limits: Limits,
    ) -> Result<PartBuilder, AllocError>
        ensures settings { IfOk result (λ b. terms_of b.settings ≡ record {
          limits = limits;
          align = alignment_of options.align;
          shape = schema.now;
          updates = options.updates;
        }) }
        ensures nothing_sent { IfOk result (λ b. b.tracker ≡ record { sent = []; next = [] }) }
    {
        let copy = schema.copy(alloc)?;
        let schema = Rc::new(alloc, copy)?;
        Ok(PartBuilder {
            settings: Settings {
                alloc,
                limits,
                schema,
                updates: options.updates,
                align: options.align,
            },
            tracker: Tracker::new(alloc),
            part: BatchMessages {
                bytes: Vec::new(alloc),
                body: Body::new(alloc),
                room: Vec::new(alloc),
            },
        })
    }

    /// Replaces the batch messages built last by the frame of the schema.
    pub(crate) fn put_schema(&mut self) -> Result<(), WriteFault>
        ensures settings { self.new.settings ≡ self.old.settings }
        ensures tracker { self.new.tracker ≡ self.old.tracker }
        ensures known { IsNoted self.old.settings.schema.value }
        ensures ceiling { self.old.settings.limits.max_metadata ≤ 2 ^ 30 }
        ensures put { PutsMessage (terms_of self.old.settings)
            (schema self.old.settings.schema.value) [] [] result self.new.part.bytes.items }
    {
        // This gives the proof what is known of every schema, and of all limits.
        let _ = self.settings.limits.max_metadata();
        let _ = self.settings.schema.metadata();
        self.part.bytes.clear();
        let message = Message {
            version: MetadataVersion::V5,
            header: Header::Schema(self.settings.schema.copy(self.settings.alloc)?),
            body_len: 0,
        };
        self.settings
            .put_head(&message, &mut self.part.bytes, &mut self.part.room)
    }

    /// Builds the messages of the batch, which are to begin at this offset, and stages its
    /// dictionaries. After a fault nothing is staged.
    pub(crate) fn build(&mut self, place: u64, batch: &Batch) -> Result<(), WriteFault>
        requires near { place ≤ 2 ^ 62 }
        requires committed { self.old.tracker.next ≡ self.old.tracker.sent }
        ensures settings { terms_of self.new.settings ≡ terms_of self.old.settings }
        ensures unchanged { OnErr result (self.new.settings ≡ self.old.settings) }
        ensures built { BuildsOrDrops (terms_of self.old.settings) place batch.now
            self.old.tracker.sent result (part_bytes self.new.part) self.new.tracker }
    {
        match self.put_frames(place, batch) {
            Ok(()) => Ok(()),
            Err(fault) => {
                self.tracker.discard();
                Err(fault)
            }
        }
    }

    /// Replaces the batch messages built last by the frames of this batch. After a fault some
    /// dictionaries may be staged.
    fn put_frames(&mut self, place: u64, batch: &Batch) -> Result<(), WriteFault>
        requires near { place ≤ 2 ^ 62 }
        requires committed { self.old.tracker.next ≡ self.old.tracker.sent }
        ensures settings { terms_of self.new.settings ≡ terms_of self.old.settings }
        ensures unchanged { OnErr result (self.new.settings ≡ self.old.settings) }
        ensures built { BuildsPart (terms_of self.old.settings) place batch.now
            self.old.tracker.sent result (part_bytes self.new.part) self.new.tracker }
    {
        self.part.bytes.clear();
        let same = *batch.schema() == *self.settings.schema;
        if !same {
            return Err(WriteFault::SchemaDiffers);
        }
        put_updates(&self.settings, batch, &mut self.tracker, &mut self.part)?;
        self.settings.put_record(batch, &mut self.part)?;
        if self.part.len() as u64 > Limits::LAST_PLACE - place {
            return Err(WriteFault::TooLarge);
        }
        self.settings.share_schema(batch);
        Ok(())
    }
}

/// Puts the frames of the batch's dictionaries into empty batch messages, and stages the
/// dictionaries.
fn put_updates(
    settings: &Settings,
    batch: &Batch,
    tracker: &mut Tracker,
    part: &mut BatchMessages,
) -> Result<(), WriteFault>
    requires schema { batch.now.schema ≡ settings.now.schema.value }
    requires empty { part.old.bytes.items ≡ [] }
    requires committed { tracker.old.next ≡ tracker.old.sent }
    ensures { PutsUpdates (terms_of settings.now) batch.now
        (work_of part.old.bytes.items tracker.old) result
        (work_of part.new.bytes.items tracker.new) }
{
    match BatchLists::of(settings.alloc, batch) {
        Ok(lists) => {
            let updater = Updater {
                settings,
                lists: &lists,
            };
            updater.add_all(tracker, part)
        }
        Err(ListsFault::DictionariesDiffer) => Err(WriteFault::DictionariesDiffer),
        Err(ListsFault::Memory) => Err(WriteFault::Memory),
    }
}
