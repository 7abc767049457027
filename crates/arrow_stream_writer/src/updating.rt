//! The frames of a batch's dictionaries.

ghost use Rattle.std.specs.Prelude.{◌≡◌, ◌≤◌, ◌∷◌, [], length};
ghost use Rattle.arrow_stream_writer.specs.Lists.{dictionary_in};
ghost use Rattle.arrow_stream_writer.specs.Updating.{AddsId, AddsOne, AddsPlan};
ghost use Rattle.arrow_stream_writer.specs.Terms.{terms_of};
ghost use Rattle.arrow_stream_writer.specs.Updating.{IsNamed, sending_of, work_of};

use crate::frames::{BatchMessages, DictionaryBatch};
use crate::lists::BatchLists;
use crate::settings::Settings;
use arrow_dict::{Tracker, Update};
use arrow_sink::WriteFault;

/// Builds the frames of a batch's dictionaries.
#[derive(Drop)]
pub(crate) struct Updater<'s, 'l, 'd> {
    pub(crate) settings: &'s Settings,
    pub(crate) lists: &'l BatchLists<'d>,
}

impl<'s, 'l, 'd> Updater<'s, 'l, 'd> {
    /// Puts the frames of the batch's dictionaries into empty batch messages, id by id in the order
    /// of the schema, and stages the dictionaries.
    pub(crate) fn add_all(
        &self,
        tracker: &mut Tracker,
        part: &mut BatchMessages,
    ) -> Result<(), WriteFault>
        requires empty { part.old.bytes.items ≡ [] }
        requires committed { tracker.old.next ≡ tracker.old.sent }
        ensures { AddsPlan (terms_of self.now.settings.now)
            (dictionary_in self.now.lists.now) (work_of part.old.bytes.items tracker.old) result
            (work_of part.new.bytes.items tracker.new) }
    {
        let ids = self.settings.schema.dictionary_ids();
        for k in 0..ids.len() {
            self.add_one(ids[k], tracker, part)?;
        }
        Ok(())
    }

    /// Appends the frame for one id, if there is one to send, and stages the dictionary.
    fn add_one(
        &self,
        id: i64,
        tracker: &mut Tracker,
        part: &mut BatchMessages,
    ) -> Result<(), WriteFault>
        ensures { AddsId (terms_of self.now.settings.now) (dictionary_in self.now.lists.now)
            id (work_of part.old.bytes.items tracker.old) result
            (work_of part.new.bytes.items tracker.new) }
    {
        let Some(dictionary) = self.lists.get(id) else {
            return Ok(());
        };
        match tracker.plan(id, dictionary, self.settings.updates) {
            Update::None => Ok(()),
            Update::New | Update::Replace => {
                let update = DictionaryBatch {
                    id,
                    is_delta: false,
                    from: 0,
                    dictionary,
                };
                self.send(&update, tracker, part)
            }
            Update::Delta(from) => {
                let update = DictionaryBatch {
                    id,
                    is_delta: true,
                    from,
                    dictionary,
                };
                self.send(&update, tracker, part)
            }
        }
    }

    /// Appends the frame of the dictionary batch, and stages its dictionary.
    fn send(
        &self,
        update: &DictionaryBatch,
        tracker: &mut Tracker,
        part: &mut BatchMessages,
    ) -> Result<(), WriteFault>
        requires inside { update.now.from ≤ length update.now.dictionary.now.values }
        ensures { IsNamed self.now.settings.now.schema.value.fields update.now.id
            update.now.dictionary.now.data_type
            → AddsOne (terms_of self.now.settings.now) (sending_of update.now ∷ [])
            (work_of part.old.bytes.items tracker.old) result
            (work_of part.new.bytes.items tracker.new) }
    {
        self.settings.put_update(update, part)?;
        tracker.stage(self.settings.alloc, update.id, update.dictionary)?;
        Ok(())
    }
}
