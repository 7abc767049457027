//! The dictionaries that a writer sent.

ghost use Rattle.std.specs.Prelude.{◌≡◌, OnErr, OnOk, Some, [], option_map};
ghost use Rattle.arrow_data.specs.Column.{ValueList};
ghost use Rattle.arrow_data.specs.Listed.{listed};
ghost use Rattle.arrow_dict.specs.Choice.{choice};
ghost use Rattle.arrow_dict.specs.Dictionaries.{IsRising, placed};

use crate::entries::{find, place};
use crate::update::{Update, Updates};
use arrow_data::Dictionary;
use std::alloc::{AllocError, Global};
use std::marker::Model;

/// The dictionaries that were sent on a connection, and those that are staged, which are about to
/// be sent: at most one of each for an id, by rising id. They share their values with the
/// dictionaries that they were copied from.
#[derive(Drop)]
pub struct Tracker {
    sent: Vec<(i64, Dictionary)>,
    staged: Vec<(i64, Dictionary)>,
}

impl Model for Tracker {
    ghost use Rattle.arrow_dict.specs.Tracking.{IsTracker, Tracked, tracked_by, tracked_code};

    ghost Value = { Tracked };

    ghost coded = { tracked_code };

    ghost view = { tracked_by };

    ghost invariant = { IsTracker };
}

impl Tracker {
    /// The tracker of a connection on which no dictionary was sent. Allocates nothing.
    pub fn new(alloc: Global) -> Tracker
        ensures { result ≡ record { sent = []; next = [] } }
    {
        Tracker {
            sent: Vec::new(alloc),
            staged: Vec::new(alloc),
        }
    }

    /// The dictionary that was sent last for the id, None if none was. It is found by binary
    /// search.
    pub fn sent(&self, id: i64) -> Option<&Dictionary>
        ensures { option_map (λ d. d.now) result ≡ listed self.now.sent id }
    {
        find(&self.sent, id)
    }

    /// The ids and the dictionaries that were sent last for them, by rising id.
    pub fn entries(&self) -> &[(i64, Dictionary)]
        ensures all { result.now ≡ self.now.sent }
        ensures rising { IsRising self.now.sent }
    {
        &self.sent
    }

    /// What is to be sent so that the id has this dictionary. Staged ones do not count. Values are
    /// compared one by one, run by run of those that lie in one segment of both; none is copied,
    /// and nothing is allocated.
    pub fn plan(&self, id: i64, dictionary: &Dictionary, updates: Updates) -> Update
        ensures { result ≡ choice updates
            (option_map (λ (d : ValueList). d.values) (listed self.now.sent id))
            dictionary.now.values }
    {
        match self.sent(id) {
            Some(old) => compared(old, dictionary, updates),
            None => Update::New,
        }
    }

    /// Stages a copy of the dictionary for the id, and replaces one that was staged before.
    /// Capacity is reserved for it among the sent ones too. If an allocation fails, nothing
    /// changes.
    pub fn stage(
        &mut self,
        alloc: Global,
        id: i64,
        dictionary: &Dictionary,
    ) -> Result<(), AllocError>
        ensures sent { self.new.sent ≡ self.old.sent }
        ensures ok { OnOk result (self.new.next ≡ placed id dictionary.now self.old.next) }
        ensures err { OnErr result (self.new.next ≡ self.old.next) }
    {
        let copy = dictionary.copy(alloc)?;
        self.sent.reserve(self.staged.len() + 1)?;
        place(&mut self.staged, id, copy)
    }

    /// Makes the staged dictionaries the sent ones. Allocates nothing, since `stage` reserved the
    /// capacity.
    pub fn commit(&mut self)
        ensures sent { self.new.sent ≡ self.old.next }
        ensures next { self.new.next ≡ self.old.next }
    {
        while let Some((id, dictionary)) = self.staged.pop() {
            place(&mut self.sent, id, dictionary).unwrap();
        }
    }

    /// Drops the staged dictionaries. Allocates nothing.
    pub fn discard(&mut self)
        ensures sent { self.new.sent ≡ self.old.sent }
        ensures next { self.new.next ≡ self.old.sent }
    {
        self.staged.clear();
    }
}

/// What is sent if another dictionary was sent.
fn compared(old: &Dictionary, new: &Dictionary, updates: Updates) -> Update
    ensures { result ≡ choice updates (Some old.now.values) new.now.values }
{
    if !old.begins(new) {
        return Update::Replace;
    }
    if old.len() == new.len() {
        return Update::None;
    }
    match updates {
        Updates::Delta => Update::Delta(old.len()),
        Updates::Resend => Update::Replace,
    }
}
