//! Dictionaries by their ids.

ghost use Rattle.std.specs.Prelude.{◌≡◌, IsTrue, None, OnErr, OnOk, Some, [], is_ok};
ghost use Rattle.std.specs.Prelude.{is_some, option_map};
ghost use Rattle.arrow_data.specs.Column.{ValueList};
ghost use Rattle.arrow_data.specs.Listed.{listed};
ghost use Rattle.arrow_dict.specs.Appends.{Appends, number_of};
ghost use Rattle.arrow_dict.specs.Dictionaries.{IsRising, placed};

use crate::entries::{find, place, place_of};
use arrow_data::{Array, Dictionary};
use std::alloc::{AllocError, Global};
use std::error::Error;
use std::fmt;
use std::marker::Model;

/// Why values are not appended, in the order of the faults' numbers.
#[derive(Clone, Copy, Debug, PartialEq, Eq)]
pub enum StoreFault {
    /// There is no dictionary of the id.
    NoBase,
    /// The dictionary would have more values than `Store::MAX_VALUES`.
    TooLong,
    /// An allocation failed. None of the other faults applies.
    Memory,
}

impl StoreFault {
    /// The fault's number, from 1.
    pub fn number(self) -> u8
        ensures { result ≡ number_of self }
    {
        match self {
            StoreFault::NoBase => 1,
            StoreFault::TooLong => 2,
            StoreFault::Memory => 3,
        }
    }
}

impl fmt::Display for StoreFault {
    ghost use Rattle.std.specs.Prelude.{Some};
    ghost use Rattle.arrow_dict.specs.Appends.{words_of};

    ghost output = { λ f. Some (words_of f) };

    fn fmt<W: fmt::Write>(&self, f: &mut fmt::Formatter<W>) -> fmt::Result {
        match self {
            StoreFault::NoBase => f.write_str("no dictionary to append to"),
            StoreFault::TooLong => f.write_str("more than 2,147,483,647 values in a dictionary"),
            StoreFault::Memory => f.write_str("out of memory"),
        }
    }
}

impl Error for StoreFault {}

/// The current dictionaries of a stream, at most one for each id, by rising id.
#[derive(Drop)]
pub struct Store {
    entries: Vec<(i64, Dictionary)>,
}

impl Model for Store {
    ghost use Rattle.std.specs.Prelude.{ℤ, List};
    ghost use Rattle.arrow_data.specs.Column.{ValueList};
    ghost use Rattle.arrow_dict.specs.Dictionaries.{IsRising, entries_code};

    ghost Value = { List (ℤ × ValueList) };

    ghost coded = { entries_code };

    ghost view = { λ s. s.entries.items };

    ghost invariant = { λ s. IsRising s.entries.items };
}

impl Store {
    /// The greatest number of values of a dictionary: as many as a signed 32-bit number counts.
    pub const MAX_VALUES: usize = 2_147_483_647;

    /// The store without dictionaries. Allocates nothing.
    pub fn new(alloc: Global) -> Store
        ensures { result ≡ [] }
    {
        Store {
            entries: Vec::new(alloc),
        }
    }

    /// The dictionary of the id, None if there is none. It is found by binary search.
    pub fn get(&self, id: i64) -> Option<&Dictionary>
        ensures { option_map (λ d. d.now) result ≡ listed self.now id }
    {
        find(&self.entries, id)
    }

    /// The ids and their dictionaries, by rising id.
    pub fn entries(&self) -> &[(i64, Dictionary)]
        ensures all { result.now ≡ self.now }
        ensures rising { IsRising self.now }
    {
        &self.entries
    }

    /// Takes the dictionary for the id, and replaces the one that was there. It may allocate only
    /// if there was none; if the allocation fails, nothing changes.
    pub fn replace(&mut self, id: i64, dictionary: Dictionary) -> Result<(), AllocError>
        ensures ok { OnOk result (self.new ≡ placed id dictionary self.old) }
        ensures err { OnErr result (self.new ≡ self.old) }
        ensures there { IsTrue (is_some (listed self.old id)) → IsTrue (is_ok result) }
    {
        place(&mut self.entries, id, dictionary)
    }

    /// Appends the values of the array to those of the id's dictionary; none of these is copied
    /// (Columnar Format, "Dictionary Messages", on delta dictionaries). After a fault nothing has
    /// changed.
    pub fn append(&mut self, alloc: Global, id: i64, values: Array) -> Result<(), StoreFault>
        requires typed { (d : ValueList)
            → listed self.old id ≡ Some d → values.data_type ≡ d.data_type }
        requires plain { (d : ValueList) → listed self.old id ≡ Some d → values.encoding ≡ None }
        ensures { Appends self.old id values result self.new }
    {
        let Ok(at) = place_of(&self.entries, id) else {
            return Err(StoreFault::NoBase);
        };
        let dictionary = &mut self.entries[at].1;
        if dictionary.len().saturating_add(values.len()) > Store::MAX_VALUES {
            return Err(StoreFault::TooLong);
        }
        match dictionary.append(alloc, values) {
            Ok(()) => Ok(()),
            Err(_) => Err(StoreFault::Memory),
        }
    }

    /// Drops all dictionaries, as when a stream is restarted. Allocates nothing.
    pub fn clear(&mut self)
        ensures { self.new ≡ [] }
    {
        self.entries.clear();
    }
}
