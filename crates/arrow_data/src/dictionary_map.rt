//! Dictionaries by their ids (Columnar Format, "Dictionary Messages").

ghost use Rattle.std.specs.Prelude.{◌≡◌, ◌↔◌, IfOk, IsTrue, int_lt, option_map};
ghost use Rattle.arrow_data.specs.Listed.{Rises, dictionary_for, listed};

use crate::array::Dictionary;
use arrow_types::Encoding;
use std::alloc::{AllocError, Global};

/// Dictionaries with their ids; the first one that is listed for an id counts.
#[derive(Clone, Copy)]
pub struct DictionaryMap<'a> {
    /// The dictionaries, in any order.
    pub entries: &'a [(i64, Dictionary)],
    /// Whether no id is below an earlier one.
    rising: bool,
    ghost order: { IsTrue rising → Rises entries.now },
}

impl<'a> DictionaryMap<'a> {
    /// Reads each id once.
    pub fn new(entries: &'a [(i64, Dictionary)]) -> DictionaryMap<'a>
        ensures { result.entries.now ≡ entries.now }
    {
        DictionaryMap {
            entries,
            rising: is_rising(entries),
        }
    }

    /// The dictionary that is listed first for the id: found by binary search if the ids rise,
    /// otherwise by linear search.
    pub fn find(self, id: i64) -> Option<&'a Dictionary>
        ensures { option_map (λ d. d.now) result ≡ listed self.entry.entries.now id }
    {
        if self.rising {
            find_rising(self.entries, id)
        } else {
            find_any(self.entries, id)
        }
    }

    /// A copy, which shares the values, of the dictionary that is listed for a field with this
    /// encoding. None if the field has no encoding, or none is listed. `AllocError` if an
    /// allocation failed.
    pub fn copy_for(
        self,
        alloc: Global,
        encoding: Option<Encoding>,
    ) -> Result<Option<Dictionary>, AllocError>
        ensures { IfOk result (λ d. d ≡ dictionary_for self.entry.entries.now encoding) }
    {
        let Some(encoding) = encoding else {
            return Ok(None);
        };
        match self.find(encoding.id) {
            Some(dictionary) => Ok(Some(dictionary.copy(alloc)?)),
            None => Ok(None),
        }
    }
}

/// Whether no id is below an earlier one.
fn is_rising(entries: &[(i64, Dictionary)]) -> bool
    ensures { IsTrue result ↔ Rises entries.now }
{
    for k in 1..entries.len() {
        if entries[k].0 < entries[k - 1].0 {
            return false;
        }
    }
    true
}

/// The dictionary that is listed first for the id, found by binary search.
fn find_rising(entries: &[(i64, Dictionary)], id: i64) -> Option<&Dictionary>
    requires { Rises entries.now }
    ensures { option_map (λ d. d.now) result ≡ listed entries.now id }
{
    let at = entries.partition_point(
        |entry: &(i64, Dictionary)| -> bool
            ensures { result ≡ int_lt entry.now.0 id }
        { entry.0 < id },
    );
    let Some(entry) = entries.get(at) else {
        return None;
    };
    if entry.0 == id { Some(&entry.1) } else { None }
}

/// The dictionary that is listed first for the id, whatever their order.
fn find_any(entries: &[(i64, Dictionary)], id: i64) -> Option<&Dictionary>
    ensures { option_map (λ d. d.now) result ≡ listed entries.now id }
{
    for entry in entries {
        if entry.0 == id {
            return Some(&entry.1);
        }
    }
    None
}
