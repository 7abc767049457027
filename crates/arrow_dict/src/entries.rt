//! Ids and their dictionaries, by rising id.

ghost use Rattle.std.specs.Prelude.{◌≡◌, ◌≤◌, ◌<◌, ◌+◌, IsOk, IsTrue, MatchResult, OnErr};
ghost use Rattle.std.specs.Prelude.{OnOk, Some, None, is_some, option_map};
ghost use Rattle.std.specs.Vec.{vec_capacity, vec_len};
ghost use Rattle.arrow_data.specs.Listed.{listed};
ghost use Rattle.arrow_dict.specs.Dictionaries.{IsRising, placed};
ghost use Rattle.arrow_dict.specs.Places.{IsAt, IsGap};

use arrow_data::Dictionary;
use std::alloc::AllocError;

/// The index of the id, or the index at which it belongs. It is found by binary search.
pub(crate) fn place_of(entries: &[(i64, Dictionary)], id: i64) -> Result<usize, usize>
    requires { IsRising entries.now }
    ensures { MatchResult result (IsAt entries.now id) (IsGap entries.now id) }
{
    entries.binary_search_by_key(&id, |entry| entry.0)
}

/// The dictionary of the id, None if there is none.
pub(crate) fn find(entries: &[(i64, Dictionary)], id: i64) -> Option<&Dictionary>
    requires { IsRising entries.now }
    ensures { option_map (λ d. d.now) result ≡ listed entries.now id }
{
    match place_of(entries, id) {
        Ok(at) => Some(&entries[at].1),
        Err(_) => None,
    }
}

/// Takes the dictionary for the id, and replaces the one that was there. It may allocate only if
/// there was none and no spare capacity; if the allocation fails, nothing changes.
pub(crate) fn place(
    entries: &mut Vec<(i64, Dictionary)>,
    id: i64,
    dictionary: Dictionary,
) -> Result<(), AllocError>
    requires { IsRising entries.old.items }
    ensures ok { OnOk result (entries.new.items ≡ placed id dictionary entries.old.items) }
    ensures err { OnErr result (entries.new.items ≡ entries.old.items) }
    ensures rising { IsRising entries.new.items }
    ensures there { IsTrue (is_some (listed entries.old.items id)) → IsOk result }
    ensures length { vec_len entries.new ≤ vec_len entries.old + 1 }
    ensures capacity { vec_capacity entries.old ≤ vec_capacity entries.new }
    ensures room { vec_len entries.old < vec_capacity entries.old → IsOk result }
{
    match place_of(entries, id) {
        Ok(at) => {
            entries[at] = (id, dictionary);
            Ok(())
        }
        Err(at) => Ok(entries.insert(at, (id, dictionary))?),
    }
}
