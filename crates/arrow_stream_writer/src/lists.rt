//! The dictionaries of a batch, found at its columns.

ghost use Rattle.std.specs.Prelude.{◌≡◌, ◌∷◌, [], ℤ, option_map, None, OnOk, MatchOption};
ghost use Rattle.std.specs.List.{AllByRecursion};
ghost use Rattle.arrow_data.specs.Column.{IsColumn};
ghost use Rattle.arrow_stream_writer.specs.Lists.{AddsList, FindsLists, Gathers, HaveBelow};
ghost use Rattle.arrow_stream_writer.specs.Lists.{dictionary_in};

use arrow_data::{Array, Batch, Dictionary};
use arrow_layout::form::{Form, form_of};
use std::alloc::{AllocFailed, Global};
use std::collections::BTreeMap;

/// Why the columns of a batch give no dictionaries.
#[derive(Clone, Copy)]
pub(crate) enum ListsFault {
    /// Two columns have different dictionaries of one id.
    DictionariesDiffer,
    /// An allocation failed.
    Memory,
}

impl<T: Drop> From<AllocFailed<T>> for ListsFault {
    ghost use Rattle.arrow_stream_writer.specs.declared.lists.ListsFault.TheVariants.{Memory};

    ghost from_gives = { λ _ e. e ≡ Memory };

    fn from(_failed: AllocFailed<T>) -> ListsFault {
        ListsFault::Memory
    }
}

/// The dictionaries of a batch by their ids: for each id the one that the first of its columns in
/// pre-order refers to. Those of all other columns are equal to it.
#[derive(Drop)]
pub(crate) struct BatchLists<'a> {
    lists: BTreeMap<i64, &'a Dictionary>,
}

impl<'a> BatchLists<'a> {
    /// The dictionaries of the batch, or that two of its columns have different ones of one id. The
    /// time, without the comparisons, grows as n log n with the number of columns on all levels.
    pub(crate) fn of(alloc: Global, batch: &'a Batch) -> Result<BatchLists<'a>, ListsFault>
        ensures { FindsLists result batch.now }
    {
        // This gives the proof what is known of every batch.
        let _ = batch.schema();
        let mut lists = BatchLists::new(alloc);
        lists.add_columns(batch.columns())?;
        Ok(lists)
    }

    /// The dictionaries of no columns. Allocates nothing.
    fn new(alloc: Global) -> BatchLists<'a>
        ensures { (id : ℤ) → dictionary_in result id ≡ None }
    {
        BatchLists {
            lists: BTreeMap::new(alloc),
        }
    }

    /// The dictionary of the id, None if no column refers to one.
    pub(crate) fn get(&self, id: i64) -> Option<&'a Dictionary>
        ensures { option_map (λ d. d.now) result ≡ dictionary_in self.now id }
    {
        match self.lists.get(&id) {
            Some(dictionary) => Some(*dictionary),
            None => None,
        }
    }

    /// Adds the dictionary of a column, or reports that a different one of its id is there.
    fn add(&mut self, id: i64, dictionary: &'a Dictionary) -> Result<(), ListsFault>
        ensures { AddsList id dictionary.now (dictionary_in self.old) result (dictionary_in self.new) }
    {
        match self.get(id) {
            Some(first) => {
                if *first == *dictionary {
                    Ok(())
                } else {
                    Err(ListsFault::DictionariesDiffer)
                }
            }
            None => {
                self.lists.insert(id, dictionary)?;
                Ok(())
            }
        }
    }

    /// Adds the dictionaries of the columns, those of each before those of the next one.
    #[cycle(gathering)]
    fn add_columns(&mut self, columns: &'a [Array]) -> Result<(), ListsFault>
        ensures gathers { Gathers columns.now (dictionary_in self.old) result
            (dictionary_in self.new) }
        ensures known { OnOk result (AllByRecursion IsColumn columns.now) }
    {
        for column in columns {
            self.add_column(column)?;
        }
        Ok(())
    }

    /// Adds the dictionary of the column, or those of the columns below it.
    #[cycle(gathering)]
    fn add_column(&mut self, column: &'a Array) -> Result<(), ListsFault>
        ensures gathers { Gathers (column.now ∷ []) (dictionary_in self.old) result
            (dictionary_in self.new) }
        ensures known { IsColumn column.now }
    {
        // This gives the proof what is known of every column.
        let _ = column.len();
        match (column.dictionary(), column.encoding()) {
            (Some(dictionary), Some(encoding)) => self.add(encoding.id, dictionary),
            // No column has a dictionary and no encoding.
            (Some(_), None) => Ok(()),
            (None, _) => match below(column) {
                Some(columns) => self.add_columns(columns),
                None => Ok(()),
            },
        }
    }
}

/// The columns of the items of lists, or of the fields of structs. None if slots hold neither.
fn below(column: &Array) -> Option<&[Array]>
    ensures { column.now.encoding ≡ None
        → MatchOption result (column.now.dictionaries ≡ [])
        (λ columns. HaveBelow column.now columns.now) }
{
    // As in `add_column`.
    let _ = column.len();
    match form_of(column.data_type()) {
        Form::Lists(_) => match column.items() {
            Some(items) => Some(std::slice::from_ref(items)),
            None => None,
        },
        Form::Structs => column.fields(),
        Form::Nulls
        | Form::Bits
        | Form::Numbers(_)
        | Form::Bytes(_)
        | Form::Texts(_)
        | Form::FixedBytes(_) => None,
    }
}
