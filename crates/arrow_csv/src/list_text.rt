//! A column of lists that is being written as text.

ghost use Rattle.std.specs.Prelude.{◌≡◌, ◌≤◌, ◌<◌, IfSome, OnOk, length};
ghost use Rattle.arrow_data.specs.Column.{values_from};
ghost use Rattle.arrow_layout.specs.PlainValue.{value_at};
ghost use Rattle.arrow_csv.specs.Layouts.{null_by};
ghost use Rattle.arrow_csv.specs.Texts.{Appends, IsFieldOf, IsListOf};

use crate::fields::{push_null, quote_from};
use crate::texts::push_value;
use arrow_data::{Array, Buffers, Slots};
use arrow_layout::ItemPlaces;
use std::alloc::AllocError;
use std::marker::Model;

/// A column of lists whose slots become fields of records. Where the items of the lists lie is
/// looked up once.
#[derive(Drop)]
pub(crate) struct ListText<'a> {
    array: &'a Array,
    validity: &'a [u8],
    places: ItemPlaces<'a>,
    items: Slots<'a>,
}

impl<'a> Model for ListText<'a> {
    ghost use Rattle.arrow_data.specs.Column.{Column, column_code};

    ghost Value = { Column };

    ghost coded = { column_code };

    ghost use Rattle.arrow_csv.specs.Made.{HasItemsAt};

    ghost view = { λ t. t.array.now };

    ghost invariant = { λ t. HasItemsAt t.array.now t.validity.now t.places t.items };
}

impl<'a> ListText<'a> {
    /// The text of a column, which it borrows; `None` if its slots do not hold lists.
    pub(crate) fn of(column: &'a Array) -> Option<ListText<'a>>
        ensures { IfSome result (λ text. text ≡ column.now) }
    {
        // Most columns have no items, and need not look up their buffers.
        column.items()?;
        let Buffers::Lists {
            form,
            validity,
            offsets,
            child,
        } = column.buffers()
        else {
            return None;
        };
        let places = ItemPlaces {
            form,
            len: column.len(),
            top: child.len(),
            offsets,
        };
        Some(ListText {
            array: column,
            validity,
            places,
            items: child.slots(),
        })
    }

    /// Appends the field of slot `i`; if it is a null, the field of this text.
    #[inline(never)]
    pub(crate) fn push(
        &self,
        out: &mut Vec<u8>,
        i: usize,
        null: Option<&str>,
    ) -> Result<(), AllocError>
        requires { i < length self.now.raw }
        ensures { OnOk result (Appends (IsFieldOf (null_by null.entry) self.now.data_type
            (value_at self.now.resolved i)) out.old.items out.new.items) }
    {
        let Some((start, end)) = self.places.range_at(self.validity, i) else {
            return push_null(out, null);
        };
        let place = out.len();
        push_listed(out, &self.items, start, end)?;
        quote_from(out, place)
    }
}

/// Appends the text of a list whose items are in a range of slots that were looked up before.
#[inline(always)]
fn push_listed(
    out: &mut Vec<u8>,
    items: &Slots<'_>,
    start: usize,
    end: usize,
) -> Result<(), AllocError>
    requires order { start ≤ end }
    requires inside { end ≤ length items.now.raw }
    requires long { length items.now.resolved ≡ length items.now.raw }
    ensures { OnOk result (Appends
        (IsListOf items.now.data_type (values_from items.now.resolved start end))
        out.old.items out.new.items) }
{
    out.push(b'[')?;
    for k in start..end {
        if k > start {
            out.push(b';')?;
        }
        push_value(out, items.array(), k, items.slot(k))?;
    }
    out.push(b']')?;
    Ok(())
}
