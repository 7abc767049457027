//! Whether two slots hold equal values.

ghost use Rattle.std.specs.Prelude.{◌≡◌, ◌↔◌, ◌<◌, ◌≤◌, length, IsTrue};
ghost use Rattle.arrow_data.specs.Column.{values_from, row_of};
ghost use Rattle.arrow_layout.specs.PlainValue.{value_at};
ghost use Rattle.arrow_data.specs.Same.{HaveSlot};

use crate::array::{Array, SlotRef};

/// The items in the slots of an array from `start` up to `end`.
#[derive(Clone, Copy)]
pub(crate) struct Items<'a> {
    pub(crate) array: &'a Array,
    pub(crate) start: usize,
    pub(crate) end: usize,
}

impl Array {
    /// Whether slot `i` and slot `j` of another array hold equal values, whatever the types of the
    /// two arrays are. Two nulls are equal. Lists and structs are compared value by value, wherever
    /// their items lie. Nothing is allocated.
    #[cycle(same)]
    pub fn same_slot(&self, i: usize, other: &Array, j: usize) -> bool
        requires here { i < length self.now.raw }
        requires there { j < length other.now.raw }
        ensures { IsTrue result ↔ (value_at self.now.raw i ≡ value_at other.now.raw j) }
    {
        match (self.seen(i), other.seen(j)) {
            (SlotRef::Nothing, SlotRef::Nothing) => true,
            (SlotRef::Truth(a), SlotRef::Truth(b)) => a == b,
            (SlotRef::Number(a), SlotRef::Number(b)) => a == b,
            (SlotRef::Binary(a), SlotRef::Binary(b)) => a == b,
            (SlotRef::Text(a), SlotRef::Text(b)) => a == b,
            (SlotRef::Items(start, end, items), SlotRef::Items(from, to, others)) => same_items(
                Items {
                    array: items,
                    start,
                    end,
                },
                Items {
                    array: others,
                    start: from,
                    end: to,
                },
            ),
            (SlotRef::Parts(children), SlotRef::Parts(others)) => same_parts(
                children, i, others, j,
            ),
            (SlotRef::Nothing, _)
            | (SlotRef::Truth(_), _)
            | (SlotRef::Number(_), _)
            | (SlotRef::Binary(_), _)
            | (SlotRef::Text(_), _)
            | (SlotRef::Items(..), _)
            | (SlotRef::Parts(_), _) => false,
        }
    }
}

/// Whether the items are equal, one by one.
#[cycle(same)]
pub(crate) fn same_items(items: Items<'_>, others: Items<'_>) -> bool
    requires order { items.start ≤ items.end }
    requires inside { items.end ≤ length items.array.now.raw }
    requires other_order { others.start ≤ others.end }
    requires other_inside { others.end ≤ length others.array.now.raw }
    ensures { IsTrue result
        ↔ (values_from items.entry.array.now.raw items.entry.start items.entry.end
        ≡ values_from others.entry.array.now.raw others.entry.start others.entry.end) }
{
    let count = items.end - items.start;
    if count != others.end - others.start {
        return false;
    }
    for k in 0..count {
        let j = others.start + k;
        if !items.array.same_slot(items.start + k, others.array, j) {
            return false;
        }
    }
    true
}

/// Whether slot `i` of some columns and slot `j` of others hold equal values, column by column.
#[cycle(same)]
fn same_parts(children: &[Array], i: usize, others: &[Array], j: usize) -> bool
    requires inside { HaveSlot i children.now }
    requires other_inside { HaveSlot j others.now }
    ensures { IsTrue result ↔ (row_of children.now i ≡ row_of others.now j) }
{
    if children.len() != others.len() {
        return false;
    }
    for k in 0..children.len() {
        if !children[k].same_slot(i, &others[k], j) {
            return false;
        }
    }
    true
}
