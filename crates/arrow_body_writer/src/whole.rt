//! Children that are sent unsliced: exactly the slots that they have.

ghost use Rattle.std.specs.Prelude.{◌≡◌, ◌↔◌, [], ◌∷◌, IfSome, IsTrue, length};
ghost use Rattle.std.specs.List.{AllByRecursion};
ghost use Rattle.arrow_data.specs.Column.{Column};
ghost use Rattle.arrow_body_writer.specs.Whole.{AreSentWhole};

use arrow_body_slots::{ColumnSlice, is_full, items};
use arrow_data::Array;
use arrow_layout::form::form_of;

/// Whether each of the arrays has exactly `len` slots.
fn are_as_long(arrays: &[Array], len: usize) -> bool
    ensures { IsTrue result ↔ AllByRecursion (λ (c : Column). length c.raw ≡ len) arrays.now }
{
    for array in arrays {
        if array.len() != len {
            return false;
        }
    }
    true
}

/// The child of lists without nulls, if their items are all slots of it (Columnar Format,
/// "Variable-size List Layout", "Fixed-Size List Layout").
fn whole_items(array: &Array) -> Option<&Array>
    ensures { IfSome result (λ child. AreSentWhole array.now (child.now ∷ [])) }
{
    let own = array.items()?;
    let count = own.len();
    if !is_full(array) {
        return None;
    }
    let (start, stop) = (0, array.len());
    match items(ColumnSlice { array, start, stop }) {
        Some(all) if all.start == 0 && all.stop == all.array.len() => Some(all.array),
        None if count == 0 => Some(own),
        Some(_) | None => None,
    }
}

/// The children of structs without nulls, if they have no more slots than there are structs
/// (Columnar Format, "Struct Layout").
fn whole_fields(array: &Array) -> Option<&[Array]>
    ensures { IfSome result (λ children. AreSentWhole array.now children.now) }
{
    let children = array.fields()?;
    if is_full(array) && are_as_long(children, array.len()) {
        Some(children)
    } else {
        None
    }
}

/// Whether there is no column below this one: none is below a column of indices (its children come
/// with the dictionary), nor below a type without children.
fn is_leaf(array: &Array) -> bool
    ensures { IsTrue result → AreSentWhole array.now [] }
{
    let form = form_of(array.data_type());
    array.encoding().is_some() || form.is_leaf()
}

/// The children of lists or structs, if each is sent exactly its own slots, so that it can be
/// stored as a column by itself. A column with an encoding or of another type has none.
pub(crate) fn whole_below(array: &Array) -> Option<&[Array]>
    ensures { IfSome result (λ children. AreSentWhole array.now children.now) }
{
    if is_leaf(array) {
        return Some(&[]);
    }
    match whole_items(array) {
        Some(child) => Some(std::slice::from_ref(child)),
        None => whole_fields(array),
    }
}
