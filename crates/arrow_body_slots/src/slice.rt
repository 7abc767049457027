//! Consecutive slots of an array.

ghost use Rattle.std.specs.Prelude.{◌≡◌, ◌↔◌, IsTrue, length};
ghost use Rattle.arrow_data.specs.FullSlots.{AreFull};
ghost use Rattle.arrow_body_slots.specs.Slice.{IsFull, IsSlice, values_in};

use arrow_data::Array;

/// The slots of an array from one index up to another.
#[derive(Clone, Copy)]
pub struct ColumnSlice<'a> {
    pub array: &'a Array,
    pub start: usize,
    pub stop: usize,
}

/// Whether no slot of the array is null.
pub fn is_full(array: &Array) -> bool
    ensures { IsTrue result ↔ AreFull array.now 0 (length array.now.raw) }
{
    array.first_null(0, array.len()) == array.len()
}

/// Whether no slot is null.
pub(crate) fn is_without_null(slice: ColumnSlice<'_>) -> bool
    requires { IsSlice slice }
    ensures { IsTrue result → IsFull slice.entry }
{
    slice.array.first_null(slice.start, slice.stop) == slice.stop
}

/// All slots of an array.
pub fn all_slots(array: &Array) -> ColumnSlice<'_>
    ensures slots { IsSlice result }
    ensures all { values_in result ≡ array.now.raw }
    ensures array { result.array.now ≡ array.now }
{
    ColumnSlice {
        array,
        start: 0,
        stop: array.len(),
    }
}
