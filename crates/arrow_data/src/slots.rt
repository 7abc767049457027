//! The slots of an array, whose form is determined once for many of them.

ghost use Rattle.std.specs.Prelude.{◌≡◌, ◌<◌, length, MatchOption};
ghost use Rattle.arrow_data.specs.Shown.{HoldsValue};
ghost use Rattle.arrow_data.specs.View.{HasNoEntry, RefersTo};

use crate::array::{Array, SlotValue};
use crate::view::Buffers;
use arrow_layout::slot::{bool_at, fixed_at};
use std::marker::Model;

/// The slots of an array, for callers that read many of them: where its buffers lie is looked up
/// when this is made, and not for each slot. It copies nothing and allocates nothing.
#[derive(Drop)]
pub struct Slots<'a> {
    array: &'a Array,
    buffers: Buffers<'a>,
}

impl<'a> Model for Slots<'a> {
    ghost use Rattle.arrow_data.specs.Column.{Column, column_code};

    ghost Value = { Column };

    ghost coded = { column_code };

    ghost use Rattle.arrow_data.specs.View.{AreBuffersOf};

    ghost view = { λ s. s.array.now };

    ghost invariant = { λ s. AreBuffersOf s.array.now s.buffers };
}

impl Array {
    /// The slots of the array, with the form determined once.
    pub fn slots(&self) -> Slots<'_>
        ensures { result ≡ self.now }
    {
        Slots {
            array: self,
            buffers: self.buffers(),
        }
    }
}

impl<'a> Slots<'a> {
    /// The array.
    pub fn array(&self) -> &'a Array
        ensures { result.now ≡ self.now }
    {
        self.array
    }

    /// The value of slot `i`, as `Array::slot` gives it: indices looked up.
    #[inline(always)]
    pub fn slot(&self, i: usize) -> SlotValue<'a>
        requires { i < length self.now.raw }
        ensures { HoldsValue self.now i result }
    {
        match &self.buffers {
            Buffers::Nulls => SlotValue::Null,
            Buffers::Bools { validity, values } => match bool_at(validity, values, i) {
                Some(truth) => SlotValue::Bool(truth),
                None => SlotValue::Null,
            },
            Buffers::Numbers(of) => match of.number_at(i) {
                Some(number) => SlotValue::Int(number),
                None => SlotValue::Null,
            },
            Buffers::Binaries(of) => {
                match of.binary_at(self.array.len(), i) {
                    Some(bytes) => SlotValue::Bytes(bytes),
                    None => SlotValue::Null,
                }
            }
            Buffers::Texts(of) => {
                match of.text_at(self.array.len(), i) {
                    Some(text) => SlotValue::Text(text),
                    None => SlotValue::Null,
                }
            }
            Buffers::FixedBytes {
                width,
                validity,
                values,
            } => {
                match fixed_at(validity, values, *width, i) {
                    Some(bytes) => SlotValue::Bytes(bytes),
                    None => SlotValue::Null,
                }
            }
            _ => { self.array.slot(i) }
        }
    }

    /// The index in slot `i` of a dictionary-encoded column: the number of its value in the
    /// column's dictionary. None if the slot is null, or the column is not dictionary-encoded.
    #[inline(always)]
    pub fn entry(&self, i: usize) -> Option<usize>
        requires { i < length self.now.raw }
        ensures { MatchOption result (HasNoEntry self.now i) (λ n. RefersTo self.now i n) }
    {
        match &self.buffers {
            Buffers::Indices(of, _) => {
                let index = of.number_at(i)?;
                Some(index as usize)
            }
            _ => None,
        }
    }
}
