//! Columns built value by value.

ghost use Rattle.std.specs.Prelude.{◌≡◌, false, length, IfOk, OnErr, OnOk, MatchResult};
ghost use Rattle.arrow_layout.specs.Value.{value_view};
ghost use Rattle.arrow_data.specs.Listed.{ResolvesBy};
ghost use Rattle.arrow_builder.specs.Built.{no_values_of, with_value};
ghost use Rattle.arrow_builder.specs.Faults.{ExplainsArray, ExplainsPush, TakesValue};
ghost use Rattle.arrow_builder.specs.Finished.{AreIndexed, AreTyped, IsArrayOf};
ghost use Rattle.arrow_types.specs.Schema.{field_is_nested};
ghost use Rattle.arrow_types.specs.View.{field_view};

use crate::begin::begin;
use crate::faults::{ArrayFault, PushFault};
use crate::finish::finish;
use crate::fits::fits;
use crate::indexed::are_indexed;
use crate::node::{Node, push_value};
use crate::tally::{Tally, add, nothing, settle};
use crate::typed::are_typed;
use arrow_data::{Array, Dictionary, DictionaryMap};
use arrow_layout::Value;
use arrow_types::Field;
use std::alloc::{AllocError, Global};
use std::marker::Model;

/// A column that is built value by value (Columnar Format, "Physical Memory Layout").
///
/// Values are written into buffers as they come, and no value is kept by itself. For a
/// dictionary-encoded field a value is an index, and the dictionaries are supplied at the end:
/// arrays can be made of the same values again and again, with other dictionaries and after more
/// values.
#[derive(Drop)]
pub struct ArrayBuilder {
    node: Node,
    tally: Tally,
}

impl Model for ArrayBuilder {
    ghost use Rattle.arrow_builder.specs.Built.{Built, built_code};

    ghost Value = { Built };

    ghost coded = { built_code };

    ghost view = { λ b. b.node };

    ghost use Rattle.std.specs.Prelude.{false};
    ghost use Rattle.arrow_builder.specs.Tally.{IsCounted};

    ghost invariant = { λ b. IsCounted false b.node.field b.node.raw b.tally };
}

impl ArrayBuilder {
    /// Returns a builder of the field's column, without values, or `AllocError` if an allocation
    /// failed. No dictionary-encoded field of the given field may be below another one.
    pub fn new(alloc: Global, field: &Field) -> Result<ArrayBuilder, AllocError>
        requires { field_is_nested (field_view field.now) ≡ false }
        ensures { IfOk result (λ b. b ≡ no_values_of (field_view field.now)) }
    {
        Ok(ArrayBuilder {
            node: begin(alloc, field)?,
            tally: nothing(alloc, field)?,
        })
    }

    /// How many values there are.
    pub fn len(&self) -> usize
        ensures { result ≡ length self.now.raw }
    {
        self.node.len()
    }

    /// Appends a value, or returns the fault with the least number of those that apply: that the
    /// value does not fit; that a column, the field's or one below it, would be too long with it;
    /// and else that there is no memory for it. After every fault the builder is unchanged.
    ///
    /// A column has at most 2,147,483,647 slots. One of `Binary` or `Utf8` has at most as many
    /// bytes of data, one of `LargeBinary`, `LargeUtf8` or `FixedSizeBinary` at most 2^40. A null
    /// of `FixedSizeList` takes as many slots below it as a list ("Fixed-Size List Layout").
    pub fn push(&mut self, value: &Value) -> Result<(), PushFault>
        ensures ok { OnOk result (self.new ≡ with_value self.old (value_view value.now)) }
        ensures err { OnErr result (self.new ≡ self.old) }
        ensures why { MatchResult result (λ _. TakesValue self.old (value_view value.now))
            (λ fault. ExplainsPush fault self.old (value_view value.now)) }
    {
        if !fits(value, &self.node.field) {
            return Err(PushFault::DoesNotFit);
        }
        settle(&mut self.tally, false);
        if !add(&mut self.tally, value) {
            return Err(PushFault::TooLong);
        }
        let Ok(()) = push_value(&mut self.node, value) else {
            return Err(PushFault::Memory);
        };
        settle(&mut self.tally, true);
        Ok(())
    }

    /// Returns the array of the values, or the fault with the least number of those that apply. The
    /// builder is unchanged.
    ///
    /// A dictionary-encoded field refers to the first dictionary that is listed for its id, or to
    /// the empty one if none is listed.
    pub fn finish(
        &self,
        alloc: Global,
        dictionaries: &[(i64, Dictionary)],
    ) -> Result<Array, ArrayFault>
        ensures { MatchResult result
            (λ array. AreTyped dictionaries.now self.now.field × AreIndexed dictionaries.now self.now
            × IsArrayOf dictionaries.now self.now array × ResolvesBy dictionaries.now array)
            (λ fault. ExplainsArray fault dictionaries.now self.now) }
    {
        let len = self.node.len();
        let listed = DictionaryMap::new(dictionaries);
        if !are_typed(&self.node.field, listed) {
            return Err(ArrayFault::DictionaryType);
        }
        if !are_indexed(&self.node, len, listed) {
            return Err(ArrayFault::IndexRange);
        }
        let Ok(array) = finish(alloc, &self.node, len, listed) else {
            return Err(ArrayFault::Memory);
        };
        // Called for what its contract says of every array.
        array.len();
        Ok(array)
    }
}
