//! What is done with the slots that are sent to a node.

ghost use Rattle.std.specs.Prelude.{◌≡◌, ◌≤◌, List, [], ◌∷◌, ◌++◌, IfOk, IsFalse, IsTrue, OnOk};
ghost use Rattle.std.specs.Prelude.{length};
ghost use Rattle.std.specs.List.{AllByRecursion};
ghost use Rattle.arrow_data.specs.Column.{values_from};
ghost use Rattle.arrow_layout.specs.PlainValue.{PlainValue, null_value};
ghost use Rattle.arrow_body_slots.specs.Marks.{AreMasked, IsBitRange};
ghost use Rattle.arrow_body_slots.specs.Slice.{IsSlice, values_in};

use arrow_body_slots::{BitRange, ColumnSlice};
use arrow_data::Array;

/// A visitor of the slots that are sent to a node, from its own array or from one above it. It takes
/// them in their order.
pub(crate) trait SlotVisitor {
    /// Why slots are not taken.
    type Fault;

    // Between these two states it took slots with these values, and no others.
    ghost takes: { Self → Self → List PlainValue → Type 0 };

    // It can take a slot with this value.
    ghost has_room: { Self → PlainValue → Type 0 };

    /// Takes the slots, which belong to the node itself.
    fn take_slots(&mut self, slice: ColumnSlice<'_>) -> Result<(), Self::Fault>
        requires slots { IsSlice slice }
        requires room { AllByRecursion (has_room self.old) (values_in slice) }
        ensures { OnOk result (takes self.old self.new (values_in slice.entry)) };

    /// Takes a null.
    fn take_null(&mut self) -> Result<(), Self::Fault>
        ensures { OnOk result (takes self.old self.new (null_value ∷ [])) };

    /// Takes slots of the array, where the slots whose bit is 0 are null. Returns whether it did; it
    /// does not if it asks for something other than counts, bits or numbers.
    fn take_masked(&mut self, array: &Array, bits: BitRange<'_>) -> Result<bool, Self::Fault>
        requires bits { IsBitRange bits }
        requires slots { bits.stop ≤ length array.now.raw }
        ensures taken { IfOk result (λ done. IsTrue done → (raw : List PlainValue)
            → AreMasked array.now.raw raw bits.entry.bytes.now → bits.entry.stop ≤ length raw
            → takes self.old self.new (values_from raw bits.entry.start bits.entry.stop)) }
        ensures kept { IfOk result (λ done. IsFalse done → self.new ≡ self.old) };

    // No slots are taken if nothing is done.
    ghost nothing: { (v : Self) → takes v v [] };

    // Slots, and then others.
    ghost more: { (a b c : Self) (vs ws : List PlainValue)
        → takes a b vs → takes b c ws → takes a c (vs ++ ws) };

    // It keeps its room.
    ghost keeps: { (a b : Self) (vs : List PlainValue) (v : PlainValue)
        → takes a b vs → has_room a v → has_room b v };
}
