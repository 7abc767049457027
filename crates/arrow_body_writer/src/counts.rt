//! The counts of the slots of a column's own node.

ghost use Rattle.std.specs.Prelude.{◌≡◌, ⊤};
ghost use Rattle.arrow_body_slots.specs.Tally.{Counts, IsTally};
ghost use Rattle.arrow_body_writer.specs.Source.{IsSource, column_in};

use crate::source::ColumnSource;
use crate::steps::ChildPath;
use crate::visitor::SlotVisitor;
use arrow_body_slots::{BitRange, ByteTally, ColumnSlice, counted};
use arrow_data::Array;
use arrow_layout::form::Form;
use std::convert::Infallible;

/// A column, and the counts of the slots of its own node.
#[derive(Clone, Copy)]
pub(crate) struct NodeCounts<'a> {
    pub(crate) source: ColumnSource<'a>,
    pub(crate) tally: ByteTally,
}

/// A visitor that counts the slots of a node of this form.
#[derive(Drop)]
struct SlotCounter {
    form: Form,
    tally: ByteTally,
}

impl SlotVisitor for SlotCounter {
    ghost use Rattle.std.proofs.Common.{refl, subst, ◌∙◌};
    ghost use Rattle.arrow_body_slots.proofs.Counting.{counts_more, counts_none};

    type Fault = Infallible;

    ghost takes = { λ old new vs. (new.form ≡ old.form) × Counts old.form vs old.tally new.tally };

    ghost has_room = { λ _ _. ⊤ };

    ghost nothing = { λ v. (refl, counts_none v.form v.tally) };

    ghost more = { λ a b c vs ws one other. (
      other.0 ∙ one.0,
      counts_more a.form a.tally b.tally
          c.tally vs ws one.1 (subst (λ f. Counts f ws b.tally c.tally) one.0 other.1),
    ) };

    ghost keeps = { λ _ _ _ _ _ room. room };

    fn take_slots(&mut self, slice: ColumnSlice<'_>) -> Result<(), Infallible> {
        self.tally.add_slots(self.form, slice);
        Ok(())
    }

    fn take_null(&mut self) -> Result<(), Infallible> {
        self.tally.add_null();
        Ok(())
    }

    fn take_masked(&mut self, _array: &Array, bits: BitRange<'_>) -> Result<bool, Infallible> {
        Ok(self.tally.add_masked(self.form, bits))
    }
}

/// Counts the slots of the column's own node, which has this form.
pub(crate) fn count_sent(form: Form, source: &ColumnSource) -> ByteTally
    requires { IsSource source.now }
    ensures { IsTally form (column_in source.now).raw result }
{
    if let Some(slice) = source.own_slots() {
        return counted(form, slice);
    }
    let mut counter = SlotCounter {
        form,
        tally: ByteTally::new(),
    };
    match source.send(&mut counter, &ChildPath::Here) {
        Ok(()) => counter.tally,
    }
}
