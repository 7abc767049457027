//! The walk over the slots that are sent to a node, from its own array or from one above it.

ghost use Rattle.std.specs.Prelude.{◌≡◌, [], ◌∷◌, IfOk, IsFalse, IsTrue, OnOk, map, replicate};
ghost use Rattle.std.specs.List.{AllByRecursion, flat_map};
ghost use Rattle.arrow_data.specs.Column.{IsList, IsStruct, type_of_field};
ghost use Rattle.arrow_layout.specs.PlainValue.{field_value, null_value};
ghost use Rattle.arrow_body_laws.specs.Raws.{items_in_value};
ghost use Rattle.arrow_body_slots.specs.Slice.{IsSlice, values_in};
ghost use Rattle.arrow_body_writer.specs.Sent.{LeadDown, LeadFrom, sent_along};

use crate::steps::ChildPath;
use crate::visitor::SlotVisitor;
use arrow_body_slots::{BitRange, ColumnSlice, bitmap_above, items};

/// Takes what a null sends along the steps: one null below structs, the number of nulls of the
/// step below lists (Columnar Format, "Struct Layout", "Fixed-Size List Layout").
#[cycle(take_null_along)]
fn take_null_along<V: SlotVisitor>(visitor: &mut V, steps: &ChildPath<'_>) -> Result<(), V::Fault>
    ensures { OnOk result
        (V.takes visitor.old visitor.new (sent_along steps.now (null_value ∷ []))) }
{
    match steps {
        ChildPath::Here => visitor.take_null(),
        ChildPath::Items(nulls, rest) => take_nulls_along(visitor, *nulls, rest),
        ChildPath::Field(_, rest) => take_null_along(visitor, rest),
    }
}

/// Takes what `nulls` nulls send along the steps.
#[cycle(take_null_along)]
fn take_nulls_along<V: SlotVisitor>(
    visitor: &mut V,
    nulls: u32,
    rest: &ChildPath<'_>,
) -> Result<(), V::Fault>
    ensures { OnOk result
        (V.takes visitor.old visitor.new (sent_along rest.now (replicate nulls null_value))) }
{
    for _ in 0..nulls {
        take_null_along(visitor, rest)?;
    }
    Ok(())
}

/// Takes what field k of structs sends to its own node, if its child has no null of its own: by
/// the bitmap of the structs, all at once (Columnar Format, "Struct Layout"). Returns whether it
/// did: it does not if the visitor asks for something other than counts, bits or numbers.
fn take_masked<V: SlotVisitor>(
    visitor: &mut V,
    structs: ColumnSlice<'_>,
    k: usize,
    steps: &ChildPath<'_>,
) -> Result<bool, V::Fault>
    requires { IsSlice structs }
    ensures taken { IfOk result (λ done. IsTrue done → V.takes visitor.old visitor.new
        (sent_along steps.now (map (field_value k) (values_in structs.entry)))) }
    ensures kept { IfOk result (λ done. IsFalse done → visitor.new ≡ visitor.old) }
{
    let ColumnSlice { array, start, stop } = structs;
    let (ChildPath::Here, Some(child)) = (steps, array.field(k)) else {
        return Ok(false);
    };
    let Some(bytes) = bitmap_above(array, child) else {
        return Ok(false);
    };
    let bits = BitRange { bytes, start, stop };
    visitor.take_masked(child, bits)
}

/// Takes what the slots send along the steps.
#[cycle(sent)]
pub(crate) fn take_along<V: SlotVisitor>(
    visitor: &mut V,
    slice: ColumnSlice<'_>,
    steps: &ChildPath<'_>,
) -> Result<(), V::Fault>
    requires slots { IsSlice slice }
    requires down { LeadDown steps.now slice.array.now.data_type slice.array.now.encoding }
    requires room { AllByRecursion (V.has_room visitor.old) (sent_along steps.now (values_in slice)) }
    ensures { OnOk result (V.takes visitor.old visitor.new (sent_along steps.now (values_in slice.entry))) }
{
    match steps {
        ChildPath::Here => visitor.take_slots(slice),
        ChildPath::Items(nulls, rest) => take_items(visitor, slice, *nulls, rest),
        ChildPath::Field(k, rest) => {
            if take_masked(visitor, slice, *k, rest)? {
                return Ok(());
            }
            take_field(visitor, slice, *k, rest)
        }
    }
}

/// Takes what the items of lists send along the steps: those of one list after those of the one
/// before, and `nulls` nulls under a null list (Columnar Format, "Variable-size List Layout",
/// "Fixed-Size List Layout"). The lists between two nulls are taken at once.
#[cycle(sent)]
fn take_items<V: SlotVisitor>(
    visitor: &mut V,
    lists: ColumnSlice<'_>,
    nulls: u32,
    steps: &ChildPath<'_>,
) -> Result<(), V::Fault>
    requires lists { IsList lists.array.now }
    requires slots { IsSlice lists }
    requires down { LeadFrom (type_of_field lists.array.now.data_type.children 0) steps.now }
    requires room { AllByRecursion (V.has_room visitor.old)
        (sent_along steps.now (flat_map (items_in_value nulls) (values_in lists))) }
    ensures { OnOk result (V.takes visitor.old visitor.new
        (sent_along steps.now (flat_map (items_in_value nulls) (values_in lists.entry)))) }
{
    let ColumnSlice { array, start, stop } = lists;
    let mut i = start;
    while i < stop {
        let end = array.first_null(i, stop);
        let full = ColumnSlice {
            array,
            start: i,
            stop: end,
        };
        if let Some(items) = items(full) {
            take_along(visitor, items, steps)?;
        }
        i = end;
        if i < stop {
            take_nulls_along(visitor, nulls, steps)?;
            i += 1;
        }
    }
    Ok(())
}

/// Takes what field k of structs sends along the steps: the slots of its child, or a null under
/// a null (Columnar Format, "Struct Layout").
#[cycle(sent)]
fn take_field<V: SlotVisitor>(
    visitor: &mut V,
    structs: ColumnSlice<'_>,
    k: usize,
    steps: &ChildPath<'_>,
) -> Result<(), V::Fault>
    requires structs { IsStruct structs.array.now }
    requires slots { IsSlice structs }
    requires down { LeadFrom (type_of_field structs.array.now.data_type.children k) steps.now }
    requires room { AllByRecursion (V.has_room visitor.old)
        (sent_along steps.now (map (field_value k) (values_in structs))) }
    ensures { OnOk result (V.takes visitor.old visitor.new
        (sent_along steps.now (map (field_value k) (values_in structs.entry)))) }
{
    let ColumnSlice { array, start, stop } = structs;
    let Some(children) = array.fields() else {
        return Ok(());
    };
    let child = &children[k];
    let mut i = start;
    while i < stop {
        let end = array.first_null(i, stop);
        let full = ColumnSlice {
            array: child,
            start: i,
            stop: end,
        };
        take_along(visitor, full, steps)?;
        i = end;
        if i < stop {
            take_null_along(visitor, steps)?;
            i += 1;
        }
    }
    Ok(())
}
