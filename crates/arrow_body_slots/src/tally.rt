//! The counts of the slots that are sent to a node.

ghost use Rattle.std.specs.Prelude.{◌≡◌, ◌≤◌, ◌<◌, ◌+◌, ◌-◌, ◌*◌, List, IfSome, IsFalse, IsTrue};
ghost use Rattle.std.specs.Prelude.{count_by, length, not};
ghost use Rattle.std.specs.List.{sum_by};
ghost use Rattle.arrow_data.specs.Column.{values_from};
ghost use Rattle.arrow_layout.specs.PlainValue.{PlainValue};
ghost use Rattle.arrow_body_laws.specs.Raws.{bytes_in_value, last_item, last_offset};
ghost use Rattle.arrow_body_slots.specs.Marks.{AreMarked, AreNulls, IsBitRange, bits_in};
ghost use Rattle.arrow_body_slots.specs.Slice.{IsFull, IsSlice, values_in};
ghost use Rattle.arrow_body_slots.specs.Tally.{Counts, CountsNull, IsTally, capped};

use crate::bitmap::{bitmap, zeros};
use crate::offsets::{lists_between, strings_between};
use crate::packing::BitRange;
use crate::slice::{ColumnSlice, is_without_null};
use crate::slots::{items, strings};
use arrow_data::{Array, Buffers};
use arrow_layout::form::{Form, ListForm};

/// The number of slots, the number of nulls among them, and the end of their offsets. Each is capped
/// at the greatest number.
#[derive(Clone, Copy)]
pub struct ByteTally {
    pub slots: u64,
    pub nulls: u64,
    pub end: u64,
}

/// Whether a node of the form has offsets.
fn has_offsets(form: Form) -> bool
    ensures { IsFalse result → (vs : List PlainValue) → last_offset form vs ≡ 0 }
{
    matches!(
        form,
        Form::Bytes(_) | Form::Texts(_) | Form::Lists(ListForm::Offsets(_))
    )
}

/// How far the offsets of lists without nulls advance: 0 if none are stored.
fn list_stretch(list: ListForm, slice: ColumnSlice<'_>) -> usize
    requires slots { IsSlice slice }
    requires full { IsFull slice }
    ensures { result ≡ last_item list (values_in slice.entry) }
{
    match list {
        ListForm::Offsets(_) => match items(slice) {
            Some(items) => items.stop - items.start,
            None => 0,
        },
        ListForm::Fixed(_) => 0,
    }
}

/// How far the offsets of slots without nulls advance: 0 if the form has none.
fn stretch(form: Form, slice: ColumnSlice<'_>) -> usize
    requires slots { IsSlice slice }
    requires full { IsFull slice }
    ensures { result ≡ last_offset form (values_in slice.entry) }
{
    match form {
        Form::Bytes(_) => strings(slice).len(),
        Form::Texts(_) => strings(slice).len(),
        Form::Lists(list) => list_stretch(list, slice),
        _ => 0,
    }
}

/// How far the offsets of the byte strings or texts of a slice advance, if nothing lies under the
/// nulls of the slice. None also if there are no slots, or slots of another kind.
fn string_reach(slice: ColumnSlice<'_>) -> Option<usize>
    requires { IsSlice slice }
    ensures { IfSome result (λ len. len
        ≡ sum_by (λ v. length (bytes_in_value v)) (values_in slice.entry)) }
{
    let (spans, _) = strings_between(slice)?;
    Some(spans.len())
}

/// The same for the lists of a slice: 0 if no offsets are stored.
fn list_reach(list: ListForm, slice: ColumnSlice<'_>) -> Option<usize>
    requires { IsSlice slice }
    ensures { IfSome result (λ len. len ≡ last_item list (values_in slice.entry)) }
{
    match list {
        ListForm::Offsets(_) => {
            let spans = lists_between(slice)?;
            Some(spans.len())
        }
        ListForm::Fixed(_) => Some(0),
    }
}

/// The same for the slots of a node of the form: 0 if it has no offsets.
fn reach(form: Form, slice: ColumnSlice<'_>) -> Option<usize>
    requires { IsSlice slice }
    ensures { IfSome result (λ len. len ≡ last_offset form (values_in slice.entry)) }
{
    match form {
        Form::Bytes(_) => string_reach(slice),
        Form::Texts(_) => string_reach(slice),
        Form::Lists(list) => list_reach(list, slice),
        _ => Some(0),
    }
}

/// Whether it is a column of the Null layout, in which all is null.
fn is_of_nulls(array: &Array) -> bool
    ensures { IsTrue result → AreNulls array.now.raw }
{
    matches!(array.buffers(), Buffers::Nulls)
}

impl ByteTally {
    /// No slots.
    pub fn new() -> ByteTally
        ensures { result ≡ record { slots = 0; nulls = 0; end = 0 } }
    {
        ByteTally {
            slots: 0,
            nulls: 0,
            end: 0,
        }
    }

    /// Counts a null.
    pub fn add_null(&mut self)
        ensures { CountsNull self.old self.new }
    {
        self.slots = self.slots.saturating_add(1);
        self.nulls = self.nulls.saturating_add(1);
    }

    /// Counts slots of an array in which all is null.
    fn add_nulls(&mut self, form: Form, slice: ColumnSlice<'_>)
        requires slots { IsSlice slice }
        requires nulls { AreNulls slice.array.now.raw }
        ensures { Counts form (values_in slice.entry) self.old self.new }
    {
        let count = (slice.stop - slice.start) as u64;
        self.slots = self.slots.saturating_add(count);
        self.nulls = self.nulls.saturating_add(count);
    }

    /// Counts slots without nulls.
    fn add_full(&mut self, form: Form, slice: ColumnSlice<'_>)
        requires slots { IsSlice slice }
        requires full { IsFull slice }
        ensures { Counts form (values_in slice.entry) self.old self.new }
    {
        self.slots = self.slots.saturating_add((slice.stop - slice.start) as u64);
        self.end = self.end.saturating_add(stretch(form, slice) as u64);
    }

    /// Counts the slots up to the first null, including that one, and returns the index of the next
    /// one.
    fn add_run(&mut self, form: Form, slice: ColumnSlice<'_>) -> usize
        requires slots { IsSlice slice }
        requires some { slice.start < slice.stop }
        ensures more { slice.entry.start < result }
        ensures within { result ≤ slice.entry.stop }
        ensures counted { Counts form
            (values_from slice.entry.array.now.raw slice.entry.start result) self.old self.new }
    {
        let ColumnSlice { array, start, stop } = slice;
        let end = array.first_null(start, stop);
        let full = ColumnSlice {
            array,
            start,
            stop: end,
        };
        self.add_full(form, full);
        if end < stop {
            self.add_null();
            end + 1
        } else {
            end
        }
    }

    /// Counts the slots, run by run.
    fn add_runs(&mut self, form: Form, slice: ColumnSlice<'_>)
        requires { IsSlice slice }
        ensures { Counts form (values_in slice.entry) self.old self.new }
    {
        let ColumnSlice { array, start, stop } = slice;
        let mut i = start;
        while i < stop {
            let rest = ColumnSlice {
                array,
                start: i,
                stop,
            };
            i = self.add_run(form, rest);
        }
    }

    /// Counts slots by these bits; their offsets advance by `len`.
    fn add_marked(&mut self, bits: BitRange<'_>, len: usize)
        requires { IsBitRange bits }
        ensures slots { self.new.slots
            ≡ capped (self.old.slots + (bits.entry.stop - bits.entry.start)) }
        ensures nulls { self.new.nulls
            ≡ capped (self.old.nulls + count_by not (bits_in bits.entry)) }
        ensures end { self.new.end ≡ capped (self.old.end + len) }
    {
        self.slots = self.slots.saturating_add((bits.stop - bits.start) as u64);
        self.nulls = self.nulls.saturating_add(zeros(bits) as u64);
        self.end = self.end.saturating_add(len as u64);
    }

    /// Counts slots by their bits only, if a node of the form has no offsets; returns whether it
    /// did.
    pub fn add_masked(&mut self, form: Form, bits: BitRange<'_>) -> bool
        requires { IsBitRange bits }
        ensures counted { IsTrue result → (raw : List PlainValue)
            → AreMarked raw bits.entry.bytes.now → bits.entry.stop ≤ length raw
            → Counts form (values_from raw bits.entry.start bits.entry.stop) self.old self.new }
        ensures kept { IsFalse result → self.new ≡ self.old }
    {
        if has_offsets(form) {
            return false;
        }
        self.add_marked(bits, 0);
        true
    }

    /// Counts slots that have a bitmap: by its bits, if nothing lies under a null.
    fn add_beside(&mut self, form: Form, slice: ColumnSlice<'_>, bytes: &[u8])
        requires slots { IsSlice slice }
        requires bits { AreMarked slice.array.now.raw bytes.now }
        ensures { Counts form (values_in slice.entry) self.old self.new }
    {
        let ColumnSlice { start, stop, .. } = slice;
        match reach(form, slice) {
            Some(len) => self.add_marked(BitRange { bytes, start, stop }, len),
            None => self.add_runs(form, slice),
        }
    }

    /// Counts the slots.
    pub fn add_slots(&mut self, form: Form, slice: ColumnSlice<'_>)
        requires { IsSlice slice }
        ensures { Counts form (values_in slice.entry) self.old self.new }
    {
        if is_without_null(slice) {
            return self.add_full(form, slice);
        }
        match bitmap(slice.array) {
            Some(bits) => self.add_beside(form, slice, bits),
            None if is_of_nulls(slice.array) => self.add_nulls(form, slice),
            None => self.add_runs(form, slice),
        }
    }
}

/// The slots, counted; their node has this form.
pub fn counted(form: Form, slice: ColumnSlice<'_>) -> ByteTally
    requires { IsSlice slice }
    ensures { IsTally form (values_in slice.entry) result }
{
    let mut tally = ByteTally::new();
    tally.add_slots(form, slice);
    tally
}
