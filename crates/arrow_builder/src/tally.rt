//! How many slots and bytes of data the columns of a field have, and would have with one more
//! value.
//!
//! What a value adds is counted on every level before it is put anywhere, without allocating.

ghost use Rattle.std.specs.Prelude.{◌≡◌, ◌≤◌, ◌*◌, ◌↔◌, ◌∷◌, [], false, ℕ, replicate, IfOk, IsTrue};
ghost use Rattle.arrow_layout.specs.PlainValue.{null_value};
ghost use Rattle.arrow_layout.specs.Value.{value_view, values_view};
ghost use Rattle.arrow_layout.specs.declared.form.Form.{Form};
ghost use Rattle.arrow_builder.specs.Built.{given_items, sized_items};
ghost use Rattle.arrow_builder.specs.Columns.{all_items, child_column};
ghost use Rattle.arrow_builder.specs.Tally.{Adds, AddsBelow, AllSettle, AreCounted, Grows};
ghost use Rattle.arrow_builder.specs.Tally.{IsCounted, Settles};
ghost use Rattle.arrow_builder.specs.Within.{most_after, most_bytes, slot_bytes, value_bytes};
ghost use Rattle.arrow_types.specs.View.{field_view, fields_view};

use crate::node::{items_in, null, part_of};
use arrow_layout::form::{Form, ListForm, OffsetWidth, node_form};
use arrow_layout::{MOST_SLOTS, Value};
use arrow_types::Field;
use std::alloc::{AllocError, Global};

/// How many slots a column has, and how many bytes of data.
#[derive(Clone, Copy)]
pub(crate) struct Total {
    slots: usize,
    bytes: u64,
}

/// The totals of a column and of those below it: what is held, and what will be held with the value
/// at hand. A field below a dictionary-encoded one has no slots.
#[derive(Drop)]
pub(crate) struct Tally {
    form: Form,
    held: Total,
    next: Total,
    below: Vec<Tally>,
}

/// A value in a column of the form, and null, which is used in place of the parts that the value
/// does not have.
#[derive(Clone, Copy)]
struct Given<'a> {
    form: Form,
    value: &'a Value,
    null: &'a Value,
}

/// The most bytes of data of a column, unless its offsets set a lower limit.
const MOST_BYTES: u64 = 1_099_511_627_776;

/// The tally of a field's column without values.
#[cycle(nothing)]
pub(crate) fn nothing(alloc: Global, field: &Field) -> Result<Tally, AllocError>
    ensures { IfOk result (λ t. IsCounted false (field_view field.now) [] t) }
{
    let below = nothing_below(alloc, field.children())?;
    let form = node_form(&field.data_type, field.dictionary);
    let none = Total { slots: 0, bytes: 0 };
    Ok(Tally {
        form,
        held: none,
        next: none,
        below,
    })
}

/// The tallies of the columns of some fields, without values.
#[cycle(nothing)]
fn nothing_below(alloc: Global, fields: &[Field]) -> Result<Vec<Tally>, AllocError>
    ensures { IfOk result
        (λ v. (form : Form) (k : ℕ) → AreCounted false form (fields_view fields.now) k [] v.items) }
{
    let mut tallies = Vec::with_capacity(alloc, fields.len())?;
    for field in fields {
        tallies.push(nothing(alloc, field)?)?;
    }
    Ok(tallies)
}

/// Makes the totals with the value at hand the held ones, if `next`; else makes the held totals
/// those with the value at hand.
#[cycle(settle)]
pub(crate) fn settle(tally: &mut Tally, next: bool)
    ensures { Settles next tally.old tally.new }
{
    let total = if next { tally.next } else { tally.held };
    tally.held = total;
    tally.next = total;
    settle_all(&mut tally.below, next);
}

/// The same for some tallies.
#[cycle(settle)]
fn settle_all(tallies: &mut [Tally], next: bool)
    ensures { AllSettle next tallies.old tallies.new }
{
    for k in 0..tallies.len() {
        settle(&mut tallies[k], next);
    }
}

/// Counts a value after the others, in every column that it reaches. Returns whether no column
/// exceeds a limit with it; if one does, the value is not counted to the end. The held totals are
/// unchanged.
#[cycle(add)]
pub(crate) fn add(tally: &mut Tally, value: &Value) -> bool
    ensures { Adds (value_view value.now ∷ []) tally.old tally.new result }
{
    let Some(total) = grown(tally.next, tally.form, value) else {
        return false;
    };
    tally.next = total;
    let null = null();
    let given = Given {
        form: tally.form,
        value,
        null: &null,
    };
    add_below(&mut tally.below, given)
}

/// Counts what the value contributes to each child of its column.
#[cycle(add)]
fn add_below(tallies: &mut [Tally], given: Given<'_>) -> bool
    requires { value_view given.null.now ≡ null_value }
    ensures { AddsBelow given.entry.form (value_view given.entry.value.now ∷ [])
        tallies.old tallies.new result }
{
    for k in 0..tallies.len() {
        if !add_child(&mut tallies[k], k, given) {
            return false;
        }
    }
    true
}

/// Counts what the value contributes to child `k`: a list its items, or nulls in place of them, a
/// struct its part.
#[cycle(add)]
fn add_child(tally: &mut Tally, k: usize, given: Given<'_>) -> bool
    requires { value_view given.null.now ≡ null_value }
    ensures { Adds (child_column given.entry.form k (value_view given.entry.value.now ∷ []))
        tally.old tally.new result }
{
    match given.form {
        Form::Lists(list) => add_items(tally, list, given.value),
        Form::Structs => add(tally, part_of(given.value, given.null, k)),
        _ => true,
    }
}

/// Counts what the value contributes to the child of a column of lists.
#[cycle(add)]
fn add_items(tally: &mut Tally, list: ListForm, value: &Value) -> bool
    ensures { Adds (given_items list (value_view value.now)) tally.old tally.new result }
{
    match list {
        ListForm::Offsets(_) => add_all(tally, items_in(value)),
        ListForm::Fixed(size) => add_sized(tally, size, value),
    }
}

/// Counts the items of a list, or `size` nulls.
#[cycle(add)]
fn add_sized(tally: &mut Tally, size: u32, value: &Value) -> bool
    ensures { Adds (sized_items size (value_view value.now)) tally.old tally.new result }
{
    match value {
        Value::List(items) => add_all(tally, items),
        _ => add_nulls(tally, size as usize),
    }
}

/// Counts `count` nulls at once, in every column that they reach.
#[cycle(nulls)]
fn add_nulls(tally: &mut Tally, count: usize) -> bool
    ensures { Adds (replicate count null_value) tally.old tally.new result }
{
    let Some(total) = grown_by_nulls(tally.next, tally.form, count) else {
        return false;
    };
    tally.next = total;
    nulls_below(&mut tally.below, tally.form, count)
}

/// Counts what `count` nulls of a column of the form contribute to each of its children.
#[cycle(nulls)]
fn nulls_below(tallies: &mut [Tally], form: Form, count: usize) -> bool
    ensures { AddsBelow form (replicate count null_value) tallies.old tallies.new result }
{
    for k in 0..tallies.len() {
        if !nulls_child(&mut tallies[k], form, count) {
            return false;
        }
    }
    true
}

/// Counts what they contribute to one child: for structs as many nulls.
#[cycle(nulls)]
fn nulls_child(tally: &mut Tally, form: Form, count: usize) -> bool
    ensures { (k : ℕ) → Adds (child_column form k (replicate count null_value))
        tally.old tally.new result }
{
    match form {
        Form::Lists(list) => nulls_items(tally, list, count),
        Form::Structs => add_nulls(tally, count),
        _ => true,
    }
}

/// Counts what they contribute to the child of a column of lists: nothing if offsets are stored, and
/// in fixed-size lists `size` nulls for each.
#[cycle(nulls)]
fn nulls_items(tally: &mut Tally, list: ListForm, count: usize) -> bool
    ensures { Adds (all_items list (replicate count null_value)) tally.old tally.new result }
{
    match list {
        ListForm::Offsets(_) => true,
        ListForm::Fixed(size) => nulls_times(tally, count, size),
    }
}

/// Counts `count * size` nulls.
#[cycle(nulls)]
fn nulls_times(tally: &mut Tally, count: usize, size: u32) -> bool
    ensures { Adds (replicate (count * size) null_value) tally.old tally.new result }
{
    match count.checked_mul(size as usize) {
        Some(product) => add_nulls(tally, product),
        None => false,
    }
}

/// Counts the values one after another.
#[cycle(add)]
fn add_all(tally: &mut Tally, values: &[Value]) -> bool
    ensures { Adds (values_view values.now) tally.old tally.new result }
{
    for value in values {
        if !add(tally, value) {
            return false;
        }
    }
    true
}

/// The total with one more slot, if the column exceeds no limit with it.
fn grown(total: Total, form: Form, value: &Value) -> Option<Total>
    ensures { Grows form (value_view value.now ∷ []) total result }
{
    let slots = total.slots.checked_add(1)?;
    let (more, most) = bytes_and_most(form, value);
    let bytes = total.bytes.checked_add(more)?;
    if !is_short(slots, bytes, most) {
        return None;
    }
    Some(Total { slots, bytes })
}

/// The total with `count` more nulls, if the column exceeds no limit with them.
fn grown_by_nulls(total: Total, form: Form, count: usize) -> Option<Total>
    ensures { Grows form (replicate count null_value) total result }
{
    let slots = total.slots.saturating_add(count);
    let (more, most) = null_bytes_and_most(form);
    let bytes = total
        .bytes
        .saturating_add(more.saturating_mul(count as u64));
    if !is_short(slots, bytes, most) {
        return None;
    }
    Some(Total { slots, bytes })
}

/// How many bytes of data a null takes in a column of the form, and the most that the column can
/// have.
fn null_bytes_and_most(form: Form) -> (u64, u64)
    ensures slot { result.0 ≡ slot_bytes form null_value }
    ensures most { result.1 ≡ most_bytes form }
{
    let null = null();
    bytes_and_most(form, &null)
}

/// Whether a column may have `slots` slots, and `bytes` bytes of data if it can have at most `most`.
fn is_short(slots: usize, bytes: u64, most: u64) -> bool
    ensures { IsTrue result ↔ (slots ≤ 2147483647) × (bytes ≤ most) }
{
    slots <= MOST_SLOTS && bytes <= most
}

/// How many bytes of data the value takes in a column of the form, and the most that the column can
/// have.
fn bytes_and_most(form: Form, value: &Value) -> (u64, u64)
    ensures slot { result.0 ≡ slot_bytes form (value_view value.now) }
    ensures most { result.1 ≡ most_bytes form }
{
    match form {
        Form::Bytes(width) | Form::Texts(width) => (value_bytes(value), most_after(width)),
        Form::FixedBytes(width) => (u64::from(width), MOST_BYTES),
        _ => (0, 0),
    }
}

/// How many bytes a byte string or a text has, and 0 for any other value.
fn value_bytes(value: &Value) -> u64
    ensures { result ≡ value_bytes (value_view value.now) }
{
    match value {
        Value::Bytes(bytes) => bytes.len() as u64,
        Value::Text(text) => text.len() as u64,
        _ => 0,
    }
}

/// The most bytes of data that offsets of a width can address.
fn most_after(width: OffsetWidth) -> u64
    ensures { result ≡ most_after width }
{
    match width {
        OffsetWidth::Small => width.greatest(),
        OffsetWidth::Large => MOST_BYTES,
    }
}
