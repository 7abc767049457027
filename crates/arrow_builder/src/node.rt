//! The tree of the columns being built: a node for each field that is not below a
//! dictionary-encoded one.

ghost use Rattle.std.specs.Prelude.{◌≡◌, ◌≤◌, ◌<◌, ℕ, length, map, replicate, take, OnErr, OnOk};
ghost use Rattle.std.specs.List.{AllByRecursion};
ghost use Rattle.arrow_layout.specs.Fits.{Fits};
ghost use Rattle.arrow_layout.specs.PlainValue.{field_value, is_null_value, nth_value, null_value};
ghost use Rattle.arrow_layout.specs.PlainValue.{values_of};
ghost use Rattle.arrow_layout.specs.Value.{value_view, values_view};
ghost use Rattle.arrow_layout.specs.declared.form.Form.TheVariants as forms;
ghost use Rattle.arrow_layout.specs.declared.form.ListForm.TheVariants as lists;
ghost use Rattle.arrow_builder.specs.Buffers.{IsLeaf};
ghost use Rattle.arrow_builder.specs.Built.{cut_to, fields_in, items_of, with_parts, with_value};
ghost use Rattle.arrow_builder.specs.Built.{HaveSlots, sized_items, with_values};
ghost use Rattle.arrow_builder.specs.Columns.{child_column};
ghost use Rattle.arrow_builder.specs.Fields.{FitsField, field_form};

use crate::leaf::put_leaf;
use crate::slots::{SlotBuffers, SlotEnd, place_at, put_range, sized_place};
use arrow_bits::put_bit;
use arrow_layout::form::{Form, ListForm, OffsetWidth, node_form};
use arrow_layout::{MOST_SLOTS, Value};
use arrow_types::Field;
use std::alloc::AllocError;
use std::marker::Model;

/// A growing column, with the columns of its children.
///
/// A child may hold more slots than its parent covers: what a failed push left there is cut off
/// before the next value is put.
#[derive(Drop)]
pub(crate) struct Node {
    pub(crate) field: Field,
    pub(crate) len: usize,
    pub(crate) buffers: SlotBuffers,
    pub(crate) children: Vec<Node>,
}

impl Model for Node {
    ghost use Rattle.arrow_builder.specs.Built.{Built, built_code, built_size};

    ghost Value = { Built };

    ghost coded = { built_code };

    ghost use Rattle.arrow_builder.specs.Nodes.{built_of, IsNode};

    ghost view = { built_of };

    ghost invariant = { IsNode };

    ghost size = { built_size };

    ghost use Rattle.arrow_types.specs.View.{field_view};
    ghost use Rattle.std.proofs.Common.{arith};
    ghost use Rattle.arrow_builder.specs.Below.{depth_le};

    ghost size_decreases = { λ a h. omega (
      arith,
      depth_le (field_view a.field).head.encoding
          (field_view a.field).children a.children.items h.below,
    ) };
}

impl Node {
    /// How many slots there are.
    pub(crate) fn len(&self) -> usize
        ensures { result ≡ length self.now.raw }
    {
        self.len
    }

    /// The form of the slots.
    fn form(&self) -> Form
        ensures { result ≡ field_form self.now.field }
    {
        node_form(&self.field.data_type, self.field.dictionary)
    }

    /// Keeps only the first `at` slots.
    pub(crate) fn cut(&mut self, at: usize)
        requires { at ≤ length self.old.raw }
        ensures { self.new ≡ cut_to at self.old }
    {
        self.len = at;
    }

    /// How many slots of each child the first `len` slots cover: the items of that many lists, or
    /// as many slots as there are structs.
    pub(crate) fn shown(&self, len: usize) -> usize
        requires { len ≤ length self.now.raw }
        ensures { (k : ℕ) → result
            ≡ length (child_column (field_form self.now.field) k (take len self.now.raw)) }
    {
        match self.form() {
            Form::Lists(ListForm::Offsets(width)) => place_at(width, &self.buffers.values, len),
            Form::Lists(ListForm::Fixed(size)) => sized_place(size, len),
            Form::Structs => len,
            _ => 0,
        }
    }

    /// Puts a value that fits after the others of a node without children.
    fn push_leaf(&mut self, form: Form, value: &Value) -> Result<(), AllocError>
        requires few { length self.old.raw < 2147483647 }
        requires form { form ≡ field_form self.old.field }
        requires leaf { IsLeaf form }
        requires fits { FitsField self.old.field (value_view value.now) }
        ensures ok { OnOk result (self.new ≡ with_value self.old (value_view value.now)) }
        ensures err { OnErr result (self.new ≡ self.old) }
    {
        put_leaf(&mut self.buffers, form, self.len, value)?;
        self.len += 1;
        Ok(())
    }
}

/// Puts a value that fits after the others. After an error, which means that an allocation failed
/// or a node would have too many slots or bytes, the values are unchanged.
#[cycle(push)]
pub(crate) fn push_value(node: &mut Node, value: &Value) -> Result<(), AllocError>
    requires { FitsField node.old.field (value_view value.now) }
    ensures ok { OnOk result (node.new ≡ with_value node.old (value_view value.now)) }
    ensures err { OnErr result (node.new ≡ node.old) }
{
    if node.len() >= MOST_SLOTS {
        return Err(AllocError);
    }
    match node.form() {
        Form::Lists(ListForm::Offsets(width)) => push_list(node, width, value),
        Form::Lists(ListForm::Fixed(size)) => push_sized(node, size, value),
        Form::Structs => push_struct(node, value),
        form => node.push_leaf(form, value),
    }
}

/// Puts a list, or null: its items after those of the other lists, which end at the last offset.
#[cycle(push)]
fn push_list(node: &mut Node, width: OffsetWidth, value: &Value) -> Result<(), AllocError>
    requires few { length node.old.raw < 2147483647 }
    requires form { field_form node.old.field ≡ forms.Lists (lists.Offsets width) }
    requires fits { FitsField node.old.field (value_view value.now) }
    ensures ok { OnOk result (node.new ≡ with_value node.old (value_view value.now)) }
    ensures err { OnErr result (node.new ≡ node.old) }
{
    let len = node.len;
    let start = place_at(width, &node.buffers.values, len);
    push_items(&mut node.children[0], start, items_in(value))?;
    let end = node.children[0].len();
    let slot = SlotEnd {
        end,
        valid: !is_null(value),
    };
    put_range(&mut node.buffers, width, len, slot)?;
    node.len = len + 1;
    Ok(())
}

/// Puts the values after the first `start` ones.
#[cycle(push)]
fn push_items(node: &mut Node, start: usize, items: &[Value]) -> Result<(), AllocError>
    requires inside { start ≤ length node.old.raw }
    requires fits { AllByRecursion (FitsField node.old.field) (values_view items.now) }
    ensures ok { OnOk result
        (node.new ≡ with_values (cut_to start node.old) (values_view items.now)) }
    ensures err { OnErr result (cut_to start node.new ≡ cut_to start node.old) }
    ensures long { OnErr result (start ≤ length node.new.raw) }
{
    node.cut(start);
    for item in items {
        push_value(node, item)?;
    }
    Ok(())
}

/// Puts a list of `size` items, or null.
#[cycle(push)]
fn push_sized(node: &mut Node, size: u32, value: &Value) -> Result<(), AllocError>
    requires few { length node.old.raw < 2147483647 }
    requires form { field_form node.old.field ≡ forms.Lists (lists.Fixed size) }
    requires fits { FitsField node.old.field (value_view value.now) }
    ensures ok { OnOk result (node.new ≡ with_value node.old (value_view value.now)) }
    ensures err { OnErr result (node.new ≡ node.old) }
{
    let null = null();
    push_run(node, size, value, &null)
}

/// Puts a list of `size` items, or null: the items, or `size` nulls, after those of the other lists
/// (Columnar Format, "Fixed-Size List Layout").
#[cycle(push)]
fn push_run(node: &mut Node, size: u32, value: &Value, null: &Value) -> Result<(), AllocError>
    requires few { length node.old.raw < 2147483647 }
    requires form { field_form node.old.field ≡ forms.Lists (lists.Fixed size) }
    requires fits { FitsField node.old.field (value_view value.now) }
    requires null { value_view null.now ≡ null_value }
    ensures ok { OnOk result (node.new ≡ with_value node.old (value_view value.now)) }
    ensures err { OnErr result (node.new ≡ node.old) }
{
    let len = node.len;
    let start = sized_place(size, len);
    push_slots(&mut node.children[0], start, size, value, null)?;
    put_bit(&mut node.buffers.validity, len, !is_null(value))?;
    node.len = len + 1;
    Ok(())
}

/// Puts the items of a list, or `size` nulls, after the first `start` values.
#[cycle(push)]
fn push_slots(
    node: &mut Node,
    start: usize,
    size: u32,
    value: &Value,
    null: &Value,
) -> Result<(), AllocError>
    requires inside { start ≤ length node.old.raw }
    requires fits { AllByRecursion (FitsField node.old.field)
        (sized_items size (value_view value.now)) }
    requires null { value_view null.now ≡ null_value }
    ensures ok { OnOk result (node.new
        ≡ with_values (cut_to start node.old) (sized_items size (value_view value.now))) }
    ensures err { OnErr result (cut_to start node.new ≡ cut_to start node.old) }
    ensures long { OnErr result (start ≤ length node.new.raw) }
{
    match value {
        Value::List(items) => push_items(node, start, items),
        _ => push_nulls(node, start, size, null),
    }
}

/// Puts `count` nulls after the first `start` values.
#[cycle(push)]
fn push_nulls(node: &mut Node, start: usize, count: u32, null: &Value) -> Result<(), AllocError>
    requires inside { start ≤ length node.old.raw }
    requires null { value_view null.now ≡ null_value }
    ensures ok { OnOk result
        (node.new ≡ with_values (cut_to start node.old) (replicate count null_value)) }
    ensures err { OnErr result (cut_to start node.new ≡ cut_to start node.old) }
    ensures long { OnErr result (start ≤ length node.new.raw) }
{
    node.cut(start);
    for _i in 0..count {
        push_value(node, null)?;
    }
    Ok(())
}

/// Puts a struct, or null.
#[cycle(push)]
fn push_struct(node: &mut Node, value: &Value) -> Result<(), AllocError>
    requires few { length node.old.raw < 2147483647 }
    requires form { field_form node.old.field ≡ forms.Structs }
    requires fits { FitsField node.old.field (value_view value.now) }
    ensures ok { OnOk result (node.new ≡ with_value node.old (value_view value.now)) }
    ensures err { OnErr result (node.new ≡ node.old) }
{
    let null = null();
    push_row(node, value, &null)
}

/// Puts a struct, or null: its parts, or nulls, into the slot of the same index of each child.
#[cycle(push)]
fn push_row(node: &mut Node, value: &Value, null: &Value) -> Result<(), AllocError>
    requires few { length node.old.raw < 2147483647 }
    requires form { field_form node.old.field ≡ forms.Structs }
    requires fits { FitsField node.old.field (value_view value.now) }
    requires null { value_view null.now ≡ null_value }
    ensures ok { OnOk result (node.new ≡ with_value node.old (value_view value.now)) }
    ensures err { OnErr result (node.new ≡ node.old) }
{
    let len = node.len;
    push_parts(&mut node.children, len, value, null)?;
    put_bit(&mut node.buffers.validity, len, !is_null(value))?;
    node.len = len + 1;
    Ok(())
}

/// Puts into slot `at` of each node its part of the struct, or null.
#[cycle(push)]
fn push_parts(nodes: &mut [Node], at: usize, value: &Value, null: &Value) -> Result<(), AllocError>
    requires there { HaveSlots at nodes.old }
    requires fits { Fits forms.Structs (fields_in nodes.old) (value_view value.now) }
    requires null { value_view null.now ≡ null_value }
    ensures ok { OnOk result (nodes.new ≡ with_parts 0 at nodes.old (value_view value.now)) }
    ensures err { OnErr result (map (cut_to at) nodes.new ≡ map (cut_to at) nodes.old) }
    ensures long { OnErr result (HaveSlots at nodes.new) }
{
    for k in 0..nodes.len() {
        push_at(&mut nodes[k], at, part_of(value, null, k))?;
    }
    Ok(())
}

/// Puts a value after the first `at` ones.
#[cycle(push)]
fn push_at(node: &mut Node, at: usize, value: &Value) -> Result<(), AllocError>
    requires inside { at ≤ length node.old.raw }
    requires fits { FitsField node.old.field (value_view value.now) }
    ensures ok { OnOk result (node.new ≡ with_value (cut_to at node.old) (value_view value.now)) }
    ensures err { OnErr result (node.new ≡ cut_to at node.old) }
{
    node.cut(at);
    push_value(node, value)
}

/// The null value.
pub(crate) fn null() -> Value
    ensures { value_view result ≡ null_value }
{
    Value::Null
}

/// Whether the value is null.
fn is_null(value: &Value) -> bool
    ensures { result ≡ is_null_value (value_view value.now) }
{
    matches!(value, Value::Null)
}

/// The items of a list, none if it is null.
pub(crate) fn items_in(value: &Value) -> &[Value]
    ensures { values_of (values_view result.now) ≡ items_of (value_view value.now) }
{
    match value {
        Value::List(items) => items.as_slice(),
        _ => &[],
    }
}

/// The value of field `k`, null if the struct is null.
pub(crate) fn part_of<'a>(value: &'a Value, null: &'a Value, k: usize) -> &'a Value
    requires { value_view null.now ≡ null_value }
    ensures { value_view result.now ≡ field_value k (value_view value.now) }
{
    match value {
        Value::Struct(parts) => part_or(parts, null, k),
        _ => null,
    }
}

/// Part `k`, or null if there are fewer.
fn part_or<'a>(parts: &'a [Value], null: &'a Value, k: usize) -> &'a Value
    requires { value_view null.now ≡ null_value }
    ensures { value_view result.now ≡ nth_value k (values_of (values_view parts.now)) }
{
    if k < parts.len() { &parts[k] } else { null }
}
