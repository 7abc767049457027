//! Arrays made from the parts of a node: its buffers in a body, its children, its dictionary.

ghost use Rattle.std.specs.Prelude.{◌≡◌, ◌≤◌, IfOk, List, None, Some, length, map, false, [], ◌∷◌};
ghost use Rattle.std.specs.Prelude.{slice_index_or};
ghost use Rattle.std.specs.List.{AllByRecursion};
ghost use Rattle.arrow_types.specs.Field.{none};
ghost use Rattle.arrow_types.specs.Schema.{has_encoding};
ghost use Rattle.arrow_types.specs.View.{type_view};
ghost use Rattle.arrow_data.specs.Column.{AreOf, Column, IsColumn, IsValueList, counts_of};
ghost use Rattle.arrow_layout.specs.Form.{IsLeaf, form_of, list_buffers};
ghost use Rattle.arrow_layout.specs.Layout.{buffer_count, IsLaid, IsText, IsIndexed};
ghost use Rattle.arrow_layout.specs.ByteRanges.{bytes_of, IsInside};
ghost use Rattle.arrow_data.specs.Node.{column_by, AreRanges, IsFormat, list_range};
ghost use Rattle.arrow_layout.specs.declared.form.Form.TheVariants as forms;
ghost use Rattle.arrow_data.specs.Parts.{node_column, values_in, AreChildren, IsOfType};

use crate::array::{Array, Dictionary, Ranges};
use crate::buffers::{Bools, Fixed, Ints, Strings};
use arrow_layout::form::{Form, ListForm, NumberForm, OffsetWidth, form_of, has_own_fields};
use arrow_layout::{ByteRange, NodeBuffers, SharedType, hold_bytes};
use arrow_types::{DataType, Encoding, Field};
use std::alloc::{AllocError, Global};
use std::rc::Rc;

/// The arrays that a node refers to.
#[derive(Drop)]
pub struct ChildData {
    /// The arrays of its children, in their order.
    pub children: Vec<Array>,
    /// The dictionary of a dictionary-encoded node; None means the empty dictionary.
    pub dictionary: Option<Dictionary>,
}

impl Array {
    /// The array of one node: slots of the field's type, from its buffers, its children, and for a
    /// dictionary-encoded field its dictionary.
    ///
    /// The body is shared and nothing of it is copied; `AllocError` if another allocation failed.
    /// The caller knows that the buffers hold the slots, that texts are UTF-8 and that indices have
    /// their values; this is not tested.
    pub fn from_parts(
        alloc: Global,
        field: &Field,
        node: NodeBuffers<'_>,
        below: ChildData,
    ) -> Result<Array, AllocError>
        requires few { node.len ≤ 2147483647 }
        requires children { AreChildren (type_view field.now.data_type) field.now.dictionary
            below.children.items }
        requires dictionary { IsOfType (type_view field.now.data_type) below.dictionary }
        requires count { buffer_count (type_view field.now.data_type).tag field.now.dictionary
            ≤ length node.ranges.now }
        requires inside { AllByRecursion (IsInside node.body.now) node.ranges.now }
        requires layout { IsLaid (type_view field.now.data_type).tag field.now.dictionary
            node.len (map (bytes_of node.body.now) node.ranges.now) (counts_of
            below.children.items) }
        requires text { IsText (type_view field.now.data_type).tag field.now.dictionary
            node.len (map (bytes_of node.body.now) node.ranges.now) }
        requires index { IsIndexed field.now.dictionary
            node.len (map (bytes_of node.body.now) node.ranges.now) (values_in below.dictionary) }
        ensures { IfOk result
            (λ a. a ≡ node_column (type_view field.now.data_type) field.now.dictionary
            node.entry.len (map (bytes_of node.entry.body.now) node.entry.ranges.now)
            below.children.items (values_in below.dictionary)) }
    {
        let shared = SharedType::of(alloc, field)?;
        Array::from_shared_parts(alloc, &shared, node, below)
    }

    /// As `from_parts`, for a type that is not copied: the array shares it.
    #[inline(always)]
    pub fn from_shared_parts(
        alloc: Global,
        shared: &SharedType,
        node: NodeBuffers<'_>,
        below: ChildData,
    ) -> Result<Array, AllocError>
        requires few { node.len ≤ 2147483647 }
        requires children { AreChildren shared.now.data_type shared.now.encoding
            below.children.items }
        requires dictionary { IsOfType shared.now.data_type below.dictionary }
        requires count { buffer_count shared.now.data_type.tag shared.now.encoding
            ≤ length node.ranges.now }
        requires inside { AllByRecursion (IsInside node.body.now) node.ranges.now }
        requires layout { IsLaid shared.now.data_type.tag shared.now.encoding
            node.len (map (bytes_of node.body.now) node.ranges.now) (counts_of
            below.children.items) }
        requires text { IsText shared.now.data_type.tag shared.now.encoding
            node.len (map (bytes_of node.body.now) node.ranges.now) }
        requires index { IsIndexed shared.now.encoding
            node.len (map (bytes_of node.body.now) node.ranges.now) (values_in below.dictionary) }
        ensures { IfOk result (λ a. a ≡ node_column shared.now.data_type shared.now.encoding
            node.entry.len (map (bytes_of node.entry.body.now) node.entry.ranges.now)
            below.children.items (values_in below.dictionary)) }
    {
        let encoding = shared.encoding();
        let shared = shared.data_type();
        let data_type: &DataType = shared;
        match encoding {
            Some(encoding) => {
                let dictionary = Box::new(alloc, or_empty(alloc, data_type, below.dictionary)?)?;
                let index = encoding.index;
                let indices = numbers(NumberForm::of_index(index), node.ranges);
                let ranges = Ranges::Indices(indices, dictionary);
                of_ranges(shared, Some(encoding), node, ranges)
            }
            None => {
                let ranges = value_ranges(alloc, data_type, node, below.children)?;
                of_ranges(shared, None, node, ranges)
            }
        }
    }

    /// As `from_shared_parts`, for a type of this form that has no fields below it, and whose slots
    /// hold the values themselves: the node has no children and no dictionary.
    #[inline(always)]
    pub fn from_leaf_parts(
        shared: &SharedType,
        form: Form,
        node: NodeBuffers<'_>,
    ) -> Result<Array, AllocError>
        requires few { node.len ≤ 2147483647 }
        requires own { shared.now.encoding ≡ None }
        requires form { form ≡ form_of shared.now.data_type.tag }
        requires leaf { IsLeaf form }
        requires count { buffer_count shared.now.data_type.tag None ≤ length node.ranges.now }
        requires inside { AllByRecursion (IsInside node.body.now) node.ranges.now }
        requires layout { IsLaid shared.now.data_type.tag None
            node.len (map (bytes_of node.body.now) node.ranges.now) [] }
        requires text { IsText shared.now.data_type.tag None
            node.len (map (bytes_of node.body.now) node.ranges.now) }
        ensures { IfOk result (λ a. a ≡ node_column shared.now.data_type shared.now.encoding
            node.entry.len (map (bytes_of node.entry.body.now) node.entry.ranges.now) [] []) }
    {
        let shared = shared.data_type();
        let data_type: &DataType = shared;
        // Called for its guarantee about every type.
        has_own_fields(data_type);
        let ranges = leaf_ranges(data_type, form, node);
        of_ranges(shared, None, node, ranges)
    }
}

/// The array of these ranges.
#[inline(always)]
fn of_ranges(
    data_type: &Rc<DataType>,
    encoding: Option<Encoding>,
    node: NodeBuffers<'_>,
    ranges: Ranges,
) -> Result<Array, AllocError>
    requires few { node.len ≤ 2147483647 }
    requires lies { AreRanges node.len (type_view data_type.now.value) encoding node.body.now
        ranges }
    ensures { IfOk result (λ a. a ≡ column_by (type_view data_type.now.value) encoding
        node.entry.len node.entry.body.now ranges) }
{
    // Called for their guarantees about every slice of bytes and every type.
    hold_bytes(node.body.as_slice());
    has_own_fields(data_type);
    Ok(Array {
        data_type: data_type.clone()?,
        encoding,
        len: node.len,
        body: node.body.clone()?,
        ranges,
    })
}

/// The dictionary, or the empty one if there is none.
fn or_empty(
    alloc: Global,
    data_type: &DataType,
    dictionary: Option<Dictionary>,
) -> Result<Dictionary, AllocError>
    requires flat { has_encoding (type_view data_type.now).children ≡ false }
    requires typed { IsOfType (type_view data_type.now) dictionary }
    ensures same { IfOk result
        (λ d. d ≡ record { data_type = type_view data_type.now; values = values_in dictionary }) }
    ensures known { IfOk result IsValueList }
{
    let dictionary = match dictionary {
        Some(dictionary) => dictionary,
        None => Dictionary::empty(alloc, data_type.copy(alloc)?),
    };
    // Called for its guarantee about every dictionary.
    dictionary.data_type();
    Ok(dictionary)
}

/// The buffers of numbers of this form.
#[inline(always)]
fn numbers(form: NumberForm, buffers: &[ByteRange]) -> Ints
    requires { 2 ≤ length buffers.now }
    ensures format { IsFormat (forms.Numbers form) result }
    ensures validity { result.validity ≡ slice_index_or buffers.now 0 result.validity }
    ensures values { result.values ≡ slice_index_or buffers.now 1 result.values }
{
    Ints {
        width: form.width() as u32,
        signed: form.is_signed(),
        validity: buffers[0],
        values: buffers[1],
    }
}

/// The buffers of byte strings of this width.
#[inline(always)]
fn fixed(width: u32, buffers: &[ByteRange]) -> Fixed
    requires { 2 ≤ length buffers.now }
    ensures width { result.width ≡ width }
    ensures validity { result.validity ≡ slice_index_or buffers.now 0 result.validity }
    ensures values { result.values ≡ slice_index_or buffers.now 1 result.values }
{
    Fixed {
        width: width as usize,
        validity: buffers[0],
        values: buffers[1],
    }
}

/// The buffers of truth values.
#[inline(always)]
fn bools(buffers: &[ByteRange]) -> Bools
    requires { 2 ≤ length buffers.now }
    ensures validity { result.validity ≡ slice_index_or buffers.now 0 result.validity }
    ensures values { result.values ≡ slice_index_or buffers.now 1 result.values }
{
    Bools {
        validity: buffers[0],
        values: buffers[1],
    }
}

/// The buffers of texts or byte strings, given by offsets of this width.
#[inline(always)]
fn strings(width: OffsetWidth, buffers: &[ByteRange]) -> Strings
    requires { 3 ≤ length buffers.now }
    ensures width { result.width ≡ width }
    ensures validity { result.validity ≡ slice_index_or buffers.now 0 result.validity }
    ensures offsets { result.offsets ≡ slice_index_or buffers.now 1 result.offsets }
    ensures bytes { result.bytes ≡ slice_index_or buffers.now 2 result.bytes }
{
    Strings {
        width,
        validity: buffers[0],
        offsets: buffers[1],
        bytes: buffers[2],
    }
}

/// Where the offsets of lists lie: nowhere if no offsets are stored.
#[inline(always)]
fn list_range(form: ListForm, buffers: &[ByteRange]) -> ByteRange
    requires { list_buffers form ≤ length buffers.now }
    ensures { result ≡ list_range form buffers.now }
{
    match form {
        ListForm::Offsets(_) => buffers[1],
        ListForm::Fixed(_) => ByteRange { start: 0, end: 0 },
    }
}

/// The one array there is.
fn only(mut arrays: Vec<Array>) -> Array
    requires { length arrays.items ≡ 1 }
    ensures { arrays.items ≡ result ∷ [] }
{
    arrays.swap_remove(0)
}

/// The ranges of a node of values.
#[inline(always)]
fn value_ranges(
    alloc: Global,
    data_type: &DataType,
    node: NodeBuffers<'_>,
    children: Vec<Array>,
) -> Result<Ranges, AllocError>
    requires children { AreOf (type_view data_type.now).children children.items }
    requires count { buffer_count (type_view data_type.now).tag None ≤ length node.ranges.now }
    requires inside { AllByRecursion (IsInside node.body.now) node.ranges.now }
    requires layout { IsLaid (type_view data_type.now).tag None
        node.len (map (bytes_of node.body.now) node.ranges.now) (counts_of children.items) }
    requires text { IsText (type_view data_type.now).tag None
        node.len (map (bytes_of node.body.now) node.ranges.now) }
    ensures lies { IfOk result (λ r. AreRanges node.entry.len (type_view data_type.now) None
        node.entry.body.now r) }
    ensures same { IfOk result (λ r. column_by (type_view data_type.now) None node.entry.len
        node.entry.body.now r
        ≡ node_column (type_view data_type.now) None
        node.entry.len (map (bytes_of node.entry.body.now) node.entry.ranges.now) children.items
        []) }
{
    opened(&children);
    let form = form_of(data_type);
    match form {
        Form::Lists(list) => Ok(Ranges::Lists {
            form: list,
            validity: node.ranges[0],
            offsets: list_range(list, node.ranges),
            child: Box::new(alloc, only(children))?,
        }),
        Form::Structs => Ok(Ranges::Structs {
            validity: node.ranges[0],
            children,
        }),
        Form::Nulls
        | Form::Bits
        | Form::Numbers(_)
        | Form::Bytes(_)
        | Form::Texts(_)
        | Form::FixedBytes(_) => Ok(leaf_ranges(data_type, form, node)),
    }
}

/// The ranges of a node of values of this form that has no children. Nothing is allocated, and no
/// list or struct is made, so that where it is inlined the array is written directly to its final
/// memory.
#[inline(always)]
fn leaf_ranges(data_type: &DataType, form: Form, node: NodeBuffers<'_>) -> Ranges
    requires form { form ≡ form_of (type_view data_type.now).tag }
    requires leaf { IsLeaf form }
    requires bare { (type_view data_type.now).children ≡ none }
    requires count { buffer_count (type_view data_type.now).tag None ≤ length node.ranges.now }
    requires inside { AllByRecursion (IsInside node.body.now) node.ranges.now }
    requires layout { IsLaid (type_view data_type.now).tag None
        node.len (map (bytes_of node.body.now) node.ranges.now) [] }
    requires text { IsText (type_view data_type.now).tag None
        node.len (map (bytes_of node.body.now) node.ranges.now) }
    ensures lies { AreRanges node.entry.len (type_view data_type.now) None node.entry.body.now
        result }
    ensures same { (children : List Column) → AreOf (type_view data_type.now).children children
        → column_by (type_view data_type.now) None node.entry.len node.entry.body.now result
        ≡ node_column (type_view data_type.now) None
        node.entry.len (map (bytes_of node.entry.body.now) node.entry.ranges.now) children [] }
{
    match form {
        Form::Nulls => Ranges::Nulls,
        Form::Bits => Ranges::Bools(bools(node.ranges)),
        Form::Numbers(form) => Ranges::Ints(numbers(form, node.ranges)),
        Form::Bytes(width) => Ranges::Binaries(strings(width, node.ranges)),
        Form::Texts(width) => Ranges::Texts(strings(width, node.ranges)),
        Form::FixedBytes(width) => Ranges::FixedBytes(fixed(width, node.ranges)),
        Form::Lists(_) | Form::Structs => unreachable!(),
    }
}

/// Visits the arrays, so that what is known of each is known of all.
#[inline(always)]
fn opened(arrays: &[Array])
    ensures { AllByRecursion IsColumn arrays.now }
{
    for array in arrays {
        array.len();
    }
}
