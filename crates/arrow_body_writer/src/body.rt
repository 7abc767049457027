//! The body of columns, written.

ghost use Rattle.std.specs.Prelude.{◌≡◌, ◌≤◌, ◌<◌, ℕ, Some, [], ◌∷◌, IfErr, IfOk, OnOk, length};
ghost use Rattle.std.specs.Prelude.{pos};
ghost use Rattle.arrow_data.specs.Column.{Column};
ghost use Rattle.arrow_layout.specs.Form.{node_form};
ghost use Rattle.arrow_data.specs.FullSlots.{AreFull};
ghost use Rattle.arrow_body_laws.specs.Laws.{IsBodyOf, raws_of};
ghost use Rattle.arrow_body_laws.specs.Canonical.{IsCanonical};
ghost use Rattle.arrow_body_laws.specs.Raws.{AreRaws, IsSmall};
ghost use Rattle.arrow_body_laws.specs.Stored.{fields_of_columns, own_chunks, own_node};
ghost use Rattle.arrow_body_laws.specs.Stored.{stored};
ghost use Rattle.std.specs.List.{AllByRecursion};
ghost use Rattle.std.specs.Vec.{vec_capacity};
ghost use Rattle.arrow_body_writer.specs.Align.{alignment_of};
ghost use Rattle.arrow_body_writer.specs.Counts.{IsCounted, sent_at};
ghost use Rattle.arrow_body_slots.specs.Part.{HasRoom, IsRepresentable, chunk_of};
ghost use Rattle.arrow_body_writer.specs.Sent.{form_of_column, nodes_of_column, visible_children};
ghost use Rattle.arrow_body_writer.specs.Source.{IsSource, column_in, rest_of};
ghost use Rattle.arrow_body_writer.specs.Storable.{AreRepresentable, CanBeStored};
ghost use Rattle.arrow_body_slots.specs.Tally.{IsTally};
ghost use Rattle.arrow_body_writer.specs.Storing.{IsEmpty, Stores, StoresColumns, body_view};
ghost use Rattle.arrow_body_writer.specs.declared.store_fault.BodyStoreFault.TheVariants.{TooLarge};

use crate::align::Align;
use crate::buffers::{put_buffer, put_padded};
use crate::counts::{NodeCounts, count_sent};
use crate::forms::{are_countable, nodes_in_all, nodes_in_rest};
use crate::measured::{body_size, rest_size};
use crate::sizes::is_small;
use crate::source::ColumnSource;
use crate::store_fault::BodyStoreFault;
use arrow_body_slots::{BufferKind, full_form, part_of};
use arrow_data::{Array, Dictionary};
use arrow_layout::form::Form;
use arrow_types::{Buffer, FieldNode};
use std::alloc::{AllocError, Global};
use std::mem;

/// The body of a batch, with its nodes and the positions of its buffers (Columnar Format,
/// "RecordBatch message").
#[derive(Drop)]
pub struct Body {
    /// A node for each field on each level, in pre-order.
    pub nodes: Vec<FieldNode>,
    /// The offset of each buffer in the bytes, and its length without padding.
    pub buffers: Vec<Buffer>,
    /// The bytes of the buffers, each padded to the alignment.
    pub bytes: Vec<u8>,
}

/// Appends a buffer of the node.
fn put_chunk(
    body: &mut Body,
    align: Align,
    part: BufferKind,
    node: &NodeCounts,
) -> Result<(), AllocError>
    requires counted { IsCounted node.now }
    requires room { AllByRecursion (HasRoom part) (sent_at node.now) }
    requires represented { IsRepresentable part (sent_at node.now) }
    ensures { OnOk result (Stores (alignment_of align) []
        (chunk_of part (sent_at node.now) ∷ []) body.old body.new) }
{
    let offset = body.bytes.len();
    let none = Vec::new(*body.bytes.allocator());
    let bytes = mem::replace(&mut body.bytes, none);
    let (bytes, len) = put_buffer(bytes, align, part, node)?;
    body.bytes = bytes;
    body.buffers.push(Buffer {
        offset: offset as i64,
        length: len as i64,
    })?;
    Ok(())
}

/// Appends the node of counted slots, and its buffers; the node has this form.
fn put_counted(
    body: &mut Body,
    align: Align,
    form: Form,
    node: &NodeCounts,
) -> Result<(), AllocError>
    requires source { IsSource node.now.source }
    requires form { form ≡ form_of_column (column_in node.now.source) }
    requires tally { IsTally form (sent_at node.now) node.now.tally }
    requires small { IsSmall form (sent_at node.now) }
    requires raws { AreRaws (fields_of_columns (column_in node.now.source ∷ []))
        (raws_of (column_in node.now.source ∷ [])) }
    ensures { OnOk result (Stores (alignment_of align) (own_node (sent_at node.now) ∷ [])
        (own_chunks form (sent_at node.now)) body.old body.new) }
{
    body.nodes.push(FieldNode {
        length: node.tally.slots as i64,
        null_count: node.tally.nulls as i64,
    })?;
    for k in 0..3 {
        if let Some(part) = part_of(form, k) {
            put_chunk(body, align, part, node)?;
        }
    }
    Ok(())
}

/// Appends the column's own node, and its buffers.
fn put_node(body: &mut Body, align: Align, source: &ColumnSource) -> Result<(), BodyStoreFault>
    requires source { IsSource source.now }
    requires raws { AreRaws (fields_of_columns (column_in source.now ∷ [])) (raws_of (column_in source.now ∷ [])) }
    ensures small { OnOk result (IsSmall (form_of_column (column_in source.now)) (column_in source.now).raw) }
    ensures stored { OnOk result (Stores (alignment_of align) (own_node (column_in source.now).raw ∷ [])
        (own_chunks (form_of_column (column_in source.now)) (column_in source.now).raw) body.old body.new) }
    ensures large { IfErr result (λ fault. fault ≡ TooLarge
        → IsSmall (form_of_column (column_in source.now)) (column_in source.now).raw → ⊥) }
{
    let form = source.form();
    let tally = count_sent(form, source);
    if !is_small(form, tally) {
        return Err(BodyStoreFault::TooLarge);
    }
    let counted = NodeCounts {
        source: *source,
        tally,
    };
    Ok(put_counted(body, align, form, &counted)?)
}

/// Appends a buffer with these bytes.
fn put_bytes(body: &mut Body, align: Align, bytes: &[u8]) -> Result<(), AllocError>
    ensures { OnOk result (Stores (alignment_of align) [] (bytes.now ∷ []) body.old body.new) }
{
    body.buffers.push(Buffer {
        offset: body.bytes.len() as i64,
        length: bytes.len() as i64,
    })?;
    put_padded(&mut body.bytes, align, bytes)
}

/// A node for the slots of an array without nulls.
fn full_node(array: &Array) -> FieldNode
    requires { length array.now.raw ≤ 2147483647 }
    ensures length { result.length ≡ pos (length array.now.raw) }
    ensures nulls { result.null_count ≡ pos 0 }
{
    FieldNode {
        length: array.len() as i64,
        null_count: 0,
    }
}

/// Appends the array's own node, of which no slot is null, and its validity buffer, for which no
/// bytes are sent (Columnar Format, "Validity bitmaps").
fn put_full(body: &mut Body, align: Align, array: &Array) -> Result<(), AllocError>
    requires full { AreFull array.now 0 (length array.now.raw) }
    requires few { length array.now.raw ≤ 2147483647 }
    ensures { OnOk result (Stores (alignment_of align) (own_node array.now.raw ∷ []) ([] ∷ [])
        body.old body.new) }
{
    body.nodes.push(full_node(array))?;
    put_bytes(body, align, &[])
}

/// Appends the array's own node, and its buffers. For structs and numbers without nulls, the
/// contents of the buffers are known at once.
fn put_own(body: &mut Body, align: Align, array: &Array) -> Result<(), BodyStoreFault>
    requires { AreRaws (fields_of_columns (array.now ∷ [])) (raws_of (array.now ∷ [])) }
    ensures small { OnOk result
        (IsSmall (node_form array.now.data_type.tag array.now.encoding) array.now.raw) }
    ensures stored { OnOk result (Stores (alignment_of align) (own_node array.now.raw ∷ [])
        (own_chunks (node_form array.now.data_type.tag array.now.encoding) array.now.raw)
        body.old body.new) }
    ensures large { IfErr result (λ fault. fault ≡ TooLarge
        → IsSmall (node_form array.now.data_type.tag array.now.encoding) array.now.raw → ⊥) }
{
    match full_form(array) {
        Some(Form::Structs) => Ok(put_full(body, align, array)?),
        Some(Form::Numbers(_)) => {
            put_full(body, align, array)?;
            Ok(put_bytes(body, align, array.value_bytes(0, array.len()))?)
        }
        Some(_) | None => put_node(body, align, &ColumnSource::Slots(array)),
    }
}

/// Appends the column's own node, and its buffers.
fn put_level(body: &mut Body, align: Align, source: &ColumnSource) -> Result<(), BodyStoreFault>
    requires source { IsSource source.now }
    requires raws { AreRaws (fields_of_columns (column_in source.now ∷ [])) (raws_of (column_in source.now ∷ [])) }
    ensures small { OnOk result (IsSmall (form_of_column (column_in source.now)) (column_in source.now).raw) }
    ensures stored { OnOk result (Stores (alignment_of align) (own_node (column_in source.now).raw ∷ [])
        (own_chunks (form_of_column (column_in source.now)) (column_in source.now).raw) body.old body.new) }
    ensures large { IfErr result (λ fault. fault ≡ TooLarge
        → IsSmall (form_of_column (column_in source.now)) (column_in source.now).raw → ⊥) }
{
    match source {
        ColumnSource::Slots(array) => put_own(body, align, array),
        _ => put_node(body, align, source),
    }
}

/// Appends all nodes of the column, and their buffers: its own node, followed by the columns that
/// are sent below it (Columnar Format, "RecordBatch message"). Fails if one of the nodes is not
/// representable.
#[cycle(put)]
fn put_column(body: &mut Body, align: Align, source: &ColumnSource) -> Result<(), BodyStoreFault>
    requires source { IsSource source.now }
    requires counted { nodes_of_column (column_in source.now) < 18446744073709551615 }
    requires raws { AreRaws (fields_of_columns (column_in source.now ∷ [])) (raws_of (column_in source.now ∷ [])) }
    ensures stored { OnOk result (StoresColumns (alignment_of align) (column_in source.now ∷ []) body.old body.new) }
    ensures large { IfErr result (λ fault. fault ≡ TooLarge → AreRepresentable (column_in source.now ∷ []) → ⊥) }
{
    put_level(body, align, source)?;
    match source.whole_below() {
        Some(children) => put_columns(body, align, children),
        None => put_below(body, align, source),
    }
}

/// Appends the columns of arrays.
#[cycle(put)]
fn put_columns(body: &mut Body, align: Align, arrays: &[Array]) -> Result<(), BodyStoreFault>
    requires counted { AllByRecursion (λ (c : Column). nodes_of_column c < 18446744073709551615) arrays.now }
    requires raws { AreRaws (fields_of_columns arrays.now) (raws_of arrays.now) }
    ensures stored { OnOk result (StoresColumns (alignment_of align) arrays.now body.old body.new) }
    ensures large { IfErr result (λ fault. fault ≡ TooLarge → AreRepresentable arrays.now → ⊥) }
{
    for array in arrays {
        put_column(body, align, &ColumnSource::Slots(array))?;
    }
    Ok(())
}

/// Appends the columns that are sent below a column's own node.
#[cycle(put)]
fn put_below(body: &mut Body, align: Align, source: &ColumnSource) -> Result<(), BodyStoreFault>
    requires source { IsSource source.now }
    requires counted { nodes_of_column (column_in source.now) < 18446744073709551615 }
    requires raws { AreRaws (fields_of_columns (column_in source.now ∷ [])) (raws_of (column_in source.now ∷ [])) }
    ensures stored { OnOk result (StoresColumns (alignment_of align) (visible_children (column_in source.now)) body.old body.new) }
    ensures large { IfErr result (λ fault. fault ≡ TooLarge → AreRepresentable (visible_children (column_in source.now)) → ⊥) }
{
    for k in 0..source.width() {
        put_column(body, align, &source.below(k))?;
    }
    Ok(())
}

impl Body {
    /// The body of no columns. It takes no memory.
    pub fn new(alloc: Global) -> Body
        ensures { IsEmpty result }
    {
        Body {
            nodes: Vec::new(alloc),
            buffers: Vec::new(alloc),
            bytes: Vec::new(alloc),
        }
    }

    /// Empties the body, and reserves room for `size` bytes, which takes at most one allocation.
    /// After `AllocError` it is empty too.
    pub fn make_room(&mut self, size: usize) -> Result<(), AllocError>
        ensures empty { IsEmpty self.new }
        ensures room { OnOk result (size ≤ vec_capacity self.new.bytes) }
    {
        self.empty();
        self.bytes.reserve_exact(size)
    }

    /// Empties the body, and keeps its room.
    fn empty(&mut self)
        ensures { IsEmpty self.new }
    {
        self.nodes.clear();
        self.buffers.clear();
        self.bytes.clear();
    }

    /// Empties the body, and reserves room for `nodes` nodes, and for as many buffers as these can
    /// have. After `AllocError` it is empty too.
    fn begin(&mut self, nodes: usize) -> Result<(), AllocError>
        ensures { IsEmpty self.new }
    {
        self.make_room(0)?;
        self.nodes.reserve_exact(nodes)?;
        self.buffers.reserve_exact(nodes.saturating_mul(3))
    }
}

/// The body of the columns, laid out again: each node has exactly the slots that are sent to it,
/// each buffer has no byte that no value needs and is padded with zero bytes to the alignment. It
/// contains no byte that was under a null. Nodes, buffers and bytes take one allocation each, and
/// the number of bytes is what `body_size` returns. Reading the body gives the raw values of the
/// columns, and it is canonical. `AllocError` if an allocation failed.
///
/// Condition: the columns can be stored, that is, `body_size` returns a number.
pub fn store(alloc: Global, arrays: &[Array], align: Align) -> Result<Body, AllocError>
    requires { CanBeStored (alignment_of align) arrays.now }
    ensures same { IfOk result (λ b. body_view b ≡ stored (alignment_of align)
        (fields_of_columns arrays.now) (raws_of arrays.now)) }
    ensures read { IfOk result (λ b. IsBodyOf (alignment_of align)
        (fields_of_columns arrays.now) (raws_of arrays.now) (body_view b)) }
    ensures canonical { IfOk result (λ b. IsCanonical (alignment_of align)
        (fields_of_columns arrays.now) b.nodes.items b.buffers.items b.bytes.items) }
{
    // A body that can be stored has a size.
    let size = body_size(arrays, align).unwrap_or(0);
    let mut body = Body::new(alloc);
    body.make_room(size as usize)?;
    match store_in(&mut body, arrays, align) {
        Ok(()) => Ok(body),
        Err(_) => Err(AllocError),
    }
}

/// Turns a body into that of `store`, reusing its room, in one walk over the columns. Nodes,
/// buffers and bytes are reallocated only if this room is too small for them. `TooLarge` only if
/// the columns are not representable, regardless of the greatest size of a body; `Memory` if an
/// allocation failed. After an error the body is empty.
pub fn store_in(body: &mut Body, arrays: &[Array], align: Align) -> Result<(), BodyStoreFault>
    ensures represented { OnOk result (AreRepresentable arrays.now) }
    ensures raws { OnOk result (AreRaws (fields_of_columns arrays.now) (raws_of arrays.now)) }
    ensures same { OnOk result (body_view body.new ≡ stored (alignment_of align)
        (fields_of_columns arrays.now) (raws_of arrays.now)) }
    ensures read { OnOk result (IsBodyOf (alignment_of align)
        (fields_of_columns arrays.now) (raws_of arrays.now) (body_view body.new)) }
    ensures canonical { OnOk result (IsCanonical (alignment_of align) (fields_of_columns arrays.now)
        body.new.nodes.items body.new.buffers.items body.new.bytes.items) }
    ensures large { IfErr result (λ fault. fault ≡ TooLarge → AreRepresentable arrays.now → ⊥) }
    ensures emptied { IfErr result (λ _. IsEmpty body.new) }
{
    if !are_countable(arrays) {
        body.empty();
        return Err(BodyStoreFault::TooLarge);
    }
    body.begin(nodes_in_all(arrays))?;
    match put_columns(body, align, arrays) {
        Ok(()) => Ok(()),
        Err(fault) => {
            body.empty();
            Err(fault)
        }
    }
}

/// The body of one column without an encoding whose slots hold the values of the dictionary from
/// value `from` on (`Message.fbs`, table `DictionaryBatch`), as `store` would lay it out; from an
/// index after the last value on there are none. The values come array by array, as they lie in the
/// dictionary. Nodes, buffers and bytes take one allocation each, and the number of bytes is what
/// `rest_size` returns. Reading the body gives these values, and it is canonical. `AllocError` if
/// an allocation failed.
///
/// Condition: the column can be stored, that is, `rest_size` returns a number.
pub fn store_rest(
    alloc: Global,
    dictionary: &Dictionary,
    from: usize,
    align: Align,
) -> Result<Body, AllocError>
    requires { CanBeStored (alignment_of align) (rest_of dictionary.now from ∷ []) }
    ensures same { IfOk result (λ b. body_view b ≡ stored (alignment_of align)
        (fields_of_columns (rest_of dictionary.now from ∷ []))
        (raws_of (rest_of dictionary.now from ∷ []))) }
    ensures read { IfOk result (λ b. IsBodyOf (alignment_of align)
        (fields_of_columns (rest_of dictionary.now from ∷ []))
        (raws_of (rest_of dictionary.now from ∷ [])) (body_view b)) }
    ensures canonical { IfOk result (λ b. IsCanonical (alignment_of align)
        (fields_of_columns (rest_of dictionary.now from ∷ []))
        b.nodes.items b.buffers.items b.bytes.items) }
{
    let size = rest_size(dictionary, from, align).unwrap_or(0);
    let mut body = Body::new(alloc);
    body.make_room(size as usize)?;
    match store_rest_in(&mut body, dictionary, from, align) {
        Ok(()) => Ok(body),
        Err(_) => Err(AllocError),
    }
}

/// Turns a body into that of `store_rest`, reusing its room, as `store_in` does, with the same
/// errors, after which the body is empty.
pub fn store_rest_in(
    body: &mut Body,
    dictionary: &Dictionary,
    from: usize,
    align: Align,
) -> Result<(), BodyStoreFault>
    ensures represented { OnOk result (AreRepresentable (rest_of dictionary.now from ∷ [])) }
    ensures raws { OnOk result (AreRaws (fields_of_columns (rest_of dictionary.now from ∷ []))
        (raws_of (rest_of dictionary.now from ∷ []))) }
    ensures same { OnOk result (body_view body.new ≡ stored (alignment_of align)
        (fields_of_columns (rest_of dictionary.now from ∷ []))
        (raws_of (rest_of dictionary.now from ∷ []))) }
    ensures read { OnOk result (IsBodyOf (alignment_of align)
        (fields_of_columns (rest_of dictionary.now from ∷ []))
        (raws_of (rest_of dictionary.now from ∷ [])) (body_view body.new)) }
    ensures canonical { OnOk result (IsCanonical (alignment_of align)
        (fields_of_columns (rest_of dictionary.now from ∷ []))
        body.new.nodes.items body.new.buffers.items body.new.bytes.items) }
    ensures large { IfErr result (λ fault. fault ≡ TooLarge
        → AreRepresentable (rest_of dictionary.now from ∷ []) → ⊥) }
    ensures emptied { IfErr result (λ _. IsEmpty body.new) }
{
    let nodes = nodes_in_rest(dictionary);
    if nodes == usize::MAX {
        body.empty();
        return Err(BodyStoreFault::TooLarge);
    }
    body.begin(nodes)?;
    match put_column(body, align, &ColumnSource::Rest(dictionary, from)) {
        Ok(()) => Ok(()),
        Err(fault) => {
            body.empty();
            Err(fault)
        }
    }
}
