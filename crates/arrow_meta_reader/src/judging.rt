//! The meaning of a tree, or its least fault.
ghost use Rattle.std.specs.Prelude.{◌≡◌, ◌∷◌, [], Some, IfErr, IfOk};
ghost use Rattle.arrow_meta_tree.specs.declared.codes.HeaderKind.TheVariants as headers;
ghost use Rattle.arrow_meta_tree.specs.declared.fault.MetaFault.TheVariants.{Compressed};
ghost use Rattle.arrow_meta_schema.specs.Conditions.{any, is_misfit};
ghost use Rattle.arrow_meta_reader.specs.Faults.{data_of, header_in, header_of, is_bad_length, version_in};
ghost use Rattle.arrow_meta_reader.specs.Faults.{header_conditions, is_compressed};
ghost use Rattle.arrow_meta_reader.specs.Faults.{is_unsupported_schema, least, shares_an_id};
ghost use Rattle.arrow_meta_reader.specs.Judges.{Clears, CountsFailed, CountsTree, Decodes};
ghost use Rattle.arrow_meta_reader.specs.Judges.{Judges, LengthFits};
ghost use Rattle.arrow_meta_tree.specs.Costs.{IsWorkWithin};
ghost use Rattle.arrow_meta_tree.specs.Parts.{nth, parts as parts_of};
ghost use Rattle.arrow_meta_schema.specs.SchemaMeaning.{fields_in, schema_fields};
ghost use Rattle.arrow_meta_tree.specs.Views.{plain, plain_all};
ghost use Rattle.arrow_types.specs.Schema.{dictionary_fields, is_nested, types_differ};

use crate::batches::batch_message;
use crate::message::{Message, MetadataVersion, RecordBatch};
use crate::to_schema::message;
use crate::versions::metadata_version;
use arrow_meta_schema::conditions::{Test, any, any_in};
use arrow_meta_schema::{is_nested, types_differ};
use arrow_meta_tree::codes::{HeaderKind, header_kind};
use arrow_meta_tree::parts::{has_table, into_parts, is_there_at, number_at, part};
use arrow_meta_tree::{BatchKind, DecodeCost, MessageTree, MetaFault, Tree, slots, tree_counted};
use arrow_types::Limits;
use std::alloc::Global;

/// The message with these bytes as its metadata, or the fault with the least number of those that
/// hold (Columnar Format, "Encapsulated message format"): the result of [`judge`] for the tree that
/// [`arrow_meta_tree::tree`] reads. A batch that has no fault is made straight from its tables.
///
/// The bytes are those between a message's size and its body. The message borrows none of them:
/// names, zones, keys and values are copied, once. After `Memory`, a failed allocation, all that is
/// known of the bytes is that reading them requests memory, and the call may be repeated: their
/// tree was not read, or it has no fault.
pub fn decode(alloc: Global, bytes: &[u8], limits: &Limits) -> Result<Message, MetaFault>
    ensures decoded { Decodes result limits.now bytes.now }
    ensures length { LengthFits result limits.now.max_body }
{
    let mut work = DecodeCost::NONE;
    decode_counted(alloc, bytes, limits, &mut work)
}

/// The result of [`decode`], for a caller that has read another batch before: a batch is put into
/// the memory of that one, if it is large enough, so that nothing is allocated.
pub fn decode_into(
    alloc: Global,
    bytes: &[u8],
    limits: &Limits,
    memory: RecordBatch,
) -> Result<Message, MetaFault>
    ensures decoded { Decodes result limits.now bytes.now }
    ensures length { LengthFits result limits.now.max_body }
{
    match batch_message(bytes, limits, memory) {
        Some(message) => Ok(message),
        None => decode(alloc, bytes, limits),
    }
}

/// The result of [`decode`], with the work that it took.
///
/// The work is first set to 0, whatever it was. Then it rises by one for each Field table and each
/// KeyValue table that is opened, in the one function that is called before each of them is opened,
/// and by the length of each name, zone, key or value, in the one that copies them: one that
/// several offsets point to counts each time. It never exceeds 65,536 fields, 65,536 pairs and
/// `max_metadata` bytes, whatever is returned. After a message it counts exactly what the tree has,
/// and so it does after a fault of a tree; after any other fault exactly what was opened and copied
/// up to where reading ended with it.
pub fn decode_counted(
    alloc: Global,
    bytes: &[u8],
    limits: &Limits,
    work: &mut DecodeCost,
) -> Result<Message, MetaFault>
    ensures decoded { Decodes result limits.now bytes.now }
    ensures length { LengthFits result limits.now.max_body }
    ensures within { IsWorkWithin limits.now work.new }
    ensures counted { IfOk result (λ _. CountsTree limits.now bytes.now work.new) }
    ensures ends { IfErr result (λ e. CountsFailed limits.now bytes.now e work.new) }
{
    *work = DecodeCost::NONE;
    match batch_message(bytes, limits, RecordBatch::new(alloc)) {
        Some(message) => Ok(message),
        None => judge(alloc, tree_counted(alloc, bytes, limits, work)?, limits),
    }
}

/// The message that the tree means, or the fault with the least number of those that hold of it
/// (`Message.fbs`, `Schema.fbs`).
///
/// The tree is consumed: its names, zones, keys and values move into the schema, and with a fault
/// it is dropped. Here `Metadata` means that a table which must be present is absent, and
/// `BodyLength` checks only `max_body`, since where the body ends in its stream is not known.
/// `Memory` is returned only if no fault holds, so the tree means a message; it is not returned for
/// a schema without fields and pairs, nor for a batch without field nodes and buffers. The time
/// grows as n log n with the number of fields; only if an allocation fails in the comparison of the
/// types of shared ids does it grow with the square of the number of dictionary-encoded fields.
pub fn judge(alloc: Global, tree: MessageTree, limits: &Limits) -> Result<Message, MetaFault>
    ensures judged { Judges result limits.now.max_body tree }
    ensures length { LengthFits result limits.now.max_body }
{
    let parts = into_parts(alloc, tree.into_root());
    let (version, kind) = cleared(alloc, &parts, limits.max_body())?;
    message(alloc, version, kind, parts)
}

/// The version and the kind of header of a message with these fields if it has no fault, else its
/// least fault. All faults are found before memory for a message is allocated.
fn cleared(
    alloc: Global,
    parts: &[Tree],
    max_body: u64,
) -> Result<(MetadataVersion, HeaderKind), MetaFault>
    ensures least { Clears result max_body (plain_all parts.now) }
{
    let body_len = number_at(parts, slots::message::BODY_LENGTH, 0);
    if any_in(Test::LacksTable, parts) {
        return Err(MetaFault::Metadata);
    }
    let Some(version) = version_in(parts) else {
        return Err(MetaFault::Version);
    };
    let Some(kind) = header_in(parts) else {
        return Err(MetaFault::Header);
    };
    if is_bad_length(max_body, body_len) {
        return Err(MetaFault::BodyLength);
    }
    match header_fault(alloc, kind, parts, body_len) {
        Some(fault) => Err(fault),
        None => Ok((version, kind)),
    }
}

/// The version, if it is one of those that are read.
fn version_in(parts: &[Tree]) -> Option<MetadataVersion>
    ensures version { result ≡ version_in (plain_all parts.now) }
{
    metadata_version(number_at(parts, slots::message::VERSION, 0))
}

/// The kind of the header: the one that the code names, if there is a table for it.
fn header_in(parts: &[Tree]) -> Option<HeaderKind>
    ensures kind { result ≡ header_in (plain_all parts.now) }
{
    if has_table(parts, slots::message::HEADER) {
        header_kind(number_at(parts, slots::message::HEADER_TYPE, 0))
    } else {
        None
    }
}

/// The least fault of the table of this header.
fn header_fault(alloc: Global, kind: HeaderKind, parts: &[Tree], body_len: u64) -> Option<MetaFault>
    ensures least { result
        ≡ least (header_conditions (Some kind) body_len (header_of (plain_all parts.now))) }
{
    match kind {
        HeaderKind::Schema => schema_fault(alloc, parts, body_len),
        HeaderKind::DictionaryBatch => {
            compression_fault(
                is_compressed_data(parts, slots::message::HEADER),
                BatchKind::Dictionary,
                body_len,
            )
        }
        HeaderKind::RecordBatch => {
            compression_fault(
                is_compressed_batch(parts, slots::message::HEADER),
                BatchKind::Record,
                body_len,
            )
        }
    }
}

/// The least fault of a schema.
fn schema_fault(alloc: Global, parts: &[Tree], body_len: u64) -> Option<MetaFault>
    ensures least { let x = header_of (plain_all parts.now) in
        result ≡ least (header_conditions (Some headers.Schema) body_len x) }
{
    if is_unsupported_at(parts, slots::message::HEADER) {
        return Some(MetaFault::Unsupported { body_len });
    }
    if is_misfit_at(parts, slots::message::HEADER)
        || shares_at(alloc, parts, slots::message::HEADER)
    {
        return Some(MetaFault::Schema { body_len });
    }
    None
}

/// The fault of a batch, if it is compressed.
fn compression_fault(is_compressed: bool, batch: BatchKind, body_len: u64) -> Option<MetaFault>
    ensures fault { result ≡ least ((is_compressed, Compressed batch body_len) ∷ []) }
{
    if is_compressed {
        Some(MetaFault::Compressed { batch, body_len })
    } else {
        None
    }
}

/// Whether the length is negative, as a signed number, or over the limit.
fn is_bad_length(max_body: u64, length: u64) -> bool
    ensures bad { result ≡ is_bad_length max_body length }
{
    length > 9_223_372_036_854_775_807 || length > max_body
}

/// Whether the Schema table in field `index` holds something unsupported.
fn is_unsupported_at(parts: &[Tree], index: u16) -> bool
    ensures unsupported { result ≡ is_unsupported_schema (nth index (plain_all parts.now)) }
{
    match part(parts, index) {
        Some(schema) => any(Test::Unsupported, schema) || is_nested_schema(schema),
        None => false,
    }
}

/// Whether a Schema table has a dictionary field below a dictionary field.
fn is_nested_schema(schema: &Tree) -> bool
    ensures nested { result ≡ is_nested (schema_fields (parts_of (plain schema.now))) }
{
    match schema {
        Tree::Leaf(_) => false,
        Tree::Table(_, parts) => is_nested_at(parts, slots::schema::FIELDS),
        Tree::Tables(_) => false,
    }
}

fn is_nested_at(parts: &[Tree], index: u16) -> bool
    ensures nested { result ≡ is_nested (fields_in (nth index (plain_all parts.now))) }
{
    match part(parts, index) {
        Some(fields) => is_nested(fields),
        None => false,
    }
}

/// Whether the Schema table in field `index` holds a misfit.
fn is_misfit_at(parts: &[Tree], index: u16) -> bool
    ensures misfit { result ≡ any is_misfit (nth index (plain_all parts.now)) }
{
    match part(parts, index) {
        Some(schema) => any(Test::Misfit, schema),
        None => false,
    }
}

/// Whether two fields of the Schema table in field `index` share a dictionary id and have unequal
/// value types.
fn shares_at(alloc: Global, parts: &[Tree], index: u16) -> bool
    ensures shares { result ≡ shares_an_id (nth index (plain_all parts.now)) }
{
    match part(parts, index) {
        Some(Tree::Table(_, schema)) => fields_differ_at(alloc, schema, slots::schema::FIELDS),
        Some(Tree::Leaf(_)) => false,
        Some(Tree::Tables(_)) => false,
        None => false,
    }
}

/// The same for the fields of the vector in field `index`.
fn fields_differ_at(alloc: Global, parts: &[Tree], index: u16) -> bool
    ensures differ { let fields = fields_in (nth index (plain_all parts.now)) in
        result ≡ types_differ (dictionary_fields fields) }
{
    match part(parts, index) {
        Some(fields) => types_differ(alloc, fields),
        None => false,
    }
}

/// Whether the data of the DictionaryBatch table in field `index` are compressed.
fn is_compressed_data(parts: &[Tree], index: u16) -> bool
    ensures compressed { result
        ≡ is_compressed (data_of (parts_of (nth index (plain_all parts.now)))) }
{
    match part(parts, index) {
        Some(Tree::Table(_, dictionary)) => is_compressed_batch(
            dictionary,
            slots::dictionary_batch::DATA,
        ),
        Some(Tree::Leaf(_)) => false,
        Some(Tree::Tables(_)) => false,
        None => false,
    }
}

/// Whether the RecordBatch table in field `index` is compressed.
fn is_compressed_batch(parts: &[Tree], index: u16) -> bool
    ensures compressed { result ≡ is_compressed (parts_of (nth index (plain_all parts.now))) }
{
    match part(parts, index) {
        Some(Tree::Table(_, batch)) => is_there_at(batch, slots::record_batch::COMPRESSION),
        Some(Tree::Leaf(_)) => false,
        Some(Tree::Tables(_)) => false,
        None => false,
    }
}
