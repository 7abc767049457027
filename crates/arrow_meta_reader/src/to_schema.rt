//! Messages, built from the fields of their tables.
ghost use Rattle.std.specs.Prelude.{◌≡◌, ◌<◌, IfOk, IfErr, length, map};
ghost use Rattle.std.specs.Int.{cast_signed, w64};
ghost use Rattle.arrow_meta_reader.specs.Built.{BuildsSchema, BuildsHeader, BuildsMessage, meta_fault};
ghost use Rattle.arrow_meta_reader.specs.Faults.{HasNodeOrBuffer, data_of};
ghost use Rattle.arrow_meta_reader.specs.Means.{batch_of, batch_view, dictionary, header_view, node_of};
ghost use Rattle.arrow_meta_reader.specs.Means.{buffer_of};
ghost use Rattle.arrow_meta_tree.specs.Parts.{nth, number_at, flag_at};
ghost use Rattle.arrow_meta_tree.specs.Slots as slots;
ghost use Rattle.arrow_meta_tree.specs.Views.{plain_all};

use crate::message::{Header, Message, MetadataVersion, RecordBatch};
use arrow_meta_schema::FieldFault;
use arrow_meta_schema::fields::fields;
use arrow_meta_schema::metadata::metadata;
use arrow_meta_tree::codes::HeaderKind;
use arrow_meta_tree::parts::{flag_at, into_pairs, into_parts, number_at, take};
use arrow_meta_tree::{MetaFault, Tree, slots};
use arrow_types::{Buffer, FieldNode, Schema, SchemaFault};
use std::alloc::{AllocError, Global};

/// The message that a Message table with these fields describes, given its version and the kind of
/// its header.
pub(crate) fn message(
    alloc: Global,
    version: MetadataVersion,
    kind: HeaderKind,
    mut parts: Vec<Tree>,
) -> Result<Message, MetaFault>
    ensures built { BuildsMessage result version kind (plain_all parts.items) }
{
    let body_len = number_at(&parts, slots::message::BODY_LENGTH, 0);
    let table = into_parts(alloc, take(&mut parts, slots::message::HEADER));
    let header = header(alloc, kind, table, body_len)?;
    Ok(Message {
        version,
        header,
        body_len,
    })
}

/// The header that the table with these fields describes, by the header's kind.
fn header(
    alloc: Global,
    kind: HeaderKind,
    parts: Vec<Tree>,
    body_len: u64,
) -> Result<Header, MetaFault>
    ensures built { BuildsHeader result kind body_len (plain_all parts.items) }
{
    match kind {
        HeaderKind::Schema => Ok(Header::Schema(schema(alloc, parts, body_len)?)),
        HeaderKind::DictionaryBatch => Ok(dictionary(alloc, parts)?),
        HeaderKind::RecordBatch => Ok(Header::Batch(batch(alloc, parts)?)),
    }
}

/// The schema that a Schema table with these fields describes.
#[tactic(auto, using(arrow_meta_schema::proofs::Misfits::any_nth, arrow_meta_schema::proofs::FieldTables::encoded_width))]
fn schema(alloc: Global, mut parts: Vec<Tree>, body_len: u64) -> Result<Schema, MetaFault>
    ensures built { BuildsSchema result body_len (plain_all parts.items) }
{
    let metadata = metadata(alloc, take(&mut parts, slots::schema::CUSTOM_METADATA))?;
    match fields(alloc, take(&mut parts, slots::schema::FIELDS)) {
        Ok(fields) => match Schema::with_metadata(alloc, fields, metadata) {
            Ok(schema) => Ok(schema),
            Err(fault) => Err(meta_fault(body_len, fault)),
        },
        Err(FieldFault::Misfit) => Err(MetaFault::Schema { body_len }),
        Err(FieldFault::Memory) => Err(MetaFault::Memory),
    }
}

/// The fault of a message whose fields do not make a schema.
fn meta_fault(body_len: u64, fault: SchemaFault) -> MetaFault
    ensures fault { result ≡ meta_fault body_len fault }
{
    match fault {
        SchemaFault::TooDeep => MetaFault::Metadata,
        SchemaFault::TooManyFields => MetaFault::Metadata,
        SchemaFault::NestedDictionary => MetaFault::Unsupported { body_len },
        SchemaFault::SharedIdTypesDiffer => MetaFault::Schema { body_len },
        SchemaFault::Memory => MetaFault::Memory,
        SchemaFault::ByteWidth => MetaFault::Schema { body_len },
        SchemaFault::TooManyPairs => MetaFault::Metadata,
        SchemaFault::MapEntries => MetaFault::Schema { body_len },
        SchemaFault::DecimalRange => MetaFault::Schema { body_len },
    }
}

/// The dictionary batch that a DictionaryBatch table with these fields describes.
fn dictionary(alloc: Global, mut parts: Vec<Tree>) -> Result<Header, AllocError>
    ensures built { let xs = plain_all parts.items in IfOk result (λ h. header_view h
        ≡ dictionary (cast_signed w64 (number_at slots.dictionary_batch_id 0 xs))
        (flag_at slots.dictionary_batch_is_delta xs) (batch_of (data_of xs))) }
    ensures some { IfErr result (λ _. HasNodeOrBuffer (data_of (plain_all parts.items))) }
{
    let id = number_at(&parts, slots::dictionary_batch::ID, 0).cast_signed();
    let delta = flag_at(&parts, slots::dictionary_batch::IS_DELTA);
    let data = into_parts(alloc, take(&mut parts, slots::dictionary_batch::DATA));
    Ok(Header::Dictionary(id, delta, batch(alloc, data)?))
}

/// The record batch that a RecordBatch table with these fields describes.
fn batch(alloc: Global, mut parts: Vec<Tree>) -> Result<RecordBatch, AllocError>
    ensures built { IfOk result (λ b. batch_view b ≡ batch_of (plain_all parts.items)) }
    ensures some { IfErr result (λ _. HasNodeOrBuffer (plain_all parts.items)) }
{
    let length = number_at(&parts, slots::record_batch::LENGTH, 0).cast_signed();
    let buffers = buffers(
        alloc,
        &into_pairs(alloc, take(&mut parts, slots::record_batch::BUFFERS)),
    )?;
    let nodes = nodes(
        alloc,
        &into_pairs(alloc, take(&mut parts, slots::record_batch::NODES)),
    )?;
    Ok(RecordBatch {
        length,
        nodes,
        buffers,
    })
}

/// The field nodes of these pairs of numbers.
fn nodes(alloc: Global, pairs: &[(u64, u64)]) -> Result<Vec<FieldNode>, AllocError>
    ensures nodes { IfOk result (λ v. v.items ≡ map node_of pairs.now) }
    ensures some { IfErr result (λ _. 0 < length pairs.now) }
{
    let mut nodes = Vec::new(alloc);
    for pair in pairs {
        nodes.push(FieldNode {
            length: pair.0.cast_signed(),
            null_count: pair.1.cast_signed(),
        })?;
    }
    Ok(nodes)
}

/// The buffers of these pairs of numbers.
fn buffers(alloc: Global, pairs: &[(u64, u64)]) -> Result<Vec<Buffer>, AllocError>
    ensures buffers { IfOk result (λ v. v.items ≡ map buffer_of pairs.now) }
    ensures some { IfErr result (λ _. 0 < length pairs.now) }
{
    let mut buffers = Vec::new(alloc);
    for pair in pairs {
        buffers.push(Buffer {
            offset: pair.0.cast_signed(),
            length: pair.1.cast_signed(),
        })?;
    }
    Ok(buffers)
}
