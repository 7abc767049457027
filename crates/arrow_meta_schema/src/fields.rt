//! The fields of a schema, built from their tables.
//!
//! Names, zones, keys and values are moved out of the tree, so they are copied only once, when the
//! tree is read.
ghost use Rattle.std.specs.Prelude.{◌≡◌, ◌<◌, false, string_bytes, MatchOption, IfErr};
ghost use Rattle.arrow_meta_schema.specs.Builds.{Builds, BuildsAll};
ghost use Rattle.arrow_types.specs.Field.{field_by};
ghost use Rattle.arrow_meta_schema.specs.Conditions.{any, any_in, is_misfit};
ghost use Rattle.arrow_meta_tree.specs.Parts.{nth};
ghost use Rattle.arrow_meta_schema.specs.SchemaMeaning.{encoding_in, index_in};
ghost use Rattle.arrow_meta_schema.specs.SchemaMeaning.{fields_from, fields_in, is_field};
ghost use Rattle.arrow_meta_schema.specs.SchemaMeaning.{notes_from, notes_in};
ghost use Rattle.arrow_meta_tree.specs.Slots as slots;
ghost use Rattle.arrow_meta_tree.specs.Trees.{table};
ghost use Rattle.arrow_meta_tree.specs.Views.{plain, plain_all};
ghost use Rattle.arrow_meta_tree.specs.declared.kinds.TableKind.TheVariants as kinds;
ghost use Rattle.arrow_types.specs.declared.type_set.TypeSet.{TypeSet};
ghost use Rattle.arrow_types.specs.Field.{width};
ghost use Rattle.arrow_types.specs.Notes.{pairs_view};
ghost use Rattle.arrow_types.specs.View.{field_notes, field_view, fields_view, notes_view};
ghost use Rattle.arrow_types.specs.View.{type_notes, type_view};

use crate::field_fault::FieldFault;
use crate::metadata::metadata;
use crate::types::{data_type, sign_in, width_in};
use arrow_meta_tree::codes::type_code;
use arrow_meta_tree::parts::{flag_at, into_parts, into_text, number_at, part, take};
use arrow_meta_tree::{TableKind, Tree, slots};
use arrow_types::{BitWidth, DataType, Encoding, Field, IndexType};
use std::alloc::Global;

/// The fields of a vector of Field tables, none of anything else.
#[cycle(fields)]
pub fn fields(alloc: Global, tree: Tree) -> Result<Vec<Field>, FieldFault>
    ensures built { BuildsAll result (fields_in (plain tree)) (notes_in (plain tree))
        (any is_misfit (plain tree)) }
    ensures some { IfErr result (λ _. 0 < width (fields_in (plain tree))) }
{
    match tree {
        Tree::Leaf(_) => Ok(Vec::new(alloc)),
        Tree::Table(_, _) => Ok(Vec::new(alloc)),
        Tree::Tables(tables) => fields_of(alloc, tables),
    }
}

/// The fields of those of the tables that are Field tables.
#[cycle(fields)]
fn fields_of(alloc: Global, tables: Vec<Tree>) -> Result<Vec<Field>, FieldFault>
    ensures built { BuildsAll result (fields_from (plain_all tables.items))
        (notes_from (plain_all tables.items)) (any_in is_misfit (plain_all tables.items)) }
    ensures some { IfErr result (λ _. 0 < width (fields_from (plain_all tables.items))) }
{
    let mut fields = Vec::new(alloc);
    for table in tables {
        if let Some(parts) = into_field_parts(table) {
            let field = field(alloc, parts)?;
            fields.push(field)?;
        }
    }
    Ok(fields)
}

/// The field of a Field table with these fields.
#[cycle(fields)]
fn field(alloc: Global, parts: Vec<Tree>) -> Result<Field, FieldFault>
    ensures built { Builds result (plain_all parts.items) }
{
    let nullable = flag_at(&parts, slots::field::NULLABLE);
    let code = type_code(number_at(&parts, slots::field::TYPE_TYPE, 0));
    let dictionary = encoding_at(&parts, slots::field::DICTIONARY);
    let moved = move_out(parts);
    let children = fields(alloc, moved.children)?;
    let table = into_parts(alloc, moved.table);
    let data_type = data_type(alloc, code, table, children)?;
    let metadata = metadata(alloc, moved.metadata)?;
    Ok(joined(
        into_text(alloc, moved.name),
        nullable,
        data_type,
        dictionary,
        metadata,
    ))
}

fn joined(
    name: String,
    nullable: bool,
    data_type: DataType,
    dictionary: Option<Encoding>,
    metadata: Vec<(Vec<u8>, Vec<u8>)>,
) -> Field
    ensures field { field_view result
        ≡ field_by (string_bytes name) nullable dictionary (type_view data_type) }
    ensures notes { field_notes result
        ≡ record { pairs = pairs_view metadata.items; below = type_notes data_type } }
{
    Field {
        name,
        nullable,
        data_type,
        dictionary,
        metadata,
    }
}

/// The fields of a Field table, None of anything else.
fn into_field_parts(tree: Tree) -> Option<Vec<Tree>>
    ensures parts { MatchOption result (is_field (plain tree) ≡ false)
        (λ v. (types : TypeSet)
        × (plain tree ≡ table (kinds.Field types) (plain_all v.items))) }
{
    match tree {
        Tree::Leaf(_) => None,
        Tree::Table(TableKind::Field(_), parts) => Some(parts),
        Tree::Table(_, _) => None,
        Tree::Tables(_) => None,
    }
}

/// The values that move from the table of a field into the field.
#[derive(Drop)]
struct Moved {
    name: Tree,
    table: Tree,
    children: Tree,
    metadata: Tree,
}

fn move_out(mut parts: Vec<Tree>) -> Moved
    ensures name { plain result.name ≡ nth slots.field_name (plain_all parts.items) }
    ensures table { plain result.table ≡ nth slots.field_type (plain_all parts.items) }
    ensures children { plain result.children ≡ nth slots.field_children (plain_all parts.items) }
    ensures metadata { plain result.metadata
        ≡ nth slots.field_custom_metadata (plain_all parts.items) }
{
    let metadata = take(&mut parts, slots::field::CUSTOM_METADATA);
    let children = take(&mut parts, slots::field::CHILDREN);
    let table = take(&mut parts, slots::field::TYPE);
    let name = take(&mut parts, slots::field::NAME);
    Moved {
        name,
        table,
        children,
        metadata,
    }
}

/// The encoding in field `index`, None if it is absent.
pub(crate) fn encoding_at(parts: &[Tree], index: u16) -> Option<Encoding>
    ensures encoding { result ≡ encoding_in (nth index (plain_all parts.now)) }
{
    match part(parts, index) {
        Some(tree) => encoding_in(tree),
        None => None,
    }
}

fn encoding_in(tree: &Tree) -> Option<Encoding>
    ensures encoding { result ≡ encoding_in (plain tree.now) }
{
    match tree {
        Tree::Leaf(_) => None,
        Tree::Table(_, parts) => Some(Encoding {
            id: number_at(parts, slots::dictionary_encoding::ID, 0).cast_signed(),
            index: index_at(parts, slots::dictionary_encoding::INDEX_TYPE),
            ordered: flag_at(parts, slots::dictionary_encoding::IS_ORDERED),
        }),
        Tree::Tables(_) => None,
    }
}

/// The type of an index in field `index`.
fn index_at(parts: &[Tree], index: u16) -> IndexType
    ensures index { result ≡ index_in (nth index (plain_all parts.now)) }
{
    match part(parts, index) {
        Some(tree) => index_in(tree),
        None => DEFAULT_INDEX,
    }
}

/// The type of an index if none is given.
const DEFAULT_INDEX: IndexType = IndexType {
    bits: BitWidth::ThirtyTwo,
    signed: true,
};

fn index_in(tree: &Tree) -> IndexType
    ensures index { result ≡ index_in (plain tree.now) }
{
    match tree {
        Tree::Leaf(_) => DEFAULT_INDEX,
        Tree::Table(_, parts) => IndexType {
            bits: width_in(parts),
            signed: sign_in(parts),
        },
        Tree::Tables(_) => DEFAULT_INDEX,
    }
}
