//! The conditions under which a single table is invalid in every message, and whether a tree holds
//! such a table.
ghost use Rattle.std.specs.Prelude.{◌≡◌};
ghost use Rattle.arrow_meta_schema.specs.Conditions.{any, any_in, entries_fit, finds, is_misfit};
ghost use Rattle.arrow_meta_schema.specs.Conditions.{is_unsupported, lacks_table};
ghost use Rattle.arrow_meta_tree.specs.Parts.{nth};
ghost use Rattle.arrow_meta_schema.specs.SchemaMeaning.{fields_at, fields_in, fields_from, head_of};
ghost use Rattle.arrow_meta_schema.specs.SchemaMeaning.{is_field, tag_by};
ghost use Rattle.arrow_meta_tree.specs.Slots as slots;
ghost use Rattle.arrow_meta_tree.specs.Trees.{Trees};
ghost use Rattle.arrow_meta_tree.specs.Views.{plain, plain_all};
ghost use Rattle.arrow_types.specs.Field.{more, none as no_fields, width};
ghost use Rattle.arrow_types.specs.Schema.{are_entries, is_struct};

use crate::field_tables::{children_of, first_field};
use crate::fields::encoding_at;
use crate::types::{children_fit, is_type_misfit};
use arrow_meta_tree::codes::{TypeCode, taken, type_code};
use arrow_meta_tree::parts::{has_table, number_at, part};
use arrow_meta_tree::{TableKind, Tree, slots, type_table};

/// A condition under which a table is invalid in every message.
#[derive(Clone, Copy)]
pub enum Test {
    /// A table that its code opens, or a dictionary's data, is absent.
    LacksTable,
    /// It holds something outside the profile.
    Unsupported,
    /// It holds a width, a size, a unit, a number of children or the entries of a map that no type has.
    Misfit,
}

/// Whether the test holds of a table of the tree, at any depth.
#[cycle(scan)]
pub fn any(test: Test, tree: &Tree) -> bool
    ensures found { result ≡ any (finds test) (plain tree.now) }
{
    match tree {
        Tree::Leaf(_) => false,
        Tree::Table(kind, parts) => finds(test, *kind, parts) || any_in(test, parts),
        Tree::Tables(tables) => any_in(test, tables),
    }
}

/// Whether the test holds of a table of one of the trees, at any depth.
#[cycle(scan)]
pub fn any_in(test: Test, trees: &[Tree]) -> bool
    ensures found { result ≡ any_in (finds test) (plain_all trees.now) }
{
    for tree in trees {
        if any(test, tree) {
            return true;
        }
    }
    false
}

/// Whether the test holds of a table of this kind with these fields.
fn finds(test: Test, kind: TableKind, parts: &[Tree]) -> bool
    ensures found { result ≡ finds test kind (plain_all parts.now) }
{
    match test {
        Test::LacksTable => lacks_table(kind, parts),
        Test::Unsupported => is_unsupported(kind, parts),
        Test::Misfit => is_misfit(kind, parts),
    }
}

/// Whether a table lacks the table that its code opens, or a dictionary batch its data.
fn lacks_table(kind: TableKind, parts: &[Tree]) -> bool
    ensures lacks { result ≡ lacks_table kind (plain_all parts.now) }
{
    match kind {
        TableKind::Field(types) => {
            type_table(types, number_at(parts, slots::field::TYPE_TYPE, 0)).is_some()
                && !has_table(parts, slots::field::TYPE)
        }
        TableKind::DictionaryBatch => !has_table(parts, slots::dictionary_batch::DATA),
        _ => false,
    }
}

/// Whether a table holds an endianness, a type or a kind of dictionary outside the profile.
fn is_unsupported(kind: TableKind, parts: &[Tree]) -> bool
    ensures unsupported { result ≡ is_unsupported kind (plain_all parts.now) }
{
    match kind {
        TableKind::Schema(_) => number_at(parts, slots::schema::ENDIANNESS, 0) != 0,
        TableKind::Field(types) => {
            taken(
                types,
                type_code(number_at(parts, slots::field::TYPE_TYPE, 0)),
            )
            .is_none()
        }
        TableKind::DictionaryEncoding => number_at(
            parts,
            slots::dictionary_encoding::DICTIONARY_KIND,
            0,
        ) != 0,
        _ => false,
    }
}

/// Whether a table holds a width, a size, a unit, a number of children or the entries of a map that
/// no type has.
fn is_misfit(kind: TableKind, parts: &[Tree]) -> bool
    ensures misfit { result ≡ is_misfit kind (plain_all parts.now) }
{
    match kind {
        TableKind::Field(_) => {
            let code = type_code(number_at(parts, slots::field::TYPE_TYPE, 0));
            !children_fit(code, fields_at(parts, slots::field::CHILDREN))
                || !entries_fit(code, children_of(parts))
        }
        TableKind::Type(code) => is_type_misfit(code, parts),
        _ => false,
    }
}

/// Whether a type of this code may have the fields of these tables as children, if their number
/// fits.
fn entries_fit(code: Option<TypeCode>, tables: &[Tree]) -> bool
    ensures fit { result ≡ entries_fit code (fields_from (plain_all tables.now)) }
{
    match code {
        Some(TypeCode::Map) => are_entries(tables),
        _ => true,
    }
}

/// Whether the first of the Field tables can be the entries of a map.
fn are_entries(tables: &[Tree]) -> bool
    ensures entries { result ≡ are_entries (fields_from (plain_all tables.now)) }
{
    match first_field(tables) {
        Some(entries) => are_entries_of(entries.parts),
        None => false,
    }
}

/// Whether a Field table with these fields is a struct of two fields that is not
/// dictionary-encoded (`Schema.fbs`, table `Map`).
fn are_entries_of(parts: &[Tree]) -> bool
    ensures entries { result
        ≡ are_entries (more (head_of (plain_all parts.now)) (fields_at slots.field_children (plain_all parts.now)) no_fields) }
{
    is_struct(type_code(number_at(parts, slots::field::TYPE_TYPE, 0)))
        && encoding_at(parts, slots::field::DICTIONARY).is_none()
        && count_fields(children_of(parts)) == 2
}

/// Whether it is the code of a struct.
fn is_struct(code: Option<TypeCode>) -> bool
    ensures is { (xs : Trees) → result ≡ is_struct (tag_by code xs) }
{
    matches!(code, Some(TypeCode::Struct))
}

/// How many fields are in the vector in field `index`.
fn fields_at(parts: &[Tree], index: u16) -> usize
    ensures count { result ≡ width (fields_in (nth index (plain_all parts.now))) }
{
    match part(parts, index) {
        Some(Tree::Leaf(_)) => 0,
        Some(Tree::Table(_, _)) => 0,
        Some(Tree::Tables(tables)) => count_fields(tables),
        None => 0,
    }
}

/// How many of the trees are Field tables.
fn count_fields(tables: &[Tree]) -> usize
    ensures count { result ≡ width (fields_from (plain_all tables.now)) }
{
    let mut count = 0;
    for table in tables {
        if is_field(table) {
            count += 1;
        }
    }
    count
}

/// Whether it is a Field table.
fn is_field(tree: &Tree) -> bool
    ensures field { result ≡ is_field (plain tree.now) }
{
    match tree {
        Tree::Leaf(_) => false,
        Tree::Table(TableKind::Field(_), _) => true,
        Tree::Table(_, _) => false,
        Tree::Tables(_) => false,
    }
}
