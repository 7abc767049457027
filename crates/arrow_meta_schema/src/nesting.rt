//! Whether there is a dictionary field below a dictionary field.
//!
//! The tree is searched, before any field is built: this fault comes before those that stop the
//! building.
ghost use Rattle.std.specs.Prelude.{◌≡◌, is_some};
ghost use Rattle.arrow_meta_tree.specs.Parts.{nth};
ghost use Rattle.arrow_meta_schema.specs.SchemaMeaning.{encoding_in, fields_in, fields_from, fields_at};
ghost use Rattle.arrow_meta_schema.specs.SchemaMeaning.{with_field, field_of};
ghost use Rattle.arrow_meta_tree.specs.Slots as slots;
ghost use Rattle.arrow_meta_tree.specs.Views.{plain, plain_all};
ghost use Rattle.arrow_types.specs.Field.{none};
ghost use Rattle.arrow_types.specs.Schema.{has_encoding, is_nested, field_is_nested};

use arrow_meta_tree::parts::has_table;
use arrow_meta_tree::{TableKind, Tree, slots};

/// Whether the vector of fields has a dictionary field below a dictionary field.
#[cycle(nesting)]
pub fn is_nested(fields: &Tree) -> bool
    ensures nested { result ≡ is_nested (fields_in (plain fields.now)) }
{
    match fields {
        Tree::Leaf(_) => false,
        Tree::Table(_, _) => false,
        Tree::Tables(tables) => are_nested(tables),
    }
}

/// The same for the fields of the tables.
#[cycle(nesting)]
fn are_nested(tables: &[Tree]) -> bool
    ensures nested { result ≡ is_nested (fields_from (plain_all tables.now)) }
{
    for table in tables {
        if has_nested(table) {
            return true;
        }
    }
    false
}

/// The same for the field of one table, if it is a Field table.
#[cycle(nesting)]
fn has_nested(table: &Tree) -> bool
    ensures nested { result ≡ is_nested (with_field (plain table.now) none) }
{
    match table {
        Tree::Leaf(_) => false,
        Tree::Table(TableKind::Field(_), parts) => has_nested_parts(parts),
        Tree::Table(_, _) => false,
        Tree::Tables(_) => false,
    }
}

/// The same for the Field table with these fields.
#[cycle(nesting)]
fn has_nested_parts(parts: &[Tree]) -> bool
    ensures nested { result ≡ field_is_nested (field_of (plain_all parts.now)) }
{
    (is_encoded(parts) && has_encoding_below(parts)) || is_nested_below(parts)
}

/// The same for the children of the Field table with these fields.
#[cycle(nesting)]
#[tactic(auto, using(crate::proofs::TableFields::fields_at_nth))]
fn is_nested_below(parts: &[Tree]) -> bool
    ensures nested { result ≡ is_nested (fields_at slots.field_children (plain_all parts.now)) }
{
    match parts.get(slots::field::CHILDREN as usize) {
        Some(fields) => is_nested(fields),
        None => false,
    }
}

/// Whether the Field table with these fields has a dictionary.
#[tactic(auto, using(crate::proofs::TableFields::encoded))]
fn is_encoded(parts: &[Tree]) -> bool
    ensures encoded { result
        ≡ is_some (encoding_in (nth slots.field_dictionary (plain_all parts.now))) }
{
    has_table(parts, slots::field::DICTIONARY)
}

/// Whether a child of the Field table with these fields, on any level, has a dictionary.
#[cycle(encodings)]
#[tactic(auto, using(crate::proofs::TableFields::fields_at_nth))]
fn has_encoding_below(parts: &[Tree]) -> bool
    ensures encoded { result ≡ has_encoding (fields_at slots.field_children (plain_all parts.now)) }
{
    match parts.get(slots::field::CHILDREN as usize) {
        Some(fields) => has_encoding(fields),
        None => false,
    }
}

/// Whether a field of the vector, on any level, has a dictionary.
#[cycle(encodings)]
fn has_encoding(fields: &Tree) -> bool
    ensures encoded { result ≡ has_encoding (fields_in (plain fields.now)) }
{
    match fields {
        Tree::Leaf(_) => false,
        Tree::Table(_, _) => false,
        Tree::Tables(tables) => have_encoding(tables),
    }
}

/// The same for the fields of the tables.
#[cycle(encodings)]
fn have_encoding(tables: &[Tree]) -> bool
    ensures encoded { result ≡ has_encoding (fields_from (plain_all tables.now)) }
{
    for table in tables {
        if is_or_has_encoded(table) {
            return true;
        }
    }
    false
}

/// The same for the field of one table, if it is a Field table.
#[cycle(encodings)]
fn is_or_has_encoded(table: &Tree) -> bool
    ensures encoded { result ≡ has_encoding (with_field (plain table.now) none) }
{
    match table {
        Tree::Leaf(_) => false,
        Tree::Table(TableKind::Field(_), parts) => is_encoded(parts) || has_encoding_below(parts),
        Tree::Table(_, _) => false,
        Tree::Tables(_) => false,
    }
}
