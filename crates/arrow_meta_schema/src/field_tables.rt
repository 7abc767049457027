//! The Field tables of a vector, one after another, as they are in the tree.
ghost use Rattle.std.specs.Prelude.{◌≡◌, ◌<◌, ◌≤◌, ◌+◌, false, MatchOption, IfSome};
ghost use Rattle.arrow_meta_schema.specs.Builds.{size, size_all};
ghost use Rattle.arrow_meta_schema.specs.SchemaMeaning.{fields_at, fields_in, fields_from, is_field};
ghost use Rattle.arrow_meta_schema.specs.Sharing.{BeginsWith};
ghost use Rattle.arrow_meta_tree.specs.Slots as slots;
ghost use Rattle.arrow_meta_tree.specs.Trees.{table};
ghost use Rattle.arrow_meta_tree.specs.Views.{plain, plain_all};
ghost use Rattle.arrow_meta_tree.specs.declared.kinds.TableKind.TheVariants as kinds;
ghost use Rattle.arrow_types.specs.Field.{none as no_fields};
ghost use Rattle.arrow_types.specs.declared.type_set.TypeSet.{TypeSet};

use arrow_meta_tree::parts::part;
use arrow_meta_tree::{TableKind, Tree, slots};

/// The first Field table of some tables.
#[derive(Clone, Copy)]
pub(crate) struct FirstField<'a> {
    /// The fields of the table.
    pub(crate) parts: &'a [Tree],
    /// The tables after it.
    pub(crate) rest: &'a [Tree],
}

/// The first Field table, with the tables after it, None if no table is one.
pub(crate) fn first_field(tables: &[Tree]) -> Option<FirstField<'_>>
    ensures first { MatchOption result (fields_from (plain_all tables.now) ≡ no_fields)
        (λ f. BeginsWith (fields_from (plain_all tables.now)) (plain_all f.parts.now) (plain_all f.rest.now)) }
    ensures smaller { IfSome result (λ f. size_all (plain_all f.parts.now) + size_all (plain_all f.rest.now) + 1
        < size_all (plain_all tables.now)) }
{
    for i in 0..tables.len() {
        if let Some(parts) = field_parts(&tables[i]) {
            return Some(FirstField {
                parts,
                rest: &tables[i + 1..],
            });
        }
    }
    None
}

/// The fields of a Field table, None of anything else.
fn field_parts(tree: &Tree) -> Option<&[Tree]>
    ensures parts { MatchOption result (is_field (plain tree.now) ≡ false)
        (λ p. (types : TypeSet)
        × (plain tree.now ≡ table (kinds.Field types) (plain_all p.now))) }
{
    match tree {
        Tree::Leaf(_) => None,
        Tree::Table(TableKind::Field(_), parts) => Some(parts),
        Tree::Table(_, _) => None,
        Tree::Tables(_) => None,
    }
}

/// The tables of the vector that holds the children of a Field table with these fields.
pub(crate) fn children_of(parts: &[Tree]) -> &[Tree]
    ensures fields { fields_from (plain_all result.now)
        ≡ fields_at slots.field_children (plain_all parts.now) }
    ensures smaller { size_all (plain_all result.now) ≤ size_all (plain_all parts.now) }
{
    match part(parts, slots::field::CHILDREN) {
        Some(fields) => tables_of(fields),
        None => &[],
    }
}

/// The tables of a vector, none of anything else.
pub(crate) fn tables_of(tree: &Tree) -> &[Tree]
    ensures fields { fields_from (plain_all result.now) ≡ fields_in (plain tree.now) }
    ensures smaller { size_all (plain_all result.now) ≤ size (plain tree.now) }
{
    match tree {
        Tree::Leaf(_) => &[],
        Tree::Table(_, _) => &[],
        Tree::Tables(tables) => tables,
    }
}
