//! Custom metadata, built from their tables (`Schema.fbs`, table `KeyValue`).
//!
//! Keys and values are moved out of the tree, so they are copied only once, when the tree is read.
ghost use Rattle.std.specs.Prelude.{◌≡◌, ◌<◌, ◌++◌, ◌∷◌, [], false, length, IfOk, IfErr, OnOk};
ghost use Rattle.std.specs.Prelude.{MatchOption};
ghost use Rattle.arrow_meta_schema.specs.SchemaMeaning.{metadata_from, metadata_in, pair_in, pair_of};
ghost use Rattle.arrow_meta_tree.specs.Views.{plain, plain_all};
ghost use Rattle.arrow_types.specs.Notes.{pair_view, pairs_view};

use arrow_meta_tree::parts::{into_bytes, take};
use arrow_meta_tree::{TableKind, Tree, slots};
use std::alloc::{AllocError, Global};

/// The pairs of a vector of KeyValue tables, none of anything else. Without pairs no memory is
/// allocated.
pub fn metadata(alloc: Global, tree: Tree) -> Result<Vec<(Vec<u8>, Vec<u8>)>, AllocError>
    ensures built { IfOk result (λ v. pairs_view v.items ≡ metadata_in (plain tree)) }
    ensures some { IfErr result (λ _. 0 < length (metadata_in (plain tree))) }
{
    match tree {
        Tree::Leaf(_) => Ok(Vec::new(alloc)),
        Tree::Table(_, _) => Ok(Vec::new(alloc)),
        Tree::Tables(tables) => metadata_of(alloc, tables),
    }
}

/// The pairs of those of the tables that are KeyValue tables.
fn metadata_of(alloc: Global, tables: Vec<Tree>) -> Result<Vec<(Vec<u8>, Vec<u8>)>, AllocError>
    ensures built { IfOk result
        (λ v. pairs_view v.items ≡ metadata_from (plain_all tables.items)) }
    ensures some { IfErr result (λ _. 0 < length (metadata_from (plain_all tables.items))) }
{
    let mut pairs = Vec::new(alloc);
    for table in tables {
        if let Some(pair) = into_pair(alloc, table) {
            pairs.push(pair)?;
        }
    }
    Ok(pairs)
}

/// The pair of a KeyValue table, None of anything else.
fn into_pair(alloc: Global, tree: Tree) -> Option<(Vec<u8>, Vec<u8>)>
    ensures pair { MatchOption result (pair_in (plain tree) ≡ [])
        (λ p. pair_in (plain tree) ≡ pair_view p ∷ []) }
{
    match tree {
        Tree::Leaf(_) => None,
        Tree::Table(TableKind::KeyValue, parts) => Some(pair(alloc, parts)),
        Tree::Table(_, _) => None,
        Tree::Tables(_) => None,
    }
}

/// The pair of a KeyValue table with these fields.
fn pair(alloc: Global, mut parts: Vec<Tree>) -> (Vec<u8>, Vec<u8>)
    ensures pair { pair_view result ≡ pair_of (plain_all parts.items) }
{
    let value = into_bytes(alloc, take(&mut parts, slots::key_value::VALUE));
    let key = into_bytes(alloc, take(&mut parts, slots::key_value::KEY));
    (key, value)
}
