//! The fields of a table, by number and with their defaults.
//!
//! A slice of trees is the fields of one table, in order of their numbers.
ghost use Rattle.std.specs.Prelude.{◌≡◌, ◌<◌, ℕ, MatchOption, string_bytes, option_map};
ghost use Rattle.arrow_meta_tree.specs.Parts.{nth, parts, number_at, number_or, leaf_number_or, flag_at};
ghost use Rattle.arrow_meta_tree.specs.Parts.{lent_bytes};
ghost use Rattle.arrow_meta_tree.specs.Parts.{is_table, is_there, text_in, some_text_in, bytes_in, pairs_in};
ghost use Rattle.arrow_meta_tree.specs.Trees.{leaf, leaf as leaf_tree, absent as nothing};
ghost use Rattle.arrow_meta_tree.specs.Views.{plain, plain_all, plain_leaf};

use crate::message_tree::{Leaf, Tree};
use std::alloc::Global;

/// Field `index` of a table, None if it is absent.
pub fn part(parts: &[Tree], index: u16) -> Option<&Tree>
    ensures found { MatchOption result (nth index (plain_all parts.now) ≡ leaf nothing)
        (λ t. nth index (plain_all parts.now) ≡ plain t.now) }
{
    parts.get(index as usize)
}

/// The number in field `index`, or `default` if it is absent.
pub fn number_at(parts: &[Tree], index: u16, default: u64) -> u64
    ensures number { result ≡ number_at index default (plain_all parts.now) }
{
    match part(parts, index) {
        Some(tree) => tree.number_or(default),
        None => default,
    }
}

/// Whether the byte in field `index` is not 0.
pub fn flag_at(parts: &[Tree], index: u16) -> bool
    ensures flag { result ≡ flag_at index (plain_all parts.now) }
{
    number_at(parts, index, 0) != 0
}

/// Whether field `index` holds a table.
pub fn has_table(parts: &[Tree], index: u16) -> bool
    ensures table { result ≡ is_table (nth index (plain_all parts.now)) }
{
    match part(parts, index) {
        Some(tree) => tree.is_table(),
        None => false,
    }
}

/// Whether field `index` is present.
pub fn is_there_at(parts: &[Tree], index: u16) -> bool
    ensures there { result ≡ is_there (nth index (plain_all parts.now)) }
{
    match part(parts, index) {
        Some(tree) => tree.is_there(),
        None => false,
    }
}

/// The text in field `index`, empty if it is absent.
pub fn text_at(parts: &[Tree], index: u16) -> &str
    ensures text { result.now ≡ text_in (nth index (plain_all parts.now)) }
{
    some_text_at(parts, index).unwrap_or("")
}

/// The text in field `index`, None if it is absent.
pub fn some_text_at(parts: &[Tree], index: u16) -> Option<&str>
    ensures text { option_map lent_bytes result ≡ some_text_in (nth index (plain_all parts.now)) }
{
    match part(parts, index) {
        Some(Tree::Leaf(leaf)) => text_of(leaf),
        Some(Tree::Table(_, _)) => None,
        Some(Tree::Tables(_)) => None,
        None => None,
    }
}

/// The text that the leaf is, None if it is not a text.
fn text_of(leaf: &Leaf) -> Option<&str>
    ensures text { option_map lent_bytes result ≡ some_text_in (leaf_tree (plain_leaf leaf.now)) }
{
    match leaf {
        Leaf::Text(text) => Some(text.as_str()),
        Leaf::Absent => None,
        Leaf::Number(_) => None,
        Leaf::Bytes(_) => None,
        Leaf::Pairs(_) => None,
        Leaf::Present => None,
    }
}

impl Tree {
    /// The number that the tree is, or `default` if it is not a number.
    pub(crate) fn number_or(&self, default: u64) -> u64
        ensures number { result ≡ number_or default (plain self.now) }
    {
        match self {
            Tree::Leaf(leaf) => leaf.number_or(default),
            Tree::Table(_, _) => default,
            Tree::Tables(_) => default,
        }
    }

    /// Whether it is a table.
    pub(crate) fn is_table(&self) -> bool
        ensures table { result ≡ is_table (plain self.now) }
    {
        match self {
            Tree::Leaf(_) => false,
            Tree::Table(_, _) => true,
            Tree::Tables(_) => false,
        }
    }

    /// Whether it is anything but an absent field.
    pub(crate) fn is_there(&self) -> bool
        ensures there { result ≡ is_there (plain self.now) }
    {
        match self {
            Tree::Leaf(Leaf::Absent) => false,
            Tree::Leaf(Leaf::Number(_)) => true,
            Tree::Leaf(Leaf::Text(_)) => true,
            Tree::Leaf(Leaf::Bytes(_)) => true,
            Tree::Leaf(Leaf::Pairs(_)) => true,
            Tree::Leaf(Leaf::Present) => true,
            Tree::Table(_, _) => true,
            Tree::Tables(_) => true,
        }
    }
}

impl Leaf {
    fn number_or(&self, default: u64) -> u64
        ensures number { result ≡ leaf_number_or default (plain_leaf self.now) }
    {
        match self {
            Leaf::Absent => default,
            Leaf::Number(number) => *number,
            Leaf::Text(_) => default,
            Leaf::Bytes(_) => default,
            Leaf::Pairs(_) => default,
            Leaf::Present => default,
        }
    }
}

/// Takes field `index` out of a table. Those before it stay where they are, so fields are taken
/// from the last to the first.
pub fn take(parts: &mut Vec<Tree>, index: u16) -> Tree
    ensures taken { plain result ≡ nth index (plain_all parts.old.items) }
    ensures before { (i : ℕ) → i < index
        → nth i (plain_all parts.new.items) ≡ nth i (plain_all parts.old.items) }
{
    if (index as usize) < parts.len() {
        parts.remove(index as usize)
    } else {
        absent()
    }
}

fn absent() -> Tree
    ensures absent { plain result ≡ leaf nothing }
{
    Tree::Leaf(Leaf::Absent)
}

/// The fields of a table, none of anything else.
pub fn into_parts(alloc: Global, tree: Tree) -> Vec<Tree>
    ensures parts { plain_all result.items ≡ parts (plain tree) }
{
    match tree {
        Tree::Leaf(_) => Vec::new(alloc),
        Tree::Table(_, parts) => parts,
        Tree::Tables(_) => Vec::new(alloc),
    }
}

/// The text that the tree is, empty if it is not a text. It is moved, not copied.
pub fn into_text(alloc: Global, tree: Tree) -> String
    ensures text { string_bytes result ≡ text_in (plain tree) }
{
    match tree {
        Tree::Leaf(Leaf::Text(text)) => text,
        Tree::Leaf(Leaf::Absent) => String::new(alloc),
        Tree::Leaf(Leaf::Number(_)) => String::new(alloc),
        Tree::Leaf(Leaf::Bytes(_)) => String::new(alloc),
        Tree::Leaf(Leaf::Pairs(_)) => String::new(alloc),
        Tree::Leaf(Leaf::Present) => String::new(alloc),
        Tree::Table(_, _) => String::new(alloc),
        Tree::Tables(_) => String::new(alloc),
    }
}

/// The text that the tree is, None if it is not a text. It is moved, not copied.
pub fn into_some_text(tree: Tree) -> Option<String>
    ensures text { option_map string_bytes result ≡ some_text_in (plain tree) }
{
    match tree {
        Tree::Leaf(Leaf::Text(text)) => Some(text),
        Tree::Leaf(Leaf::Absent) => None,
        Tree::Leaf(Leaf::Number(_)) => None,
        Tree::Leaf(Leaf::Bytes(_)) => None,
        Tree::Leaf(Leaf::Pairs(_)) => None,
        Tree::Leaf(Leaf::Present) => None,
        Tree::Table(_, _) => None,
        Tree::Tables(_) => None,
    }
}

/// The string that the tree is, empty if it is not a string. It is moved, not copied.
pub fn into_bytes(alloc: Global, tree: Tree) -> Vec<u8>
    ensures bytes { result.items ≡ bytes_in (plain tree) }
{
    match tree {
        Tree::Leaf(Leaf::Bytes(bytes)) => bytes,
        Tree::Leaf(Leaf::Absent) => Vec::new(alloc),
        Tree::Leaf(Leaf::Number(_)) => Vec::new(alloc),
        Tree::Leaf(Leaf::Text(_)) => Vec::new(alloc),
        Tree::Leaf(Leaf::Pairs(_)) => Vec::new(alloc),
        Tree::Leaf(Leaf::Present) => Vec::new(alloc),
        Tree::Table(_, _) => Vec::new(alloc),
        Tree::Tables(_) => Vec::new(alloc),
    }
}

/// The pairs of numbers that the tree is, none of anything else.
pub fn into_pairs(alloc: Global, tree: Tree) -> Vec<(u64, u64)>
    ensures pairs { result.items ≡ pairs_in (plain tree) }
{
    match tree {
        Tree::Leaf(Leaf::Pairs(pairs)) => pairs,
        Tree::Leaf(Leaf::Absent) => Vec::new(alloc),
        Tree::Leaf(Leaf::Number(_)) => Vec::new(alloc),
        Tree::Leaf(Leaf::Text(_)) => Vec::new(alloc),
        Tree::Leaf(Leaf::Bytes(_)) => Vec::new(alloc),
        Tree::Leaf(Leaf::Present) => Vec::new(alloc),
        Tree::Table(_, _) => Vec::new(alloc),
        Tree::Tables(_) => Vec::new(alloc),
    }
}
