//! Custom metadata: pairs of keys and values, of a schema and of its fields on all levels.

ghost use Rattle.std.specs.Prelude.{◌≡◌, ◌↔◌, IsTrue, IfOk, length};
ghost use Rattle.arrow_types.specs.Notes.{field_noted_count, noted_count, pair_view, pairs_view};
ghost use Rattle.arrow_types.specs.Room.{left_of};
ghost use Rattle.arrow_types.specs.View.{field_notes, notes_view, type_notes};

use crate::field::{DataType, Field};
use std::alloc::{AllocError, Global};

/// Equal pairs in memory of their own.
pub(crate) fn copy_pairs(
    alloc: Global,
    pairs: &[(Vec<u8>, Vec<u8>)],
) -> Result<Vec<(Vec<u8>, Vec<u8>)>, AllocError>
    ensures { IfOk result (λ v. pairs_view v.items ≡ pairs_view pairs.now) }
{
    let mut copies = Vec::with_capacity(alloc, pairs.len())?;
    for pair in pairs {
        copies.push(copy_pair(alloc, pair)?)?;
    }
    Ok(copies)
}

/// An equal pair in memory of its own.
fn copy_pair(alloc: Global, pair: &(Vec<u8>, Vec<u8>)) -> Result<(Vec<u8>, Vec<u8>), AllocError>
    ensures { IfOk result (λ p. pair_view p ≡ pair_view pair.now) }
{
    let key = Vec::from_slice(alloc, &pair.0)?;
    let value = Vec::from_slice(alloc, &pair.1)?;
    Ok((key, value))
}

/// Whether there are as many pairs in both lists, and they are equal one by one.
pub(crate) fn same_pairs(pairs: &[(Vec<u8>, Vec<u8>)], others: &[(Vec<u8>, Vec<u8>)]) -> bool
    ensures { IsTrue result ↔ (pairs_view pairs.now ≡ pairs_view others.now) }
{
    if pairs.len() != others.len() {
        return false;
    }
    for i in 0..pairs.len() {
        if !same_pair(&pairs[i], &others[i]) {
            return false;
        }
    }
    true
}

/// Whether the keys are equal, and the values are.
fn same_pair(one: &(Vec<u8>, Vec<u8>), other: &(Vec<u8>, Vec<u8>)) -> bool
    ensures { IsTrue result ↔ (pair_view one.now ≡ pair_view other.now) }
{
    one.0.as_slice() == other.0.as_slice() && one.1.as_slice() == other.1.as_slice()
}

/// Whether the fields have the same pairs, on all levels.
#[cycle(notes)]
pub(crate) fn are_noted_alike(fields: &[Field], others: &[Field]) -> bool
    ensures { IsTrue result ↔ (notes_view fields.now ≡ notes_view others.now) }
{
    if fields.len() != others.len() {
        return false;
    }
    for i in 0..fields.len() {
        if !have_same_notes(&fields[i], &others[i]) {
            return false;
        }
    }
    true
}

/// Whether the two fields, and those below them, have the same pairs.
#[cycle(notes)]
pub(crate) fn have_same_notes(one: &Field, other: &Field) -> bool
    ensures { IsTrue result ↔ (field_notes one.now ≡ field_notes other.now) }
{
    same_pairs(&one.metadata, &other.metadata) && are_noted_alike(one.children(), other.children())
}

/// Whether the fields below the types have the same pairs.
pub(crate) fn have_same_notes_below(one: &DataType, other: &DataType) -> bool
    ensures { IsTrue result ↔ (type_notes one.now ≡ type_notes other.now) }
{
    are_noted_alike(one.children(), other.children())
}

/// The rest of `most` after the pairs of the fields on all levels are counted, `None` if there are
/// more.
#[cycle(noting)]
pub(crate) fn after_notes(fields: &[Field], most: u32) -> Option<u32>
    ensures { result ≡ left_of most (noted_count (notes_view fields.now)) }
{
    let mut left = most;
    for field in fields {
        left = after_field_notes(field, left)?;
    }
    Some(left)
}

/// The rest of `most` after the pairs of the field and of all below it are counted, `None` if there
/// are more.
#[cycle(noting)]
fn after_field_notes(field: &Field, most: u32) -> Option<u32>
    ensures { result ≡ left_of most (field_noted_count (field_notes field.now)) }
{
    let most = after_pairs(&field.metadata, most)?;
    after_notes(field.children(), most)
}

/// The rest of `most` after the pairs are counted, `None` if there are more.
pub(crate) fn after_pairs(pairs: &[(Vec<u8>, Vec<u8>)], most: u32) -> Option<u32>
    ensures { result ≡ left_of most (length pairs.now) }
{
    if pairs.len() > most as usize {
        None
    } else {
        Some(most - pairs.len() as u32)
    }
}
