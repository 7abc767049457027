//! Whether two fields of a schema share a dictionary and have unequal value types.
//!
//! This is found in the tree, before any field is built: so it is known if an allocation of the
//! building fails. If an allocation of this test fails, the test goes on without memory.
ghost use Rattle.std.specs.Prelude.{◌≡◌, ◌↔◌, ◌++◌, IsTrue, IfOk, OnOk};
ghost use Rattle.arrow_meta_schema.specs.SchemaMeaning.{field_of, fields_from, fields_in};
ghost use Rattle.arrow_meta_schema.specs.Sharing.{encoded_views, type_of};
ghost use Rattle.arrow_meta_tree.specs.Views.{plain, plain_all};
ghost use Rattle.arrow_types.specs.Dictionaries.{field_clashes, field_differs, head_clashes};
ghost use Rattle.arrow_types.specs.Dictionaries.{some_clash, some_differ};
ghost use Rattle.arrow_types.specs.Equality.{is_equal};
ghost use Rattle.arrow_types.specs.Schema.{dictionary_fields, field_dictionaries};
ghost use Rattle.arrow_types.specs.Schema.{types_differ};
ghost use Rattle.arrow_types.specs.Stored.{type_code};

use crate::field_eq::{same_head, same_tag};
use crate::field_tables::{children_of, first_field, tables_of};
use crate::fields::encoding_at;
use arrow_meta_tree::{Tree, slots};
use std::alloc::{AllocError, Global};
use std::collections::BTreeMap;

/// A dictionary-encoded field.
#[derive(Clone, Copy)]
struct EncodedField<'a> {
    /// The id of its dictionary.
    id: i64,
    /// The fields of its table.
    parts: &'a [Tree],
}

/// Whether two fields of the vector, on any level, share a dictionary and have unequal value types.
///
/// The time grows as n log n with their number. If an allocation fails the fields are compared
/// without memory, in a time that grows with the square of the number of those that are
/// dictionary-encoded.
pub fn types_differ(alloc: Global, fields: &Tree) -> bool
    ensures differ { result ≡ types_differ (dictionary_fields (fields_in (plain fields.now))) }
{
    let tables = tables_of(fields);
    match differ_by_id(alloc, tables) {
        Ok(differ) => differ,
        Err(_) => some_differ(tables, tables),
    }
}

/// The same for the fields of the tables, found with a list of them by their ids.
fn differ_by_id(alloc: Global, tables: &[Tree]) -> Result<bool, AllocError>
    ensures differ { IfOk result (λ differ. differ
        ≡ types_differ (dictionary_fields (fields_from (plain_all tables.now)))) }
{
    let mut found = Vec::new(alloc);
    add_fields(tables, &mut found)?;
    encoded_differ(alloc, &found)
}

/// Adds the dictionary-encoded ones of the fields of the tables, on all levels, in pre-order.
#[cycle(encoded)]
fn add_fields<'a>(tables: &'a [Tree], found: &mut Vec<EncodedField<'a>>) -> Result<(), AllocError>
    ensures added { OnOk result (encoded_views found.new.items ≡ encoded_views found.old.items
        ++ dictionary_fields (fields_from (plain_all tables.now))) }
{
    let mut rest = tables;
    while let Some(first) = first_field(rest) {
        add_field(first.parts, found)?;
        rest = first.rest;
    }
    Ok(())
}

/// Adds the field of a Field table with these fields if it is dictionary-encoded, and then those
/// below it.
#[cycle(encoded)]
fn add_field<'a>(parts: &'a [Tree], found: &mut Vec<EncodedField<'a>>) -> Result<(), AllocError>
    ensures added { OnOk result (encoded_views found.new.items ≡ encoded_views found.old.items
        ++ field_dictionaries (field_of (plain_all parts.now))) }
{
    if let Some(encoding) = encoding_at(parts, slots::field::DICTIONARY) {
        found.push(EncodedField {
            id: encoding.id,
            parts,
        })?;
    }
    add_fields(children_of(parts), found)
}

/// Whether two of the fields share a dictionary and have unequal value types: each is compared with
/// the first one of its id.
fn encoded_differ(alloc: Global, fields: &[EncodedField]) -> Result<bool, AllocError>
    ensures differ { IfOk result (λ differ. differ ≡ types_differ (encoded_views fields.now)) }
{
    let mut places = BTreeMap::new(alloc);
    for i in 0..fields.len() {
        let field = &fields[i];
        match places.get(&field.id) {
            Some(first) => {
                let earlier = &fields[*first];
                if !same_type(earlier.parts, field.parts) {
                    return Ok(true);
                }
            }
            None => {
                places.insert(field.id, i)?;
            }
        }
    }
    Ok(false)
}

/// Whether one of the fields of the tables, on any level, clashes with one of all.
#[cycle(differing)]
fn some_differ(tables: &[Tree], all: &[Tree]) -> bool
    ensures differ { result
        ≡ some_differ (fields_from (plain_all all.now)) (fields_from (plain_all tables.now)) }
{
    let mut rest = tables;
    while let Some(first) = first_field(rest) {
        if differs(first.parts, all) {
            return true;
        }
        rest = first.rest;
    }
    false
}

/// The same for the field of a Field table with these fields and the fields below it.
#[cycle(differing)]
fn differs(parts: &[Tree], all: &[Tree]) -> bool
    ensures differ { result
        ≡ field_differs (fields_from (plain_all all.now)) (field_of (plain_all parts.now)) }
{
    if let Some(encoding) = encoding_at(parts, slots::field::DICTIONARY)
        && some_clash(all, encoding.id, parts)
    {
        return true;
    }
    some_differ(children_of(parts), all)
}

/// Whether one of the fields of the tables, on any level, has the dictionary of this id, and a type
/// that differs from that of the field of a Field table with these fields.
#[cycle(clashing)]
fn some_clash(tables: &[Tree], id: i64, like: &[Tree]) -> bool
    ensures clash { result
        ≡ some_clash (record { id = id; value_type = type_of (plain_all like.now) })
        (fields_from (plain_all tables.now)) }
{
    let mut rest = tables;
    while let Some(first) = first_field(rest) {
        if clashes(first.parts, id, like) {
            return true;
        }
        rest = first.rest;
    }
    false
}

/// The same for the field of one Field table and the fields below it.
#[cycle(clashing)]
fn clashes(parts: &[Tree], id: i64, like: &[Tree]) -> bool
    ensures clash { result
        ≡ field_clashes (record { id = id; value_type = type_of (plain_all like.now) })
        (field_of (plain_all parts.now)) }
{
    is_other(parts, id, like) || some_clash(children_of(parts), id, like)
}

/// Whether the field itself has the dictionary of this id and another type.
fn is_other(parts: &[Tree], id: i64, like: &[Tree]) -> bool
    ensures clash { result
        ≡ head_clashes (record { id = id; value_type = type_of (plain_all like.now) })
        ((field_of (plain_all parts.now)).head) ((field_of (plain_all parts.now)).children) }
{
    match encoding_at(parts, slots::field::DICTIONARY) {
        Some(encoding) => id == encoding.id && !same_type(like, parts),
        None => false,
    }
}

/// Whether the fields of two Field tables have the same type, with all levels below it.
fn same_type(one: &[Tree], other: &[Tree]) -> bool
    ensures same { result
        ≡ is_equal type_code (type_of (plain_all one.now)) (type_of (plain_all other.now)) }
{
    same_tag(one, other) && same_fields(children_of(one), children_of(other))
}

/// Whether the tables have equally many fields, and these are equal one by one.
#[cycle(same)]
fn same_fields(ones: &[Tree], others: &[Tree]) -> bool
    ensures same { IsTrue result
        ↔ (fields_from (plain_all ones.now) ≡ fields_from (plain_all others.now)) }
{
    let mut one = ones;
    let mut other = others;
    while let Some(first) = first_field(one) {
        let Some(second) = first_field(other) else {
            return false;
        };
        if !same_field(first.parts, second.parts) {
            return false;
        }
        one = first.rest;
        other = second.rest;
    }
    first_field(other).is_none()
}

/// Whether the fields of two Field tables are equal, with all levels below them.
#[cycle(same)]
fn same_field(one: &[Tree], other: &[Tree]) -> bool
    ensures same { IsTrue result
        ↔ (field_of (plain_all one.now) ≡ field_of (plain_all other.now)) }
{
    same_head(one, other) && same_fields(children_of(one), children_of(other))
}
