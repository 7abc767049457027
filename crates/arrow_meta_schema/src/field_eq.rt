//! Whether two Field tables describe the same field, apart from their children.
//!
//! Names and zones are compared where they are in the tree, so no memory is allocated.
ghost use Rattle.std.specs.Prelude.{◌≡◌, ◌↔◌, IsTrue};
ghost use Rattle.arrow_meta_tree.specs.Parts.{nth, parts as parts_of};
ghost use Rattle.arrow_meta_schema.specs.SchemaMeaning.{head_of};
ghost use Rattle.arrow_meta_schema.specs.Sharing.{AreLabelledAlike, code_in, tag_of};
ghost use Rattle.arrow_meta_tree.specs.Slots as slots;
ghost use Rattle.arrow_meta_tree.specs.Views.{plain_all};

use crate::fields::encoding_at;
use crate::types::same_part;
use arrow_meta_tree::codes::{TypeCode, type_code};
use arrow_meta_tree::parts::{flag_at, number_at, part, text_at};
use arrow_meta_tree::{Tree, slots};

/// Whether two Field tables with these fields have the same name, `nullable`, type and encoding,
/// whatever their children are.
pub(crate) fn same_head(one: &[Tree], other: &[Tree]) -> bool
    ensures same { IsTrue result ↔ (head_of (plain_all one.now) ≡ head_of (plain_all other.now)) }
{
    same_label(one, other) && same_tag(one, other)
}

/// Whether they have the same name, `nullable` and encoding.
fn same_label(one: &[Tree], other: &[Tree]) -> bool
    ensures same { IsTrue result ↔ AreLabelledAlike (plain_all one.now) (plain_all other.now) }
{
    text_at(one, slots::field::NAME) == text_at(other, slots::field::NAME)
        && flag_at(one, slots::field::NULLABLE) == flag_at(other, slots::field::NULLABLE)
        && encoding_at(one, slots::field::DICTIONARY)
            == encoding_at(other, slots::field::DICTIONARY)
}

/// Whether they have the same type, whatever their children are.
pub(crate) fn same_tag(one: &[Tree], other: &[Tree]) -> bool
    ensures same { IsTrue result ↔ (tag_of (plain_all one.now) ≡ tag_of (plain_all other.now)) }
{
    let code = code_in(one);
    same_code(code, code_in(other)) && same_part(code, table_of(one), table_of(other))
}

/// Whether two codes are the same.
fn same_code(one: TypeCode, other: TypeCode) -> bool
    ensures same { IsTrue result ↔ (one ≡ other) }
{
    one == other
}

/// The type that a Field table with these fields names, Null if its code names none.
fn code_in(parts: &[Tree]) -> TypeCode
    ensures code { result ≡ code_in (plain_all parts.now) }
{
    type_code(number_at(parts, slots::field::TYPE_TYPE, 0)).unwrap_or(TypeCode::Null)
}

/// The fields of the type's table, none if it is absent.
fn table_of(parts: &[Tree]) -> &[Tree]
    ensures table { plain_all result.now ≡ parts_of (nth slots.field_type (plain_all parts.now)) }
{
    match part(parts, slots::field::TYPE) {
        Some(Tree::Table(_, fields)) => fields,
        Some(Tree::Leaf(_)) => &[],
        Some(Tree::Tables(_)) => &[],
        None => &[],
    }
}
