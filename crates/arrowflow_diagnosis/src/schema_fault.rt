//! Why a schema is rejected, with the path to the field at fault.

ghost use Rattle.std.specs.Prelude.{◌≡◌, ◌<◌, IfSome, Some, is_some, length, take};
ghost use Rattle.arrow_flatbuf.specs.Table.{field_place};
ghost use Rattle.arrow_meta_tree.specs.Slots.{field_dictionary};
ghost use Rattle.arrowflow_diagnosis.specs.Fields.{FieldFails, HasField, LeadsToEncoded, SchemaFails};
ghost use Rattle.arrowflow_diagnosis.specs.Fields.{schema_kind};
ghost use Rattle.arrowflow_diagnosis.specs.Message.{header_table};
ghost use Rattle.arrowflow_diagnosis.specs.Places.{below, field_at};
ghost use Rattle.arrowflow_diagnosis.specs.Rejection.{situation_of};

use crate::field_fault::{FieldCondition, misfit_in, unreadable_in, unsupported_in};
use crate::message_fault::{SCHEMA, header_table, message_number};
use crate::places::Spot;
use crate::rejected::Rejected;
use arrow_meta_tree::slots;
use arrow_stream_reader::Kind;
use arrow_types::TypeSet;
use std::alloc::Global;

/// The greatest number of steps of a walk over fields: two for each of the 65,536 fields that a
/// reader accepts, and one more for each level.
const STEPS: u32 = 140_000;

/// Why a schema is rejected (`Schema.fbs`, table `Schema`). A path is the index of a column, and
/// then of a child on each level below it, from 0.
#[derive(Debug, Drop)]
pub enum SchemaCondition {
    /// The byte order has this number, and is not little-endian.
    Endianness {
        number: u64,
    },
    /// The field at this path itself has a fault.
    Field {
        path: Vec<u32>,
        fault: FieldCondition,
    },
    /// The field at this path is dictionary-encoded, and so is the field above it to which the
    /// first `above` steps of the path lead.
    Nested {
        path: Vec<u32>,
        above: usize,
    },
}

impl SchemaCondition {
    /// The kind of the reader's fault.
    pub fn kind(&self) -> Kind
        ensures { result ≡ schema_kind self.now }
    {
        match self {
            SchemaCondition::Endianness { .. } => Kind::Unsupported,
            SchemaCondition::Field { fault, .. } => fault.kind(),
            SchemaCondition::Nested { .. } => Kind::Unsupported,
        }
    }
}

/// The first thing that is not supported in the schema of a message, in the order of the fields: its
/// byte order, a type or a kind of dictionary; else a dictionary below a dictionary.
pub(crate) fn unsupported(alloc: Global, rejected: &Rejected) -> Option<SchemaCondition>
    ensures { IfSome result (λ fault. SchemaFails fault (situation_of rejected.now)) }
{
    let schema = header_table(rejected.message)?;
    let number = schema.number(slots::schema::ENDIANNESS, 2, 0)?;
    if number != 0 {
        return Some(SchemaCondition::Endianness { number });
    }
    match field_fault(alloc, Search::Unsupported, rejected) {
        Some(fault) => Some(fault),
        None => nested(alloc, rejected),
    }
}

/// The first field of the schema of a message that has something its type cannot have.
pub(crate) fn misfit(alloc: Global, rejected: &Rejected) -> Option<SchemaCondition>
    ensures { IfSome result (λ fault. SchemaFails fault (situation_of rejected.now)) }
{
    field_fault(alloc, Search::Misfit, rejected)
}

/// The first field of the schema of a message whose type has no readable table.
pub(crate) fn unreadable(alloc: Global, rejected: &Rejected) -> Option<SchemaCondition>
    ensures { IfSome result (λ fault. SchemaFails fault (situation_of rejected.now)) }
{
    if message_number(rejected.message, slots::message::HEADER_TYPE, 1)? != SCHEMA {
        return None;
    }
    field_fault(alloc, Search::Unreadable, rejected)
}

/// What fields are searched for.
#[derive(Clone, Copy)]
enum Search {
    /// Something that is not supported.
    Unsupported,
    /// Something that the type of the field cannot have.
    Misfit,
    /// A table that is not readable.
    Unreadable,
}

impl Search {
    /// The fault of this sort that a field itself has.
    fn fault_in(self, types: TypeSet, field: &Spot) -> Option<FieldCondition>
        ensures { IfSome result (λ fault. FieldFails fault types field.now) }
    {
        match self {
            Search::Unsupported => unsupported_in(types, field),
            Search::Misfit => misfit_in(types, field),
            Search::Unreadable => unreadable_in(types, field),
        }
    }
}

/// The first field, in pre-order, with a fault of this sort.
fn field_fault(alloc: Global, search: Search, rejected: &Rejected) -> Option<SchemaCondition>
    ensures { IfSome result (λ fault. SchemaFails fault (situation_of rejected.now)) }
{
    let schema = header_table(rejected.message)?;
    let types = rejected.limits.types();
    let mut path = first_path(alloc)?;
    for _ in 0..STEPS {
        let field = field_at(&schema, &path);
        if let Some(field) = &field
            && let Some(fault) = search.fault_in(types, field)
        {
            return Some(SchemaCondition::Field { path, fault });
        }
        step(&mut path, field.is_some())?;
    }
    None
}

/// The first dictionary-encoded field, in pre-order, that is below another one.
fn nested(alloc: Global, rejected: &Rejected) -> Option<SchemaCondition>
    ensures { IfSome result (λ fault. SchemaFails fault (situation_of rejected.now)) }
{
    let schema = header_table(rejected.message)?;
    let mut path = first_path(alloc)?;
    for _ in 0..STEPS {
        let field = field_at(&schema, &path);
        if let Some(field) = &field
            && is_encoded(field)
            && let Some(above) = encoded_above(&schema, &path)
        {
            return Some(SchemaCondition::Nested { path, above });
        }
        step(&mut path, field.is_some())?;
    }
    None
}

/// The number of steps of a path that lead to the first dictionary-encoded field above its end.
fn encoded_above(schema: &Spot, path: &[u32]) -> Option<usize>
    ensures inside { IfSome result (λ above. above < length path.now) }
    ensures encoded { IfSome result (λ above. LeadsToEncoded schema.now (take above path.now)) }
{
    for above in 1..path.len() {
        if let Some(field) = field_at(schema, &path[..above])
            && is_encoded(&field)
        {
            return Some(above);
        }
    }
    None
}

/// Whether a field is dictionary-encoded.
fn is_encoded(field: &Spot) -> bool
    ensures { result ≡ is_some (field_place field.now field_dictionary) }
{
    field.field(slots::field::DICTIONARY).is_some()
}

/// The path of the first column.
fn first_path(alloc: Global) -> Option<Vec<u32>> {
    let mut path = Vec::new(alloc);
    path.push(0).ok()?;
    Some(path)
}

/// Moves a path on in pre-order: from a field to its first child, and from a path without a field
/// to the field after the one above. `None` after the last column, or if an allocation failed.
fn step(path: &mut Vec<u32>, is_field: bool) -> Option<()> {
    if is_field {
        return path.push(0).ok();
    }
    path.pop();
    let last = path.last_mut()?;
    *last = last.checked_add(1)?;
    Some(())
}

/// The field of a schema to which a path leads.
pub fn field_at<'a>(schema: &Spot<'a>, path: &[u32]) -> Option<Spot<'a>>
    ensures { result ≡ field_at schema.now path.now }
{
    let (column, children) = path.split_first()?;
    below(schema.element(slots::schema::FIELDS, *column)?, children)
}

/// The descendant of a field to which the child indices lead.
fn below<'a>(field: Spot<'a>, path: &[u32]) -> Option<Spot<'a>>
    ensures { result ≡ below field.entry path.now }
{
    match path.split_first() {
        None => Some(field),
        Some((child, rest)) => below(field.element(slots::field::CHILDREN, *child)?, rest),
    }
}
