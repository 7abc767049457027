//! Schemas: fields that keep to the fixed limits.

ghost use Rattle.std.specs.Prelude.{◌≡◌, ◌↔◌, IsTrue, IfOk, [], nat_lt};
ghost use Rattle.arrow_types.specs.Notes.{pair_count, pairs_view};
ghost use Rattle.arrow_types.specs.Schema.{late_fault};
ghost use Rattle.arrow_types.specs.View.{fields_view, notes_view, schema_view};

use crate::copies::copy_fields;
use crate::dictionaries::ids_of;
use crate::differing::types_differ;
use crate::drop_iteratively::drop_iteratively;
use crate::fault::SchemaFault;
use crate::field::Field;
use crate::flaws::{MAX_WIDTH, some_flawed};
use crate::nesting::are_nested;
use crate::notes::{after_notes, after_pairs, are_noted_alike, copy_pairs, same_pairs};
use crate::same::same_fields;
use crate::size::{after_fields, have_levels};
use std::alloc::{AllocError, Global};
use std::marker::Model;

/// The columns of a stream's batches (`Schema.fbs`, table `Schema`).
///
/// Its fields keep to the limits of 32 levels and 65,536 fields; none of its dictionaries is below
/// another, those with the same id have one value type, no fixed size is over the greatest signed
/// 32-bit number, the child of each map is a struct of two fields that is not dictionary-encoded,
/// and the width of each decimal allows its precision and scale. It has at most 65,536 pairs of
/// metadata, including those of its fields. Code that has a schema need not check any of this
/// again.
#[derive(Debug, Drop)]
pub struct Schema {
    fields: Vec<Field>,
    metadata: Vec<(Vec<u8>, Vec<u8>)>,
    dictionary_ids: Vec<i64>,
}

impl Model for Schema {
    ghost use Rattle.arrow_types.specs.Notes.{SchemaShape, pairs_view};
    ghost use Rattle.arrow_types.specs.Stored.{schema_code};

    ghost Value = { SchemaShape };

    ghost coded = { schema_code };

    ghost use Rattle.arrow_types.specs.Schema.{IsKept};
    ghost use Rattle.arrow_types.specs.View.{schema_view};

    ghost view = { λ s. schema_view s.fields.items (pairs_view s.metadata.items) };

    ghost invariant = { λ s. IsKept s.dictionary_ids.items
        (schema_view s.fields.items (pairs_view s.metadata.items)) };
}

impl Schema {
    ghost use Rattle.arrow_types.specs.Schema.{Judges, IsSchema, IsNoted, dictionary_ids};

    /// The greatest number of levels of fields, where a column is level 1.
    pub const MAX_LEVELS: u32 = 32;

    /// The greatest number of fields on all levels together.
    pub const MAX_FIELDS: u32 = 65_536;

    /// The greatest width of fixed-size byte strings, in bytes, and the greatest size of fixed-size
    /// lists, in values.
    pub const MAX_WIDTH: u32 = MAX_WIDTH;

    /// The greatest number of pairs of metadata, those of the schema and those of its fields on all
    /// levels together.
    pub const MAX_PAIRS: u32 = 65_536;

    /// The schema of these columns, without metadata of its own, or the fault with the least number
    /// of those that apply: what [`Schema::with_metadata`] returns without pairs.
    pub fn new(alloc: Global, fields: Vec<Field>) -> Result<Schema, SchemaFault>
        ensures { Judges result (schema_view fields.items []) }
    {
        Schema::with_metadata(alloc, fields, Vec::new(alloc))
    }

    /// The schema of these columns with these pairs of metadata, or the fault with the least number
    /// of those that apply.
    ///
    /// Levels of fields below the 32nd are not visited, and the time grows as n log n with the
    /// number of fields. Memory is allocated only for the dictionary ids, so there is no `Memory`
    /// for fields none of which is dictionary-encoded, on any level. If that allocation fails, the
    /// types of shared ids are compared without any memory, in a time that grows with the square of
    /// the number of dictionary-encoded fields.
    pub fn with_metadata(
        alloc: Global,
        fields: Vec<Field>,
        metadata: Vec<(Vec<u8>, Vec<u8>)>,
    ) -> Result<Schema, SchemaFault>
        ensures { Judges result (schema_view fields.items (pairs_view metadata.items)) }
    {
        if !have_levels(&fields, Schema::MAX_LEVELS) {
            drop_iteratively(fields);
            return Err(SchemaFault::TooDeep);
        }
        if after_fields(&fields, Schema::MAX_FIELDS).is_none() {
            return Err(SchemaFault::TooManyFields);
        }
        if are_nested(&fields) {
            return Err(SchemaFault::NestedDictionary);
        }
        match ids_of(alloc, &fields) {
            Ok(Some(dictionary_ids)) => match late_fault(&fields, &metadata) {
                Some(fault) => Err(fault),
                None => Ok(Schema {
                    fields,
                    metadata,
                    dictionary_ids,
                }),
            },
            Ok(None) => Err(SchemaFault::SharedIdTypesDiffer),
            Err(_) if types_differ(&fields) => Err(SchemaFault::SharedIdTypesDiffer),
            Err(_) => Err(SchemaFault::Memory),
        }
    }

    /// The columns, each with the fields below it. Allocates nothing.
    pub fn fields(&self) -> &[Field]
        ensures same { fields_view result.now ≡ self.now.fields }
        ensures limits { IsSchema self.now.fields }
        ensures notes { notes_view result.now ≡ self.now.notes }
    {
        &self.fields
    }

    /// The schema's own metadata: pairs of a key and a value in their order, each any bytes. Those
    /// of a field are in the field. Allocates nothing.
    pub fn metadata(&self) -> &[(Vec<u8>, Vec<u8>)]
        ensures same { pairs_view result.now ≡ self.now.pairs }
        ensures limits { IsNoted self.now }
    {
        &self.metadata
    }

    /// The ids of the dictionaries, each once, in the order of the fields that have them first: a
    /// field before its children, and these before the field after it. Allocates nothing.
    pub fn dictionary_ids(&self) -> &[i64]
        ensures { result.now ≡ dictionary_ids self.now.fields }
    {
        &self.dictionary_ids
    }

    /// An equal schema in memory of its own, or `AllocError` if an allocation failed.
    pub fn copy(&self, alloc: Global) -> Result<Schema, AllocError>
        ensures { IfOk result (λ s. s ≡ self.now) }
    {
        let fields = copy_fields(alloc, &self.fields)?;
        let metadata = copy_pairs(alloc, &self.metadata)?;
        let dictionary_ids = Vec::from_slice(alloc, &self.dictionary_ids)?;
        Ok(Schema {
            fields,
            metadata,
            dictionary_ids,
        })
    }
}

/// The first of the faults after `Memory` that apply to these fields and pairs.
fn late_fault(fields: &[Field], pairs: &[(Vec<u8>, Vec<u8>)]) -> Option<SchemaFault>
    ensures { result ≡ late_fault (schema_view fields.now (pairs_view pairs.now)) }
{
    if some_flawed(SchemaFault::ByteWidth, fields) {
        return Some(SchemaFault::ByteWidth);
    }
    if have_too_many_pairs(fields, pairs) {
        return Some(SchemaFault::TooManyPairs);
    }
    if some_flawed(SchemaFault::MapEntries, fields) {
        return Some(SchemaFault::MapEntries);
    }
    if some_flawed(SchemaFault::DecimalRange, fields) {
        return Some(SchemaFault::DecimalRange);
    }
    None
}

/// Whether a schema of these fields and pairs would have more pairs than it may.
fn have_too_many_pairs(fields: &[Field], pairs: &[(Vec<u8>, Vec<u8>)]) -> bool
    ensures { result ≡ nat_lt 65536 (pair_count (schema_view fields.now (pairs_view pairs.now))) }
{
    match after_pairs(pairs, Schema::MAX_PAIRS) {
        Some(left) => after_notes(fields, left).is_none(),
        None => true,
    }
}

/// Schemas are equal if all their fields and their metadata are. Nothing is allocated.
impl PartialEq for Schema {
    ghost use Rattle.arrow_types.specs.Equality.{is_equal, is_equal_equivalence};
    ghost use Rattle.arrow_types.specs.Stored.{schema_code};
    ghost use Rattle.std.specs.Cmp.{partial_equiv_from_equiv};

    ghost eq = { is_equal schema_code };

    ghost laws = { partial_equiv_from_equiv (is_equal_equivalence schema_code) };

    fn eq(&self, other: &Schema) -> bool
        ensures gives { result ≡ is_equal schema_code self.now other.now }
        ensures same { IsTrue result ↔ (self.now ≡ other.now) }
    {
        same_schema(self, other)
    }
}

/// Whether the schemas are equal, including all metadata.
fn same_schema(one: &Schema, other: &Schema) -> bool
    ensures { IsTrue result ↔ (one.now ≡ other.now) }
{
    same_fields(&one.fields, &other.fields)
        && are_noted_alike(&one.fields, &other.fields)
        && same_pairs(&one.metadata, &other.metadata)
}

impl Eq for Schema {
    ghost use Rattle.arrow_types.specs.Equality.{is_equal_equivalence};
    ghost use Rattle.arrow_types.specs.Stored.{schema_code};

    ghost laws = { is_equal_equivalence schema_code };
}
