//! Where a path leads in a schema.

ghost use Rattle.std.specs.Prelude.{◌≡◌, option_map};
ghost use Rattle.arrow_types.specs.Notes.{pairs_view};
ghost use Rattle.arrow_types.specs.View.{fields_view, notes_view, type_view};
ghost use Rattle.arrowflow_calls.specs.Fields.{below_by, field_below, field_format, field_in, flags_of};
ghost use Rattle.arrowflow_calls.specs.Fields.{has_sorted_keys, is_sorted_map, nth_field};
ghost use Rattle.arrowflow_calls.specs.Pens.{Puts};

use crate::formats::put_type;
use crate::pens::TextPen;
use arrow_types::{DataType, Encoding, Field, Schema};
use arrowflow_text::int_words;

/// What a path leads to.
#[derive(Clone, Copy)]
pub(crate) enum Place<'a> {
    /// The schema.
    Schema(&'a Schema),
    /// A field.
    Field(&'a Field),
    /// The field of the values of this field's dictionary.
    Values(&'a Field),
}

impl<'a> Place<'a> {
    /// The name; a schema and the field of a dictionary's values have none.
    pub(crate) fn name(self) -> &'a [u8]
        ensures { result.now ≡ (field_in self.entry).shape.head.name }
    {
        match self {
            Place::Field(field) => field.name.as_bytes(),
            Place::Schema(_) | Place::Values(_) => &[],
        }
    }

    /// Whether the slots hold indices, and into which dictionary.
    pub(crate) fn encoding(self) -> Option<Encoding>
        ensures { result ≡ (field_in self.entry).shape.head.encoding }
    {
        match self {
            Place::Field(field) => field.dictionary,
            Place::Schema(_) | Place::Values(_) => None,
        }
    }

    /// Whether slots may be null.
    fn is_nullable(self) -> bool
        ensures { result ≡ (field_in self.entry).shape.head.nullable }
    {
        match self {
            Place::Schema(_) => false,
            Place::Field(field) => field.nullable,
            Place::Values(_) => true,
        }
    }

    /// Whether the slots are maps with sorted keys.
    fn has_sorted_keys(self) -> bool
        ensures { result
            ≡ has_sorted_keys (field_in self.entry).shape.head.encoding
            (field_in self.entry).shape.head.tag }
    {
        match self {
            Place::Schema(_) => false,
            Place::Field(field) => match field.dictionary {
                Some(_) => false,
                None => is_sorted_map(&field.data_type),
            },
            Place::Values(field) => is_sorted_map(&field.data_type),
        }
    }

    /// The flags: 1 if the dictionary is ordered, 2 if slots may be null, 4 if keys are sorted.
    pub(crate) fn flags(self) -> u32
        ensures { result ≡ flags_of (field_in self.entry).shape.head }
    {
        let nullable = if self.is_nullable() { 2 } else { 0 };
        let sorted = if self.has_sorted_keys() { 4 } else { 0 };
        match self.encoding() {
            Some(encoding) if encoding.ordered => 1 + nullable + sorted,
            Some(_) | None => nullable + sorted,
        }
    }

    /// The fields below, or those below the values of the dictionary.
    pub(crate) fn children(self) -> &'a [Field]
        ensures fields { fields_view result.now ≡ (field_in self.entry).shape.children }
        ensures notes { notes_view result.now ≡ (field_in self.entry).notes.below }
    {
        match self {
            Place::Schema(schema) => schema.fields(),
            Place::Field(field) | Place::Values(field) => field.children(),
        }
    }

    /// The metadata; the field of a dictionary's values has none.
    pub(crate) fn metadata(self) -> &'a [(Vec<u8>, Vec<u8>)]
        ensures { pairs_view result.now ≡ (field_in self.entry).notes.pairs }
    {
        match self {
            Place::Schema(schema) => schema.metadata(),
            Place::Field(field) => &field.metadata,
            Place::Values(_) => &[],
        }
    }

    /// Puts the format string into the output buffer.
    pub(crate) fn put_format(self, room: &mut [u8], pen: TextPen) -> TextPen
        ensures { Puts room.old pen (field_format (field_in self.entry).shape.head)
            result room.new }
    {
        if let Some(Encoding { index, .. }) = self.encoding() {
            let index = int_words(index.bits, index.signed);
            return pen.put(room, index.format.as_bytes());
        }
        match self {
            Place::Schema(_) => pen.put(room, b"+s"),
            Place::Field(field) | Place::Values(field) => put_type(room, pen, &field.data_type),
        }
    }

    /// The field below by its number: a child, or the field of the dictionary's values under 0.
    fn below(self, n: usize) -> Option<Place<'a>>
        ensures { option_map field_in result
            ≡ below_by (field_in self.entry).shape.head.encoding (field_in self.entry) n }
    {
        match self {
            Place::Field(field) if field.dictionary.is_some() => match n {
                0 => Some(Place::Values(field)),
                _ => None,
            },
            Place::Schema(_) | Place::Field(_) | Place::Values(_) => nth_field(self.children(), n),
        }
    }
}

/// Field `n` of some sibling fields.
fn nth_field(fields: &[Field], n: usize) -> Option<Place<'_>>
    ensures { option_map field_in result
        ≡ nth_field (fields_view fields.now) (notes_view fields.now) n }
{
    match fields.get(n) {
        Some(field) => Some(Place::Field(field)),
        None => None,
    }
}

/// What a path leads to from a field or the schema.
pub(crate) fn place_below<'a>(place: Place<'a>, path: &[usize]) -> Option<Place<'a>>
    ensures { option_map field_in result ≡ field_below (field_in place.entry) path.now }
{
    match path.split_first() {
        Some((n, rest)) => match place.below(*n) {
            Some(next) => place_below(next, rest),
            None => None,
        },
        None => Some(place),
    }
}

/// Whether the type is that of maps with sorted keys.
fn is_sorted_map(data_type: &DataType) -> bool
    ensures { result ≡ is_sorted_map (type_view data_type.now).tag }
{
    match data_type {
        DataType::Map(_, sorted) => *sorted,
        _ => false,
    }
}
