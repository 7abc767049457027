//! Fields of a reader's schema, as the Arrow C data interface describes them.

ghost use Rattle.std.specs.Prelude.{◌≡◌, option_map};
ghost use Rattle.arrowflow_calls.specs.Fields.{FieldAt, ReportsField, field_in, no_field, with_encoding};

use crate::metadata::put_metadata;
use crate::pens::TextPen;
use crate::places::{Place, place_below};
use arrow_types::{Encoding, Schema};

/// A field, or the schema.
#[repr(C)]
#[derive(Clone, Copy)]
pub struct FieldC {
    /// 0 no such field, 1 the schema, 2 a field.
    pub found: u32,
    /// The sum of 1 if the dictionary's order is meaningful, 2 if slots may be null, and 4 if the
    /// keys of maps are sorted.
    pub flags: u32,
    /// Whether the slots hold indices into a dictionary.
    pub is_encoded: bool,
    /// The id of the dictionary.
    pub id: i64,
    /// How many child fields there are: the columns of the schema; none for a field of indices.
    pub children: u64,
    /// How many bytes the name has, also if the output buffer is shorter, at most 2^64 - 1.
    pub name_len: u64,
    /// The same for the format string.
    pub format_len: u64,
    /// The same for the metadata.
    pub metadata_len: u64,
}

impl FieldC {
    /// No field.
    pub fn none() -> FieldC
        ensures { result ≡ no_field }
    {
        FieldC {
            found: 0,
            flags: 0,
            is_encoded: false,
            id: 0,
            children: 0,
            name_len: 0,
            format_len: 0,
            metadata_len: 0,
        }
    }

    /// The same field, whose slots hold these indices.
    fn encoded(self, encoding: Option<Encoding>) -> FieldC
        ensures { result ≡ with_encoding encoding self }
    {
        match encoding {
            Some(encoding) => FieldC {
                is_encoded: true,
                id: encoding.id,
                children: 0,
                ..self
            },
            None => self,
        }
    }

    /// The field that `place` refers to; its texts are put into the output buffer.
    fn of(found: u32, place: Place<'_>, room: &mut [u8]) -> FieldC
        ensures { ReportsField found (field_in place.entry) room.old result room.new }
    {
        let name = TextPen::new().put(room, place.name());
        let format = place.put_format(room, name.next());
        let metadata = put_metadata(room, format.next(), place.metadata());
        FieldC {
            found,
            flags: place.flags(),
            children: place.children().len() as u64,
            name_len: name.size,
            format_len: format.size,
            metadata_len: metadata.size,
            ..FieldC::none()
        }
        .encoded(place.encoding())
    }
}

/// Returns the field of a schema that a path leads to, if there is one.
pub fn report_field(schema: Option<&Schema>, path: &[usize], room: &mut [u8]) -> FieldC
    ensures { FieldAt (option_map (λ s. s.now) schema.entry) path.now room.old result room.new }
{
    let found = if path.is_empty() { 1 } else { 2 };
    match schema {
        Some(schema) => match place_below(Place::Schema(schema), path) {
            Some(place) => FieldC::of(found, place, room),
            None => FieldC::none(),
        },
        None => FieldC::none(),
    }
}
