//! Whether a dictionary is below a dictionary.

ghost use Rattle.std.specs.Prelude.{◌≡◌, ◌||◌, is_some};
ghost use Rattle.arrow_types.specs.Schema.{has_encoding, is_nested, field_is_nested};
ghost use Rattle.arrow_types.specs.View.{field_view, fields_view, type_view};

use crate::field::{DataType, Field};

/// Whether a dictionary-encoded field is below a dictionary-encoded field.
#[cycle(nesting)]
pub(crate) fn are_nested(fields: &[Field]) -> bool
    ensures { result ≡ is_nested (fields_view fields.now) }
{
    for field in fields {
        if has_nested(field) {
            return true;
        }
    }
    false
}

/// The same for one field and those below it.
#[cycle(nesting)]
fn has_nested(field: &Field) -> bool
    ensures { result ≡ field_is_nested (field_view field.now) }
{
    if field.dictionary.is_some() && have_encoding(field.children()) {
        return true;
    }
    are_nested(field.children())
}

impl DataType {
    /// Whether a child, on any level, is dictionary-encoded. Allocates nothing.
    pub fn has_encoding_below(&self) -> bool
        ensures { result ≡ has_encoding ((type_view self.now).children) }
    {
        have_encoding(self.children())
    }
}

/// Whether one of the fields, on any level, is dictionary-encoded.
#[cycle(encodings)]
pub(crate) fn have_encoding(fields: &[Field]) -> bool
    ensures { result ≡ has_encoding (fields_view fields.now) }
{
    for field in fields {
        if has_encoding(field) {
            return true;
        }
    }
    false
}

/// The same for one field and those below it.
#[cycle(encodings)]
fn has_encoding(field: &Field) -> bool
    ensures { result ≡ (is_some (field_view field.now).head.encoding
        || has_encoding (field_view field.now).children) }
{
    field.dictionary.is_some() || have_encoding(field.children())
}
