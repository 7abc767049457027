//! Whether the type of each field, by itself, is one that a schema may have.

ghost use Rattle.std.specs.Prelude.{◌≡◌, ◌==◌, [], ◌∷◌};
ghost use Rattle.arrow_types.specs.Field.{fields_of, width};
ghost use Rattle.arrow_types.specs.Schema.{are_entries, field_is_flawed, is_bad_decimal, is_flawed, is_struct};
ghost use Rattle.arrow_types.specs.Schema.{is_wide, lacks_entries, some_flawed};
ghost use Rattle.arrow_types.specs.View.{field_view, fields_view, type_view};

use crate::fault::SchemaFault;
use crate::field::{DataType, Field};

/// The greatest width of fixed-size byte strings, and the greatest size of fixed-size lists.
pub(crate) const MAX_WIDTH: u32 = 2_147_483_647;

/// Whether one of the fields, on any level, has a type to which the fault applies. Faults that do
/// not concern a single type apply to none.
#[cycle(flaws)]
pub(crate) fn some_flawed(fault: SchemaFault, fields: &[Field]) -> bool
    ensures { result ≡ some_flawed fault (fields_view fields.now) }
{
    for field in fields {
        if field_is_flawed(fault, field) {
            return true;
        }
    }
    false
}

/// The same for one field and those below it.
#[cycle(flaws)]
fn field_is_flawed(fault: SchemaFault, field: &Field) -> bool
    ensures { result ≡ field_is_flawed fault (field_view field.now) }
{
    is_flawed(fault, &field.data_type) || some_flawed(fault, field.children())
}

/// Whether the fault applies to the type itself.
fn is_flawed(fault: SchemaFault, data_type: &DataType) -> bool
    ensures { result
        ≡ is_flawed fault (type_view data_type.now).tag (type_view data_type.now).children }
{
    match fault {
        SchemaFault::ByteWidth => is_wide(data_type),
        SchemaFault::MapEntries => lacks_entries(data_type),
        SchemaFault::DecimalRange => is_bad_decimal(data_type),
        _ => false,
    }
}

/// Whether the type has a fixed size over the limit, in bytes or in values.
fn is_wide(data_type: &DataType) -> bool
    ensures { result ≡ is_wide (type_view data_type.now).tag }
{
    match data_type {
        DataType::FixedSizeBinary(width) => *width > MAX_WIDTH,
        DataType::FixedSizeList(_, size) => *size > MAX_WIDTH,
        _ => false,
    }
}

/// Whether the type is a decimal whose width does not allow its precision or its scale.
fn is_bad_decimal(data_type: &DataType) -> bool
    ensures { result ≡ is_bad_decimal (type_view data_type.now).tag }
{
    match data_type {
        DataType::Decimal {
            width,
            precision,
            scale,
        } => !width.allows(*precision, *scale),
        _ => false,
    }
}

/// Whether the type is a map without entries.
fn lacks_entries(data_type: &DataType) -> bool
    ensures { result ≡ lacks_entries (type_view data_type.now).tag (type_view data_type.now).children }
{
    match data_type {
        DataType::Map(entries, _) => !are_entries(entries),
        _ => false,
    }
}

/// Whether the field is a struct of two fields that is not dictionary-encoded (`Schema.fbs`, table
/// `Map`).
fn are_entries(field: &Field) -> bool
    ensures { result ≡ are_entries (fields_of (field_view field.now ∷ [])) }
{
    is_struct(&field.data_type) && field.dictionary.is_none() && are_two(field.children())
}

/// Whether the type is a struct type.
fn is_struct(data_type: &DataType) -> bool
    ensures { result ≡ is_struct (type_view data_type.now).tag }
{
    matches!(data_type, DataType::Struct(_))
}

/// Whether there are two fields.
fn are_two(fields: &[Field]) -> bool
    ensures { result ≡ (width (fields_view fields.now) == 2) }
{
    fields.len() == 2
}
