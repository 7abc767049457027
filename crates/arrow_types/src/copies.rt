//! Equal types and fields in memory of their own.

ghost use Rattle.std.specs.Prelude.{◌≡◌, IfOk};
ghost use Rattle.arrow_types.specs.View.{field_notes, field_view, fields_view, notes_view};
ghost use Rattle.arrow_types.specs.View.{type_notes, type_view};

use crate::field::{DataType, Field};
use crate::notes::copy_pairs;
use std::alloc::{AllocError, Global};

impl DataType {
    /// An equal type in memory of its own, or `AllocError` if an allocation failed.
    #[cycle(copy)]
    pub fn copy(&self, alloc: Global) -> Result<DataType, AllocError>
        ensures same { IfOk result (λ t. type_view t ≡ type_view self.now) }
        ensures notes { IfOk result (λ t. type_notes t ≡ type_notes self.now) }
    {
        match self {
            DataType::Null => Ok(DataType::Null),
            DataType::Bool => Ok(DataType::Bool),
            DataType::Int { bits, signed } => Ok(DataType::Int {
                bits: *bits,
                signed: *signed,
            }),
            DataType::FloatingPoint(precision) => Ok(DataType::FloatingPoint(*precision)),
            DataType::Decimal {
                width,
                precision,
                scale,
            } => Ok(DataType::Decimal {
                width: *width,
                precision: *precision,
                scale: *scale,
            }),
            DataType::Binary => Ok(DataType::Binary),
            DataType::LargeBinary => Ok(DataType::LargeBinary),
            DataType::FixedSizeBinary(width) => Ok(DataType::FixedSizeBinary(*width)),
            DataType::Utf8 => Ok(DataType::Utf8),
            DataType::LargeUtf8 => Ok(DataType::LargeUtf8),
            DataType::Date(unit) => Ok(DataType::Date(*unit)),
            DataType::Time(unit) => Ok(DataType::Time(*unit)),
            DataType::Timestamp(unit, None) => Ok(DataType::Timestamp(*unit, None)),
            DataType::Timestamp(unit, Some(zone)) => {
                Ok(DataType::Timestamp(*unit, Some(zone.clone()?)))
            }
            DataType::Duration(unit) => Ok(DataType::Duration(*unit)),
            DataType::Interval(unit) => Ok(DataType::Interval(*unit)),
            DataType::List(item) => Ok(DataType::List(Box::new(alloc, item.copy(alloc)?)?)),
            DataType::LargeList(item) => {
                Ok(DataType::LargeList(Box::new(alloc, item.copy(alloc)?)?))
            }
            DataType::FixedSizeList(item, size) => {
                Ok(DataType::FixedSizeList(Box::new(alloc, item.copy(alloc)?)?, *size))
            }
            DataType::Struct(fields) => Ok(DataType::Struct(copy_fields(alloc, fields)?)),
            DataType::Map(entries, sorted) => {
                Ok(DataType::Map(Box::new(alloc, entries.copy(alloc)?)?, *sorted))
            }
        }
    }
}

impl Field {
    /// An equal field in memory of its own, or `AllocError` if an allocation failed.
    #[cycle(copy)]
    pub fn copy(&self, alloc: Global) -> Result<Field, AllocError>
        ensures same { IfOk result (λ f. field_view f ≡ field_view self.now) }
        ensures notes { IfOk result (λ f. field_notes f ≡ field_notes self.now) }
    {
        Ok(Field {
            name: self.name.clone()?,
            nullable: self.nullable,
            data_type: self.data_type.copy(alloc)?,
            dictionary: self.dictionary,
            metadata: copy_pairs(alloc, &self.metadata)?,
        })
    }
}

/// Equal fields in memory of their own.
#[cycle(copy)]
pub(crate) fn copy_fields(alloc: Global, fields: &[Field]) -> Result<Vec<Field>, AllocError>
    ensures same { IfOk result (λ v. fields_view v.items ≡ fields_view fields.now) }
    ensures notes { IfOk result (λ v. notes_view v.items ≡ notes_view fields.now) }
{
    let mut copies = Vec::with_capacity(alloc, fields.len())?;
    for field in fields {
        copies.push(field.copy(alloc)?)?;
    }
    Ok(copies)
}
