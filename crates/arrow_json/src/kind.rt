//! How the numbers and the bytes of a type are shown.

ghost use Rattle.std.specs.Prelude.{◌≡◌};
ghost use Rattle.arrow_types.specs.View.{type_view};
ghost use Rattle.arrow_json.specs.Kinds.{kind_of};

use arrow_types::{DataType, IntervalUnit, Precision};

/// How the numbers and the bytes of a type are shown.
#[derive(Clone, Copy)]
pub(crate) enum JsonKind {
    /// As floating-point numbers, which are given by their bits.
    Float(Precision),
    /// As decimals of this scale, which are given by whole numbers.
    Decimal(i8),
    /// As intervals.
    Interval(IntervalUnit),
    /// Numbers as whole numbers, bytes as hexadecimal digits.
    Plain,
}

impl JsonKind {
    /// The kind of the values of a type.
    pub(crate) fn of(data_type: &DataType) -> JsonKind
        ensures { result ≡ kind_of (type_view data_type.now).tag }
    {
        match data_type {
            DataType::FloatingPoint(precision) => JsonKind::Float(*precision),
            DataType::Decimal { scale, .. } => JsonKind::Decimal(*scale),
            DataType::Interval(unit) => JsonKind::Interval(*unit),
            DataType::Null
            | DataType::Bool
            | DataType::Int { .. }
            | DataType::Binary
            | DataType::LargeBinary
            | DataType::FixedSizeBinary(_)
            | DataType::Utf8
            | DataType::LargeUtf8
            | DataType::Date(_)
            | DataType::Time(_)
            | DataType::Timestamp(..)
            | DataType::Duration(_)
            | DataType::List(_)
            | DataType::LargeList(_)
            | DataType::FixedSizeList(..)
            | DataType::Struct(_)
            | DataType::Map(..) => JsonKind::Plain,
        }
    }
}
