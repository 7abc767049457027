//! Whether types and fields are equal, with their metadata (`==`) and without them.

ghost use Rattle.std.specs.Prelude.{◌≡◌, ◌↔◌, IsTrue};
ghost use Rattle.arrow_types.specs.DataType.{decimal};
ghost use Rattle.arrow_types.specs.Equality.{is_equal, is_equal_equivalence};
ghost use Rattle.arrow_types.specs.Stored.{type_code, whole_field_code, whole_type_code};
ghost use Rattle.arrow_types.specs.View.{field_view, fields_view, leaf, type_view};
ghost use Rattle.arrow_types.specs.View.{whole_field, whole_type};
ghost use Rattle.std.specs.Cmp.{on_per, on_equiv, partial_equiv_from_equiv};
ghost use Rattle.std.specs.Ordering.{on};

use crate::data_type::DecimalWidth;
use crate::field::{DataType, Field};
use crate::notes::{have_same_notes, have_same_notes_below};

impl DataType {
    /// Whether the types are the same: their widths, units and zones, and the names, `nullable`,
    /// types and encodings of the fields below them. The metadata of these fields are ignored on
    /// every level; `==` compares them too. Allocates nothing.
    pub fn same(&self, other: &DataType) -> bool
        ensures gives { result ≡ is_equal type_code (type_view self.now) (type_view other.now) }
        ensures same { IsTrue result ↔ (type_view self.now ≡ type_view other.now) }
    {
        same_type(self, other)
    }
}

/// Whether the types are the same. Each type is spelled out; different types are not the same.
#[cycle(same)]
fn same_type(one: &DataType, other: &DataType) -> bool
    ensures { IsTrue result ↔ (type_view one.now ≡ type_view other.now) }
{
    match one {
        DataType::Null => matches!(other, DataType::Null),
        DataType::Bool => matches!(other, DataType::Bool),
        DataType::Int { bits, signed } => {
            matches!(other, DataType::Int { bits: b, signed: s } if b == bits && s == signed)
        }
        DataType::FloatingPoint(precision) => {
            matches!(other, DataType::FloatingPoint(p) if p == precision)
        }
        DataType::Decimal {
            width,
            precision,
            scale,
        } => is_decimal_of(other, *width, *precision, *scale),
        DataType::Binary => matches!(other, DataType::Binary),
        DataType::LargeBinary => matches!(other, DataType::LargeBinary),
        DataType::FixedSizeBinary(width) => {
            matches!(other, DataType::FixedSizeBinary(w) if w == width)
        }
        DataType::Utf8 => matches!(other, DataType::Utf8),
        DataType::LargeUtf8 => matches!(other, DataType::LargeUtf8),
        DataType::Date(unit) => matches!(other, DataType::Date(u) if u == unit),
        DataType::Time(unit) => matches!(other, DataType::Time(u) if u == unit),
        DataType::Timestamp(unit, zone) => {
            matches!(other, DataType::Timestamp(u, z) if u == unit && z == zone)
        }
        DataType::Duration(unit) => matches!(other, DataType::Duration(u) if u == unit),
        DataType::Interval(unit) => matches!(other, DataType::Interval(u) if u == unit),
        DataType::List(item) => matches!(other, DataType::List(i) if same_field(item, i)),
        DataType::LargeList(item) => {
            matches!(other, DataType::LargeList(i) if same_field(item, i))
        }
        DataType::FixedSizeList(item, size) => {
            matches!(other, DataType::FixedSizeList(i, s) if s == size && same_field(item, i))
        }
        DataType::Struct(fields) => {
            matches!(other, DataType::Struct(f) if same_fields(fields, f))
        }
        DataType::Map(entries, sorted) => {
            matches!(other, DataType::Map(e, s) if s == sorted && same_field(entries, e))
        }
    }
}

/// Whether the type is the decimal type of this width, precision and scale.
fn is_decimal_of(data_type: &DataType, width: DecimalWidth, precision: u8, scale: i8) -> bool
    ensures { IsTrue result
        ↔ (type_view data_type.now ≡ leaf (decimal width precision scale)) }
{
    matches!(
        data_type,
        DataType::Decimal {
            width: w,
            precision: p,
            scale: s,
        } if *w == width && *p == precision && *s == scale
    )
}

/// Whether the fields are equal in everything that they hold except their metadata.
#[cycle(same)]
fn same_field(one: &Field, other: &Field) -> bool
    ensures { IsTrue result ↔ (field_view one.now ≡ field_view other.now) }
{
    one.name == other.name
        && one.nullable == other.nullable
        && one.dictionary == other.dictionary
        && same_type(&one.data_type, &other.data_type)
}

/// Whether there are as many fields in both lists, and they are equal one by one except for their
/// metadata.
#[cycle(same)]
pub(crate) fn same_fields(fields: &[Field], others: &[Field]) -> bool
    ensures { IsTrue result ↔ (fields_view fields.now ≡ fields_view others.now) }
{
    if fields.len() != others.len() {
        return false;
    }
    for i in 0..fields.len() {
        if !same_field(&fields[i], &others[i]) {
            return false;
        }
    }
    true
}

/// Types are equal if everything that they hold is: widths, units and zones, and the names,
/// `nullable`, encodings and metadata of the fields below them. Nothing is allocated.
impl PartialEq for DataType {
    ghost eq = { on whole_type (is_equal whole_type_code) };

    ghost laws = { on_per whole_type
        (partial_equiv_from_equiv (is_equal_equivalence whole_type_code)) };

    fn eq(&self, other: &DataType) -> bool
        ensures gives { result
            ≡ is_equal whole_type_code (whole_type self.now) (whole_type other.now) }
        ensures same { IsTrue result ↔ (whole_type self.now ≡ whole_type other.now) }
    {
        same_type_with_notes(self, other)
    }
}

/// Whether the types are equal, including the metadata of the fields below them.
fn same_type_with_notes(one: &DataType, other: &DataType) -> bool
    ensures { IsTrue result ↔ (whole_type one.now ≡ whole_type other.now) }
{
    same_type(one, other) && have_same_notes_below(one, other)
}

impl Eq for DataType {
    ghost laws = { on_equiv whole_type (is_equal_equivalence whole_type_code) };
}

/// Fields are equal if everything that they hold is, including their metadata and those of the
/// fields below them. Nothing is allocated.
impl PartialEq for Field {
    ghost eq = { on whole_field (is_equal whole_field_code) };

    ghost laws = { on_per whole_field
        (partial_equiv_from_equiv (is_equal_equivalence whole_field_code)) };

    fn eq(&self, other: &Field) -> bool
        ensures gives { result
            ≡ is_equal whole_field_code (whole_field self.now) (whole_field other.now) }
        ensures same { IsTrue result ↔ (whole_field self.now ≡ whole_field other.now) }
    {
        same_field_with_notes(self, other)
    }
}

/// Whether the fields are equal in everything that they hold.
fn same_field_with_notes(one: &Field, other: &Field) -> bool
    ensures { IsTrue result ↔ (whole_field one.now ≡ whole_field other.now) }
{
    same_field(one, other) && have_same_notes(one, other)
}

impl Eq for Field {
    ghost laws = { on_equiv whole_field (is_equal_equivalence whole_field_code) };
}
