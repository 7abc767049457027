//! The types that are read: for each its children, and the values that its table may hold
//! (`Schema.fbs`, union `Type` and the tables of its members).
//!
//! A new type needs an arm in each of these functions and in those of `codes` and `forms` of
//! `arrow_meta_tree`, and a row of `type_row` in its `specs/Types.antt`.
ghost use Rattle.std.specs.Prelude.{◌≡◌, ◌==◌, ◌∷◌, ◌↔◌, IsTrue, MatchResult, Some, [], false, length};
ghost use Rattle.std.specs.Prelude.{not, option_map};
ghost use Rattle.std.specs.Option.{unwrap_or};
ghost use Rattle.arrow_meta_schema.specs.Builds.{BuildsType, Refuses, leaf_type};
ghost use Rattle.arrow_meta_tree.specs.Codes.{byte_width, date_unit, interval_unit, precision};
ghost use Rattle.arrow_meta_schema.specs.Conditions.{children_fit};
ghost use Rattle.arrow_meta_tree.specs.Parts.{flag_at, number_at};
ghost use Rattle.arrow_meta_schema.specs.SchemaMeaning.{tag_by};
ghost use Rattle.arrow_meta_tree.specs.Parts.{lent_bytes};
ghost use Rattle.arrow_meta_tree.specs.Trees.{none};
ghost use Rattle.arrow_meta_tree.specs.Types.{decimal_in, is_time, sign_in, time_in};
ghost use Rattle.arrow_meta_tree.specs.Types.{type_row, width_in};
ghost use Rattle.arrow_meta_tree.specs.Views.{plain_all};
ghost use Rattle.arrow_types.specs.DataType.{decimal};
ghost use Rattle.arrow_types.specs.Field.{none as empty};
ghost use Rattle.arrow_types.specs.Notes.{unnoted};
ghost use Rattle.arrow_types.specs.View.{fields_view, notes_view, type_notes, type_view};

use crate::field_fault::FieldFault;
use arrow_meta_tree::Tree;
use arrow_meta_tree::codes::{
    TypeCode, bit_width, byte_width, date_unit, decimal_scale, decimal_width, interval_unit,
    precision, time_unit,
};
use arrow_meta_tree::parts::{flag_at, into_some_text, number_at, some_text_at, take};
use arrow_types::{
    BitWidth, DataType, DateUnit, DecimalWidth, Field, IntervalUnit, Precision, TimeUnit,
};
use std::alloc::Global;

/// The first field of a type's table: `bitWidth` of an Int, `precision`, `unit`, `byteWidth`,
/// `listSize` or `keysSorted`.
const FIRST: u16 = 0;

/// The second one: `is_signed` of an Int, `scale`, `bitWidth` of a Time, `timezone`.
const SECOND: u16 = 1;

/// The third one: `bitWidth` of a Decimal.
const THIRD: u16 = 2;

/// Whether a type of this code may have this many children.
pub(crate) fn children_fit(code: Option<TypeCode>, count: usize) -> bool
    ensures fit { result ≡ children_fit code count }
{
    match code {
        Some(TypeCode::List | TypeCode::LargeList | TypeCode::FixedSizeList | TypeCode::Map) =>
            count == 1,
        Some(TypeCode::Struct) => true,
        _ => count == 0,
    }
}

/// Whether a type's table with these fields holds a width, a size or a unit that no type has, or a
/// precision or a scale that no decimals of its width have.
pub(crate) fn is_type_misfit(code: TypeCode, parts: &[Tree]) -> bool
    ensures misfit { result ≡ (type_row code).is_misfit (plain_all parts.now) }
{
    match code {
        TypeCode::Int => bit_width(number_at(parts, FIRST, 0)).is_none(),
        TypeCode::FloatingPoint => precision(number_at(parts, FIRST, 0)).is_none(),
        TypeCode::Decimal => decimal_in(parts).is_none(),
        TypeCode::Date => date_unit(number_at(parts, FIRST, 1)).is_none(),
        TypeCode::Time => {
            let unit = time_unit(number_at(parts, FIRST, 1));
            !is_time(unit, number_at(parts, SECOND, 32))
        }
        TypeCode::Timestamp => time_unit(number_at(parts, FIRST, 0)).is_none(),
        TypeCode::Interval => interval_unit(number_at(parts, FIRST, 0)).is_none(),
        TypeCode::FixedSizeBinary => byte_width(number_at(parts, FIRST, 0)).is_none(),
        TypeCode::FixedSizeList => byte_width(number_at(parts, FIRST, 0)).is_none(),
        TypeCode::Duration => time_unit(number_at(parts, FIRST, 1)).is_none(),
        _ => false,
    }
}

/// The type of a code, with the fields of its table and its children.
pub(crate) fn data_type(
    alloc: Global,
    code: Option<TypeCode>,
    parts: Vec<Tree>,
    children: Vec<Field>,
) -> Result<DataType, FieldFault>
    ensures built { BuildsType result code (plain_all parts.items) children.items }
{
    match code {
        None | Some(TypeCode::Null) => childless(DataType::Null, children),
        Some(TypeCode::Int) => childless(int_type(&parts), children),
        Some(TypeCode::FloatingPoint) => {
            childless(DataType::FloatingPoint(precision_in(&parts)), children)
        }
        Some(TypeCode::Binary) => childless(DataType::Binary, children),
        Some(TypeCode::Utf8) => childless(DataType::Utf8, children),
        Some(TypeCode::Bool) => childless(DataType::Bool, children),
        Some(TypeCode::Decimal) => childless(decimal_type(&parts), children),
        Some(TypeCode::Date) => childless(DataType::Date(date_in(&parts)), children),
        Some(TypeCode::Time) => childless(DataType::Time(time_in(&parts, 1)), children),
        Some(TypeCode::Timestamp) => childless(timestamp_type(parts), children),
        Some(TypeCode::Interval) => childless(DataType::Interval(interval_in(&parts)), children),
        Some(TypeCode::List) => list_type(alloc, children),
        Some(TypeCode::Struct) => Ok(DataType::Struct(children)),
        Some(TypeCode::FixedSizeBinary) => {
            childless(DataType::FixedSizeBinary(fixed_size_in(&parts)), children)
        }
        Some(TypeCode::Duration) => childless(DataType::Duration(time_in(&parts, 1)), children),
        Some(TypeCode::LargeBinary) => childless(DataType::LargeBinary, children),
        Some(TypeCode::LargeUtf8) => childless(DataType::LargeUtf8, children),
        Some(TypeCode::LargeList) => large_list_type(alloc, children),
        Some(TypeCode::FixedSizeList) => fixed_size_list_type(alloc, &parts, children),
        Some(TypeCode::Map) => map_type(alloc, &parts, children),
    }
}

/// Whether two tables of the type of this code describe the same type.
pub(crate) fn same_part(code: TypeCode, one: &[Tree], other: &[Tree]) -> bool
    ensures same { IsTrue result
        ↔ (tag_by (Some code) (plain_all one.now) ≡ tag_by (Some code) (plain_all other.now)) }
{
    match code {
        TypeCode::Int => { width_in(one) == width_in(other) && sign_in(one) == sign_in(other) }
        TypeCode::FloatingPoint => precision_in(one) == precision_in(other),
        TypeCode::Decimal => decimal_or_other(one) == decimal_or_other(other),
        TypeCode::Date => date_in(one) == date_in(other),
        TypeCode::Time | TypeCode::Duration => time_in(one, 1) == time_in(other, 1),
        TypeCode::Timestamp => {
            time_in(one, 0) == time_in(other, 0)
                && same_zone(some_text_at(one, SECOND), some_text_at(other, SECOND))
        }
        TypeCode::FixedSizeBinary | TypeCode::FixedSizeList => {
            fixed_size_in(one) == fixed_size_in(other)
        }
        TypeCode::Interval => interval_in(one) == interval_in(other),
        TypeCode::Map => sorted_in(one) == sorted_in(other),
        _ => true,
    }
}

/// Whether two time zones are the same, or both are absent.
fn same_zone(one: Option<&str>, other: Option<&str>) -> bool
    ensures same { IsTrue result
        ↔ (option_map lent_bytes one.entry ≡ option_map lent_bytes other.entry) }
{
    match (one, other) {
        (None, None) => true,
        (Some(one), Some(other)) => one == other,
        (None, Some(_)) | (Some(_), None) => false,
    }
}

/// Whether a time of this unit is this many bits wide.
fn is_time(unit: Option<TimeUnit>, bits: u64) -> bool
    ensures time { result ≡ is_time unit bits }
{
    match unit {
        None => false,
        Some(unit) => bits == u64::from(unit.time_width().bits()),
    }
}

/// The type, if there are no children.
#[tactic(auto, using(crate::proofs::TableFields::no_fields, crate::proofs::TableFields::no_notes))]
fn childless(data_type: DataType, children: Vec<Field>) -> Result<DataType, FieldFault>
    ensures alone { MatchResult result
        (λ t. (t ≡ data_type) × (fields_view children.items ≡ empty)
        × (notes_view children.items ≡ unnoted))
        (λ e. (e ≡ FieldFault.Misfit) × ((length children.items == 0) ≡ false)) }
{
    if children.is_empty() {
        Ok(data_type)
    } else {
        Err(FieldFault::Misfit)
    }
}

/// A list of the one child.
fn list_type(alloc: Global, children: Vec<Field>) -> Result<DataType, FieldFault>
    ensures built { BuildsType result (Some TypeCode.List) none children.items }
{
    Ok(DataType::List(only(alloc, children)?))
}

/// The same between offsets of 64 bits.
fn large_list_type(alloc: Global, children: Vec<Field>) -> Result<DataType, FieldFault>
    ensures built { BuildsType result (Some TypeCode.LargeList) none children.items }
{
    Ok(DataType::LargeList(only(alloc, children)?))
}

/// Lists of exactly this many values each, of the one child.
fn fixed_size_list_type(
    alloc: Global,
    parts: &[Tree],
    children: Vec<Field>,
) -> Result<DataType, FieldFault>
    ensures built { BuildsType result (Some TypeCode.FixedSizeList) (plain_all parts.now) children.items }
{
    let size = fixed_size_in(parts);
    Ok(DataType::FixedSizeList(only(alloc, children)?, size))
}

/// A map of the one child, its entries.
fn map_type(alloc: Global, parts: &[Tree], children: Vec<Field>) -> Result<DataType, FieldFault>
    ensures built { BuildsType result (Some TypeCode.Map) (plain_all parts.now) children.items }
{
    let sorted = sorted_in(parts);
    Ok(DataType::Map(only(alloc, children)?, sorted))
}

/// The one child, if there is exactly one.
fn only(alloc: Global, mut children: Vec<Field>) -> Result<Box<Field>, FieldFault>
    ensures one { MatchResult result (λ item. children.items ≡ item.value ∷ [])
        (λ e. Refuses e (not (length children.items == 1))) }
{
    if children.len() != 1 {
        return Err(FieldFault::Misfit);
    }
    match children.pop() {
        None => Err(FieldFault::Misfit),
        Some(item) => Ok(Box::new(alloc, item)?),
    }
}

fn int_type(parts: &[Tree]) -> DataType
    ensures int { type_view result
        ≡ leaf_type (tag_by (Some TypeCode.Int) (plain_all parts.now)) }
    ensures notes { type_notes result ≡ unnoted }
{
    DataType::Int {
        bits: width_in(parts),
        signed: sign_in(parts),
    }
}

fn decimal_type(parts: &[Tree]) -> DataType
    ensures decimal { type_view result
        ≡ leaf_type (tag_by (Some TypeCode.Decimal) (plain_all parts.now)) }
    ensures notes { type_notes result ≡ unnoted }
{
    let Decimal {
        width,
        precision,
        scale,
    } = decimal_or_other(parts);
    DataType::Decimal {
        width,
        precision,
        scale,
    }
}

fn timestamp_type(mut parts: Vec<Tree>) -> DataType
    ensures timestamp { type_view result
        ≡ leaf_type (tag_by (Some TypeCode.Timestamp) (plain_all parts.items)) }
    ensures notes { type_notes result ≡ unnoted }
{
    let unit = time_in(&parts, 0);
    let zone = into_some_text(take(&mut parts, SECOND));
    DataType::Timestamp(unit, zone)
}

/// The width in an Int table with these fields.
pub(crate) fn width_in(parts: &[Tree]) -> BitWidth
    ensures width { result ≡ width_in (plain_all parts.now) }
{
    bit_width(number_at(parts, FIRST, 0)).unwrap_or(BitWidth::Eight)
}

/// Whether the numbers of an Int table with these fields have a sign.
pub(crate) fn sign_in(parts: &[Tree]) -> bool
    ensures sign { result ≡ sign_in (plain_all parts.now) }
{
    flag_at(parts, SECOND)
}

/// The precision in a FloatingPoint table with these fields.
fn precision_in(parts: &[Tree]) -> Precision
    ensures precision { result
        ≡ unwrap_or (precision (number_at 0 0 (plain_all parts.now))) Precision.Half }
{
    precision(number_at(parts, FIRST, 0)).unwrap_or(Precision::Half)
}

/// The meaning of a Decimal table.
#[derive(Clone, Copy, PartialEq, Eq)]
struct Decimal {
    width: DecimalWidth,
    precision: u8,
    scale: i8,
}

/// The meaning of a Decimal table with these fields, if its width allows its precision and its
/// scale.
fn decimal_in(parts: &[Tree]) -> Option<Decimal>
    ensures decimal { option_map (λ d. decimal d.width d.precision d.scale) result
        ≡ decimal_in (plain_all parts.now) }
{
    let width = decimal_width(number_at(parts, THIRD, 128))?;
    let precision = u8::try_from(number_at(parts, FIRST, 0)).ok()?;
    let scale = i8::try_from(decimal_scale(number_at(parts, SECOND, 0))).ok()?;
    if width.allows(precision, scale) {
        Some(Decimal {
            width,
            precision,
            scale,
        })
    } else {
        None
    }
}

/// The same, or arbitrary decimals if the width does not allow them.
fn decimal_or_other(parts: &[Tree]) -> Decimal
    ensures decimal { decimal result.width result.precision result.scale
        ≡ tag_by (Some TypeCode.Decimal) (plain_all parts.now) }
{
    decimal_in(parts).unwrap_or(Decimal {
        width: DecimalWidth::ThirtyTwo,
        precision: 1,
        scale: 0,
    })
}

/// The unit in a Date table with these fields.
fn date_in(parts: &[Tree]) -> DateUnit
    ensures unit { result
        ≡ unwrap_or (date_unit (number_at 0 1 (plain_all parts.now))) DateUnit.Day }
{
    date_unit(number_at(parts, FIRST, 1)).unwrap_or(DateUnit::Day)
}

/// The unit in a Time, a Timestamp or a Duration table with these fields, or the one of `default`
/// if it is absent. It is the same field of all three.
fn time_in(parts: &[Tree], default: u64) -> TimeUnit
    ensures unit { result ≡ time_in default (plain_all parts.now) }
{
    time_unit(number_at(parts, FIRST, default)).unwrap_or(TimeUnit::Second)
}

/// The unit in an Interval table with these fields.
fn interval_in(parts: &[Tree]) -> IntervalUnit
    ensures unit { result
        ≡ unwrap_or (interval_unit (number_at 0 0 (plain_all parts.now))) IntervalUnit.YearMonth }
{
    interval_unit(number_at(parts, FIRST, 0)).unwrap_or(IntervalUnit::YearMonth)
}

/// Whether a Map table with these fields has the flag that the keys of each map are sorted.
fn sorted_in(parts: &[Tree]) -> bool
    ensures sorted { result ≡ flag_at 0 (plain_all parts.now) }
{
    flag_at(parts, FIRST)
}

/// The number of bytes in a FixedSizeBinary table with these fields, and of values in a
/// FixedSizeList table. It is the same field of both.
fn fixed_size_in(parts: &[Tree]) -> u32
    ensures size { result ≡ unwrap_or (byte_width (number_at 0 0 (plain_all parts.now))) 0 }
{
    byte_width(number_at(parts, FIRST, 0)).unwrap_or(0)
}
