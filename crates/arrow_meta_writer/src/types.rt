//! Types as they are written: the code in the field's table, and the type's own table
//! (`Schema.fbs`, union `Type`, tables `Int`, `FloatingPoint`, `Decimal`, `Date`, `Time`,
//! `Timestamp`, `FixedSizeBinary`, `FixedSizeList`, `Duration`, `Interval`, `Map`).
//!
//! `type_slots` has one row for each type: the number of fields, the size and the bytes of a type's
//! table are computed from that row. A type without parameters has a table without fields. A unit
//! or a precision is the number of its enum, a width is a number of bits, for `FixedSizeBinary` of
//! bytes; the size of `FixedSizeList` is a number of values. Positions are those of `sizes`: in
//! bytes, with all above the greatest size counted as the same.
ghost use Rattle.std.specs.Prelude.{◌≡◌, ◌≤◌, ◌<◌, ℕ, [], ◌∷◌, option_map, length, true};
ghost use Rattle.std.specs.Prelude.{OnOk};
ghost use Rattle.arrow_flatbuf.specs.Layout.{up};
ghost use Rattle.arrow_flatbuf.specs.Nodes.{after, cells_place, count, slots, table as table_node};
ghost use Rattle.arrow_flatbuf.specs.Nodes.{OwnFit};
ghost use Rattle.arrow_meta_tree.specs.Types.{type_code as code_named};
ghost use Rattle.arrow_meta_schema.specs.Conditions.{children_fit};
ghost use Rattle.arrow_meta_writer.specs.Appends.{HasRoom, Appends};
ghost use Rattle.arrow_meta_writer.specs.Capped.{capped};
ghost use Rattle.arrow_meta_writer.specs.Layouts.{int_cells, type_cells, zone_in, flag, tag_code};
ghost use Rattle.arrow_meta_writer.specs.Layouts.{date_number, interval_number, precision_number, time_number};
ghost use Rattle.arrow_meta_writer.specs.TypeSlots.{listed};
ghost use Rattle.arrow_meta_writer.specs.Writable.{HasTextZone};
ghost use Rattle.arrow_types.specs.DataType.{decimal};
ghost use Rattle.arrow_types.specs.Field.{width as field_width};
ghost use Rattle.arrow_types.specs.View.{type_view};

use crate::table_slots::INT_FIELDS;
use crate::tables::{table_after, text_after};
use arrow_flatbuf::{FieldValue, TableWriter, Width, aligned};
use arrow_types::{BitWidth, DataType, DateUnit, DecimalWidth, IntervalUnit, Precision, TimeUnit};
use std::alloc::AllocError;

/// The code of a type (`Schema.fbs`, union `Type`). A value of the type has the children that it
/// can have.
pub(crate) fn type_code(data_type: &DataType) -> u64
    ensures code { result ≡ tag_code (type_view data_type.now).tag }
    ensures small { result < 256 }
    ensures fits { children_fit (code_named (tag_code (type_view data_type.now).tag))
        (field_width (type_view data_type.now).children) ≡ true }
{
    match data_type {
        DataType::Null => 1,
        DataType::Int { .. } => 2,
        DataType::FloatingPoint(_) => 3,
        DataType::Binary => 4,
        DataType::Utf8 => 5,
        DataType::Bool => 6,
        DataType::Decimal { .. } => 7,
        DataType::Date(_) => 8,
        DataType::Time(_) => 9,
        DataType::Timestamp(..) => 10,
        DataType::Interval(_) => 11,
        DataType::List(_) => 12,
        DataType::Struct(_) => 13,
        DataType::FixedSizeBinary(_) => 15,
        DataType::FixedSizeList(..) => 16,
        DataType::Map(..) => 17,
        DataType::Duration(_) => 18,
        DataType::LargeBinary => 19,
        DataType::LargeUtf8 => 20,
        DataType::LargeList(_) => 21,
    }
}

/// The number of fields of a type's table.
pub(crate) fn type_fields(data_type: &DataType) -> usize
    ensures count { result ≡ count (type_cells (type_view data_type.now).tag) }
    ensures few { result ≤ 3 }
{
    type_slots(data_type, 0).as_slice().len()
}

/// The first position after a type's table and what belongs to it.
pub(crate) fn type_end(place: usize, data_type: &DataType) -> usize
    requires { place ≤ 1073741825 }
    ensures end { result
        ≡ capped (after place (table_node (type_cells (type_view data_type.now).tag))) }
    ensures near { result ≤ 1073741825 }
{
    let table = type_table_end(place, data_type);
    match zone_of(data_type) {
        Some(zone) => text_after(table, zone),
        None => table,
    }
}

/// Appends a type's table and what belongs to it.
pub(crate) fn write_type(writer: &mut TableWriter, data_type: &DataType) -> Result<(), AllocError>
    requires room { HasRoom writer.old (table_node (type_cells (type_view data_type.now).tag)) }
    ensures bytes { OnOk result
        (Appends writer.old (table_node (type_cells (type_view data_type.now).tag)) writer.new) }
    ensures typed { OnOk result (HasTextZone (type_view data_type.now).tag) }
{
    let slots = placed_slots(writer.place(), data_type);
    writer.table(slots.as_slice())?;
    match zone_of(data_type) {
        Some(zone) => writer.text(zone),
        None => Ok(()),
    }
}

/// The fields of a type's table (`Schema.fbs`, tables of the union `Type`). `zone` is the position
/// of the name of its time zone; only a timestamp with a zone uses it.
fn type_slots(data_type: &DataType, zone: usize) -> TypeSlots
    ensures slots { (q : ℕ) → zone ≡ up 4 q
        → listed result ≡ slots q (type_cells (type_view data_type.now).tag) }
    ensures fits { OwnFit (type_cells (type_view data_type.now).tag) }
{
    match data_type {
        DataType::Int { bits, signed } => TypeSlots::Two(int_slots(*bits, *signed)),
        DataType::FloatingPoint(precision) => scalar(Width::Two, precision_number(*precision)),
        DataType::Decimal {
            width,
            precision,
            scale,
        } => TypeSlots::Three(decimal_slots(*width, *precision, *scale)),
        DataType::Date(unit) => scalar(Width::Two, date_number(*unit)),
        DataType::Time(unit) => TypeSlots::Two([
            FieldValue::Scalar(Width::Two, time_number(*unit)),
            FieldValue::Scalar(Width::Four, u64::from(unit.time_width().bits())),
        ]),
        DataType::Timestamp(unit, None) => scalar(Width::Two, time_number(*unit)),
        DataType::Timestamp(unit, Some(_)) => TypeSlots::Two([
            FieldValue::Scalar(Width::Two, time_number(*unit)),
            FieldValue::Target(zone),
        ]),
        DataType::FixedSizeBinary(width) => scalar(Width::Four, u64::from(*width)),
        DataType::FixedSizeList(_, size) => scalar(Width::Four, u64::from(*size)),
        DataType::Duration(unit) => scalar(Width::Two, time_number(*unit)),
        DataType::Interval(unit) => scalar(Width::Two, interval_number(*unit)),
        DataType::Map(_, sorted) => scalar(Width::One, bit(*sorted)),
        DataType::Null | DataType::Bool => TypeSlots::Zero,
        DataType::Binary | DataType::LargeBinary => TypeSlots::Zero,
        DataType::Utf8 | DataType::LargeUtf8 => TypeSlots::Zero,
        DataType::List(_) | DataType::LargeList(_) | DataType::Struct(_) => TypeSlots::Zero,
    }
}

/// One field: a number of this width.
fn scalar(width: Width, number: u64) -> TypeSlots
    ensures { listed result ≡ FieldValue.Scalar width number ∷ [] }
{
    TypeSlots::One([FieldValue::Scalar(width, number)])
}

/// The fields of an Int table.
fn int_slots(bits: BitWidth, signed: bool) -> [FieldValue; INT_FIELDS]
    ensures slots { result ≡ slots 0 (int_cells bits signed) }
    ensures fits { OwnFit (int_cells bits signed) }
{
    [
        FieldValue::Scalar(Width::Four, u64::from(bits.bits())),
        FieldValue::Scalar(Width::One, bit(signed)),
    ]
}

/// The fields of a Decimal table. A negative scale is written as the 32 bits of its two's complement.
fn decimal_slots(width: DecimalWidth, precision: u8, scale: i8) -> [FieldValue; 3]
    ensures slots { result ≡ slots 0 (type_cells (decimal width precision scale)) }
    ensures fits { OwnFit (type_cells (decimal width precision scale)) }
{
    [
        FieldValue::Scalar(Width::Four, u64::from(precision)),
        FieldValue::Scalar(Width::Four, u64::from(i32::from(scale).cast_unsigned())),
        FieldValue::Scalar(Width::Four, u64::from(width.bits())),
    ]
}

/// The fields of a type's table, exactly those that it has.
#[derive(Drop)]
enum TypeSlots {
    Zero,
    One([FieldValue; 1]),
    Two([FieldValue; 2]),
    Three([FieldValue; 3]),
}

impl TypeSlots {
    /// The fields by number.
    fn as_slice(&self) -> &[FieldValue]
        ensures slots { result.now ≡ listed self.now }
        ensures few { length result.now ≤ 3 }
    {
        match self {
            TypeSlots::Zero => &[],
            TypeSlots::One(slots) => slots,
            TypeSlots::Two(slots) => slots,
            TypeSlots::Three(slots) => slots,
        }
    }
}

/// The first position after a type's table, without its time zone.
fn type_table_end(place: usize, data_type: &DataType) -> usize
    requires { place ≤ 1073741825 }
    ensures end { result ≡ capped (cells_place place (type_cells (type_view data_type.now).tag)) }
    ensures near { result ≤ 1073741825 }
{
    table_after(place, type_slots(data_type, 0).as_slice())
}

/// The name of a type's time zone, which is written after its table.
fn zone_of(data_type: &DataType) -> Option<&str>
    ensures zone { option_map (λ z. z.now) result ≡ zone_in (type_view data_type.now).tag }
    ensures typed { HasTextZone (type_view data_type.now).tag }
{
    match data_type {
        DataType::Timestamp(_, Some(zone)) => Some(zone.as_str()),
        _ => None,
    }
}

/// The fields of a type's table that is laid out from `place` on.
fn placed_slots(place: usize, data_type: &DataType) -> TypeSlots
    requires room { after place (table_node (type_cells (type_view data_type.now).tag))
        ≤ 1073741824 }
    ensures slots { let cells = type_cells (type_view data_type.now).tag
        in listed result ≡ slots (cells_place place cells) cells }
    ensures fits { OwnFit (type_cells (type_view data_type.now).tag) }
{
    let zone = aligned(type_table_end(place, data_type), Width::Four);
    type_slots(data_type, zone)
}

/// The first position after an Int table.
pub(crate) fn int_end(place: usize, bits: BitWidth, signed: bool) -> usize
    requires { place ≤ 1073741825 }
    ensures end { result ≡ capped (after place (table_node (int_cells bits signed))) }
    ensures near { result ≤ 1073741825 }
{
    table_after(place, &int_slots(bits, signed))
}

/// Appends an Int table.
pub(crate) fn write_int(
    writer: &mut TableWriter,
    bits: BitWidth,
    signed: bool,
) -> Result<(), AllocError>
    ensures { OnOk result (Appends writer.old (table_node (int_cells bits signed)) writer.new) }
{
    writer.table(&int_slots(bits, signed))
}

/// A truth value as a byte.
pub(crate) fn bit(truth: bool) -> u64
    ensures value { result ≡ flag truth }
    ensures small { result < 2 }
{
    u64::from(truth)
}

/// The number of a precision (`Schema.fbs`, enum `Precision`).
pub(crate) fn precision_number(precision: Precision) -> u64
    ensures number { result ≡ precision_number precision }
    ensures small { result < 256 }
{
    match precision {
        Precision::Half => 0,
        Precision::Single => 1,
        Precision::Double => 2,
    }
}

/// The number of a date's unit (`Schema.fbs`, enum `DateUnit`).
pub(crate) fn date_number(unit: DateUnit) -> u64
    ensures number { result ≡ date_number unit }
    ensures small { result < 256 }
{
    match unit {
        DateUnit::Day => 0,
        DateUnit::Millisecond => 1,
    }
}

/// The number of the unit of a time, a timestamp or a duration (`Schema.fbs`, enum `TimeUnit`).
pub(crate) fn time_number(unit: TimeUnit) -> u64
    ensures number { result ≡ time_number unit }
    ensures small { result < 256 }
{
    match unit {
        TimeUnit::Second => 0,
        TimeUnit::Millisecond => 1,
        TimeUnit::Microsecond => 2,
        TimeUnit::Nanosecond => 3,
    }
}

/// The number of an interval's unit (`Schema.fbs`, enum `IntervalUnit`).
pub(crate) fn interval_number(unit: IntervalUnit) -> u64
    ensures number { result ≡ interval_number unit }
    ensures small { result < 256 }
{
    match unit {
        IntervalUnit::YearMonth => 0,
        IntervalUnit::DayTime => 1,
        IntervalUnit::MonthDayNano => 2,
    }
}
