//! Why a field of a schema is rejected, by its own tables.

ghost use Rattle.std.specs.Prelude.{◌≡◌, ◌≤◌, ◌⊎◌, IfSome, None, Some, false, is_some, true};
ghost use Rattle.arrow_meta_tree.specs.Codes.{decimal_scale, decimal_width, time_unit};
ghost use Rattle.arrow_meta_schema.specs.Conditions.{children_fit};
ghost use Rattle.arrow_meta_tree.specs.Types.{decimal_by, is_time, taken, type_code};
ghost use Rattle.arrow_types.specs.DataType.{is_decimal};
ghost use Rattle.arrow_types.specs.declared.type_set.TypeSet.{TypeSet as Types};
ghost use Rattle.arrowflow_diagnosis.specs.Fields.{FieldFails, can_be_entries, code_in, field_kind};
ghost use Rattle.arrowflow_diagnosis.specs.Fields.{has_table, has_unit, has_units, type_number, unit_in};

use crate::places::Spot;
use arrow_meta_tree::codes::{
    bit_width, byte_width, decimal_scale, decimal_width, precision, taken, time_unit, type_code,
};
use arrow_meta_tree::slots;
use arrow_stream_reader::Kind;
use arrow_types::{DecimalWidth, TimeUnit, TypeSet};

/// Why a field of a schema is rejected, by its own tables (`Schema.fbs`, table `Field`).
#[derive(Clone, Copy, Debug, PartialEq, Eq)]
pub enum FieldCondition {
    /// Its type has this code, which is not one that is read, or not one of the types of the
    /// limits.
    TypeNotRead {
        code: u64,
    },
    /// Its dictionary's kind has this number, and is not a dense array.
    DictionaryKind {
        number: u64,
    },
    /// It has this many children, a number that its type, which has this code, does not allow.
    Children {
        code: u64,
        count: usize,
    },
    /// It is an Int of this many bits.
    BitWidth {
        bits: u64,
    },
    /// It is a FloatingPoint whose precision has this number.
    Precision {
        number: u64,
    },
    /// Its type, which has this code, has the unit with this number.
    Unit {
        code: u64,
        number: u64,
    },
    /// Its type, which has this code, has this size, a negative number that is given as an unsigned
    /// one.
    Size {
        code: u64,
        number: u64,
    },
    /// It is a Time in the unit with this number, which does not have this many bits.
    TimeWidth {
        unit: u64,
        bits: u64,
    },
    /// It is a Decimal of this many bits, which no Decimal has, or which do not allow this
    /// precision and this scale. The scale is given as an unsigned number.
    Decimal {
        bits: u64,
        precision: u64,
        scale: u64,
    },
    /// It is a Map, and its child is not a struct of two fields without a dictionary.
    Entries,
    /// The table of its type, which has this code, is absent, or does not lie inside the metadata.
    TypeTable {
        code: u64,
    },
}

impl FieldCondition {
    /// The kind of the reader's fault.
    pub fn kind(self) -> Kind
        ensures { result ≡ field_kind self }
    {
        match self {
            FieldCondition::TypeNotRead { .. } | FieldCondition::DictionaryKind { .. } =>
                Kind::Unsupported,
            FieldCondition::Children { .. } | FieldCondition::BitWidth { .. } => Kind::Schema,
            FieldCondition::Precision { .. } => Kind::Schema,
            FieldCondition::Unit { .. } | FieldCondition::Size { .. } => Kind::Schema,
            FieldCondition::TimeWidth { .. } | FieldCondition::Decimal { .. } => Kind::Schema,
            FieldCondition::Entries => Kind::Schema,
            FieldCondition::TypeTable { .. } => Kind::Metadata,
        }
    }
}

/// What a field has that is not supported, if anything.
pub(crate) fn unsupported_in(types: TypeSet, field: &Spot) -> Option<FieldCondition>
    ensures { IfSome result (λ fault. FieldFails fault types field.now) }
{
    let code = code_in(field)?;
    if !is_read(types, code) {
        return Some(FieldCondition::TypeNotRead { code });
    }
    let dictionary = field.table(slots::field::DICTIONARY)?;
    let number = dictionary.number(slots::dictionary_encoding::DICTIONARY_KIND, 2, 0)?;
    (number != 0).then_some(FieldCondition::DictionaryKind { number })
}

/// The fault that the table of a field's type is required and not readable, if it is so.
pub(crate) fn unreadable_in(types: TypeSet, field: &Spot) -> Option<FieldCondition>
    ensures { IfSome result (λ fault. FieldFails fault types field.now) }
{
    let code = code_in(field)?;
    let is_absent = field.table(slots::field::TYPE).is_none();
    let is_unreadable = is_read(types, code) && has_table(code) && is_absent;
    is_unreadable.then_some(FieldCondition::TypeTable { code })
}

/// Whether a type with this code has a table that is read.
fn has_table(code: u64) -> bool
    ensures { result ≡ has_table code }
{
    matches!(
        code,
        INT | FLOATING_POINT | DECIMAL..=INTERVAL | FIXED_SIZE_BINARY..=DURATION
    )
}

/// What a field has that its type cannot have, if anything.
pub(crate) fn misfit_in(types: TypeSet, field: &Spot) -> Option<FieldCondition>
    ensures { IfSome result (λ fault. FieldFails fault types field.now) }
{
    let code = code_in(field)?;
    let count = field.count(slots::field::CHILDREN).unwrap_or(0);
    if !has_children(code, count) {
        return Some(FieldCondition::Children { code, count });
    }
    match code {
        INT => bits_in(field),
        FLOATING_POINT => precision_in(field),
        DATE | TIMESTAMP | INTERVAL | DURATION => bad_unit_in(field, code),
        TIME => bad_time_in(field),
        DECIMAL => bad_decimal_in(field),
        MAP => bad_entries_in(field),
        FIXED_SIZE_BINARY | FIXED_SIZE_LIST => bad_size_in(field, code),
        // a type without numbers of its own
        _ => None,
    }
}

/// The code of a field's type.
pub(crate) fn code_in(field: &Spot) -> Option<u64>
    ensures { result ≡ code_in field.now }
{
    field.number(slots::field::TYPE_TYPE, 1, 0)
}

/// Whether a type with this code is read among these types.
fn is_read(types: TypeSet, code: u64) -> bool
    ensures { result ≡ is_some (taken types (type_code code)) }
{
    taken(types, type_code(code)).is_some()
}

/// Whether a type with this code may have this many children.
fn has_children(code: u64, count: usize) -> bool
    ensures { result ≡ children_fit (type_code code) count }
{
    match code {
        12 | FIXED_SIZE_LIST | MAP | 21 => count == 1,
        STRUCT => true,
        // a type without children
        _ => count == 0,
    }
}

/// The width of an Int, if no Int has it.
fn bits_in(field: &Spot) -> Option<FieldCondition>
    requires { code_in field.now ≡ Some 2 }
    ensures { IfSome result (λ fault. (types : Types) → FieldFails fault types field.now) }
{
    let bits = type_number(field, 0, 4, 0)?;
    let is_misfit = bit_width(bits).is_none();
    is_misfit.then_some(FieldCondition::BitWidth { bits })
}

/// The precision of a FloatingPoint, if it is not a valid one.
fn precision_in(field: &Spot) -> Option<FieldCondition>
    requires { code_in field.now ≡ Some 3 }
    ensures { IfSome result (λ fault. (types : Types) → FieldFails fault types field.now) }
{
    let number = type_number(field, 0, 2, 0)?;
    let is_misfit = precision(number).is_none();
    is_misfit.then_some(FieldCondition::Precision { number })
}

/// The unit of a type with this code, if the type has no unit with this number.
fn bad_unit_in(field: &Spot, code: u64) -> Option<FieldCondition>
    requires code { code_in field.now ≡ Some code }
    requires units { has_units code ≡ true }
    ensures { IfSome result (λ fault. (types : Types) → FieldFails fault types field.now) }
{
    let number = unit_in(field, code)?;
    (!has_unit(code, number)).then_some(FieldCondition::Unit { code, number })
}

/// The size of a FixedSizeBinary or a FixedSizeList, if it is negative.
fn bad_size_in(field: &Spot, code: u64) -> Option<FieldCondition>
    requires code { code_in field.now ≡ Some code }
    requires sized { (code ≡ 15) ⊎ (code ≡ 16) }
    ensures { IfSome result (λ fault. (types : Types) → FieldFails fault types field.now) }
{
    let number = type_number(field, 0, 4, 0)?;
    let is_misfit = byte_width(number).is_none();
    is_misfit.then_some(FieldCondition::Size { code, number })
}

/// The unit or the width of a Time, if there is no such unit, or the unit does not have this width.
fn bad_time_in(field: &Spot) -> Option<FieldCondition>
    requires { code_in field.now ≡ Some 9 }
    ensures { IfSome result (λ fault. (types : Types) → FieldFails fault types field.now) }
{
    if let Some(fault) = bad_unit_in(field, TIME) {
        return Some(fault);
    }
    let unit = unit_in(field, TIME)?;
    let bits = type_number(field, 1, 4, 32)?;
    (!is_time(unit, bits)).then_some(FieldCondition::TimeWidth { unit, bits })
}

/// Whether a Time in the unit with this number has this many bits.
fn is_time(unit: u64, bits: u64) -> bool
    ensures { result ≡ is_time (time_unit unit) bits }
{
    match time_unit(unit) {
        Some(TimeUnit::Second | TimeUnit::Millisecond) => bits == 32,
        Some(TimeUnit::Microsecond | TimeUnit::Nanosecond) => bits == 64,
        None => false,
    }
}

/// The numbers of a Decimal, if no Decimal has them.
fn bad_decimal_in(field: &Spot) -> Option<FieldCondition>
    requires { code_in field.now ≡ Some 7 }
    ensures { IfSome result (λ fault. (types : Types) → FieldFails fault types field.now) }
{
    let bits = type_number(field, 2, 4, 128)?;
    let precision = type_number(field, 0, 4, 0)?;
    let scale = type_number(field, 1, 4, 0)?;
    if is_decimal(bits, precision, scale) {
        return None;
    }
    Some(FieldCondition::Decimal {
        bits,
        precision,
        scale,
    })
}

/// Whether a Decimal of this many bits may have this precision and this scale.
fn is_decimal(bits: u64, precision: u64, scale: u64) -> bool
    ensures { result
        ≡ is_some (decimal_by (decimal_width bits) precision (decimal_scale scale)) }
{
    decimal_width(bits).is_some_and(|width| allows(width, precision, decimal_scale(scale)))
}

/// Whether decimals of this width may have this precision and this scale.
fn allows(width: DecimalWidth, precision: u64, scale: i32) -> bool
    ensures { result ≡ is_decimal width precision scale }
{
    1 <= precision && precision <= u64::from(width.digits()) && -76 <= scale && scale <= 76
}

/// The fault that the child of a Map cannot be its entries, if it cannot.
fn bad_entries_in(field: &Spot) -> Option<FieldCondition>
    requires { code_in field.now ≡ Some 17 }
    ensures { IfSome result (λ fault. (types : Types) → FieldFails fault types field.now) }
{
    let child = field.element(slots::field::CHILDREN, 0)?;
    let code = code_in(&child)?;
    (!can_be_entries(&child, code)).then_some(FieldCondition::Entries)
}

/// Whether a field with this code is a struct of two fields without a dictionary.
fn can_be_entries(field: &Spot, code: u64) -> bool
    ensures { result ≡ can_be_entries field.now code }
{
    let count = field.count(slots::field::CHILDREN).unwrap_or(0);
    code == STRUCT && count == 2 && field.field(slots::field::DICTIONARY).is_none()
}

/// The number with this index in a field's type, `width` bytes wide and with this default.
fn type_number(field: &Spot, index: u16, width: usize, default: u64) -> Option<u64>
    requires low { 1 ≤ width }
    requires high { width ≤ 8 }
    ensures { result ≡ type_number field.now index width default }
{
    field
        .table(slots::field::TYPE)?
        .number(index, width, default)
}

/// The unit of a type with this code.
fn unit_in(field: &Spot, code: u64) -> Option<u64>
    ensures { result ≡ unit_in field.now code }
{
    let default = match code {
        TIMESTAMP | INTERVAL => 0,
        _ => 1,
    };
    type_number(field, 0, 2, default)
}

/// Whether a type with this code has a unit with this number.
fn has_unit(code: u64, number: u64) -> bool
    ensures { result ≡ has_unit code number }
{
    match code {
        DATE => number < 2,
        INTERVAL => number < 3,
        _ => number < 4,
    }
}

const INT: u64 = 2;

const FLOATING_POINT: u64 = 3;

const DECIMAL: u64 = 7;

const DATE: u64 = 8;

const TIME: u64 = 9;

const TIMESTAMP: u64 = 10;

const INTERVAL: u64 = 11;

const STRUCT: u64 = 13;

const FIXED_SIZE_BINARY: u64 = 15;

const FIXED_SIZE_LIST: u64 = 16;

const MAP: u64 = 17;

const DURATION: u64 = 18;
