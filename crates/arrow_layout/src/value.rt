//! Values by themselves, outside any column.

ghost use Rattle.std.specs.Prelude.{◌≡◌, ◌↔◌, IsTrue, IfOk};
ghost use Rattle.arrow_layout.specs.Decimals.{wide_decimal_value};
ghost use Rattle.arrow_layout.specs.Floats.{IsFloatValue};
ghost use Rattle.arrow_layout.specs.Intervals.{interval_value};
ghost use Rattle.arrow_layout.specs.Stored.{value_code};
ghost use Rattle.arrow_layout.specs.Value.{value_view, values_view};
ghost use Rattle.arrow_types.specs.Equality.{is_equal, is_equal_equivalence};
ghost use Rattle.std.specs.Cmp.{on_per, on_equiv, partial_equiv_from_equiv};
ghost use Rattle.std.specs.Ordering.{on};

use crate::decimals::Decimal;
use crate::half;
use crate::intervals::Interval;
use arrow_bits::put_int;
use arrow_types::Precision;
use std::alloc::{AllocError, Global};
use std::num::{f32_to_bits_with_nan, f64_to_bits_with_nan, nearest_f64_to_f32_with_nan};

/// The value of one slot (Columnar Format, "Terminology").
///
/// Dates, times and timestamps are their numbers in their unit. In a dictionary-encoded column the
/// value of a slot is its index.
#[derive(Debug, Drop)]
pub enum Value {
    /// No value.
    Null,
    /// A truth value.
    Bool(bool),
    /// A number of type Int, Date, Time, Timestamp or Duration, the bits of one of type
    /// FloatingPoint (see [`Value::float`]), the whole number of a decimal of at most 128 bits, the
    /// months of an interval that has only months, or an index.
    Int(i128),
    /// A byte string, an interval of several numbers (see [`Value::interval`]), or a decimal of 256
    /// bits (see [`Value::wide_decimal`]).
    Bytes(Vec<u8>),
    /// A text.
    Text(String),
    /// The items of a list, in their order.
    List(Vec<Value>),
    /// The values of a struct, one for each field, in their order.
    Struct(Vec<Value>),
}

impl Value {
    /// The value of a number in a column of this precision: the nearest number that the precision
    /// has, of two the one with an even last digit. All NaNs become one value; to keep particular
    /// bits, make a `Value::Int` of them.
    pub fn float(precision: Precision, number: f64) -> Value
        ensures { IsFloatValue precision number (value_view result) }
    {
        Value::Int(match precision {
            Precision::Half => i128::from(half::nearest(number)),
            Precision::Single => {
                i128::from(f32_to_bits_with_nan(nearest_f64_to_f32_with_nan(number)))
            }
            Precision::Double => i128::from(f64_to_bits_with_nan(number)),
        })
    }

    /// The value of an interval in a column of its unit: the number of months for months, else the
    /// bytes of its numbers, 8 or 16 of them. The only error is `AllocError`, if an allocation
    /// failed.
    pub fn interval(alloc: Global, interval: Interval) -> Result<Value, AllocError>
        ensures { IfOk result (λ v. value_view v ≡ interval_value interval) }
    {
        let mut bytes = Vec::new(alloc);
        match interval {
            Interval::YearMonth { months } => return Ok(Value::Int(i128::from(months))),
            Interval::DayTime { days, milliseconds } => {
                put_int(&mut bytes, 4, i128::from(days))?;
                put_int(&mut bytes, 4, i128::from(milliseconds))?;
            }
            Interval::MonthDayNano {
                months,
                days,
                nanoseconds,
            } => {
                put_int(&mut bytes, 4, i128::from(months))?;
                put_int(&mut bytes, 4, i128::from(days))?;
                put_int(&mut bytes, 8, i128::from(nanoseconds))?;
            }
        }
        Ok(Value::Bytes(bytes))
    }

    /// The value of a decimal in a column of 256 bits: the 32 bytes of its whole number. In a column of
    /// fewer bits it is the `Value::Int` of that number. The only error is `AllocError`, if an
    /// allocation failed.
    pub fn wide_decimal(alloc: Global, decimal: Decimal) -> Result<Value, AllocError>
        ensures { IfOk result (λ v. value_view v ≡ wide_decimal_value decimal) }
    {
        let mut bytes = Vec::new(alloc);
        put_int(&mut bytes, 16, decimal.low.cast_signed())?;
        put_int(&mut bytes, 16, decimal.high)?;
        Ok(Value::Bytes(bytes))
    }

    /// An equal value with its own memory, or `AllocError` if an allocation failed.
    #[cycle(copy)]
    pub fn copy(&self, alloc: Global) -> Result<Value, AllocError>
        ensures { IfOk result (λ v. value_view v ≡ value_view self.now) }
    {
        Ok(match self {
            Value::Null => Value::Null,
            Value::Bool(truth) => Value::Bool(*truth),
            Value::Int(number) => Value::Int(*number),
            Value::Bytes(bytes) => Value::Bytes(Vec::from_slice(alloc, bytes)?),
            Value::Text(text) => Value::Text(text.clone()?),
            Value::List(values) => Value::List(copy_values(alloc, values)?),
            Value::Struct(values) => Value::Struct(copy_values(alloc, values)?),
        })
    }
}

/// Equal values with their own memory.
#[cycle(copy)]
fn copy_values(alloc: Global, values: &[Value]) -> Result<Vec<Value>, AllocError>
    ensures { IfOk result (λ v. values_view v.items ≡ values_view values.now) }
{
    let mut copies = Vec::with_capacity(alloc, values.len())?;
    for value in values {
        copies.push(value.copy(alloc)?)?;
    }
    Ok(copies)
}

/// Whether the values are equal.
#[cycle(same)]
fn same_value(one: &Value, other: &Value) -> bool
    ensures { IsTrue result ↔ (value_view one.now ≡ value_view other.now) }
{
    match (one, other) {
        (Value::Null, Value::Null) => true,
        (Value::Bool(truth), Value::Bool(other)) => truth == other,
        (Value::Int(number), Value::Int(other)) => number == other,
        (Value::Bytes(bytes), Value::Bytes(other)) => bytes.as_slice() == other.as_slice(),
        (Value::Text(text), Value::Text(other)) => text == other,
        (Value::List(values), Value::List(others)) => same_list(values, others),
        (Value::Struct(values), Value::Struct(others)) => same_list(values, others),
        (Value::Null, _)
        | (Value::Bool(_), _)
        | (Value::Int(_), _)
        | (Value::Bytes(_), _)
        | (Value::Text(_), _)
        | (Value::List(_), _)
        | (Value::Struct(_), _) => false,
    }
}

/// Whether there are equally many values on both sides, and they are equal one by one.
#[cycle(same)]
fn same_list(values: &[Value], others: &[Value]) -> bool
    ensures { IsTrue result ↔ (values_view values.now ≡ values_view others.now) }
{
    if values.len() != others.len() {
        return false;
    }
    for i in 0..values.len() {
        if !same_value(&values[i], &others[i]) {
            return false;
        }
    }
    true
}

/// Values are equal if they are of one kind and hold equal contents. Nothing is allocated.
impl PartialEq for Value {
    ghost eq = { on value_view (is_equal value_code) };

    ghost laws = { on_per value_view (partial_equiv_from_equiv (is_equal_equivalence value_code)) };

    fn eq(&self, other: &Value) -> bool
        ensures gives { result ≡ is_equal value_code (value_view self.now) (value_view other.now) }
        ensures same { IsTrue result ↔ (value_view self.now ≡ value_view other.now) }
    {
        same_value(self, other)
    }
}

impl Eq for Value {
    ghost laws = { on_equiv value_view (is_equal_equivalence value_code) };
}
