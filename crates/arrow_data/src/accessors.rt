//! The calls of an array: its type, and the values in its slots.

ghost use Rattle.std.specs.Prelude.{◌≡◌, ◌≤◌, ◌<◌, length, option_map, MatchOption, None};
ghost use Rattle.arrow_types.specs.View.{type_view};
ghost use Rattle.arrow_data.specs.Column.{HasItems, HasChild, HasField, HasEntry, HasNoIndex};
ghost use Rattle.arrow_data.specs.Column.{HasDictionary, IsColumn, IsList, struct_fields};
ghost use Rattle.arrow_data.specs.Column.{HasFields, IsStruct, type_of_field, values_from};
ghost use Rattle.arrow_layout.specs.PlainValue.{value_at, is_null_value, bool_in, int_in};
ghost use Rattle.arrow_layout.specs.PlainValue.{binary_in, utf8_in, items_in};
ghost use Rattle.arrow_data.specs.Shown.{float_shown, decimal_shown, interval_shown, HoldsValue};
ghost use Rattle.arrow_data.specs.Shown.{Shows, value_shown};
ghost use Rattle.arrow_layout.specs.Form.{node_form};
ghost use Rattle.arrow_data.specs.FullSlots.{AreFull, IsFirstNull, value_bytes};
ghost use Rattle.arrow_data.specs.Node.{validity_in};
ghost use Rattle.std.specs.List.{flat_map};

use crate::array::{Array, Dictionary, Ranges, SlotRef, SlotValue};
use crate::buffers::SlotRange;
use arrow_layout::decimals::{self, Decimal};
use arrow_layout::floats::number_of;
use arrow_layout::intervals::{self, Interval};
use arrow_layout::slot::{first_invalid, is_valid};
use arrow_layout::{ByteRange, ItemPlaces, bytes_in};
use arrow_types::{DataType, Encoding};

impl Ranges {
    /// Where the validity of the slots lies; None if every slot is null.
    fn validity(&self) -> Option<ByteRange>
        ensures { result ≡ validity_in self.now }
    {
        match self {
            Ranges::Nulls => None,
            Ranges::Bools(bools) => Some(bools.validity),
            Ranges::Ints(ints) | Ranges::Indices(ints, _) => Some(ints.validity),
            Ranges::Binaries(strings) | Ranges::Texts(strings) => Some(strings.validity),
            Ranges::FixedBytes(fixed) => Some(fixed.validity),
            Ranges::Lists { validity, .. } | Ranges::Structs { validity, .. } => Some(*validity),
        }
    }
}

impl<'a> SlotRef<'a> {
    /// What slot `i` shows, as a value.
    #[inline(always)]
    fn at(self, i: usize) -> SlotValue<'a>
        ensures { result ≡ value_shown i self.entry }
    {
        match self {
            SlotRef::Nothing => SlotValue::Null,
            SlotRef::Truth(truth) => SlotValue::Bool(truth),
            SlotRef::Number(number) => SlotValue::Int(number),
            SlotRef::Binary(bytes) => SlotValue::Bytes(bytes),
            SlotRef::Text(text) => SlotValue::Text(text),
            SlotRef::Items(start, end, items) => SlotValue::List(start, end, items),
            SlotRef::Parts(children) => SlotValue::Struct(children, i),
        }
    }
}

#[tactic(auto, using(crate::proofs::Shown::shown))]
impl Array {
    /// How many slots there are, null or not: at most 2,147,483,647.
    pub fn len(&self) -> usize
        ensures count { result ≡ length self.now.raw }
        ensures known { IsColumn self.now }
    {
        self.len
    }

    /// The type of the values. In a dictionary-encoded column it is the type of the dictionary's
    /// values.
    pub fn data_type(&self) -> &DataType
        ensures { type_view result.now ≡ self.now.data_type }
    {
        &self.data_type
    }

    /// How the column refers to its dictionary. None if its slots hold the values themselves.
    pub fn encoding(&self) -> Option<&Encoding>
        ensures { option_map (λ e. e.now) result ≡ self.now.encoding }
    {
        self.encoding.as_ref()
    }

    /// The content of slot `i`; a dictionary-encoded column holds numbers.
    #[inline(always)]
    pub(crate) fn seen(&self, i: usize) -> SlotRef<'_>
        requires { i < length self.now.raw }
        ensures { Shows self.now i result }
    {
        let body = self.body.as_slice();
        match &self.ranges {
            Ranges::Bools(bools) => match bools.at(body, self.len, i) {
                Some(truth) => SlotRef::Truth(truth),
                None => SlotRef::Nothing,
            },
            Ranges::Ints(ints) | Ranges::Indices(ints, _) => match ints.at(body, self.len, i) {
                Some(number) => SlotRef::Number(number),
                None => SlotRef::Nothing,
            },
            Ranges::Binaries(strings) => match strings.binary_at(body, self.len, i) {
                Some(bytes) => SlotRef::Binary(bytes),
                None => SlotRef::Nothing,
            },
            Ranges::Texts(strings) => match strings.text_at(body, self.len, i) {
                Some(text) => SlotRef::Text(text),
                None => SlotRef::Nothing,
            },
            Ranges::FixedBytes(fixed) => match fixed.at(body, self.len, i) {
                Some(bytes) => SlotRef::Binary(bytes),
                None => SlotRef::Nothing,
            },
            Ranges::Lists {
                form,
                validity,
                offsets,
                child,
            } => {
                let (marks, offsets) = (bytes_in(body, *validity), bytes_in(body, *offsets));
                let places = ItemPlaces {
                    form: *form,
                    len: self.len,
                    top: child.len(),
                    offsets,
                };
                match places.range_at(marks, i) {
                    Some((start, end)) => SlotRef::Items(start, end, child),
                    None => SlotRef::Nothing,
                }
            }
            Ranges::Structs { validity, children } if is_valid(bytes_in(body, *validity), i) => {
                SlotRef::Parts(children)
            }
            Ranges::Nulls | Ranges::Structs { .. } => SlotRef::Nothing,
        }
    }

    /// Whether slot `i` is null. An index is not null, even if the value that it refers to is.
    #[inline(always)]
    pub fn is_null(&self, i: usize) -> bool
        requires { i < length self.now.raw }
        ensures { result ≡ is_null_value (value_at self.now.raw i) }
    {
        matches!(self.seen(i), SlotRef::Nothing)
    }

    /// The first null slot from `start` on, or `stop` if none before it is null. If the column has
    /// no validity bitmap, no slot is inspected.
    pub fn first_null(&self, start: usize, stop: usize) -> usize
        requires order { start ≤ stop }
        requires inside { stop ≤ length self.now.raw }
        ensures { IsFirstNull self.now start stop result }
    {
        match self.ranges.validity() {
            Some(range) => first_invalid(bytes_in(self.body.as_slice(), range), start, stop),
            None => start,
        }
    }

    /// The consecutive bytes that contain the values of a range of slots: for numbers or indices
    /// the bytes of the numbers, for byte strings and texts their bytes. No slot of the range is
    /// null. Slots that hold something else have no bytes here. Nothing is copied.
    pub fn value_bytes(&self, start: usize, stop: usize) -> &[u8]
        requires order { start ≤ stop }
        requires inside { stop ≤ length self.now.raw }
        requires full { AreFull self.now start stop }
        ensures { result.now ≡ flat_map
            (value_bytes (node_form self.now.data_type.tag self.now.encoding))
            (values_from self.now.raw start stop) }
    {
        if start == stop {
            return &[];
        }
        let body = self.body.as_slice();
        let slots = SlotRange { start, stop };
        match &self.ranges {
            Ranges::Nulls => &[],
            Ranges::Bools(_) => &[],
            Ranges::Ints(ints) => ints.part(body, self.len, slots),
            Ranges::Binaries(strings) => strings.part(body, self.len, slots),
            Ranges::Texts(strings) => strings.part(body, self.len, slots),
            Ranges::FixedBytes(fixed) => fixed.part(body, self.len, slots),
            Ranges::Lists { .. } => &[],
            Ranges::Structs { .. } => &[],
            Ranges::Indices(ints, _) => ints.part(body, self.len, slots),
        }
    }

    /// The truth value in slot `i`. None if the slot is null or holds something else.
    #[inline(always)]
    pub fn bool_at(&self, i: usize) -> Option<bool>
        requires { i < length self.now.raw }
        ensures { result ≡ bool_in (value_at self.now.raw i) }
    {
        match self.seen(i) {
            SlotRef::Truth(truth) => Some(truth),
            _ => None,
        }
    }

    /// The number in slot `i` of a column of type Int, Date, Time, Timestamp or Duration, the whole
    /// number of one of type Decimal of at most 128 bits, the months of one of type Interval in
    /// months, the bits of one of type FloatingPoint, or the index in slot `i` of a
    /// dictionary-encoded column of any type. None if the slot is null or holds something else.
    #[inline(always)]
    pub fn int_at(&self, i: usize) -> Option<i128>
        requires { i < length self.now.raw }
        ensures { result ≡ int_in (value_at self.now.raw i) }
    {
        match self.seen(i) {
            SlotRef::Number(number) => Some(number),
            _ => None,
        }
    }

    /// The floating-point number in slot `i`, widened if it has 16 or 32 bits; a NaN is returned as
    /// a NaN. ([`Array::int_at`] returns its own bits.) None if the slot is null, or the column has
    /// another type or is dictionary-encoded.
    pub fn float_at(&self, i: usize) -> Option<f64>
        requires { i < length self.now.raw }
        ensures { result ≡ float_shown self.now i }
    {
        match self.data_type() {
            DataType::FloatingPoint(precision) if self.encoding().is_none() => {
                Some(number_of(*precision, self.int_at(i)?))
            }
            _ => None,
        }
    }

    /// The decimal in slot `i`. None if the slot is null, or the column has another type or is
    /// dictionary-encoded.
    pub fn decimal_at(&self, i: usize) -> Option<Decimal>
        requires { i < length self.now.raw }
        ensures { result ≡ decimal_shown self.now i }
    {
        match self.data_type() {
            DataType::Decimal { scale, .. } if self.encoding().is_none() => match self.seen(i) {
                SlotRef::Number(number) => Some(decimals::of_number(*scale, number)),
                SlotRef::Binary(bytes) => decimals::of_bytes(*scale, bytes),
                _ => None,
            },
            _ => None,
        }
    }

    /// The interval in slot `i`. None if the slot is null, or the column has another type or is
    /// dictionary-encoded.
    pub fn interval_at(&self, i: usize) -> Option<Interval>
        requires { i < length self.now.raw }
        ensures { result ≡ interval_shown self.now i }
    {
        match self.data_type() {
            DataType::Interval(unit) if self.encoding().is_none() => match self.seen(i) {
                SlotRef::Number(number) => intervals::of_number(*unit, number),
                SlotRef::Binary(bytes) => intervals::of_bytes(*unit, bytes),
                _ => None,
            },
            _ => None,
        }
    }

    /// The byte string in slot `i`, which may have a fixed size, or the bytes of an interval of
    /// several numbers or of a decimal of 256 bits. None if the slot is null or holds something
    /// else.
    #[inline(always)]
    pub fn bytes_at(&self, i: usize) -> Option<&[u8]>
        requires { i < length self.now.raw }
        ensures { option_map (λ b. b.now) result ≡ binary_in (value_at self.now.raw i) }
    {
        match self.seen(i) {
            SlotRef::Binary(bytes) => Some(bytes),
            _ => None,
        }
    }

    /// The text in slot `i`. None if the slot is null or holds something else.
    #[inline(always)]
    pub fn text_at(&self, i: usize) -> Option<&str>
        requires { i < length self.now.raw }
        ensures { option_map (λ t. t.now) result ≡ utf8_in (value_at self.now.raw i) }
    {
        match self.seen(i) {
            SlotRef::Text(text) => Some(text),
            _ => None,
        }
    }

    /// The items in slot `i`: the first and the end of their slots in the child array, and the
    /// child array. None if the slot is null or holds something else.
    #[inline(always)]
    pub fn list_at(&self, i: usize) -> Option<(usize, usize, &Array)>
        requires { i < length self.now.raw }
        ensures { MatchOption result (items_in (value_at self.now.raw i) ≡ None)
            (λ r. HasItems self.now i r.0 r.1 r.2.now) }
    {
        match self.seen(i) {
            SlotRef::Items(start, end, child) => Some((start, end, child)),
            _ => None,
        }
    }

    /// The child array that contains the items of all lists. None if slots do not hold lists.
    pub fn items(&self) -> Option<&Array>
        ensures { MatchOption result (IsList self.now → ⊥) (λ child. HasChild self.now child.now) }
    {
        match &self.ranges {
            Ranges::Lists { child, .. } => Some(child),
            _ => None,
        }
    }

    /// The array of field `k` of a struct: slot i of the struct is slot i of this array. It may
    /// have more slots. None if slots do not hold structs, or these have no field `k`.
    pub fn field(&self, k: usize) -> Option<&Array>
        ensures { MatchOption result (type_of_field (struct_fields self.now) k ≡ None)
            (λ child. HasField self.now k child.now) }
    {
        match &self.ranges {
            Ranges::Structs { children, .. } => children.get(k),
            _ => None,
        }
    }

    /// The arrays of the fields of a struct, in order. None if slots do not hold structs.
    pub fn fields(&self) -> Option<&[Array]>
        ensures { MatchOption result (IsStruct self.now → ⊥)
            (λ children. HasFields self.now children.now) }
    {
        match &self.ranges {
            Ranges::Structs { children, .. } => Some(children),
            _ => None,
        }
    }

    /// The dictionary that the indices of the column refer to. None if the column is not
    /// dictionary-encoded.
    pub fn dictionary(&self) -> Option<&Dictionary>
        ensures { MatchOption result (self.now.encoding ≡ None)
            (λ dictionary. HasDictionary self.now dictionary.now) }
    {
        match &self.ranges {
            Ranges::Indices(_, dictionary) => Some(dictionary),
            _ => None,
        }
    }

    /// Where the value that slot `i` refers to is: an array and an index in it. None if the slot is
    /// null, or the column is not dictionary-encoded.
    #[inline(always)]
    pub fn resolved(&self, i: usize) -> Option<(&Array, usize)>
        requires { i < length self.now.raw }
        ensures { MatchOption result (HasNoIndex self.now i)
            (λ r. HasEntry self.now i r.0.now r.1) }
    {
        match &self.ranges {
            Ranges::Indices(ints, dictionary) => {
                let index = ints.at(self.body.as_slice(), self.len, i)?;
                Some(dictionary.value(index as usize))
            }
            _ => None,
        }
    }

    /// The value of slot `i`, whatever its type. In a dictionary-encoded column it is the
    /// dictionary's value, and null if the index or that value is null. Nothing is allocated.
    #[inline(always)]
    pub fn slot(&self, i: usize) -> SlotValue<'_>
        requires { i < length self.now.raw }
        ensures { HoldsValue self.now i result }
    {
        // A field is named so that the proof can use what is known of every array.
        let _ = &self.len;
        match self.resolved(i) {
            Some((values, place)) => values.own_slot(place),
            None => self.own_slot(i),
        }
    }

    /// The value of slot `i`, which holds no index.
    #[inline(always)]
    fn own_slot(&self, i: usize) -> SlotValue<'_>
        requires inside { i < length self.now.raw }
        requires own { HasNoIndex self.now i }
        ensures holds { HoldsValue self.now i result }
        ensures column { IsColumn self.now }
    {
        // As in `slot`.
        let _ = &self.len;
        self.seen(i).at(i)
    }
}
