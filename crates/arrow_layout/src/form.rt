//! The layouts of nodes, and which of them each type has: the one table that buffers, their tests
//! and slots go by.

ghost use Rattle.std.specs.Prelude.{false, ◌≡◌, ◌↔◌, IsTrue, true};
ghost use Rattle.arrow_bits.specs.Numbers.{IsIntWidth, IsWidth};
ghost use Rattle.arrow_types.specs.Field.{none};
ghost use Rattle.arrow_types.specs.View.{type_view};
ghost use Rattle.arrow_layout.specs.Form.{buffers_of, decimal_form, form_of, greatest_offset};
ghost use Rattle.arrow_layout.specs.Form.{has_sign, HasFieldsOf, int_width, interval_form, IsLeaf};
ghost use Rattle.arrow_layout.specs.Form.{list_buffers, node_form, number_width, offset_bytes};
ghost use Rattle.arrow_layout.specs.declared.form.Form.TheVariants as forms;
ghost use Rattle.arrow_layout.specs.declared.form.NumberForm.TheVariants as numbers;

use arrow_types::{BitWidth, DataType, DecimalWidth, Encoding, IndexType, IntervalUnit};

/// How wide the offsets of a column of variable size are (Columnar Format, "Variable-size Binary
/// Layout").
#[derive(Clone, Copy, Debug, PartialEq, Eq)]
pub enum OffsetWidth {
    /// 32 bits.
    Small,
    /// 64 bits: the large variants.
    Large,
}

impl OffsetWidth {
    /// How many bytes an offset takes.
    #[inline(always)]
    pub fn bytes(self) -> usize
        ensures same { result ≡ offset_bytes self }
        ensures whole { IsWidth result }
    {
        match self {
            OffsetWidth::Small => 4,
            OffsetWidth::Large => 8,
        }
    }

    /// The greatest offset: offsets have a sign, and none is negative.
    #[inline(always)]
    pub fn greatest(self) -> u64
        ensures { result ≡ greatest_offset self }
    {
        match self {
            OffsetWidth::Small => i32::MAX as u64,
            OffsetWidth::Large => i64::MAX as u64,
        }
    }
}

/// Which numbers the slots of a node hold, in two's complement if they have a sign.
#[derive(Clone, Copy, Debug, PartialEq, Eq)]
pub enum NumberForm {
    /// Numbers of 8 to 64 bits, with or without a sign.
    Int { bits: BitWidth, signed: bool },
    /// Numbers of 128 bits with a sign.
    Int128,
}

impl NumberForm {
    /// The form of indices.
    #[inline(always)]
    pub fn of_index(index: IndexType) -> NumberForm
        ensures { result ≡ numbers.Int index.bits index.signed }
    {
        NumberForm::Int {
            bits: index.bits,
            signed: index.signed,
        }
    }

    /// How many bytes a number takes.
    #[inline(always)]
    pub fn width(self) -> usize
        ensures same { result ≡ number_width self }
        ensures whole { IsIntWidth result (has_sign self) }
    {
        match self {
            NumberForm::Int { bits, .. } => int_width(bits),
            NumberForm::Int128 => 16,
        }
    }

    /// Whether the numbers have a sign.
    #[inline(always)]
    pub fn is_signed(self) -> bool
        ensures { result ≡ has_sign self }
    {
        match self {
            NumberForm::Int { signed, .. } => signed,
            NumberForm::Int128 => true,
        }
    }
}

/// Where the items of lists lie among the slots of their child.
#[derive(Clone, Copy, Debug, PartialEq, Eq)]
pub enum ListForm {
    /// From an offset up to the next one (Columnar Format, "Variable-size List Layout").
    Offsets(OffsetWidth),
    /// That many for each list, one list after the other (Columnar Format, "Fixed-Size List
    /// Layout").
    Fixed(u32),
}

impl ListForm {
    /// How many buffers a node of lists has: the validity, and the offsets if they are stored.
    #[inline(always)]
    pub fn buffers(self) -> usize
        ensures { result ≡ list_buffers self }
    {
        match self {
            ListForm::Offsets(_) => 2,
            ListForm::Fixed(_) => 1,
        }
    }
}

/// How the buffers of a node hold its slots (Columnar Format, "Physical Memory Layout").
#[derive(Clone, Copy, Debug, PartialEq, Eq)]
pub enum Form {
    /// No buffer: every slot is null.
    Nulls,
    /// A bit for each slot.
    Bits,
    /// A number for each slot.
    Numbers(NumberForm),
    /// Byte strings, given by offsets.
    Bytes(OffsetWidth),
    /// Texts, given by offsets.
    Texts(OffsetWidth),
    /// That many bytes for each slot.
    FixedBytes(u32),
    /// Lists, with their items in a child.
    Lists(ListForm),
    /// A slot of each child for each slot.
    Structs,
}

impl Form {
    /// How many buffers a node of the form has (Columnar Format, "Buffer Listing for Each Layout").
    #[inline(always)]
    pub fn buffers(self) -> usize
        ensures { result ≡ buffers_of self }
    {
        match self {
            Form::Nulls => 0,
            Form::Structs => 1,
            Form::Lists(list) => list.buffers(),
            Form::Bits | Form::Numbers(_) | Form::FixedBytes(_) => 2,
            Form::Bytes(_) | Form::Texts(_) => 3,
        }
    }

    /// Whether a node of the form has no child.
    #[inline(always)]
    pub fn is_leaf(self) -> bool
        ensures { IsTrue result ↔ IsLeaf self }
    {
        !matches!(self, Form::Lists(_) | Form::Structs)
    }
}

/// The form of the values of a type.
#[inline(always)]
pub fn form_of(data_type: &DataType) -> Form
    ensures same { result ≡ form_of (type_view data_type.now).tag }
    ensures below { HasFieldsOf result (type_view data_type.now).children }
{
    match data_type {
        DataType::Null => Form::Nulls,
        DataType::Bool => Form::Bits,
        DataType::Int { bits, signed } => Form::Numbers(NumberForm::Int {
            bits: *bits,
            signed: *signed,
        }),
        DataType::FloatingPoint(precision) => unsigned(precision.width()),
        DataType::Decimal { width, .. } => decimal_form(*width),
        DataType::Date(unit) => signed(unit.width()),
        DataType::Time(unit) => signed(unit.time_width()),
        DataType::Timestamp(..) | DataType::Duration(_) => signed(BitWidth::SixtyFour),
        DataType::Interval(unit) => interval_form(*unit),
        DataType::Binary => Form::Bytes(OffsetWidth::Small),
        DataType::LargeBinary => Form::Bytes(OffsetWidth::Large),
        DataType::FixedSizeBinary(width) => Form::FixedBytes(*width),
        DataType::Utf8 => Form::Texts(OffsetWidth::Small),
        DataType::LargeUtf8 => Form::Texts(OffsetWidth::Large),
        DataType::List(_) | DataType::Map(..) => {
            Form::Lists(ListForm::Offsets(OffsetWidth::Small))
        }
        DataType::LargeList(_) => Form::Lists(ListForm::Offsets(OffsetWidth::Large)),
        DataType::FixedSizeList(_, size) => Form::Lists(ListForm::Fixed(*size)),
        DataType::Struct(_) => Form::Structs,
    }
}

/// Guarantees for every type that the fields below it are exactly those that its form requires. It
/// is called only for that: nothing remains of a call in the code, while a copy of `form_of` in its
/// place would make its caller too large to be inlined.
pub fn has_own_fields(data_type: &DataType)
    ensures { HasFieldsOf (form_of (type_view data_type.now).tag) (type_view data_type.now).children }
{
    form_of(data_type);
}

/// The form of intervals, which are leaves.
#[inline(always)]
fn interval_form(unit: IntervalUnit) -> Form
    ensures same { result ≡ interval_form unit }
    ensures below { HasFieldsOf result none }
{
    match unit {
        IntervalUnit::YearMonth => signed(BitWidth::ThirtyTwo),
        IntervalUnit::DayTime => Form::FixedBytes(8),
        IntervalUnit::MonthDayNano => Form::FixedBytes(16),
    }
}

/// The form of decimals, which are leaves.
#[inline(always)]
fn decimal_form(width: DecimalWidth) -> Form
    ensures same { result ≡ decimal_form width }
    ensures below { HasFieldsOf result none }
{
    match width {
        DecimalWidth::ThirtyTwo => signed(BitWidth::ThirtyTwo),
        DecimalWidth::SixtyFour => signed(BitWidth::SixtyFour),
        DecimalWidth::OneHundredTwentyEight => Form::Numbers(NumberForm::Int128),
        DecimalWidth::TwoHundredFiftySix => Form::FixedBytes(32),
    }
}

/// Numbers of this width with a sign.
#[inline(always)]
fn signed(bits: BitWidth) -> Form
    ensures { result ≡ forms.Numbers (numbers.Int bits true) }
{
    Form::Numbers(NumberForm::Int { bits, signed: true })
}

/// Numbers of this width without a sign.
#[inline(always)]
fn unsigned(bits: BitWidth) -> Form
    ensures { result ≡ forms.Numbers (numbers.Int bits false) }
{
    Form::Numbers(NumberForm::Int {
        bits,
        signed: false,
    })
}

/// The form of a node of this type and encoding: a dictionary-encoded one has that of its indices.
#[inline(always)]
pub fn node_form(data_type: &DataType, encoding: Option<Encoding>) -> Form
    ensures { result ≡ node_form (type_view data_type.now).tag encoding }
{
    match encoding {
        Some(encoding) => Form::Numbers(NumberForm::of_index(encoding.index)),
        None => form_of(data_type),
    }
}

/// How many bytes an Int of this width takes.
#[inline(always)]
pub fn int_width(bits: BitWidth) -> usize
    ensures same { result ≡ int_width bits }
    ensures whole { IsWidth result }
{
    (bits.bits() / 8) as usize
}
