//! Types and fields, each of which may hold the other, and how a column refers to a dictionary.

ghost use Rattle.std.specs.Prelude.{◌≡◌};
ghost use Rattle.arrow_types.specs.View.{field_notes, field_view, fields_view, notes_view};
ghost use Rattle.arrow_types.specs.View.{type_notes, type_view};

use crate::data_type::{BitWidth, DateUnit, DecimalWidth, IntervalUnit, Precision, TimeUnit};
use std::alloc::Global;

/// The type of a column's values, without a dictionary (`Schema.fbs`, union `Type`).
///
/// Any tree of types can be built; whether it keeps to the limits is checked when a `Schema` is
/// made of it.
#[cycle(types)]
#[derive(Debug, Drop)]
pub enum DataType {
    /// Every slot is null.
    Null,
    /// Truth values, a bit each.
    Bool,
    /// Whole numbers of this width, with a sign or without one.
    Int {
        bits: BitWidth,
        signed: bool,
    },
    /// Floating-point numbers, each given by its bits.
    FloatingPoint(Precision),
    /// Decimal numbers of at most `precision` digits, each given by a whole number, which is the
    /// decimal number times 10 to the power of the scale: 1.25 with the scale 2 is 125. In a
    /// `Schema` the width allows the precision and the scale; nothing checks that a number has no
    /// more digits than the precision.
    Decimal {
        width: DecimalWidth,
        precision: u8,
        scale: i8,
    },
    /// Byte strings of any length, between offsets of 32 bits.
    Binary,
    /// The same between offsets of 64 bits.
    LargeBinary,
    /// Byte strings of exactly this many bytes each.
    FixedSizeBinary(u32),
    /// Texts in UTF-8, between offsets of 32 bits.
    Utf8,
    /// The same between offsets of 64 bits.
    LargeUtf8,
    /// Days or milliseconds since 1970-01-01.
    Date(DateUnit),
    /// A time of day since midnight. Its width depends on its unit.
    Time(TimeUnit),
    /// Signed 64-bit numbers since 1970-01-01 00:00, and the name of a time zone if there is one.
    Timestamp(TimeUnit, Option<String>),
    /// Lengths of time, in signed 64-bit numbers.
    Duration(TimeUnit),
    /// Intervals of the calendar, whose months and days have no fixed length in time.
    Interval(IntervalUnit),
    /// Lists of values of the one child field, between offsets of 32 bits.
    List(Box<Field>),
    /// The same between offsets of 64 bits.
    LargeList(Box<Field>),
    /// Lists of exactly this many values each, of the one child field. In a `Schema` the number is
    /// at most the greatest signed 32-bit number (`Schema.fbs`, table `FixedSizeList`).
    FixedSizeList(Box<Field>, u32),
    /// A value of each child field.
    Struct(Vec<Field>),
    /// Lists of entries of the one child field, between offsets of 32 bits, and whether the keys of
    /// each list are sorted, which is stored and nowhere enforced (`Schema.fbs`, table `Map`). In a
    /// `Schema` the child is a struct of two fields, the key and the value.
    Map(Box<Field>, bool),
}

impl DataType {
    /// The child fields: those of a struct, the one of a list or a map, none for any other type.
    /// Allocates nothing.
    pub fn children(&self) -> &[Field]
        ensures fields { fields_view result.now ≡ (type_view self.now).children }
        ensures notes { notes_view result.now ≡ type_notes self.now }
    {
        match self {
            DataType::List(item) => std::slice::from_ref(item),
            DataType::LargeList(item) => std::slice::from_ref(item),
            DataType::FixedSizeList(item, _) => std::slice::from_ref(item),
            DataType::Struct(fields) => fields,
            DataType::Map(entries, _) => std::slice::from_ref(entries),
            _ => &[],
        }
    }
}

/// The type of a dictionary's indices (`Schema.fbs`, table `DictionaryEncoding`, field
/// `indexType`).
#[derive(Clone, Copy, Debug, PartialEq, Eq)]
pub struct IndexType {
    /// How many bits one index takes.
    pub bits: BitWidth,
    /// Whether indices are signed numbers. A negative index refers to nothing, whatever the type.
    pub signed: bool,
}

/// The encoding of a column that holds indices into a dictionary in place of values (`Schema.fbs`,
/// table `DictionaryEncoding`).
#[derive(Clone, Copy, Debug, PartialEq, Eq)]
pub struct Encoding {
    /// Which dictionary. Fields that have the same id share one dictionary, and then have equal
    /// value types.
    pub id: i64,
    /// The type of the indices. It may differ between fields that share a dictionary.
    pub index: IndexType,
    /// Whether the order of the dictionary's values is meaningful. Stored, and nowhere enforced.
    pub ordered: bool,
}

/// A column of a schema, or a child of a list or a struct (`Schema.fbs`, table `Field`).
#[cycle(types)]
#[derive(Debug, Drop)]
pub struct Field {
    /// The name, which may be empty and need not be unique.
    pub name: String,
    /// Whether slots may be null. Stored, and nowhere enforced.
    pub nullable: bool,
    /// The type of the values. With a dictionary, the type of the dictionary's values.
    pub data_type: DataType,
    /// The dictionary that has the values, if the column holds indices.
    pub dictionary: Option<Encoding>,
    /// Custom metadata: pairs of a key and a value in their order, each any bytes. Stored, and used
    /// only for equality.
    pub metadata: Vec<(Vec<u8>, Vec<u8>)>,
}

impl Field {
    ghost use Rattle.std.specs.Prelude.{Some, None, [], string_bytes};
    ghost use Rattle.arrow_types.specs.Field.{encoded_by, field_by};
    ghost use Rattle.arrow_types.specs.Notes.{pairs_view};

    /// A field that holds its values itself, without metadata. Allocates nothing.
    pub fn new(alloc: Global, name: String, data_type: DataType, nullable: bool) -> Field
        ensures shape { field_view result
            ≡ field_by (string_bytes name) nullable None (type_view data_type) }
        ensures notes { field_notes result ≡ record { pairs = []; below = type_notes data_type } }
    {
        Field {
            name,
            nullable,
            data_type,
            dictionary: None,
            metadata: Vec::new(alloc),
        }
    }

    /// The same field, holding indices into this dictionary in place of its values. Allocates
    /// nothing.
    pub fn with_dictionary(mut self, encoding: Encoding) -> Field
        ensures shape { field_view result ≡ encoded_by encoding (field_view self) }
        ensures notes { field_notes result ≡ field_notes self }
    {
        self.dictionary = Some(encoding);
        self
    }

    /// The same field with these pairs in place of those that it has. Allocates nothing.
    pub fn with_metadata(mut self, metadata: Vec<(Vec<u8>, Vec<u8>)>) -> Field
        ensures shape { field_view result ≡ field_view self }
        ensures notes { field_notes result
            ≡ record { pairs = pairs_view metadata.items; below = (field_notes self).below } }
    {
        self.metadata = metadata;
        self
    }

    /// The fields below this one: the children of its type. Allocates nothing.
    pub fn children(&self) -> &[Field]
        ensures fields { fields_view result.now ≡ (field_view self.now).children }
        ensures notes { notes_view result.now ≡ (field_notes self.now).below }
    {
        self.data_type.children()
    }
}
