//! Columns of a batch, as the buffers that hold them.

ghost use Rattle.std.specs.Prelude.{◌≡◌, ◌≤◌, MatchOption, length};
ghost use Rattle.arrow_data.specs.Column.{HasValue};
ghost use Rattle.arrowflow_c.specs.Columns.{ColumnAt, HasNothing, IsBelow, IsColumnOf, ShowsBelow};
ghost use Rattle.arrow_types.specs.View.{type_view};
ghost use Rattle.arrowflow_c.specs.Columns.{bare_column, is_float, no_column, plain_of, column_of};
ghost use Rattle.arrowflow_c.specs.Columns.{with_lists, with_numbers, with_strings, with_values};

use arrow_data::{Array, Batch, Buffers, Dictionary};
use arrow_layout::form::ListForm;
use arrow_layout::{NumberBuffers, StringBuffers};
use arrow_types::DataType;

/// A column as its buffers.
#[repr(C)]
#[derive(Clone, Copy)]
pub struct ColumnC<'a> {
    /// 0 no such column, 1 nulls, 2 truth values, 3 numbers, 4 byte strings, 5 texts, 6 byte strings
    /// of one length, 7 lists, 8 structs, 9 indices, 10 floating-point numbers, 11 fixed-size lists.
    /// Intervals in months are numbers, all others byte strings of one length.
    pub layout: u32,
    /// Whether the numbers or the indices are signed.
    pub has_sign: bool,
    /// How many bytes a number, an index, a byte string of one length or an offset takes; for
    /// fixed-size lists how many items each has.
    pub width: u64,
    /// How many slots there are.
    pub slots: u64,
    /// How many children the column has: one for lists, one for each field for structs.
    pub children: u64,
    /// For indices, how many values the dictionary has.
    pub entries: u64,
    /// If the path ends with a value of a dictionary, the slot that holds this value.
    pub slot: u64,
    /// A bit for each slot, or nothing if each slot has a value.
    pub validity: &'a [u8],
    /// The offsets of lists, byte strings and texts; there may be none if there are no slots.
    pub offsets: &'a [u8],
    /// The bits, numbers or indices; for byte strings and texts their bytes.
    pub values: &'a [u8],
}

impl<'a> ColumnC<'a> {
    /// No column.
    pub(crate) fn none() -> ColumnC<'a>
        ensures { plain_of result ≡ no_column }
    {
        ColumnC::bare(0, 0, 0)
    }

    /// A column of this layout, without buffers.
    fn bare(layout: u32, slots: usize, place: usize) -> ColumnC<'a>
        ensures { plain_of result ≡ bare_column layout slots place }
    {
        ColumnC {
            layout,
            has_sign: false,
            width: 0,
            slots: slots as u64,
            children: 0,
            entries: 0,
            slot: place as u64,
            validity: &[],
            offsets: &[],
            values: &[],
        }
    }

    /// Values of `width` bytes each, or of a bit.
    fn of_values(self, width: usize, validity: &'a [u8], values: &'a [u8]) -> ColumnC<'a>
        ensures { plain_of result ≡ with_values (plain_of self.entry) width validity.now values.now }
    {
        ColumnC {
            width: width as u64,
            validity,
            values,
            ..self
        }
    }

    /// Numbers or indices.
    fn of_numbers(self, of: NumberBuffers<'a>) -> ColumnC<'a>
        ensures { plain_of result ≡ with_numbers (plain_of self.entry) of.entry }
    {
        ColumnC {
            has_sign: of.signed,
            width: of.width as u64,
            validity: of.validity,
            values: of.values,
            ..self
        }
    }

    /// Byte strings or texts.
    fn of_strings(self, of: StringBuffers<'a>) -> ColumnC<'a>
        ensures { plain_of result ≡ with_strings (plain_of self.entry) of.entry }
    {
        ColumnC {
            width: of.width.bytes() as u64,
            validity: of.validity,
            offsets: of.offsets,
            values: of.bytes,
            ..self
        }
    }

    /// Lists, with their offsets, or fixed-size lists.
    fn of_lists(self, form: ListForm) -> ColumnC<'a>
        ensures { plain_of result ≡ with_lists (plain_of self.entry) form }
    {
        let (layout, width) = match form {
            ListForm::Offsets(width) => (7, width.bytes() as u64),
            ListForm::Fixed(size) => (11, u64::from(size)),
        };
        ColumnC {
            layout,
            width,
            children: 1,
            ..self
        }
    }

    /// A column of this type with `slots` slots and these buffers.
    fn stated(data_type: &DataType, slots: usize, place: usize, buffers: Buffers<'a>) -> ColumnC<'a>
        ensures { plain_of result
            ≡ column_of (type_view data_type.now).tag slots place buffers.entry }
    {
        match buffers {
            Buffers::Nulls => ColumnC::bare(1, slots, place),
            Buffers::Bools { validity, values } => {
                ColumnC::bare(2, slots, place).of_values(0, validity, values)
            }
            Buffers::Numbers(of) => {
                let layout = if is_float(data_type) { 10 } else { 3 };
                ColumnC::bare(layout, slots, place).of_numbers(of)
            }
            Buffers::Binaries(of) => ColumnC::bare(4, slots, place).of_strings(of),
            Buffers::Texts(of) => ColumnC::bare(5, slots, place).of_strings(of),
            Buffers::FixedBytes {
                width,
                validity,
                values,
            } => ColumnC::bare(6, slots, place).of_values(width, validity, values),
            Buffers::Lists {
                form,
                validity,
                offsets,
                child: _,
            } => ColumnC {
                validity,
                offsets,
                ..ColumnC::bare(0, slots, place)
            }
            .of_lists(form),
            Buffers::Structs { validity, children } => ColumnC {
                children: children.len() as u64,
                validity,
                ..ColumnC::bare(8, slots, place)
            },
            Buffers::Indices(of, dictionary) => ColumnC {
                entries: dictionary.len() as u64,
                ..ColumnC::bare(9, slots, place).of_numbers(of)
            },
        }
    }

    /// A column, of which slot `place` is the one in question.
    fn of(column: &'a Array, place: usize) -> ColumnC<'a>
        ensures { IsColumnOf column.now place result }
    {
        ColumnC::stated(column.data_type(), column.len(), place, column.buffers())
    }
}

/// Whether numbers of this type are floating-point ones.
fn is_float(data_type: &DataType) -> bool
    ensures { result ≡ is_float (type_view data_type.now).tag }
{
    matches!(data_type, DataType::FloatingPoint(_))
}

/// Value `n` of a dictionary: the array that holds it, and its index there.
fn entry_of(dictionary: &Dictionary, n: usize) -> Option<(&Array, usize)>
    ensures { MatchOption result (length dictionary.now.values ≤ n)
        (λ r. HasValue dictionary.now n r.0.now r.1) }
{
    if n < dictionary.len() {
        Some(dictionary.value(n))
    } else {
        None
    }
}

/// What a column has below it under a number: the child of a list under 0, field `n` of a struct,
/// and the array that holds value `n` of a dictionary, with its index there.
fn below(column: &Array, n: usize) -> Option<(&Array, usize)>
    ensures { MatchOption result (HasNothing column.now n)
        (λ r. IsBelow column.now n r.0.now r.1) }
{
    if let Some(dictionary) = column.dictionary() {
        return entry_of(dictionary, n);
    }
    if n == 0
        && let Some(child) = column.items()
    {
        return Some((child, 0));
    }
    match column.field(n) {
        Some(child) => Some((child, 0)),
        None => None,
    }
}

/// The column that a path leads to from this one, of which slot `place` is the one in question.
fn column_below<'a>(column: &'a Array, place: usize, path: &[usize]) -> ColumnC<'a>
    ensures { ShowsBelow column.now place path.now result }
{
    match path.split_first() {
        Some((n, rest)) => match below(column, *n) {
            Some((child, place)) => column_below(child, place, rest),
            None => ColumnC::none(),
        },
        None => ColumnC::of(column, place),
    }
}

/// The column of a batch that a path leads to, if there is one.
pub(crate) fn column_at<'a>(batch: &'a Option<Batch>, path: &[usize]) -> ColumnC<'a>
    ensures { ColumnAt batch.now path.now result }
{
    match (batch, path.split_first()) {
        (Some(batch), Some((k, rest))) => match batch.columns().get(*k) {
            Some(column) => column_below(column, 0, rest),
            None => ColumnC::none(),
        },
        (None, _) | (Some(_), None) => ColumnC::none(),
    }
}
