//! The buffers of a column as in the Columnar Format ("Physical Memory Layout"), for callers that
//! read them without a call for each slot.

ghost use Rattle.arrow_data.specs.View.{AreBuffersOf};

use crate::array::{Array, Dictionary, Ranges};
use arrow_layout::form::ListForm;
use arrow_layout::{NumberBuffers, StringBuffers, bytes_in};

/// The buffers of a column, by its layout, with its children or its dictionary. They are slices of
/// the message body: nothing is copied.
///
/// Bit i of `validity` says whether slot i has a value, counted from the lowest bit of the first
/// byte; if `validity` is empty, each slot has one ("Validity bitmaps"). Numbers and offsets are
/// little-endian. A slice has the bytes that its slots take, and may have more after them. The
/// content of a slot without a value is meaningless.
#[derive(Clone, Copy)]
pub enum Buffers<'a> {
    /// No buffer: no slot has a value ("Null Layout").
    Nulls,
    /// Truth values: bit i of `values` is that of slot i.
    Bools {
        validity: &'a [u8],
        values: &'a [u8],
    },
    /// The numbers of a column of type Int, FloatingPoint (their bits), Date, Time, Timestamp, Duration,
    /// Decimal of at most 128 bits, or Interval of months.
    Numbers(NumberBuffers<'a>),
    /// Byte strings, given by offsets.
    Binaries(StringBuffers<'a>),
    /// Texts in UTF-8, given by offsets.
    Texts(StringBuffers<'a>),
    /// Byte strings of `width` bytes: that of slot i begins at byte `width * i`.
    FixedBytes {
        width: usize,
        validity: &'a [u8],
        values: &'a [u8],
    },
    /// Lists: the items of slot i are the slots of `child` from offset i up to offset i + 1, or,
    /// for lists of a fixed size, from `size * i` on. `offsets` may be empty if there is no slot,
    /// and it is empty for lists of a fixed size.
    Lists {
        form: ListForm,
        validity: &'a [u8],
        offsets: &'a [u8],
        child: &'a Array,
    },
    /// Structs: slot i is slot i of each child.
    Structs {
        validity: &'a [u8],
        children: &'a [Array],
    },
    /// Indices into a dictionary ("Dictionary-encoded Layout").
    Indices(NumberBuffers<'a>, &'a Dictionary),
}

impl Array {
    /// The buffers of the column, with its children or its dictionary. Nothing is allocated.
    pub fn buffers(&self) -> Buffers<'_>
        ensures { AreBuffersOf self.now result }
    {
        let body = self.body.as_slice();
        match &self.ranges {
            Ranges::Nulls => Buffers::Nulls,
            Ranges::Bools(bools) => Buffers::Bools {
                validity: bytes_in(body, bools.validity),
                values: bytes_in(body, bools.values),
            },
            Ranges::Ints(ints) => Buffers::Numbers(ints.slices(body)),
            Ranges::Binaries(strings) => Buffers::Binaries(strings.slices(body)),
            Ranges::Texts(strings) => Buffers::Texts(strings.slices(body)),
            Ranges::FixedBytes(fixed) => Buffers::FixedBytes {
                width: fixed.width,
                validity: bytes_in(body, fixed.validity),
                values: bytes_in(body, fixed.values),
            },
            Ranges::Lists {
                form,
                validity,
                offsets,
                child,
            } => Buffers::Lists {
                form: *form,
                validity: bytes_in(body, *validity),
                offsets: bytes_in(body, *offsets),
                child,
            },
            Ranges::Structs { validity, children } => Buffers::Structs {
                validity: bytes_in(body, *validity),
                children,
            },
            Ranges::Indices(ints, dictionary) => { Buffers::Indices(ints.slices(body), dictionary) }
        }
    }
}
