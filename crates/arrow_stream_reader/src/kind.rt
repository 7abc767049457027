//! Why a stream is rejected, with the numbers and names of the kinds.

use std::error::Error;
use std::fmt;

/// Why the bytes of a stream are rejected: the kinds 1 to 17, in the order of their numbers. These
/// kinds depend only on bytes, so no reader can have failed because an allocation failed or because
/// of an end that is still to come.
#[derive(Clone, Copy)]
pub(crate) enum Rejection {
    Continuation,
    MetadataSize,
    Metadata,
    Version,
    Header,
    BodyLength,
    Order,
    Unsupported,
    Schema,
    Compressed,
    UnknownId,
    NoBase,
    Rows,
    Layout,
    Text,
    Index,
    NoSchema,
}

/// Why a call of a reader returns no item, in the order of the kinds' numbers, 1 to 19. If several
/// kinds apply to a message, the one with the least number is returned, among those that are
/// decided by then: kinds 1, 2 and 17 by the first eight bytes of a message, 3 to 13 by its
/// complete metadata, 14 to 16 by its complete body.
#[derive(Clone, Copy, Debug, PartialEq, Eq)]
pub enum Kind {
    /// 1: the first four bytes of a message are not `FF FF FF FF`.
    Continuation = 1,
    /// 2: the size of the metadata is below 0 or above `max_metadata`, or so large that they would
    /// end past offset 2^62.
    MetadataSize,
    /// 3: something in the metadata that is inspected is not readable, a table that must be there
    /// is absent, or a fixed limit is exceeded: 32 levels, 65,536 fields, 65,536 pairs of custom
    /// metadata, or `max_metadata` bytes of names, zones, keys and values.
    Metadata,
    /// 4: the metadata's version is neither V4 nor V5.
    Version,
    /// 5: the header is absent, or is not one that the reader accepts.
    Header,
    /// 6: the body's length is negative or over `max_body`, or the body would end past offset 2^62.
    BodyLength,
    /// 7: a second schema, or a batch before the schema.
    Order,
    /// 8: the schema is big-endian, or has a type that the reader does not support or that is not
    /// in the set of the limits, a dictionary of an unknown kind, or a dictionary below a
    /// dictionary.
    Unsupported,
    /// 9: the schema has a width, a precision or a unit outside its list, a type with a wrong
    /// number of children, or one dictionary id with unequal value types.
    Schema,
    /// 10: the body is compressed.
    Compressed,
    /// 11: no field of the schema has the dictionary's id.
    UnknownId,
    /// 12: a delta for an id without a dictionary.
    NoBase,
    /// 13: the batch's length, or that of a node which is taken, is negative or over `max_rows`, or
    /// a delta would make its dictionary longer than `max_rows`.
    Rows,
    /// 14: the body contradicts its nodes and buffers.
    Layout,
    /// 15: a valid text is not UTF-8.
    Text,
    /// 16: a valid index is negative, or not below the length of its dictionary as it is at this
    /// message.
    Index,
    /// 17: the stream ended, by its end marker or otherwise, before a schema message was complete.
    NoSchema,
    /// 18: the stream ended inside a message.
    Truncated,
    /// 19: an allocation failed. This says nothing of the bytes.
    Memory,
}

impl Rejection {
    ghost use Rattle.std.specs.Prelude.{◌≡◌};
    ghost use Rattle.arrow_stream_reader.specs.Kind.{kind_of};

    /// The kind of the same name and number.
    pub(crate) fn kind(self) -> Kind
        ensures same { result ≡ kind_of self }
    {
        match self {
            Rejection::Continuation => Kind::Continuation,
            Rejection::MetadataSize => Kind::MetadataSize,
            Rejection::Metadata => Kind::Metadata,
            Rejection::Version => Kind::Version,
            Rejection::Header => Kind::Header,
            Rejection::BodyLength => Kind::BodyLength,
            Rejection::Order => Kind::Order,
            Rejection::Unsupported => Kind::Unsupported,
            Rejection::Schema => Kind::Schema,
            Rejection::Compressed => Kind::Compressed,
            Rejection::UnknownId => Kind::UnknownId,
            Rejection::NoBase => Kind::NoBase,
            Rejection::Rows => Kind::Rows,
            Rejection::Layout => Kind::Layout,
            Rejection::Text => Kind::Text,
            Rejection::Index => Kind::Index,
            Rejection::NoSchema => Kind::NoSchema,
        }
    }
}

impl Kind {
    ghost use Rattle.std.specs.Prelude.{◌≡◌};
    ghost use Rattle.arrow_stream_reader.specs.Kind.{name_of, number_of};

    /// The kind's number, from 1: its position in the list of kinds.
    pub fn number(self) -> u8
        ensures number { result ≡ number_of self }
    {
        self as u8
    }

    /// The kind's name, which is that of its variant.
    pub fn name(self) -> &'static str
        ensures name { result.now ≡ name_of self }
    {
        match self {
            Kind::Continuation => "Continuation",
            Kind::MetadataSize => "MetadataSize",
            Kind::Metadata => "Metadata",
            Kind::Version => "Version",
            Kind::Header => "Header",
            Kind::BodyLength => "BodyLength",
            Kind::Order => "Order",
            Kind::Unsupported => "Unsupported",
            Kind::Schema => "Schema",
            Kind::Compressed => "Compressed",
            Kind::UnknownId => "UnknownId",
            Kind::NoBase => "NoBase",
            Kind::Rows => "Rows",
            Kind::Layout => "Layout",
            Kind::Text => "Text",
            Kind::Index => "Index",
            Kind::NoSchema => "NoSchema",
            Kind::Truncated => "Truncated",
            Kind::Memory => "Memory",
        }
    }
}

impl fmt::Display for Kind {
    ghost use Rattle.std.specs.Prelude.{Some};
    ghost use Rattle.arrow_stream_reader.specs.Kind.{name_of};

    ghost output = { λ kind. Some (name_of kind) };

    fn fmt<W: fmt::Write>(&self, f: &mut fmt::Formatter<W>) -> fmt::Result {
        f.write_str(self.name())
    }
}

impl Error for Kind {}
