//! Why the first eight bytes of a message are rejected.

ghost use Rattle.std.specs.Prelude.{◌≡◌, ◌+◌, ◌≤◌, IfSome, length};
ghost use Rattle.arrow_stream_reader.specs.Frame.{number_at};
ghost use Rattle.arrowflow_diagnosis.specs.Prefix.{PrefixFails, prefix_kind};
ghost use Rattle.arrowflow_diagnosis.specs.Rejection.{situation_of};

use crate::rejected::Rejected;
use arrow_stream_reader::{CONTINUATION, Kind};
use arrow_types::Limits;

/// Why the first eight bytes of a message are rejected (Columnar Format, "Encapsulated message
/// format").
#[derive(Clone, Copy, Debug, PartialEq, Eq)]
pub enum PrefixFault {
    /// The message begins with this number of four bytes, and not with the continuation.
    Continuation { found: u32 },
    /// The size of the metadata is negative, or over the limit. It is given as an unsigned number.
    MetadataSize { size: u32 },
    /// With this size the metadata would end past byte 2^62 of the stream.
    MetadataEnd { size: u32 },
    /// The end marker comes before a schema.
    MarkerFirst,
}

impl PrefixFault {
    /// The kind of the reader's fault.
    pub fn kind(self) -> Kind
        ensures { result ≡ prefix_kind self }
    {
        match self {
            PrefixFault::Continuation { .. } => Kind::Continuation,
            PrefixFault::MetadataSize { .. } | PrefixFault::MetadataEnd { .. } =>
                Kind::MetadataSize,
            PrefixFault::MarkerFirst => Kind::NoSchema,
        }
    }
}

/// The number in the four bytes that begin at an offset.
pub(crate) fn number_at(bytes: &[u8], place: usize) -> u32
    requires { place + 4 ≤ length bytes.now }
    ensures { result ≡ number_at bytes.now place }
{
    u32::from_le_bytes([
        bytes[place],
        bytes[place + 1],
        bytes[place + 2],
        bytes[place + 3],
    ])
}

/// The first fault that holds for the prefix, if the prefix is complete and a fault holds.
pub(crate) fn prefix_fault(rejected: &Rejected) -> Option<PrefixFault>
    ensures { IfSome result (λ fault. PrefixFails fault (situation_of rejected.now)) }
{
    let message = rejected.message;
    if message.len() < 8 {
        return None;
    }
    let found = number_at(message, 0);
    if found != CONTINUATION {
        return Some(PrefixFault::Continuation { found });
    }
    let size = number_at(message, 4);
    if rejected.limits.max_metadata() < u64::from(size) {
        return Some(PrefixFault::MetadataSize { size });
    }
    if Limits::LAST_PLACE.saturating_sub(rejected.reader.place()) < 8 + u64::from(size) {
        return Some(PrefixFault::MetadataEnd { size });
    }
    let is_first = rejected.reader.schema().is_none();
    (size == 0 && is_first).then_some(PrefixFault::MarkerFirst)
}
