//! Faults: why a call of a reader returns no item, and where.

use crate::kind::Kind;
use std::error::Error;
use std::fmt;

/// Why a call of a reader returns no item.
///
/// `place` is the offset of the first byte of the current message, in bytes from 0 at the beginning
/// of the stream.
#[derive(Clone, Copy, Debug, PartialEq, Eq)]
pub struct Fault {
    /// The kind of the fault.
    pub kind: Kind,
    /// The offset of the first byte of the message.
    pub place: u64,
}

/// `fault at byte P: KIND`, with the offset in decimal and the kind's name.
impl fmt::Display for Fault {
    ghost use Rattle.std.specs.Prelude.{Some};
    ghost use Rattle.arrow_stream_reader.specs.Kind.{fault_text};

    ghost output = { λ fault. Some (fault_text fault) };

    fn fmt<W: fmt::Write>(&self, f: &mut fmt::Formatter<W>) -> fmt::Result {
        write!(f, "fault at byte {}: {}", self.place, self.kind)
    }
}

impl Error for Fault {}
