//! Inputs that end inside a message.

ghost use Rattle.std.specs.Prelude.{◌≡◌, IfSome};
ghost use Rattle.arrowflow_diagnosis.specs.Cut.{IsCut, IsWanted, cut_kind};
ghost use Rattle.arrowflow_diagnosis.specs.Rejection.{situation_of};

use crate::message::body_length;
use crate::prefix::number_at;
use crate::rejected::Rejected;
use arrow_stream_reader::Kind;

/// A part of a message (Columnar Format, "Encapsulated message format").
#[derive(Clone, Copy, Debug, PartialEq, Eq)]
pub enum CutPart {
    /// Its first eight bytes.
    Prefix,
    /// The metadata.
    Metadata,
    /// The body.
    Body,
}

/// An input that ends inside a message.
#[derive(Clone, Copy, Debug, PartialEq, Eq)]
pub struct Cut {
    /// The part of the message in which the input ends.
    pub part: CutPart,
    /// The number of bytes of the message that the input has.
    pub held: u64,
    /// The number of bytes that the message has up to the end of that part.
    pub wanted: u64,
    /// Whether no schema was read before.
    pub before_schema: bool,
}

impl Cut {
    /// The kind of the reader's fault.
    pub fn kind(self) -> Kind
        ensures { result ≡ cut_kind self.before_schema }
    {
        if self.before_schema {
            Kind::NoSchema
        } else {
            Kind::Truncated
        }
    }
}

/// How the input ends inside the message, if it does.
pub(crate) fn cut_of(rejected: &Rejected) -> Option<Cut>
    ensures { IfSome result (λ cut. IsCut cut (situation_of rejected.now)) }
{
    let held = rejected.message.len() as u64;
    let (part, wanted) = wanted_of(rejected.message)?;
    if wanted <= held {
        return None;
    }
    Some(Cut {
        part,
        held,
        wanted,
        before_schema: rejected.reader.schema().is_none(),
    })
}

/// The part of the message in which its bytes end, and the number of bytes that the message has up
/// to the end of that part.
fn wanted_of(message: &[u8]) -> Option<(CutPart, u64)>
    ensures { IfSome result (λ w. IsWanted w.0 message.now w.1) }
{
    if message.len() < 8 {
        return Some((CutPart::Prefix, 8));
    }
    let metadata_end = 8 + u64::from(number_at(message, 4));
    if (message.len() as u64) < metadata_end {
        return Some((CutPart::Metadata, metadata_end));
    }
    let wanted = metadata_end.checked_add(body_length(message)?)?;
    Some((CutPart::Body, wanted))
}
