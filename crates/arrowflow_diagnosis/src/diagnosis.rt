//! Diagnoses: why a message is rejected, with what was found.

ghost use Rattle.std.specs.Prelude.{◌≡◌, IfSome};
ghost use Rattle.arrowflow_diagnosis.specs.Holds.{Holds, kind_of};
ghost use Rattle.arrowflow_diagnosis.specs.Rejection.{situation_of};

use crate::cut::{Cut, cut_of};
use crate::message_fault::{
    MessageFault, compression_fault, header_fault, length_fault, order_fault, table_fault,
    version_fault,
};
use crate::prefix::{PrefixFault, prefix_fault};
use crate::rejected::Rejected;
use crate::rows_fault::{RowsFault, no_base, too_many, unknown_id};
use crate::schema_fault::{SchemaCondition, misfit, unreadable, unsupported};
use arrow_stream_reader::Kind;
use std::alloc::Global;

/// Why a message is rejected, with what was found.
#[derive(Debug, Drop)]
pub enum Diagnosis {
    /// Its first eight bytes are at fault.
    Prefix(PrefixFault),
    /// The input ends inside of it.
    Ends(Cut),
    /// The numbers of its own tables are at fault.
    Message(MessageFault),
    /// It is a batch that does not fit the messages read before it.
    Rows(RowsFault),
    /// It is a schema with something that is not supported, or that contradicts itself.
    Schema(SchemaCondition),
    /// Only the kind is known.
    Other(Kind),
}

impl Diagnosis {
    /// The kind of the reader's fault.
    pub fn kind(&self) -> Kind
        ensures { result ≡ kind_of self.now }
    {
        match self {
            Diagnosis::Prefix(fault) => fault.kind(),
            Diagnosis::Ends(cut) => cut.kind(),
            Diagnosis::Message(fault) => fault.kind(),
            Diagnosis::Rows(fault) => fault.kind(),
            Diagnosis::Schema(fault) => fault.kind(),
            Diagnosis::Other(kind) => *kind,
        }
    }
}

/// Why a reader rejects a message with a fault of this kind: the condition of the format that does
/// not hold, with what was found; or only the kind, if no more is known or an allocation failed.
/// Whatever the kind is, the diagnosis holds for the bytes and has this kind.
pub fn diagnose(alloc: Global, kind: Kind, rejected: &Rejected) -> Diagnosis
    ensures kind { kind_of result ≡ kind }
    ensures holds { Holds result (situation_of rejected.now) }
{
    match found(alloc, kind, rejected) {
        Some(diagnosis) if diagnosis.kind().number() == kind.number() => diagnosis,
        Some(_) | None => Diagnosis::Other(kind),
    }
}

/// The finding for a message, when a fault of this kind is to be explained.
fn found(alloc: Global, kind: Kind, rejected: &Rejected) -> Option<Diagnosis>
    ensures { IfSome result (λ diagnosis. Holds diagnosis (situation_of rejected.now)) }
{
    Some(match kind {
        Kind::Continuation | Kind::MetadataSize => Diagnosis::Prefix(prefix_fault(rejected)?),
        Kind::Version => Diagnosis::Message(version_fault(rejected)?),
        Kind::Header => Diagnosis::Message(header_fault(rejected)?),
        Kind::BodyLength => Diagnosis::Message(length_fault(rejected)?),
        Kind::Order => Diagnosis::Message(order_fault(rejected)?),
        Kind::Compressed => Diagnosis::Message(compression_fault(rejected)?),
        Kind::UnknownId => Diagnosis::Rows(unknown_id(alloc, rejected)?),
        Kind::NoBase => Diagnosis::Rows(no_base(alloc, rejected)?),
        Kind::Rows => Diagnosis::Rows(too_many(alloc, rejected)?),
        Kind::NoSchema => no_schema(rejected)?,
        Kind::Truncated => Diagnosis::Ends(cut_of(rejected)?),
        Kind::Unsupported => Diagnosis::Schema(unsupported(alloc, rejected)?),
        Kind::Schema => Diagnosis::Schema(misfit(alloc, rejected)?),
        Kind::Metadata => not_readable(alloc, rejected)?,
        Kind::Layout | Kind::Text | Kind::Index | Kind::Memory => return None,
    })
}

/// The finding for metadata that are not readable: a table of the message, or a table of a type.
fn not_readable(alloc: Global, rejected: &Rejected) -> Option<Diagnosis>
    ensures { IfSome result (λ diagnosis. Holds diagnosis (situation_of rejected.now)) }
{
    match table_fault(rejected) {
        Some(fault) => Some(Diagnosis::Message(fault)),
        None => Some(Diagnosis::Schema(unreadable(alloc, rejected)?)),
    }
}

/// The finding for a stream without a schema: its end marker comes first, or its input ends.
fn no_schema(rejected: &Rejected) -> Option<Diagnosis>
    ensures { IfSome result (λ diagnosis. Holds diagnosis (situation_of rejected.now)) }
{
    match prefix_fault(rejected) {
        Some(fault) => Some(Diagnosis::Prefix(fault)),
        None => Some(Diagnosis::Ends(cut_of(rejected)?)),
    }
}
