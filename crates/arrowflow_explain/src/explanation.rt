//! The explanation of a stream.

use arrow_stream_reader::Fault;
use arrow_types::Limits;
use arrowflow_contents::{BodySpot, Summary};
use arrowflow_diagnosis::Diagnosis;

/// The explanation of a stream.
#[derive(Debug, Drop)]
pub enum Explanation {
    /// It ends well.
    Sound(Summary),
    /// It is rejected, or ends where no stream may end.
    Rejected(RejectedMessage),
}

/// Why a stream is rejected.
#[derive(Debug, Drop)]
pub struct RejectedMessage {
    /// The fault, the same that a check returns.
    pub fault: Fault,
    /// The finding for the fault.
    pub diagnosis: Diagnosis,
    /// Where the body is at fault, if it was found. Which field it is, is tested and not proved.
    pub spot: Option<BodySpot>,
    /// The bytes of the message at fault, as far as they were read; other bytes may follow.
    pub message: Vec<u8>,
    /// The counts of the messages before it.
    pub before: Summary,
    /// The limits of the reader.
    pub limits: Limits,
}
