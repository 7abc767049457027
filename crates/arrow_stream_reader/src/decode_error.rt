//! Why reading stops at a message.

ghost use Rattle.std.specs.Prelude.{◌≡◌};

use crate::kind::Rejection;
use arrow_body_reader::BodyFault;
use arrow_dict::StoreFault;
use std::alloc::AllocError;

/// Why reading stops at a message.
#[derive(Clone, Copy)]
pub(crate) enum DecodeError {
    /// Its bytes are rejected.
    Refused(Rejection),
    /// An allocation failed.
    Memory,
}

/// A failed allocation: `Memory`.
impl From<AllocError> for DecodeError {
    ghost use Rattle.arrow_stream_reader.specs.declared.decode_error.DecodeError.TheVariants.{Memory};

    ghost from_gives = { λ refused stop. stop ≡ Memory };

    fn from(_refused: AllocError) -> DecodeError {
        DecodeError::Memory
    }
}

/// Bytes that are rejected with this kind: `Refused`.
impl From<Rejection> for DecodeError {
    ghost use Rattle.arrow_stream_reader.specs.declared.decode_error.DecodeError.TheVariants.{Refused};

    ghost from_gives = { λ refusal stop. stop ≡ Refused refusal };

    fn from(refusal: Rejection) -> DecodeError {
        DecodeError::Refused(refusal)
    }
}

/// A fault that the layer below reports of a body: the kind of the same name, or `Memory`.
impl From<BodyFault> for DecodeError {
    ghost use Rattle.arrow_stream_reader.specs.Views.{body_error};

    ghost from_gives = { λ fault stop. stop ≡ body_error fault };

    fn from(fault: BodyFault) -> DecodeError {
        match fault {
            BodyFault::Layout => DecodeError::Refused(Rejection::Layout),
            BodyFault::Text => DecodeError::Refused(Rejection::Text),
            BodyFault::Index => DecodeError::Refused(Rejection::Index),
            BodyFault::Memory => DecodeError::Memory,
        }
    }
}

/// A fault that a store reports of values for a dictionary: the kind with which a delta is rejected
/// for it, or `Memory`.
impl From<StoreFault> for DecodeError {
    ghost use Rattle.arrow_stream_reader.specs.Views.{store_error};

    ghost from_gives = { λ fault stop. stop ≡ store_error fault };

    fn from(fault: StoreFault) -> DecodeError {
        match fault {
            StoreFault::NoBase => DecodeError::Refused(Rejection::NoBase),
            StoreFault::TooLong => DecodeError::Refused(Rejection::Rows),
            StoreFault::Memory => DecodeError::Memory,
        }
    }
}
