//! Why a writer rejects a call.

ghost use Rattle.std.specs.Prelude.{◌≡◌};
ghost use Rattle.arrow_sink.specs.Refusals.{number_of};

use crate::sink::SinkFault;
use std::alloc::AllocError;
use std::error::Error;
use std::fmt;

/// Why a writer rejects a call, in the order of the numbers. A batch that is rejected with one of
/// the first three is rejected with the first of `SchemaDiffers`, `DictionariesDiffer`, `TooLarge`
/// that applies.
#[derive(Clone, Copy, Debug, PartialEq, Eq)]
pub enum WriteFault {
    /// The schema of the batch is not the writer's.
    SchemaDiffers,
    /// A limit would be exceeded by a frame, by a dictionary after its update, or by the offset
    /// where a frame or the end marker ends; an offset would not fit in 32 bits; or a schema has a
    /// type that is not in the set of the limits.
    TooLarge,
    /// Two columns of the batch have different dictionaries with the same id.
    DictionariesDiffer,
    /// The sink failed in the call.
    Sink,
    /// The sink failed in an earlier call.
    Broken,
    /// The end marker was sent before.
    Finished,
    /// An allocation failed.
    Memory,
}

impl WriteFault {
    /// The fault's number, from 1.
    pub fn number(self) -> u8
        ensures { result ≡ number_of self }
    {
        match self {
            WriteFault::SchemaDiffers => 1,
            WriteFault::TooLarge => 2,
            WriteFault::DictionariesDiffer => 3,
            WriteFault::Sink => 4,
            WriteFault::Broken => 5,
            WriteFault::Finished => 6,
            WriteFault::Memory => 7,
        }
    }
}

/// A failed allocation: `Memory`.
impl From<AllocError> for WriteFault {
    ghost use Rattle.arrow_sink.specs.declared.write_fault.WriteFault.TheVariants.{Memory};

    ghost from_gives = { λ refused fault. fault ≡ Memory };

    fn from(_refused: AllocError) -> WriteFault {
        WriteFault::Memory
    }
}

/// A sink that failed in the call: `Sink`.
impl From<SinkFault> for WriteFault {
    ghost use Rattle.arrow_sink.specs.declared.write_fault.WriteFault.TheVariants.{Sink};

    ghost from_gives = { λ failed fault. fault ≡ Sink };

    fn from(_failed: SinkFault) -> WriteFault {
        WriteFault::Sink
    }
}

impl fmt::Display for WriteFault {
    ghost use Rattle.std.specs.Prelude.{Some};
    ghost use Rattle.arrow_sink.specs.Refusals.{words_of};

    ghost output = { λ f. Some (words_of f) };

    fn fmt<W: fmt::Write>(&self, f: &mut fmt::Formatter<W>) -> fmt::Result {
        match self {
            WriteFault::SchemaDiffers => f.write_str("another schema"),
            WriteFault::TooLarge => f.write_str("past a limit"),
            WriteFault::DictionariesDiffer => f.write_str("two dictionaries of one id"),
            WriteFault::Sink => f.write_str("the sink failed"),
            WriteFault::Broken => f.write_str("the sink failed before"),
            WriteFault::Finished => f.write_str("the stream is finished"),
            WriteFault::Memory => f.write_str("out of memory"),
        }
    }
}

impl Error for WriteFault {}
