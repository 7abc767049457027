//! Bounds of a whole stream, and the offset at which a stream passes one.

ghost use Rattle.std.specs.Prelude.{◌≡◌, None};

use std::fmt;

/// How much a whole stream may have. `None` is no bound.
#[derive(Clone, Copy, Debug, PartialEq, Eq)]
pub struct WholeLimits {
    /// How many rows, those of all batches together.
    pub rows: Option<u64>,
    /// How many messages: the schema, dictionaries and batches. The end marker does not count.
    pub messages: Option<u64>,
    /// How many bytes, up to the end of the last message or of the end marker.
    pub bytes: Option<u64>,
}

impl WholeLimits {
    /// No bound.
    pub fn none() -> WholeLimits
        ensures { result ≡ record { rows = None; messages = None; bytes = None } }
    {
        WholeLimits {
            rows: None,
            messages: None,
            bytes: None,
        }
    }
}

/// What a bound counts.
#[derive(Clone, Copy, Debug, PartialEq, Eq)]
pub enum Measure {
    /// Rows.
    Rows,
    /// Messages.
    Messages,
    /// Bytes.
    Bytes,
}

/// A bound that a stream passes, and where.
#[derive(Clone, Copy, Debug, PartialEq, Eq)]
pub struct Excess {
    /// The offset of the message with which the stream passes the bound, in bytes from the stream's
    /// beginning.
    pub place: u64,
    /// What the bound counts.
    pub measure: Measure,
    /// How many are allowed.
    pub limit: u64,
}

/// `limit at byte P: more than N rows`, and in the same way for messages and for bytes, with the
/// offset and the bound in decimal.
impl fmt::Display for Excess {
    ghost use Rattle.std.specs.Prelude.{Some};
    ghost use Rattle.arrowflow_input.specs.Bounds.{excess_line};

    ghost output = { λ excess. Some (excess_line excess) };

    fn fmt<W: fmt::Write>(&self, f: &mut fmt::Formatter<W>) -> fmt::Result {
        let Excess { place, limit, .. } = *self;
        match self.measure {
            Measure::Rows => write!(f, "limit at byte {place}: more than {limit} rows"),
            Measure::Messages => write!(f, "limit at byte {place}: more than {limit} messages"),
            Measure::Bytes => write!(f, "limit at byte {place}: more than {limit} bytes"),
        }
    }
}
