//! The trait for sinks.

ghost use Rattle.std.specs.Prelude.{◌≡◌, ◌≤◌, ◌<◌, ◌-◌, ◌^◌, ℕ, List, length};
ghost use Rattle.std.specs.Prelude.{IfOk, None, OnOk, Option, ⊤};
ghost use Rattle.std.specs.Io.KnownBytes.{Keeps};
ghost use Rattle.arrow_sink.specs.Sinks.{Puts, CountsPut, CountsFlush};

use std::error::Error;
use std::fmt;

/// The error of a call of a sink that failed.
#[derive(Clone, Copy, Debug, PartialEq, Eq)]
pub struct SinkFault;

impl fmt::Display for SinkFault {
    ghost use Rattle.std.specs.Prelude.{Some, codes};

    ghost output = { λ _. Some (codes "the output failed") };

    fn fmt<W: fmt::Write>(&self, f: &mut fmt::Formatter<W>) -> fmt::Result {
        f.write_str("the output failed")
    }
}

impl Error for SinkFault {}

/// The destination of bytes, in order.
///
/// A call that fails counts one failure, and so does a call that takes no byte of a piece that has
/// bytes. Nothing else does. A caller makes no call of a sink whose count is at 2^64 - 1.
pub trait Sink {
    // The bytes that it accepted, if they are known.
    ghost contents: { Self → Option (List ℕ) } = { λ _. None };

    // How many of its calls failed.
    ghost failed: { Self → ℕ };

    // That it passed on all that it accepted, if that is known.
    ghost is_passed_on: { Self → Type 0 } = { λ _. ⊤ };

    /// Offers a piece, and returns how many of its first bytes were accepted: at most all of them.
    /// With an error, none of the piece was.
    fn put(&mut self, piece: &[u8]) -> Result<usize, SinkFault>
        requires { failed self.old < 2 ^ 64 - 1 }
        ensures bound { IfOk result (λ n. n ≤ length piece.now) }
        ensures bytes { Puts (contents self.old) (contents self.new) result piece.now }
        ensures count { CountsPut (failed self.old) (failed self.new) result (length piece.now) };

    /// Passes on all that was accepted.
    fn flush(&mut self) -> Result<(), SinkFault>
        requires { failed self.old < 2 ^ 64 - 1 }
        ensures bytes { Keeps (contents self.old) (contents self.new) }
        ensures passed { OnOk result (is_passed_on self.new) }
        ensures count { CountsFlush (failed self.old) (failed self.new) result };

    /// How many calls have failed so far.
    fn failures(&self) -> u64
        ensures { result ≡ failed self.now };
}
