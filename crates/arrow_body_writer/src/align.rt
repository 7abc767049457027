//! The number of bytes to which buffers are padded.

ghost use Rattle.std.specs.Prelude.{◌≡◌, ◌≤◌, ◌+◌};
ghost use Rattle.arrow_body_laws.specs.Stored.{rounded};
ghost use Rattle.arrow_body_writer.specs.Align.{alignment_of};

/// The number of bytes to which each buffer is padded (Columnar Format, "Buffer Alignment and
/// Padding").
#[derive(Clone, Copy, Debug, PartialEq, Eq)]
pub enum Align {
    /// 8 bytes.
    Eight,
    /// 64 bytes.
    SixtyFour,
}

impl Align {
    /// The number of bytes.
    pub fn bytes(self) -> usize
        ensures { result ≡ alignment_of self }
    {
        match self {
            Align::Eight => 8,
            Align::SixtyFour => 64,
        }
    }

    /// A number of bytes, rounded up to a multiple of the alignment.
    pub fn round_up(self, len: u64) -> u64
        requires { len ≤ 9223372036854775807 }
        ensures same { result ≡ rounded (alignment_of self) len }
        ensures near { result ≤ len + 63 }
    {
        match self {
            Align::Eight => len.next_multiple_of(8),
            Align::SixtyFour => len.next_multiple_of(64),
        }
    }
}
