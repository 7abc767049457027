//! The limits with which a stream is read, and the options with which it is written again.

ghost use Rattle.std.specs.Prelude.{◌≡◌, SomeIff};
ghost use Rattle.arrow_stream_writer.specs.Shown.{options_view};
ghost use Rattle.arrowflow_calls.specs.Terms.{AreLimits, numbers, options_by};

use arrow_stream_writer::{Align, Options, Updates};
use arrow_types::{Limits, TypeSet};

/// The limits of what an untrusted stream may ask for.
#[repr(C)]
#[derive(Clone, Copy)]
pub struct LimitsC {
    /// The most bytes of one message's metadata, at most 2^30.
    pub max_metadata: u64,
    /// The most bytes of one message's body, at most 2^40.
    pub max_body: u64,
    /// The most rows of a batch, and values of a dictionary, at most 2^31 - 1.
    pub max_rows: u64,
    /// Which types are read: 0 the core, 1 all.
    pub types: u32,
}

impl LimitsC {
    /// The limits of a reader, or None if one is above its ceiling or no such types exist.
    pub fn limits(self) -> Option<Limits>
        ensures { SomeIff result (AreLimits self) (numbers self) }
    {
        let types = match self.types {
            0 => TypeSet::Core,
            1 => TypeSet::All,
            _ => return None,
        };
        let limits = Limits::new(self.max_metadata, self.max_body, self.max_rows)?;
        Some(limits.with_types(types))
    }
}

/// How a stream is written again. If all are false, dictionaries that grew are sent as deltas, and
/// buffers are padded to 64 bytes.
#[repr(C)]
#[derive(Clone, Copy)]
pub struct OptionsC {
    /// Whether a dictionary that grew is sent in full.
    pub resend: bool,
    /// Whether buffers are padded to 8 bytes.
    pub pad_to_8: bool,
}

impl OptionsC {
    /// The options of a writer.
    pub fn options(self) -> Options
        ensures { options_view result ≡ options_by self }
    {
        Options {
            updates: if self.resend {
                Updates::Resend
            } else {
                Updates::Delta
            },
            align: if self.pad_to_8 {
                Align::Eight
            } else {
                Align::SixtyFour
            },
        }
    }
}
