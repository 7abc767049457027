//! How a writer sends.

ghost use Rattle.std.specs.Prelude.{◌≡◌};

use arrow_body_writer::Align;
use arrow_dict::Updates;

/// How a writer sends.
#[derive(Clone, Copy, Debug, PartialEq, Eq)]
pub struct Options {
    /// How it sends extended dictionaries (Columnar Format, "Dictionary Messages").
    pub updates: Updates,
    /// To how many bytes it pads buffers and metadata (Columnar Format, "Buffer Alignment and
    /// Padding").
    pub align: Align,
}

/// Extended dictionaries are sent as deltas, and buffers are padded to 64 bytes.
impl Default for Options {
    ghost use Rattle.arrow_body_writer.specs.declared.align.Align.TheVariants.{SixtyFour};
    ghost use Rattle.arrow_dict.specs.declared.update.Updates.TheVariants.{Delta};

    ghost is_default = { λ o. o ≡ record { updates = Delta; align = SixtyFour } };

    fn default() -> Options {
        Options {
            updates: Updates::Delta,
            align: Align::SixtyFour,
        }
    }
}
