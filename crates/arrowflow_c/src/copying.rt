//! Streams in memory, written again.

ghost use Rattle.arrowflow_calls.specs.Terms.{numbers, options_by};
ghost use Rattle.arrowflow_calls.specs.Texts.{Gives, IsCopied};

use arrow_sink::Counted;
use arrowflow_calls::{BAD_LIMITS, LimitsC, OptionsC, TextC};
use arrowflow_copy::copy;
use std::alloc::Global;

/// Writes a stream again: the stream of the batches that were read, as `arrowflow copy` writes it.
/// As much of it as fits is put into the output buffer: an empty buffer only measures its size.
#[unsafe(no_mangle)]
pub extern "C" fn arrowflow_copy(
    alloc: Global,
    bytes: &[u8],
    limits: LimitsC,
    options: OptionsC,
    room: &mut [u8],
) -> TextC
    ensures copied { Gives limits (IsCopied (numbers limits) (options_by options) bytes.now)
        room.old result room.new }
{
    let Some(limits) = limits.limits() else {
        return TextC::bare(BAD_LIMITS);
    };
    let mut input = bytes;
    let output = Counted::new(Vec::new(alloc));
    let (output, answer) = copy(alloc, &mut input, output, options.options(), &limits);
    TextC::given(&answer, &output.into_inner(), room)
}
