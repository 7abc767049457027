//! The number of bytes of a body that lie in its buffers, and the number that lie in none.

ghost use Rattle.std.specs.Prelude.{◌≡◌, ◌-◌, ◌^◌, min};
ghost use Rattle.arrowflow_contents.specs.Sizes.{buffer_bytes, bytes_in};

use arrow_types::Buffer;
use std::alloc::{AllocError, Global};

/// How many bytes these buffers have in all, at most 2^64 - 1; shared ones are counted twice.
pub(crate) fn bytes_of(buffers: &[Buffer]) -> u64
    ensures { result ≡ min (buffer_bytes buffers.now) (2 ^ 64 - 1) }
{
    let mut bytes = 0u64;
    for buffer in buffers {
        bytes = bytes.saturating_add(length_of(*buffer));
    }
    bytes
}

/// The number of bytes of a body of this length that lie in none of these buffers.
pub(crate) fn padding_of(
    alloc: Global,
    buffers: &[Buffer],
    length: u64,
) -> Result<u64, AllocError> {
    let mut runs = Vec::new(alloc);
    for buffer in buffers {
        if let Some(run) = run_of(*buffer) {
            runs.push(run)?;
        }
    }
    runs.sort()?;
    let (padding, end) = gaps_between(&runs);
    Ok(padding.saturating_add(length.saturating_sub(end)))
}

/// The number of bytes before the end of the last of these runs that lie in none, and the offset of
/// that end. The runs are sorted by their starts.
fn gaps_between(runs: &[(u64, u64)]) -> (u64, u64) {
    let mut bytes = 0u64;
    let mut end = 0u64;
    for (start, stop) in runs {
        bytes = bytes.saturating_add(start.saturating_sub(end));
        end = end.max(*stop);
    }
    (bytes, end)
}

/// The byte of the body at which a buffer begins and the one at which it ends, if it has bytes.
fn run_of(buffer: Buffer) -> Option<(u64, u64)> {
    let length = length_of(buffer);
    if length == 0 {
        return None;
    }
    let start = u64::try_from(buffer.offset).ok()?;
    Some((start, start.saturating_add(length)))
}

/// The number of bytes of a buffer, 0 if its length is negative.
fn length_of(buffer: Buffer) -> u64
    ensures { result ≡ bytes_in buffer }
{
    u64::try_from(buffer.length).unwrap_or(0)
}
