//! What a reader has of the first bytes of a stream of letters.

use super::batches::MEMORY;
use std::process::Abort;

/// An offset at which a frame ends, and the letters of the batches and of the dictionaries that a
/// reader has there.
pub(super) type Frame = (usize, &'static str);

/// The frames of the growing dictionary.
pub(super) static GROWN: [Frame; 8] = [
    (200, ""),
    (424, "0:abc "),
    (592, "abc 0:abc "),
    (816, "abc 0:abcde "),
    (976, "abc ea 0:abcde "),
    (1208, "abc ea 0:acde "),
    (1368, "abc ea ce 0:acde "),
    (1376, "abc ea ce 0:acde "),
];

/// The frames if all of its values are sent each time.
pub(super) static RESENT: [Frame; 8] = [
    (200, ""),
    (424, "0:abc "),
    (592, "abc 0:abc "),
    (824, "abc 0:abcde "),
    (984, "abc ea 0:abcde "),
    (1216, "abc ea 0:acde "),
    (1376, "abc ea ce 0:acde "),
    (1384, "abc ea ce 0:acde "),
];

/// What a reader reports that has the first `len` bytes of a stream, or all if it is shorter.
pub(super) fn beginning(
    rt: &(impl Abort + AllocGlobal),
    frames: &'static [Frame],
    len: usize,
) -> String {
    let size = frames.last().map_or(0, |(end, _)| *end);
    let text = match frames.iter().rev().find(|(end, _)| *end <= len) {
        None => String::from_str(rt.alloc(), "NoSchema at 0"),
        Some((end, letters)) if *end == len.min(size) => format!(in rt.alloc(); "{letters}Clean"),
        Some((end, letters)) => format!(in rt.alloc(); "{letters}Truncated at {end}"),
    };
    text.expect(rt, MEMORY)
}
