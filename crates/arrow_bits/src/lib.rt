//! Bits, integers and offsets in slices of bytes, as the columnar format of Apache Arrow lays them
//! out.
//!
//! Every column is read through these calls. They take a slice of bytes, which may be any part of a
//! message body, and give what the standard says is there: a bitmap is a list of bits (`Bits`), a
//! buffer of fixed-width values is a list of integers (`int_at`), a buffer of offsets is a list of
//! numbers that never fall (`Offsets`, and `LargeOffsets` for those of 64 bits). `BitsBuilder`,
//! `put_bit`, `put_int` and `put_zeros`, which are for a writer, go the other way. Nothing is
//! copied, and only these four allocate.
//!
//! The meaning of the bytes at an offset is defined once, in `specs/`: `bit_of` and `bits_of`
//! (`Bitmap.antt`), `number_at`, `signed_at` and `int_of` (`Numbers.antt`), `AreOffsetsOf` a width
//! and the lists of the offsets (`Offsets.antt`), `AreAtMost` (`AtMost.antt`). They take a complete
//! list of bytes and an offset in it, so that a layer above can speak of a body and the offsets of
//! its buffers.
//!
//! `Offsets::check` compares sixteen neighbours at a time, `LargeOffsets::check` eight,
//! `are_at_most` compares 64 bytes of numbers with a bound, `Bits::count_zero` counts 64 bits at a
//! time, and `first_unset` skips 64 bits that are set. `plain` has the checks and the count once
//! more as loops over the definitions, with the same contracts.
//!
//! | Notion | Definition |
//! |---|---|
//! | bit, list of bits, their bytes, one bit put | `specs/Bitmap.antt`: `bit_of`, `bits_of`, `IsPacked`, `PutsBit` |
//! | the first bit that is 0 | `specs/Bitmap.antt`: `IsFirstUnset` |
//! | number of a width, signed or unsigned | `specs/Numbers.antt`: `number_at`, `int_of`, `int_bytes` |
//! | offsets of a width | `specs/Offsets.antt`: `AreOffsetsOf`, `offsets_of`, `large_offsets_of` |
//! | numbers that are not above a bound | `specs/AtMost.antt`: `AreAtMost` |
#![tactic(auto)]

mod at_most;
mod bitmap;
mod bitmap_builder;
mod lanes;
mod large_lanes;
mod large_offsets;
mod numbers;
mod offsets;
pub mod plain;

pub use at_most::are_at_most;
pub use bitmap::{Bits, bit, first_unset};
pub use bitmap_builder::{BitsBuilder, put_bit};
pub use large_offsets::LargeOffsets;
pub use numbers::{int_at, put_int, put_zeros};
pub use offsets::Offsets;
