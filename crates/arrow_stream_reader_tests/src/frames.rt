//! Frames that `examples/make` lays out by hand, each byte from the standard's tables
//! (`Message.fbs`, `Schema.fbs`), in addition to the streams of `arrow_test_streams`.

pub(crate) mod columns;
pub(crate) mod noted;
