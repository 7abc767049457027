//! Tests of `arrow_stream_reader`, in a separate crate so that the library is not proved once more
//! with them.
#![tactic(auto)]

#[cfg(test)]
mod frames;
#[cfg(test)]
mod tests;
