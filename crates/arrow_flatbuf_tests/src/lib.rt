//! Tests of `arrow_flatbuf`, in a separate crate, so that it is not proved again with its tests.
#![tactic(auto)]

#[cfg(test)]
mod tests;
