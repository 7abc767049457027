//! Tests of `arrow_meta_writer`, and of the output of `arrow_flatbuf`, in a separate crate, so that
//! the libraries are not proved again with them.
#![tactic(auto)]

#[cfg(test)]
mod tests;
#[cfg(test)]
mod vectors;
