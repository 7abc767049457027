//! Tests of `arrow_meta_reader`, in a separate crate so that the library is not proved once more
//! with them.
#![tactic(auto)]

#[cfg(test)]
mod foreign;
#[cfg(test)]
mod tests;
#[cfg(test)]
mod vectors;
