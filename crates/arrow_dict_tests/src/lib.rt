//! Tests of `arrow_dict`, in a separate crate so that the library is not proved once more with
//! them.
#![tactic(auto)]

#[cfg(test)]
mod tests;
