//! Tests of `arrow_csv`, in a separate crate, so that it is not proved again with its tests.
#![tactic(auto)]

#[cfg(test)]
mod tests;
