//! Tests of `arrowflow_explain`, in a separate crate so that it is not proved once more with them.
#![tactic(auto)]

#[cfg(test)]
mod summed;
#[cfg(test)]
mod tests;
