//! Tests of `arrow_json` and of `arrowflow_json`, in a separate crate so that neither is verified
//! again with its tests.
#![tactic(auto)]

#[cfg(test)]
mod tests;
