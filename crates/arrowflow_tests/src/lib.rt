//! Tests of `arrowflow_input`, `arrowflow_text`, `arrowflow_copy`, `arrowflow_drill` and `arrowflow_line`, in their
//! own crate so that those are not proved again with the tests.
#![tactic(auto)]

#[cfg(test)]
mod tests;
