//! Tests of `arrow_builder`: columns that are built value by value, compared with expected results
//! that are written out.
#![tactic(auto)]

#[cfg(test)]
mod tests;
