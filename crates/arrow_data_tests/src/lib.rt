//! Tests of `arrow_data`: columns, dictionaries and batches against expected results that are
//! written out.
#![tactic(auto)]

#[cfg(test)]
mod tests;
