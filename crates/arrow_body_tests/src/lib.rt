//! Tests of `arrow_body_reader` and `arrow_body_writer`: bodies that are columns, and bodies that
//! are not, compared with results that are written out.
#![tactic(auto)]

#[cfg(test)]
mod tests;
