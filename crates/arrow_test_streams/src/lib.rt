//! Streams that tests of several crates read, each of which is defined only here, and others that
//! are made of their parts.
#![tactic(auto)]

pub mod parts;
pub mod streams;
