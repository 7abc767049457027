//! What a caller does that depends only on `arrowflow`: the names that the front crates export, and
//! a table that is built, written, read, shown, copied and sent over a connection that breaks; and
//! the same for decimals.
#![tactic(auto)]

#[cfg(test)]
mod decimals;
#[cfg(test)]
mod names;
#[cfg(test)]
mod tests;
