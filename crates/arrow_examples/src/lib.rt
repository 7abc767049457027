//! Callers of `arrowflow`, two of them as README shows them: two read a stream and use its columns,
//! the other builds a batch and writes it. They are built only with their tests.
#![tactic(auto)]

#[cfg(test)]
mod reading;
#[cfg(test)]
mod summing;
#[cfg(test)]
mod tests;
#[cfg(test)]
mod writing;
