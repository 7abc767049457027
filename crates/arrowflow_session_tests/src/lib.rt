//! Tests of `arrow_stream_writer` and `arrowflow_session`, in a separate crate so that the
//! libraries are not verified again with them.
#![tactic(auto)]

#[cfg(test)]
mod tests;
#[cfg(test)]
mod written;
