//! The properties that no clause states: that the bytes are those that another program lays out,
//! and that calls succeed. Most messages are written by copies of streams (`vectors/`).

mod refused;
mod tables;
mod written;
