//! What no contract clause states: that the bytes that are sent are those that the format
//! prescribes, byte by byte, and that calls succeed. Most streams are written by copies of vectors
//! (`vectors/`), whose bytes are compared there.
//!
//! Batches are read from streams that another program wrote, or built value by value.

mod batches;
mod beginnings;
mod broken;
mod calls;
mod limits;
mod long;
mod one_id;
mod other_schemas;
mod reported;
mod session;
mod types;
mod writers;
