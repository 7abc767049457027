//! What no stream of `vectors/` shows: the results of consecutive calls, custom limits, the byte
//! that decides, each byte set to each value, long bodies, and that calls succeed.
//!
//! A row names parts of streams, each from one offset to another, and changes bytes of these at
//! offsets counted from the first byte of all.

mod answers;
mod calls;
mod deciding;
mod declared;
mod kinds;
mod limits;
mod long_bodies;
mod single_bytes;
mod sizes;
