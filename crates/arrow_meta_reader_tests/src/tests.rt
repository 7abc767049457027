//! What no contract says: that the definitions say what the formats mean, and that calls succeed.
//!
//! These tests cover what no stream shows: the numbers of a batch, the version of a message, what
//! was counted, limits other than the standard ones, and metadata of 63 MiB. A row changes bytes of
//! metadata at offsets counted from the first byte.

mod counts;
mod decimals;
mod fixed_size_lists;
mod hostile;
mod messages;
mod reading;
mod shared;
mod types;
