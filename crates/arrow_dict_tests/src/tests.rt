//! Stores, trackers and value fields against results that are written out.

mod making;
mod played;
mod stores;
mod trackers;
mod value_types;
