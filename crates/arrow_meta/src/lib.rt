//! The metadata of messages, read and written.
//!
//! This crate combines four under one name: `arrow_meta_tree`, from untrusted bytes to a tree of
//! tables; `arrow_meta_schema`, what the tables of a schema mean; `arrow_meta_reader`, from the tree
//! to a message or the least fault; and `arrow_meta_writer`, from a message to its bytes. It has no
//! functions of its own, and re-exports their definitions too.
#![tactic(auto)]

pub mod laws;

pub use arrow_meta_reader::{
    Header, Message, MetadataVersion, RecordBatch, decode, decode_counted, decode_into, judge,
};
pub use arrow_meta_schema as schema_tables;
pub use arrow_meta_tree as tables;
pub use arrow_meta_tree::{BatchKind, DecodeCost, MessageTree, MetaFault, tree, tree_counted};
pub use arrow_meta_writer::{encode, encode_in, encoded_size};
