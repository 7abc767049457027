//! The buffers of a node.

use crate::byte_range::ByteRange;
use crate::shared_body::SharedBody;

/// The most slots that a node can have (`Schema.fbs`, on lengths; `Message.fbs`, struct
/// `FieldNode`).
pub const MOST_SLOTS: usize = 2_147_483_647;

/// The slots and the buffers of a node in a body.
#[derive(Clone, Copy)]
pub struct NodeBuffers<'a> {
    /// How many slots the node has.
    pub len: usize,
    /// The body.
    pub body: &'a SharedBody,
    /// Where each buffer lies in the body, in the order of the format. An empty range means an
    /// absent validity bitmap, or the offsets of no slots.
    pub ranges: &'a [ByteRange],
}
