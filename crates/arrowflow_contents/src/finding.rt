//! Findings in a batch's nodes and buffers, each with what holds for them.

ghost use Rattle.std.specs.Prelude.{◌≡◌, ◌≤◌, ℕ, pos, IfSome, false, true};
ghost use Rattle.arrow_body_reader.specs.Held.{IsHeld};
ghost use Rattle.arrow_meta_reader.specs.Means.{batch_view};
ghost use Rattle.arrowflow_contents.specs.Bodies.{FindingHolds, HasPair, HasSlots, IsBadText};
ghost use Rattle.arrowflow_contents.specs.Bodies.{LiesIn, half_of, needed_bytes};

use crate::cursor::Cursor;
use arrow_layout::form::{OffsetWidth, int_width};
use arrow_meta_reader::RecordBatch;
use arrow_types::{Buffer, IndexType};
use arrowflow_diagnosis::number_at;
use std::str;

/// What a buffer needs for its slots (Columnar Format, "Buffer Listing for Each Layout").
#[derive(Clone, Copy, Debug, PartialEq, Eq)]
pub enum Need {
    /// A bit for each slot.
    Bits,
    /// This many bytes for each slot.
    Bytes(u32),
    /// An offset of this many bytes for each slot, and one more.
    Offsets(u32),
}

impl Need {
    /// The number of bytes that this many slots need.
    pub fn bytes(self, slots: u32) -> u64
        ensures { result ≡ needed_bytes self slots }
    {
        let slots = u64::from(slots);
        match self {
            Need::Bits => (slots + 7) / 8,
            Need::Bytes(width) => slots * u64::from(width),
            Need::Offsets(width) => (slots + 1) * u64::from(width),
        }
    }
}

/// A finding in a node and its buffers.
#[derive(Clone, Copy, Debug, PartialEq, Eq)]
pub enum Finding {
    /// The batch has this many nodes, and the field's is not among them.
    NodeMissing {
        nodes: usize,
    },
    /// The batch has this many buffers, and not all of the field's are among them.
    BufferMissing {
        buffers: usize,
    },
    /// The buffer with this index, given here, does not lie in the body of this many bytes.
    BufferOutside {
        buffer: usize,
        place: Buffer,
        body: usize,
    },
    /// The column has this many slots, and the batch this many rows.
    RowCount {
        slots: i64,
        rows: i64,
    },
    /// The buffer with this index has this many bytes, and this many slots need more.
    TooFew {
        buffer: usize,
        bytes: u64,
        slots: u32,
        need: Need,
    },
    /// In the offsets buffer with this index, the slot's offset is above the next one, or the next
    /// one is above the number of bytes or items. Both are given as unsigned numbers.
    Offsets {
        buffer: usize,
        slot: u32,
        start: u64,
        end: u64,
        top: u64,
    },
    /// The node has this many slots, and its number of nulls or its children contradict them.
    Unfit {
        slots: i64,
    },
    /// The bytes of the slot, which lie in the body from one offset up to another, are not UTF-8.
    Text {
        buffer: usize,
        slot: u32,
        start: usize,
        end: usize,
    },
    /// The index of the slot, in the buffer with this index, is negative or not below the number of
    /// the dictionary's values. It is given as an unsigned number.
    Index {
        buffer: usize,
        slot: u32,
        index: u64,
        values: usize,
    },
}

/// A batch, and the bytes of its body.
#[derive(Clone, Copy)]
pub(crate) struct Content<'a> {
    pub(crate) batch: &'a RecordBatch,
    pub(crate) body: &'a [u8],
}

/// Where a buffer lies in its body: its first byte, and its number of bytes.
#[derive(Clone, Copy)]
pub(crate) struct Run {
    start: usize,
    count: usize,
}

impl Content<'_> {
    /// The number of slots of the node with this index, if it is there and valid.
    pub(crate) fn slots(self, node: usize) -> Option<u32>
        ensures { IfSome result (λ n. HasSlots (batch_view self.entry.batch.now) node (pos n)) }
    {
        u32::try_from(self.batch.nodes.get(node)?.length).ok()
    }

    /// The finding that the batch has no node with this index, if it has none.
    pub(crate) fn node_missing(self, node: usize) -> Option<Finding>
        ensures { IfSome result (λ finding.
            FindingHolds finding node (batch_view self.entry.batch.now) self.entry.body.now) }
    {
        let nodes = self.batch.nodes.len();
        (nodes <= node).then_some(Finding::NodeMissing { nodes })
    }

    /// Where the buffer with this index lies, if it lies inside the body.
    pub(crate) fn run(self, index: usize) -> Option<Run>
        ensures { IfSome result (λ run. LiesIn self.entry.body.now (batch_view self.entry.batch.now)
            index run.start run.count) }
    {
        let buffer = *self.batch.buffers.get(index)?;
        let count = usize::try_from(buffer.length).ok()?;
        if count == 0 {
            return Some(Run { start: 0, count });
        }
        let start = usize::try_from(buffer.offset).ok()?;
        if self.body.len() < start || self.body.len() - start < count {
            return None;
        }
        Some(Run { start, count })
    }

    /// The number of bytes of the buffer with this index, 0 if it does not lie inside the body.
    pub(crate) fn count(self, index: usize) -> usize {
        self.run(index).map_or(0, |run| run.count)
    }

    /// The finding that the buffer with this index does not lie inside the body, if it does not.
    pub(crate) fn outside(self, index: usize) -> Option<Finding>
        ensures { IfSome result (λ finding. (node : ℕ)
            → FindingHolds finding node (batch_view self.entry.batch.now) self.entry.body.now) }
    {
        let place = *self.batch.buffers.get(index)?;
        if is_held(self.body, place) {
            return None;
        }
        Some(Finding::BufferOutside {
            buffer: index,
            place,
            body: self.body.len(),
        })
    }

    /// The finding that the buffer with this index is too short for the slots of a node, if it is.
    pub(crate) fn too_few(self, node: usize, index: usize, need: Need) -> Option<Finding>
        ensures { IfSome result (λ finding.
            FindingHolds finding node (batch_view self.entry.batch.now) self.entry.body.now) }
    {
        let slots = self.slots(node)?;
        let bytes = self.run(index)?.count as u64;
        if slots == 0 || need.bytes(slots) <= bytes {
            return None;
        }
        Some(Finding::TooFew {
            buffer: index,
            bytes,
            slots,
            need,
        })
    }

    /// The first offset of the node here that is above the next one, or whose next one is above the
    /// top, if there is one.
    pub(crate) fn bad_offset(self, at: Cursor, width: OffsetWidth, top: u64) -> Option<Finding>
        ensures { IfSome result (λ finding.
            FindingHolds finding at.node (batch_view self.entry.batch.now) self.entry.body.now) }
    {
        let buffer = at.buffer.checked_add(1)?;
        for slot in 0..self.slots(at.node)? {
            let (start, end) = self.pair(buffer, width, slot)?;
            if end < start || top < end {
                return Some(Finding::Offsets {
                    buffer,
                    slot,
                    start,
                    end,
                    top,
                });
            }
        }
        None
    }

    /// The offset of a slot and the next offset, in the buffer with this index.
    fn pair(self, buffer: usize, width: OffsetWidth, slot: u32) -> Option<(u64, u64)>
        ensures { IfSome result (λ pair. HasPair self.entry.body.now (batch_view self.entry.batch.now)
            buffer slot pair) }
    {
        let bytes = width.bytes();
        let place = self.run(buffer)?.start + slot as usize * bytes;
        let start = number_at(self.body, bytes, place)?;
        Some((start, number_at(self.body, bytes, place + bytes)?))
    }

    /// The first valid slot of the node of texts here that is not UTF-8, if there is one. Its
    /// offsets have this width.
    pub(crate) fn bad_text(self, at: Cursor, width: OffsetWidth) -> Option<Finding>
        ensures { IfSome result (λ finding.
            FindingHolds finding at.node (batch_view self.entry.batch.now) self.entry.body.now) }
    {
        let buffer = at.buffer.checked_add(2)?;
        for slot in 0..self.slots(at.node)? {
            let (start, end) = self.text_range(at, width, slot)?;
            if self.is_valid(at.buffer, slot) && is_bad_text(self.body, start, end) {
                return Some(Finding::Text {
                    buffer,
                    slot,
                    start,
                    end,
                });
            }
        }
        None
    }

    /// The bytes of the body in which the text of a slot lies: from which on, and up to which.
    fn text_range(self, at: Cursor, width: OffsetWidth, slot: u32) -> Option<(usize, usize)> {
        let first = self.run(at.buffer.checked_add(2)?)?.start;
        let (start, end) = self.pair(at.buffer.checked_add(1)?, width, slot)?;
        let start = first.checked_add(usize::try_from(start).ok()?)?;
        let end = first.checked_add(usize::try_from(end).ok()?)?;
        Some((start, end))
    }

    /// The first valid slot of the node of indices here whose index refers to none of this many
    /// values, if there is one.
    pub(crate) fn bad_index(self, at: Cursor, indices: IndexType, values: usize) -> Option<Finding>
        ensures { IfSome result (λ finding.
            FindingHolds finding at.node (batch_view self.entry.batch.now) self.entry.body.now) }
    {
        let width = int_width(indices.bits);
        let buffer = at.buffer.checked_add(1)?;
        let first = self.run(buffer)?.start;
        for slot in 0..self.slots(at.node)? {
            let index = number_at(self.body, width, first + slot as usize * width)?;
            let is_bad = values as u64 <= index || (indices.signed && is_negative(index, width));
            if is_bad && self.is_valid(at.buffer, slot) {
                return Some(Finding::Index {
                    buffer,
                    slot,
                    index,
                    values,
                });
            }
        }
        None
    }

    /// Whether a slot is valid by the bitmap in the buffer with this index, which may be empty.
    fn is_valid(self, buffer: usize, slot: u32) -> bool {
        match self.run(buffer) {
            None | Some(Run { count: 0, .. }) => true,
            Some(run) => {
                let byte = self.body.get(run.start.saturating_add(slot as usize / 8));
                byte.is_some_and(|byte| *byte >> (slot % 8) & 1 == 1)
            }
        }
    }
}

/// Whether a body has bytes from one offset up to another, and they are not UTF-8.
fn is_bad_text(body: &[u8], start: usize, end: usize) -> bool
    ensures { result ≡ true → IsBadText body.now start end }
{
    match body.get(start..end) {
        Some(text) => str::from_utf8(text).is_err(),
        None => false,
    }
}

/// Whether a buffer lies inside a body. The offset of an empty buffer does not matter.
fn is_held(body: &[u8], place: Buffer) -> bool
    ensures { result ≡ false → IsHeld body.now place → ⊥ }
{
    let Ok(length) = u64::try_from(place.length) else {
        return false;
    };
    if length == 0 {
        return true;
    }
    match u64::try_from(place.offset) {
        Ok(offset) => offset + length <= body.len() as u64,
        Err(_) => false,
    }
}

/// Whether a number of this many bytes, given as an unsigned number, is negative.
fn is_negative(number: u64, width: usize) -> bool
    ensures { result ≡ true → half_of width ≤ number }
{
    match width {
        1 => 128 <= number,
        2 => 32_768 <= number,
        4 => 2_147_483_648 <= number,
        // a number of eight bytes
        _ => 9_223_372_036_854_775_808 <= number,
    }
}
