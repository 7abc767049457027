//! The slots of an array as they are in the buffers of a node: counted, or written.
//!
//! A node has a few buffers, each for one thing that its slots have (`part`: Columnar Format, "Buffer
//! Listing for Each Layout"). Consecutive slots of an array (`slice`) are counted (`ByteTally`): how
//! many there are, how many of them are null, how far their offsets advance. Or they are added to one
//! of the buffers, which grows from its first byte to its last (`Writing`). Which slots are sent to a
//! node, `arrow_body_writer` decides.
//!
//! Numbers that have a validity bitmap are copied including the bytes under nulls, which are cleared
//! in the copy (`masked`). Offsets and the bytes between them are copied if nothing lies under a null
//! (`offsets`), and each offset is increased by the length that the buffer already had (`spans`).
//! For all other slots no byte is copied that was under a null.
//!
//! | Notion | Definition |
//! |---|---|
//! | consecutive slots | `specs/Slice.antt`: `IsSlice`, `values_in` |
//! | slots that are counted | `specs/Tally.antt`: `IsTally`, `Counts` |
//! | a buffer under construction | `specs/Part.antt`: `IsWritten`; `specs/Packing.antt`; `specs/Runs.antt` |
//! | offsets, bitmaps as arrays store them | `specs/Offsets.antt`: `AreHeld`; `specs/Marks.antt`: `AreMarked` |
//!
//! Proofs: `Ranges` of slots one by one, `Counting` of counts, `OneMore` of one more slot in a buffer,
//! `Running`, `Shown` of slots without a null, `Packs`, `Bytewise`, `Marking`, `Masking` of bitmaps,
//! `Numbering` of numbers, `Holding`, `Moving`, `Spanning` of offsets.
#![tactic(auto)]

mod bitmap;
mod masked;
mod offsets;
mod packing;
mod part;
mod pieces;
mod slice;
mod slots;
mod spans;
mod tally;
mod writing;

pub use bitmap::bitmap_above;
pub use packing::BitRange;
pub use part::{BufferKind, part_of};
pub use slice::{ColumnSlice, all_slots, is_full};
pub use slots::{full_form, items};
pub use tally::{ByteTally, counted};
pub use writing::Writing;
