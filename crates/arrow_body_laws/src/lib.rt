//! The bodies that a writer sends, as definitions (Columnar Format, "RecordBatch message").
//!
//! `specs/Stored.antt` defines the field nodes, buffers and bytes of raw values, on each level;
//! `specs/Size.antt` the number of bytes.
//!
//! | Notion | Definition |
//! |---|---|
//! | bits, numbers, offsets as bytes | `specs/Packed.antt`: `packed`, `ints_bytes`, `offsets_bytes` |
//! | raw values of a node, and below it | `specs/Raws.antt`: `AreRaws`, `raws_below`, `AreSmall` |
//! | the body that is sent | `specs/Stored.antt`: `stored` |
//! | its size | `specs/Size.antt`: `size_of` |
//! | nothing that no value needs | `specs/Canonical.antt`: `IsCanonical` |
//! | indices with their entries | `specs/Entries.antt`: `HaveEntries` |
//! | types with their fields | `specs/Formed.antt`: `AreFormed` |
//! | the laws | `specs/Laws.antt`: `StoredIsRead`, `StoredIsCanonical`, `OneBody` .. |
//!
//! Among the proofs, `Walk` and `Readback` read a stored body back, `Layouts`, `Soundness`,
//! `Snapshot` and `Indexed` show that it is valid, `Whole` joins them, and `MadeCanonical` shows that it
//! is canonical. From a canonical body back to its values go `Packings`, `Joined`, `Reslotted` and
//! `Reranged` for buffers, `Kept` for one node, `Reordered` and `Single` for all.
#![tactic(auto)]

pub mod laws;
