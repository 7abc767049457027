//! The library for C and for languages that call C: streams in memory are checked, written again
//! and printed, and streams that come in pieces have readers and copiers.
//!
//! An export takes bytes by a pointer and a length, and numbers and plain structs by value. It
//! returns a plain struct, and puts texts into the caller's output buffer: nothing that it gives
//! has to be freed. Only readers and copiers are kept between calls, in handles; the buffers of a
//! reader's batch are returned by address. Each export makes one call of the crates below, and its
//! contract restates that call's promise for the bytes that it was given. What a caller must ensure
//! is described in the header `c/proved.h`.
//!
//! | Notion | Definition |
//! |---|---|
//! | what a call does and returns | the table of `arrowflow_calls` |
//! | the value of a cell | `specs/Cells.antt`: `CellIf` |
//! | a column as its buffers | `specs/Columns.antt`: `ColumnIf` |
//! | what a handle owns, and lends | `specs/Owned.antt`, `specs/Lending.antt` |
#![tactic(auto)]

mod cells;
mod checking;
mod columns;
mod copier;
mod copier_handle;
mod copier_slot;
mod copying;
mod handle;
mod raw_box;
mod reader;
mod showing;
mod slot;

pub use cells::CellC;
pub use columns::ColumnC;
pub use copier_handle::CopierC;
pub use copier_slot::CopierSlot;
pub use handle::ReaderC;
pub use slot::Slot;
