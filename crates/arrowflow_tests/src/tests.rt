//! What no clause states and no test vector shows: lines and pages, faults that no stream has,
//! limits, how far inputs are read, selected columns, words for types, and numbers of many digits.
//! Everything else that the calls do with streams is compared in `arrow_conformance`.

mod columns;
mod command_line;
mod copying;
mod decimals;
mod drilling;
mod failures;
mod fault_lines;
mod first_rows;
mod help_pages;
mod limits;
mod pieces;
mod reported;
mod session;
mod totals;
