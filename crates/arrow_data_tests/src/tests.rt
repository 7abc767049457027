//! Columns, dictionaries and batches against expected results that are written out.

mod batches;
mod buffers;
mod columns;
mod decimals;
mod dictionaries;
mod floats;
mod forms;
mod full;
mod indices;
mod intervals;
mod making;
mod reported;
mod utf8;
mod values;
