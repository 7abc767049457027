//! `columns` builds the columns for the others.

mod chunks;
mod columns;
mod decimals;
mod dictionaries;
mod intervals;
mod nested;
mod nested_columns;
mod records;
