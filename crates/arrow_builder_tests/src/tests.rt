//! Columns that are built value by value, compared with expected results that are written out.

mod arrays;
mod building;
mod decimals;
mod greatest;
mod lengths;
mod limits;
mod noted;
mod pushes;
mod reported;
mod sized;
mod sums;
mod values;
