//! Properties that no clause states: that the definitions express what the format means, and that
//! calls succeed.

mod fields;
mod pairs;
mod types;
