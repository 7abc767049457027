//! Laws of columns, and of the values that decimals and intervals are kept as.

pub use arrow_data::laws::{one_child, one_field};
pub use arrow_layout::laws::{
    day_time_comes_back, decimal_comes_back, month_day_nano_comes_back, months_come_back,
    number_comes_back,
};
