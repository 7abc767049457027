//! Laws about the output for a stream that is printed, reported or copied.

pub use arrowflow_copy::laws::{copies_are_equal, copy_of_front};
pub use arrowflow_json::laws::{columns_read_back, ends_read_back, message_reads_back};
pub use arrowflow_text::laws::{text_grows, text_of_front};
