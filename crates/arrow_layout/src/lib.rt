//! Values, and how the slots of a node lie in buffers.
//!
//! Each type has a *form*: which buffers a node of it has, and what a slot of them means. The calls
//! here give the form of a type, test whether buffers hold the slots of a node, and read one slot.
//! Decimals, intervals and floating-point numbers are values of these forms, and convert from and
//! to them. No call needs an array: `arrow_data` makes arrays of these buffers. `SharedBody` and
//! `SharedType` are what its arrays share.
//!
//! To contracts a value is a `PlainValue`, without where it lies, and a buffer is the list of its
//! bytes. Which bytes represent which value is defined by index in `specs/Slots.antt`.
//!
//! | Notion | Definition |
//! |---|---|
//! | a value, without where it lies | `specs/PlainValue.antt`: `PlainValue` |
//! | plain values distinguished | `specs/Stored.antt` |
//! | the plain value of a `Value` | `specs/Value.antt`: `value_view` |
//! | the layout of a type, and of a node | `specs/Form.antt`: `form_of`, `node_form` |
//! | which values a field takes | `specs/Fits.antt`: `Fits` |
//! | the value of an index | `specs/Resolve.antt`: `resolve` |
//! | the bytes of a range of a body | `specs/ByteRanges.antt`: `bytes_of`, `IsInside` |
//! | what buffers hold at a slot | `specs/Slots.antt`: `int_slot`, `range_of` .. |
//! | when buffers hold a node's slots | `specs/Layout.antt`: `IsLaid`, `IsText`, `IsIndexed` |
//! | where the bytes of all texts may be cut | `specs/Cuts.antt`: `AreCuts` |
//! | floating-point numbers | `specs/Floats.antt`: `float_in`; of 16 bits `specs/Half.antt` |
//! | intervals, decimals | `specs/Intervals.antt`: `interval_in`; `specs/Decimals.antt`: `decimal_in` |
//! | the type that columns share | `specs/Shared.antt`: `NodeType`, `node_types` |
//!
//! The crates above also use the proofs `Widths`, `Values` and `Cuts`.
#![tactic(auto)]

mod byte_range;
pub mod decimals;
pub mod floats;
pub mod form;
pub mod half;
pub mod intervals;
pub mod laws;
pub mod layout;
mod node_buffers;
mod offsets;
mod shared_body;
mod shared_type;
pub mod slot;
mod slot_buffers;
mod texts;
mod value;

pub use byte_range::{ByteRange, bytes_in, hold_bytes};
pub use decimals::Decimal;
pub use intervals::Interval;
pub use node_buffers::{MOST_SLOTS, NodeBuffers};
pub use offsets::{ItemPlaces, OffsetBuffer};
pub use shared_body::SharedBody;
pub use shared_type::{SharedType, shared_types};
pub use slot_buffers::{NumberBuffers, StringBuffers};
pub use value::Value;
