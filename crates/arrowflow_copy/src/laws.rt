//! Laws of the definitions, which have no code. Each is the contract of a function that does
//! nothing.

ghost use Rattle.arrowflow_copy.specs.Equal.{CopiesAreEqual, CopyIsSent};
ghost use Rattle.arrowflow_copy.specs.OfFront.{BatchOfFront, PartOfFront, SchemaOfFront};

/// The contract of [`copy`](crate::copy) states the bytes written before `Output` and `Memory`, and
/// what is rejected before the input ends, in terms of a prefix of the bytes that were read. It
/// also holds in terms of the complete messages at the start of all of these bytes: the bytes
/// written without end marker are a prefix of a text of the first of their batches, a schema that
/// is rejected is the first of them, and a batch that is rejected is the one of its number. Any
/// bytes have exactly one list of complete messages at their start (`one_front` and `a_front` of
/// `arrow_stream_reader`).
pub fn copy_of_front()
    ensures part { PartOfFront }
    ensures schema { SchemaOfFront }
    ensures batch { BatchOfFront }
{}

/// A copy that ended well wrote exactly the bytes that are sent for the schema and the content of
/// the batches. So two streams with one schema, whose batches hold the same raw values, rows and
/// dictionaries, are copied to equal bytes: whatever else was in their metadata, in gaps, in
/// padding, under nulls or past lengths is gone, and the copy shows nothing of it.
pub fn copies_are_equal()
    ensures sent { CopyIsSent }
    ensures equal { CopiesAreEqual }
{}
