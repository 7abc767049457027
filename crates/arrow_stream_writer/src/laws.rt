//! Laws of the definitions, which belong to no code.

ghost use Rattle.arrow_stream_writer.specs.Sizes.{BatchesSized, DictionariesSized};
ghost use Rattle.arrow_stream_writer.specs.Delivery.{DeliveredWhole};

/// The rows read equal the rows written: of the bytes that a sink with known contents accepted
/// since the start of a writer, a reader with the writer's limits has the rows of just the batches
/// that were accepted, in their order, the dictionaries that were sent, and no bytes left over; it
/// has nothing else of them.
pub fn delivered_whole()
    ensures { DeliveredWhole }
{}

/// The size of the metadata of a record batch, or of a dictionary batch, depends only on its
/// fields: so a writer knows it before it has a body.
pub fn sizes_of_batches()
    ensures batches { BatchesSized }
    ensures dictionaries { DictionariesSized }
{}
