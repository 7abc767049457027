//! Laws of the definitions, without code. Each is the contract of a function that does nothing.
//! Those that state what a reader has of some bytes also state that the complete messages of bytes
//! are unique, so that there is nothing else to have of them.

ghost use Rattle.arrow_stream_reader.specs.Laws.{OneFront};
ghost use Rattle.arrow_stream_laws.specs.Laws.{DeliveredBeginning, FramesAreAligned};
ghost use Rattle.arrow_stream_laws.specs.Laws.{FramesOfABeginning, TextIsAStream};
ghost use Rattle.arrow_stream_laws.specs.Sent.{OneText};
ghost use Rattle.arrow_stream_laws.specs.Snapshot.{BrokenIsDelivered, EndIsDelivered, MarkerBroken};
ghost use Rattle.arrow_stream_laws.specs.Snapshot.{MarkerSent, PartBroken, PartSent, SchemaSent};
ghost use Rattle.arrow_stream_laws.specs.Snapshot.{SentIsAStream, StartIsDelivered};

/// The frames of a prefix of a stream are the first frames of the stream and no others.
pub fn frames_of_a_beginning()
    ensures single { OneFront }
    ensures begins { FramesOfABeginning }
{}

/// The bytes of a connection are a stream of the rows of its batches, and its last dictionaries are
/// those that were sent for these.
pub fn text_is_a_stream()
    ensures stream { TextIsAStream }
{}

/// All bytes that are sent are a function of the schema, of the options and of what the batches hold:
/// of the raw values of their columns, their rows and the dictionaries that the columns refer to.
pub fn one_text()
    ensures { OneText }
{}

/// The first bytes of a connection, however many, are never rejected: a reader has the rows of
/// exactly the batches whose last byte is among them, and the dictionaries after the frames that
/// lie there completely.
pub fn delivered_beginning()
    ensures single { OneFront }
    ensures delivered { DeliveredBeginning }
{}

/// The size of each frame of a connection is a multiple of the alignment, so that each frame begins
/// at such a multiple, and with `IsCanonical` each buffer does too.
pub fn frames_are_aligned()
    ensures aligned { FramesAreAligned }
{}

/// The state of a writer after its calls, by what its sink accepted: the schema is sent, one more
/// part and one more batch are sent, the writer is finished, or it is broken and a prefix of the
/// parts is sent.
pub fn calls_keep_position()
    ensures schema { SchemaSent }
    ensures part { PartSent }
    ensures broken { PartBroken }
    ensures marker { MarkerSent }
    ensures broken_at_end { MarkerBroken }
{}

/// What a sink accepted from a writer, if the sink reports it, is a stream of the rows of the
/// batches that were accepted. If the sink failed, in the schema's frame, in the messages of a
/// batch or in the end marker, it is a prefix of the bytes of such a connection, and a reader has
/// of it the rows of exactly the batches that came completely.
pub fn sent_is_a_stream()
    ensures stream { SentIsAStream }
    ensures broken_at_start { StartIsDelivered }
    ensures broken { BrokenIsDelivered }
    ensures broken_at_end { EndIsDelivered }
{}
