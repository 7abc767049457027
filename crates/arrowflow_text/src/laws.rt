//! Laws of the definitions, which belong to no code. Each is the contract of a function that does
//! nothing.

ghost use Rattle.arrowflow_text.specs.OfFront.{TextOfFront};
ghost use Rattle.arrowflow_text.specs.Shown.{TextGrows};

/// The text of a stream's rows grows message by message: what one more message adds depends on it,
/// on the schema and on how many batches came before, and the text so far is unchanged. So rows may
/// be sent as they come.
#[tactic(auto, using(crate::proofs::Growing::text_grows_law))]
pub fn text_grows()
    ensures grows { TextGrows }
{}

/// What [`show`](crate::show) and [`check`](crate::check) write before `Output` and `Memory` is
/// specified in terms of a prefix of the bytes that they read. It is also a prefix of the text of
/// the complete messages at the start of all of these bytes, and of the line that may follow it.
/// For any bytes these messages exist and are unique (`one_front` and `a_front` of
/// `arrow_stream_reader`).
#[tactic(auto, using(crate::proofs::OfFront::text_of_front))]
pub fn text_of_front()
    ensures begun { TextOfFront }
{}
