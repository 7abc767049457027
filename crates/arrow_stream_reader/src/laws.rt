//! Laws of the definitions, which are not about code. Each is the contract of a function that does
//! nothing.

ghost use Rattle.arrow_stream_reader.specs.Laws.{LessWaits, MoreBytes, NoneWithoutFront};
ghost use Rattle.arrow_stream_reader.specs.Laws.{OneFront, SameSnapshot};

/// A list of bytes has at most one `Front`.
pub fn one_front()
    ensures single { OneFront }
{}

/// No list of bytes is without a `Front`: a statement about each `Front` of some bytes is about one
/// that exists, and about no other.
pub fn a_front()
    ensures some { NoneWithoutFront }
{}

/// A list of bytes has one `Front`, and the items of a longer list begin with those of a shorter
/// one; if the shorter one has ended, by an error or by its end marker, so has the longer one, at
/// the same offset.
pub fn front_grows()
    ensures single { OneFront }
    ensures grows { MoreBytes }
{}

/// Two readers at the same bytes show the same, in whatever pieces the bytes came.
pub fn same_snapshot()
    ensures same { SameSnapshot }
{}

/// Less than a complete message waits for more bytes: no part of it is checked, applied or
/// delivered before.
pub fn less_waits()
    ensures waits { LessWaits }
{}
