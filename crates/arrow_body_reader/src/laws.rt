//! Laws of only the definitions.

ghost use Rattle.arrow_body_reader.specs.Inside.{OneReading};

/// A valid body has one reading: a column for each field, of its type and encoding, with as many
/// raw values as its node has slots; on every level all bits, bytes, ranges and slots that a slot
/// refers to lie inside its node's buffers and children, and the buffers inside the body; and each
/// raw value resolves to a value: every index has its value in the dictionary that is listed for
/// its id. (There is obviously one list of columns: it is a function.)
pub fn one_reading()
    ensures { OneReading }
{}
