//! Frames of columns without dictionaries: schemas, and batches of each.

/// The batch of 1, a null and 3, in a body that is declared to be compressed.
pub(crate) const COMPRESSED: &[u8; 192] = b"\xff\xff\xff\xff\xa0\0\0\0\x10\0\0\0\x0c\0\x18\0\x04\0\
    \x06\0\x08\0\x10\0\x0c\0\0\0\x04\0\x03\0\x20\0\0\0\0\0\0\0\x18\0\0\0\0\0\0\0\x0c\0\x1c\0\x08\0\
    \x10\0\x14\0\x18\0\0\0\0\0\x10\0\0\0\0\0\0\0\x03\0\0\0\0\0\0\0\x0c\0\0\0\x20\0\0\0H\0\0\0\x01\
    \0\0\0\x03\0\0\0\0\0\0\0\x01\0\0\0\0\0\0\0\0\0\0\0\x02\0\0\0\0\0\0\0\0\0\0\0\x01\0\0\0\0\0\0\0\
    \x08\0\0\0\0\0\0\0\x0c\0\0\0\0\0\0\0\x08\0\x06\0\x04\0\x05\0\x08\0\0\0\0\0\0\0\x05\0\0\0\0\0\0\
    \0\x01\0\0\0\0\0\0\0\x03\0\0\0\0\0\0\0";
