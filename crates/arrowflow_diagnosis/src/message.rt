//! The parts of a message, from its bytes.

ghost use Rattle.std.specs.Prelude.{◌≡◌, ◌≤◌, ◌+◌, IfSome, Some, drop, length, take};
ghost use Rattle.arrow_stream_reader.specs.Frame.{number_at};
ghost use Rattle.arrowflow_diagnosis.specs.Cut.{body_length};
ghost use Rattle.arrowflow_diagnosis.specs.Places.{message_table, metadata_of};

use crate::places::Spot;
use crate::prefix::number_at;
use arrow_meta_tree::slots;

/// The metadata of a message, if they are complete.
pub fn metadata_of(message: &[u8]) -> Option<&[u8]>
    ensures same { IfSome result (λ metadata. metadata.now ≡ metadata_of message.now) }
    ensures whole { IfSome result (λ _. 8 + number_at message.now 4 ≤ length message.now) }
{
    if message.len() < 8 {
        return None;
    }
    let size = number_at(message, 4) as usize;
    message[8..].get(..size)
}

/// The table of a message, if its metadata are complete and begin with a readable table.
pub fn message_table(message: &[u8]) -> Option<Spot<'_>>
    ensures { IfSome result (λ table. message_table message.now ≡ Some table) }
{
    Spot::at_target(metadata_of(message)?, 0)
}

/// The length of the body that the metadata announce, as an unsigned number.
pub fn body_length(message: &[u8]) -> Option<u64>
    ensures { IfSome result (λ length. body_length message.now ≡ Some length) }
{
    message_table(message)?.number(slots::message::BODY_LENGTH, 8, 0)
}

/// The body of a message, if it is complete.
pub fn body_of(message: &[u8]) -> Option<&[u8]>
    ensures size { IfSome result (λ body. body_length message.now ≡ Some (length body.now)) }
    ensures bytes { IfSome result (λ body. body.now
        ≡ take (length body.now) (drop (8 + number_at message.now 4) message.now)) }
{
    if message.len() < 8 {
        return None;
    }
    let length = usize::try_from(body_length(message)?).ok()?;
    let start = 8 + number_at(message, 4) as usize;
    message.get(start..)?.get(..length)
}
