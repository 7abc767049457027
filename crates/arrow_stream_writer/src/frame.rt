//! The head of a frame, appended to bytes.

ghost use Rattle.std.specs.Prelude.{◌≡◌, ◌≤◌, ◌-◌, ◌++◌, IsSome, OnOk, OnErr};
ghost use Rattle.std.specs.Prelude.{length, replicate, take};
ghost use Rattle.arrow_body_writer.specs.Align.{alignment_of};
ghost use Rattle.arrow_stream_laws.specs.Frames.{prefix_bytes};
ghost use Rattle.arrow_stream_writer.specs.Frame.{AppendsHead};
ghost use Rattle.arrow_meta_reader.specs.Means.{message_view};
ghost use Rattle.arrow_meta_writer.specs.Metadata.{size_of};

use arrow_bits::put_zeros;
use arrow_body_writer::Align;
use arrow_meta_reader::Message;
use arrow_meta_writer::encode_in;
use arrow_stream_reader::CONTINUATION;
use std::alloc::AllocError;
use std::mem;

/// The eight bytes before metadata of this many bytes (Columnar Format, "Encapsulated message
/// format").
pub(crate) fn prefix_of(size: u32) -> [u8; 8]
    ensures { result ≡ prefix_bytes size }
{
    let first = CONTINUATION.to_le_bytes();
    let then = size.to_le_bytes();
    [
        first[0], first[1], first[2], first[3], then[0], then[1], then[2], then[3],
    ]
}

/// Appends the head of a message's frame, all of it but the body: followed by any body of the
/// length that the message gives, it is the frame of the message with this body. The metadata are
/// laid out in a scratch buffer, whose capacity is kept.
pub(crate) fn put_head(
    out: &mut Vec<u8>,
    room: &mut Vec<u8>,
    align: Align,
    message: &Message,
) -> Result<(), AllocError>
    requires sendable { IsSome (size_of (message_view message.now)) }
    ensures ok { OnOk result (AppendsHead (alignment_of align) (message_view message.now)
        out.old.items out.new.items) }
    ensures err { OnErr result (out.new.items ≡ out.old.items) }
    ensures kept { take (length out.old.items) out.new.items ≡ out.old.items }
{
    let empty = Vec::new(*out.allocator());
    let metadata = encode_in(mem::replace(room, empty), message)?;
    let size = align.round_up(8 + metadata.len() as u64) - 8;
    let before = out.len();
    let answer = put_metadata(out, size as usize, &metadata);
    *room = metadata;
    match answer {
        Ok(()) => Ok(()),
        Err(fault) => {
            out.truncate(before);
            Err(fault)
        }
    }
}

/// Appends the prefix of metadata of this size, the metadata, and zero bytes up to the size. The
/// bytes from before come first, also if an allocation failed.
fn put_metadata(out: &mut Vec<u8>, size: usize, metadata: &[u8]) -> Result<(), AllocError>
    requires { size ≤ 2147483648 }
    ensures ok { OnOk result (out.new.items
        ≡ ((out.old.items ++ prefix_bytes size) ++ metadata.now)
        ++ replicate (size - length metadata.now) 0) }
    ensures kept { take (length out.old.items) out.new.items ≡ out.old.items }
{
    out.extend_from_slice(&prefix_of(size as u32))?;
    out.extend_from_slice(metadata)?;
    put_zeros(out, size.saturating_sub(metadata.len()))
}
