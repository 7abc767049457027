//! Sending batch messages that were built, and the end marker.

ghost use Rattle.std.specs.Prelude.{◌≡◌, ◌<◌, ◌+◌, ◌-◌, ◌^◌, ◌++◌, IfErr, OnErr, OnOk};
ghost use Rattle.std.specs.Io.KnownBytes.{Appends};
ghost use Rattle.arrow_sink.specs.Sinks.{AcceptsBeginning};
ghost use Rattle.arrow_stream_writer.specs.Framing.{part_bytes};
ghost use Rattle.arrow_stream_writer.specs.Marker.{marker};
ghost use Rattle.arrow_sink.specs.declared.write_fault.WriteFault.TheVariants.{Sink};

use crate::frame::prefix_of;
use crate::frames::BatchMessages;
use arrow_dict::Tracker;
use arrow_sink::{Sink, SinkFault, WriteFault, send};

/// Sends two pieces, one after the other.
fn send_pieces<S: Sink>(sink: &mut S, first: &[u8], second: &[u8]) -> Result<(), SinkFault>
    requires { S.failed sink.old < 2 ^ 64 - 1 }
    ensures all { OnOk result
        (Appends (S.contents sink.old) (S.contents sink.new) (first.now ++ second.now)) }
    ensures fine { OnOk result (S.failed sink.new ≡ S.failed sink.old) }
    ensures beginning { OnErr result
        (AcceptsBeginning (S.contents sink.old) (S.contents sink.new) (first.now ++ second.now)) }
    ensures failed { OnErr result (S.failed sink.new ≡ S.failed sink.old + 1) }
{
    send(sink, first)?;
    send(sink, second)
}

/// Sends batch messages. The staged dictionaries become the sent ones only if the sink took all of
/// the messages; otherwise they are dropped, and the fault is `Sink`.
pub(crate) fn send_part<S: Sink>(
    sink: &mut S,
    part: &BatchMessages,
    tracker: &mut Tracker,
) -> Result<(), WriteFault>
    requires { S.failed sink.old < 2 ^ 64 - 1 }
    ensures all { OnOk result (Appends (S.contents sink.old) (S.contents sink.new) (part_bytes part.now)) }
    ensures fine { OnOk result (S.failed sink.new ≡ S.failed sink.old) }
    ensures committed { OnOk result (tracker.new.sent ≡ tracker.old.next) }
    ensures fault { IfErr result (λ fault. fault ≡ Sink) }
    ensures beginning { OnErr result
        (AcceptsBeginning (S.contents sink.old) (S.contents sink.new) (part_bytes part.now)) }
    ensures failed { OnErr result (S.failed sink.new ≡ S.failed sink.old + 1) }
    ensures discarded { OnErr result (tracker.new.sent ≡ tracker.old.sent) }
    ensures none_staged { tracker.new.next ≡ tracker.new.sent }
{
    match send_pieces(sink, &part.bytes, &part.body.bytes) {
        Ok(()) => {
            tracker.commit();
            Ok(())
        }
        Err(_) => {
            tracker.discard();
            Err(WriteFault::Sink)
        }
    }
}

/// Sends the end marker, the prefix of no metadata (Columnar Format, "IPC Streaming Format"), and
/// then flushes the sink once. Allocates nothing.
pub(crate) fn send_end<S: Sink>(sink: &mut S) -> Result<(), WriteFault>
    requires { S.failed sink.old < 2 ^ 64 - 1 }
    ensures all { OnOk result (Appends (S.contents sink.old) (S.contents sink.new) marker) }
    ensures fine { OnOk result (S.failed sink.new ≡ S.failed sink.old) }
    ensures passed { OnOk result (S.is_passed_on sink.new) }
    ensures fault { IfErr result (λ fault. fault ≡ Sink) }
    ensures beginning { OnErr result
        (AcceptsBeginning (S.contents sink.old) (S.contents sink.new) marker) }
    ensures failed { OnErr result (S.failed sink.new ≡ S.failed sink.old + 1) }
{
    send(sink, &prefix_of(0))?;
    sink.flush()?;
    Ok(())
}
