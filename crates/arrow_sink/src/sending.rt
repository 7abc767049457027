//! Sending all of a piece.

ghost use Rattle.std.specs.Prelude.{◌≡◌, ◌<◌, ◌+◌, ◌-◌, ◌^◌, [], IsOk, OnErr, OnOk};
ghost use Rattle.std.specs.Io.KnownBytes.{Appends};
ghost use Rattle.arrow_sink.specs.Sinks.{AcceptsBeginning};

use crate::sink::{Sink, SinkFault};

/// Sends all bytes, offering again those that the sink did not take.
///
/// After `Ok` the sink accepted them all, and no call failed. After an error one call failed, the
/// last one, and the sink accepted a beginning of the bytes. Without bytes no call is made: the
/// result is `Ok`, and the sink is as it was.
pub fn send<S: Sink>(sink: &mut S, bytes: &[u8]) -> Result<(), SinkFault>
    requires { S.failed sink.old < 2 ^ 64 - 1 }
    ensures all { OnOk result (Appends (S.contents sink.old) (S.contents sink.new) bytes.now) }
    ensures fine { OnOk result (S.failed sink.new ≡ S.failed sink.old) }
    ensures beginning { OnErr result
        (AcceptsBeginning (S.contents sink.old) (S.contents sink.new) bytes.now) }
    ensures failed { OnErr result (S.failed sink.new ≡ S.failed sink.old + 1) }
    ensures none { bytes.now ≡ [] → IsOk result × (sink.new ≡ sink.old) }
{
    let mut sent = 0;
    while sent < bytes.len() {
        let taken = sink.put(&bytes[sent..])?;
        if taken == 0 {
            return Err(SinkFault);
        }
        sent += taken;
    }
    Ok(())
}
