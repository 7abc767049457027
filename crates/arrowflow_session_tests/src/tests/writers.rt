//! Writers into sinks that keep what they take: how they are started, what their calls return, and
//! their state.

use super::batches::{MEMORY, Rows, batch_of};
use super::reported::push_dictionaries;
use arrow_body_writer::Align;
use arrow_data::Batch;
use arrow_dict::Updates;
use arrow_sink::probe::{Failing, Narrow};
use arrow_sink::{Sink, WriteFault};
use arrow_stream_writer::{Options, StreamWriter};
use arrow_test_streams::parts::{Part, joined};
use arrow_types::{Limits, Schema};
use std::process::Abort;

pub(super) const DELTA: Options = Options {
    updates: Updates::Delta,
    align: Align::Eight,
};

pub(super) const RESEND: Options = Options {
    updates: Updates::Resend,
    align: Align::Eight,
};

pub(super) const DELTA_64: Options = Options {
    updates: Updates::Delta,
    align: Align::SixtyFour,
};

/// The most bytes of metadata, bytes of a body, and rows.
pub(super) type Most = (u64, u64, u64);

/// Limits that no test here passes.
pub(super) const WIDE: Most = (1_000, 1_000, 1_000);

/// The default limits of a reader or a writer.
pub(super) const STANDARD: Most = (67_108_864, 68_719_476_736, 2_147_483_647);

pub(super) fn limits_of(rt: &impl Abort, most: Most) -> Limits {
    Limits::new(most.0, most.1, most.2).expect(rt, "limits")
}

/// Starts a writer of batches of this schema, into a sink that takes all; or returns the fault with
/// which the schema is rejected, and the sink.
pub(super) fn started(
    rt: &(impl Abort + AllocGlobal),
    schema: &Schema,
    options: Options,
    most: Most,
) -> Result<StreamWriter<Narrow>, (WriteFault, Narrow)> {
    let sink = Narrow::new(rt.alloc(), usize::MAX, usize::MAX, Failing::ByError);
    assert!(rt; sink.failures() < u64::MAX);
    StreamWriter::start(rt.alloc(), sink, schema, options, limits_of(rt, most))
}

/// A writer of batches with the schema of this one.
pub(super) fn writer_of(
    rt: &(impl Abort + AllocGlobal),
    batch: &Batch,
    options: Options,
    most: Most,
) -> StreamWriter<Narrow> {
    match started(rt, batch.schema(), options, most) {
        Ok(writer) => writer,
        Err(_) => panic!(rt; "refused schema"),
    }
}

/// Writes a batch, or the end marker if there is none, and returns the fault with which it is
/// rejected, if it is.
pub(super) fn called(
    rt: &impl Abort,
    writer: &mut StreamWriter<Narrow>,
    batch: Option<&Batch>,
) -> Option<WriteFault> {
    assert!(rt; writer.sink().failures() < u64::MAX);
    match batch {
        Some(batch) => writer.write(batch).err(),
        None => writer.finish().err(),
    }
}

/// The dictionaries that were sent, and the fault of the last call, if there is one.
pub(super) fn shown(
    rt: &(impl Abort + AllocGlobal),
    writer: &StreamWriter<Narrow>,
    fault: Option<WriteFault>,
) -> String {
    let mut text = String::new(rt.alloc());
    push_dictionaries(&mut text, writer.sent().entries()).expect(rt, MEMORY);
    if let Some(fault) = fault {
        write!(text, "{fault:?}").expect(rt, MEMORY);
    }
    text
}

/// The state after this batch, which is the first one.
pub(super) fn answer_to(rt: &(impl Abort + AllocGlobal), rows: Rows, most: Most) -> String {
    let batch = batch_of(rt, rows);
    let mut writer = writer_of(rt, &batch, DELTA, most);
    let fault = called(rt, &mut writer, Some(&batch));
    shown(rt, &writer, fault)
}

/// The call that writes this batch, or the end marker if there is none; and after it how many bytes
/// the sink holds, the dictionaries that were sent, and the fault.
pub(super) type Call = (Option<Rows>, &'static str);

/// The call that writes the end marker.
pub(super) const FINISH: Option<Rows> = None;

/// What is sent, as parts of streams; none if it is the copy of a vector, whose bytes are compared
/// there.
pub(super) type Sent = Option<&'static [Part]>;

/// Calls of one writer.
pub(super) struct Calls {
    /// A batch of the writer's schema, the options with which it sends, and its limits.
    pub(super) on: (Rows, Options, Most),
    pub(super) calls: &'static [Call],
    pub(super) sent: Sent,
}

/// Makes the calls of this row, one after another.
fn assert_calls(rt: &(impl Abort + AllocGlobal), row: &Calls, number: usize) {
    let (of, options, most) = row.on;
    let mut writer = writer_of(rt, &batch_of(rt, of), options, most);
    for (rows, wanted) in row.calls {
        let fault = match rows {
            Some(rows) => called(rt, &mut writer, Some(&batch_of(rt, *rows))),
            None => called(rt, &mut writer, None),
        };
        let (len, shown) = (writer.sink().taken().len(), shown(rt, &writer, fault));
        let text = format!(in rt.alloc(); "{len} {shown}").expect(rt, MEMORY);
        assert_eq!(rt; text.as_str().trim_end(), *wanted, "row {number}");
    }
    let last = row.calls.last().map_or("", |(_, wanted)| *wanted);
    assert_sent(rt, writer.sink().taken(), row.sent, last);
}

/// Makes the calls of all rows.
pub(super) fn assert_all(rt: &(impl Abort + AllocGlobal), rows: &[Calls]) {
    for (number, row) in rows.iter().enumerate() {
        assert_calls(rt, row, number);
    }
}

/// These bytes were sent; this text describes the last call.
pub(super) fn assert_sent(
    rt: &(impl Abort + AllocGlobal),
    bytes: &[u8],
    sent: Sent,
    reported: &str,
) {
    if let Some(parts) = sent {
        let wanted = joined(rt.alloc(), parts, &[]).expect(rt, "parts of streams");
        assert!(rt; bytes == wanted.as_slice(), "{reported}");
    }
}
