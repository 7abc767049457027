//! Streams in memory, printed as text.

ghost use Rattle.arrowflow_calls.specs.Terms.{numbers};
ghost use Rattle.arrowflow_calls.specs.Texts.{Gives, IsSchemaReported, IsShown, IsReported};

use arrow_sink::Counted;
use arrowflow_calls::{BAD_LIMITS, LimitsC, TextC};
use arrowflow_text::{check, schema_text, show};
use std::alloc::Global;

/// The rows of a stream as records of comma-separated values, as `arrowflow show` prints them.
#[unsafe(no_mangle)]
pub extern "C" fn arrowflow_show(
    alloc: Global,
    bytes: &[u8],
    limits: LimitsC,
    room: &mut [u8],
) -> TextC
    ensures shown { Gives limits (IsShown (numbers limits) bytes.now)
        room.old result room.new }
{
    let Some(limits) = limits.limits() else {
        return TextC::bare(BAD_LIMITS);
    };
    let mut input = bytes;
    let output = Counted::new(Vec::new(alloc));
    let (output, answer) = show(alloc, &mut input, output, &limits);
    TextC::given(&answer, &output.into_inner(), room)
}

/// A line for each message of a stream, as `arrowflow check` prints them.
#[unsafe(no_mangle)]
pub extern "C" fn arrowflow_messages(
    alloc: Global,
    bytes: &[u8],
    limits: LimitsC,
    room: &mut [u8],
) -> TextC
    ensures stated { Gives limits (IsReported (numbers limits) bytes.now)
        room.old result room.new }
{
    let Some(limits) = limits.limits() else {
        return TextC::bare(BAD_LIMITS);
    };
    let mut input = bytes;
    let output = Counted::new(Vec::new(alloc));
    let (output, answer) = check(alloc, &mut input, output, &limits);
    TextC::given(&answer, &output.into_inner(), room)
}

/// The schema of a stream, one line for each field, as `arrowflow schema` prints it.
#[unsafe(no_mangle)]
pub extern "C" fn arrowflow_schema(
    alloc: Global,
    bytes: &[u8],
    limits: LimitsC,
    room: &mut [u8],
) -> TextC
    ensures stated { Gives limits (IsSchemaReported (numbers limits) bytes.now)
        room.old result room.new }
{
    let Some(limits) = limits.limits() else {
        return TextC::bare(BAD_LIMITS);
    };
    let mut input = bytes;
    match schema_text(alloc, &mut input, &limits) {
        Ok(text) => TextC::given(&Ok(()), text.as_bytes(), room),
        Err(fault) => TextC::given(&Err(fault), &[], room),
    }
}
