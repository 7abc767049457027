//! Streams in memory, checked.

ghost use Rattle.arrowflow_calls.specs.Culprit.{Blames};
ghost use Rattle.arrowflow_calls.specs.Survey.{Checks};

use arrowflow_calls::{CulpritC, LimitsC, ReportC, check_bytes, fault_column};
use std::alloc::Global;

/// Reads a whole stream, and returns what was found.
#[unsafe(no_mangle)]
pub extern "C" fn arrowflow_check(alloc: Global, bytes: &[u8], limits: LimitsC) -> ReportC
    ensures checked { Checks limits bytes.now result }
{
    check_bytes(alloc, bytes, limits)
}

/// Returns which column is at fault in a stream whose fault is in a record batch's body: the first
/// one with which the body is rejected with the stream's kind of fault.
#[unsafe(no_mangle)]
pub extern "C" fn arrowflow_fault_column(alloc: Global, bytes: &[u8], limits: LimitsC) -> CulpritC
    ensures { Blames limits bytes.now result }
{
    fault_column(alloc, bytes, limits)
}
