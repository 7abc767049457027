//! Streams that are written again as their pieces come.

ghost use Rattle.std.specs.Prelude.{◌≡◌, None};
ghost use Rattle.arrowflow_calls.specs.Copied.{EndsCopy, OpensCopier, PutsIf, TakesIf};

use crate::copier_handle::CopierC;
use arrowflow_calls::{BAD_LIMITS, CopiedC, Copying, LimitsC, MEMORY, OptionsC};
use std::alloc::Global;
use std::mem::replace;

/// Makes a copier of a new stream, in place of the one that the handle has. Returns 0; or 19 if an
/// allocation failed, 20 if a limit is above its ceiling or no such types exist; then it is empty.
#[unsafe(no_mangle)]
pub extern "C" fn arrowflow_copier_open(
    alloc: Global,
    limits: LimitsC,
    options: OptionsC,
    copier: &mut CopierC,
) -> u32
    ensures { OpensCopier limits options result copier.new.slot.value }
{
    arrowflow_copier_close(alloc, copier);
    let Some(limits) = limits.limits() else {
        return BAD_LIMITS;
    };
    match Box::new(alloc, Copying::new(alloc, options.options(), limits)) {
        Ok(copying) => {
            *copier = CopierC::of(copying);
            0
        }
        Err(_) => MEMORY,
    }
}

/// Gives the copier the next piece of its stream, all of which it takes, and returns the state of
/// the copy. Once the copy has ended nothing changes.
#[unsafe(no_mangle)]
pub extern "C" fn arrowflow_copier_put(alloc: Global, copier: &mut CopierC, piece: &[u8]) -> CopiedC
    ensures { PutsIf copier.old.slot.value piece.now result copier.new.slot.value }
{
    match replace(copier, CopierC::none()).into_box(alloc) {
        Some(mut copying) => {
            let stated = copying.put(piece);
            *copier = CopierC::of(copying);
            stated
        }
        None => CopiedC::none(),
    }
}

/// Informs the copier that its stream ends here. Once the copy has ended nothing changes.
#[unsafe(no_mangle)]
pub extern "C" fn arrowflow_copier_end(alloc: Global, copier: &mut CopierC) -> CopiedC
    ensures { EndsCopy copier.old.slot.value result copier.new.slot.value }
{
    match replace(copier, CopierC::none()).into_box(alloc) {
        Some(mut copying) => {
            let stated = copying.end();
            *copier = CopierC::of(copying);
            stated
        }
        None => CopiedC::none(),
    }
}

/// Moves the first of the written and waiting bytes into the output buffer, as many as it has space
/// for, and returns how many.
#[unsafe(no_mangle)]
pub extern "C" fn arrowflow_copier_take(
    alloc: Global,
    copier: &mut CopierC,
    room: &mut [u8],
) -> usize
    ensures { TakesIf copier.old.slot.value room.old result copier.new.slot.value room.new }
{
    match replace(copier, CopierC::none()).into_box(alloc) {
        Some(mut copying) => {
            let count = copying.take(room);
            *copier = CopierC::of(copying);
            count
        }
        None => 0,
    }
}

/// Ends the copier, if there is one, and frees what it holds.
#[unsafe(no_mangle)]
pub extern "C" fn arrowflow_copier_close(alloc: Global, copier: &mut CopierC)
    ensures { copier.new.slot.value ≡ None }
{
    let _ = replace(copier, CopierC::none()).into_box(alloc);
}
