//! Handles of copiers, for C.

ghost use Rattle.std.specs.Prelude.{◌≡◌, None, Some, is_some, option_map};

use crate::copier_slot::CopierSlot;
use crate::raw_box::RawBox;
use arrowflow_calls::Copying;
use std::alloc::Global;

/// A handle, with a copier or without one.
#[repr(C)]
#[derive(Drop)]
pub struct CopierC {
    pub(crate) slot: CopierSlot,
    live: bool,
    ghost stated: { live ≡ is_some slot.value },
}

impl CopierC {
    /// A handle without a copier.
    pub(crate) fn none() -> CopierC
        ensures { result.slot.value ≡ None }
    {
        CopierC {
            slot: CopierSlot::empty(),
            live: false,
        }
    }

    /// A handle of a copier.
    pub(crate) fn of(copying: Box<Copying>) -> CopierC
        ensures { result.slot.value ≡ Some copying.value }
    {
        CopierC {
            slot: CopierSlot::of(RawBox::of(copying)),
            live: true,
        }
    }

    /// The copier.
    pub(crate) fn into_box(self, alloc: Global) -> Option<Box<Copying>>
        ensures { option_map (λ b. b.value) result ≡ self.slot.value }
    {
        let CopierC { slot, live } = self;
        if live {
            Some(slot.into_loose(alloc).into_box())
        } else {
            None
        }
    }
}
