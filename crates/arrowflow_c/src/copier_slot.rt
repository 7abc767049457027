//! The address of a copier or of nothing, for C.

ghost use Rattle.std.specs.Prelude.{◌≡◌, IsTrue, None, Option, Some, is_some};
ghost use Rattle.std.specs.Coded.{coded_option};
ghost use Rattle.arrowflow_calls.specs.contracts.pieces.Copying.{the_row as held_row};
ghost use Rattle.arrowflow_calls.specs.declared.pieces.Copying.{Copying as Held};

use crate::raw_box::RawBox;
use arrowflow_calls::Copying;
use std::alloc::Global;
use std::marker::Model;
use std::ptr::null_mut;

/// The address of a copier, or of nothing. If it is dropped, the copier stays where it is.
#[repr(C)]
#[derive(Drop)]
pub struct CopierSlot {
    at: *mut u8,
    pub ghost value: { Option Held } by { coded_option held_row.coded },
}

impl Model for CopierSlot {
    ghost use Rattle.arrowflow_c.specs.Owned.{owned_copier};

    ghost also_owns = { λ s. owned_copier s.at s.value };
}

impl CopierSlot {
    /// The address of nothing.
    pub(crate) fn empty() -> CopierSlot
        ensures { result.value ≡ None }
    {
        CopierSlot { at: null_mut() }
    }

    /// The address of a copier.
    pub(crate) fn of(loose: RawBox<Copying, Global>) -> CopierSlot
        ensures { result.value ≡ Some loose.value }
    {
        let RawBox { at, alloc: _ } = loose;
        CopierSlot { at: at as *mut u8 }
    }

    /// The copier at the address.
    pub(crate) fn into_loose(self, alloc: Global) -> RawBox<Copying, Global>
        requires { IsTrue (is_some self.value) }
        ensures { self.value ≡ Some result.value }
    {
        let CopierSlot { at } = self;
        RawBox {
            at: at as *mut Copying,
            alloc,
        }
    }
}
