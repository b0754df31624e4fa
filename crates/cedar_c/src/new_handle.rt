//! Where a new handle is put.
ghost use Rattle.std.specs.Prelude.{◌≡◌, Option, Some};
ghost use Rattle.cedar_auth.specs.ReadyCode.{ready_codes};
ghost use Rattle.cedar_c.specs.declared.slot.Slot.{Slot};
ghost use Rattle.cedar_c.specs.Handles.{may_own};

use crate::slot::Slot;
use base_loose::Loose;
use std::alloc::Global;
use std::marker::Model;

/// Where C has a new handle put. To C it is the struct of one pointer that [`Handle`](crate::handle::Handle) is, and once a slot is
/// there it owns what a handle owns. Before that it owns nothing, whatever its address is.
#[repr(C)]
#[derive(Drop)]
pub struct NewHandle {
    at: *mut u8,
    alloc: Global,
    /// The slot at the address, if there is one.
    pub ghost value: { Option Slot } by { Prim.hlevel ready_codes },
}

impl Model for NewHandle {
    ghost also_owns = { λ h. may_own h.alloc h.at h.value };
}

impl NewHandle {
    /// The address of a slot, which it then owns.
    pub(crate) fn of(loose: Loose<Slot, Global>) -> NewHandle
        ensures { result.value ≡ Some loose.value }
    {
        let Loose { at, alloc } = loose;
        NewHandle {
            at: at as *mut u8,
            alloc,
        }
    }
}
