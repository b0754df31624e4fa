//! The handle that C keeps.
ghost use Rattle.std.specs.Prelude.{◌≡◌};
ghost use Rattle.std.specs.Borrow.{sem};
ghost use Rattle.cedar_auth.specs.ReadyCode.{ready_codes};
ghost use Rattle.cedar_c.specs.declared.slot.Slot.{Slot};
ghost use Rattle.cedar_c.specs.Handles.{slot_owns};

use crate::slot::Slot;
use base_loose::Loose;
use std::alloc::Global;
use std::marker::Model;

/// The address of a slot, which C keeps and does not look into. The allocator has no bytes, so to C it is a struct of one pointer.
#[repr(C)]
pub struct Handle {
    at: *mut u8,
    alloc: Global,
    /// The slot at the address.
    pub ghost value: { Slot } by { Prim.hlevel ready_codes },
}

impl Model for Handle {
    ghost also_owns = { λ h. slot_owns h.alloc h.at h.value };
}

// The slot may go to another thread, and so may the right to free it: `proofs/handle/Handle/TheSendSync/Send.antt`.
unsafe impl Send for Handle {}

impl Handle {
    ghost use Rattle.cedar_c.specs.Lending.{LendsSlot};

    /// The address of the slot, which it still owns.
    pub(crate) fn into_loose(self) -> Loose<Slot, Global>
        ensures { result.value ≡ self.value }
    {
        let Handle { at, alloc } = self;
        Loose {
            at: at as *mut Slot,
            alloc,
        }
    }

    /// The slot. The handle leads to what is written there.
    pub(crate) fn slot(&mut self) -> &mut Slot
        ensures* writes_back { sem 𝓛 (LendsSlot self.entry result) }
        ensures value { result.now ≡ self.old.value }
    {
        unsafe { &mut *(self.at as *mut Slot) }
    }
}
