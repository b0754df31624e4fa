//! A box as its address: it is taken apart into an address and an allocator, and put together again.
//!
//! ```
//! use base_loose::Loose;
//!
//! let loose = Loose::of(Box::new(alloc, 7u64)?);
//! let boxed = loose.into_box();
//! ```
//!
//! So the address can be handed to code in another language and come back. Contracts see the value at the address.
#![tactic(auto)]

ghost use Rattle.std.specs.Prelude.{◌≡◌};
ghost use Rattle.std.specs.Box.Ownership.{box_owns};

use std::alloc::Allocator;
use std::marker::Model;

/// A box that was taken apart: its address, and what frees it. It still owns what the box owned.
pub struct Loose<T, A: Allocator> {
    /// The address of the value.
    pub at: *mut T,
    /// What frees the memory at the address.
    pub alloc: A,
    /// The value at the address.
    pub ghost value: { T },
}

impl<T, A: Allocator> Model for Loose<T, A> {
    ghost also_owns = { λ l. box_owns (A.dealloc_token l.alloc) T.row l.at l.value };
}

impl<T: Drop, A: Allocator> Loose<T, A> {
    /// Takes a box apart.
    pub fn of(boxed: Box<T, A>) -> Loose<T, A>
        ensures { result.value ≡ boxed.value }
    {
        let (at, alloc) = Box::into_raw_with_allocator(boxed);
        Loose { at, alloc }
    }

    /// Puts the box together again.
    pub fn into_box(self) -> Box<T, A>
        ensures { result.value ≡ self.value }
    {
        let Loose { at, alloc } = self;
        unsafe { Box::from_raw(alloc, at) }
    }
}
