//! What links lead from and to.
ghost use Rattle.std.specs.Prelude.{◌≡◌, IfOk};
ghost use Rattle.std.specs.declared.cmp.Ordering.TheVariants.{Equal};

use std::alloc::{AllocError, Global};

/// What links lead from and to. Its order ties only what is equal.
pub trait Key: Ord + Drop {
    /// A copy, equal to the original.
    fn try_clone(&self, alloc: Global) -> Result<Self, AllocError>
        ensures { IfOk result (λ key. key ≡ self.now) };

    ghost ties: { (u v : Self) → Self.cmp u v ≡ Equal → u ≡ v };
}
