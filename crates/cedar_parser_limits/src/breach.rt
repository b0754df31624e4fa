//! Why a part of a statement is refused.
use crate::side_condition::SideCondition;
use std::alloc::AllocError;

/// Why a part of a statement is refused.
#[derive(Clone, Copy)]
pub enum Breach {
    /// Out of memory. It says nothing about the part.
    OutOfMemory,
    /// The part breaks this side condition, at a place in bytes from 0.
    Of(SideCondition, usize),
}

impl From<AllocError> for Breach {
    ghost use Rattle.std.specs.Prelude.{◌≡◌};
    ghost use Rattle.cedar_parser_limits.specs.declared.breach.Breach.TheVariants.{OutOfMemory};

    ghost from_gives = { λ _ breach. breach ≡ OutOfMemory };

    fn from(_error: AllocError) -> Self {
        Breach::OutOfMemory
    }
}
