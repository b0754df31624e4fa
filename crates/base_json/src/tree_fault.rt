//! The errors of building a tree from tokens.
use std::alloc::{AllocError, AllocFailed};
use thiserror::Error;

/// Why tokens make no tree.
#[derive(Clone, Copy, Debug, PartialEq, Eq, Error)]
pub enum TreeFault {
    /// Out of memory.
    #[error("out of memory")]
    OutOfMemory,
    /// They are not a JSON text, or nest deeper than 127, or a number is beyond a float's range.
    #[error("not a JSON text")]
    Invalid,
}

impl From<AllocError> for TreeFault {
    ghost use Rattle.std.specs.Prelude.{◌≡◌};
    ghost use Rattle.base_json.specs.declared.tree_fault.TreeFault.TheVariants.{OutOfMemory};

    ghost from_gives = { λ _ e. e ≡ OutOfMemory };

    fn from(_refused: AllocError) -> TreeFault {
        TreeFault::OutOfMemory
    }
}

impl<T: Drop> From<AllocFailed<T>> for TreeFault {
    ghost use Rattle.std.specs.Prelude.{◌≡◌};
    ghost use Rattle.base_json.specs.declared.tree_fault.TreeFault.TheVariants.{OutOfMemory};

    ghost from_gives = { λ _ e. e ≡ OutOfMemory };

    fn from(_refused: AllocFailed<T>) -> TreeFault {
        TreeFault::OutOfMemory
    }
}

impl From<json::Invalid> for TreeFault {
    ghost use Rattle.std.specs.Prelude.{◌≡◌};
    ghost use Rattle.base_json.specs.declared.tree_fault.TreeFault.TheVariants.{Invalid};

    ghost from_gives = { λ _ e. e ≡ Invalid };

    fn from(_invalid: json::Invalid) -> TreeFault {
        TreeFault::Invalid
    }
}
