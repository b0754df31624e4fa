//! Why the loop over request lines stops early.
ghost use Rattle.std.specs.Prelude.{◌≡◌};
ghost use Rattle.base_lines.specs.Faults.{serve_number};

use crate::sink::WriteFailed;
use crate::source::ReadFailed;
use std::alloc::AllocError;
use thiserror::Error;

/// Why serving stopped before the end of the input.
#[derive(Clone, Copy, Debug, PartialEq, Eq, Error)]
pub enum ServeFault {
    /// 1: out of memory.
    #[error("out of memory")]
    OutOfMemory,
    /// 2: the source failed.
    #[error("a read failed")]
    ReadFailed,
    /// 3: the sink failed.
    #[error("a write failed")]
    WriteFailed,
}

impl ServeFault {
    /// The refusal's number: 1 to 3.
    pub fn number(self) -> u16
        ensures { result ≡ serve_number self }
    {
        match self {
            ServeFault::OutOfMemory => 1,
            ServeFault::ReadFailed => 2,
            ServeFault::WriteFailed => 3,
        }
    }
}

impl From<AllocError> for ServeFault {
    ghost use Rattle.base_lines.specs.declared.serve_fault.ServeFault.TheVariants.{OutOfMemory};

    ghost from_gives = { λ _ e. e ≡ OutOfMemory };

    fn from(_error: AllocError) -> ServeFault {
        ServeFault::OutOfMemory
    }
}

impl From<ReadFailed> for ServeFault {
    ghost use Rattle.base_lines.specs.declared.serve_fault.ServeFault.TheVariants.{ReadFailed};

    ghost from_gives = { λ _ e. e ≡ ReadFailed };

    fn from(_error: ReadFailed) -> ServeFault {
        ServeFault::ReadFailed
    }
}

impl From<WriteFailed> for ServeFault {
    ghost use Rattle.base_lines.specs.declared.serve_fault.ServeFault.TheVariants.{WriteFailed};

    ghost from_gives = { λ _ e. e ≡ WriteFailed };

    fn from(_error: WriteFailed) -> ServeFault {
        ServeFault::WriteFailed
    }
}
