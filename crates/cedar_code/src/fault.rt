//! Why an expression has no code.
ghost use Rattle.std.specs.Prelude.{◌≡◌};
ghost use Rattle.cedar_code.specs.CodeFault.{number_of};

use std::alloc::AllocError;
use thiserror::Error;

/// Why an expression has no code.
#[derive(Clone, Copy, Debug, PartialEq, Eq, Error)]
pub enum CodeFault {
    /// 1: out of memory.
    #[error("out of memory")]
    OutOfMemory,
    /// 701: the code would have over 1,000,000 instructions.
    #[error("the code is too long")]
    TooLong,
}

impl CodeFault {
    /// The refusal's number.
    pub fn number(self) -> u16
        ensures { result ≡ number_of self }
    {
        match self {
            CodeFault::OutOfMemory => 1,
            CodeFault::TooLong => 701,
        }
    }
}

impl From<AllocError> for CodeFault {
    ghost use Rattle.std.specs.Prelude.{◌≡◌};
    ghost use Rattle.cedar_code.specs.declared.fault.CodeFault.TheVariants.{OutOfMemory};

    ghost from_gives = { λ _ fault. fault ≡ OutOfMemory };

    fn from(_error: AllocError) -> Self {
        CodeFault::OutOfMemory
    }
}
