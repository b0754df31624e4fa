//! Why policies are not accepted.
ghost use Rattle.std.specs.Prelude.{◌≡◌};
ghost use Rattle.cedar_auth.specs.ValidationFaults.{number_of};

use cedar_check::Report;
use std::fmt;
use thiserror::Error;

/// Why policies are not accepted for a schema.
#[derive(Drop, Error)]
pub enum ValidationFault {
    /// 1: out of memory.
    #[error("out of memory")]
    OutOfMemory,
    /// Strict validation finds faults, each of which has its own number, 601 to 607.
    #[error("strict validation finds faults")]
    Faults(Report),
    /// 701: the code of some policy would have over 1,000,000 instructions.
    #[error("the code of a policy is too long")]
    TooLong,
}

impl ValidationFault {
    /// The refusal's number. None for a report, whose faults have their own numbers.
    pub fn number(&self) -> Option<u16>
        ensures { result ≡ number_of self.now }
    {
        match self {
            ValidationFault::OutOfMemory => Some(1),
            ValidationFault::Faults(_) => None,
            ValidationFault::TooLong => Some(701),
        }
    }
}

impl fmt::Debug for ValidationFault {
    fn fmt<W: fmt::Write>(&self, f: &mut fmt::Formatter<W>) -> fmt::Result {
        match self {
            ValidationFault::OutOfMemory => write!(f, "OutOfMemory"),
            ValidationFault::Faults(_) => write!(f, "Faults"),
            ValidationFault::TooLong => write!(f, "TooLong"),
        }
    }
}
