//! Why a call of a service is refused.
use cedar_conform_values::ConformFault;
use std::alloc::AllocError;
use std::fmt;
use thiserror::Error;

/// Why a call of a service is refused. Nothing is changed then.
#[derive(Drop, Error)]
pub enum ServiceFault {
    /// 1: out of memory.
    #[error("out of memory")]
    OutOfMemory,
    /// 501 to 506 and 509 to 511: the request line has this fault for the current version's schema.
    #[error("{0}")]
    Line(ConformFault),
    /// 401, 402 and 501 to 509: the changes of entities have this fault at the current version.
    #[error("{0}")]
    Changes(ConformFault),
    /// 801: the number was given to no job, or its job was taken.
    #[error("there is no such job")]
    NoSuchJob,
    /// 802: the job has policies left to run.
    #[error("the job is not finished")]
    NotFinished,
    /// 803: so many jobs were opened, or so many versions published, that no number is left.
    #[error("there are no more numbers")]
    NoMoreNumbers,
}

impl ServiceFault {
    ghost use Rattle.std.specs.Prelude.{◌≡◌};
    ghost use Rattle.cedar_service.specs.Numbers.{number_of};

    /// The refusal's number.
    pub fn number(&self) -> u16
        ensures { result ≡ number_of self.now }
    {
        match self {
            ServiceFault::OutOfMemory => 1,
            ServiceFault::Line(fault) => fault.number(),
            ServiceFault::Changes(fault) => fault.number(),
            ServiceFault::NoSuchJob => 801,
            ServiceFault::NotFinished => 802,
            ServiceFault::NoMoreNumbers => 803,
        }
    }
}

impl fmt::Debug for ServiceFault {
    fn fmt<W: fmt::Write>(&self, f: &mut fmt::Formatter<W>) -> fmt::Result {
        write!(f, "{self}")
    }
}

impl From<AllocError> for ServiceFault {
    ghost use Rattle.std.specs.Prelude.{◌≡◌};
    ghost use Rattle.cedar_service.specs.declared.service_fault.ServiceFault.TheVariants.{OutOfMemory};

    ghost from_gives = { λ _ fault. fault ≡ OutOfMemory };

    fn from(_error: AllocError) -> ServiceFault {
        ServiceFault::OutOfMemory
    }
}

impl From<ConformFault> for ServiceFault {
    ghost use Rattle.std.specs.Prelude.{◌≡◌};
    ghost use Rattle.cedar_conform_values.specs.Numbers.{number_of as line_number};
    ghost use Rattle.cedar_service.specs.Numbers.{number_of};

    ghost from_gives = { λ fault refusal. number_of refusal ≡ line_number fault };

    fn from(fault: ConformFault) -> ServiceFault {
        match fault {
            ConformFault::OutOfMemory => ServiceFault::OutOfMemory,
            fault => ServiceFault::Line(fault),
        }
    }
}
