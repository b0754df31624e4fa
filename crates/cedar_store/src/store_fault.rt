//! Why entities make no store.
ghost use Rattle.std.specs.Prelude.{◌≡◌};

use cedar_value::Uid;
use std::alloc::{AllocError, AllocFailed};
use std::fmt;
use thiserror::Error;

/// Why a list of entities makes no store.
#[derive(Drop, Error)]
pub enum StoreFault {
    /// 1: out of memory. It says nothing about the entities.
    #[error("out of memory")]
    OutOfMemory,
    /// 401: two entities of the list have this uid.
    #[error("two entities have the uid {}::{:?}", .0.ty.as_str(), .0.id.as_str())]
    DuplicateEntity(Uid),
    /// 402: the entity with this uid is below itself.
    #[error("the entity {}::{:?} is below itself", .0.ty.as_str(), .0.id.as_str())]
    Cycle(Uid),
}

impl StoreFault {
    ghost use Rattle.cedar_store.specs.Faults.{number_of};

    /// The refusal's number.
    pub fn number(&self) -> u16
        ensures { result ≡ number_of self.now }
    {
        match self {
            StoreFault::OutOfMemory => 1,
            StoreFault::DuplicateEntity(_) => 401,
            StoreFault::Cycle(_) => 402,
        }
    }
}

impl fmt::Debug for StoreFault {
    fn fmt<W: fmt::Write>(&self, f: &mut fmt::Formatter<W>) -> fmt::Result {
        write!(f, "{self}")
    }
}

impl From<AllocError> for StoreFault {
    ghost use Rattle.cedar_store.specs.declared.store_fault.StoreFault.TheVariants.{OutOfMemory};

    ghost from_gives = { λ _ fault. fault ≡ OutOfMemory };

    fn from(_error: AllocError) -> StoreFault {
        StoreFault::OutOfMemory
    }
}

impl<T: Drop> From<AllocFailed<T>> for StoreFault {
    ghost use Rattle.cedar_store.specs.declared.store_fault.StoreFault.TheVariants.{OutOfMemory};

    ghost from_gives = { λ _ fault. fault ≡ OutOfMemory };

    fn from(_error: AllocFailed<T>) -> StoreFault {
        StoreFault::OutOfMemory
    }
}
