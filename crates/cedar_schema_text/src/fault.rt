//! Why a schema text is refused.
use std::alloc::{AllocError, AllocFailed};
use thiserror::Error;

/// Why a text is not a schema in the Cedar schema syntax, with the place of the fault in bytes from 0.
#[derive(Clone, Copy, Debug, PartialEq, Eq, Error)]
pub enum SchemaTextFault {
    /// 1: out of memory. It says nothing about the text.
    #[error("out of memory")]
    OutOfMemory,
    /// 310: the grammar does not allow what is there: no token begins there, the string there is not closed or has a bad escape,
    /// the token there is another than those that may come, or the type there nests deeper than 100 levels.
    #[error("the grammar of schemas does not allow what is at {0}")]
    Syntax(usize),
    /// 311: the name, key or namespace there is declared for the second time.
    #[error("what is at {0} is declared twice")]
    Twice(usize),
}

impl SchemaTextFault {
    ghost use Rattle.std.specs.Prelude.{◌≡◌};
    ghost use Rattle.cedar_schema_text.specs.Faults.{number_of, offset_of};

    /// The number of the refusal, as the program prints it: 1, 310 or 311.
    pub fn number(self) -> u16
        ensures { result ≡ number_of self }
    {
        match self {
            SchemaTextFault::OutOfMemory => 1,
            SchemaTextFault::Syntax(_) => 310,
            SchemaTextFault::Twice(_) => 311,
        }
    }

    /// The place of the fault, in bytes from 0. Out of memory has no place.
    pub fn offset(self) -> Option<usize>
        ensures { result ≡ offset_of self }
    {
        match self {
            SchemaTextFault::OutOfMemory => None,
            SchemaTextFault::Syntax(at) | SchemaTextFault::Twice(at) => Some(at),
        }
    }
}

impl From<AllocError> for SchemaTextFault {
    ghost use Rattle.std.specs.Prelude.{◌≡◌};
    ghost use Rattle.cedar_schema_text.specs.declared.fault.SchemaTextFault.TheVariants.{OutOfMemory};

    ghost from_gives = { λ _ e. e ≡ OutOfMemory };

    fn from(_: AllocError) -> SchemaTextFault {
        SchemaTextFault::OutOfMemory
    }
}

impl<T: Drop> From<AllocFailed<T>> for SchemaTextFault {
    ghost use Rattle.std.specs.Prelude.{◌≡◌};
    ghost use Rattle.cedar_schema_text.specs.declared.fault.SchemaTextFault.TheVariants.{OutOfMemory};

    ghost from_gives = { λ _ e. e ≡ OutOfMemory };

    fn from(_: AllocFailed<T>) -> SchemaTextFault {
        SchemaTextFault::OutOfMemory
    }
}
