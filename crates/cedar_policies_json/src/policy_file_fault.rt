//! Why the JSON of policies is refused.
use cedar_parser_tokens::ParseFault;
use std::alloc::{AllocError, AllocFailed};
use thiserror::Error;

/// Why bytes write no policies.
#[derive(Clone, Copy, PartialEq, Eq, Debug, Error)]
pub enum PolicyFileFault {
    /// 1: out of memory. It says nothing about the bytes.
    #[error("out of memory")]
    OutOfMemory,
    /// 213: the bytes are not UTF-8, or not JSON, or nest deeper than 127 (RFC 8259).
    #[error("no JSON")]
    Json,
    /// 203: an object has a key twice.
    #[error("a key is repeated")]
    RepeatedKey,
    /// 214: a key that is not known or that is missing, a value of a wrong kind, a string that is not a name where one has to be, a
    /// policy with a slot, or a template without one.
    #[error("not of the shape of policies")]
    Shape,
    /// 103, 104, 202 to 209: the fault of a statement, as one of a policy text has it, with the statement's position from 0. Policies
    /// come before templates, each in the order of their ids. The fault's own offset says nothing.
    #[error("statement {0}: {1}")]
    Statement(usize, ParseFault),
}

impl PolicyFileFault {
    ghost use Rattle.std.specs.Prelude.{◌≡◌};
    ghost use Rattle.cedar_policies_json.specs.Numbers.{number_of, position_of};

    /// The refusal's number.
    pub fn number(self) -> u16
        ensures { result ≡ number_of self }
    {
        match self {
            PolicyFileFault::OutOfMemory => 1,
            PolicyFileFault::Json => 213,
            PolicyFileFault::RepeatedKey => 203,
            PolicyFileFault::Shape => 214,
            PolicyFileFault::Statement(_, fault) => fault.number(),
        }
    }

    /// The position, from 0, of the statement that has the fault. Policies come before templates, each in the order of their ids.
    pub fn position(self) -> Option<usize>
        ensures { result ≡ position_of self }
    {
        match self {
            PolicyFileFault::Statement(position, _) => Some(position),
            _ => None,
        }
    }
}

impl From<AllocError> for PolicyFileFault {
    ghost use Rattle.std.specs.Prelude.{◌≡◌};
    ghost use Rattle.cedar_policies_json.specs.declared.policy_file_fault.PolicyFileFault.TheVariants.{OutOfMemory};

    ghost from_gives = { λ _ fault. fault ≡ OutOfMemory };

    fn from(_error: AllocError) -> PolicyFileFault {
        PolicyFileFault::OutOfMemory
    }
}
