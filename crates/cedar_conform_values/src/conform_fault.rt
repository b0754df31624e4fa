//! Why the JSON of data is refused.
use cedar_value::Uid;
use std::alloc::{AllocError, AllocFailed};
use std::fmt;
use thiserror::Error;

/// Why a JSON gives no value, no entities, no request or no links for a schema.
#[derive(Drop, Error)]
pub enum ConformFault {
    /// 1: out of memory. It says nothing about the JSON.
    #[error("out of memory")]
    OutOfMemory,
    /// 401: two entities have this uid.
    #[error("two entities have the uid {}::{:?}", .0.ty.as_str(), .0.id.as_str())]
    DuplicateEntity(Uid),
    /// 402: the entity with this uid is below itself.
    #[error("the entity {}::{:?} is below itself", .0.ty.as_str(), .0.id.as_str())]
    Cycle(Uid),
    /// 501: the bytes are not UTF-8, or not JSON, or nest deeper than 127 (RFC 8259).
    #[error("no JSON")]
    Json,
    /// 502: a key that is not known or that is missing, a value of a wrong kind, or a JSON that does not write a uid.
    #[error("not of the shape of entities, of a request or of links")]
    Shape,
    /// 503: an entity type that the schema does not declare.
    #[error("an entity type that is not declared")]
    UnknownType,
    /// 504: a value that does not belong to its type.
    #[error("a value of another type")]
    WrongType,
    /// 505: a record without an attribute that is required.
    #[error("an attribute is missing")]
    MissingAttribute,
    /// 506: a record with an attribute that is not declared.
    #[error("an attribute that is not declared")]
    ExtraAttribute,
    /// 507: an entity below one whose type the schema does not allow above it.
    #[error("an ancestor of a type that the entity's type does not descend from")]
    BadAncestor,
    /// 508: an entry of an action that differs from the schema.
    #[error("an action that differs from the schema")]
    ActionDiffers,
    /// 509: a number that is not a whole number of 64 bits.
    #[error("a number out of range")]
    NumberRange,
    /// 510: an action that the schema does not declare.
    #[error("an action that is not declared")]
    NoSuchAction,
    /// 511: an action that does not apply to the types of the principal and the resource.
    #[error("an action that does not apply")]
    ActionDoesNotApply,
}

impl ConformFault {
    ghost use Rattle.std.specs.Prelude.{◌≡◌};
    ghost use Rattle.cedar_conform_values.specs.Numbers.{number_of};

    /// The refusal's number.
    pub fn number(&self) -> u16
        ensures { result ≡ number_of self.now }
    {
        match self {
            ConformFault::OutOfMemory => 1,
            ConformFault::DuplicateEntity(_) => 401,
            ConformFault::Cycle(_) => 402,
            ConformFault::Json => 501,
            ConformFault::Shape => 502,
            ConformFault::UnknownType => 503,
            ConformFault::WrongType => 504,
            ConformFault::MissingAttribute => 505,
            ConformFault::ExtraAttribute => 506,
            ConformFault::BadAncestor => 507,
            ConformFault::ActionDiffers => 508,
            ConformFault::NumberRange => 509,
            ConformFault::NoSuchAction => 510,
            ConformFault::ActionDoesNotApply => 511,
        }
    }
}

impl fmt::Debug for ConformFault {
    fn fmt<W: fmt::Write>(&self, f: &mut fmt::Formatter<W>) -> fmt::Result {
        write!(f, "{self}")
    }
}

impl From<AllocError> for ConformFault {
    ghost use Rattle.std.specs.Prelude.{◌≡◌};
    ghost use Rattle.cedar_conform_values.specs.declared.conform_fault.ConformFault.TheVariants.{OutOfMemory};

    ghost from_gives = { λ _ fault. fault ≡ OutOfMemory };

    fn from(_error: AllocError) -> ConformFault {
        ConformFault::OutOfMemory
    }
}

impl<T: Drop> From<AllocFailed<T>> for ConformFault {
    ghost use Rattle.std.specs.Prelude.{◌≡◌};
    ghost use Rattle.cedar_conform_values.specs.declared.conform_fault.ConformFault.TheVariants.{OutOfMemory};

    ghost from_gives = { λ _ fault. fault ≡ OutOfMemory };

    fn from(_error: AllocFailed<T>) -> ConformFault {
        ConformFault::OutOfMemory
    }
}
