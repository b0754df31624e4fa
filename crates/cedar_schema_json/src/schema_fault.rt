//! Why a schema is refused.
use std::alloc::{AllocError, AllocFailed};
use thiserror::Error;

/// Why bytes write no schema.
#[derive(Clone, Copy, PartialEq, Eq, Debug, Error)]
pub enum SchemaFault {
    /// 1: out of memory. It says nothing about the schema.
    #[error("out of memory")]
    OutOfMemory,
    /// 301: the bytes are not UTF-8, or not JSON, or nest deeper than 127 (RFC 8259).
    #[error("no JSON")]
    Json,
    /// 302: a key that is not known, a value of a wrong kind, a key that is not an identifier where one has to be, or a name
    /// that is not a path of identifiers.
    #[error("not of the shape of a schema")]
    Shape,
    /// 303: a type, or an action of `memberOf`, that is not declared.
    #[error("a type or an action that is not declared")]
    UnknownType,
    /// 304: a common type that leads back to itself.
    #[error("a common type that leads back to itself")]
    CommonCycle,
    /// 305: an action that is below itself.
    #[error("an action that is below itself")]
    ActionCycle,
    /// 306: a name with the word `__cedar`, an entity type `Action`, or a common type with the name
    /// of a built-in type; in Cedar 4 also a type of a namespace with the name of one in the empty namespace.
    #[error("a reserved name")]
    ReservedName,
    /// 307: a record with `additionalAttributes`.
    #[error("an open record")]
    OpenRecord,
    /// 308: an `appliesTo` without `principalTypes` or `resourceTypes`.
    #[error("an unspecified principal or resource")]
    Unspecified,
    /// 309: a type of more than 10,000 nodes, or more than 100 high, with its common types expanded.
    #[error("a type that is too large")]
    TooLarge,
}

impl SchemaFault {
    ghost use Rattle.std.specs.Prelude.{◌≡◌};
    ghost use Rattle.cedar_schema_json.specs.Numbers.{number_of};

    /// The refusal's number.
    pub fn number(&self) -> u16
        ensures { result ≡ number_of self.now }
    {
        match self {
            SchemaFault::OutOfMemory => 1,
            SchemaFault::Json => 301,
            SchemaFault::Shape => 302,
            SchemaFault::UnknownType => 303,
            SchemaFault::CommonCycle => 304,
            SchemaFault::ActionCycle => 305,
            SchemaFault::ReservedName => 306,
            SchemaFault::OpenRecord => 307,
            SchemaFault::Unspecified => 308,
            SchemaFault::TooLarge => 309,
        }
    }
}

impl From<AllocError> for SchemaFault {
    ghost use Rattle.std.specs.Prelude.{◌≡◌};
    ghost use Rattle.cedar_schema_json.specs.declared.schema_fault.SchemaFault.TheVariants.{OutOfMemory};

    ghost from_gives = { λ _ fault. fault ≡ OutOfMemory };

    fn from(_error: AllocError) -> SchemaFault {
        SchemaFault::OutOfMemory
    }
}

impl<T: Drop> From<AllocFailed<T>> for SchemaFault {
    ghost use Rattle.std.specs.Prelude.{◌≡◌};
    ghost use Rattle.cedar_schema_json.specs.declared.schema_fault.SchemaFault.TheVariants.{OutOfMemory};

    ghost from_gives = { λ _ fault. fault ≡ OutOfMemory };

    fn from(_error: AllocFailed<T>) -> SchemaFault {
        SchemaFault::OutOfMemory
    }
}
