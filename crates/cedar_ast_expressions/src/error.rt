//! The errors of an evaluation.
use thiserror::Error;

/// Why an evaluation has no value (Cedar language reference, operators; cedar-spec, Lean: `Cedar.Spec.Error`).
#[derive(Clone, Copy, Debug, PartialEq, Eq, Error)]
pub enum EvaluationError {
    /// A result is not a number of 64 bits.
    #[error("overflow")]
    Overflow,
    /// A policy reads an attribute of an entity that does not exist.
    #[error("missing entity")]
    MissingEntity,
    /// An attribute is absent.
    #[error("missing attribute")]
    MissingAttribute,
    /// An operand is of the wrong kind.
    #[error("type")]
    Type,
    /// A string is not a decimal.
    #[error("decimal")]
    Decimal,
}
