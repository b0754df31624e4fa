//! Why an expression has no type.
ghost use Rattle.std.specs.Prelude.{◌≡◌};
ghost use Rattle.cedar_check_operators.specs.Numbers.{number_of};

use thiserror::Error;

/// Why an expression has no type in an environment (Cedar documentation, strict validation).
#[derive(Clone, Copy, Debug, PartialEq, Eq, Error)]
pub enum TypeFault {
    /// 601: an entity type or an action that the schema does not declare.
    #[error("the schema does not declare this entity type or action")]
    Undeclared,
    /// 602: an attribute that may be absent, where no `has` guards it.
    #[error("the attribute may be absent, and no `has` guards it")]
    Unguarded,
    /// 603: an attribute that is not declared.
    #[error("the attribute is not declared")]
    NoAttribute,
    /// 604: types that do not join.
    #[error("the types do not join")]
    NoJoin,
    /// 605: an empty set.
    #[error("an empty set has no type")]
    EmptySet,
    /// 606: an operand of another kind; where a constructor takes any string, so is an operand of it that is not a string.
    #[error("an operand is of another kind")]
    OperandKind,
    /// 607: the operand of a constructor is not a string literal that it reads; where the constructor takes any string, it is a
    /// string literal that it does not read.
    #[error("the operand of a constructor is not a string literal that it reads")]
    NoLiteral,
}

impl TypeFault {
    /// The fault's number.
    pub fn number(self) -> u16
        ensures { result ≡ number_of self }
    {
        match self {
            TypeFault::Undeclared => 601,
            TypeFault::Unguarded => 602,
            TypeFault::NoAttribute => 603,
            TypeFault::NoJoin => 604,
            TypeFault::EmptySet => 605,
            TypeFault::OperandKind => 606,
            TypeFault::NoLiteral => 607,
        }
    }
}
