//! Operators.
ghost use Rattle.std.specs.Prelude.{◌≡◌, ◌↔◌, IfOk, IsTrue};

use cedar_ext::{BinaryMethod, ExtensionType, Pattern, UnaryMethod};
use cedar_value::{Name, Text};
use std::alloc::{AllocError, Global};

/// An operator on one operand (Cedar language reference, operators).
#[derive(Drop)]
pub enum UnaryOperator {
    /// `!`, of a Boolean.
    Not,
    /// `-`, of a number.
    Negate,
    /// `has a`, of a record or an entity.
    Has(Text),
    /// `.a` or `["a"]`, of a record or an entity.
    Get(Text),
    /// `like p`, of a string.
    Like(Pattern),
    /// `is T`, of an entity.
    Is(Name),
    /// The constructor of an extension type, such as `decimal(s)`, of a string.
    Construct(ExtensionType),
    /// `isEmpty()`, of a set.
    IsEmpty,
    /// A method of an extension type that takes no argument, such as `isLoopback()`.
    Call(UnaryMethod),
}

impl UnaryOperator {
    /// A copy, equal to the original.
    pub fn try_clone(&self, alloc: Global) -> Result<Self, AllocError>
        ensures { IfOk result (λ operator. operator ≡ self.now) }
    {
        match self {
            UnaryOperator::Not => Ok(UnaryOperator::Not),
            UnaryOperator::Negate => Ok(UnaryOperator::Negate),
            UnaryOperator::Has(key) => Ok(UnaryOperator::Has(key.try_clone(alloc)?)),
            UnaryOperator::Get(key) => Ok(UnaryOperator::Get(key.try_clone(alloc)?)),
            UnaryOperator::Like(pattern) => Ok(UnaryOperator::Like(pattern.try_clone(alloc)?)),
            UnaryOperator::Is(ty) => Ok(UnaryOperator::Is(ty.try_clone(alloc)?)),
            UnaryOperator::Construct(ty) => Ok(UnaryOperator::Construct(*ty)),
            UnaryOperator::IsEmpty => Ok(UnaryOperator::IsEmpty),
            UnaryOperator::Call(method) => Ok(UnaryOperator::Call(*method)),
        }
    }
}

impl PartialEq for UnaryOperator {
    ghost use Rattle.std.specs.Cmp.{partial_equiv_from_equiv};
    ghost use Rattle.cedar_ast_expressions.specs.Private.SameExpression.{unary_equivalence};
    ghost use Rattle.cedar_ast_expressions.specs.SameExpression.{same_unary};

    ghost eq = { same_unary };

    ghost laws = { partial_equiv_from_equiv unary_equivalence };

    /// Whether the two are one operator, with the same key, pattern or name.
    fn eq(&self, other: &Self) -> bool
        ensures gives { result ≡ same_unary self.now other.now }
        ensures equal { IsTrue result ↔ (self.now ≡ other.now) }
    {
        same_operator(self, other)
    }
}

impl Eq for UnaryOperator {
    ghost use Rattle.cedar_ast_expressions.specs.Private.SameExpression.{unary_equivalence};

    ghost laws = { unary_equivalence };
}

// Whether the two operators are equal.
pub(crate) fn same_operator(one: &UnaryOperator, two: &UnaryOperator) -> bool
    ensures { IsTrue result ↔ (one.now ≡ two.now) }
{
    match (one, two) {
        (UnaryOperator::Not, UnaryOperator::Not) => true,
        (UnaryOperator::Negate, UnaryOperator::Negate) => true,
        (UnaryOperator::IsEmpty, UnaryOperator::IsEmpty) => true,
        (UnaryOperator::Has(first), UnaryOperator::Has(second)) => first == second,
        (UnaryOperator::Get(first), UnaryOperator::Get(second)) => first == second,
        (UnaryOperator::Is(first), UnaryOperator::Is(second)) => first == second,
        (UnaryOperator::Like(first), UnaryOperator::Like(second)) => first == second,
        (UnaryOperator::Construct(first), UnaryOperator::Construct(second)) => first.same(*second),
        (UnaryOperator::Call(first), UnaryOperator::Call(second)) => first == second,
        _ => false,
    }
}

/// An operator on two operands, which are both evaluated first, the left one before the right one
/// (Cedar language reference, operators).
#[derive(Clone, Copy, Debug, PartialEq, Eq)]
pub enum BinaryOperator {
    /// `==`, of values of any kind.
    Equal,
    /// `<`, of numbers, of datetimes or of durations.
    Less,
    /// `<=`, of numbers, of datetimes or of durations.
    LessEqual,
    /// `+`, of numbers.
    Add,
    /// `-`, of numbers.
    Subtract,
    /// `*`, of numbers.
    Multiply,
    /// `in`, of an entity and an entity or a set of entities.
    In,
    /// `contains`, of a set and a value.
    Contains,
    /// `containsAll`, of sets.
    ContainsAll,
    /// `containsAny`, of sets.
    ContainsAny,
    /// A method of an extension type that takes one argument, such as `lessThan`.
    Call(BinaryMethod),
}
