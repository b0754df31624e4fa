//! Operators on operands of one kind: a Boolean, whole numbers, what a method takes.
ghost use Rattle.std.specs.Prelude.{◌≡◌, option_and_then};
ghost use Rattle.cedar_check_spec.specs.Rows.{as_type, comparison_type, longs_type, method_type, unary_method_type};
ghost use Rattle.cedar_check_spec.specs.Typing.{flipped};
ghost use Rattle.cedar_check_operators.specs.View.{tree_of, typing_view};

use crate::lent_type::LentType;
use crate::type_fault::TypeFault;
use crate::typing::Typing;
use cedar_ext::{BinaryMethod, UnaryMethod};
use cedar_schema::Truth;
use std::alloc::Global;

// True for false, and false for true.
pub(crate) fn flipped(truth: Truth) -> Truth
    ensures { result ≡ flipped truth }
{
    match truth {
        Truth::True => Truth::False,
        Truth::False => Truth::True,
        Truth::Any => Truth::Any,
    }
}

/// The type of an operator on two whole numbers.
pub(crate) fn longs_type<'a>(
    alloc: Global,
    ty: LentType<'a>,
    left: &LentType<'a>,
    right: &LentType<'a>,
) -> Typing<'a>
    ensures { typing_view result ≡ option_and_then as_type (longs_type (tree_of ty.entry) (tree_of left.now) (tree_of right.now)) }
{
    if left.is_long() && right.is_long() {
        Typing::plain(alloc, ty)
    } else {
        Typing::Refused(TypeFault::OperandKind)
    }
}

/// The type of `<` and `<=` on two whole numbers, two datetimes or two durations.
pub(crate) fn comparison_type<'a>(
    alloc: Global,
    left: &LentType<'a>,
    right: &LentType<'a>,
) -> Typing<'a>
    ensures { typing_view result ≡ option_and_then as_type (comparison_type (tree_of left.now) (tree_of right.now)) }
{
    if left.compares_with(right) {
        Typing::plain(alloc, LentType::Boolean(Truth::Any))
    } else {
        Typing::Refused(TypeFault::OperandKind)
    }
}

/// The type of a method that takes no argument, on an operand of the type that its row takes.
pub(crate) fn unary_method_type<'a>(
    alloc: Global,
    method: UnaryMethod,
    operand: &LentType<'a>,
) -> Typing<'a>
    ensures { typing_view result ≡ unary_method_type method (tree_of operand.now) }
{
    let row = method.row();
    if operand.is_extension(row.operand) {
        Typing::plain(alloc, LentType::of_scalar(row.result))
    } else {
        Typing::Refused(TypeFault::OperandKind)
    }
}

/// The type of a method that takes one argument, on operands of the types that its row takes.
pub(crate) fn method_type<'a>(
    alloc: Global,
    method: BinaryMethod,
    left: &LentType<'a>,
    right: &LentType<'a>,
) -> Typing<'a>
    ensures { typing_view result ≡ option_and_then as_type (method_type method (tree_of left.now) (tree_of right.now)) }
{
    let row = method.row();
    if left.is_extension(row.left) && right.is_extension(row.right) {
        Typing::plain(alloc, LentType::of_scalar(row.result))
    } else {
        Typing::Refused(TypeFault::OperandKind)
    }
}
