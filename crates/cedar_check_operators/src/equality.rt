//! The row of `==`.
ghost use Rattle.std.specs.Prelude.{◌≡◌, IfSome, Some, is_some, option_and_then};
ghost use Rattle.cedar_schema_types.specs.Types.{boolean};
ghost use Rattle.cedar_schema_types.specs.Membership.{known};
ghost use Rattle.cedar_check_spec.specs.Rows.{apart, as_type, entity_in, equal_literal_type, equal_type};
ghost use Rattle.cedar_check_spec.specs.Typing.{two_literals};
ghost use Rattle.cedar_check_operators.specs.View.{tree_of, typing_view};

use crate::joins::types_join;
use crate::lent_type::LentType;
use crate::type_fault::TypeFault;
use crate::typing::Typing;
use cedar_ast_expressions::{Expr, ExprKind};
use cedar_schema::Truth;
use std::alloc::Global;

/// What is known of a Boolean.
pub(crate) fn known(truth: bool) -> Truth
    ensures { result ≡ known truth }
{
    if truth { Truth::True } else { Truth::False }
}

// What is known of the equality of two literals. None where one of the two is not a literal.
fn literals_equal(left: &Expr, right: &Expr) -> Option<Truth>
    ensures two { is_some result ≡ two_literals left.now right.now }
    ensures known { IfSome result (λ truth. Some (boolean truth) ≡ equal_literal_type left.now right.now) }
{
    match left.kind() {
        ExprKind::Literal(one) => match right.kind() {
            ExprKind::Literal(two) => Some(known(one == two)),
            _ => None,
        },
        _ => None,
    }
}

// The row of `==` for types that do not join: known false for two entity types.
fn apart<'a>(alloc: Global, left: &LentType<'a>, right: &LentType<'a>) -> Typing<'a>
    ensures { typing_view result ≡ option_and_then as_type (apart (entity_in (tree_of left.now)) (entity_in (tree_of right.now))) }
{
    match left.entity() {
        None => Typing::Refused(TypeFault::NoJoin),
        Some(one) => match right.entity() {
            None => Typing::Refused(TypeFault::NoJoin),
            Some(two) => {
                if one == two {
                    Typing::Refused(TypeFault::NoJoin)
                } else {
                    Typing::plain(alloc, LentType::Boolean(Truth::False))
                }
            }
        },
    }
}

/// The row of `==`.
pub(crate) fn equal_type<'a>(
    alloc: Global,
    left: &Expr,
    right: &Expr,
    one: &LentType<'a>,
    two: &LentType<'a>,
) -> Typing<'a>
    ensures { typing_view result ≡ option_and_then as_type (equal_type left.now right.now (tree_of one.now) (tree_of two.now)) }
{
    if let Some(truth) = literals_equal(left, right) {
        return Typing::plain(alloc, LentType::Boolean(truth));
    }
    if types_join(one.glance(), two.glance()) {
        Typing::plain(alloc, LentType::Boolean(Truth::Any))
    } else {
        apart(alloc, one, two)
    }
}
