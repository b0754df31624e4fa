//! The way from an expression to the part of it that is typed first.
ghost use Rattle.std.specs.Prelude.{◌≡◌, ◌≤◌, length, option_map, take};
ghost use Rattle.cedar_check.specs.Private.Spine.{Leads, left_of};

use cedar_ast_expressions::{Expr, ExprKind};

/// How many expressions a spine has places for.
const PLACES: usize = 8;

// The part of an expression that is typed first, where the row of the expression goes on from there.
fn left_part(expression: &Expr) -> Option<&Expr>
    ensures { option_map (λ left. left.now) result ≡ left_of expression.now }
{
    match expression.kind() {
        ExprKind::And(left, _) => Some(left),
        ExprKind::Or(left, _) => Some(left),
        ExprKind::If(condition, _, _) => Some(condition),
        ExprKind::Unary(_, operand) => Some(operand),
        ExprKind::Binary(_, left, _) => Some(left),
        ExprKind::Literal(_) | ExprKind::Variable(_) | ExprKind::Set(_) | ExprKind::Record(_) =>
            None,
    }
}

/// An expression, its left part, the left part of that, and so on, as far as there are places.
#[derive(Clone, Copy)]
pub(crate) struct Spine<'a> {
    /// The places. The expression itself is in the first.
    pub(crate) passed: [&'a Expr; PLACES],
    /// How many places are taken.
    pub(crate) count: usize,
    /// The left part of the expression in the last place that is taken.
    pub(crate) last: &'a Expr,
}

impl<'a> Spine<'a> {
    /// The spine of an expression.
    pub(crate) fn new(expression: &'a Expr) -> Self
        ensures count { result.count ≤ length result.passed }
        ensures leads { Leads expression.now (take result.count result.passed) result.last.now }
    {
        let mut passed = [expression; PLACES];
        let mut count = 0;
        let mut last = expression;
        while count < PLACES {
            let Some(left) = left_part(last) else {
                break;
            };
            passed[count] = last;
            count += 1;
            last = left;
        }
        Spine {
            passed,
            count,
            last,
        }
    }
}
