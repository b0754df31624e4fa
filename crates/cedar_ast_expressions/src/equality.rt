//! Equality of expressions. It takes no memory.
ghost use Rattle.std.specs.Prelude.{◌≡◌, ◌↔◌, IsTrue};

use crate::expression::{Expr, ExprKind};
use crate::operator::same_operator;
use cedar_value::SharedText;

impl PartialEq for Expr {
    ghost use Rattle.std.specs.Cmp.{partial_equiv_from_equiv};
    ghost use Rattle.cedar_ast_expressions.specs.Private.SameExpression.{expression_equivalence};
    ghost use Rattle.cedar_ast_expressions.specs.SameExpression.{same_expression};

    ghost eq = { same_expression };

    ghost laws = { partial_equiv_from_equiv expression_equivalence };

    /// Whether the two are the same tree, entries and members in the same order.
    fn eq(&self, other: &Self) -> bool
        ensures gives { result ≡ same_expression self.now other.now }
        ensures equal { IsTrue result ↔ (self.now ≡ other.now) }
    {
        same(self, other)
    }
}

impl Eq for Expr {
    ghost use Rattle.cedar_ast_expressions.specs.Private.SameExpression.{expression_equivalence};

    ghost laws = { expression_equivalence };
}

// Whether the two expressions are equal.
#[cycle(same)]
fn same(one: &Expr, two: &Expr) -> bool
    ensures { IsTrue result ↔ (one.now ≡ two.now) }
{
    match one.kind() {
        ExprKind::Literal(first) => match two.kind() {
            ExprKind::Literal(second) => first == second,
            _ => false,
        },
        ExprKind::Variable(first) => match two.kind() {
            ExprKind::Variable(second) => first == second,
            _ => false,
        },
        ExprKind::And(first, more) => match two.kind() {
            ExprKind::And(second, others) => same(first, second) && same(more, others),
            _ => false,
        },
        ExprKind::Or(first, more) => match two.kind() {
            ExprKind::Or(second, others) => same(first, second) && same(more, others),
            _ => false,
        },
        ExprKind::If(condition, first, more) => match two.kind() {
            ExprKind::If(other, second, others) => {
                same(condition, other) && same(first, second) && same(more, others)
            }
            _ => false,
        },
        ExprKind::Unary(operator, first) => match two.kind() {
            ExprKind::Unary(other, second) => same_operator(operator, other) && same(first, second),
            _ => false,
        },
        ExprKind::Binary(operator, first, more) => match two.kind() {
            ExprKind::Binary(other, second, others) => {
                operator == other && same(first, second) && same(more, others)
            }
            _ => false,
        },
        ExprKind::Set(first) => match two.kind() {
            ExprKind::Set(second) => same_members(first, second),
            _ => false,
        },
        ExprKind::Record(first) => match two.kind() {
            ExprKind::Record(second) => same_pairs(first.pairs(), second.pairs()),
            _ => false,
        },
    }
}

// Whether the two lists are equal.
#[cycle(same)]
fn same_members(one: &[Expr], two: &[Expr]) -> bool
    ensures { IsTrue result ↔ (one.now ≡ two.now) }
{
    if one.len() != two.len() {
        return false;
    }
    for place in 0..one.len() {
        if !same(&one[place], &two[place]) {
            return false;
        }
    }
    true
}

// Whether the two lists of keys and expressions are equal.
#[cycle(same)]
fn same_pairs(one: &[(SharedText, Expr)], two: &[(SharedText, Expr)]) -> bool
    ensures { IsTrue result ↔ (one.now ≡ two.now) }
{
    if one.len() != two.len() {
        return false;
    }
    for place in 0..one.len() {
        let first = &one[place];
        let second = &two[place];
        if first.0 != second.0 {
            return false;
        }
        if !same(&first.1, &second.1) {
            return false;
        }
    }
    true
}
