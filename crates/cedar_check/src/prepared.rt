//! Conditions, looked at once for all environments.
ghost use Rattle.std.specs.Prelude.{◌≡◌, IfSome};
ghost use Rattle.cedar_check.specs.Private.Condition.{asked, condition_in, IsNamed, IsReady};

use crate::mention::mentions_action;
use crate::rows::is_declared;
use cedar_ast_expressions::{BinaryOperator, Expr, ExprKind, Variable};
use cedar_schema::Schema;
use cedar_value::{Uid, ValueKind};

/// The parts of a condition `principal && (action OPERATOR operand && rest)`.
#[derive(Clone, Copy)]
pub(crate) struct Parts<'c> {
    /// The scope's condition on the principal.
    pub(crate) principal: &'c Expr,
    /// The operator of the scope's condition on the action.
    pub(crate) operator: BinaryOperator,
    /// What that compares the action with.
    pub(crate) operand: &'c Expr,
    /// The rest of the condition.
    pub(crate) rest: &'c Expr,
    /// The entity with which the action is compared, if the condition on it is `action == E` and `E` is declared.
    pub(crate) named: Option<&'c Uid>,
}

// The entity with which a condition compares the action, if the condition is `action == E` and `E` is declared.
fn named_in<'c>(schema: &Schema, operator: BinaryOperator, operand: &'c Expr) -> Option<&'c Uid>
    ensures { IfSome result (λ named. IsNamed schema.now (asked operator operand.now) named.now) }
{
    let ExprKind::Literal(value) = operand.kind() else {
        return None;
    };
    match (operator, value.kind()) {
        (BinaryOperator::Equal, ValueKind::Uid(named)) if is_declared(schema, named) => Some(named),
        _ => None,
    }
}

/// A condition, sorted according to where the variable `action` occurs in it.
#[derive(Clone, Copy)]
pub(crate) enum Prepared<'c> {
    /// Nowhere.
    Open(&'c Expr),
    /// In the scope's condition on the action alone.
    Parts(Parts<'c>),
    /// Somewhere.
    Whole(&'c Expr),
}

impl<'c> Prepared<'c> {
    /// The condition, searched for the variable.
    pub(crate) fn new(schema: &Schema, condition: &'c Expr) -> Self
        ensures condition { condition_in result ≡ condition.now }
        ensures ready { IsReady schema.now result }
    {
        if !mentions_action(condition) {
            return Prepared::Open(condition);
        }
        let ExprKind::And(principal, others) = condition.kind() else {
            return Prepared::Whole(condition);
        };
        let ExprKind::And(action, rest) = others.kind() else {
            return Prepared::Whole(condition);
        };
        let ExprKind::Binary(operator, left, operand) = action.kind() else {
            return Prepared::Whole(condition);
        };
        let ExprKind::Variable(Variable::Action) = left.kind() else {
            return Prepared::Whole(condition);
        };
        if mentions_action(principal) || mentions_action(operand) || mentions_action(rest) {
            return Prepared::Whole(condition);
        }
        Prepared::Parts(Parts {
            principal,
            operator: *operator,
            operand,
            rest,
            named: named_in(schema, *operator, operand),
        })
    }
}
