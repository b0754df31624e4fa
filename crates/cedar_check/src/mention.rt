//! Where the variable `action` occurs.
ghost use Rattle.std.specs.Prelude.{◌≡◌};
ghost use Rattle.cedar_ast_expressions.specs.Expression.{entries_of, expressions_of};
ghost use Rattle.cedar_check.specs.Private.Mention.{is_action, mentions, any_mentions, entries_mention};

use cedar_ast_expressions::{Expr, ExprKind, Variable};
use cedar_value::SharedText;

// Whether the variable is the action.
fn is_action(variable: Variable) -> bool
    ensures { result ≡ is_action variable }
{
    match variable {
        Variable::Action => true,
        Variable::Principal | Variable::Resource | Variable::Context => false,
    }
}

/// Whether the variable `action` occurs in an expression, at any depth.
#[cycle(mention)]
pub(crate) fn mentions_action(expression: &Expr) -> bool
    ensures { result ≡ mentions expression.now }
{
    match expression.kind() {
        ExprKind::Literal(_) => false,
        ExprKind::Variable(variable) => is_action(*variable),
        ExprKind::And(left, right) => mentions_action(left) || mentions_action(right),
        ExprKind::Or(left, right) => mentions_action(left) || mentions_action(right),
        ExprKind::If(condition, first, second) => {
            mentions_action(condition) || mentions_action(first) || mentions_action(second)
        }
        ExprKind::Unary(_, operand) => mentions_action(operand),
        ExprKind::Binary(_, left, right) => mentions_action(left) || mentions_action(right),
        ExprKind::Set(members) => members_mention(members),
        ExprKind::Record(entries) => entries_mention(entries.pairs()),
    }
}

// Whether it occurs in one of these members.
#[cycle(mention)]
fn members_mention(members: &[Expr]) -> bool
    ensures { result ≡ any_mentions (expressions_of members.now) }
{
    for member in members {
        if mentions_action(member) {
            return true;
        }
    }
    false
}

// Whether it occurs in the value of one of these entries.
#[cycle(mention)]
fn entries_mention(pairs: &[(SharedText, Expr)]) -> bool
    ensures { result ≡ entries_mention (entries_of pairs.now) }
{
    for pair in pairs {
        if mentions_action(&pair.1) {
            return true;
        }
    }
    false
}
