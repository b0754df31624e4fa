//! One condition of a policy.
use cedar_ast_expressions::Expr;

/// Whether a condition is to hold or not to hold.
#[derive(Clone, Copy, Debug, PartialEq, Eq)]
pub enum ConditionKind {
    /// `when`: the expression is to be true.
    When,
    /// `unless`: the expression is to be false.
    Unless,
}

/// One `when` or `unless` of a policy (Cedar language reference, policy conditions).
#[derive(Drop)]
pub struct Condition {
    /// Whether the expression is to hold.
    pub kind: ConditionKind,
    /// The expression between the braces.
    pub body: Expr,
}
