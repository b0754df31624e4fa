//! A capability.
ghost use Rattle.std.specs.Prelude.{◌≡◌};
ghost use Rattle.cedar_check_operators.specs.Private.Height.{height_of};

use cedar_ast_expressions::{Expr, ExprKind};
use cedar_value::Text;

/// An attribute that an expression is known to have (cedar-spec, Lean: Cedar.Validation, capabilities).
#[derive(Clone, Copy)]
pub struct Capability<'a> {
    /// The expression.
    pub on: &'a Expr,
    /// The attribute's name.
    pub key: &'a Text,
    /// With how many operators on one operand the expression begins, modulo 2^64. Expressions that differ in this are not equal.
    pub(crate) height: u64,
    ghost measured: { height ≡ height_of on.now },
}

impl<'a> Capability<'a> {
    /// The capability that the expression has the attribute.
    pub(crate) fn new(on: &'a Expr, key: &'a Text) -> Self
        ensures on { result.on.now ≡ on.now }
        ensures key { result.key.now ≡ key.now }
    {
        let height = height_of(on);
        Capability { on, key, height }
    }
}

// With how many operators on one operand an expression begins, modulo 2^64.
fn height_of(expression: &Expr) -> u64
    ensures { result ≡ height_of expression.now }
{
    let mut height: u64 = 0;
    let mut rest = expression;
    'down: while let ExprKind::Unary(_, operand) = rest.kind() {
        height = height.wrapping_add(1);
        rest = operand;
    }
    height
}
