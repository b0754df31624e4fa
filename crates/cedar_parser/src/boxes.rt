//! Expressions, each in a box.
//!
//! The meaning of each part of an expression is answered in a box, since a box takes the room of a pointer on the call stack. The
//! functions here are never inlined, so that each level of a high expression needs little of the call stack.
ghost use Rattle.std.specs.Prelude.{◌≡◌, ◌++◌, ◌∷◌, [], IfOk, OnOk};
ghost use Rattle.cedar_ast_expressions.specs.Expression.{literal, variable, unary, binary, and, set_with, expressions_of};
ghost use Rattle.cedar_ast_expressions.specs.declared.operator.UnaryOperator.TheVariants.{Not, Negate};
ghost use Rattle.cedar_value.specs.Datum as datum;
ghost use Rattle.cedar_ast_expressions.specs.ExprKind.{expression_of};

use cedar_ast_expressions::{BinaryOperator, Expr, ExprKind, UnaryOperator, Variable};
use cedar_value::{SharedText, Value};
use std::alloc::{AllocError, Global};

/// The expression of this form.
#[inline(never)]
pub fn boxed(alloc: Global, kind: ExprKind) -> Result<Box<Expr>, AllocError>
    ensures { IfOk result (λ b. b.value ≡ expression_of kind) }
{
    Ok(Box::new(alloc, Expr::new(kind))?)
}

/// A value.
#[inline(never)]
pub fn literal(alloc: Global, value: Value) -> Result<Box<Expr>, AllocError>
    ensures { IfOk result (λ b. b.value ≡ literal value) }
{
    boxed(alloc, ExprKind::Literal(value))
}

/// `true` or `false`.
#[inline(never)]
pub fn boolean(alloc: Global, truth: bool) -> Result<Box<Expr>, AllocError>
    ensures { IfOk result (λ b. b.value ≡ literal (datum.boolean truth)) }
{
    literal(alloc, Value::boolean(truth))
}

/// A number.
#[inline(never)]
pub fn long(alloc: Global, number: i64) -> Result<Box<Expr>, AllocError>
    ensures { IfOk result (λ b. b.value ≡ literal (datum.long number)) }
{
    literal(alloc, Value::long(number))
}

/// A part of the request.
#[inline(never)]
pub fn variable(alloc: Global, name: Variable) -> Result<Box<Expr>, AllocError>
    ensures { IfOk result (λ b. b.value ≡ variable name) }
{
    boxed(alloc, ExprKind::Variable(name))
}

/// An operator on its operand.
#[inline(never)]
pub fn unary(
    alloc: Global,
    operator: UnaryOperator,
    operand: Box<Expr>,
) -> Result<Box<Expr>, AllocError>
    ensures { IfOk result (λ b. b.value ≡ unary operator operand.value) }
{
    boxed(alloc, ExprKind::Unary(operator, operand))
}

/// `!` before an operand.
#[inline(never)]
pub fn not(alloc: Global, operand: Box<Expr>) -> Result<Box<Expr>, AllocError>
    ensures { IfOk result (λ b. b.value ≡ unary Not operand.value) }
{
    unary(alloc, UnaryOperator::Not, operand)
}

/// `-` before an operand.
#[inline(never)]
pub fn negate(alloc: Global, operand: Box<Expr>) -> Result<Box<Expr>, AllocError>
    ensures { IfOk result (λ b. b.value ≡ unary Negate operand.value) }
{
    unary(alloc, UnaryOperator::Negate, operand)
}

/// An operator on its operands.
#[inline(never)]
pub fn binary(
    alloc: Global,
    operator: BinaryOperator,
    left: Box<Expr>,
    right: Box<Expr>,
) -> Result<Box<Expr>, AllocError>
    ensures { IfOk result (λ b. b.value ≡ binary operator left.value right.value) }
{
    boxed(alloc, ExprKind::Binary(operator, left, right))
}

/// `left && right`.
#[inline(never)]
pub fn and(alloc: Global, left: Box<Expr>, right: Box<Expr>) -> Result<Box<Expr>, AllocError>
    ensures { IfOk result (λ b. b.value ≡ and left.value right.value) }
{
    boxed(alloc, ExprKind::And(left, right))
}

/// The set of these members.
#[inline(never)]
pub fn set(alloc: Global, members: Vec<Expr>) -> Result<Box<Expr>, AllocError>
    ensures { IfOk result (λ b. b.value ≡ set_with (expressions_of members.items)) }
{
    boxed(alloc, ExprKind::Set(members))
}

/// Appends an expression.
#[inline(never)]
pub fn push(items: &mut Vec<Expr>, item: Box<Expr>) -> Result<(), AllocError>
    ensures { OnOk result (items.new.items ≡ items.old.items ++ item.value ∷ []) }
{
    items.push(Box::into_inner(item))?;
    Ok(())
}

/// Appends a key with its expression.
#[inline(never)]
pub fn push_pair(
    pairs: &mut Vec<(SharedText, Expr)>,
    key: SharedText,
    value: Box<Expr>,
) -> Result<(), AllocError>
    ensures { OnOk result (pairs.new.items ≡ pairs.old.items ++ (key, value.value) ∷ []) }
{
    pairs.push((key, Box::into_inner(value)))?;
    Ok(())
}
