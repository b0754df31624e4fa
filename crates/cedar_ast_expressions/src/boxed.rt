//! Expressions in boxes, made of their parts in boxes.
//!
//! A walk that copies an expression calls these functions last. They are not inlined, so while the walk goes down, it holds
//! the boxes alone: a level of a high expression needs little of the call stack.
ghost use Rattle.std.specs.Prelude.{◌≡◌, [], ◌∷◌, ◌++◌, IfOk, OnOk};
ghost use Rattle.cedar_ast_expressions.specs.Expression.{literal, variable, and, or, if_else, unary, binary, set_with, record_with, expressions_of, entries_of};

use crate::entries::Entries;
use crate::expression::{Expr, ExprKind};
use crate::operator::{BinaryOperator, UnaryOperator};
use crate::variable::Variable;
use cedar_value::{SharedText, Value};
use std::alloc::{AllocError, Global};

/// A copy of a value.
#[inline(never)]
pub(crate) fn boxed_literal(alloc: Global, value: &Value) -> Result<Box<Expr>, AllocError>
    ensures { IfOk result (λ b. b.value ≡ literal value.now) }
{
    let value = value.try_clone(alloc)?;
    Ok(Box::new(alloc, Expr::literal(value))?)
}

/// A part of the request.
#[inline(never)]
pub(crate) fn boxed_variable(alloc: Global, name: Variable) -> Result<Box<Expr>, AllocError>
    ensures { IfOk result (λ b. b.value ≡ variable name) }
{
    Ok(Box::new(alloc, Expr::variable(name))?)
}

/// `left && right`.
#[inline(never)]
pub(crate) fn boxed_and(
    alloc: Global,
    left: Box<Expr>,
    right: Box<Expr>,
) -> Result<Box<Expr>, AllocError>
    ensures { IfOk result (λ b. b.value ≡ and left.value right.value) }
{
    Ok(Box::new(alloc, Expr::new(ExprKind::And(left, right)))?)
}

/// `left || right`.
#[inline(never)]
pub(crate) fn boxed_or(
    alloc: Global,
    left: Box<Expr>,
    right: Box<Expr>,
) -> Result<Box<Expr>, AllocError>
    ensures { IfOk result (λ b. b.value ≡ or left.value right.value) }
{
    Ok(Box::new(alloc, Expr::new(ExprKind::Or(left, right)))?)
}

/// `if condition then if_true else if_false`.
#[inline(never)]
pub(crate) fn boxed_if(
    alloc: Global,
    condition: Box<Expr>,
    if_true: Box<Expr>,
    if_false: Box<Expr>,
) -> Result<Box<Expr>, AllocError>
    ensures { IfOk result (λ b. b.value ≡ if_else condition.value if_true.value if_false.value) }
{
    Ok(Box::new(alloc, Expr::new(ExprKind::If(condition, if_true, if_false)))?)
}

/// A copy of the operator, on its operand.
#[inline(never)]
pub(crate) fn boxed_unary(
    alloc: Global,
    operator: &UnaryOperator,
    operand: Box<Expr>,
) -> Result<Box<Expr>, AllocError>
    ensures { IfOk result (λ b. b.value ≡ unary operator.now operand.value) }
{
    match operator.try_clone(alloc) {
        Ok(operator) => Ok(Box::new(alloc, Expr::new(ExprKind::Unary(operator, operand)))?),
        Err(refused) => {
            drop(operand);
            Err(refused)
        }
    }
}

/// An operator on its operands.
#[inline(never)]
pub(crate) fn boxed_binary(
    alloc: Global,
    operator: BinaryOperator,
    left: Box<Expr>,
    right: Box<Expr>,
) -> Result<Box<Expr>, AllocError>
    ensures { IfOk result (λ b. b.value ≡ binary operator left.value right.value) }
{
    Ok(Box::new(alloc, Expr::new(ExprKind::Binary(operator, left, right)))?)
}

/// The set of these members.
#[inline(never)]
pub(crate) fn boxed_set(alloc: Global, members: Vec<Expr>) -> Result<Box<Expr>, AllocError>
    ensures { IfOk result (λ b. b.value ≡ set_with (expressions_of members.items)) }
{
    Ok(Box::new(alloc, Expr::set(members))?)
}

/// The record of these entries.
#[inline(never)]
pub(crate) fn boxed_record(alloc: Global, entries: Entries) -> Result<Box<Expr>, AllocError>
    ensures { IfOk result (λ b. b.value ≡ record_with (entries_of entries)) }
{
    Ok(Box::new(alloc, Expr::new(ExprKind::Record(entries)))?)
}

/// One more member: a copy of a value. It takes no box.
#[inline(never)]
pub(crate) fn push_literal(
    alloc: Global,
    members: &mut Vec<Expr>,
    value: &Value,
) -> Result<(), AllocError>
    ensures { OnOk result (members.new.items ≡ members.old.items ++ literal value.now ∷ []) }
{
    let value = value.try_clone(alloc)?;
    members.push(Expr::literal(value))?;
    Ok(())
}

/// One more member, out of its box.
#[inline(never)]
pub(crate) fn push_member(members: &mut Vec<Expr>, member: Box<Expr>) -> Result<(), AllocError>
    ensures { OnOk result (members.new.items ≡ members.old.items ++ member.value ∷ []) }
{
    members.push(Box::into_inner(member))?;
    Ok(())
}

/// One more entry: the key, shared, and its value, out of its box.
#[inline(never)]
pub(crate) fn push_entry(
    pairs: &mut Vec<(SharedText, Expr)>,
    key: &SharedText,
    value: Box<Expr>,
) -> Result<(), AllocError>
    ensures { OnOk result (pairs.new.items ≡ pairs.old.items ++ (key.now, value.value) ∷ []) }
{
    match key.share() {
        Ok(key) => {
            pairs.push((key, Box::into_inner(value)))?;
            Ok(())
        }
        Err(refused) => {
            drop(value);
            Err(refused)
        }
    }
}
