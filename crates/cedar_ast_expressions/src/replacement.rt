//! Copies of expressions, with the variable `action` replaced by a uid where one is given.
//!
//! Each form has a function of its own, which is not inlined and holds boxes alone. So a level of a high expression needs little
//! of the call stack.
ghost use Rattle.std.specs.Prelude.{◌≡◌, IfOk, map};
ghost use Rattle.cedar_ast_expressions.specs.Expression.{literal, variable, and, or, if_else, unary, binary, set_with, record_with, expressions_of, entries_of};
ghost use Rattle.cedar_value.specs.Datum.{uid};
ghost use Rattle.cedar_ast_expressions.specs.Private.Replaced.{replaced_by, replaced_pair};

use crate::boxed::{
    boxed_and, boxed_binary, boxed_if, boxed_literal, boxed_or, boxed_record, boxed_set,
    boxed_unary, boxed_variable, push_entry, push_literal, push_member,
};
use crate::entries::Entries;
use crate::expression::{Expr, ExprKind};
use crate::operator::{BinaryOperator, UnaryOperator};
use crate::variable::Variable;
use cedar_value::{SharedText, Uid, Value};
use std::alloc::{AllocError, Global};

/// A copy of an expression, in a box.
#[tactic(auto, using(crate::specs::Private::Replaced::by_literal))]
#[cycle(replace)]
#[inline(never)]
pub(crate) fn replaced_part(
    alloc: Global,
    part: &Expr,
    action: Option<&Uid>,
) -> Result<Box<Expr>, AllocError>
    ensures { IfOk result (λ b. b.value ≡ replaced_by action.entry part.now) }
{
    match part.kind() {
        ExprKind::Literal(value) => boxed_literal(alloc, value),
        ExprKind::Variable(name) => replaced_variable(alloc, *name, action),
        ExprKind::And(left, right) => replaced_and(alloc, left, right, action),
        ExprKind::Or(left, right) => replaced_or(alloc, left, right, action),
        ExprKind::If(condition, if_true, if_false) => {
            replaced_if(alloc, condition, if_true, if_false, action)
        }
        ExprKind::Unary(operator, operand) => replaced_unary(alloc, operator, operand, action),
        ExprKind::Binary(operator, left, right) => {
            replaced_binary(alloc, *operator, left, right, action)
        }
        ExprKind::Set(members) => replaced_set(alloc, members, action),
        ExprKind::Record(entries) => replaced_record(alloc, entries, action),
    }
}

// A variable, or the uid in place of the action.
#[inline(never)]
fn replaced_variable(
    alloc: Global,
    name: Variable,
    action: Option<&Uid>,
) -> Result<Box<Expr>, AllocError>
    ensures { IfOk result (λ b. b.value ≡ replaced_by action.entry (variable name)) }
{
    let Some(action) = action else {
        return boxed_variable(alloc, name);
    };
    match name {
        Variable::Action => boxed_action(alloc, action),
        other => boxed_variable(alloc, other),
    }
}

// The uid, as a value.
fn boxed_action(alloc: Global, action: &Uid) -> Result<Box<Expr>, AllocError>
    ensures { IfOk result (λ b. b.value ≡ literal (uid action.now)) }
{
    let action = Value::uid(alloc, action.try_clone(alloc)?)?;
    Ok(Box::new(alloc, Expr::literal(action))?)
}

#[tactic(auto, using(crate::specs::Private::Replaced::by_and))]
#[cycle(replace)]
#[inline(never)]
fn replaced_and(
    alloc: Global,
    left: &Expr,
    right: &Expr,
    action: Option<&Uid>,
) -> Result<Box<Expr>, AllocError>
    ensures { IfOk result (λ b. b.value ≡ replaced_by action.entry (and left.now right.now)) }
{
    let left = replaced_part(alloc, left, action)?;
    let right = replaced_part(alloc, right, action)?;
    boxed_and(alloc, left, right)
}

#[tactic(auto, using(crate::specs::Private::Replaced::by_or))]
#[cycle(replace)]
#[inline(never)]
fn replaced_or(
    alloc: Global,
    left: &Expr,
    right: &Expr,
    action: Option<&Uid>,
) -> Result<Box<Expr>, AllocError>
    ensures { IfOk result (λ b. b.value ≡ replaced_by action.entry (or left.now right.now)) }
{
    let left = replaced_part(alloc, left, action)?;
    let right = replaced_part(alloc, right, action)?;
    boxed_or(alloc, left, right)
}

#[tactic(auto, using(crate::specs::Private::Replaced::by_if))]
#[cycle(replace)]
#[inline(never)]
fn replaced_if(
    alloc: Global,
    condition: &Expr,
    if_true: &Expr,
    if_false: &Expr,
    action: Option<&Uid>,
) -> Result<Box<Expr>, AllocError>
    ensures { IfOk result (λ b. b.value ≡ replaced_by action.entry (if_else condition.now if_true.now if_false.now)) }
{
    let condition = replaced_part(alloc, condition, action)?;
    let if_true = replaced_part(alloc, if_true, action)?;
    let if_false = replaced_part(alloc, if_false, action)?;
    boxed_if(alloc, condition, if_true, if_false)
}

#[tactic(auto, using(crate::specs::Private::Replaced::by_unary))]
#[cycle(replace)]
#[inline(never)]
fn replaced_unary(
    alloc: Global,
    operator: &UnaryOperator,
    operand: &Expr,
    action: Option<&Uid>,
) -> Result<Box<Expr>, AllocError>
    ensures { IfOk result (λ b. b.value ≡ replaced_by action.entry (unary operator.now operand.now)) }
{
    let operand = replaced_part(alloc, operand, action)?;
    boxed_unary(alloc, operator, operand)
}

#[tactic(auto, using(crate::specs::Private::Replaced::by_binary))]
#[cycle(replace)]
#[inline(never)]
fn replaced_binary(
    alloc: Global,
    operator: BinaryOperator,
    left: &Expr,
    right: &Expr,
    action: Option<&Uid>,
) -> Result<Box<Expr>, AllocError>
    ensures { IfOk result (λ b. b.value ≡ replaced_by action.entry (binary operator left.now right.now)) }
{
    let left = replaced_part(alloc, left, action)?;
    let right = replaced_part(alloc, right, action)?;
    boxed_binary(alloc, operator, left, right)
}

#[tactic(auto, using(crate::specs::Private::Replaced::by_literal))]
#[cycle(replace)]
#[inline(never)]
fn replaced_set(
    alloc: Global,
    members: &[Expr],
    action: Option<&Uid>,
) -> Result<Box<Expr>, AllocError>
    ensures { IfOk result (λ b. b.value ≡ replaced_by action.entry (set_with (expressions_of members.now))) }
{
    let mut copies = Vec::new(alloc);
    for member in members {
        match member.kind() {
            ExprKind::Literal(value) => push_literal(alloc, &mut copies, value)?,
            _ => push_member(&mut copies, replaced_part(alloc, member, action)?)?,
        }
    }
    boxed_set(alloc, copies)
}

#[cycle(replace)]
#[inline(never)]
fn replaced_record(
    alloc: Global,
    entries: &Entries,
    action: Option<&Uid>,
) -> Result<Box<Expr>, AllocError>
    ensures { IfOk result (λ b. b.value ≡ replaced_by action.entry (record_with (entries_of entries.now))) }
{
    let pairs = replaced_pairs(alloc, entries.pairs(), action)?;
    boxed_record(alloc, Entries::with_keys_of(entries, pairs))
}

/// Copies of entries.
#[cycle(replace)]
#[inline(never)]
pub(crate) fn replaced_pairs(
    alloc: Global,
    pairs: &[(SharedText, Expr)],
    action: Option<&Uid>,
) -> Result<Vec<(SharedText, Expr)>, AllocError>
    ensures { IfOk result (λ v. v.items ≡ map (replaced_pair action.entry) pairs.now) }
{
    let mut copies = Vec::new(alloc);
    for pair in pairs {
        push_entry(&mut copies, &pair.0, replaced_part(alloc, &pair.1, action)?)?;
    }
    Ok(copies)
}
