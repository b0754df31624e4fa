//! What a part compares.
use crate::evaluation::part_outcome;
use crate::sign::{Sign, negated_sign_of, sign_of};
use crate::unary_text::{add_after, add_before};
use crate::value_text::{uid_text, value_text};
use base_places::Draft;
use cedar_ast_expressions::{Expr, ExprKind, UnaryOperator};
use cedar_auth::Ready;
use cedar_machine::Outcome;
use cedar_value::{Glance, Hierarchy, Request, Value};
use std::alloc::{AllocError, Global};

/// What explains how a part ends: the part with the values of its operands, or which entity is not stored. None if the part says as
/// much itself.
pub fn detail_of(
    alloc: Global,
    ready: &Ready,
    request: &Request,
    part: &Expr,
) -> Result<Option<String>, AllocError> {
    match part.kind() {
        ExprKind::Binary(operator, left, right) => {
            pair_text(alloc, ready, request, left, sign_of(*operator), right)
        }
        ExprKind::Unary(UnaryOperator::Not, operand) => {
            negated_text(alloc, ready, request, operand)
        }
        ExprKind::Unary(operator, operand) => {
            single_text(alloc, ready, request, operator, operand)
        }
        _ => Ok(None),
    }
}

// The value of a part in at most 60 characters, if it has one.
fn value_of(
    alloc: Global,
    ready: &Ready,
    request: &Request,
    part: &Expr,
) -> Result<Option<String>, AllocError> {
    let ended = part_outcome(alloc, ready, request, part)?;
    let text = match &ended {
        Some(Outcome::Value(value)) => value_text(alloc, value).map(Some),
        _ => Ok(None),
    };
    drop(ended);
    text
}

// An operator between the values of its operands.
fn pair_text(
    alloc: Global,
    ready: &Ready,
    request: &Request,
    left: &Expr,
    sign: Sign,
    right: &Expr,
) -> Result<Option<String>, AllocError> {
    let first = value_of(alloc, ready, request, left)?;
    let second = value_of(alloc, ready, request, right)?;
    let (Some(first), Some(second)) = (first, second) else {
        return Ok(None);
    };
    let mut text = Draft::from_text(first);
    text.add_all(&[sign.before, sign.name, sign.opening]);
    text.add(second.as_str());
    text.add(sign.after);
    text.done().map(Some)
}

// The `!` of a comparison, between the values of its operands.
fn negated_text(
    alloc: Global,
    ready: &Ready,
    request: &Request,
    comparison: &Expr,
) -> Result<Option<String>, AllocError> {
    match (comparison.kind(), negated_sign_of(comparison)) {
        (ExprKind::Binary(_, left, right), Some(sign)) => {
            pair_text(alloc, ready, request, left, sign, right)
        }
        _ => Ok(None),
    }
}

// An operator around the value of its operand; or which entity it is that is not stored.
fn single_text(
    alloc: Global,
    ready: &Ready,
    request: &Request,
    operator: &UnaryOperator,
    operand: &Expr,
) -> Result<Option<String>, AllocError> {
    if reads_attributes(operator) {
        if let Some(text) = unstored_text(alloc, ready, request, operand)? {
            return Ok(Some(text));
        }
        if matches!(operand.kind(), ExprKind::Variable(_)) {
            return Ok(None);
        }
    }
    let Some(value) = value_of(alloc, ready, request, operand)? else {
        return Ok(None);
    };
    let mut text = Draft::new(alloc);
    add_before(&mut text, operator);
    text.add(value.as_str());
    add_after(&mut text, operator);
    text.done().map(Some)
}

fn reads_attributes(operator: &UnaryOperator) -> bool {
    matches!(operator, UnaryOperator::Has(_) | UnaryOperator::Get(_))
}

// `U is not stored`, if the part is an entity that is not.
fn unstored_text(
    alloc: Global,
    ready: &Ready,
    request: &Request,
    part: &Expr,
) -> Result<Option<String>, AllocError> {
    let ended = part_outcome(alloc, ready, request, part)?;
    let text = match &ended {
        Some(Outcome::Value(value)) => unstored_value(alloc, ready, value),
        _ => Ok(None),
    };
    drop(ended);
    text
}

fn unstored_value(
    alloc: Global,
    ready: &Ready,
    value: &Value,
) -> Result<Option<String>, AllocError> {
    match value.glance() {
        Glance::Uid(uid) if !ready.store().has(uid) => {
            let mut text = Draft::new(alloc);
            text.add_made(uid_text(alloc, uid));
            text.add(" is not stored");
            text.done().map(Some)
        }
        _ => Ok(None),
    }
}
