//! Which side of a part decides how it ends.
use crate::child::{child_at, child_count};
use crate::ending::Ending;
use crate::evaluation::part_ending;
use crate::sign::is_comparison;
use cedar_ast_expressions::{Expr, ExprKind, UnaryOperator};
use cedar_auth::Ready;
use cedar_value::Request;
use std::alloc::{AllocError, Global};

/// A side that decides how a part ends.
#[derive(Clone, Copy)]
pub struct Side {
    /// Its position among the sides, from 0.
    pub index: usize,
    /// How it ends itself.
    pub ending: Ending,
}

/// The side that decides how a part ends; or none if no side does it alone.
pub fn side_of(
    alloc: Global,
    ready: &Ready,
    request: &Request,
    part: &Expr,
    ending: Ending,
) -> Result<Option<Side>, AllocError> {
    match part.kind() {
        ExprKind::And(left, _) => of_two(alloc, ready, request, left, Ending::Holds, ending),
        ExprKind::Or(left, _) => of_two(alloc, ready, request, left, Ending::Fails, ending),
        ExprKind::If(condition, _, _) => of_choice(alloc, ready, request, condition, ending),
        ExprKind::Unary(UnaryOperator::Not, operand) => match opposite(ending) {
            Some(ending) => Ok(of_negation(operand, ending)),
            None => of_erring(alloc, ready, request, part),
        },
        _ => match ending {
            Ending::Errs(_) => of_erring(alloc, ready, request, part),
            _ => Ok(None),
        },
    }
}

// The side of `&&` or `||`: the left one, unless it ends in the way that leaves the decision to the right one.
fn of_two(
    alloc: Global,
    ready: &Ready,
    request: &Request,
    left: &Expr,
    passes: Ending,
    ending: Ending,
) -> Result<Option<Side>, AllocError> {
    match part_ending(alloc, ready, request, left)? {
        Some(first) if first == passes => Ok(Some(Side { index: 1, ending })),
        Some(first) => Ok(Some(Side {
            index: 0,
            ending: first,
        })),
        None => Ok(None),
    }
}

// The branch of `if` that is taken, or the condition that errs.
fn of_choice(
    alloc: Global,
    ready: &Ready,
    request: &Request,
    condition: &Expr,
    ending: Ending,
) -> Result<Option<Side>, AllocError> {
    match part_ending(alloc, ready, request, condition)? {
        Some(Ending::Holds) => Ok(Some(Side { index: 1, ending })),
        Some(Ending::Fails) => Ok(Some(Side { index: 2, ending })),
        Some(other) => Ok(Some(Side {
            index: 0,
            ending: other,
        })),
        None => Ok(None),
    }
}

// The ending of what a `!` is written before.
fn opposite(ending: Ending) -> Option<Ending> {
    match ending {
        Ending::Holds => Some(Ending::Fails),
        Ending::Fails => Some(Ending::Holds),
        Ending::Errs(_) | Ending::Other => None,
    }
}

// The operand of a `!`; or none if the two are one comparison, such as `>`.
fn of_negation(operand: &Expr, ending: Ending) -> Option<Side> {
    if is_comparison(operand) {
        return None;
    }
    Some(Side { index: 0, ending })
}

// The first side that errs.
fn of_erring(
    alloc: Global,
    ready: &Ready,
    request: &Request,
    part: &Expr,
) -> Result<Option<Side>, AllocError> {
    for index in 0..child_count(part) {
        let Some(side) = child_at(part, index) else {
            return Ok(None);
        };
        if let Some(Ending::Errs(error)) = part_ending(alloc, ready, request, side)? {
            let ending = Ending::Errs(error);
            return Ok(Some(Side { index, ending }));
        }
    }
    Ok(None)
}
