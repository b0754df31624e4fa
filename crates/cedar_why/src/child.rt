//! The parts of a part.
use cedar_ast_expressions::{Expr, ExprKind};

/// How many parts a part has.
pub fn child_count(part: &Expr) -> usize {
    match part.kind() {
        ExprKind::Literal(_) | ExprKind::Variable(_) => 0,
        ExprKind::Unary(_, _) => 1,
        ExprKind::And(_, _) | ExprKind::Or(_, _) | ExprKind::Binary(_, _, _) => 2,
        ExprKind::If(_, _, _) => 3,
        ExprKind::Set(members) => members.len(),
        ExprKind::Record(entries) => entries.pairs().len(),
    }
}

/// The part of a part at a position, from 0, if it has so many: the sides of an operator from left to right, the condition of an
/// `if` before its branches, the members of a set, and the values of a record.
pub fn child_at(part: &Expr, index: usize) -> Option<&Expr> {
    match part.kind() {
        ExprKind::Literal(_) | ExprKind::Variable(_) => None,
        ExprKind::Unary(_, operand) => only(operand, index),
        ExprKind::And(left, right) | ExprKind::Or(left, right) => one_of(left, right, index),
        ExprKind::Binary(_, left, right) => one_of(left, right, index),
        ExprKind::If(condition, first, second) => match index.checked_sub(1) {
            Some(branch) => one_of(first, second, branch),
            None => only(condition, 0),
        },
        ExprKind::Set(members) => members.get(index),
        ExprKind::Record(entries) => {
            let pair = entries.pairs().get(index)?;
            Some(&pair.1)
        }
    }
}

// The one part, if it is asked for.
fn only(part: &Expr, index: usize) -> Option<&Expr> {
    if index == 0 { Some(part) } else { None }
}

// One of two parts.
fn one_of<'e>(left: &'e Expr, right: &'e Expr, index: usize) -> Option<&'e Expr> {
    match index {
        0 => Some(left),
        1 => Some(right),
        _ => None,
    }
}
