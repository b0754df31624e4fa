//! The parts of an expression, by their numbers.
ghost use Rattle.std.specs.Prelude.{◌≡◌, ◌≤◌, ℕ, None, option_copied, slice_get};
ghost use Rattle.cedar_ast_expressions.specs.Expression.{entries_of, expressions_of};
ghost use Rattle.cedar_check_diagnostics.specs.Looking.{denied_of};
ghost use Rattle.cedar_check_diagnostics.specs.Paths.{guard_of, members_of, one_of_three, one_of_two, only_one, part_of, values_of};

use cedar_ast_expressions::{Expr, ExprKind};
use cedar_value::SharedText;
use std::alloc::{AllocError, Global};

// The one part.
fn only_one(operand: &Expr, number: usize) -> Option<&Expr>
    ensures { option_copied result ≡ only_one operand.now number }
{
    if number == 0 { Some(operand) } else { None }
}

// One of two parts.
fn one_of_two<'e>(left: &'e Expr, right: &'e Expr, number: usize) -> Option<&'e Expr>
    ensures { option_copied result ≡ one_of_two left.now right.now number }
{
    if number == 0 {
        Some(left)
    } else if number == 1 {
        Some(right)
    } else {
        None
    }
}

// One of the parts of an `if`.
fn one_of_three<'e>(
    condition: &'e Expr,
    first: &'e Expr,
    second: &'e Expr,
    number: usize,
) -> Option<&'e Expr>
    ensures { option_copied result ≡ one_of_three condition.now first.now second.now number }
{
    if number == 0 {
        Some(condition)
    } else if number == 1 {
        Some(first)
    } else if number == 2 {
        Some(second)
    } else {
        None
    }
}

// The expression of this number, from 0.
fn nth_member(members: &[Expr], number: usize) -> Option<&Expr>
    ensures { option_copied result ≡ slice_get members.now number }
{
    members.get(number)
}

// The pair of this number, from 0.
fn nth_pair(pairs: &[(SharedText, Expr)], number: usize) -> Option<&(SharedText, Expr)>
    ensures { option_copied result ≡ slice_get pairs.now number }
{
    pairs.get(number)
}

// A member of a set.
fn member_at(members: &[Expr], number: usize) -> Option<&Expr>
    ensures { option_copied result ≡ slice_get (members_of (expressions_of members.now)) number }
{
    nth_member(members, number)
}

// The value of an entry of a record.
fn value_at(pairs: &[(SharedText, Expr)], number: usize) -> Option<&Expr>
    ensures { option_copied result ≡ slice_get (values_of (entries_of pairs.now)) number }
{
    match nth_pair(pairs, number) {
        Some(pair) => Some(&pair.1),
        None => None,
    }
}

/// The part of this number, if there is one. Takes no memory.
pub(crate) fn part_of(expression: &Expr, number: usize) -> Option<&Expr>
    ensures { option_copied result ≡ part_of expression.now number }
{
    match expression.kind() {
        ExprKind::Literal(_) => None,
        ExprKind::Variable(_) => None,
        ExprKind::And(left, right) => one_of_two(left, right, number),
        ExprKind::Or(left, right) => one_of_two(left, right, number),
        ExprKind::If(condition, first, second) => one_of_three(condition, first, second, number),
        ExprKind::Unary(_, operand) => only_one(operand, number),
        ExprKind::Binary(_, left, right) => one_of_two(left, right, number),
        ExprKind::Set(members) => member_at(members, number),
        ExprKind::Record(entries) => value_at(entries.pairs(), number),
    }
}

/// The part that is true wherever the part of this number is evaluated. Takes no memory.
pub(crate) fn guard_of(expression: &Expr, number: usize) -> Option<&Expr>
    ensures { option_copied result ≡ guard_of expression.now number }
{
    match expression.kind() {
        ExprKind::And(left, _) => { if number == 1 { Some(left) } else { None } }
        ExprKind::If(condition, _, _) => { if number == 1 { Some(condition) } else { None } }
        _ => None,
    }
}

/// The part that is false wherever the part of this number is evaluated. Takes no memory.
pub(crate) fn denied_of(expression: &Expr, number: usize) -> Option<&Expr>
    ensures { option_copied result ≡ denied_of expression.now number }
{
    match expression.kind() {
        ExprKind::Or(left, _) => { if number == 1 { Some(left) } else { None } }
        ExprKind::If(condition, _, _) => { if number == 2 { Some(condition) } else { None } }
        _ => None,
    }
}

// How many members a set has.
fn member_count(members: &[Expr]) -> usize
    ensures { (n : ℕ) → result ≤ n → slice_get (members_of (expressions_of members.now)) n ≡ None }
{
    members.len()
}

// How many entries a record has.
fn entry_count(pairs: &[(SharedText, Expr)]) -> usize
    ensures { (n : ℕ) → result ≤ n → slice_get (values_of (entries_of pairs.now)) n ≡ None }
{
    pairs.len()
}

/// How many parts an expression has. Takes no memory.
pub(crate) fn count_of(expression: &Expr) -> usize
    ensures { (n : ℕ) → result ≤ n → part_of expression.now n ≡ None }
{
    match expression.kind() {
        ExprKind::Literal(_) => 0,
        ExprKind::Variable(_) => 0,
        ExprKind::And(_, _) => 2,
        ExprKind::Or(_, _) => 2,
        ExprKind::If(_, _, _) => 3,
        ExprKind::Unary(_, _) => 1,
        ExprKind::Binary(_, _, _) => 2,
        ExprKind::Set(members) => member_count(members),
        ExprKind::Record(entries) => entry_count(entries.pairs()),
    }
}

/// The expressions around the part at a path, from the condition to the one that the part is a part of.
pub(crate) fn around<'a>(
    alloc: Global,
    condition: &'a Expr,
    path: &[usize],
) -> Result<Vec<&'a Expr>, AllocError> {
    let mut above = Vec::new(alloc);
    let mut expression = condition;
    for number in path {
        above.push(expression)?;
        match part_of(expression, *number) {
            Some(part) => expression = part,
            None => return Ok(above),
        }
    }
    Ok(above)
}
