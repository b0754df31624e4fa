//! Parts of conditions, as policies write them.
use crate::piece::{Piece, written};
use crate::sign::{CHOICE, MEMBER, Sign, UNARY, is_comparison, negated_sign_of, sign_of_part};
use crate::unary_text::{add_before, level_of_operand, level_of_unary};
use crate::value_text::MOST_MEMBERS;
use base_places::{Draft, DraftList};
use cedar_ast_expressions::{Expr, ExprKind, UnaryOperator, Variable};
use cedar_value::SharedText;
use std::alloc::{AllocError, Global};

/// A part in at most 60 characters.
pub fn part_text(alloc: Global, part: &Expr) -> Result<String, AllocError> {
    written(alloc, Piece::Part(part, CHOICE))
}

fn variable_name(variable: Variable) -> &'static str {
    match variable {
        Variable::Principal => "principal",
        Variable::Action => "action",
        Variable::Resource => "resource",
        Variable::Context => "context",
    }
}

// How close the sides of a part belong together.
fn level_of(part: &Expr) -> u8 {
    match part.kind() {
        ExprKind::And(_, _) | ExprKind::Or(_, _) | ExprKind::Binary(_, _, _) => {
            sign_of_part(part).level
        }
        ExprKind::If(_, _, _) => CHOICE,
        ExprKind::Unary(UnaryOperator::Not, operand) => match negated_sign_of(operand) {
            Some(sign) => sign.level,
            None => UNARY,
        },
        ExprKind::Unary(operator, _) => level_of_unary(operator),
        _ => MEMBER,
    }
}

/// Adds the beginning of a part, in brackets if its sides belong less close together than asked. The rest of it is put before the
/// rest.
pub fn write_part<'e>(
    text: &mut Draft,
    rest: &mut DraftList<Piece<'e>>,
    part: &'e Expr,
    least: u8,
) {
    if level_of(part) < least {
        text.add_char('(');
        rest.add(Piece::Text(")"));
    }
    match part.kind() {
        ExprKind::Literal(value) => rest.add(Piece::Value(value)),
        ExprKind::Variable(variable) => text.add(variable_name(*variable)),
        ExprKind::And(left, right) | ExprKind::Or(left, right) | ExprKind::Binary(_, left, right) =>
            { write_pair(rest, left, sign_of_part(part), right) }
        ExprKind::If(condition, first, second) => write_choice(rest, condition, first, second),
        ExprKind::Unary(UnaryOperator::Not, operand) if is_comparison(operand) => {
            write_negated(rest, operand)
        }
        ExprKind::Unary(operator, operand) => {
            add_before(text, operator);
            rest.add(Piece::After(operator));
            rest.add(Piece::Part(operand, level_of_operand(operator)));
        }
        ExprKind::Set(members) => write_members(text, rest, members),
        ExprKind::Record(entries) => write_entries(text, rest, entries.pairs()),
    }
}

// Two sides with a sign.
fn write_pair<'e>(rest: &mut DraftList<Piece<'e>>, left: &'e Expr, sign: Sign, right: &'e Expr) {
    rest.add(Piece::Text(sign.after));
    rest.add(Piece::Part(right, sign.right));
    rest.add(Piece::Text(sign.opening));
    rest.add(Piece::Text(sign.name));
    rest.add(Piece::Text(sign.before));
    rest.add(Piece::Part(left, sign.left));
}

// The `!` of a comparison, as one comparison.
fn write_negated<'e>(rest: &mut DraftList<Piece<'e>>, comparison: &'e Expr) {
    match (comparison.kind(), negated_sign_of(comparison)) {
        (ExprKind::Binary(_, left, right), Some(sign)) => write_pair(rest, left, sign, right),
        _ => {}
    }
}

fn write_choice<'e>(
    rest: &mut DraftList<Piece<'e>>,
    condition: &'e Expr,
    first: &'e Expr,
    second: &'e Expr,
) {
    rest.add(Piece::Part(second, CHOICE));
    rest.add(Piece::Text(" else "));
    rest.add(Piece::Part(first, CHOICE));
    rest.add(Piece::Text(" then "));
    rest.add(Piece::Part(condition, CHOICE));
    rest.add(Piece::Text("if "));
}

// The members of a set, in brackets.
fn write_members<'e>(text: &mut Draft, rest: &mut DraftList<Piece<'e>>, members: &'e [Expr]) {
    text.add_char('[');
    rest.add(Piece::Text("]"));
    for place in (0..members.len().min(MOST_MEMBERS)).rev() {
        if let Some(member) = members.get(place) {
            rest.add(Piece::Part(member, CHOICE));
        }
        if place > 0 {
            rest.add(Piece::Text(", "));
        }
    }
}

// The entries of a record, in braces.
fn write_entries<'e>(
    text: &mut Draft,
    rest: &mut DraftList<Piece<'e>>,
    pairs: &'e [(SharedText, Expr)],
) {
    text.add_char('{');
    rest.add(Piece::Text("}"));
    for place in (0..pairs.len().min(MOST_MEMBERS)).rev() {
        if let Some(pair) = pairs.get(place) {
            rest.add(Piece::Part(&pair.1, CHOICE));
            rest.add(Piece::Text(": "));
            rest.add(Piece::Key(pair.0.as_str()));
        }
        if place > 0 {
            rest.add(Piece::Text(", "));
        }
    }
}
