//! Types that have no type in common.
use crate::spot::Spot;
use crate::type_words::{Kind, entity_of, kind_of, written_as};
use crate::words::Words;
use base_places::Draft;
use cedar_ast_expressions::{BinaryOperator, Expr, ExprKind};
use cedar_check_operators::{LentType, join_types};
use std::alloc::AllocError;

/// What is said of operands, branches or members that have no type in common.
pub(crate) fn joined_words(spot: Spot<'_>, words: &mut Words) -> Result<(), AllocError> {
    match spot.part.kind() {
        ExprKind::If(_, _, _) => {
            words.says.add("the two branches have different types");
            of_two(spot, words, 1, 2)
        }
        ExprKind::Set(members) => {
            words.says.add("the members have different types");
            of_members(spot, words, members)
        }
        ExprKind::Binary(operator, _, _) => {
            words.says.add(says_of(*operator));
            of_two(spot, words, 0, 1)
        }
        _ => {
            words.says.add("the types differ");
            Ok(())
        }
    }
}

// What is said of an operator on two operands.
fn says_of(operator: BinaryOperator) -> &'static str {
    match operator {
        BinaryOperator::Contains => "the members of the set have a different type",
        BinaryOperator::ContainsAll | BinaryOperator::ContainsAny => {
            "the two sets have members of different types"
        }
        _ => "cannot compare values of different types",
    }
}

// Adds two operands, given by their numbers, and what to do about their types.
fn of_two(spot: Spot<'_>, words: &mut Words, one: usize, two: usize) -> Result<(), AllocError> {
    if let Some((left, right)) = spot.add_operands(words, one, two)? {
        advise(words, &left, &right);
    }
    Ok(())
}

// Adds the first member of a set and the first one that does not join with those before it.
fn of_members(spot: Spot<'_>, words: &mut Words, members: &[Expr]) -> Result<(), AllocError> {
    let Some(first) = spot.part_type(0)? else {
        return Ok(());
    };
    let mut joined = first;
    for number in 1..members.len() {
        let Some(ty) = spot.part_type(number)? else {
            return Ok(());
        };
        match join_types(spot.alloc(), &joined, &ty)? {
            Some(both) => joined = both,
            None => return of_two(spot, words, 0, number),
        }
    }
    Ok(())
}

// Adds what to do about two types that do not join, where one thing is likely.
fn advise(words: &mut Words, left: &LentType<'_>, right: &LentType<'_>) {
    let one = kind_of(left);
    let two = kind_of(right);
    if one == Kind::Record && two == Kind::Record {
        words.note.add("two records must have the same attributes, each with the same type");
    } else if one == Kind::Entity && two == Kind::String {
        add_entity(&mut words.hint, left);
    } else if one == Kind::String && two == Kind::Entity {
        add_entity(&mut words.hint, right);
    } else if let Some(advice) = meant_for(one, two) {
        words.hint.add(advice);
    }
}

// How a value is written that was likely meant by a number or a string, since the other kind is that of such values.
fn meant_for(one: Kind, two: Kind) -> Option<&'static str> {
    match (one, two) {
        (Kind::Long | Kind::String, Kind::Extension(ty)) => Some(written_as(ty)),
        (Kind::Extension(ty), Kind::Long | Kind::String) => Some(written_as(ty)),
        _ => None,
    }
}

// Adds how an entity of a type is written.
fn add_entity(hint: &mut Draft, ty: &LentType<'_>) {
    if let Some(name) = entity_of(ty) {
        hint.add_all(&["write an entity as `", name.as_str(), "::\"id\"`"]);
    }
}
