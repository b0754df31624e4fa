//! From a path to a place in the text of a statement.
use crate::clause::Clause;
use crate::expression::{first_token, last_token, marked_in_expression};
use crate::extent::PartPlace;
use crate::led::{is_joined, led_into};
use crate::scope::{ScopeTokens, marked_in_action_scope, marked_in_entity_scope, scope_tokens};
use crate::statement::first_statement;
use crate::stretch::{Marked, Stretch};
use crate::token_list::TokenList;
use cedar_ast::ConditionKind;
use cedar_parser_tree::{Written, WrittenCondition, WrittenScope, WrittenStatement};
use cedar_text::{TextFault, TokenKind, normal_tokens, tokens};
use std::alloc::{AllocError, Global};

/// How many tokens an annotation has: `@`, a word, and a string in brackets.
const ANNOTATION: usize = 5;

/// Where the part at a path is written of the condition of the statement with which a text begins; or none if the text has no such
/// statement or part.
pub fn place_in_statement(
    alloc: Global,
    text: &str,
    path: &[usize],
) -> Result<Option<PartPlace>, AllocError> {
    let Some(statement) = first_statement(alloc, text)? else {
        return Ok(None);
    };
    let place = place_of_statement(alloc, text, &statement, path);
    drop(statement);
    place
}

/// Which clause a path leads into of the statement with which a text begins; or none if the text has no such statement, or the path
/// ends above its clauses.
pub fn clause_in_statement(
    alloc: Global,
    text: &str,
    path: &[usize],
) -> Result<Option<Clause>, AllocError> {
    let Some(statement) = first_statement(alloc, text)? else {
        return Ok(None);
    };
    let conditions = statement.conditions.len();
    drop(statement);
    match led_into(conditions, path) {
        Some((clause, _)) => Ok(Some(clause)),
        None => Ok(None),
    }
}

fn place_of_statement(
    alloc: Global,
    text: &str,
    statement: &WrittenStatement,
    path: &[usize],
) -> Result<Option<PartPlace>, AllocError> {
    match tokens(alloc, text) {
        Ok(written) => {
            let normal = normal_tokens(alloc, &written)?;
            Ok(place_among(&TokenList::new(&normal), statement, path))
        }
        Err(TextFault::OutOfMemory) => Err(AllocError),
        Err(_) => Ok(None),
    }
}

fn place_among(
    tokens: &TokenList<'_>,
    statement: &WrittenStatement,
    path: &[usize],
) -> Option<PartPlace> {
    tokens.place_of(marked_in_statement(tokens, statement, path)?)
}

// The tokens of the part of a statement's condition at a path.
fn marked_in_statement(
    tokens: &TokenList<'_>,
    statement: &WrittenStatement,
    path: &[usize],
) -> Option<Marked> {
    let conditions = &statement.conditions;
    let effect = effect_position(tokens, statement)?;
    match led_into(conditions.len(), path) {
        Some((Clause::Condition(position), rest)) => {
            marked_in_condition(tokens, conditions.get(position)?, rest)
        }
        Some((clause, rest)) => {
            let written = scope_tokens(tokens, effect.checked_add(1)?)?;
            marked_in_scope(tokens, &statement.scope, written, clause, rest)
        }
        None => marked_above(tokens, conditions.len(), effect, path),
    }
}

// The position of `permit` or `forbid`.
fn effect_position(tokens: &TokenList<'_>, statement: &WrittenStatement) -> Option<usize> {
    let annotations = statement.annotations.len().checked_mul(ANNOTATION)?;
    tokens.position(statement.start)?.checked_add(annotations)
}

// The statement from its effect to its `;`, where a path ends above its clauses.
fn marked_above(
    tokens: &TokenList<'_>,
    conditions: usize,
    effect: usize,
    path: &[usize],
) -> Option<Marked> {
    if !is_joined(conditions, path) {
        return None;
    }
    let whole = Stretch {
        first: effect,
        last: tokens.find_from(TokenKind::Semicolon, effect)?,
    };
    let name = Stretch::one(effect);
    Some(Marked { whole, name })
}

fn marked_in_scope(
    tokens: &TokenList<'_>,
    scope: &WrittenScope,
    written: ScopeTokens,
    clause: Clause,
    path: &[usize],
) -> Option<Marked> {
    match clause {
        Clause::Principal => {
            marked_in_entity_scope(tokens, &scope.principal, written.principal, path)
        }
        Clause::Action => marked_in_action_scope(tokens, &scope.action, written.action, path),
        Clause::Resource => marked_in_entity_scope(tokens, &scope.resource, written.resource, path),
        Clause::Condition(_) => None,
    }
}

// `unless { e }` is `!e`.
fn marked_in_condition(
    tokens: &TokenList<'_>,
    condition: &WrittenCondition,
    path: &[usize],
) -> Option<Marked> {
    match condition.kind {
        ConditionKind::When => marked_in_expression(tokens, &condition.body, path),
        ConditionKind::Unless => match path {
            [] => marked_unless(tokens, &condition.body),
            [0, rest @ ..] => marked_in_expression(tokens, &condition.body, rest),
            _ => None,
        },
    }
}

// An `unless` with its braces.
fn marked_unless(tokens: &TokenList<'_>, body: &Written) -> Option<Marked> {
    let word = first_token(tokens, body)?.checked_sub(2)?;
    let whole = Stretch {
        first: word,
        last: last_token(tokens, body)?.checked_add(1)?,
    };
    let name = Stretch::one(word);
    Some(Marked { whole, name })
}
