//! The tokens of the parts of a scope.
use crate::stretch::{Marked, Stretch};
use crate::token_list::TokenList;
use cedar_ast::{ActionScope, EntityScope};
use cedar_parser_tokens::WrittenUid;
use cedar_parser_tree::{WrittenActionScope, WrittenEntityScope};
use cedar_text::TokenKind;

/// The tokens of the three parts of a scope, each from its variable on.
#[derive(Clone, Copy)]
pub struct ScopeTokens {
    /// What is required of the principal.
    pub principal: Stretch,
    /// What is required of the action.
    pub action: Stretch,
    /// What is required of the resource.
    pub resource: Stretch,
}

/// The tokens of the scope that the bracket at a position opens. A scope has no round brackets inside, and no commas but those
/// between its parts and between the actions of a list.
pub fn scope_tokens(tokens: &TokenList<'_>, open: usize) -> Option<ScopeTokens> {
    let first = open.checked_add(1)?;
    let close = tokens.find_from(TokenKind::RightParen, first)?;
    let comma = tokens.find_from(TokenKind::Comma, first)?;
    let last_comma = tokens.find_last(TokenKind::Comma, first, close)?;
    Some(ScopeTokens {
        principal: between(open, comma)?,
        action: between(comma, last_comma)?,
        resource: between(last_comma, close)?,
    })
}

// The tokens between two others.
fn between(before: usize, after: usize) -> Option<Stretch> {
    Some(Stretch {
        first: before.checked_add(1)?,
        last: after.checked_sub(1)?,
    })
}

/// The tokens of the part at a path of what a scope requires of the principal or the resource.
pub fn marked_in_entity_scope(
    tokens: &TokenList<'_>,
    scope: &WrittenEntityScope,
    written: Stretch,
    path: &[usize],
) -> Option<Marked> {
    match scope {
        EntityScope::Any => marked_any(written, path),
        EntityScope::Equal(_) => marked_comparison(written, path),
        EntityScope::In(_) => marked_comparison(written, path),
        EntityScope::Is(_) => marked_is(written, path),
        EntityScope::IsIn(_, _) => marked_is_in(tokens, written, path),
    }
}

/// The tokens of the part at a path of what a scope requires of the action.
pub fn marked_in_action_scope(
    tokens: &TokenList<'_>,
    scope: &WrittenActionScope,
    written: Stretch,
    path: &[usize],
) -> Option<Marked> {
    match scope {
        ActionScope::Any => marked_any(written, path),
        ActionScope::Equal(_) => marked_comparison(written, path),
        ActionScope::In(_) => marked_comparison(written, path),
        ActionScope::InSet(uids) => marked_in_list(tokens, uids.as_slice(), written, path),
    }
}

// A variable alone, which means `true`.
fn marked_any(written: Stretch, path: &[usize]) -> Option<Marked> {
    match path {
        [] => Some(Marked::nameless(written)),
        _ => None,
    }
}

// A variable, a sign, and a uid, a slot or a list.
fn marked_comparison(written: Stretch, path: &[usize]) -> Option<Marked> {
    match path {
        [] => Some(Marked {
            whole: written,
            name: Stretch::one(written.first.saturating_add(1)),
        }),
        [0] => Some(variable_of(written)),
        [1] => Some(Marked::nameless(after_sign(written))),
        _ => None,
    }
}

// A variable, `is`, and a type.
fn marked_is(written: Stretch, path: &[usize]) -> Option<Marked> {
    match path {
        [] => Some(Marked {
            whole: written,
            name: after_sign(written),
        }),
        [0] => Some(variable_of(written)),
        _ => None,
    }
}

fn variable_of(written: Stretch) -> Marked {
    Marked::nameless(Stretch::one(written.first))
}

// What comes after a variable and a sign.
fn after_sign(written: Stretch) -> Stretch {
    Stretch {
        first: written.first.saturating_add(2),
        last: written.last,
    }
}

// `x is T in e` is `x is T && x in e`.
fn marked_is_in(tokens: &TokenList<'_>, written: Stretch, path: &[usize]) -> Option<Marked> {
    let ty = tokens.path(after_sign(written).first);
    let typed = Stretch {
        first: written.first,
        last: ty.last,
    };
    let within = Stretch {
        first: ty.last,
        last: written.last,
    };
    match path {
        [] => Some(Marked::nameless(written)),
        [0, rest @ ..] => marked_is(typed, rest),
        [1] => Some(Marked {
            whole: written,
            name: Stretch::one(ty.last.saturating_add(1)),
        }),
        [1, 0] => Some(variable_of(written)),
        [1, 1] => Some(Marked::nameless(after_sign(within))),
        _ => None,
    }
}

// `action in [..]`.
fn marked_in_list(
    tokens: &TokenList<'_>,
    uids: &[WrittenUid],
    written: Stretch,
    path: &[usize],
) -> Option<Marked> {
    match path {
        [1, number] => Some(Marked::nameless(listed(tokens, uids, written, *number)?)),
        _ => marked_comparison(written, path),
    }
}

// The action at a position in a list. It ends with its id. The first one begins after the bracket, and each other one after the comma
// that follows the id of the one before.
fn listed(
    tokens: &TokenList<'_>,
    uids: &[WrittenUid],
    written: Stretch,
    number: usize,
) -> Option<Stretch> {
    let last = id_position(tokens, uids, number)?;
    let first = match number.checked_sub(1) {
        Some(earlier) => id_position(tokens, uids, earlier)?.checked_add(2)?,
        None => written.first.checked_add(3)?,
    };
    Some(Stretch { first, last })
}

// The position of the id of the action at a position in a list.
fn id_position(tokens: &TokenList<'_>, uids: &[WrittenUid], number: usize) -> Option<usize> {
    tokens.position(uids.get(number)?.id.place())
}
