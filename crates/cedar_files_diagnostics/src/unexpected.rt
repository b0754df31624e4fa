//! A token that the grammar does not allow: which one is wrong, what is expected in its place, and what is likely meant.
use crate::around::Around;
use crate::diagnostic_draft::DiagnosticDraft;
use crate::excerpt::first_of;
use crate::expected::Expected;
use crate::syntax_hint::{meant_by_name, meant_by_tokens};
use base_places::Draft;
use cedar_ext::Language;
use cedar_text::{Token, TokenKind};
use std::alloc::{AllocError, Global};

/// How many bytes of a token are shown at most.
const MOST: usize = 40;

// Adds a token between backquotes: its first line, up to 40 bytes.
fn add_token(says: &mut Draft, token: Token<'_>) {
    let line = token.text.lines().next().unwrap_or(token.text);
    let shown = first_of(line, MOST);
    says.add_char('`');
    says.add_shown(shown);
    if shown.len() < token.text.len() {
        says.add("..");
    }
    says.add_char('`');
}

// What the mark says of a token, or of the end of the text.
fn unexpected(
    alloc: Global,
    here: Option<Token<'_>>,
    expected: &Expected,
) -> Result<String, AllocError> {
    let mut says = Draft::new(alloc);
    match here {
        Some(token) => {
            says.add("unexpected ");
            add_token(&mut says, token);
        }
        None => says.add("unexpected end of input"),
    }
    expected.add_to(&mut says);
    says.done()
}

// What the mark says of a name that is not one of a variable.
fn unknown(alloc: Global, name: Token<'_>) -> Result<String, AllocError> {
    let mut says = Draft::new(alloc);
    says.add("unknown variable ");
    add_token(&mut says, name);
    says.done()
}

// The name before a place, if it is wrong and what follows it need not be: in an expression, a word that is not a variable can only begin
// a uid or a call.
fn lone_name<'t>(around: Around<'t>, expected: &Expected) -> Option<Token<'t>> {
    let name = around.before?;
    let is_alone = name.kind == TokenKind::Identifier
        && !around.is_second(TokenKind::DoubleColon)
        && !around.is_here(TokenKind::String)
        && expected.allows("::")
        && expected.allows("(")
        && !expected.allows("&&");
    is_alone.then_some(name)
}

/// Marks what is wrong at a place where the grammar of a language does not allow the token, and says what is expected there and what is likely meant.
///
/// # Errors
///
/// Fails only when out of memory.
pub(crate) fn mark_unexpected(
    alloc: Global,
    language: Language,
    diagnostic: &mut DiagnosticDraft,
    text: &str,
    around: Around<'_>,
    at: usize,
) -> Result<Option<&'static str>, AllocError> {
    let before = text.get(around.start..around.end()).unwrap_or("");
    let expected = Expected::after(alloc, language, before)?;
    let hint = match lone_name(around, &expected) {
        Some(name) => {
            diagnostic.mark_made(name.start(), name.start(), unknown(alloc, name));
            Some(meant_by_name(around, name.text))
        }
        None => {
            diagnostic.mark_made(at, at, unexpected(alloc, around.here, &expected));
            meant_by_tokens(around, &expected)
        }
    };
    drop(expected);
    Ok(hint)
}
