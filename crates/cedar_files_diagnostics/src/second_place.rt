//! The place that explains a fault at another place: an open bracket, a missing `;`, a string over several lines.
use crate::again::tokens_again;
use cedar_parser_places::StatementPlaces;
use cedar_parser_tokens::ParseFault;
use cedar_text::{TextFault, Token, TokenKind};
use std::alloc::{AllocError, Global};

/// A place of a text, in bytes from 0, and what it is.
#[derive(Clone, Copy, Debug, PartialEq, Eq)]
pub struct SecondPlace {
    /// Where it is.
    pub at: usize,
    /// What its mark says.
    pub says: &'static str,
}

/// The place that explains a fault, if there is one. That of a token that is not allowed is given by [`before_unexpected`].
pub fn second_place(
    alloc: Global,
    text: &str,
    fault: ParseFault,
) -> Result<Option<SecondPlace>, AllocError> {
    match fault {
        ParseFault::Text(TextFault::UnclosedString(at)) => {
            let found = tokens_again(alloc, text.get(..at).unwrap_or(""))?;
            Ok(long_string(&found))
        }
        ParseFault::DuplicateId(at) => {
            let statements = StatementPlaces::of(alloc, text)?;
            let first = statements.first_of_id(at);
            drop(statements);
            Ok(first.map(|at| SecondPlace {
                at,
                says: "the first statement with this id begins here",
            }))
        }
        _ => Ok(None),
    }
}

// The first string that goes on over the end of a line: after a missing `"` the quotes are taken in the wrong pairs.
fn long_string(found: &[Token<'_>]) -> Option<SecondPlace> {
    let long = found.iter().find(|token| token.kind == TokenKind::String
        && token.text.contains('\n'))?;
    Some(SecondPlace {
        at: long.start(),
        says: "this string continues on the next line: is its `\"` missing?",
    })
}

fn is_open(kind: TokenKind) -> bool {
    matches!(
        kind,
        TokenKind::LeftParen | TokenKind::LeftBrace | TokenKind::LeftBracket
    )
}

fn is_close(kind: TokenKind) -> bool {
    matches!(
        kind,
        TokenKind::RightParen | TokenKind::RightBrace | TokenKind::RightBracket
    )
}

/// What explains the token at a place, of the tokens of a text in which it is not allowed.
pub fn before_unexpected(
    alloc: Global,
    found: &[Token<'_>],
    at: usize,
) -> Result<Option<SecondPlace>, AllocError> {
    let mut open: Vec<Token<'_>> = Vec::new(alloc);
    let mut end = None;
    let mut next = None;
    for token in found {
        if token.start() >= at {
            next = Some(*token);
            break;
        }
        if is_open(token.kind) {
            open.push(*token)?;
        }
        if is_close(token.kind) {
            open.pop();
        }
        end = is_close(token.kind).then_some(token.end());
    }
    Ok(explained(open.last().copied(), end, next))
}

// The bracket that is open, or the end of a statement that lacks its `;`.
fn explained(
    open: Option<Token<'_>>,
    end: Option<usize>,
    next: Option<Token<'_>>,
) -> Option<SecondPlace> {
    match open {
        Some(bracket) if next.is_none_or(|token| leaves_open(bracket.kind, token.kind)) => Some(
            SecondPlace {
                at: bracket.start(),
                says: "this bracket is still open",
            },
        ),
        None if next.is_none_or(begins_statement) => Some(SecondPlace {
            at: end?,
            says: "a `;` is missing here",
        }),
        _ => None,
    }
}

// Whether a token shows that a bracket has not been closed: a closing bracket of another kind, or the end of a statement.
fn leaves_open(bracket: TokenKind, next: TokenKind) -> bool {
    match next {
        TokenKind::RightParen => bracket != TokenKind::LeftParen,
        TokenKind::RightBrace => bracket != TokenKind::LeftBrace,
        TokenKind::RightBracket => bracket != TokenKind::LeftBracket,
        TokenKind::Semicolon => true,
        _ => false,
    }
}

// Whether a statement may begin with a token.
fn begins_statement(token: Token<'_>) -> bool {
    token.kind == TokenKind::At || token.text == "permit" || token.text == "forbid"
}
