//! The spellings that Cedar 4 has beside those of the profile.

ghost use Rattle.std.specs.Prelude.{◌≡◌, ◌++◌, IfOk, OnOk};
ghost use Rattle.cedar_text.specs.Lexeme.{lexeme, lexemes};
ghost use Rattle.cedar_text.specs.Normal as spec;
ghost use Rattle.cedar_text.specs.Private.NormalWalk.{GoesOn};

use crate::token::Token;
use crate::token_kind::TokenKind;
use std::alloc::{AllocError, Global};

/// What comes right before a token, as far as the token's spelling depends on it.
#[derive(Clone, Copy, PartialEq, Eq)]
pub(crate) enum Before {
    /// The sign `@`.
    Sign,
    /// The key of an annotation.
    Key,
    /// `.` or `has`.
    Access,
    /// An identifier.
    Word,
    /// The last token of an operand, if that is not an identifier.
    Operand,
    /// Any other token, or none.
    Other,
}

/// What is before a token that comes after one of this kind.
fn after(before: Before, kind: TokenKind) -> Before
    ensures { result ≡ spec.after before kind }
{
    if before == Before::Sign {
        return Before::Key;
    }
    match kind {
        TokenKind::At => Before::Sign,
        TokenKind::Dot | TokenKind::Has => Before::Access,
        TokenKind::Identifier => Before::Word,
        TokenKind::True
        | TokenKind::False
        | TokenKind::Number
        | TokenKind::String
        | TokenKind::Slot
        | TokenKind::RightParen
        | TokenKind::RightBracket
        | TokenKind::RightBrace => Before::Operand,
        _ => Before::Other,
    }
}

/// Whether an operand, or an item of a list, may end before the token.
fn ends_item(before: Before) -> bool
    ensures { result ≡ spec.ends_item before }
{
    matches!(before, Before::Word | Before::Operand)
}

fn is_reserved(kind: TokenKind) -> bool
    ensures { result ≡ spec.is_reserved kind }
{
    matches!(
        kind,
        TokenKind::True
            | TokenKind::False
            | TokenKind::If
            | TokenKind::Then
            | TokenKind::Else
            | TokenKind::In
            | TokenKind::Is
            | TokenKind::Like
            | TokenKind::Has
    )
}

fn is_closing(next: Option<TokenKind>) -> bool
    ensures { result ≡ spec.is_closing next }
{
    matches!(
        next,
        Some(TokenKind::RightParen | TokenKind::RightBracket | TokenKind::RightBrace)
    )
}

/// The kind of a token: a reserved word is an identifier where it is a key of a record, or the name of an attribute.
fn normal_kind(before: Before, kind: TokenKind, next: Option<TokenKind>) -> TokenKind
    ensures { result ≡ spec.normal_kind before kind next }
{
    let is_key = before == Before::Other && next == Some(TokenKind::Colon);
    let is_attribute = before == Before::Access && next != Some(TokenKind::LeftParen);
    if is_reserved(kind) && (is_key || is_attribute) {
        TokenKind::Identifier
    } else {
        kind
    }
}

/// Adds the tokens of `("")`, at a place.
fn push_empty_value(found: &mut Vec<Token<'_>>, start: u32) -> Result<(), AllocError>
    ensures { OnOk result (lexemes found.new.items ≡ lexemes found.old.items ++ spec.empty_value start) }
{
    found.push(Token {
        kind: TokenKind::LeftParen,
        start,
        text: "(",
    })?;
    found.push(Token {
        kind: TokenKind::String,
        start,
        text: "\"\"",
    })?;
    found.push(Token {
        kind: TokenKind::RightParen,
        start,
        text: ")",
    })?;
    Ok(())
}

/// Adds the normal tokens of a token, which comes before one of the kind `next`.
fn push_normal<'a>(
    found: &mut Vec<Token<'a>>,
    before: Before,
    token: &Token<'a>,
    next: Option<TokenKind>,
) -> Result<(), AllocError>
    ensures { OnOk result (lexemes found.new.items ≡ lexemes found.old.items ++ spec.normal_token before (lexeme token.now) next) }
{
    found.push(Token {
        kind: normal_kind(before, token.kind, next),
        ..*token
    })?;
    if before == Before::Sign && next != Some(TokenKind::LeftParen) {
        push_empty_value(found, token.start)?;
    }
    Ok(())
}

/// Whether a bracket of this kind opens a list.
fn opens_list(before: Before, kind: TokenKind) -> bool
    ensures { result ≡ spec.opens_list before kind }
{
    match kind {
        TokenKind::LeftParen => before == Before::Word,
        TokenKind::LeftBracket => !ends_item(before),
        TokenKind::LeftBrace => before != Before::Word,
        _ => false,
    }
}

/// Enters a token among the brackets that are open, the outermost first: for each, whether it opens a list.
fn open_with(lists: &mut Vec<bool>, before: Before, kind: TokenKind) -> Result<(), AllocError>
    ensures { OnOk result (lists.new.items ≡ spec.opened before lists.old.items kind) }
{
    match kind {
        TokenKind::LeftParen | TokenKind::LeftBracket | TokenKind::LeftBrace => {
            lists.push(opens_list(before, kind))?;
        }
        TokenKind::RightParen | TokenKind::RightBracket | TokenKind::RightBrace => {
            let _ = lists.pop();
        }
        _ => {}
    }
    Ok(())
}

/// Whether the innermost bracket that is open opens a list.
fn is_in_list(lists: &[bool]) -> bool
    ensures { result ≡ spec.is_in_list lists.now }
{
    lists.last().copied().unwrap_or(false)
}

/// Whether the token is a comma between the last item of a list and the bracket that closes it.
fn is_last_comma(before: Before, lists: &[bool], kind: TokenKind, next: Option<TokenKind>) -> bool
    ensures { result ≡ spec.is_last_comma before lists.now kind next }
{
    kind == TokenKind::Comma && ends_item(before) && is_in_list(lists) && is_closing(next)
}

/// A walk over tokens from left to right.
#[derive(Drop)]
struct Walk<'a> {
    /// The normal tokens so far.
    found: Vec<Token<'a>>,
    /// What comes right before the next token.
    before: Before,
    /// For each bracket that is open, the outermost first, whether it opens a list.
    lists: Vec<bool>,
}

impl<'a> Walk<'a> {
    /// Goes past a token, which comes before one of the kind `next`.
    fn pass(&mut self, token: &Token<'a>, next: Option<TokenKind>) -> Result<(), AllocError>
        ensures { OnOk result (GoesOn self.old self.new (lexeme token.now) next) }
    {
        if is_last_comma(self.before, &self.lists, token.kind, next) {
            return Ok(());
        }
        push_normal(&mut self.found, self.before, token, next)?;
        open_with(&mut self.lists, self.before, token.kind)?;
        self.before = after(self.before, normal_kind(self.before, token.kind, next));
        Ok(())
    }
}

/// The normal tokens of those of a text. Cedar 4 has three spellings beside those of the profile (Cedar language reference,
/// grammar). A comma may come after the last item of a list. An annotation may have no value, which is then the empty text.
/// A reserved word may be the key of a record, or the name of an attribute after `.` and `has`. The normal tokens are those
/// that spell the same in the profile. Each is at the place of the token that it is made of.
///
/// # Errors
///
/// Fails only when out of memory.
pub fn normal_tokens<'a>(alloc: Global, tokens: &[Token<'a>]) -> Result<Vec<Token<'a>>, AllocError>
    ensures { IfOk result (λ v. lexemes v.items ≡ spec.normal (lexemes tokens.now)) }
{
    let mut walk = Walk {
        found: Vec::with_capacity(alloc, tokens.len())?,
        before: Before::Other,
        lists: Vec::new(alloc),
    };
    for at in 0..tokens.len() {
        walk.pass(&tokens[at], first_kind(&tokens[at + 1..]))?;
    }
    Ok(walk.found)
}

/// The kind of the first token, if there is one.
fn first_kind(tokens: &[Token<'_>]) -> Option<TokenKind>
    ensures { result ≡ spec.first_kind (lexemes tokens.now) }
{
    match tokens {
        [] => None,
        [token, ..] => Some(token.kind),
    }
}
