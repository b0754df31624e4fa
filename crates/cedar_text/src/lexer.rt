//! All tokens of a text.

ghost use Rattle.std.specs.Prelude.{◌≡◌, ◌<◌, ◌≤◌, length, take, drop, IfOk, IfErr, OnOk, IsSome, All, List, ℕ, ◌⊎◌};
ghost use Rattle.std.specs.Str.{IsUtf8};
ghost use Rattle.cedar_text.specs.Lexeme.{Lexemes, lexemes};
ghost use Rattle.cedar_text.specs.Private.Lexing as spec;
ghost use Rattle.cedar_text.specs.Numbers.{number_in};
ghost use Rattle.cedar_text.specs.Private.Outcomes.{Gives};
ghost use Rattle.cedar_text.specs.Faults.{HasTokens, HasFault};
ghost use Rattle.cedar_text.specs.Spans.{AreInOrder, IsSliceOf};
ghost use Rattle.cedar_text.specs.Tokens.{AreTokens};

use crate::piece::{Piece, first_piece};
use crate::text_fault::TextFault;
use crate::token::Token;
use std::alloc::{AllocError, Global};

/// The first piece, its slice of the text, and the rest.
fn cut(source: &str, at: usize) -> Result<(Piece, &str, &str), TextFault>
    requires { 0 < length source.now }
    ensures piece { Gives (λ x. x.0) (spec.piece source.now) result }
    ensures front { IfOk result (λ x. x.1.now ≡ take x.0.len source.now) }
    ensures rest { IfOk result (λ x. x.2.now ≡ drop x.0.len source.now) }
    ensures number { IfOk result (λ x. IsSome x.0.kind → x.0.number ≡ number_in x.1.now) }
    ensures within { IfOk result (λ x. x.0.len ≤ length source.now) }
    ensures utf8 { IfOk result (λ x. IsUtf8 x.2.now) }
{
    let piece = first_piece(source.as_bytes(), at)?;
    let (front, rest) = source.split_at(piece.len);
    Ok((piece, front, rest))
}

/// Adds the token of a piece. Fails for one that begins at 4 GiB or later: its place has four bytes.
fn push<'a>(
    found: &mut Vec<Token<'a>>,
    piece: Piece,
    start: usize,
    text: &'a str,
) -> Result<(), AllocError>
    requires { IsSome piece.kind → piece.number ≡ number_in text.now }
    ensures { OnOk result (lexemes found.new.items ≡ spec.found_with piece.kind start text.now piece.len piece.number (lexemes found.old.items)) }
{
    if let Some(kind) = piece.kind {
        let Ok(start) = u32::try_from(start) else {
            return Err(AllocError);
        };
        found.push(Token { kind, start, text })?;
    }
    Ok(())
}

/// The tokens from left to right. The list grows as they are found.
fn lex(alloc: Global, source: &str) -> Result<Vec<Token<'_>>, TextFault>
    ensures { Gives (λ v. lexemes v.items) (spec.lex (length source.now) 0 source.now) result }
{
    let mut found = Vec::new(alloc);
    let mut at = 0;
    let mut rest = source;
    for _turn in 0..source.len() {
        if rest.is_empty() {
            return Ok(found);
        }
        let (piece, text, after) = cut(rest, at)?;
        push(&mut found, piece, at, text)?;
        at += piece.len;
        rest = after;
    }
    Ok(found)
}

/// The tokens of a policy text, each with its slice of the text (Cedar language reference, "Grammar"). Each token is as long as
/// the text allows. The time is linear in the text, and only the list takes memory.
///
/// # Errors
///
/// All but the last have a place, in bytes from 0.
///
/// - [`TextFault::BadCharacter`]: no token begins with the character there.
/// - [`TextFault::UnclosedString`]: the string whose opening quote is there is not closed.
/// - [`TextFault::BadEscape`]: the backslash there begins no escape.
/// - [`TextFault::NumberTooLarge`]: a number above 9223372036854775808 begins there.
/// - [`TextFault::OutOfMemory`]: also where a token begins at 4 GiB or later, since a token has four bytes for its place.
pub fn tokens(alloc: Global, source: &str) -> Result<Vec<Token<'_>>, TextFault>
    // The result is the tokens of the text.
    ensures found { IfOk result (λ v. AreTokens source.now (lexemes v.items)) }
    // If the text has tokens, they are the result, unless memory runs out.
    ensures only { (ts : Lexemes) → AreTokens source.now ts → HasTokens ts result }
    // Each fault is reported only where the text has it.
    ensures fault { IfErr result (HasFault source.now) }

    // The tokens are in order, each lies between characters, and its text is the text of its place.
    ensures order { IfOk result (λ v. AreInOrder 0 (lexemes v.items)) }
    ensures slices { IfOk result (λ v. All (IsSliceOf source.now) (lexemes v.items)) }
{
    lex(alloc, source)
}

/// No text has two lists of tokens. A law: it runs no code.
pub fn one_list()
    ensures { (source : List ℕ) (ts us : Lexemes) → AreTokens source ts → AreTokens source us → ts ≡ us }
{}

/// A text has tokens or none. A law: it runs no code.
pub fn tokens_or_none()
    ensures { (source : List ℕ) → ((ts : Lexemes) × AreTokens source ts) ⊎ ((ts : Lexemes) → AreTokens source ts → ⊥) }
{}
