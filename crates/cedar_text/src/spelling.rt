//! What a string token denotes.

ghost use Rattle.std.specs.Prelude.{◌≡◌, ◌<◌, ◌≤◌, [], ◌∷◌, ◌++◌, List, ℕ, length, IfOk, IfErr, IfSome, IfNone, IsSome, ◌⊎◌, option_map};
ghost use Rattle.std.specs.String.{string_bytes};
ghost use Rattle.std.specs.Char.{IsScalar};
ghost use Rattle.std.specs.Str.{IsUtf8};
ghost use Rattle.cedar_text.specs.declared.letter.Letter.{Letter as Letters};
ghost use Rattle.cedar_text.specs.Strings.{IsString};
ghost use Rattle.cedar_text.specs.Letters.{IsSpelled, HasQuotes, HasLetters, HasLettersFault, plain_text_of};
ghost use Rattle.cedar_text.specs.Private.FirstLetter.{BeginsWith, BeginsNone, StartsEscape, StartsNoEscape, IsFirst};
ghost use Rattle.cedar_text.specs.Private.Lexing as spec;

use crate::bytes::{byte_at, hex_len};
use crate::escape::escape_len;
use crate::letter::Letter;
use crate::number::hexadecimal_value;
use crate::text_fault::TextFault;
use std::alloc::{AllocError, Global};

fn first_char(text: &str) -> Option<char>
    ensures some { 0 < length text.now → IsSome result }
    ensures first { IfSome result (λ c. BeginsWith text.now c) }
    ensures scalar { IfSome result IsScalar }
{
    text.chars().next()
}

fn short_value(b: u8) -> char
    ensures { result ≡ spec.short_value b }
{
    match b {
        b'n' => '\n',
        b'r' => '\r',
        b't' => '\t',
        b'0' => '\0',
        _ => char::from(b),
    }
}

fn code_letter(code: u32) -> Option<Letter>
    ensures { result ≡ spec.code_letter code }
{
    match char::from_u32(code) {
        Some(c) => Some(Letter::Character(c)),
        None => None,
    }
}

/// The letter of an escape. These are the bytes after the backslash.
#[tactic(auto, unfolding(crate::specs::Private::Lexing::escaped_letter))]
fn escaped_letter(front: &[u8]) -> Option<Letter>
    requires { 0 < length front.now }
    ensures { result ≡ spec.escaped_letter front.now }
{
    let b = byte_at(front, 0);
    if b == b'*' {
        Some(Letter::EscapedStar)
    } else if b == b'x' {
        code_letter(hexadecimal_value(&front[1..]))
    } else if b == b'u' {
        let digits = &front[front.len().min(2)..];
        code_letter(hexadecimal_value(&digits[..hex_len(digits)]))
    } else {
        Some(Letter::Character(short_value(b)))
    }
}

/// The letter of the escape that comes first, without its backslash, and how many bytes it has.
fn first_escape(bytes: &[u8]) -> Option<(Letter, usize)>
    ensures found { IfSome result (λ x. StartsEscape bytes.now x.0 x.1) }
    ensures none { IfNone result (StartsNoEscape bytes.now) }
    ensures within { IfSome result (λ x. x.1 ≤ length bytes.now) }
{
    let Some(len) = escape_len(bytes) else {
        return None;
    };
    match escaped_letter(&bytes[..len]) {
        Some(letter) => Some((letter, len)),
        None => None,
    }
}

/// The letter that comes first, and how many bytes it has.
fn first_letter(text: &str) -> Option<(Letter, usize)>
    requires { 0 < length text.now }
    ensures found { IfSome result (λ x. IsFirst text.now x.0 x.1) }
    ensures none { IfNone result (BeginsNone text.now) }
{
    let Some(c) = first_char(text) else {
        return None;
    };
    match c {
        '"' => None,
        '*' => Some((Letter::Star, 1)),
        '\\' => match first_escape(&text.as_bytes()[1..]) {
            Some((letter, len)) => Some((letter, len + 1)),
            None => None,
        },
        _ => Some((Letter::Character(c), c.len_utf8())),
    }
}

/// The text between the quotes.
fn between_quotes(text: &str) -> Option<&str>
    ensures found { IfSome result (λ inner. HasQuotes text.now inner.now) }
    ensures none { IfNone result ((inner : List ℕ) → HasQuotes text.now inner → ⊥) }
    ensures utf8 { IfSome result (λ inner. IsUtf8 inner.now) }
{
    let bytes = text.as_bytes();
    let len = bytes.len();
    if len < 2 || bytes[0] != b'"' || bytes[len - 1] != b'"' {
        return None;
    }
    Some(&text[1..len - 1])
}

/// The letters of a string token, as a pattern has them. The text is that of the token, with its quotes. The list has room for a
/// letter for each byte between them, so it never grows.
///
/// # Errors
///
/// [`TextFault::UnclosedString`] where the text has no quotes round it, [`TextFault::BadEscape`] with the byte from 0 where no
/// letter begins, and [`TextFault::OutOfMemory`]. A string token of [`crate::tokens`] gives only the last.
pub fn letters(alloc: Global, text: &str) -> Result<Vec<Letter>, TextFault>
    // The result is the letters that the text writes.
    ensures found { IfOk result (λ v. IsSpelled text.now v.items) }
    // If the text writes letters, they are the result, unless memory runs out.
    ensures only { (letters : List Letters) → IsSpelled text.now letters → HasLetters letters result }
    // Each fault is reported only where the text has it.
    ensures fault { IfErr result (HasLettersFault text.now) }
{
    let Some(inner) = between_quotes(text) else {
        return Err(TextFault::UnclosedString(0));
    };
    let mut found = Vec::with_capacity(alloc, inner.len())?;
    let mut rest = inner;
    while !rest.is_empty() {
        let Some((letter, len)) = first_letter(rest) else {
            return Err(TextFault::BadEscape(text.len().saturating_sub(rest.len() + 1)));
        };
        found.push(letter)?;
        rest = &rest[len..];
    }
    Ok(found)
}

/// The string that the letters of a string token denote, or none where one of them is the escape `\*`, which only a pattern may
/// hold.
///
/// # Errors
///
/// Fails only when out of memory.
pub fn plain_text(alloc: Global, letters: &[Letter]) -> Result<Option<String>, AllocError>
    ensures { IfOk result (λ text. option_map string_bytes text ≡ plain_text_of letters.now) }
{
    let mut text = String::with_capacity(alloc, letters.len())?;
    for letter in letters {
        let Some(character) = letter.plain() else {
            return Ok(None);
        };
        text.push(character)?;
    }
    Ok(Some(text))
}

/// The place at which the first `\*` of a string token begins, in bytes from 0; 0 where it has none. The text is that of the
/// token, with its quotes.
pub fn escaped_star(text: &str) -> usize {
    let mut behind = false;
    for (i, &b) in text.as_bytes().iter().enumerate() {
        if behind && b == b'*' {
            return i.saturating_sub(1);
        }
        behind = b == b'\\' && !behind;
    }
    0
}

/// No text writes two lists of letters. A law: it runs no code.
pub fn one_spelling()
    ensures { (text : List ℕ) (letters others : List Letters) → IsSpelled text letters → IsSpelled text others → letters ≡ others }
{}

/// The text between the quotes of a string token always writes letters. A law: it runs no code.
pub fn every_string_is_spelled()
    ensures { (inner : List ℕ) → IsUtf8 inner → IsString inner → (letters : List Letters) × IsSpelled (34 ∷ inner ++ 34 ∷ []) letters }
{}

/// A string token, even one that is not UTF-8, writes letters or none. A law: it runs no code.
pub fn letters_or_none()
    ensures { (inner : List ℕ) → IsString inner → ((letters : List Letters) × IsSpelled (34 ∷ inner ++ 34 ∷ []) letters) ⊎ ((letters : List Letters) → IsSpelled (34 ∷ inner ++ 34 ∷ []) letters → ⊥) }
{}
