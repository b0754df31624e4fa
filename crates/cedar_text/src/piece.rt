//! The first blank or token of a text.

ghost use Rattle.std.specs.Prelude.{◌≡◌, ◌<◌, length, drop};
ghost use Rattle.cedar_text.specs.Private.Lexing as spec;
ghost use Rattle.cedar_text.specs.Private.Outcomes.{Gives};

use crate::blank::white_len;
use crate::bytes::{byte_at, digits_len, is_digit, is_letter, line_len, word_len};
use crate::escape::string_len;
use crate::number::{MAX_NUMBER, decimal_value};
use crate::sign::{long_sign, short_sign};
use crate::text_fault::TextFault;
use crate::token_kind::TokenKind;
use crate::word::word_kind;

/// A blank or a token: its kind if it is a token, how many bytes it has, and the value of its digits.
#[derive(Clone, Copy)]
pub struct Piece {
    pub kind: Option<TokenKind>,
    pub len: usize,
    pub number: u64,
}

fn blank(len: usize) -> Piece
    ensures { result ≡ spec.skipped len }
{
    Piece {
        kind: None,
        len,
        number: 0,
    }
}

fn token(kind: TokenKind, len: usize, number: u64) -> Piece
    ensures { result ≡ spec.lexed kind len number }
{
    Piece {
        kind: Some(kind),
        len,
        number,
    }
}

fn begins_comment(bytes: &[u8]) -> bool
    ensures { result ≡ spec.begins_comment bytes.now }
{
    byte_at(bytes, 0) == b'/' && byte_at(bytes, 1) == b'/'
}

/// The number that comes first.
fn number(bytes: &[u8], at: usize) -> Result<Piece, TextFault>
    ensures { Gives (λ p. p) (spec.number_at bytes.now) result }
{
    let len = digits_len(bytes);
    let value = decimal_value(&bytes[..len]);
    if value > MAX_NUMBER {
        return Err(TextFault::NumberTooLarge(at));
    }
    Ok(token(TokenKind::Number, len, value))
}

/// The string whose opening quote comes first.
fn string(bytes: &[u8], at: usize) -> Result<Piece, TextFault>
    requires { 0 < length bytes.now }
    ensures { Gives (λ p. p) (spec.string_of (spec.string_len 0 (drop 1 bytes.now))) result }
{
    let len = string_len(&bytes[1..], at)?;
    Ok(token(TokenKind::String, len + 1, 0))
}

/// The slot whose `?` comes first.
fn slot(bytes: &[u8], at: usize) -> Result<Piece, TextFault>
    requires { 0 < length bytes.now }
    ensures { Gives (λ p. p) (spec.slot_of (drop 1 bytes.now)) result }
{
    let name = &bytes[1..];
    if !is_letter(byte_at(name, 0)) {
        return Err(TextFault::BadCharacter(at));
    }
    Ok(token(TokenKind::Slot, word_len(name) + 1, 0))
}

/// The sign that comes first.
fn sign(bytes: &[u8], at: usize) -> Result<Piece, TextFault>
    ensures { Gives (λ p. p) (spec.sign_at bytes.now) result }
{
    let a = byte_at(bytes, 0);
    if let Some(kind) = long_sign(a, byte_at(bytes, 1)) {
        return Ok(token(kind, 2, 0));
    }
    let Some(kind) = short_sign(a) else {
        return Err(TextFault::BadCharacter(at));
    };
    Ok(token(kind, 1, 0))
}

/// The blank or token that comes first. These bytes are the rest, from `at` on, of a text.
#[tactic(auto, unfolding(crate::specs::Private::Lexing::piece))]
pub fn first_piece(bytes: &[u8], at: usize) -> Result<Piece, TextFault>
    requires { 0 < length bytes.now }
    ensures { Gives (λ p. p) (spec.piece bytes.now) result }
{
    let white = white_len(bytes);
    if white > 0 {
        return Ok(blank(white));
    }
    if begins_comment(bytes) {
        return Ok(blank(line_len(bytes)));
    }
    let a = byte_at(bytes, 0);
    if is_letter(a) {
        let len = word_len(bytes);
        return Ok(token(word_kind(&bytes[..len]), len, 0));
    }
    if is_digit(a) {
        return number(bytes, at);
    }
    if a == b'"' {
        return string(bytes, at);
    }
    if a == b'?' {
        return slot(bytes, at);
    }
    sign(bytes, at)
}
