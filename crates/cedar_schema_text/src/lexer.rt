//! Cuts a schema text into tokens.
ghost use Rattle.std.specs.Prelude.{◌≡◌, ◌<◌, ◌≤◌, ◌-◌, length, slice_index, take, drop};
ghost use Rattle.std.specs.Prelude.{false, map, option_map, IfSome};
ghost use Rattle.std.specs.List.{prefix_len};
ghost use Rattle.std.specs.Str.{IsUtf8};
ghost use Rattle.cedar_text.specs.Bytes as bytes_spec;
ghost use Rattle.cedar_schema_text.specs.Tokens as spec;
ghost use Rattle.cedar_schema_text.specs.Marks.{written};
ghost use Rattle.cedar_schema_text.specs.Private.Contract.{Gives};

use crate::fault::SchemaTextFault;
use crate::token::Piece;
use crate::token_kind::TokenKind;
use std::alloc::Global;

// The byte at an index, or 0 past the end.
fn byte_at(bytes: &[u8], index: usize) -> u8
    ensures { result ≡ slice_index bytes.now index }
{
    bytes.get(index).copied().unwrap_or(0)
}

fn is_letter(byte: u8) -> bool
    ensures { result ≡ bytes_spec.is_letter byte }
{
    byte.is_ascii_lowercase() || byte.is_ascii_uppercase() || byte == b'_'
}

fn is_word(byte: u8) -> bool
    ensures { result ≡ bytes_spec.is_word byte }
{
    is_letter(byte) || byte.is_ascii_digit()
}

fn goes_on_line(byte: u8) -> bool
    ensures { result ≡ bytes_spec.goes_on_line byte }
{
    !(byte == b'\n' || byte == b'\r')
}

// How many letters, digits and `_` come first.
fn word_len(bytes: &[u8]) -> usize
    ensures len { result ≡ prefix_len bytes_spec.is_word bytes.now }
    ensures within { result ≤ length bytes.now }
{
    bytes.iter().take_while(|byte| is_word(**byte)).count()
}

// How many bytes come before the first LF or CR.
fn line_len(bytes: &[u8]) -> usize
    ensures len { result ≡ prefix_len bytes_spec.goes_on_line bytes.now }
    ensures within { result ≤ length bytes.now }
{
    bytes.iter().take_while(|byte| goes_on_line(**byte)).count()
}

// Whether a byte closes a string.
fn closes(escaped: bool, byte: u8) -> bool
    ensures { result ≡ spec.closes escaped byte }
{
    !escaped && byte == b'"'
}

// Whether a byte is a backslash that belongs to the byte after it.
fn escapes(escaped: bool, byte: u8) -> bool
    ensures { result ≡ spec.escapes escaped byte }
{
    !escaped && byte == b'\\'
}

// How many bytes there are up to the quote that closes a string, with it, if there is one.
fn string_end(bytes: &[u8]) -> Option<usize>
    ensures value { result ≡ spec.string_end false bytes.now }
    ensures within { IfSome result (λ n. n ≤ length bytes.now) }
    ensures some { IfSome result (λ n. 0 < n) }
    ensures quote { IfSome result (λ n. slice_index bytes.now (n - 1) ≡ 34) }
{
    let mut escaped = false;
    for at in 0..bytes.len() {
        let byte = bytes[at];
        if closes(escaped, byte) {
            return Some(at + 1);
        }
        escaped = escapes(escaped, byte);
    }
    None
}

// The sign that a byte is.
fn sign_of(byte: u8) -> Option<TokenKind>
    ensures { result ≡ spec.sign_of byte }
{
    match byte {
        b'{' => Some(TokenKind::LeftBrace),
        b'}' => Some(TokenKind::RightBrace),
        b'[' => Some(TokenKind::LeftBracket),
        b']' => Some(TokenKind::RightBracket),
        b'(' => Some(TokenKind::LeftParen),
        b')' => Some(TokenKind::RightParen),
        b'<' => Some(TokenKind::Less),
        b'>' => Some(TokenKind::Greater),
        b',' => Some(TokenKind::Comma),
        b';' => Some(TokenKind::Semicolon),
        b':' => Some(TokenKind::Colon),
        b'?' => Some(TokenKind::Question),
        b'=' => Some(TokenKind::Equal),
        b'@' => Some(TokenKind::At),
        _ => None,
    }
}

// The kind and the length of the token at the beginning, if there is one. Its last byte is ASCII.
#[tactic(auto, unfolding(crate::specs::Tokens::token_at))]
fn token_at(bytes: &[u8]) -> Option<(TokenKind, usize)>
    requires { 0 < length bytes.now }
    ensures value { result ≡ spec.token_at bytes.now }
    ensures within { IfSome result (λ t. t.1 ≤ length bytes.now) }
    ensures some { IfSome result (λ t. 0 < t.1) }
    ensures ascii { IfSome result (λ t. slice_index bytes.now (t.1 - 1) < 128) }
{
    let first = byte_at(bytes, 0);
    if is_letter(first) {
        return Some((TokenKind::Word, word_len(bytes)));
    }
    if first == b'"' {
        return match string_end(&bytes[1..]) {
            Some(len) => Some((TokenKind::String, len + 1)),
            None => None,
        };
    }
    if first == b':' && byte_at(bytes, 1) == b':' {
        return Some((TokenKind::DoubleColon, 2));
    }
    match sign_of(first) {
        Some(kind) => Some((kind, 1)),
        None => None,
    }
}

fn begins_comment(bytes: &[u8]) -> bool
    ensures { result ≡ spec.begins_comment bytes.now }
{
    byte_at(bytes, 0) == b'/' && byte_at(bytes, 1) == b'/'
}

// The text from its first line end on.
fn from_line_end(text: &str) -> &str
    ensures value { result.now ≡ spec.from_line_end text.now }
    ensures shorter { length result.now ≤ length text.now }
{
    &text[line_len(text.as_bytes())..]
}

// The text after the white space and the comments at its beginning.
#[tactic(auto, using(crate::proofs::Turns::one_left), unfolding(crate::specs::Tokens::skip_comments))]
fn skip(text: &str) -> &str
    ensures value { result.now ≡ spec.skip text.now }
    ensures shorter { length result.now ≤ length text.now }
{
    let mut rest = text.trim_start();
    for _turn in 0..text.len() {
        if !begins_comment(rest.as_bytes()) {
            return rest;
        }
        rest = from_line_end(rest).trim_start();
    }
    rest
}

// The kind of the token at the beginning, its text, and the text after it.
fn cut_one(text: &str) -> Option<(TokenKind, &str, &str)>
    requires { 0 < length text.now }
    ensures value { option_map (λ x. (x.0, length x.1.now)) result ≡ spec.token_at text.now }
    ensures front { IfSome result (λ x. x.1.now ≡ take (length x.1.now) text.now) }
    ensures rest { IfSome result (λ x. x.2.now ≡ drop (length x.1.now) text.now) }
    ensures utf8 { IfSome result (λ x. IsUtf8 x.2.now) }
{
    let (kind, len) = token_at(text.as_bytes())?;
    let (front, rest) = text.split_at(len);
    Some((kind, front, rest))
}

/// The tokens of a text as they are written, from left to right (Cedar documentation, schema grammar).
///
/// # Errors
///
/// 310 where no token begins, or where a string begins that is not closed, and 1 when out of memory.
pub(crate) fn cut(alloc: Global, source: &str) -> Result<Vec<Piece<'_>>, SchemaTextFault>
    ensures { Gives (λ v. map written v.items) (spec.cut source.now) result }
{
    let mut found = Vec::new(alloc);
    let mut rest = skip(source);
    for _turn in 0..source.len() {
        if rest.is_empty() {
            return Ok(found);
        }
        let start = source.len() - rest.len();
        let Some((kind, text, after)) = cut_one(rest) else {
            return Err(SchemaTextFault::Syntax(start));
        };
        found.push(Piece { kind, start, text })?;
        rest = skip(after);
    }
    Ok(found)
}
