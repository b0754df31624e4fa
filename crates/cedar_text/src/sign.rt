//! The kinds of tokens that are signs, of one or two bytes.

ghost use Rattle.std.specs.Prelude.{◌≡◌};
ghost use Rattle.cedar_text.specs.Private.Lexing as spec;

use crate::token_kind::TokenKind;

/// The sign that these two bytes are.
pub fn long_sign(a: u8, b: u8) -> Option<TokenKind>
    ensures { result ≡ spec.long_sign a b }
{
    match (a, b) {
        (b':', b':') => Some(TokenKind::DoubleColon),
        (b'=', b'=') => Some(TokenKind::Equal),
        (b'!', b'=') => Some(TokenKind::NotEqual),
        (b'<', b'=') => Some(TokenKind::LessEqual),
        (b'>', b'=') => Some(TokenKind::GreaterEqual),
        (b'&', b'&') => Some(TokenKind::AndAnd),
        (b'|', b'|') => Some(TokenKind::OrOr),
        _ => None,
    }
}

/// The sign that this byte is.
pub fn short_sign(a: u8) -> Option<TokenKind>
    ensures { result ≡ spec.short_sign a }
{
    match a {
        b'@' => Some(TokenKind::At),
        b'(' => Some(TokenKind::LeftParen),
        b')' => Some(TokenKind::RightParen),
        b'{' => Some(TokenKind::LeftBrace),
        b'}' => Some(TokenKind::RightBrace),
        b'[' => Some(TokenKind::LeftBracket),
        b']' => Some(TokenKind::RightBracket),
        b',' => Some(TokenKind::Comma),
        b';' => Some(TokenKind::Semicolon),
        b'.' => Some(TokenKind::Dot),
        b':' => Some(TokenKind::Colon),
        b'<' => Some(TokenKind::Less),
        b'>' => Some(TokenKind::Greater),
        b'+' => Some(TokenKind::Plus),
        b'-' => Some(TokenKind::Minus),
        b'*' => Some(TokenKind::Star),
        b'!' => Some(TokenKind::Not),
        _ => None,
    }
}
