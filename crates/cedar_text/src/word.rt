//! Reserved words.

ghost use Rattle.std.specs.Prelude.{◌≡◌};
ghost use Rattle.cedar_text.specs.Words as spec;

use crate::token_kind::TokenKind;

/// The kind of a word.
pub fn word_kind(word: &[u8]) -> TokenKind
    ensures { result ≡ spec.word_kind word.now }
{
    if word == b"true".as_slice() {
        TokenKind::True
    } else if word == b"false".as_slice() {
        TokenKind::False
    } else if word == b"if".as_slice() {
        TokenKind::If
    } else if word == b"then".as_slice() {
        TokenKind::Then
    } else if word == b"else".as_slice() {
        TokenKind::Else
    } else if word == b"in".as_slice() {
        TokenKind::In
    } else if word == b"is".as_slice() {
        TokenKind::Is
    } else if word == b"like".as_slice() {
        TokenKind::Like
    } else if word == b"has".as_slice() {
        TokenKind::Has
    } else {
        TokenKind::Identifier
    }
}
