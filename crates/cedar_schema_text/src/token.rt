//! Tokens of a schema text.
use crate::token_kind::TokenKind;

/// A token as it is written.
#[derive(Clone, Copy)]
pub(crate) struct Piece<'t> {
    /// What it is.
    pub(crate) kind: TokenKind,
    /// Where it begins, in bytes from 0.
    pub(crate) start: usize,
    /// Its slice of the text: for a string with its quotes and escapes.
    pub(crate) text: &'t str,
}

/// A token that was read.
#[derive(Drop)]
pub(crate) struct Token {
    /// What it is.
    pub(crate) kind: TokenKind,
    /// Where it begins, in bytes from 0.
    pub(crate) start: usize,
    /// What a string denotes, and the text of another token.
    pub(crate) text: String,
}
