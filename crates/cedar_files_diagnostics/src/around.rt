//! The tokens around a place of a policy text.
use cedar_text::{Token, TokenKind};

/// The tokens around a place of a text.
#[derive(Clone, Copy)]
pub(crate) struct Around<'t> {
    /// The token that begins at the place; none at the end of the text.
    pub(crate) here: Option<Token<'t>>,
    /// The last token before the place.
    pub(crate) before: Option<Token<'t>>,
    /// The token before that one.
    pub(crate) second: Option<Token<'t>>,
    /// The token before these two.
    pub(crate) third: Option<Token<'t>>,
    /// Where the statement begins that the place is in: after the last `;` before it. In bytes from 0.
    pub(crate) start: usize,
}

impl<'t> Around<'t> {
    /// What is around an offset of a text that has these tokens.
    pub(crate) fn of(found: &[Token<'t>], at: usize) -> Self {
        let mut around = Around {
            here: None,
            before: None,
            second: None,
            third: None,
            start: 0,
        };
        for token in found {
            if token.start() >= at {
                around.here = Some(*token);
                break;
            }
            around.third = around.second;
            around.second = around.before;
            around.before = Some(*token);
            if token.kind == TokenKind::Semicolon {
                around.start = token.end();
            }
        }
        around
    }

    /// Whether the token at the place is of this kind.
    pub(crate) fn is_here(self, kind: TokenKind) -> bool {
        is_of(self.here, kind)
    }

    /// Whether the last token before the place is of this kind.
    pub(crate) fn is_before(self, kind: TokenKind) -> bool {
        is_of(self.before, kind)
    }

    /// Whether the token before the last one is of this kind.
    pub(crate) fn is_second(self, kind: TokenKind) -> bool {
        is_of(self.second, kind)
    }

    /// Whether the token before these two is of this kind.
    pub(crate) fn is_third(self, kind: TokenKind) -> bool {
        is_of(self.third, kind)
    }

    /// Whether the last token before the place is one of these texts.
    pub(crate) fn is_before_text(self, texts: &[&str]) -> bool {
        self.before.is_some_and(|token| texts.contains(&token.text))
    }

    /// Where the last token before the place ends, in bytes from 0.
    pub(crate) fn end(self) -> usize {
        self.before.map_or(self.start, |token| token.end())
    }
}

// Whether there is a token, and it is of this kind.
fn is_of(token: Option<Token<'_>>, kind: TokenKind) -> bool {
    token.is_some_and(|token| token.kind == kind)
}
