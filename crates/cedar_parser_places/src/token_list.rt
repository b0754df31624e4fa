//! The tokens of a text, by their positions.
use crate::extent::{Extent, PartPlace};
use crate::stretch::{Marked, Stretch};
use cedar_text::{Token, TokenKind};

/// The tokens of a text, in order. Positions count them from 0.
#[derive(Clone, Copy)]
pub struct TokenList<'t> {
    tokens: &'t [Token<'t>],
}

impl<'t> TokenList<'t> {
    /// These tokens.
    pub fn new(tokens: &'t [Token<'t>]) -> TokenList<'t> {
        TokenList { tokens }
    }

    /// The position of the token that begins at a byte.
    pub fn position(&self, start: usize) -> Option<usize> {
        self.tokens.iter().position(|token| token.start() == start)
    }

    /// Whether the token at a position is of a kind.
    pub fn sees(&self, position: usize, kind: TokenKind) -> bool {
        match self.tokens.get(position) {
            Some(token) => token.kind == kind,
            None => false,
        }
    }

    /// The position of the first token of a kind, from a position on.
    pub fn find_from(&self, kind: TokenKind, from: usize) -> Option<usize> {
        for position in from..self.tokens.len() {
            if self.sees(position, kind) {
                return Some(position);
            }
        }
        None
    }

    /// The position of the last token of a kind, from a position on and before an end.
    pub fn find_last(&self, kind: TokenKind, from: usize, end: usize) -> Option<usize> {
        let mut found = None;
        for position in from..end {
            if self.sees(position, kind) {
                found = Some(position);
            }
        }
        found
    }

    /// The path that begins with the word at a position: words with `::` between them.
    pub fn path(&self, first: usize) -> Stretch {
        let mut last = first;
        for _turn in 0..self.tokens.len() {
            if !self.goes_on(last) {
                return Stretch { first, last };
            }
            last = last.saturating_add(2);
        }
        Stretch { first, last }
    }

    // Whether `::` and a word follow the word at a position.
    fn goes_on(&self, word: usize) -> bool {
        self.sees(word.saturating_add(1), TokenKind::DoubleColon)
            && self.sees(word.saturating_add(2), TokenKind::Identifier)
    }

    /// Where a part and its name are.
    pub fn place_of(&self, marked: Marked) -> Option<PartPlace> {
        Some(PartPlace {
            whole: self.extent_of(marked.whole)?,
            name: self.extent_of(marked.name)?,
        })
    }

    fn extent_of(&self, stretch: Stretch) -> Option<Extent> {
        let first = self.tokens.get(stretch.first)?;
        let last = self.tokens.get(stretch.last)?;
        Some(Extent {
            start: first.start(),
            end: last.end(),
        })
    }
}
