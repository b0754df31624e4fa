//! A token with the letters of its string.
ghost use Rattle.std.specs.Prelude.{◌≡◌, IfOk};
ghost use Rattle.cedar_parser_tokens.specs.Marks.{content_of, pattern_of, mark};

use crate::content::Content;
use crate::letters::Letters;
use cedar_ext::Pattern;
use cedar_text::{Token, TokenKind, escaped_star};
use cedar_value::Text;
use std::alloc::{AllocError, Global};

/// A token, and the letters that it writes if it is a string; contracts see its `mark`.
#[derive(Clone, Copy)]
pub struct Spelled<'t> {
    /// The token.
    pub token: &'t Token<'t>,
    /// The letters of a string. None for another token.
    pub letters: Option<&'t Letters<'t>>,
}

impl<'t> Spelled<'t> {
    /// What it is.
    pub fn kind(&self) -> TokenKind
        ensures { result ≡ (mark self.now).kind }
    {
        self.token.kind
    }

    /// Where it begins, in bytes from 0.
    pub fn start(&self) -> usize
        ensures { result ≡ (mark self.now).start }
    {
        self.token.start()
    }

    /// The slice of the source that it is.
    pub fn text(&self) -> &'t str
        ensures { result.now ≡ (mark self.now).text }
    {
        self.token.text
    }

    /// The value of a number.
    pub fn number(&self) -> u64
        ensures { result ≡ (mark self.now).number }
    {
        self.token.number()
    }

    /// The text that a string denotes.
    pub fn content(&self, alloc: Global) -> Result<Content, AllocError>
        ensures { IfOk result (λ c. c ≡ content_of (mark self.now).letters) }
    {
        let text = match self.letters {
            Some(letters) => letters.text(alloc)?,
            None => Some(Text::new(String::new(alloc))),
        };
        let place = match text {
            Some(_) => 0,
            None => escaped_star(self.token.text),
        };
        Ok(Content::new(text, self.token.start().saturating_add(place)))
    }

    /// The pattern that a string writes.
    pub fn pattern(&self, alloc: Global) -> Result<Pattern, AllocError>
        ensures { IfOk result (λ p. p ≡ pattern_of (mark self.now).letters) }
    {
        match self.letters {
            Some(letters) => letters.pattern(alloc),
            None => Ok(Pattern::new(Vec::new(alloc))),
        }
    }
}
