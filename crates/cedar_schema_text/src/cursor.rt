//! The tokens that are left.
ghost use Rattle.std.specs.Prelude.{◌≡◌, length};
ghost use Rattle.cedar_schema_text.specs.Marks.{mark, marks};
ghost use Rattle.cedar_schema_text.specs.Reading as spec;
ghost use Rattle.cedar_schema_text.specs.Private.Contract.{Reads};

use crate::fault::SchemaTextFault;
use crate::token::Token;
use crate::token_kind::TokenKind;
use std::marker::Model;

/// A place in a list of tokens. Contracts see the tokens that are left.
#[derive(Drop)]
pub(crate) struct Cursor<'t> {
    rest: &'t [Token],
}

impl<'t> Model for Cursor<'t> {
    ghost use Rattle.std.specs.Prelude.{List};
    ghost use Rattle.cedar_schema_text.specs.Marks.{Mark, marks};

    ghost Value = { List Mark };

    ghost view = { λ c. marks c.rest.now };
}

impl<'t> Cursor<'t> {
    /// The beginning of tokens.
    pub(crate) fn new(tokens: &'t [Token]) -> Cursor<'t>
        ensures { result ≡ marks tokens.now }
    {
        Cursor { rest: tokens }
    }

    /// How many tokens are left.
    pub(crate) fn left(&self) -> usize
        ensures { result ≡ length self.now }
    {
        self.rest.len()
    }

    /// Where the next token begins, in bytes from 0.
    #[tactic(auto, unfolding(crate::specs::Reading::place))]
    pub(crate) fn place(&self) -> usize
        ensures { result ≡ spec.place self.now }
    {
        match self.rest {
            [] => 0,
            [token, ..] => token.start,
        }
    }

    /// Whether the next token is of this kind.
    #[tactic(auto, unfolding(crate::specs::Reading::sees))]
    pub(crate) fn sees(&self, kind: TokenKind) -> bool
        ensures { result ≡ spec.sees kind self.now }
    {
        match self.rest {
            [] => false,
            [token, ..] => token.kind == kind,
        }
    }

    /// Whether the token after the next is of this kind.
    #[tactic(auto, unfolding(crate::specs::Reading::sees, crate::specs::Reading::next))]
    pub(crate) fn sees_second(&self, kind: TokenKind) -> bool
        ensures { result ≡ spec.sees kind (spec.next self.now) }
    {
        match self.rest {
            [_, token, ..] => token.kind == kind,
            _ => false,
        }
    }

    /// Whether the next token is this word.
    #[tactic(auto, unfolding(crate::specs::Reading::sees_word))]
    pub(crate) fn sees_word(&self, word: &str) -> bool
        ensures { result ≡ spec.sees_word word.now self.now }
    {
        match self.rest {
            [] => false,
            [token, ..] => token.kind == TokenKind::Word && token.text.as_str() == word,
        }
    }

    /// Goes past the next token, if there is one.
    #[tactic(auto, unfolding(crate::specs::Reading::next))]
    pub(crate) fn skip(&mut self)
        ensures { self.new ≡ spec.next self.old }
    {
        if let [_, rest @ ..] = self.rest {
            self.rest = rest;
        }
    }

    /// Takes the next token, which must be of this kind. Any other is refused.
    #[tactic(auto, unfolding(crate::specs::Reading::expect))]
    pub(crate) fn expect(&mut self, kind: TokenKind) -> Result<&'t Token, SchemaTextFault>
        ensures { Reads (λ t. mark t.now) (spec.expect kind self.old) result self.new }
    {
        let [token, rest @ ..] = self.rest else {
            return Err(SchemaTextFault::Syntax(0));
        };
        if token.kind != kind {
            return Err(SchemaTextFault::Syntax(token.start));
        }
        self.rest = rest;
        Ok(token)
    }
}
