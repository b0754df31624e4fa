//! The tokens that are left.
ghost use Rattle.std.specs.Prelude.{◌≡◌, IfOk, length, option_map};
ghost use Rattle.cedar_parser_tokens.specs.Private.Spells as spells;
ghost use Rattle.cedar_parser_tokens.specs.Reading as spec;
ghost use Rattle.cedar_parser_tokens.specs.Contract.{TakesToken};
ghost use Rattle.cedar_parser_tokens.specs.Reading.{any_word};
ghost use Rattle.cedar_parser_tokens.specs.Names.{is_word_kind};
ghost use Rattle.cedar_text.specs.Lexeme.{lexeme, lexemes};
ghost use Rattle.cedar_parser_tokens.specs.Marks.{letters_of, start_of, mark};

use crate::letters::Letters;
use crate::parse_fault::ParseFault;
use crate::spelled::Spelled;
use cedar_text::{Token, TokenKind};
use cedar_value::{Name, Text};
use std::alloc::{AllocError, Global};
use std::marker::Model;

/// How many names are kept, so that equal ones share their texts.
const NAMES: usize = 8;

/// A place in a list of tokens. Contracts see the tokens that are left.
#[derive(Drop)]
pub struct Cursor<'t> {
    rest: &'t [Token<'t>],
    /// The letters of the strings among them, in order.
    strings: &'t [Letters<'t>],
    /// Where the token that was taken last begins, in bytes from 0.
    taken: usize,
    /// The greatest place, in bytes from 0, that a reading reached without taking a token.
    reached: usize,
    /// Where the text ends, in bytes from 0.
    end: usize,
    /// Names that were read. Equal names that are read later share their texts.
    names: Vec<Name>,
}

impl<'t> Model for Cursor<'t> {
    ghost use Rattle.std.specs.Prelude.{List};
    ghost use Rattle.cedar_text.specs.Lexeme.{lexemes};
    ghost use Rattle.cedar_parser_tokens.specs.Marks.{Mark};
    ghost use Rattle.cedar_parser_tokens.specs.Private.Spells.{marks_with};

    ghost Value = { List Mark };

    ghost view = { λ c. marks_with (lexemes c.rest.now) c.strings.now };
}

impl<'t> Cursor<'t> {
    /// The beginning of tokens, with the letters of the strings among them, of a text that ends at the byte `end`.
    pub(crate) fn new(
        alloc: Global,
        tokens: &'t [Token<'t>],
        strings: &'t [Letters<'t>],
        end: usize,
    ) -> Cursor<'t>
        ensures { result ≡ spells.marks_with (lexemes tokens.now) strings.now }
    {
        Cursor {
            rest: tokens,
            strings,
            taken: 0,
            reached: 0,
            end,
            names: Vec::new(alloc),
        }
    }

    /// How many tokens are left.
    #[tactic(auto, using(crate::proofs::SpellsLemmas::length_marks))]
    pub fn left(&self) -> usize
        ensures { result ≡ length self.now }
    {
        self.rest.len()
    }

    /// What the next token is.
    #[tactic(auto, unfolding(crate::specs::Reading::kind_at))]
    pub fn kind(&self) -> Option<TokenKind>
        ensures { result ≡ spec.kind_at self.now }
    {
        match self.rest {
            [] => None,
            [token, ..] => Some(token.kind),
        }
    }

    /// The next token.
    #[tactic(auto, unfolding(crate::specs::Reading::first))]
    pub fn peek(&self) -> Option<Spelled<'t>>
        ensures { option_map mark result ≡ spec.first self.now }
    {
        match self.rest {
            [] => None,
            [token, ..] => Some(spelled_token(token, self.strings)),
        }
    }

    /// Whether the next token is of this kind.
    #[tactic(auto, unfolding(crate::specs::Reading::sees))]
    pub fn sees(&self, kind: TokenKind) -> bool
        ensures { result ≡ spec.sees kind self.now }
    {
        match self.rest {
            [] => false,
            [token, ..] => token.kind == kind,
        }
    }

    /// Whether the token after the next is of this kind.
    #[tactic(auto, using(crate::proofs::SpellsLemmas::none_behind), unfolding(crate::specs::Reading::sees, crate::specs::Reading::next))]
    pub fn sees_second(&self, kind: TokenKind) -> bool
        ensures { result ≡ spec.sees kind (spec.next self.now) }
    {
        match self.rest {
            [_, token, ..] => token.kind == kind,
            _ => false,
        }
    }

    /// Goes past the next token, if there is one.
    #[tactic(auto, unfolding(crate::specs::Reading::next))]
    pub fn skip(&mut self)
        ensures { self.new ≡ spec.next self.old }
    {
        if let [token, rest @ ..] = self.rest {
            self.taken = token.start();
            self.rest = rest;
            self.strings = strings_after(token.kind, self.strings);
        }
    }

    /// Takes the next token, which must be of this kind. Any other is a syntax error.
    #[tactic(auto, unfolding(crate::specs::Reading::expect))]
    pub fn expect(&mut self, kind: TokenKind) -> Result<Spelled<'t>, ParseFault>
        ensures { TakesToken (spec.expect kind self.old) result self.new }
    {
        match self.rest {
            [token, rest @ ..] if token.kind == kind => {
                let taken = spelled_token(token, self.strings);
                self.taken = token.start();
                self.rest = rest;
                self.strings = strings_after(token.kind, self.strings);
                Ok(taken)
            }
            _ => Err(ParseFault::Syntax(self.offset())),
        }
    }

    /// Takes the next token, which must be a word, reserved or not. Any other is a syntax error.
    #[tactic(auto, unfolding(crate::specs::Reading::any_word))]
    pub fn expect_any_word(&mut self) -> Result<Spelled<'t>, ParseFault>
        ensures { TakesToken (any_word self.old) result self.new }
    {
        match self.rest {
            [token, rest @ ..] if is_word_kind(token.kind) => {
                let taken = spelled_token(token, self.strings);
                self.taken = token.start();
                self.rest = rest;
                self.strings = strings_after(token.kind, self.strings);
                Ok(taken)
            }
            _ => Err(ParseFault::Syntax(self.offset())),
        }
    }

    /// The name of this text. It shares the text of an equal one among the first names that were read.
    pub(crate) fn name(&mut self, alloc: Global, path: &str) -> Result<Name, AllocError>
        ensures name { IfOk result (λ n. n ≡ path.now) }
        ensures unmoved { self.new ≡ self.old }
    {
        for name in &self.names {
            if name.as_str() == path {
                return name.try_clone(alloc);
            }
        }
        let name = Name::new(alloc, Text::read(alloc, path)?)?;
        if self.names.len() < NAMES {
            self.names.push(name.try_clone(alloc)?)?;
        }
        Ok(name)
    }

    /// The place at which the next token begins, 0 where there is none.
    pub fn start(&self) -> usize
        ensures { result ≡ start_of self.now }
    {
        match self.rest {
            [] => 0,
            [token, ..] => token.start(),
        }
    }

    /// Notes that `::` follows a path that ends here: a fault is then reported after the `::`.
    pub fn pass_colons(&mut self)
        ensures { self.new ≡ self.old }
    {
        match self.rest {
            [colons] if colons.kind == TokenKind::DoubleColon => self.reached = self.end,
            [colons, after, ..] if colons.kind == TokenKind::DoubleColon => {
                self.reached = after.start();
            }
            _ => {}
        }
    }

    /// The place of a syntax error: the start of the first token at which no reading goes on, or the end of the text.
    pub fn offset(&self) -> usize {
        let next = match self.rest {
            [] => self.end,
            [token, ..] => token.start(),
        };
        next.max(self.reached)
    }

    /// Where the token that was taken last begins.
    pub fn taken(&self) -> usize {
        self.taken
    }
}

// A token with its letters, where `strings` are those of the strings from it on.
fn spelled_token<'t>(token: &'t Token<'t>, strings: &'t [Letters<'t>]) -> Spelled<'t>
    ensures { mark result ≡ spells.first_mark (lexeme token.now) strings.now }
{
    Spelled {
        token,
        letters: letters_at(token.kind, strings),
    }
}

// The letters of a token of this kind, where `strings` are those of the strings from it on.
fn letters_at<'t>(kind: TokenKind, strings: &'t [Letters<'t>]) -> Option<&'t Letters<'t>>
    ensures { letters_of result ≡ spells.letters_at kind strings.now }
{
    if kind != TokenKind::String {
        return None;
    }
    match strings {
        [] => None,
        [letters, ..] => Some(letters),
    }
}

// The letters of the strings after a token of this kind, where `strings` are those from it on.
fn strings_after<'t>(kind: TokenKind, strings: &'t [Letters<'t>]) -> &'t [Letters<'t>]
    ensures { result.now ≡ spells.strings_behind kind strings.now }
{
    if kind != TokenKind::String {
        return strings;
    }
    match strings {
        [] => &[],
        [_, rest @ ..] => rest,
    }
}

// Whether a token of this kind is a word.
fn is_word_kind(kind: TokenKind) -> bool
    ensures { result ≡ is_word_kind kind }
{
    match kind {
        TokenKind::True
        | TokenKind::False
        | TokenKind::If
        | TokenKind::Then
        | TokenKind::Else
        | TokenKind::In
        | TokenKind::Is
        | TokenKind::Like
        | TokenKind::Has
        | TokenKind::Identifier => true,
        _ => false,
    }
}
