//! The tokens of a text with the letters of its strings.
ghost use Rattle.std.specs.Prelude.{◌≡◌, IfOk, IfErr};
ghost use Rattle.cedar_text.specs.Lexeme.{lexemes};
ghost use Rattle.cedar_parser_tokens.specs.Marks.{Marks, IsMarked, AreNormal};
ghost use Rattle.cedar_parser_tokens.specs.Spelling.{HasMarks, HasMarksFault};
ghost use Rattle.cedar_parser_tokens.specs.Private.Spells.{Spells};

use crate::cursor::Cursor;
use crate::letters::Letters;
use crate::parse_fault::ParseFault;
use cedar_text::{Token, TokenKind, normal_tokens, one_spelling, tokens};
use std::alloc::{AllocError, Global};
use std::marker::Model;

/// The tokens of a text, and the letters of those that are strings, which contracts see as a list of `Mark`s.
#[derive(Drop)]
pub struct SpelledTokens<'t> {
    tokens: Vec<Token<'t>>,
    /// The letters of the first string, of the second, and so on.
    strings: Vec<Letters<'t>>,
}

impl<'t> Model for SpelledTokens<'t> {
    ghost use Rattle.std.specs.Prelude.{List};
    ghost use Rattle.cedar_text.specs.Lexeme.{lexemes};
    ghost use Rattle.cedar_parser_tokens.specs.Marks.{Mark};
    ghost use Rattle.cedar_parser_tokens.specs.Private.Spells.{marks_with};

    ghost Value = { List Mark };

    ghost view = { λ s. marks_with (lexemes s.tokens.items) s.strings.items };
}

impl<'t> SpelledTokens<'t> {
    /// The beginning of the tokens, of a text that ends at the byte `end`.
    pub fn cursor(&self, end: usize) -> Cursor<'_>
        ensures { result ≡ self.now }
    {
        Cursor::new(*self.tokens.allocator(), &self.tokens, &self.strings, end)
    }

    /// The normal tokens of these: those that spell the same in the profile, where Cedar 4 has spellings beside it (Cedar
    /// language reference, grammar).
    ///
    /// # Errors
    ///
    /// Fails only when out of memory.
    pub fn normal(&self, alloc: Global) -> Result<SpelledTokens<'t>, AllocError>
        ensures { IfOk result (AreNormal self.now) }
    {
        let tokens = normal_tokens(alloc, &self.tokens)?;
        let strings = letters_of_strings(alloc, &tokens)?;
        Ok(SpelledTokens { tokens, strings })
    }
}

/// The tokens of a text, each string with the letters that it writes (Cedar language reference, grammar). A token takes 24
/// bytes of memory, and a string at most 32 more. A byte of a string takes 8, or none where the string is ASCII without `\` and `*`.
///
/// # Errors
///
/// 1 when out of memory, or where a token begins at 4 GiB or later, and 101 to 104 where the text has no tokens.
pub fn spelled_tokens(alloc: Global, source: &str) -> Result<SpelledTokens<'_>, ParseFault>
    // The result is the tokens of the text.
    ensures found { IfOk result (IsMarked source.now) }
    // If the text has tokens, they are the result, unless memory runs out.
    ensures only { (ms : Marks) → IsMarked source.now ms → HasMarks ms result }
    // Each fault is reported only where the text has it.
    ensures fault { IfErr result (HasMarksFault source.now) }
{
    // A string has one list of letters.
    one_spelling();
    let tokens = tokens(alloc, source)?;
    let strings = letters_of_strings(alloc, &tokens)?;
    Ok(SpelledTokens { tokens, strings })
}

// The letters of the strings among tokens, in order. They are counted before the list of them is made.
fn letters_of_strings<'t>(
    alloc: Global,
    tokens: &[Token<'t>],
) -> Result<Vec<Letters<'t>>, AllocError>
    ensures { IfOk result (λ v. Spells (lexemes tokens.now) v.items) }
{
    let mut found = Vec::with_capacity(alloc, count_strings(tokens))?;
    for token in tokens {
        if token.kind == TokenKind::String {
            found.push(Letters::read(alloc, token.text)?)?;
        }
    }
    Ok(found)
}

// How many of the tokens are strings.
fn count_strings(tokens: &[Token<'_>]) -> usize {
    let mut count = 0usize;
    for token in tokens {
        count = count.saturating_add(usize::from(token.kind == TokenKind::String));
    }
    count
}
