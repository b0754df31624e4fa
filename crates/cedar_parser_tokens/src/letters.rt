//! The letters of a string.
ghost use Rattle.std.specs.Prelude.{◌≡◌, ◌∷◌, ◌++◌, [], true, IfOk, IfSome, map};
ghost use Rattle.std.specs.List.{list_all};
ghost use Rattle.cedar_text.specs.Letters.{IsSpelled};
ghost use Rattle.cedar_ext.specs.declared.pattern.Element.TheVariants as element_kind;
ghost use Rattle.cedar_parser_tokens.specs.Marks.{content_of, element_of, pattern_of};
ghost use Rattle.cedar_parser_tokens.specs.Private.Kept.{is_own_letter};

use cedar_ext::{Element, Pattern};
use cedar_text::{Letter, letters, plain_text};
use cedar_value::Text;
use std::alloc::{AllocError, Global};
use std::marker::Model;

/// The letters of a string, which contracts see as a list of `Letter`s. Those of a plain string take no memory.
#[derive(Drop)]
pub struct Letters<'t> {
    kept: Kept<'t>,
}

// What is kept of the letters.
#[derive(Drop)]
enum Kept<'t> {
    // The text between the quotes, each byte of which is a letter of its own.
    Plain(&'t str),
    // The letters one by one.
    Listed(Vec<Letter>),
}

impl<'t> Model for Letters<'t> {
    ghost use Rattle.std.specs.Prelude.{List};
    ghost use Rattle.cedar_text.specs.declared.letter.Letter.{Letter as LetterTree};
    ghost use Rattle.cedar_parser_tokens.specs.Private.Kept.{letters_in, IsKept};

    ghost Value = { List LetterTree };

    ghost view = { λ l. letters_in l.kept };

    ghost invariant = { λ l. IsKept l.kept };
}

impl<'t> Letters<'t> {
    /// The letters of a string token (Cedar language reference, grammar: `STR`). The text is that of the token, with its quotes, so only
    /// memory can run out.
    pub(crate) fn read(alloc: Global, text: &'t str) -> Result<Letters<'t>, AllocError>
        ensures { IfOk result (IsSpelled text.now) }
    {
        if let Some(plain) = between_quotes(text)
            && are_own_letters(plain.as_bytes())
        {
            return Ok(Letters {
                kept: Kept::Plain(plain),
            });
        }
        match letters(alloc, text) {
            Ok(listed) => Ok(Letters {
                kept: Kept::Listed(listed),
            }),
            Err(_) => Err(AllocError),
        }
    }

    /// The text that they denote in a string that is not a pattern, or none with an escape `\*`.
    pub(crate) fn text(&self, alloc: Global) -> Result<Option<Text>, AllocError>
        ensures { IfOk result (λ text. text ≡ content_of self.now) }
    {
        match &self.kept {
            Kept::Plain(text) => Ok(Some(Text::read(alloc, text)?)),
            Kept::Listed(letters) => match plain_text(alloc, letters)? {
                Some(text) => Ok(Some(Text::new(text))),
                None => Ok(None),
            },
        }
    }

    /// The pattern that they write.
    pub(crate) fn pattern(&self, alloc: Global) -> Result<Pattern, AllocError>
        ensures { IfOk result (λ p. p ≡ pattern_of self.now) }
    {
        match &self.kept {
            Kept::Plain(text) => Ok(Pattern::new(plain_elements(alloc, text.as_bytes())?)),
            Kept::Listed(letters) => Ok(Pattern::new(elements(alloc, letters)?)),
        }
    }
}

// The text between quotes.
fn between_quotes(text: &str) -> Option<&str>
    ensures { IfSome result (λ inner. text.now ≡ 34 ∷ inner.now ++ 34 ∷ []) }
{
    text.strip_prefix('"')?.strip_suffix('"')
}

fn are_own_letters(bytes: &[u8]) -> bool
    ensures { result ≡ list_all is_own_letter bytes.now }
{
    bytes.iter().all(|byte| is_own_letter(*byte))
}

// Whether the byte is a character of ASCII that a string writes as itself, and a pattern too.
fn is_own_letter(byte: u8) -> bool
    ensures { result ≡ is_own_letter byte }
{
    byte < 128 && byte != b'"' && byte != b'\\' && byte != b'*'
}

// The elements of a pattern that has each of these characters of ASCII.
fn plain_elements(alloc: Global, bytes: &[u8]) -> Result<Vec<Element>, AllocError>
    ensures { IfOk result (λ found. found.items ≡ map element_kind.Character bytes.now) }
{
    let mut found = Vec::with_capacity(alloc, bytes.len())?;
    for byte in bytes {
        found.push(Element::Character(char::from(*byte)))?;
    }
    Ok(found)
}

// The elements of a pattern that letters write.
fn elements(alloc: Global, letters: &[Letter]) -> Result<Vec<Element>, AllocError>
    ensures { IfOk result (λ found. found.items ≡ map element_of letters.now) }
{
    let mut found = Vec::with_capacity(alloc, letters.len())?;
    for letter in letters {
        found.push(element(*letter))?;
    }
    Ok(found)
}

// The element of a pattern that a letter writes.
fn element(letter: Letter) -> Element
    ensures { result ≡ element_of letter }
{
    match letter {
        Letter::Character(character) => Element::Character(character),
        Letter::Star => Element::Star,
        Letter::EscapedStar => Element::Character('*'),
    }
}
