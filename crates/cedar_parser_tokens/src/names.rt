//! The parsers of strings, keys, paths and uids.
ghost use Rattle.std.specs.Prelude.{◌≡◌, ◌++◌, OnOk, length, codes, string_bytes, true, List, ℕ, []};
ghost use Rattle.cedar_parser_tokens.specs.Reading as spec;
ghost use Rattle.cedar_text.specs.Tokens.{IsToken};
ghost use Rattle.cedar_text.specs.declared.token_kind.TokenKind.TheVariants.{Identifier};
ghost use Rattle.cedar_value.specs.Names.{is_identifier};
ghost use Rattle.cedar_parser_tokens.specs.Contract.{Reads};

use crate::content::{Content, WrittenUid};
use crate::cursor::Cursor;
use crate::parse_fault::ParseFault;
use cedar_text::TokenKind;
use cedar_value::{Name, Text};
use std::alloc::{AllocError, Global};

/// Parses a string (Cedar language reference, grammar: `STR`).
///
/// # Errors
///
/// 1 when out of memory, 201 where the next token is not a string.
#[tactic(auto, unfolding(crate::specs::Reading::text))]
pub fn parse_string(alloc: Global, tokens: &mut Cursor<'_>) -> Result<Content, ParseFault>
    ensures { Reads (spec.text tokens.old) result tokens.new }
{
    let token = tokens.expect(TokenKind::String)?;
    Ok(token.content(alloc)?)
}

/// Parses the key of a record, a word or a string (Cedar language reference, grammar: `RecInits`).
///
/// # Errors
///
/// 1 when out of memory, 201 where the next token is neither.
#[tactic(auto, unfolding(crate::specs::Reading::key))]
pub fn parse_key(alloc: Global, tokens: &mut Cursor<'_>) -> Result<Content, ParseFault>
    ensures { Reads (spec.key tokens.old) result tokens.new }
{
    if tokens.sees(TokenKind::String) {
        return parse_string(alloc, tokens);
    }
    let token = tokens.expect(TokenKind::Identifier)?;
    let word = Text::read(alloc, token.text())?;
    Ok(Content::new(Some(word), token.start()))
}

/// Parses the name of an entity type (Cedar language reference, grammar: `Path`).
///
/// # Errors
///
/// 1 when out of memory, 201 where the tokens do not begin with a name.
#[tactic(auto, unfolding(crate::specs::Reading::path), using(crate::proofs::Paths::ended))]
pub fn parse_path(alloc: Global, tokens: &mut Cursor<'_>) -> Result<Name, ParseFault>
    ensures { Reads (spec.path tokens.old) result tokens.new }
{
    let word = tokens.expect(TokenKind::Identifier)?;
    if !path_continues(tokens) {
        return Ok(tokens.name(alloc, word.text())?);
    }
    parse_longer_path(alloc, word.text(), tokens)
}

// Parses the rest of a path after its first word.
#[tactic(auto, using(crate::proofs::Turns::one_left), unfolding(crate::specs::Reading::path_from))]
fn parse_longer_path(
    alloc: Global,
    first: &str,
    tokens: &mut Cursor<'_>,
) -> Result<Name, ParseFault>
    ensures { Reads (spec.path_from (length tokens.old) first.now tokens.old) result tokens.new }
{
    let mut path = String::from_str(alloc, first)?;
    for _turn in 0..tokens.left() {
        if !path_continues(tokens) {
            return Ok(tokens.name(alloc, path.as_str())?);
        }
        tokens.skip();
        let word = tokens.expect(TokenKind::Identifier)?;
        push_identifier(&mut path, word.text())?;
    }
    Ok(tokens.name(alloc, path.as_str())?)
}

// Whether a path goes on here.
fn path_continues(tokens: &Cursor<'_>) -> bool
    ensures { result ≡ spec.goes_on tokens.now }
{
    tokens.sees(TokenKind::DoubleColon) && tokens.sees_second(TokenKind::Identifier)
}

// Adds a word to a path.
fn push_identifier(path: &mut String, word: &str) -> Result<(), AllocError>
    ensures { OnOk result (string_bytes path.new ≡ string_bytes path.old ++ codes "::" ++ word.now) }
{
    path.push_str("::")?;
    path.push_str(word)?;
    Ok(())
}

/// Parses a uid (Cedar language reference, grammar: `Entity`).
///
/// # Errors
///
/// 1 when out of memory, 201 where the tokens do not begin with a uid.
#[tactic(auto, unfolding(crate::specs::Reading::entity))]
pub fn parse_entity(alloc: Global, tokens: &mut Cursor<'_>) -> Result<WrittenUid, ParseFault>
    ensures { Reads (spec.entity tokens.old) result tokens.new }
{
    let ty = parse_path(alloc, tokens)?;
    parse_entity_of_type(alloc, ty, tokens)
}

/// Parses the rest of a uid whose type has been read.
///
/// # Errors
///
/// 1 when out of memory, 201 where the rest does not follow.
#[tactic(auto, unfolding(crate::specs::Reading::uid_of))]
pub fn parse_entity_of_type(
    alloc: Global,
    ty: Name,
    tokens: &mut Cursor<'_>,
) -> Result<WrittenUid, ParseFault>
    ensures { Reads (spec.uid_of ty tokens.old) result tokens.new }
{
    tokens.expect(TokenKind::DoubleColon)?;
    let id = parse_string(alloc, tokens)?;
    Ok(WrittenUid { ty, id })
}

/// The identifiers of names, also of those in schemas, are exactly the tokens that are identifiers (Cedar language reference,
/// grammar: `IDENT`). A law: it runs no code.
#[tactic(auto, using(crate::proofs::Identifiers::identifier_token, crate::proofs::Identifiers::token_identifier))]
pub fn one_identifier()
    // An identifier is one token.
    ensures token { (word : List ℕ) → is_identifier word ≡ true → IsToken Identifier 0 word [] }
    // The text of a token that is an identifier is an identifier of names.
    ensures name { (n : ℕ) (word rest : List ℕ) → IsToken Identifier n word rest → is_identifier word ≡ true }
{}
