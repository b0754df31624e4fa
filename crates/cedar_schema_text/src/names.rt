//! Names and paths.
ghost use Rattle.std.specs.Prelude.{◌≡◌, ◌++◌, OnOk, length, codes, string_bytes};
ghost use Rattle.cedar_schema_text.specs.Marks.{mark, lent_marks};
ghost use Rattle.cedar_schema_text.specs.Grammar as spec;
ghost use Rattle.cedar_schema_text.specs.Private.Contract.{Reads};

use crate::cursor::Cursor;
use crate::fault::SchemaTextFault;
use crate::token::Token;
use crate::token_kind::TokenKind;
use std::alloc::{AllocError, Global};

/// Reads a name, a word or a string (Cedar documentation, schema grammar: `Name`).
#[tactic(auto, unfolding(crate::specs::Grammar::name))]
pub(crate) fn read_name<'t>(tokens: &mut Cursor<'t>) -> Result<&'t Token, SchemaTextFault>
    ensures { Reads (λ t. mark t.now) (spec.name tokens.old) result tokens.new }
{
    if tokens.sees(TokenKind::String) {
        return tokens.expect(TokenKind::String);
    }
    tokens.expect(TokenKind::Word)
}

/// Reads a path as its text (Cedar documentation, schema grammar: `Path`).
#[tactic(auto, unfolding(crate::specs::Grammar::path))]
pub(crate) fn read_path(alloc: Global, tokens: &mut Cursor<'_>) -> Result<String, SchemaTextFault>
    ensures { Reads string_bytes (spec.path tokens.old) result tokens.new }
{
    let word = tokens.expect(TokenKind::Word)?;
    read_rest_of_path(alloc, word.text.as_str(), tokens)
}

// Reads the rest of a path after its first word.
#[tactic(auto, using(crate::proofs::Turns::one_left), unfolding(crate::specs::Grammar::path_from))]
fn read_rest_of_path(
    alloc: Global,
    first: &str,
    tokens: &mut Cursor<'_>,
) -> Result<String, SchemaTextFault>
    ensures { Reads string_bytes (spec.path_from (length tokens.old) first.now tokens.old) result tokens.new }
{
    let mut path = String::from_str(alloc, first)?;
    for _turn in 0..tokens.left() {
        if !path_goes_on(tokens) {
            return Ok(path);
        }
        tokens.skip();
        let word = tokens.expect(TokenKind::Word)?;
        push_word(&mut path, word.text.as_str())?;
    }
    Ok(path)
}

fn path_goes_on(tokens: &Cursor<'_>) -> bool
    ensures { result ≡ spec.goes_on tokens.now }
{
    tokens.sees(TokenKind::DoubleColon) && tokens.sees_second(TokenKind::Word)
}

fn push_word(path: &mut String, word: &str) -> Result<(), AllocError>
    ensures { OnOk result (string_bytes path.new ≡ string_bytes path.old ++ codes "::" ++ word.now) }
{
    path.push_str("::")?;
    path.push_str(word)?;
    Ok(())
}

// Reads a name of what is declared, which may be a string where `quoted` says so.
#[tactic(auto, unfolding(crate::specs::Grammar::declared_name))]
fn read_declared_name<'t>(
    quoted: bool,
    tokens: &mut Cursor<'t>,
) -> Result<&'t Token, SchemaTextFault>
    ensures { Reads (λ t. mark t.now) (spec.declared_name quoted tokens.old) result tokens.new }
{
    if quoted {
        return read_name(tokens);
    }
    tokens.expect(TokenKind::Word)
}

/// Reads names with commas between them, which may be strings where `quoted` says so (Cedar documentation, schema grammar:
/// `Entity`, `Action`).
#[tactic(auto, unfolding(crate::specs::Grammar::names))]
pub(crate) fn read_names<'t>(
    alloc: Global,
    quoted: bool,
    tokens: &mut Cursor<'t>,
) -> Result<Vec<&'t Token>, SchemaTextFault>
    ensures { Reads (λ v. lent_marks v.items) (spec.names quoted tokens.old) result tokens.new }
{
    let mut found = Vec::new(alloc);
    found.push(read_declared_name(quoted, tokens)?)?;
    read_further_names(quoted, found, tokens)
}

#[tactic(auto, using(crate::proofs::Turns::one_left, crate::proofs::Grown::one_more_mark), unfolding(crate::specs::Grammar::names_from))]
fn read_further_names<'t>(
    quoted: bool,
    first: Vec<&'t Token>,
    tokens: &mut Cursor<'t>,
) -> Result<Vec<&'t Token>, SchemaTextFault>
    ensures { Reads (λ v. lent_marks v.items) (spec.names_from quoted (length tokens.old) (lent_marks first.entry.items) tokens.old)
        result tokens.new }
{
    let mut found = first;
    for _turn in 0..tokens.left() {
        if !tokens.sees(TokenKind::Comma) {
            return Ok(found);
        }
        tokens.skip();
        found.push(read_declared_name(quoted, tokens)?)?;
    }
    Ok(found)
}
