//! What the strings of a schema text denote.
ghost use Rattle.std.specs.Prelude.{◌≡◌, IfOk, MatchOption, MatchResult, map, string_bytes, List, ℕ};
ghost use Rattle.cedar_schema_text.specs.Marks.{mark, marks, written};
ghost use Rattle.cedar_schema_text.specs.Strings.{AreRead, IsRead, IsBadString, HasBadString, DenotesText};
ghost use Rattle.cedar_schema_text.specs.declared.token_kind.TokenKind.TheVariants.{String};
ghost use Rattle.cedar_schema_text.specs.Private.Contract.{IsRefusedFor};
ghost use Rattle.cedar_schema_text.specs.Private.Denoting.{is_memory};

use crate::fault::SchemaTextFault;
use crate::token::{Piece, Token};
use crate::token_kind::TokenKind;
use cedar_text::{TextFault, letters, one_spelling, plain_text};
use std::alloc::{AllocError, Global};

// Whether a string has no letters since memory ran out.
fn is_memory(fault: TextFault) -> bool
    ensures { result ≡ is_memory fault }
{
    matches!(fault, TextFault::OutOfMemory)
}

// The text that a string denotes, which is written with its quotes, if it denotes one.
fn denoted(alloc: Global, raw: &str) -> Result<Option<String>, AllocError>
    ensures { IfOk result (λ found. MatchOption found ((text : List ℕ) → DenotesText raw.now text → ⊥)
        (λ text. DenotesText raw.now (string_bytes text))) }
{
    // A string has one list of letters.
    one_spelling();
    match letters(alloc, raw) {
        Ok(letters) => plain_text(alloc, &letters),
        Err(fault) if is_memory(fault) => Err(AllocError),
        Err(_) => Ok(None),
    }
}

// The token that is read from a string as it is written.
fn read_string(alloc: Global, piece: &Piece<'_>) -> Result<Token, SchemaTextFault>
    requires { piece.now.kind ≡ String }
    ensures { MatchResult result (λ t. IsRead (written piece.now) (mark t))
        (λ fault. IsRefusedFor (λ f. IsBadString f (written piece.now)) fault) }
{
    let Some(text) = denoted(alloc, piece.text)? else {
        return Err(SchemaTextFault::Syntax(piece.start));
    };
    Ok(Token {
        kind: piece.kind,
        start: piece.start,
        text,
    })
}

// The token that is read from one as it is written.
fn read_one(alloc: Global, piece: &Piece<'_>) -> Result<Token, SchemaTextFault>
    ensures { MatchResult result (λ t. IsRead (written piece.now) (mark t))
        (λ fault. IsRefusedFor (λ f. IsBadString f (written piece.now)) fault) }
{
    if piece.kind == TokenKind::String {
        return read_string(alloc, piece);
    }
    let text = String::from_str(alloc, piece.text)?;
    Ok(Token {
        kind: piece.kind,
        start: piece.start,
        text,
    })
}

/// The tokens that are read from those as they are written.
///
/// # Errors
///
/// 310 where a string denotes no text, and 1 when out of memory.
pub(crate) fn read_strings(
    alloc: Global,
    pieces: &[Piece<'_>],
) -> Result<Vec<Token>, SchemaTextFault>
    ensures { MatchResult result
        (λ v. AreRead (map written pieces.now) (marks v.items)) (IsRefusedFor (HasBadString (map written pieces.now))) }
{
    let mut found = Vec::with_capacity(alloc, pieces.len())?;
    for piece in pieces {
        found.push(read_one(alloc, piece)?)?;
    }
    Ok(found)
}
