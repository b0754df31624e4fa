//! The uid of a text.
ghost use Rattle.std.specs.Prelude.{◌≡◌, IfOk, IfErr, is_some, List, ℕ, ◌⊎◌};
ghost use Rattle.cedar_value.specs.declared.uid.Uid.{Uid as Uids};
ghost use Rattle.cedar_parser_tokens.specs.UidText.{IsUidText, HasUidFault, AnswersUid};

use crate::content::Content;
use crate::names::parse_entity;
use crate::parse_fault::ParseFault;
use crate::plain_uid::plain_uid;
use crate::spelling::spelled_tokens;
use cedar_text::{letters_or_none, one_list, one_spelling, tokens_or_none};
use cedar_value::Uid;
use std::alloc::Global;

/// The uid of a text, for example `User::"ann"` (Cedar language reference, entity identifiers). The text may contain white
/// space and comments.
///
/// # Errors
///
/// 1 when out of memory; 101 to 104 where the text has no tokens; 103 for the escape `\*` in the id; 201 where the tokens are
/// not a uid.
pub fn read_uid(alloc: Global, source: &str) -> Result<Uid, ParseFault>
    // The result is the uid of the text.
    ensures found { IfOk result (IsUidText source.now) }
    // If the text is that of a uid, the uid is the result, unless memory runs out.
    ensures only { (uid : Uids) → IsUidText source.now uid → AnswersUid uid result }
    // Each fault is reported only where the text has it.
    ensures fault { IfErr result (HasUidFault source.now) }
{
    // No text is that of two uids.
    one_uid();
    if let Some(plain) = plain_uid(alloc, source)? {
        return Ok(plain);
    }
    let spelled = spelled_tokens(alloc, source)?;
    let mut cursor = spelled.cursor(source.len());
    let written = parse_entity(alloc, &mut cursor)?;
    if cursor.left() > 0 {
        return Err(ParseFault::Syntax(cursor.offset()));
    }
    if !has_text(&written.id) {
        return Err(ParseFault::EscapedStar(written.id.place()));
    }
    let uid = written.to_uid(alloc)?;
    Ok(uid)
}

// Whether a string denotes a text, since it has no escape `\*`.
fn has_text(content: &Content) -> bool
    ensures { result ≡ is_some content.now }
{
    match content.text() {
        Some(_) => true,
        None => false,
    }
}

/// A text is that of a uid or of none, and the definitions decide which. A law: it runs no code.
pub fn uid_or_none()
    ensures { (source : List ℕ) → ((uid : Uids) × IsUidText source uid) ⊎ ((uid : Uids) → IsUidText source uid → ⊥) }
{
    // A text has tokens or none, and a string has letters or none.
    one_list();
    one_spelling();
    tokens_or_none();
    letters_or_none();
}

/// No text is that of two uids (Cedar language reference, entity identifiers). A law: it runs no code.
pub fn one_uid()
    ensures { (source : List ℕ) (uid other : Uids) → IsUidText source uid → IsUidText source other → uid ≡ other }
{
    // A text has one list of tokens, and a string one list of letters.
    one_list();
    one_spelling();
}
