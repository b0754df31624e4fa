//! Members of objects in the plain form, read from their bytes without tokens.
ghost use Rattle.std.specs.Prelude.{◌≡◌, ◌∷◌, drop, IfSome};
ghost use Rattle.json.specs.Lex.{tokens};
ghost use Rattle.json.specs.Token.{key};
ghost use Rattle.base_json.specs.LentObjects.{part_view};
ghost use Rattle.base_json.specs.Private.Plain.{HasNoColon, ReadsMember, tokens_after};

use crate::behind::{next_at, skip_spaces};
use crate::lent_object::LentMember;
use crate::plain_scalar::{scalar_at, string_at};

/// The member at a place where its key and its value are in the plain form, and the place of the key that comes next, or of the brace that
/// closes the object. None for another member.
pub(crate) fn member_at(text: &str, at: usize) -> Option<(LentMember<'_>, usize)>
    ensures { IfSome result (λ found. ReadsMember 0 text.now at found.0.key.now (part_view found.0.value) found.1) }
{
    let (key, begin) = key_at(text, at)?;
    let (value, end) = scalar_at(text, begin)?;
    let next = after_value(text.as_bytes(), end)?;
    Some((LentMember { key, value }, next))
}

/// The key at a place, and the place of its value.
pub(crate) fn key_at(text: &str, at: usize) -> Option<(&str, usize)>
    ensures { IfSome result (λ found. tokens (drop at text.now) ≡ key found.0.now ∷ tokens (drop found.1 text.now)) }
{
    let bytes = text.as_bytes();
    let (key, end) = string_at(text, at)?;
    let colon = next_at(bytes, end, b':')?;
    Some((key, skip_spaces(bytes, colon + 1)))
}

/// After the value of a member: the place of the key that follows a comma, or of the brace that closes the object.
pub(crate) fn after_value(bytes: &[u8], end: usize) -> Option<usize>
    ensures colon { IfSome result (λ next. HasNoColon bytes.now end) }
    ensures tokens { IfSome result (λ next. tokens_after bytes.now end ≡ tokens (drop next bytes.now)) }
{
    if let Some(brace) = next_at(bytes, end, b'}') {
        return Some(brace);
    }
    let comma = next_at(bytes, end, b',')?;
    let quote = next_at(bytes, comma + 1, b'"')?;
    Some(quote)
}
