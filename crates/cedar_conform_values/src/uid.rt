//! Uids in JSON.
ghost use Rattle.std.specs.Prelude.{◌≡◌, IfOk, MatchOption, option_map};
ghost use Rattle.serde_json.specs.View.{view};
ghost use Rattle.cedar_conform_values.specs.Uids.{plain_uid, uid_object};
ghost use Rattle.cedar_conform_values.specs.Private.UidTexts.{uid_of};
ghost use Rattle.cedar_conform_values.specs.WrittenUids.{IsUidObject, WritesUid};
ghost use Rattle.cedar_parser_tokens.specs.UidText.{IsUidText};
ghost use Rattle.cedar_value.specs.declared.uid.Uid.{Uid as UidTree};

use crate::object::{inside, size_of, text_at};
use cedar_parser_tokens::{ParseFault, read_uid};
use cedar_value::{Name, Text, Uid};
use serde_json::Value;
use std::alloc::{AllocError, Global};

/// The texts of a uid, lent by the JSON.
#[derive(Clone, Copy)]
pub(crate) struct UidTexts<'v> {
    pub(crate) ty: &'v str,
    pub(crate) id: &'v str,
}

fn plain_uid(json: &Value) -> Option<UidTexts<'_>>
    ensures { option_map uid_of result ≡ plain_uid (view json.now) }
{
    if size_of(json) != 2 {
        return None;
    }
    let ty = text_at(json, "type")?;
    let id = text_at(json, "id")?;
    Some(UidTexts { ty, id })
}

/// The texts of the uid that an object writes: an object of exactly `type` and `id`, or one that is alone at `__entity`.
pub(crate) fn uid_object(json: &Value) -> Option<UidTexts<'_>>
    ensures { option_map uid_of result ≡ uid_object (view json.now) }
{
    plain_uid(inside(json, "__entity"))
}

/// The uid that a JSON writes: a string such as `User::"ann"`, or an object as `uid_of_object` reads it (Cedar documentation,
/// entities and context in JSON). None for a JSON that writes none.
///
/// # Errors
///
/// Fails only when out of memory.
pub fn written_uid(alloc: Global, json: &Value) -> Result<Option<Uid>, AllocError>
    ensures { IfOk result (λ found. MatchOption found ((u : UidTree) → ¬ WritesUid (view json.now) u) (WritesUid (view json.now))) }
{
    match json.as_str() {
        Some(text) => uid_of_text(alloc, text),
        None => uid_of_object(alloc, json),
    }
}

/// The uid that a string denotes, for example `User::"ann"` (Cedar language reference, entity identifiers). None for a string that
/// denotes none.
///
/// # Errors
///
/// Fails only when out of memory.
pub fn uid_of_text(alloc: Global, text: &str) -> Result<Option<Uid>, AllocError>
    ensures { IfOk result (λ found. MatchOption found ((u : UidTree) → ¬ (IsUidText text.now u)) (IsUidText text.now)) }
{
    match read_uid(alloc, text) {
        Ok(uid) => Ok(Some(uid)),
        Err(fault) => match fault {
            ParseFault::OutOfMemory => Err(AllocError),
            _ => Ok(None),
        },
    }
}

/// The uid that an object of exactly `type` and `id` writes, or one that is alone at `__entity`; the type has to be a name
/// (Cedar documentation, entities and context in JSON). None for another JSON.
///
/// # Errors
///
/// Fails only when out of memory.
pub fn uid_of_object(alloc: Global, json: &Value) -> Result<Option<Uid>, AllocError>
    ensures { IfOk result (λ found. MatchOption found ((u : UidTree) → ¬ IsUidObject (view json.now) u) (IsUidObject (view json.now))) }
{
    let Some(texts) = uid_object(json) else {
        return Ok(None);
    };
    match Name::read(alloc, texts.ty)? {
        Some(ty) => {
            let id = Text::read(alloc, texts.id)?;
            Ok(Some(Uid { ty, id }))
        }
        None => Ok(None),
    }
}
