//! Parts of the objects of policies in JSON.
ghost use Rattle.std.specs.Prelude.{◌≡◌, IfOk, Some, option_map};
ghost use Rattle.serde_json.specs.View.{members_view, view};
ghost use Rattle.cedar_policies_json.specs.Parts.{name_at, name_of, only_at, only_member, uid_read, uid_written};
ghost use Rattle.std.specs.Prelude.{string_bytes};

use cedar_conform_values::{size_of, text_at, uid_of_object};
use cedar_parser_tokens::{Content, WrittenUid};
use cedar_value::{Name, Text, Uid, is_name_tells_names};
use serde_json::{Map, Value};
use std::alloc::{AllocError, Global};

/// The value at the key of an object that has no other key.
pub(crate) fn only_at<'v>(json: &'v Value, key: &str) -> Option<&'v Value>
    ensures { option_map (λ v. view v.now) result ≡ only_at key.now (view json.now) }
{
    if size_of(json) != 1 {
        return None;
    }
    json.get(key)
}

/// The key and the value of the one member of an object.
pub(crate) fn only_member(members: &Map<String, Value>) -> Option<(&String, &Value)>
    ensures { option_map (λ p. (string_bytes p.0.now, view p.1.now)) result ≡ only_member (members_view members.now.entries) }
{
    let mut entries = members.iter();
    let first = entries.next()?;
    match entries.next() {
        Some(_) => None,
        None => Some(first),
    }
}

/// The name that a string is.
pub(crate) fn read_name(alloc: Global, text: &str) -> Result<Option<Name>, AllocError>
    ensures { IfOk result (λ found. found ≡ name_of text.now) }
{
    is_name_tells_names();
    Name::read(alloc, text)
}

/// The name at a key.
pub(crate) fn name_at(alloc: Global, json: &Value, key: &str) -> Result<Option<Name>, AllocError>
    ensures { IfOk result (λ found. found ≡ name_at key.now (view json.now)) }
{
    match text_at(json, key) {
        Some(text) => read_name(alloc, text),
        None => Ok(None),
    }
}

/// A string, as a policy text writes one.
pub(crate) fn content(alloc: Global, text: &str) -> Result<Content, AllocError>
    ensures { IfOk result (λ c. c ≡ Some text.now) }
{
    Ok(Content::new(Some(Text::read(alloc, text)?), 0))
}

/// The uid of an object of exactly `type` and `id`, or of one that is alone at `__entity`.
pub(crate) fn read_uid(alloc: Global, json: &Value) -> Result<Option<WrittenUid>, AllocError>
    ensures { IfOk result (λ found. found ≡ uid_read (view json.now)) }
{
    is_name_tells_names();
    match uid_of_object(alloc, json)? {
        Some(uid) => Ok(Some(written(uid))),
        None => Ok(None),
    }
}

// The uid as a policy text writes it.
fn written(uid: Uid) -> WrittenUid
    ensures { (result.ty ≡ uid.ty) × (result.id ≡ Some uid.id) }
{
    WrittenUid {
        ty: uid.ty,
        id: Content::new(Some(uid.id), 0),
    }
}
