//! Members whose values are objects in the plain form.
ghost use Rattle.std.specs.Prelude.{◌<◌, length, IfOk, IfSome};
ghost use Rattle.json.specs.Lex.{tokens};
ghost use Rattle.base_json.specs.LentObjects.{object_view};
ghost use Rattle.base_json.specs.Members.{BeginsWith};

use crate::behind::skip_spaces;
use crate::lent_object::LentObject;
use crate::plain_member::{after_value, key_at};
use crate::plain_object::object_at;
use std::alloc::{AllocError, Global};

/// A member whose value is an object, for example `"context": {"age": 17}`. Its key and the members of the object are in the plain form.
#[derive(Drop)]
pub(crate) struct ObjectMember<'t> {
    pub(crate) key: &'t str,
    pub(crate) value: LentObject<'t>,
    /// The text after the member, and after the comma where there is one.
    pub(crate) rest: &'t str,
}

/// The member of this form that the text begins with, as if the brace of its object had been passed. None for another text, which may
/// still begin with a member.
pub(crate) fn object_member<'t>(
    alloc: Global,
    text: &'t str,
) -> Result<Option<ObjectMember<'t>>, AllocError>
    ensures begins { IfOk result (λ found. IfSome found (λ m. BeginsWith m.key.now (object_view m.value) (tokens text.now) (tokens m.rest.now))) }
    ensures shorter { IfOk result (λ found. IfSome found (λ m. length (tokens m.rest.now) < length (tokens text.now))) }
{
    let bytes = text.as_bytes();
    let Some((key, begin)) = key_at(text, skip_spaces(bytes, 0)) else {
        return Ok(None);
    };
    let Some((value, end)) = object_at(alloc, text, begin)? else {
        return Ok(None);
    };
    let Some(next) = after_value(bytes, end) else {
        return Ok(None);
    };
    match text.split_at_checked(next) {
        Some((_, rest)) => Ok(Some(ObjectMember { key, value, rest })),
        None => Ok(None),
    }
}
