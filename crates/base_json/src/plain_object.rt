//! Objects in the plain form, read from their bytes without tokens.
ghost use Rattle.std.specs.Prelude.{IfOk, IfSome};
ghost use Rattle.serde_json.specs.Data.{array};
ghost use Rattle.base_json.specs.LentObjects.{items_of_objects, object_view};
ghost use Rattle.base_json.specs.Private.Plain.{ReadsNested};

use crate::behind::{is_at, left_behind, next_at, skip_spaces};
use crate::lent_object::LentObject;
use crate::plain_member::member_at;
use std::alloc::{AllocError, Global};

// For how many members there is room at first.
const USUAL_MEMBERS: usize = 8;

/// The object at a place where its members are in the plain form, and the place after it. None for another object.
pub(crate) fn object_at<'t>(
    alloc: Global,
    text: &'t str,
    at: usize,
) -> Result<Option<(LentObject<'t>, usize)>, AllocError>
    ensures { IfOk result (λ o. IfSome o (λ found. ReadsNested 1 text.now at (object_view found.0) found.1)) }
{
    let bytes = text.as_bytes();
    let Some(brace) = next_at(bytes, at, b'{') else {
        return Ok(None);
    };
    let mut next = skip_spaces(bytes, brace + 1);
    let mut members = Vec::with_capacity(alloc, USUAL_MEMBERS)?;
    'members: while !is_at(bytes, next, b'}') {
        let Some((member, after)) = member_at(text, next) else {
            return Ok(None);
        };
        members.push(member)?;
        next = after;
    }
    Ok(Some((LentObject { members }, next + 1)))
}

/// The objects of the list at a place where all its items are objects in the plain form, and the place after the list. None for another
/// list.
pub(crate) fn objects_at<'t>(
    alloc: Global,
    text: &'t str,
    at: usize,
) -> Result<Option<(Vec<LentObject<'t>>, usize)>, AllocError>
    ensures { IfOk result (λ o. IfSome o (λ found. ReadsNested 2 text.now at (array (items_of_objects found.0.items)) found.1)) }
{
    let bytes = text.as_bytes();
    let Some(bracket) = next_at(bytes, at, b'[') else {
        return Ok(None);
    };
    let mut next = skip_spaces(bytes, bracket + 1);
    let mut objects = Vec::new(alloc);
    'objects: while !is_at(bytes, next, b']') {
        let Some((object, end)) = object_at(alloc, text, next)? else {
            return Ok(None);
        };
        let Some(after) = left_behind(bytes, end) else {
            return Ok(None);
        };
        objects.push(object)?;
        next = after;
    }
    Ok(Some((objects, next + 1)))
}
