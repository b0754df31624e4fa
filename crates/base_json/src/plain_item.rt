//! Items of a list that are objects in the plain form, read from their bytes without tokens.
ghost use Rattle.std.specs.Prelude.{IfOk, IfSome};
ghost use Rattle.base_json.specs.LentItems.{item_view, value_view};
ghost use Rattle.base_json.specs.Private.Plain.{ReadsMember, ReadsNested, ReadsValue};

use crate::behind::{is_at, next_at, skip_spaces};
use crate::item_value::ItemValue;
use crate::lent_item::{ItemMember, LentItem};
use crate::plain_member::{after_value, key_at};
use crate::plain_object::{object_at, objects_at};
use crate::plain_scalar::scalar_at;
use std::alloc::{AllocError, Global};

// For how many members there is room at first.
const USUAL_MEMBERS: usize = 4;

/// The object at a place where its members are in the plain form, and may also be objects or lists of objects, and the place after it.
/// None for another object.
pub(crate) fn item_at<'t>(
    alloc: Global,
    text: &'t str,
    at: usize,
) -> Result<Option<(LentItem<'t>, usize)>, AllocError>
    ensures { IfOk result (λ o. IfSome o (λ found. ReadsNested 3 text.now at (item_view found.0) found.1)) }
{
    let bytes = text.as_bytes();
    let Some(brace) = next_at(bytes, at, b'{') else {
        return Ok(None);
    };
    let mut next = skip_spaces(bytes, brace + 1);
    let mut members = Vec::with_capacity(alloc, USUAL_MEMBERS)?;
    'members: while !is_at(bytes, next, b'}') {
        let Some((member, after)) = item_member_at(alloc, text, next)? else {
            return Ok(None);
        };
        members.push(member)?;
        next = after;
    }
    Ok(Some((LentItem { members }, next + 1)))
}

// The member at a place, and the place of the key that comes next, or of the brace that closes the object.
fn item_member_at<'t>(
    alloc: Global,
    text: &'t str,
    at: usize,
) -> Result<Option<(ItemMember<'t>, usize)>, AllocError>
    ensures { IfOk result (λ o. IfSome o (λ found. ReadsMember 2 text.now at found.0.key.now (value_view found.0.value) found.1)) }
{
    let Some((key, begin)) = key_at(text, at) else {
        return Ok(None);
    };
    let Some((value, end)) = value_at(alloc, text, begin)? else {
        return Ok(None);
    };
    match after_value(text.as_bytes(), end) {
        Some(next) => Ok(Some((ItemMember { key, value }, next))),
        None => Ok(None),
    }
}

// The value at a place, and the place after it.
fn value_at<'t>(
    alloc: Global,
    text: &'t str,
    at: usize,
) -> Result<Option<(ItemValue<'t>, usize)>, AllocError>
    ensures { IfOk result (λ o. IfSome o (λ found. ReadsValue 2 text.now at (value_view found.0) found.1)) }
{
    match text.as_bytes().get(at) {
        Some(b'{') => match object_at(alloc, text, at)? {
            Some((object, end)) => Ok(Some((ItemValue::Object(object), end))),
            None => Ok(None),
        },
        Some(b'[') => match objects_at(alloc, text, at)? {
            Some((objects, end)) => Ok(Some((ItemValue::Objects(objects), end))),
            None => Ok(None),
        },
        _ => match scalar_at(text, at) {
            Some((part, end)) => Ok(Some((ItemValue::of_part(part), end))),
            None => Ok(None),
        },
    }
}
